//! A put with its acknowledgement between two interfaces, told line by line. Of an interface's calls those that have conditions are
//! made by `guarded_ni`; the program carries the messages.

mod sides;

use guarded_ni::{CallFault, deliver};
use portals_ni::Nic;
use ptl_types::{EqGot, Handle, Message};
use sides::{Initiator, Target};
use std::io;

/// Prints the events that wait in a queue, the oldest first.
fn tell_events(rt: &HostRuntime, rank: u32, nic: &mut Nic, eq: Handle) -> io::Result<()> {
    for _ in 0..sides::EVENTS {
        match nic.eq_get(eq) {
            Ok(EqGot::Empty) | Err(_) => return Ok(()),
            Ok(got) => println!(rt; "  rank {rank} sees: {got}")?,
        }
    }
    Ok(())
}

/// Carries a message to its target, and gives back the answer.
fn carry(rt: &HostRuntime, nic: &mut Nic, message: Message) -> io::Result<Option<Message>> {
    println!(rt; "on its way: {}", message.header())?;
    match deliver(nic, message) {
        Ok(delivered) => {
            println!(rt; "  arrived: {}", delivered.outcome)?;
            Ok(delivered.answer)
        }
        Err(misuse) => {
            println!(rt; "  {misuse}")?;
            Ok(None)
        }
    }
}

/// The put, and what comes of it.
fn tell(rt: &HostRuntime, initiator: &mut Initiator, target: &mut Target) -> io::Result<()> {
    let message = match initiator.put_two_bytes() {
        Ok(message) => message,
        Err(fault) => return println!(rt; "the put was refused: {fault}"),
    };
    let answer = carry(rt, &mut target.nic, message)?;
    tell_events(rt, 1, &mut target.nic, target.eq)?;
    if let Some(message) = answer {
        let _ = carry(rt, &mut initiator.nic, message)?;
    }
    tell_events(rt, 0, &mut initiator.nic, initiator.eq)?;
    if let Ok(count) = initiator.nic.ct_get(initiator.acknowledged) {
        println!(rt; "acknowledgements: {count}")?;
    }
    println!(rt; "the target holds {:?}", target.nic.memory())
}

/// Tells it.
pub fn print(rt: &HostRuntime) -> io::Result<()> {
    let opened: Result<(Initiator, Target), CallFault> = sides::open_both(rt.alloc());
    match opened {
        Ok((mut initiator, mut target)) => tell(rt, &mut initiator, &mut target),
        Err(fault) => println!(rt; "{fault}"),
    }
}
