//! What an interface has its network do in the standard, and here is the caller's: firing what is ready, and handing on what arrives.

ghost use Rattle.std.specs.Prelude.{◌≡◌, length};
ghost use Rattle.ni_model.specs.Ready.{ready_numbers};
ghost use Rattle.nic_handles.specs.Holding.{held};
ghost use Rattle.c_interface.specs.Calls.{Arrives, FiresTold, ReadyAt, delivered_told, fired_told, outcome_number};
ghost use Rattle.c_interface.specs.Forms.{one_number};
ghost use Rattle.c_interface.specs.Messages.{Reads, header_of};
ghost use Rattle.c_interface.specs.Over.{Called, Over, writes};
ghost use Rattle.c_interface.specs.Statuses.{misuse_number, status_by};

use crate::answers::tested_number_out;
use crate::messages::CMessage;
use crate::reading::message_of;
use crate::starts::is_short;
use crate::statuses::{CLOSED, OK, SHORT, misuse};
use crate::telling::hand_out;
use guarded_ni::Misuse;
use nic_handles::NiHandle;
use ptl_types::{Delivered, Message, Outcome};
use std::alloc::Global;

/// How many triggered operations are ready.
#[unsafe(no_mangle)]
pub extern "C" fn SfReady(alloc: Global, ni: &mut NiHandle, count: &mut u32) -> u32
    ensures { Over (λ s t. (t ≡ s) × ((count.new ≡ length (ready_numbers s)) × (result ≡ 0)))
        count.old count.new (held ni.old) (held ni.new) result }
{
    match ni.take(alloc) {
        Some(nic) => {
            *count = nic.as_ref().ready_count();
            *ni = NiHandle::of(nic);
            OK
        }
        None => CLOSED,
    }
}

/// The number of the ready operation at a position, by rising number from 0.
#[unsafe(no_mangle)]
pub extern "C" fn SfReadyAt(alloc: Global, ni: &mut NiHandle, i: u32, number: &mut u32) -> u32
    ensures { Called (ReadyAt i) misuse_number one_number number.old number.new (held ni.old) (held ni.new) result }
{
    match ni.take(alloc) {
        Some(nic) => {
            let found = guarded_ni::ready_at(nic.as_ref(), i);
            *ni = NiHandle::of(nic);
            tested_number_out(found, number)
        }
        None => CLOSED,
    }
}

/// A message, if there is one, goes out, and whether there is one.
fn maybe_out(message: Option<Message>, made: &mut u32, head: &mut CMessage, out: &mut [u8])
    ensures { (made.new, (head.new, out.new)) ≡ fired_told message (made.old, (head.old, out.old)) }
{
    match message {
        Some(message) => {
            hand_out(&message, head, out);
            *made = 1;
        }
        None => *made = 0,
    }
}

/// What was fired.
fn fired_out(
    fired: Result<Option<Message>, Misuse>,
    made: &mut u32,
    head: &mut CMessage,
    out: &mut [u8],
) -> u32
    ensures numbered { result ≡ status_by misuse_number fired }
    ensures written { (made.new, (head.new, out.new)) ≡ writes fired_told fired (made.old, (head.old, out.old)) }
{
    match fired {
        Ok(message) => {
            maybe_out(message, made, head, out);
            OK
        }
        Err(rule) => misuse(rule),
    }
}

/// Fires a ready operation: `made` is 1 where it makes a message, else 0.
#[unsafe(no_mangle)]
pub extern "C" fn SfFire(
    alloc: Global,
    ni: &mut NiHandle,
    number: u32,
    made: &mut u32,
    head: &mut CMessage,
    out: &mut [u8],
) -> u32
    ensures { FiresTold number (made.old, (head.old, out.old)) (made.new, (head.new, out.new)) (held ni.old) (held ni.new) result }
{
    match ni.take(alloc) {
        Some(mut nic) => {
            if is_short(nic.as_ref(), out.len()) {
                *ni = NiHandle::of(nic);
                return SHORT;
            }
            let fired = guarded_ni::fire(nic.as_mut(), number);
            *ni = NiHandle::of(nic);
            fired_out(fired, made, head, out)
        }
        None => CLOSED,
    }
}

/// The number of what became of a message.
fn outcome_number(outcome: Outcome) -> u32
    ensures { result ≡ outcome_number outcome }
{
    match outcome {
        Outcome::Matched => 0,
        Outcome::Overflow => 1,
        Outcome::Answered => 2,
        Outcome::Dropped => 3,
        Outcome::Violation => 4,
    }
}

/// What became of a message, and the answer.
fn delivered_out(
    delivered: Result<Delivered, Misuse>,
    outcome: &mut u32,
    answered: &mut u32,
    head: &mut CMessage,
    out: &mut [u8],
) -> u32
    ensures numbered { result ≡ status_by misuse_number delivered }
    ensures written { (outcome.new, (answered.new, (head.new, out.new)))
        ≡ writes delivered_told delivered (outcome.old, (answered.old, (head.old, out.old))) }
{
    match delivered {
        Ok(
            Delivered {
                outcome: came,
                answer,
            },
        ) => {
            *outcome = outcome_number(came);
            maybe_out(answer, answered, head, out);
            OK
        }
        Err(rule) => misuse(rule),
    }
}

/// Hands a message that arrived to the interface: `answered` is 1 where it asked for an answer, else 0.
#[unsafe(no_mangle)]
pub extern "C" fn SfDeliver(
    alloc: Global,
    ni: &mut NiHandle,
    message: &CMessage,
    bytes: &[u8],
    outcome: &mut u32,
    answered: &mut u32,
    head: &mut CMessage,
    out: &mut [u8],
) -> u32
    ensures { Arrives (Reads (header_of message.now) bytes.now) (length out.old)
        (outcome.old, (answered.old, (head.old, out.old))) (outcome.new, (answered.new, (head.new, out.new)))
        (held ni.old) (held ni.new) result }
{
    let arrived = match message_of(alloc, message, bytes) {
        Ok(arrived) => arrived,
        Err(status) => return status,
    };
    if (out.len() as u64) < arrived.header().length {
        return SHORT;
    }
    match ni.take(alloc) {
        Some(mut nic) => {
            let delivered = guarded_ni::deliver(nic.as_mut(), arrived);
            *ni = NiHandle::of(nic);
            delivered_out(delivered, outcome, answered, head, out)
        }
        None => CLOSED,
    }
}
