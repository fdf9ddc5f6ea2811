//! A full wire, an empty wire, what is left at the closing, word of what was received and of what was sent, and two threads.

ghost use Rattle.std.specs.Prelude.{false, ◌≡◌, ◌+◌, ◌≤◌, ◌<◌, [], length, IfSome};
ghost use Rattle.ptl_types.specs.declared.headers.Lane.TheVariants.{Request};
ghost use Rattle.ptl_types.specs.Kinds.{lane_of};
ghost use Rattle.pair_wires.specs.Bounds.{KeepsBounds};
ghost use Rattle.pair_wires.specs.Wires.{IsOutOf, IsInOf};

use crate::answers::gives;
use pair_wires::{Bounds, InEnd, OutEnd, PlainLane, Wire};
use ptl_types::{Bytes, Header, Lane, Message};
use std::alloc::Global;
use std::sync::Wait;
use std::test::*;
use std::thread;
use std::thread::Threads;

// Requests without bytes from rank 0 to rank 1.
fn requests(messages: u32) -> Bounds
    ensures { result ≡ record { source = 0; target = 1; lane = Request; messages = messages; bytes = 0 } }
{
    Bounds {
        source: 0,
        target: 1,
        lane: Lane::Request,
        messages,
        bytes: 0,
    }
}

// A put without bytes, with this number as its header data.
fn put(alloc: Global, number: u64) -> Message
    ensures travels { (result.header.source ≡ 0) × (result.header.target ≡ 1) × (lane_of result.header.kind ≡ Request) }
    ensures bytes { result.bytes ≡ [] }
{
    let header = Header {
        target: 1,
        match_bits: 5,
        hdr_data: number,
        ..Header::PLAIN
    };
    Message::new(header, Bytes::empty(alloc))
}

// Sends a put with this number. Where it comes back, its number.
fn send<R: Wait>(rt: &R, alloc: Global, wire: &Wire, out: &mut OutEnd, number: u64) -> Option<u64>
    requires wire { IsOutOf wire.now out.old }
    requires lane { wire.now.bounds ≡ record { source = 0; target = 1; lane = Request; messages = wire.now.bounds.messages; bytes = 0 } }
    requires kept { KeepsBounds wire.now.bounds out.old.sent }
    requires room { length out.old.sent < wire.now.bounds.messages }
    requires free { out.old.waits ≡ false }
    ensures wire { IsOutOf wire.now out.new }
    ensures free { out.new.waits ≡ false }
    ensures kept { KeepsBounds wire.now.bounds out.new.sent }
    ensures count { length out.new.sent ≤ length out.old.sent + 1 }
{
    match wire.push(rt, out, put(alloc, number)) {
        Ok(()) => None,
        Err(back) => Some(back.header().hdr_data),
    }
}

// Sends a put with this number, which may have to wait.
fn send_or_wait<R: Wait>(rt: &R, alloc: Global, wire: &Wire, out: &mut OutEnd, number: u64)
    requires wire { IsOutOf wire.now out.old }
    requires free { out.old.waits ≡ false }
    requires lane { wire.now.bounds ≡ record { source = 0; target = 1; lane = Request; messages = wire.now.bounds.messages; bytes = 0 } }
    requires kept { KeepsBounds wire.now.bounds out.old.sent }
    requires room { length out.old.sent < wire.now.bounds.messages }
    ensures { IsOutOf wire.now out.new }
{
    wire.send(rt, out, put(alloc, number));
}

// Receives a message, and answers its number.
fn receive<R: Wait>(rt: &R, wire: &Wire, into: &mut InEnd) -> Option<u64>
    requires { IsInOf wire.now into.old }
    ensures wire { IsInOf wire.now into.new }
    ensures count { IfSome result (λ _. length into.new.received ≡ length into.old.received + 1) }
{
    let message = wire.pop(rt, into)?;
    Some(message.header().hdr_data)
}

// The number of a lane's oldest message, which leaves it.
fn oldest(lane: &mut PlainLane) -> Option<u64> {
    lane.pop_front().map(|message| message.header().hdr_data)
}

#[test]
fn a_full_wire_gives_the_message_back(rt: HostRuntime) -> Result<(), Fail> {
    let (wire, mut out, mut into) = Wire::open(rt.alloc(), 2, requests(3))?;
    let first = send(&rt, rt.alloc(), &wire, &mut out, 1);
    let second = send(&rt, rt.alloc(), &wire, &mut out, 2);
    let third = send(&rt, rt.alloc(), &wire, &mut out, 3);
    gives!(&rt; [first, second, third], [None, None, Some(3)]);
    let first = receive(&rt, &wire, &mut into);
    let second = receive(&rt, &wire, &mut into);
    let third = receive(&rt, &wire, &mut into);
    gives!(&rt; [first, second, third], [Some(1), Some(2), None]);
    Ok(())
}

// Receives one message, and sends as many as the wire then has room for: one. Answers the number that came, and whether the other went in.
fn replace<R: Wait>(
    rt: &R,
    alloc: Global,
    wire: &Wire,
    out: &mut OutEnd,
    into: &mut InEnd,
    number: u64,
) -> (Option<u64>, bool)
    requires wire { IsOutOf wire.now out.old × IsInOf wire.now into.old }
    requires lane { wire.now.bounds ≡ record { source = 0; target = 1; lane = Request; messages = wire.now.bounds.messages; bytes = 0 } }
    requires kept { KeepsBounds wire.now.bounds out.old.sent }
    requires room { length out.old.sent < wire.now.bounds.messages }
    requires free { out.old.waits ≡ false }
    ensures wire { IsOutOf wire.now out.new × IsInOf wire.now into.new }
    ensures free { out.new.waits ≡ false }
    ensures kept { KeepsBounds wire.now.bounds out.new.sent }
    ensures count { length out.new.sent ≤ length out.old.sent + 1 }
{
    let came = receive(rt, wire, into);
    let back = send(rt, alloc, wire, out, number);
    (came, back.is_none())
}

// A wire with room for two messages, both of which it holds: two hundred times one is received and the next one goes in.
fn replace_all<R: Wait>(
    rt: &R,
    alloc: Global,
    wire: &Wire,
    out: &mut OutEnd,
    into: &mut InEnd,
) -> u64
    requires wire { IsOutOf wire.now out.old × IsInOf wire.now into.old }
    requires lane { wire.now.bounds ≡ record { source = 0; target = 1; lane = Request; messages = 300; bytes = 0 } }
    requires kept { KeepsBounds wire.now.bounds out.old.sent }
    requires room { length out.old.sent ≤ 3 }
    requires free { out.old.waits ≡ false }
    ensures { IsOutOf wire.now out.new × IsInOf wire.now into.new }
{
    for number in 0..200u64 {
        let (came, went) = replace(rt, alloc, wire, out, into, number + 2);
        if came != Some(number) || !went {
            return number;
        }
    }
    200
}

#[test]
fn each_message_that_comes_out_makes_room(rt: HostRuntime) -> Result<(), Fail> {
    let (wire, mut out, mut into) = Wire::open(rt.alloc(), 2, requests(300))?;
    let first = send(&rt, rt.alloc(), &wire, &mut out, 0);
    let second = send(&rt, rt.alloc(), &wire, &mut out, 1);
    let third = send(&rt, rt.alloc(), &wire, &mut out, 2);
    gives!(&rt; [first, second, third], [None, None, Some(2)]);
    gives!(&rt; replace_all(&rt, rt.alloc(), &wire, &mut out, &mut into),
        200);
    Ok(())
}

// Sends a put where more room was heard of than messages were sent: it isn't refused.
fn send_surely<R: Wait>(rt: &R, alloc: Global, wire: &Wire, out: &mut OutEnd)
    requires wire { IsOutOf wire.now out.old }
    requires lane { wire.now.bounds ≡ record { source = 0; target = 1; lane = Request; messages = wire.now.bounds.messages; bytes = 0 } }
    requires kept { KeepsBounds wire.now.bounds out.old.sent }
    requires room { length out.old.sent < wire.now.bounds.messages }
    requires free { out.old.waits ≡ false }
    requires heard { length out.old.sent < wire.now.capacity + out.old.heard }
    ensures { IsOutOf wire.now out.new }
{
    let Ok(()) = wire.push(rt, out, put(alloc, 0)) else {
        unreachable!()
    };
}

// A wire is full of what was sent, and then a message is received: once the out end has heard of it, a push isn't refused. Answers whether
// the message came.
fn send_after_word<R: Wait>(
    rt: &R,
    alloc: Global,
    wire: &Wire,
    out: &mut OutEnd,
    into: &mut InEnd,
) -> bool
    requires wire { IsOutOf wire.now out.old × IsInOf wire.now into.old }
    requires lane { wire.now.bounds ≡ record { source = 0; target = 1; lane = Request; messages = wire.now.bounds.messages; bytes = 0 } }
    requires kept { KeepsBounds wire.now.bounds out.old.sent }
    requires room { length out.old.sent < wire.now.bounds.messages }
    requires free { out.old.waits ≡ false }
    requires full { length out.old.sent ≤ wire.now.capacity + length into.old.received }
    ensures { IsOutOf wire.now out.new × IsInOf wire.now into.new }
{
    let Some(_number) = receive(rt, wire, into) else {
        return false;
    };
    let word = wire.tell(into);
    wire.hear(out, word);
    send_surely(rt, alloc, wire, out);
    true
}

#[test]
fn after_word_of_what_came_out_no_push_is_refused(rt: HostRuntime) -> Result<(), Fail> {
    let (wire, mut out, mut into) = Wire::open(rt.alloc(), 1, requests(3))?;
    gives!(&rt; send(&rt, rt.alloc(), &wire, &mut out, 5), None);
    gives!(&rt; send_after_word(&rt, rt.alloc(), &wire, &mut out, &mut into), true);
    gives!(&rt; receive(&rt, &wire, &mut into), Some(0));
    Ok(())
}

// Sends puts with the numbers below the count, for all of which there is room: none is refused.
fn send_as_many<R: Wait>(rt: &R, alloc: Global, wire: &Wire, out: &mut OutEnd, count: u32)
    requires wire { IsOutOf wire.now out.old × (out.old.sent ≡ []) × (out.old.waits ≡ false) }
    requires lane { wire.now.bounds ≡ record { source = 0; target = 1; lane = Request; messages = wire.now.bounds.messages; bytes = 0 } }
    requires room { (count ≤ wire.now.bounds.messages) × (count ≤ wire.now.capacity) }
    ensures wire { IsOutOf wire.now out.new × (out.new.waits ≡ false) }
    ensures count { length out.new.sent ≡ count }
{
    for number in 0..count {
        let Ok(()) = wire.push(rt, out, put(alloc, number as u64)) else {
            unreachable!()
        };
    }
}

// Receives as many messages as the in end was told went in: no pop finds the wire empty. Answers how many came in order.
fn receive_what_was_announced<R: Wait>(rt: &R, wire: &Wire, into: &mut InEnd, count: u32) -> u64
    requires wire { IsInOf wire.now into.old × (into.old.received ≡ []) }
    requires told { count ≤ into.old.told }
    ensures { IsInOf wire.now into.new }
{
    let mut in_order = 0;
    for number in 0..count {
        let Some(message) = wire.pop(rt, into) else {
            unreachable!()
        };
        if message.header().hdr_data != number as u64 {
            return in_order;
        }
        in_order = number as u64 + 1;
    }
    in_order
}

// Sends so many puts, tells the in end of them, and receives them. Answers how many came in order.
fn send_and_announce<R: Wait>(
    rt: &R,
    alloc: Global,
    wire: &Wire,
    out: &mut OutEnd,
    into: &mut InEnd,
    count: u32,
) -> u64
    requires wire { IsOutOf wire.now out.old × IsInOf wire.now into.old }
    requires new { (out.old.sent ≡ []) × (out.old.waits ≡ false) × (into.old.received ≡ []) }
    requires lane { wire.now.bounds ≡ record { source = 0; target = 1; lane = Request; messages = wire.now.bounds.messages; bytes = 0 } }
    requires room { (count ≤ wire.now.bounds.messages) × (count ≤ wire.now.capacity) }
    ensures { IsOutOf wire.now out.new × IsInOf wire.now into.new }
{
    send_as_many(rt, alloc, wire, out, count);
    let word = wire.announce(out);
    wire.note(into, word);
    receive_what_was_announced(rt, wire, into, count)
}

#[test]
fn after_word_of_what_went_in_no_pop_finds_the_wire_empty(rt: HostRuntime) -> Result<(), Fail> {
    let (wire, mut out, mut into) = Wire::open(rt.alloc(), 5, requests(7))?;
    gives!(&rt; send_and_announce(&rt, rt.alloc(), &wire, &mut out, &mut into, 5),
        5);
    gives!(&rt; receive(&rt, &wire, &mut into), None);
    gives!(&rt; [out.sent(), into.received()], [5, 5]);
    Ok(())
}

#[test]
fn a_message_waits_for_room(rt: HostRuntime) -> Result<(), Fail> {
    let (wire, mut out, mut into) = Wire::open(rt.alloc(), 3, requests(4))?;
    let _ = send(&rt, rt.alloc(), &wire, &mut out, 1);
    let _ = send(&rt, rt.alloc(), &wire, &mut out, 2);
    let _ = send(&rt, rt.alloc(), &wire, &mut out, 3);
    send_or_wait(&rt, rt.alloc(), &wire, &mut out, 4);
    gives!(&rt; out.waits(), true);
    gives!(&rt; out.sent(), 4);
    gives!(&rt; wire.flush(&rt, &mut out), false);
    gives!(&rt; receive(&rt, &wire, &mut into), Some(1));
    gives!(&rt; wire.flush(&rt, &mut out), true);
    let second = receive(&rt, &wire, &mut into);
    let third = receive(&rt, &wire, &mut into);
    let fourth = receive(&rt, &wire, &mut into);
    let fifth = receive(&rt, &wire, &mut into);
    gives!(&rt; [second, third, fourth, fifth],
        [Some(2), Some(3), Some(4), None]);
    gives!(&rt; [out.sent(), into.received()], [4, 4]);
    Ok(())
}

#[test]
fn what_a_wire_holds_goes_after_what_the_lane_holds(rt: HostRuntime) -> Result<(), Fail> {
    let (wire, mut out, mut into) = Wire::open(rt.alloc(), 3, requests(3))?;
    let mut rest = PlainLane::open(rt.alloc(), 4)?;
    rest.push_back(put(rt.alloc(), 7));
    let first = send(&rt, rt.alloc(), &wire, &mut out, 1);
    let second = send(&rt, rt.alloc(), &wire, &mut out, 2);
    let third = send(&rt, rt.alloc(), &wire, &mut out, 3);
    gives!(&rt; [first, second, third], [None, None, None]);
    gives!(&rt; receive(&rt, &wire, &mut into), Some(1));
    wire.close(&rt, out, into, &mut rest);
    gives!(&rt; rest.len(), 3);
    let moved = [oldest(&mut rest), oldest(&mut rest), oldest(&mut rest)];
    gives!(&rt; moved, [Some(7), Some(2), Some(3)]);
    gives!(&rt; oldest(&mut rest), None);
    Ok(())
}

#[test]
fn room_for_all_that_is_ever_sent_is_enough(rt: HostRuntime) -> Result<(), Fail> {
    let (wire, mut out, into) = Wire::open(rt.alloc(), 3, requests(2))?;
    let mut rest = PlainLane::open(rt.alloc(), 2)?;
    let first = send(&rt, rt.alloc(), &wire, &mut out, 1);
    let second = send(&rt, rt.alloc(), &wire, &mut out, 2);
    gives!(&rt; [first, second], [None, None]);
    wire.close(&rt, out, into, &mut rest);
    let moved = [oldest(&mut rest), oldest(&mut rest), oldest(&mut rest)];
    gives!(&rt; moved, [Some(1), Some(2), None]);
    Ok(())
}

// Sends puts with the numbers below the count, whatever comes back.
fn send_all<R: Wait>(rt: &R, alloc: Global, wire: &Wire, out: OutEnd, count: u32) -> OutEnd
    requires wire { IsOutOf wire.now out × (out.sent ≡ []) × (out.waits ≡ false) }
    requires lane { wire.now.bounds ≡ record { source = 0; target = 1; lane = Request; messages = wire.now.bounds.messages; bytes = 0 } }
    requires room { count ≤ wire.now.bounds.messages }
    ensures { IsOutOf wire.now result × (result.waits ≡ false) }
{
    let mut out = out;
    for number in 0..count {
        let _ = send(rt, alloc, wire, &mut out, number as u64);
    }
    out
}

// Receives until the count is reached or a number comes out of order, and answers how many came in order.
fn receive_all<R: Wait>(rt: &R, wire: &Wire, into: InEnd, count: u64) -> (InEnd, u64)
    requires { IsInOf wire.now into }
    ensures { IsInOf wire.now result.0 }
{
    let mut into = into;
    let mut received = 0;
    for _ in rt.forever() {
        if received >= count {
            break;
        }
        match receive(rt, wire, &mut into) {
            Some(number) => {
                if number != received {
                    break;
                }
                received += 1;
            }
            None => thread::yield_now(),
        }
    }
    (into, received)
}

fn move_between_threads<R: Threads + Wait + Sync>(
    rt: &R,
    alloc: Global,
    wire: Wire,
    out: OutEnd,
    into: InEnd,
    rest: &mut PlainLane,
) -> u64
    requires wire { IsOutOf wire out × (out.sent ≡ []) × (out.waits ≡ false) × IsInOf wire into }
    requires lane { wire.bounds ≡ record { source = 0; target = 1; lane = Request; messages = 1000; bytes = 0 } }
    requires room { (rest.old.messages ≡ []) × (wire.capacity ≤ rest.old.capacity) }
{
    let shared = &wire;
    let (out, (into, received)) = thread::join(
        rt,
        move ||
            requires { IsOutOf shared.now out × (out.sent ≡ []) × (out.waits ≡ false) ×
                (shared.now.bounds ≡ record { source = 0; target = 1; lane = Request; messages = 1000; bytes = 0 }) }
            ensures { IsOutOf shared.entry.now result × (result.waits ≡ false) }
        { send_all(rt, alloc, shared, out, 1000) },
        move ||
            requires { IsInOf shared.now into }
            ensures { IsInOf shared.entry.now result.0 }
        { receive_all(rt, shared, into, 1000) },
    );
    wire.close(rt, out, into, rest);
    received
}

#[test]
fn a_thousand_messages_between_two_threads(rt: HostRuntime) -> Result<(), Fail> {
    let (wire, out, into) = Wire::open(rt.alloc(), 1000, requests(1000))?;
    let mut rest = PlainLane::open(rt.alloc(), 1000)?;
    let received = move_between_threads(&rt, rt.alloc(), wire, out, into, &mut rest);
    gives!(&rt; received, 1000);
    gives!(&rt; rest.len(), 0);
    Ok(())
}
