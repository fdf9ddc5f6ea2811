//! The calls of one end, and their answers in the words of a script.

use crate::ends::{End, keep, named, named_if};
use crate::steps::{Answer, Call};
use crate::values::HEADER;
use ptl_types::{
    AckRequest, Appended, Bytes, Count, Delivered, EqGot, Handle, Header, Message, MessageKind,
    NiFault, UnexpectedHeader,
};
use std::alloc::Global;
use std::process::Abort;

fn made(given: &mut [Handle], answer: Result<Handle, NiFault>) -> Answer {
    match answer {
        Ok(handle) => {
            keep(given, handle);
            Answer::Made(handle.stamp)
        }
        Err(fault) => Answer::Refused(fault),
    }
}

fn done(answer: Result<(), NiFault>) -> Answer {
    match answer {
        Ok(()) => Answer::Done,
        Err(fault) => Answer::Refused(fault),
    }
}

fn number(answer: Result<u32, NiFault>) -> Answer {
    match answer {
        Ok(number) => Answer::Number(u64::from(number)),
        Err(fault) => Answer::Refused(fault),
    }
}

fn counts(answer: Result<Count, NiFault>) -> Answer {
    match answer {
        Ok(count) => Answer::Counts(count.success, count.failure),
        Err(fault) => Answer::Refused(fault),
    }
}

fn long(answer: Result<u64, NiFault>) -> Answer {
    match answer {
        Ok(number) => Answer::Number(number),
        Err(fault) => Answer::Refused(fault),
    }
}

fn got(answer: Result<EqGot, NiFault>) -> Answer {
    match answer {
        Ok(EqGot::Got(event)) => Answer::Got(event),
        Ok(EqGot::Empty) => Answer::Empty,
        Ok(EqGot::Dropped) => Answer::Lost,
        Err(fault) => Answer::Refused(fault),
    }
}

fn found(answer: Result<Option<UnexpectedHeader>, NiFault>) -> Answer {
    match answer {
        Ok(Some(header)) => Answer::Found(header),
        Ok(None) => Answer::Nothing,
        Err(fault) => Answer::Refused(fault),
    }
}

fn yes(holds: bool) -> Answer {
    if holds { Answer::Yes } else { Answer::No }
}

fn ready(answer: Option<u32>) -> Answer {
    match answer {
        Some(number) => Answer::Number(u64::from(number)),
        None => Answer::Nothing,
    }
}

/// The message of a firing, where there is one, is under way.
fn fired(wire: &mut Option<Message>, answer: Option<Message>) -> Answer {
    match answer {
        Some(message) => {
            *wire = Some(message);
            Answer::Sent
        }
        None => Answer::Nothing,
    }
}

/// A message that was started is under way.
fn sent(wire: &mut Option<Message>, answer: Result<Message, NiFault>) -> Answer {
    match answer {
        Ok(message) => {
            *wire = Some(message);
            Answer::Sent
        }
        Err(fault) => Answer::Refused(fault),
    }
}

/// An acknowledgement from rank 1 that no interface made.
fn forged_ack(alloc: Global, home: Handle) -> Message {
    let header = Header {
        kind: MessageKind::Ack,
        ack: AckRequest::CtAck,
        home: Some(home),
        ..HEADER
    };
    Message::new(header, Bytes::empty(alloc))
}

/// A reply of two bytes from rank 1 that no interface made.
fn forged_reply<R: Abort + Alloc<A = Global>>(rt: &R, home: Handle, home_offset: u64) -> Message {
    let bytes = Bytes::of(rt.alloc(), &[7, 8]).expect(rt, "two bytes");
    let header = Header {
        kind: MessageKind::Reply,
        length: 2,
        home: Some(home),
        home_offset,
        ..HEADER
    };
    Message::new(header, bytes)
}

/// An append's answer; the handle is kept.
fn appended(given: &mut [Handle], answer: Result<Appended, NiFault>) -> Answer {
    match answer {
        Ok(Appended::Linked(handle)) => {
            keep(given, handle);
            Answer::Linked(handle.stamp)
        }
        Ok(Appended::Consumed(header)) => Answer::Consumed(header),
        Err(fault) => Answer::Refused(fault),
    }
}

/// The answer to a message that arrived, where there is one, is under way.
fn delivered(wire: &mut Option<Message>, answer: Delivered) -> Answer {
    let Delivered { outcome, answer } = answer;
    match answer {
        Some(message) => {
            *wire = Some(message);
            Answer::Replies(outcome)
        }
        None => Answer::Became(outcome),
    }
}

/// Whether this message is under way.
fn carries(wire: &Option<Message>, header: Header, bytes: &[u8]) -> Answer {
    match wire {
        Some(message) => { yes(*message.header() == header && message.bytes().as_slice() == bytes) }
        None => Answer::No,
    }
}

impl End {
    /// Makes the call.
    pub fn ask<R: Abort + Alloc<A = Global>>(
        &mut self,
        rt: &R,
        wire: &mut Option<Message>,
        call: Call,
    ) -> Answer {
        match call {
            Call::Rank => Answer::Number(u64::from(self.side.rank())),
            Call::Ranks => Answer::Number(u64::from(self.side.ranks())),
            Call::Limits => Answer::Limited(*self.side.limits()),
            Call::Drops => Answer::Number(self.side.drops()),
            Call::Violations => Answer::Number(self.side.violations()),
            Call::Pending => Answer::Number(u64::from(self.side.pending())),
            Call::Ready => ready(self.side.ready()),
            Call::IsReady(number) => yes(self.side.is_ready(number)),
            Call::CtGet(ct) => counts(self.side.ct_get(named(&self.cts, ct))),
            Call::Awaits(md) => long(self.side.awaits(named(&self.mds, md))),
            Call::Carries(header, bytes) => carries(wire, self.header(header), bytes),
            Call::WriteMemory(start, bytes) => {
                self.side.write_memory(rt, start, bytes);
                Answer::Done
            }
            call => self.ask_tables(rt, wire, call),
        }
    }

    /// The calls on indices, counting events and queues.
    fn ask_tables<R: Abort + Alloc<A = Global>>(
        &mut self,
        rt: &R,
        wire: &mut Option<Message>,
        call: Call,
    ) -> Answer {
        match call {
            Call::PtAlloc(pt, eq) => done(self.side.pt_alloc(pt, named_if(&self.eqs, eq))),
            Call::PtFree(pt) => done(self.side.pt_free(pt)),
            Call::CtAlloc => made(&mut self.cts, self.side.ct_alloc()),
            Call::CtFree(ct) => done(self.side.ct_free(named(&self.cts, ct))),
            Call::CtSet(ct, success, failure) => {
                let to = Count { success, failure };
                done(self.side.ct_set(named(&self.cts, ct), to))
            }
            Call::CtInc(ct, success, failure) => {
                let by = Count { success, failure };
                done(self.side.ct_inc(named(&self.cts, ct), by))
            }
            Call::CtCancel(ct) => number(self.side.ct_cancel(named(&self.cts, ct))),
            Call::EqAlloc(room) => made(&mut self.eqs, self.side.eq_alloc(rt, room)),
            Call::EqFree(eq) => done(self.side.eq_free(named(&self.eqs, eq))),
            Call::EqGet(eq) => got(self.side.eq_get(named(&self.eqs, eq))),
            call => self.ask_entries(rt, wire, call),
        }
    }

    /// The calls on descriptors and entries.
    fn ask_entries<R: Abort + Alloc<A = Global>>(
        &mut self,
        rt: &R,
        wire: &mut Option<Message>,
        call: Call,
    ) -> Answer {
        match call {
            Call::MdBind(md) => {
                let md = self.descriptor(md);
                made(&mut self.mds, self.side.md_bind(md))
            }
            Call::MdRelease(md) => done(self.side.md_release(named(&self.mds, md))),
            Call::MeAppend(pt, list, entry) => {
                let entry = self.entry(entry);
                appended(&mut self.mes, self.side.me_append(pt, list, entry))
            }
            Call::MeUnlink(me) => done(self.side.me_unlink(named(&self.mes, me))),
            Call::MeSearch(pt, entry, delete) => {
                let entry = self.entry(entry);
                found(self.side.me_search(pt, &entry, delete))
            }
            call => self.ask_moves(rt, wire, call),
        }
    }

    /// The calls that start, fire or deliver.
    fn ask_moves<R: Abort + Alloc<A = Global>>(
        &mut self,
        rt: &R,
        wire: &mut Option<Message>,
        call: Call,
    ) -> Answer {
        match call {
            Call::Start(deed) => {
                let deed = self.deed(deed);
                sent(wire, self.side.start(rt, deed))
            }
            Call::Triggered(deed, ct, threshold) => {
                let deed = self.deed(deed);
                number(
                    self.side
                        .triggered(rt, deed, named(&self.cts, ct), threshold),
                )
            }
            Call::Fire(operation) => fired(wire, self.side.fire(rt, operation)),
            Call::Deliver => {
                let message = wire.take().expect(rt, "a message under way");
                delivered(wire, self.side.deliver(rt, message))
            }
            Call::ForgeAck(md) => {
                *wire = Some(forged_ack(rt.alloc(), named(&self.mds, md)));
                Answer::Sent
            }
            Call::ForgeReply(md, offset) => {
                *wire = Some(forged_reply(rt, named(&self.mds, md), offset));
                Answer::Sent
            }
            _ => panic!(rt; "a call that no arm makes"),
        }
    }
}
