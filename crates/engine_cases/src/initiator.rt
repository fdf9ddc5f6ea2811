//! A descriptor from its binding to its release, and an answer that nobody awaits.

ghost use Rattle.std.specs.Prelude.{length, IfOk};
ghost use Rattle.initiator_engine.specs.Initiators.{AreBoundIn};

use crate::answers::gives;
use initiator_engine::Initiator;
use ni_objects::counters::Counter;
use ni_objects::descriptors::Region;
use ni_objects::handles::Store;
use ni_objects::queues::Queue;
use ptl_types::{
    AckRequest, Bytes, Descriptor, GetArgs, Handle, Header, HiddenDescriptorEvents, Limits,
    Message, MessageKind, NiFault, NoMemory, Outcome, PutArgs, TriggeredOp,
};
use std::alloc::Global;
use std::process::Abort;
use std::test::Fail;

const LIMITS: Limits = Limits {
    entries: 1,
    unexpected: 1,
    mds: 1,
    cts: 1,
    eqs: 1,
    pts: 1,
    triggered: 1,
    msg: 8,
    atomic: 8,
    fetch_atomic: 8,
};

const DESCRIPTOR: Descriptor = Descriptor {
    start: 1,
    length: 3,
    eq: None,
    ct: None,
    count_send: false,
    count_reply: false,
    count_ack: false,
    hidden: HiddenDescriptorEvents::NONE,
};

/// An initiator with what is handed to it.
struct Host {
    region: Region,
    cts: Store<Counter>,
    eqs: Store<Queue>,
    initiator: Initiator,
}

// Written out, so that letting one go is one call: docs/DECISIONS.md, "Large types have a drop of their own".
impl Drop for Host {
    fn drop(self) {
        let Host {
            region: _,
            cts: _,
            eqs: _,
            initiator: _,
        } = self;
    }
}

impl Host {
    /// With nothing bound, over a region of these bytes.
    fn over(alloc: Global, bytes: &[u8]) -> Result<Host, NoMemory>
        ensures { IfOk result (λ h. AreBoundIn (length h.region) h.initiator.mds) }
    {
        Ok(Host {
            region: Region::new(Bytes::of(alloc, bytes)?),
            cts: Store::open(alloc, 1)?,
            eqs: Store::open(alloc, 1)?,
            initiator: Initiator::open(alloc, 0, 2, &LIMITS)?,
        })
    }

    fn answer(&mut self, message: Message) -> (Outcome, Option<Handle>)
        requires { AreBoundIn (length self.old.region) self.old.initiator.mds }
    {
        let (cts, eqs) = (&mut self.cts, &mut self.eqs);
        self.initiator.answer(&mut self.region, cts, eqs, message)
    }

    fn bind(&mut self, md: Descriptor) -> Result<Handle, NiFault> {
        self.initiator.bind(&self.region, &self.cts, &self.eqs, md)
    }

    fn release(&mut self, md: Handle) -> Result<(), NiFault> {
        self.initiator.release(md)
    }
}

/// An acknowledgement to a descriptor.
fn acknowledgement(alloc: Global, home: Handle) -> Message {
    let header = Header {
        kind: MessageKind::Ack,
        source: 1,
        match_bits: 5,
        ack: AckRequest::CtAck,
        home: Some(home),
        ..Header::PLAIN
    };
    Message::new(header, Bytes::empty(alloc))
}

fn drops_a_stray(rt: &impl Abort, alloc: Global, host: &mut Host)
    requires { AreBoundIn (length host.old.region) host.old.initiator.mds }
{
    let stray = acknowledgement(alloc, Handle { slot: 0, stamp: 0 });
    let (outcome, counted) = host.answer(stray);
    gives!(rt; outcome, Outcome::Dropped);
    gives!(rt; counted.is_none(), true);
    gives!(rt; host.region.as_slice(), [9, 1, 2].as_slice());
}

#[test]
fn an_answer_that_nobody_awaits_is_dropped(rt: HostRuntime) -> Result<(), Fail> {
    let mut host = Host::over(rt.alloc(), &[9, 1, 2])?;
    drops_a_stray(&rt, rt.alloc(), &mut host);
    Ok(())
}

/// The one descriptor that there is room for, in a region of five bytes.
fn binds(rt: &impl Abort, host: &mut Host, md: Handle) {
    let past_the_end = Descriptor {
        length: 5,
        ..DESCRIPTOR
    };
    gives!(rt; host.bind(past_the_end), Err(NiFault::OutOfRegion));
    gives!(rt; host.bind(DESCRIPTOR), Ok(md));
    gives!(rt; host.bind(DESCRIPTOR), Err(NiFault::NoSpace));
}

/// A put of three bytes from the second on.
fn put_of(md: Handle) -> TriggeredOp {
    TriggeredOp::Put(PutArgs {
        md,
        local_offset: 1,
        length: 3,
        ack: AckRequest::CtAck,
        target: 1,
        pt: 0,
        match_bits: 5,
        remote_offset: 0,
        hdr_data: 0,
    })
}

/// A get of two bytes there.
fn get_of(md: Handle) -> TriggeredOp {
    TriggeredOp::Get(GetArgs {
        md,
        local_offset: 1,
        length: 2,
        target: 1,
        pt: 0,
        match_bits: 5,
        remote_offset: 0,
    })
}

/// What it may start, and its end.
fn releases(rt: &impl Abort, host: &mut Host, md: Handle) {
    gives!(rt; host.initiator.check(&put_of(md)), Err(NiFault::OutOfRegion));
    gives!(rt; host.initiator.awaits(md), Ok(0));
    let get = get_of(md);
    gives!(rt; host.initiator.check(&get), Ok(()));
    gives!(rt; host.release(md), Ok(()));
    gives!(rt; host.release(md), Err(NiFault::Stale));
    gives!(rt; host.initiator.check(&get), Err(NiFault::Stale));
}

#[test]
fn a_descriptor_is_bound_checked_and_released(rt: HostRuntime) -> Result<(), Fail> {
    let mut host = Host::over(rt.alloc(), &[9, 1, 2, 3, 9])?;
    let md = Handle { slot: 0, stamp: 0 };
    binds(&rt, &mut host, md);
    releases(&rt, &mut host, md);
    Ok(())
}
