//! Each call of a target once, and each of its refusals. Headers that are left, searched and taken are a script of `interface_cases`.

ghost use Rattle.std.specs.Prelude.{◌≡◌, false, All, length, IfOk};
ghost use Rattle.ni_model.specs.Conditions.{HasPartsIn};
ghost use Rattle.ptl_types.specs.Kinds.{is_answer};

use crate::answers::gives;
use ni_objects::counters::Counter;
use ni_objects::descriptors::Region;
use ni_objects::handles::Store;
use ni_objects::queues::Queue;
use ptl_types::{
    Appended, Bytes, Entry, Handle, Header, Limits, List, Message, NiFault, NoMemory, Outcome,
};
use std::alloc::Global;
use std::process::Abort;
use std::test::Fail;
use target_engine::{AppendArgs, SpareBuffers, Target};

const LIMITS: Limits = Limits {
    entries: 2,
    unexpected: 2,
    mds: 0,
    cts: 0,
    eqs: 1,
    pts: 2,
    triggered: 0,
    msg: 4,
    atomic: 4,
    fetch_atomic: 4,
};

const ENTRY: Entry = Entry {
    length: 4,
    match_bits: 5,
    count_overflow: true,
    ..Entry::PLAIN
};

const PUT: Header = Header {
    source: 1,
    match_bits: 5,
    ..Header::PLAIN
};

const DEAD: Handle = Handle { slot: 0, stamp: 7 };

/// A target with what is handed to it. Its calls tell the prover nothing, so that a test is proved line by line; a request asks
/// that the entries' parts lie in the region, as they do where none is linked.
struct Host {
    region: Region,
    cts: Store<Counter>,
    eqs: Store<Queue>,
    target: Target,
}

// Written out, so that letting one go is one call: docs/DECISIONS.md, "Large types have a drop of their own".
impl Drop for Host {
    fn drop(self) {
        let Host {
            region: _,
            cts: _,
            eqs: _,
            target: _,
        } = self;
    }
}

impl Host {
    /// With nothing allocated, over a region of these bytes.
    fn over(alloc: Global, bytes: &[u8]) -> Result<Host, NoMemory>
        ensures { IfOk result (λ h. All (HasPartsIn (length h.region)) h.target.indices) }
    {
        Ok(Host {
            region: Region::new(Bytes::of(alloc, bytes)?),
            cts: Store::open(alloc, 1)?,
            eqs: Store::open(alloc, 1)?,
            target: Target::open(alloc, 0, &LIMITS)?,
        })
    }

    /// Over four zeros.
    fn open(alloc: Global) -> Result<Host, NoMemory> {
        Host::over(alloc, &[0, 0, 0, 0])
    }

    fn pt_alloc(&mut self, index: u32, eq: Option<Handle>) -> Result<(), NiFault> {
        self.target.pt_alloc(&self.eqs, index, eq)
    }

    fn pt_free(&mut self, index: u32) -> Result<(), NiFault> {
        self.target.pt_free(index)
    }

    fn unlink(&mut self, me: Handle) -> Result<(), NiFault> {
        self.target.unlink(me)
    }

    fn append(&mut self, list: List, entry: Entry) -> Result<(Appended, Option<Handle>), NiFault> {
        let args = AppendArgs { pt: 0, list, entry };
        self.target
            .append(&self.region, &mut self.cts, &mut self.eqs, args)
    }

    fn request(&mut self, message: Message, spent: &mut SpareBuffers) -> Outcome
        requires request { is_answer message.header.kind ≡ false }
        requires inside { All (HasPartsIn (length self.old.region)) self.old.target.indices }
    {
        let (cts, eqs) = (&mut self.cts, &mut self.eqs);
        let arrived = self
            .target
            .request(&mut self.region, cts, eqs, message, spent);
        arrived.outcome
    }
}

fn allocates_and_frees(rt: &impl Abort, host: &mut Host) {
    gives!(rt; host.pt_free(0), Err(NiFault::Stale));
    gives!(rt; host.pt_alloc(0, Some(DEAD)), Err(NiFault::Stale));
    gives!(rt; host.pt_alloc(2, None), Err(NiFault::NoSpace));
    gives!(rt; host.pt_alloc(0, None), Ok(()));
    gives!(rt; host.pt_alloc(0, None), Err(NiFault::InUse));
    gives!(rt; host.pt_free(0), Ok(()));
}

#[test]
fn indices_come_and_go(rt: HostRuntime) -> Result<(), Fail> {
    let mut host = Host::open(rt.alloc())?;
    allocates_and_frees(&rt, &mut host);
    Ok(())
}

#[test]
fn nothing_is_named_at_first(rt: HostRuntime) -> Result<(), Fail> {
    let target = Target::open(rt.alloc(), 0, &LIMITS)?;
    assert!(rt; !target.names_ct(DEAD));
    assert!(rt; !target.names_eq(DEAD));
    Ok(())
}

/// Entries that name a counting event that isn't live, or reach past the end of the region.
fn refuses(rt: &impl Abort, host: &mut Host, past_the_end: Entry) {
    let list = List::Priority;
    gives!(rt; host.append(list, ENTRY), Err(NiFault::Stale));
    gives!(rt; host.pt_alloc(0, None), Ok(()));
    let uncounted = Entry {
        ct: Some(DEAD),
        ..ENTRY
    };
    gives!(rt; host.append(list, uncounted), Err(NiFault::Stale));
    gives!(rt; host.append(list, past_the_end), Err(NiFault::OutOfRegion));
}

/// After these.
fn links_two(rt: &impl Abort, host: &mut Host, past_the_end: Entry) {
    let list = List::Priority;
    let first = Handle { slot: 0, stamp: 0 };
    gives!(rt; host.append(list, ENTRY), Ok((Appended::Linked(first), None)));
    gives!(rt; host.append(List::Overflow, ENTRY).is_ok(), true);
    gives!(rt; host.append(list, past_the_end), Err(NiFault::NoSpace));
    gives!(rt; host.pt_free(0), Err(NiFault::InUse));
    gives!(rt; host.unlink(first), Ok(()));
    gives!(rt; host.unlink(first), Err(NiFault::Stale));
}

#[test]
fn entries_come_and_go(rt: HostRuntime) -> Result<(), Fail> {
    let mut host = Host::open(rt.alloc())?;
    let past_the_end = Entry { start: 1, ..ENTRY };
    refuses(&rt, &mut host, past_the_end);
    links_two(&rt, &mut host, past_the_end);
    Ok(())
}

fn drops_a_put(rt: &impl Abort, alloc: Global, host: &mut Host)
    requires { All (HasPartsIn (length host.old.region)) host.old.target.indices }
{
    let message = Message::new(PUT, Bytes::empty(alloc));
    gives!(rt; host.request(message, &mut SpareBuffers::none()), Outcome::Dropped);
    gives!(rt; host.region.as_slice(), [7].as_slice());
}

#[test]
fn a_put_to_no_index_is_dropped(rt: HostRuntime) -> Result<(), Fail> {
    let mut host = Host::over(rt.alloc(), &[7])?;
    drops_a_put(&rt, rt.alloc(), &mut host);
    Ok(())
}

/// A message of three bytes is dropped.
fn spends_three(alloc: Global, host: &mut Host, spent: &mut SpareBuffers) -> Result<(), Fail>
    requires { All (HasPartsIn (length host.old.region)) host.old.target.indices }
{
    let header = Header { length: 3, ..PUT };
    let message = Message::new(header, Bytes::of(alloc, &[1, 2, 3])?);
    let _ = host.request(message, spent);
    Ok(())
}

/// What is spent of such a message, where two may be kept.
fn spent_of_three(alloc: Global) -> Result<SpareBuffers, Fail> {
    let mut spent = SpareBuffers::with_capacity(alloc, 2)?;
    let mut host = Host::over(alloc, &[7])?;
    spends_three(alloc, &mut host, &mut spent)?;
    Ok(spent)
}

/// How much room comes of an exchange for one of so many bytes.
fn room_for(alloc: Global, spent: &mut SpareBuffers, bytes: u64) -> Option<u64> {
    let own = Bytes::with_room(alloc, bytes).ok()?;
    Some(spent.exchange(own).room())
}

fn gives_rooms(rt: &impl Abort, alloc: Global, spent: &mut SpareBuffers) {
    gives!(rt; room_for(alloc, spent, 4), Some(4));
    gives!(rt; room_for(alloc, spent, 0), Some(0));
    gives!(rt; room_for(alloc, spent, 2), Some(3));
    gives!(rt; room_for(alloc, spent, 2), Some(2));
}

#[test]
fn the_room_of_a_message_is_used_once_more(rt: HostRuntime) -> Result<(), Fail> {
    let mut spent = spent_of_three(rt.alloc())?;
    gives_rooms(&rt, rt.alloc(), &mut spent);
    Ok(())
}
