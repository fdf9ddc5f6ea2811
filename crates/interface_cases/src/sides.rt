//! One interface after calls without clauses. A call that has conditions is made after a test of them.

ghost use Rattle.std.specs.Prelude.{◌<◌};
ghost use Rattle.ni_model.specs.Conditions.{MayGo, MayCombine, MayFetch, MayStart};

use portals_ni::{Nic, fit};
use ptl_types::{
    AckRequest, Appended, Bytes, Count, Delivered, Descriptor, ElemType, Entry, EqGot, GetArgs,
    Handle, Limits, List, Message, NiFault, PutArgs, Rank, TriggeredOp, UnexpectedHeader,
};
use std::alloc::Global;
use std::process::Abort;

/// An interface as the scripts see it: its calls, without what their contracts say of its state. So a script's proof shows
/// that no condition is broken, and no more; what the calls answer is run.
pub struct Side {
    nic: Nic,
}

// Written out, so that letting one go is one call: docs/DECISIONS.md, "Large types have a drop of their own".
impl Drop for Side {
    fn drop(self) {
        let Side { nic: _ } = self;
    }
}

/// An interface of one of two ranks with these limits, over a region of these bytes.
pub fn over<R: Abort + Alloc<A = Global>>(rt: &R, rank: Rank, limits: Limits, bytes: &[u8]) -> Side
    requires { rank < 2 }
{
    let region = Bytes::of(rt.alloc(), bytes).expect(rt, "a region");
    assert!(rt; fit(&limits));
    let nic = Nic::open(rt.alloc(), rank, 2, limits, region).expect(rt, "an interface");
    Side { nic }
}

impl Side {
    /// The rank of the interface.
    pub fn rank(&self) -> Rank {
        self.nic.rank()
    }

    /// How many ranks there are.
    pub fn ranks(&self) -> u32 {
        self.nic.ranks()
    }

    /// The limits.
    pub fn limits(&self) -> &Limits {
        self.nic.limits()
    }

    /// All bytes of the region.
    pub fn memory(&self) -> &[u8] {
        self.nic.memory()
    }

    /// The drop register.
    pub fn drops(&self) -> u64 {
        self.nic.drops()
    }

    /// The violation register.
    pub fn violations(&self) -> u64 {
        self.nic.violations()
    }

    /// How many triggered operations are pending.
    pub fn pending(&self) -> u32 {
        self.nic.pending()
    }

    /// Allocates a portal table index, with a queue or none.
    pub fn pt_alloc(&mut self, index: u32, eq: Option<Handle>) -> Result<(), NiFault> {
        self.nic.pt_alloc(index, eq)
    }

    /// Frees a portal table index.
    pub fn pt_free(&mut self, index: u32) -> Result<(), NiFault> {
        self.nic.pt_free(index)
    }

    /// Allocates a counting event.
    pub fn ct_alloc(&mut self) -> Result<Handle, NiFault> {
        self.nic.ct_alloc()
    }

    /// Frees a counting event.
    pub fn ct_free(&mut self, ct: Handle) -> Result<(), NiFault> {
        self.nic.ct_free(ct)
    }

    /// What a counting event holds.
    pub fn ct_get(&self, ct: Handle) -> Result<Count, NiFault> {
        self.nic.ct_get(ct)
    }

    /// Sets a counting event.
    pub fn ct_set(&mut self, ct: Handle, to: Count) -> Result<(), NiFault> {
        self.nic.ct_set(ct, to)
    }

    /// Adds to a counting event.
    pub fn ct_inc(&mut self, ct: Handle, by: Count) -> Result<(), NiFault> {
        self.nic.ct_inc(ct, by)
    }

    /// Cancels the operations that wait on a counting event.
    pub fn ct_cancel(&mut self, ct: Handle) -> Result<u32, NiFault> {
        self.nic.ct_cancel(ct)
    }

    /// Allocates an event queue with room for at least one event.
    pub fn eq_alloc(&mut self, rt: &impl Abort, room: u32) -> Result<Handle, NiFault> {
        assert!(rt; room >= 1);
        self.nic.eq_alloc(room)
    }

    /// Frees an event queue.
    pub fn eq_free(&mut self, eq: Handle) -> Result<(), NiFault> {
        self.nic.eq_free(eq)
    }

    /// Takes the oldest event.
    pub fn eq_get(&mut self, eq: Handle) -> Result<EqGot, NiFault> {
        self.nic.eq_get(eq)
    }

    /// Binds a memory descriptor.
    pub fn md_bind(&mut self, md: Descriptor) -> Result<Handle, NiFault> {
        self.nic.md_bind(md)
    }

    /// Releases a memory descriptor.
    pub fn md_release(&mut self, md: Handle) -> Result<(), NiFault> {
        self.nic.md_release(md)
    }

    /// How many answers a descriptor awaits.
    pub fn awaits(&self, md: Handle) -> Result<u64, NiFault> {
        self.nic.awaits(md)
    }

    /// Appends an entry to a list of an index.
    pub fn me_append(&mut self, pt: u32, list: List, entry: Entry) -> Result<Appended, NiFault> {
        self.nic.me_append(pt, list, entry)
    }

    /// Unlinks an entry.
    pub fn me_unlink(&mut self, me: Handle) -> Result<(), NiFault> {
        self.nic.me_unlink(me)
    }

    /// Searches the headers of an index by an entry, and deletes what it finds or doesn't.
    pub fn me_search(
        &mut self,
        pt: u32,
        entry: &Entry,
        delete: bool,
    ) -> Result<Option<UnexpectedHeader>, NiFault> {
        self.nic.me_search(pt, entry, delete)
    }

    /// Whether the operation of this number is ready.
    pub fn is_ready(&self, number: u32) -> bool {
        self.nic.is_ready(number)
    }

    /// The number of an operation that is ready.
    pub fn ready(&self) -> Option<u32> {
        self.nic.ready()
    }

    /// How many operations are ready.
    pub fn ready_count(&self) -> u32 {
        self.nic.ready_count()
    }

    /// The number of the ready operation at position `i` by rising number, where there are more than `i`.
    pub fn ready_at(&self, i: u32) -> Option<u32> {
        if i < self.nic.ready_count() {
            Some(self.nic.ready_at(i))
        } else {
            None
        }
    }

    /// How many operations are ready whose message is for this rank.
    pub fn ready_count_to(&self, target: Rank) -> u32 {
        self.nic.ready_count_to(target)
    }

    /// The rank that the message of a pending operation is for.
    pub fn lane_of(&self, number: u32) -> Option<Rank> {
        self.nic.lane_of(number)
    }

    /// Whether a descriptor awaits an answer.
    pub fn awaits_any(&self) -> bool {
        self.nic.awaits_any()
    }

    /// Unexpected headers in all indices together.
    pub fn headers(&self) -> u64 {
        self.nic.headers().len() as u64
    }

    /// Header number `i` of an index.
    pub fn header(&self, pt: u32, i: u32) -> Option<UnexpectedHeader> {
        self.nic.header(pt, i).copied()
    }

    /// Writes bytes into a part of the region.
    pub fn write_memory(&mut self, rt: &impl Abort, start: u64, bytes: &[u8]) {
        let size = self.nic.memory().len() as u64;
        assert!(rt; start <= size && bytes.len() as u64 <= size - start);
        self.nic.write_memory(start, bytes);
    }

    /// A message for this interface arrives.
    pub fn deliver(&mut self, rt: &impl Abort, message: Message) -> Delivered {
        assert!(rt; message.header().target == self.nic.rank());
        self.nic.deliver(message)
    }

    /// Starts an operation by the call of its kind; a deed that counts starts none.
    pub fn start(&mut self, rt: &impl Abort, deed: TriggeredOp) -> Result<Message, NiFault> {
        assert!(rt; !matches!(deed, TriggeredOp::Inc(_, _) | TriggeredOp::Set(_, _)));
        may_start(rt, &self.nic, &deed);
        match deed {
            TriggeredOp::Put(args) => self.nic.put(args),
            TriggeredOp::Get(args) => self.nic.get(args),
            TriggeredOp::Atomic(args, op, ty) => self.nic.atomic(args, op, ty),
            TriggeredOp::FetchAtomic(back, args, op, ty) => self
                .nic
                .fetch_atomic(back, args, op, ty),
            TriggeredOp::Swap(back, args, op, ty, operand) => self
                .nic
                .swap(back, args, op, ty, operand),
            TriggeredOp::Inc(_, _) | TriggeredOp::Set(_, _) => Err(NiFault::Stale),
        }
    }

    /// Posts a triggered operation.
    pub fn triggered(
        &mut self,
        rt: &impl Abort,
        deed: TriggeredOp,
        ct: Handle,
        threshold: u64,
    ) -> Result<u32, NiFault> {
        may_start(rt, &self.nic, &deed);
        self.nic.triggered(deed, ct, threshold)
    }

    /// Fires a triggered operation that is ready.
    pub fn fire(&mut self, rt: &impl Abort, number: u32) -> Option<Message> {
        assert!(rt; self.nic.is_ready(number));
        self.nic.fire(number)
    }
}

fn may_go(rt: &impl Abort, nic: &Nic, target: Rank, length: u64)
    ensures { MayGo target length nic.now.ranks nic.now.limits.msg }
{
    assert!(rt; target < nic.ranks());
    assert!(rt; length <= nic.limits().msg);
}

fn may_combine(rt: &impl Abort, ty: ElemType, length: u64, most: u64)
    ensures { MayCombine ty length most }
{
    let size = ty.size();
    assert!(rt; size > 0);
    assert!(rt; length % size == 0);
    assert!(rt; length <= most);
}

fn may_fetch(rt: &impl Abort, back: &GetArgs, args: &PutArgs)
    ensures { MayFetch back.now args.now }
{
    assert!(rt; back.length == args.length);
    assert!(rt; back.target == args.target);
    assert!(rt; back.pt == args.pt);
    assert!(rt; back.match_bits == args.match_bits);
    assert!(rt; back.remote_offset == args.remote_offset);
    assert!(rt; matches!(args.ack, AckRequest::NoAck));
}

/// Tests the conditions of an operation.
fn may_start(rt: &impl Abort, nic: &Nic, deed: &TriggeredOp)
    ensures { MayStart deed.now nic.now.ranks nic.now.limits }
{
    match deed {
        TriggeredOp::Put(args) => may_go(rt, nic, args.target, args.length),
        TriggeredOp::Get(args) => may_go(rt, nic, args.target, args.length),
        TriggeredOp::Atomic(args, _, ty) => {
            may_go(rt, nic, args.target, args.length);
            may_combine(rt, *ty, args.length, nic.limits().atomic);
        }
        TriggeredOp::FetchAtomic(back, args, _, ty) => {
            may_go(rt, nic, args.target, args.length);
            may_combine(rt, *ty, args.length, nic.limits().fetch_atomic);
            may_fetch(rt, back, args);
        }
        TriggeredOp::Swap(back, args, _, ty, _) => {
            may_go(rt, nic, args.target, args.length);
            assert!(rt; args.length == ty.size());
            may_fetch(rt, back, args);
        }
        TriggeredOp::Inc(_, _) | TriggeredOp::Set(_, _) => {}
    }
}
