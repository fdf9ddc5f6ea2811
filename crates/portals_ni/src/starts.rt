//! The starts of operations, and triggered operations (Portals 4.3, data movement operations and triggered operations).

ghost use Rattle.std.specs.Prelude.{◌≡◌, ◌&&◌, true, false};
ghost use Rattle.ptl_types.specs.declared.calls.TriggeredOp.TheVariants.{Put, Get, Atomic, FetchAtomic, Swap};
ghost use Rattle.ni_model.specs.Counts.{passes_end};
ghost use Rattle.ni_model.specs.Conditions.{MayStart};
ghost use Rattle.ni_model.specs.Refusals.{counts_on_live, action_passes, triggered_fault};
ghost use Rattle.ni_model.specs.Calls.{ends, MayLackMemory, start, triggered};
ghost use Rattle.initiator_engine.specs.Initiators.{by_fault, is_start, room_for};
ghost use Rattle.triggered_ops.specs.Operations.{posted_all};
ghost use Rattle.portals_ni.specs.Pendings.{action_in};
ghost use Rattle.portals_ni.specs.Answers.{as_started};

use crate::nic::Nic;
use crate::packed::Packed;
use crate::posted_op::{PostedOp, sum_of, tell};
use initiator_engine::Initiator;
use ni_objects::counters::Counter;
use ni_objects::handles::Store;
use ptl_types::{
    AtomicOp, Bytes, Count, ElemType, GetArgs, Handle, Message, NiFault, PutArgs, SwapOp,
    TriggeredOp,
};
use triggered_ops::Pending;

/// Whether the action starts an operation; the others count.
pub fn is_start(action: &TriggeredOp) -> bool
    ensures { result ≡ is_start action.now }
{
    !matches!(action, TriggeredOp::Inc(_, _) | TriggeredOp::Set(_, _))
}

/// The room that a start needs: for the bytes that it sends, and of a get for the reply.
fn room_for(action: &TriggeredOp) -> u64
    ensures { result ≡ room_for action.now }
{
    match action {
        TriggeredOp::Put(args) => args.length,
        TriggeredOp::Get(args) => args.length,
        TriggeredOp::Atomic(args, _, _) => args.length,
        TriggeredOp::FetchAtomic(_, args, _, _) => args.length,
        TriggeredOp::Swap(_, args, _, _, _) => args.length,
        _ => 0,
    }
}

/// Whether the counting event that an increment or a set names is live.
fn counts_on_live(cts: &Store<Counter>, action: &TriggeredOp) -> bool
    ensures { result ≡ counts_on_live action.now cts.now }
{
    match action {
        TriggeredOp::Inc(ct, _) => cts.is_live(*ct),
        TriggeredOp::Set(ct, _) => cts.is_live(*ct),
        _ => true,
    }
}

/// Whether both numbers together pass the end of a counting event.
fn passes_end(count: &Count) -> bool
    ensures { result ≡ passes_end count.now }
{
    count.success.checked_add(count.failure).is_none()
}

/// Whether the numbers of an increment or a set do.
fn action_passes(action: &TriggeredOp) -> bool
    ensures { result ≡ action_passes action.now }
{
    match action {
        TriggeredOp::Inc(_, by) => passes_end(by),
        TriggeredOp::Set(_, to) => passes_end(to),
        _ => false,
    }
}

/// What refuses a triggered operation.
fn check_triggered(
    cts: &Store<Counter>,
    initiator: &Initiator,
    pending: &Pending<Packed>,
    action: &TriggeredOp,
    ct: Handle,
) -> Result<(), NiFault>
    ensures { result ≡ by_fault (triggered_fault action.now ct cts.now initiator.now.mds (posted_all action_in pending.now)) }
{
    let checked = initiator.check(action);
    if !(cts.is_live(ct) && counts_on_live(cts, action)) {
        return Err(NiFault::Stale);
    }
    if let Err(NiFault::Stale) = checked {
        return Err(NiFault::Stale);
    }
    if pending.is_full() {
        return Err(NiFault::NoSpace);
    }
    checked?;
    if action_passes(action) {
        return Err(NiFault::CountFull);
    }
    Ok(())
}

impl Nic {
    /// Starts a put: the message is the caller's to send (Portals 4.3, put). The descriptor counts one success where it counts
    /// sends, raises Send where it has a queue, and awaits one answer more where an acknowledgement is asked for. `Stale` where
    /// the descriptor isn't bound, `OutOfRegion` where the part reaches past its end, `NoMemory` for the bytes. Conditions: the
    /// target is a rank, and the length is within the limit.
    pub fn put(&mut self, args: PutArgs) -> Result<Message, NiFault>
        requires { MayStart (Put args) self.old.ranks self.old.limits }
        ensures does { MayLackMemory (start (Put args) self.old) self.old (ends self.new (as_started result)) }
    {
        self.start(&TriggeredOp::Put(args))
    }

    /// Starts a get, whose message brings room for the reply (Portals 4.3, get). The descriptor counts and raises Send as in a
    /// put, and awaits the reply. Refusals and conditions are those of a put.
    pub fn get(&mut self, args: GetArgs) -> Result<Message, NiFault>
        requires { MayStart (Get args) self.old.ranks self.old.limits }
        ensures does { MayLackMemory (start (Get args) self.old) self.old (ends self.new (as_started result)) }
    {
        self.start(&TriggeredOp::Get(args))
    }

    /// Starts an atomic (Portals 4.3, atomic). It counts, raises and awaits as a put does. Refusals and conditions are those of
    /// a put, and beside them the length is of whole elements and within the limit of atomics.
    pub fn atomic(&mut self, args: PutArgs, op: AtomicOp, ty: ElemType) -> Result<Message, NiFault>
        requires { MayStart (Atomic args op ty) self.old.ranks self.old.limits }
        ensures does { MayLackMemory (start (Atomic args op ty) self.old) self.old (ends self.new (as_started result)) }
    {
        self.start(&TriggeredOp::Atomic(args, op, ty))
    }

    /// Starts a fetch-atomic: `back` says where the old elements go (Portals 4.3, fetch-atomic). The descriptor of `args` counts
    /// and raises Send, that of `back` awaits the reply. Refusals are those of a put, for both descriptors. Conditions: the
    /// target is a rank, the length is of whole elements and within the limits of messages and of fetch-atomics (that of
    /// atomics doesn't bind it), both arguments agree in length, target, index, match bits and remote offset, and no
    /// acknowledgement is asked for.
    pub fn fetch_atomic(
        &mut self,
        back: GetArgs,
        args: PutArgs,
        op: AtomicOp,
        ty: ElemType,
    ) -> Result<Message, NiFault>
        requires { MayStart (FetchAtomic back args op ty) self.old.ranks self.old.limits }
        ensures does { MayLackMemory (start (FetchAtomic back args op ty) self.old) self.old (ends self.new (as_started result)) }
    {
        self.start(&TriggeredOp::FetchAtomic(back, args, op, ty))
    }

    /// Starts a swap of one element, with its operand as a bit pattern (Portals 4.3, swap). It counts, raises and awaits as a
    /// fetch-atomic does. Refusals are those of a fetch-atomic. Conditions: the length is one element's, both arguments agree,
    /// and no acknowledgement is asked for.
    pub fn swap(
        &mut self,
        back: GetArgs,
        args: PutArgs,
        op: SwapOp,
        ty: ElemType,
        operand: u64,
    ) -> Result<Message, NiFault>
        requires { MayStart (Swap back args op ty operand) self.old.ranks self.old.limits }
        ensures does { MayLackMemory (start (Swap back args op ty operand) self.old) self.old (ends self.new (as_started result)) }
    {
        self.start(&TriggeredOp::Swap(back, args, op, ty, operand))
    }

    /// Starts what the action says, with room for its bytes.
    fn start(&mut self, action: &TriggeredOp) -> Result<Message, NiFault>
        requires start { is_start action.now ≡ true }
        requires may { MayStart action.now self.old.ranks self.old.limits }
        ensures { MayLackMemory (start action.now self.old) self.old (ends self.new (as_started result)) }
    {
        self.initiator.check(action)?;
        let room = match Bytes::with_room(self.alloc, room_for(action)) {
            Ok(room) => room,
            Err(_) => return Err(NiFault::NoMemory),
        };
        let (message, counted) = self
            .initiator
            .start(&self.region, &mut self.cts, &mut self.eqs, action, room);
        tell(&mut self.pending, &self.cts, counted);
        Ok(message)
    }

    /// Posts a triggered operation on a counting event with a threshold, and answers its number, counted up from 0. Its bytes
    /// are read when it fires, into room that is taken here. Where it asks for an answer, its home awaits it from the firing
    /// on. `Stale` where the counting event or a thing that the action names isn't live, `NoSpace` where as many as the limit are
    /// pending or all 2^32 - 1 numbers were given, `OutOfRegion` as in a put, `CountFull` where the two numbers of an increment
    /// or a set together pass 2^64 - 1, `NoMemory`. Conditions: those of the plain operation.
    pub fn triggered(
        &mut self,
        action: TriggeredOp,
        ct: Handle,
        threshold: u64,
    ) -> Result<u32, NiFault>
        requires { MayStart action self.old.ranks self.old.limits }
        ensures does { MayLackMemory (triggered action ct threshold self.old) self.old (ends self.new result) }
    {
        check_triggered(
            &self.cts,
            &self.initiator,
            self.pending.waiting(),
            &action,
            ct,
        )?;
        let room = match Bytes::with_room(self.alloc, room_for(&action)) {
            Ok(room) => room,
            Err(_) => return Err(NiFault::NoMemory),
        };
        let sum = sum_of(&self.cts, ct);
        let number = match self
            .pending
            .post(PostedOp { action, room }, ct, threshold, sum)
        {
            Ok(number) => number,
            Err(_) => return Err(NiFault::NoMemory),
        };
        Ok(number)
    }
}
