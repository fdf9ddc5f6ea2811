//! The pending operations of an interface, and what they name.

ghost use Rattle.std.specs.Prelude.{◌≡◌, ◌<◌, ◌-◌, ◌^◌, ◌||◌, None, IfNone, IfOk, OnOk, OnErr, All, length, option_map};
ghost use Rattle.ptl_types.specs.Handles.{same_handle};
ghost use Rattle.ni_model.specs.Refusals.{action_names_ct, action_names_md, operation_names_md, operation_names_ct};
ghost use Rattle.triggered_ops.specs.Operations.{no_operations, operation_at, action_of, with_posted, told, without_number, waiting_on};
ghost use Rattle.triggered_ops.specs.Operations.{cancelled, posted_all};
ghost use Rattle.portals_ni.specs.Answers.{action_counter};
ghost use Rattle.portals_ni.specs.Fit.{FitLimits};
ghost use Rattle.portals_ni.specs.Pendings.{action_in};
ghost use Rattle.portals_ni.specs.Uses.{put_md, get_md, AreUsed, CtsAlone, MdsAlone};

use crate::packed::Packed;
use crate::posted_op::PostedOp;
use ni_objects::users::Users;
use ptl_types::{Handle, Limits, NoMemory, TriggeredOp};
use std::alloc::Global;
use std::marker::Model;
use triggered_ops::Pending;

/// The pending operations. `cts` and `mds` count by slot how often they name a counting event and a descriptor.
#[derive(Drop)]
pub struct Triggers {
    alloc: Global,
    pending: Pending<Packed>,
    cts: Users,
    mds: Users,
}

impl Model for Triggers {
    ghost use Rattle.triggered_ops.specs.Operations.{Operations};
    ghost use Rattle.portals_ni.specs.declared.posted_op.PostedOp.{PostedOp};
    ghost use Rattle.portals_ni.specs.Uses.{AreUsed};

    ghost Value = { Operations PostedOp };

    ghost view = { λ t. t.pending };

    ghost invariant = { λ t. AreUsed t.pending t.cts t.mds };
}

/// The counting event that an action counts on, if it does.
fn action_counter(action: &TriggeredOp) -> Option<Handle>
    ensures { result ≡ action_counter action.now }
{
    match action {
        TriggeredOp::Inc(ct, _) => Some(*ct),
        TriggeredOp::Set(ct, _) => Some(*ct),
        _ => None,
    }
}

/// The descriptor of an action's put arguments, if it has any.
fn put_md(action: &TriggeredOp) -> Option<Handle>
    ensures { result ≡ put_md action.now }
{
    match action {
        TriggeredOp::Put(args) => Some(args.md),
        TriggeredOp::Atomic(args, _, _) => Some(args.md),
        TriggeredOp::FetchAtomic(_, args, _, _) => Some(args.md),
        TriggeredOp::Swap(_, args, _, _, _) => Some(args.md),
        _ => None,
    }
}

/// The descriptor of an action's get arguments, if it has any.
fn get_md(action: &TriggeredOp) -> Option<Handle>
    ensures { result ≡ get_md action.now }
{
    match action {
        TriggeredOp::Get(args) => Some(args.md),
        TriggeredOp::FetchAtomic(args, _, _, _) => Some(args.md),
        TriggeredOp::Swap(args, _, _, _, _) => Some(args.md),
        _ => None,
    }
}

/// Takes an operation out, and counts down what it names.
fn take_out(
    pending: &mut Pending<Packed>,
    cts: &mut Users,
    mds: &mut Users,
    number: u32,
) -> Option<PostedOp>
    requires { AreUsed pending.old cts.old mds.old }
    ensures used { AreUsed pending.new cts.new mds.new }
    ensures value { result ≡ option_map action_of (operation_at number pending.old) }
    ensures rest { pending.new ≡ without_number number pending.old }
    ensures none { IfNone result (pending.new ≡ pending.old) }
{
    // Brings to the proof that no two have one number.
    let _many = pending.len();
    let ct = match pending.get(number) {
        Some((_, ct, _)) => ct,
        None => return None,
    };
    let packed = match pending.take(number) {
        Some(packed) => packed,
        None => unreachable!(),
    };
    let posted = packed.unpack();
    cts.lower(ct.slot);
    cts.remove(action_counter(&posted.action));
    mds.remove(get_md(&posted.action));
    mds.remove(put_md(&posted.action));
    Some(posted)
}

/// Takes the operations out that wait on a counting event.
fn drop_on(pending: &mut Pending<Packed>, cts: &mut Users, mds: &mut Users, ct: Handle)
    requires { AreUsed pending.old cts.old mds.old }
    ensures used { AreUsed pending.new cts.new mds.new }
    ensures rest { pending.new ≡ cancelled ct pending.old }
{
    // Brings to the proof that no two have one number.
    let _many = pending.len();
    while let Some(number) = pending.first_on(ct) {
        let _ = take_out(pending, cts, mds, number);
    }
}

/// Whether the action names the descriptor.
fn action_names_md(action: &TriggeredOp, md: Handle) -> bool
    ensures { result ≡ action_names_md md action.now }
{
    match action {
        TriggeredOp::Put(args) => args.md.is(md),
        TriggeredOp::Get(args) => args.md.is(md),
        TriggeredOp::Atomic(args, _, _) => args.md.is(md),
        TriggeredOp::FetchAtomic(back, args, _, _) => back.md.is(md) || args.md.is(md),
        TriggeredOp::Swap(back, args, _, _, _) => back.md.is(md) || args.md.is(md),
        _ => false,
    }
}

/// Whether a pending operation names the descriptor.
fn some_names_md(pending: &Pending<Packed>, md: Handle) -> bool
    ensures { result ≡ operation_names_md md (posted_all action_in pending.now).waiting }
{
    let mut from = 0;
    while let Some((number, packed, _, _)) = pending.next(from) {
        let action = packed.action();
        if action_names_md(&action, md) {
            return true;
        }
        from = number + 1;
    }
    false
}

/// Whether the action counts on the counting event.
fn action_names_ct(action: &TriggeredOp, ct: Handle) -> bool
    ensures { result ≡ action_names_ct ct action.now }
{
    match action {
        TriggeredOp::Inc(handle, _) => handle.is(ct),
        TriggeredOp::Set(handle, _) => handle.is(ct),
        _ => false,
    }
}

/// Whether an operation waits on the counting event, or counts on it.
fn counts_on(action: &TriggeredOp, waits_on: Handle, ct: Handle) -> bool
    ensures { result ≡ (same_handle waits_on ct || action_names_ct ct action.now) }
{
    waits_on.is(ct) || action_names_ct(action, ct)
}

/// Whether a pending operation waits or counts on the counting event.
fn some_names_ct(pending: &Pending<Packed>, ct: Handle) -> bool
    ensures { result ≡ operation_names_ct ct (posted_all action_in pending.now).waiting }
{
    let mut from = 0;
    while let Some((number, packed, waits_on, _)) = pending.next(from) {
        let action = packed.action();
        if counts_on(&action, waits_on, ct) {
            return true;
        }
        from = number + 1;
    }
    false
}

impl Triggers {
    /// None, with the room of these limits for what they name.
    pub fn open(alloc: Global, limits: &Limits) -> Result<Triggers, NoMemory>
        requires { FitLimits limits.now }
        ensures makes { IfOk result (λ t. t ≡ no_operations limits.now.triggered) }
    {
        let pending = Pending::open(alloc, limits.triggered, limits.cts)?;
        let cts = Users::open(alloc, limits.cts)?;
        let mds = Users::open(alloc, limits.mds)?;
        Ok(Triggers {
            alloc,
            pending,
            cts,
            mds,
        })
    }

    /// Those that wait.
    pub fn waiting(&self) -> &Pending<Packed>
        ensures value { result.now ≡ self.now }
    {
        &self.pending
    }

    /// Tells those that wait on a counting event how far it is.
    pub fn reached(&mut self, ct: Handle, sum: u64)
        ensures does { self.new ≡ told ct sum self.old }
    {
        self.pending.reached(ct, sum);
    }

    /// Posts an operation and answers its number; the sum of its counting event is told. At an error nothing has changed.
    pub fn post(
        &mut self,
        posted: PostedOp,
        ct: Handle,
        threshold: u64,
        sum: u64,
    ) -> Result<u32, NoMemory>
        requires room { length self.old.waiting < self.old.limit }
        requires numbers { self.old.given < 2 ^ 32 - 1 }
        ensures number { IfOk result (λ t. t ≡ self.old.given) }
        ensures fresh { IfOk result (λ t. operation_at t self.old ≡ None) }
        ensures ok { OnOk result (self.new ≡ with_posted posted ct threshold sum (told ct sum self.old)) }
        ensures err { OnErr result (self.new ≡ self.old) }
    {
        // Brings the bound of how many wait to the proof.
        let _many = self.pending.len();
        let counter = action_counter(&posted.action);
        let get = get_md(&posted.action);
        let put = put_md(&posted.action);
        let packed = Packed::new(self.alloc, posted)?;
        let number = self.pending.post(packed, ct, threshold, sum)?;
        self.cts.raise(ct.slot);
        self.cts.add(counter);
        self.mds.add(get);
        self.mds.add(put);
        Ok(number)
    }

    /// Takes the action of the operation of this number out; `None` exactly where it doesn't wait, and then nothing changes.
    pub fn take(&mut self, number: u32) -> Option<PostedOp>
        ensures value { result ≡ option_map action_of (operation_at number self.old) }
        ensures rest { self.new ≡ without_number number self.old }
        ensures none { IfNone result (self.new ≡ self.old) }
    {
        take_out(&mut self.pending, &mut self.cts, &mut self.mds, number)
    }

    /// Removes the operations that wait on a counting event, and answers how many they were.
    pub fn cancel(&mut self, ct: Handle) -> u32
        ensures number { result ≡ length (waiting_on ct self.old) }
        ensures rest { self.new ≡ cancelled ct self.old }
    {
        let before = self.pending.len();
        drop_on(&mut self.pending, &mut self.cts, &mut self.mds, ct);
        before - self.pending.len()
    }

    /// Whether an operation waits or counts on the counting event, by the count of its slot; a slot past the row's end is
    /// looked up operation by operation. Condition: none names another counting event of this slot.
    pub fn names_ct(&self, ct: Handle) -> bool
        requires alone { All (CtsAlone ct) self.now.waiting }
        ensures value { result ≡ operation_names_ct ct (posted_all action_in self.now).waiting }
    {
        match self.cts.at(ct.slot) {
            Some(uses) => uses > 0,
            None => some_names_ct(&self.pending, ct),
        }
    }

    /// Whether an operation names the descriptor, likewise. Condition: none names another descriptor of this slot.
    pub fn names_md(&self, md: Handle) -> bool
        requires alone { All (MdsAlone md) self.now.waiting }
        ensures value { result ≡ operation_names_md md (posted_all action_in self.now).waiting }
    {
        match self.mds.at(md.slot) {
            Some(uses) => uses > 0,
            None => some_names_md(&self.pending, md),
        }
    }
}
