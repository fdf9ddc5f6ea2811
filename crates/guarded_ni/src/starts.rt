//! The starts of operations, and triggered operations (Portals 4.3, data movement operations and triggered operations).

ghost use Rattle.std.specs.Prelude.{◌≡◌, ◌==◌, ◌%◌};
ghost use Rattle.ptl_types.specs.declared.calls.TriggeredOp.TheVariants.{Put, Get, Atomic, FetchAtomic, Swap};
ghost use Rattle.ptl_types.specs.Operations.{bytes_of};
ghost use Rattle.ni_model.specs.Calls.{MayLackMemory, ends, start, triggered};
ghost use Rattle.portals_ni.specs.Answers.{as_started};
ghost use Rattle.guarded_ni.specs.declared.faults.Misuse.TheVariants.{PartialElement};
ghost use Rattle.guarded_ni.specs.Guarded.{Guards};
ghost use Rattle.guarded_ni.specs.Misuses.{agree, halves_misuse, length_misuse, or_else, rank_misuse, start_misuse, unless};

use crate::faults::{CallFault, Misuse};
use portals_ni::Nic;
use ptl_types::{
    AckRequest, AtomicOp, ElemType, GetArgs, Handle, Message, PutArgs, Rank, SwapOp, TriggeredOp,
};

/// The first of two rules that are broken.
fn first(one: Option<Misuse>, other: Option<Misuse>) -> Option<Misuse>
    ensures { result ≡ or_else one other }
{
    match one {
        Some(misuse) => Some(misuse),
        None => other,
    }
}

/// This rule, unless it is kept.
fn broken(kept: bool, rule: Misuse) -> Option<Misuse>
    ensures { result ≡ unless kept rule }
{
    if kept { None } else { Some(rule) }
}

fn bad_target(target: Rank, ranks: u32) -> Option<Misuse>
    ensures { result ≡ rank_misuse target ranks }
{
    broken(target < ranks, Misuse::UnknownRank)
}

fn bad_length(length: u64, most: u64) -> Option<Misuse>
    ensures { result ≡ length_misuse length most }
{
    if most < length {
        Some(Misuse::TooLong)
    } else {
        None
    }
}

fn bad_elements(length: u64, ty: ElemType) -> Option<Misuse>
    ensures { result ≡ unless ((length % bytes_of ty) == 0) PartialElement }
{
    broken(length % ty.size() == 0, Misuse::PartialElement)
}

fn halves_agree(back: &GetArgs, args: &PutArgs) -> bool
    ensures { result ≡ agree back.now args.now }
{
    back.length == args.length
        && back.target == args.target
        && back.pt == args.pt
        && back.match_bits == args.match_bits
        && back.remote_offset == args.remote_offset
}

fn bad_halves(back: &GetArgs, args: &PutArgs) -> Option<Misuse>
    ensures { result ≡ halves_misuse back.now args.now }
{
    let asks_none = matches!(args.ack, AckRequest::NoAck);
    first(
        broken(halves_agree(back, args), Misuse::HalvesDiffer),
        broken(asks_none, Misuse::AsksAcknowledgement),
    )
}

/// The rule that the arguments of a start break, if they break one.
fn bad_start(nic: &Nic, action: &TriggeredOp) -> Option<Misuse>
    ensures { result ≡ start_misuse action.now nic.now.ranks nic.now.limits }
{
    let ranks = nic.ranks();
    let limits = nic.limits();
    let (target, length) = match action {
        TriggeredOp::Put(args) => (args.target, args.length),
        TriggeredOp::Get(args) => (args.target, args.length),
        TriggeredOp::Atomic(args, _, _) => (args.target, args.length),
        TriggeredOp::FetchAtomic(_, args, _, _) => (args.target, args.length),
        TriggeredOp::Swap(_, args, _, _, _) => (args.target, args.length),
        TriggeredOp::Inc(_, _) | TriggeredOp::Set(_, _) => return None,
    };
    let rest = match action {
        TriggeredOp::Atomic(args, _, ty) => first(
            bad_length(args.length, limits.atomic),
            bad_elements(args.length, *ty),
        ),
        TriggeredOp::FetchAtomic(back, args, _, ty) => first(
            bad_length(args.length, limits.fetch_atomic),
            first(bad_elements(args.length, *ty), bad_halves(back, args)),
        ),
        TriggeredOp::Swap(back, args, _, ty, _) => first(
            broken(args.length == ty.size(), Misuse::PartialElement),
            bad_halves(back, args),
        ),
        _ => None,
    };
    first(
        bad_target(target, ranks),
        first(bad_length(length, limits.msg), rest),
    )
}

/// Starts a put, as `Nic::put` does. `Misused` where the target is no rank or the length passes the limit of messages.
pub fn put(nic: &mut Nic, args: PutArgs) -> Result<Message, CallFault>
    ensures { Guards (start_misuse (Put args) nic.old.ranks nic.old.limits) nic.old nic.new
        (λ r. MayLackMemory (start (Put args) nic.old) nic.old (ends nic.new (as_started r))) result }
{
    if let Some(misuse) = bad_start(nic, &TriggeredOp::Put(args)) {
        return Err(CallFault::Misused(misuse));
    }
    match nic.put(args) {
        Ok(message) => Ok(message),
        Err(fault) => Err(CallFault::Refused(fault)),
    }
}

/// Starts a get, as `Nic::get` does. `Misused` as for a put.
pub fn get(nic: &mut Nic, args: GetArgs) -> Result<Message, CallFault>
    ensures { Guards (start_misuse (Get args) nic.old.ranks nic.old.limits) nic.old nic.new
        (λ r. MayLackMemory (start (Get args) nic.old) nic.old (ends nic.new (as_started r))) result }
{
    if let Some(misuse) = bad_start(nic, &TriggeredOp::Get(args)) {
        return Err(CallFault::Misused(misuse));
    }
    match nic.get(args) {
        Ok(message) => Ok(message),
        Err(fault) => Err(CallFault::Refused(fault)),
    }
}

/// Starts an atomic, as `Nic::atomic` does. `Misused` as for a put, and where the length passes the limit of atomics or isn't one of
/// whole elements.
pub fn atomic(
    nic: &mut Nic,
    args: PutArgs,
    op: AtomicOp,
    ty: ElemType,
) -> Result<Message, CallFault>
    ensures { Guards (start_misuse (Atomic args op ty) nic.old.ranks nic.old.limits) nic.old nic.new
        (λ r. MayLackMemory (start (Atomic args op ty) nic.old) nic.old (ends nic.new (as_started r))) result }
{
    if let Some(misuse) = bad_start(nic, &TriggeredOp::Atomic(args, op, ty)) {
        return Err(CallFault::Misused(misuse));
    }
    match nic.atomic(args, op, ty) {
        Ok(message) => Ok(message),
        Err(fault) => Err(CallFault::Refused(fault)),
    }
}

/// Starts a fetch-atomic, as `Nic::fetch_atomic` does. `Misused` as for a put, and where the length passes the limit of fetch-atomics or
/// isn't one of whole elements, where the two halves differ, and where an acknowledgement is asked for.
pub fn fetch_atomic(
    nic: &mut Nic,
    back: GetArgs,
    args: PutArgs,
    op: AtomicOp,
    ty: ElemType,
) -> Result<Message, CallFault>
    ensures { Guards (start_misuse (FetchAtomic back args op ty) nic.old.ranks nic.old.limits) nic.old nic.new
        (λ r. MayLackMemory (start (FetchAtomic back args op ty) nic.old) nic.old (ends nic.new (as_started r))) result }
{
    if let Some(misuse) = bad_start(nic, &TriggeredOp::FetchAtomic(back, args, op, ty)) {
        return Err(CallFault::Misused(misuse));
    }
    match nic.fetch_atomic(back, args, op, ty) {
        Ok(message) => Ok(message),
        Err(fault) => Err(CallFault::Refused(fault)),
    }
}

/// Starts a swap, as `Nic::swap` does. `Misused` as for a put, and where the length isn't that of one element, where the two halves
/// differ, and where an acknowledgement is asked for.
pub fn swap(
    nic: &mut Nic,
    back: GetArgs,
    args: PutArgs,
    op: SwapOp,
    ty: ElemType,
    operand: u64,
) -> Result<Message, CallFault>
    ensures { Guards (start_misuse (Swap back args op ty operand) nic.old.ranks nic.old.limits) nic.old nic.new
        (λ r. MayLackMemory (start (Swap back args op ty operand) nic.old) nic.old (ends nic.new (as_started r))) result }
{
    if let Some(misuse) = bad_start(nic, &TriggeredOp::Swap(back, args, op, ty, operand)) {
        return Err(CallFault::Misused(misuse));
    }
    match nic.swap(back, args, op, ty, operand) {
        Ok(message) => Ok(message),
        Err(fault) => Err(CallFault::Refused(fault)),
    }
}

/// Posts a triggered operation, as `Nic::triggered` does. `Misused` as for the plain operation.
pub fn triggered(
    nic: &mut Nic,
    action: TriggeredOp,
    ct: Handle,
    threshold: u64,
) -> Result<u32, CallFault>
    ensures { Guards (start_misuse action nic.old.ranks nic.old.limits) nic.old nic.new
        (λ r. MayLackMemory (triggered action ct threshold nic.old) nic.old (ends nic.new r)) result }
{
    if let Some(misuse) = bad_start(nic, &action) {
        return Err(CallFault::Misused(misuse));
    }
    match nic.triggered(action, ct, threshold) {
        Ok(number) => Ok(number),
        Err(fault) => Err(CallFault::Refused(fault)),
    }
}
