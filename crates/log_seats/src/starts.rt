//! Starts and triggered operations.

ghost use Rattle.std.specs.Prelude.{◌≡◌, IfOk};
ghost use Rattle.log_seats.specs.Answers.{Ends, IsRefused, IsStarted, deed_of, deed_with, posts, sort_of, starts};
ghost use Rattle.log_seats.specs.Seats.{handle_of};
ghost use Rattle.log_answers.specs.declared.owed.Sort.TheVariants as sorts;

use crate::after::{After, refused, told, word};
use crate::seats::Seat;
use guarded_ni::CallFault;
use log_answers::{Owed, Sort};
use log_lines::TriggeredOpSaid;
use log_words::Word;
use log_words::call_fields::NO_HANDLE;
use ptl_types::{Handle, Message, NoMemory, TriggeredOp};
use std::alloc::Global;

/// A message that was started.
fn started(message: Result<Message, CallFault>) -> Result<After, NoMemory>
    ensures { IfOk result (IsStarted message) }
{
    match message {
        Ok(message) => Ok(After {
            owed: Owed::Message,
            sent: Some(message),
        }),
        Err(fault) => Ok(told(refused(fault)?)),
    }
}

/// A deed with its handles.
fn deed_with(deed: TriggeredOp, on: Handle, back: Handle) -> TriggeredOp
    ensures { result ≡ deed_with deed on back }
{
    match deed {
        TriggeredOp::Put(mut args) => {
            args.md = on;
            TriggeredOp::Put(args)
        }
        TriggeredOp::Get(mut args) => {
            args.md = on;
            TriggeredOp::Get(args)
        }
        TriggeredOp::Atomic(mut args, op, ty) => {
            args.md = on;
            TriggeredOp::Atomic(args, op, ty)
        }
        TriggeredOp::FetchAtomic(mut get, mut args, op, ty) => {
            get.md = back;
            args.md = on;
            TriggeredOp::FetchAtomic(get, args, op, ty)
        }
        TriggeredOp::Swap(mut get, mut args, op, ty, operand) => {
            get.md = back;
            args.md = on;
            TriggeredOp::Swap(get, args, op, ty, operand)
        }
        TriggeredOp::Inc(_, by) => TriggeredOp::Inc(on, by),
        TriggeredOp::Set(_, to) => TriggeredOp::Set(on, to),
    }
}

/// What a deed is on: a counting event or a descriptor.
fn sort_of(deed: TriggeredOp) -> Sort
    ensures { result ≡ sort_of deed }
{
    match deed {
        TriggeredOp::Inc(_, _) => Sort::Counter,
        TriggeredOp::Set(_, _) => Sort::Counter,
        _ => Sort::Descriptor,
    }
}

/// The deed that a log says, with the handles that its words name.
fn deed_of(seat: &Seat, said: &TriggeredOpSaid) -> TriggeredOp
    ensures { result ≡ deed_of seat.now said.now }
{
    let on = seat.handle(sort_of(said.deed), &said.on);
    let back = match seat.handle_if(Sort::Descriptor, &said.back) {
        Some(back) => back,
        None => NO_HANDLE,
    };
    deed_with(said.deed, on, back)
}

/// Starts an operation of these handles.
fn started_as(seat: &mut Seat, deed: TriggeredOp) -> Result<After, NoMemory>
    ensures { IfOk result (λ a. Ends seat.new a (starts deed seat.old)) }
{
    match deed {
        TriggeredOp::Put(args) => started(guarded_ni::put(&mut seat.nic, args)),
        TriggeredOp::Get(args) => started(guarded_ni::get(&mut seat.nic, args)),
        TriggeredOp::Atomic(args, op, ty) => started(guarded_ni::atomic(
            &mut seat.nic,
            args,
            op,
            ty,
        )),
        TriggeredOp::FetchAtomic(get, args, op, ty) => {
            started(guarded_ni::fetch_atomic(&mut seat.nic, get, args, op, ty))
        }
        TriggeredOp::Swap(get, args, op, ty, operand) => {
            started(guarded_ni::swap(&mut seat.nic, get, args, op, ty, operand))
        }
        TriggeredOp::Inc(_, _) | TriggeredOp::Set(_, _) => Err(NoMemory),
    }
}

/// Starts an operation.
pub(crate) fn start(seat: &mut Seat, said: &TriggeredOpSaid) -> Result<After, NoMemory>
    ensures { IfOk result (λ a. Ends seat.new a (starts (deed_of seat.old said.now) seat.old)) }
{
    let deed = deed_of(seat, said);
    started_as(seat, deed)
}

/// Posts a triggered operation.
pub(crate) fn triggered(
    alloc: Global,
    seat: &mut Seat,
    name: &Word,
    ct: &Word,
    threshold: u64,
    said: &TriggeredOpSaid,
) -> Result<After, NoMemory>
    ensures { IfOk result (λ a.
        Ends seat.new a (posts name.now.text (deed_of seat.old said.now) (handle_of sorts.Counter seat.old ct.now) threshold seat.old)) }
{
    let deed = deed_of(seat, said);
    let ct = seat.handle(Sort::Counter, ct);
    match guarded_ni::triggered(&mut seat.nic, deed, ct, threshold) {
        Ok(number) => {
            seat.operations.post(alloc, number, ct, name.text())?;
            Ok(told(word(b"ok")))
        }
        Err(fault) => Ok(told(refused(fault)?)),
    }
}
