//! The single calls by which a rank prepares its interface and appends its cells' entries.

ghost use Rattle.std.specs.Prelude.{◌≡◌, ◌<◌, ◌≤◌, ◌+◌, ◌*◌, ◌^◌, ◌++◌, ◌∷◌, [], IfOk, length, map};
ghost use Rattle.plan_core.specs.Plan.{all_cells, cell, link};
ghost use Rattle.plan_core.specs.calls.RankOps.RankOp.{ForLink, ForDone};
ghost use Rattle.plan_core.specs.calls.Bits.{bits_above, cell_bits, class_of, op_number, type_number};
ghost use Rattle.plan_core.specs.calls.Calls.{append_call, cell_start, send_act, trigger};
ghost use Rattle.plan_tables.specs.Tables.{IsTabled};

use crate::reading::{from_rank, recall_cells, to_rank};
use plan_core::reading::{cell_at, link_at};
use plan_core::{LinkKind, Plan};
use ptl_types::{AckRequest, AtomicOp, Call, ElemType, NoMemory, PlannedOp, Rank};

/// The number of an operation in the match bits.
fn op_number(op: AtomicOp) -> u64
    ensures value { result ≡ op_number op }
    ensures at_most { result < 10 }
{
    match op {
        AtomicOp::Min => 0,
        AtomicOp::Max => 1,
        AtomicOp::Sum => 2,
        AtomicOp::Prod => 3,
        AtomicOp::Lor => 4,
        AtomicOp::Land => 5,
        AtomicOp::Bor => 6,
        AtomicOp::Band => 7,
        AtomicOp::Lxor => 8,
        AtomicOp::Bxor => 9,
    }
}

/// The number of a type in the match bits.
fn type_number(ty: ElemType) -> u64
    ensures value { result ≡ type_number ty }
    ensures at_most { result < 8 }
{
    match ty {
        ElemType::U8 => 0,
        ElemType::I8 => 1,
        ElemType::U16 => 2,
        ElemType::I16 => 3,
        ElemType::U32 => 4,
        ElemType::I32 => 5,
        ElemType::U64 => 6,
        ElemType::I64 => 7,
    }
}

/// The class of what comes to a cell: 0 for puts, else by operation and type, below 81.
pub(crate) fn class_of(op: Option<AtomicOp>, ty: ElemType) -> u64
    ensures value { result ≡ class_of op ty }
    ensures at_most { result < 81 }
{
    match op {
        None => 0,
        Some(op) => 1 + 8 * op_number(op) + type_number(ty),
    }
}

/// The match bits of a class and a cell, without a sender: job 1, 16 bits; class, 8; cell, 24; sender, 16.
pub(crate) fn bits_of(class: u64, cell: u64) -> u64
    requires class { class < 256 }
    requires cell { cell < 2 ^ 24 }
    ensures value { result ≡ bits_above class cell * 2 ^ 16 }
    ensures at_most { result + 65536 ≤ 2 ^ 56 }
{
    ((256 + class) * 16777216 + cell) * 65536
}

/// The match bits of a cell's entry.
fn cell_bits(plan: &Plan, c: u32) -> u64
    requires tabled { IsTabled plan.now }
    requires cell { c < length plan.now.cells }
    ensures value { result ≡ cell_bits plan.now c * 2 ^ 16 }
    ensures at_most { result + 65536 ≤ 2 ^ 56 }
{
    let cell = cell_at(plan, c);
    bits_of(class_of(cell.op, cell.ty), u64::from(c))
}

/// Where a cell begins in its rank's region.
pub(crate) fn start_at(plan: &Plan, starts: &[u64], c: u32) -> u64
    requires cell { c < length plan.now.cells }
    requires starts { starts.now ≡ map (cell_start plan.now) (all_cells plan.now) }
    ensures { result ≡ cell_start plan.now c }
{
    recall_cells(plan);
    starts[c as usize]
}

/// The entry of a cell of rank r.
pub(crate) fn append_call(plan: &Plan, starts: &[u64], r: Rank, c: u32) -> Call
    requires tabled { IsTabled plan.now }
    requires cell { c < length plan.now.cells }
    requires rank { (cell plan.now c).rank ≡ r }
    requires starts { starts.now ≡ map (cell_start plan.now) (all_cells plan.now) }
    ensures { result ≡ append_call plan.now r c }
{
    let _ = r;
    Call::MeAppend {
        cell: c,
        start: start_at(plan, starts, c),
        length: cell_at(plan, c).length,
        match_bits: cell_bits(plan, c),
        ignore_bits: 65535,
    }
}

/// The put or atomic of a link.
fn send_act(plan: &Plan, starts: &[u64], l: u32) -> PlannedOp
    requires tabled { IsTabled plan.now }
    requires link { l < length plan.now.links }
    requires starts { starts.now ≡ map (cell_start plan.now) (all_cells plan.now) }
    ensures { result ≡ send_act plan.now l }
{
    let link = link_at(plan, l);
    let target = cell_at(plan, link.target);
    PlannedOp::Send {
        local_offset: start_at(plan, starts, link.source) + link.source_offset,
        length: link.length,
        target: to_rank(plan, l),
        match_bits: cell_bits(plan, link.target) + u64::from(from_rank(plan, l)),
        remote_offset: link.target_offset,
        hdr_data: u64::from(l),
        op: target.op,
        ty: target.ty,
        ack: if plan.remote() {
            AckRequest::CtAck
        } else {
            AckRequest::NoAck
        },
    }
}

/// The operation of a link.
pub(crate) fn link_call(plan: &Plan, starts: &[u64], l: u32) -> Call
    requires tabled { IsTabled plan.now }
    requires link { l < length plan.now.links }
    requires starts { starts.now ≡ map (cell_start plan.now) (all_cells plan.now) }
    ensures { result ≡ trigger plan.now (ForLink l) }
{
    let link = link_at(plan, l);
    let act = match link.kind {
        LinkKind::Bump => PlannedOp::BumpCell { cell: link.target },
        _ => send_act(plan, starts, l),
    };
    Call::Trigger {
        cell: link.source,
        threshold: cell_at(plan, link.source).needs,
        act,
    }
}

/// The operation that counts a cell as done.
pub(crate) fn done_call(plan: &Plan, c: u32) -> Call
    requires { c < length plan.now.cells }
    ensures { result ≡ trigger plan.now (ForDone c) }
{
    Call::Trigger {
        cell: c,
        threshold: cell_at(plan, c).needs,
        act: PlannedOp::BumpDone,
    }
}

/// One call more.
pub(crate) fn push_call(calls: &mut Vec<Call>, call: Call) -> Result<(), NoMemory>
    ensures { IfOk result (λ u. calls.new.items ≡ calls.old.items ++ call ∷ []) }
{
    match calls.push(call) {
        Ok(()) => Ok(()),
        Err(_) => Err(NoMemory),
    }
}
