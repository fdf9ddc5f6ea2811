//! The calls of a rank's preparation and start, appended part by part.

ghost use Rattle.std.specs.Prelude.{ℕ, ◌≡◌, ◌<◌, ◌+◌, ◌^◌, ◌-◌, ◌*◌, ◌++◌, ◌∷◌, [], IfOk, get_or, length, map, nat_lt, if◌then◌else◌};
ghost use Rattle.ptl_types.specs.declared.steps.Call.TheVariants.{CtCell, Overflow};
ghost use Rattle.plan_core.specs.Plan.{all_cells, cell};
ghost use Rattle.plan_core.specs.calls.RankOps.RankOp.{ForLink, ForDone};
ghost use Rattle.plan_core.specs.calls.Areas.{areas_length, classes, region_length};
ghost use Rattle.plan_core.specs.calls.Bits.{bits_above};
ghost use Rattle.plan_core.specs.calls.Calls.{append_call, area_call, cell_start, trigger};
ghost use Rattle.plan_tables.specs.Tables.{IsTabled};
ghost use Rattle.plan_tables.specs.AreaTables.{area_counts, area_sums};

use crate::all_areas::Areas;
use crate::calls::{append_call, bits_of, done_call, link_call, push_call};
use crate::reading::recall_ranks;
use plan_core::Plan;
use ptl_types::{Call, NoMemory, Rank};

/// The area of a class, where it has messages.
fn push_area(
    calls: &mut Vec<Call>,
    count: u64,
    class: u64,
    start: u64,
    length: u64,
) -> Result<(), NoMemory>
    requires { class < 256 }
    ensures { IfOk result (λ u. calls.new.items ≡ calls.old.items ++
        (if nat_lt 0 count then Overflow start length (bits_above class 0 * 2 ^ 16) (2 ^ 40 - 1) ∷ [] else [])) }
{
    if 0 < count {
        let area = Call::Overflow {
            start,
            length,
            match_bits: bits_of(class, 0),
            ignore_bits: 1_099_511_627_775,
        };
        push_call(calls, area)?;
    }
    Ok(())
}

/// The areas of a rank, by class, after so many bytes of its cells. Answers where the last ends. The counts decide which areas
/// there are, not the bytes: a barrier's messages carry none.
pub(crate) fn add_area_calls(
    calls: &mut Vec<Call>,
    plan: &Plan,
    areas: &Areas,
    r: Rank,
    after_cells: u64,
) -> Result<u64, NoMemory>
    requires tabled { IsTabled plan.now }
    requires rank { r < plan.now.ranks }
    requires counts { areas.now.counts ≡ area_counts plan.now }
    requires bytes { areas.now.bytes ≡ area_sums plan.now }
    requires after_cells { after_cells ≡ region_length plan.now r }
    ensures calls { IfOk result (λ end. calls.new.items ≡ calls.old.items ++ map (area_call plan.now r) (classes plan.now r)) }
    ensures end { IfOk result (λ end. end ≡ region_length plan.now r + areas_length plan.now r) }
{
    recall_ranks(plan);
    let mut start = after_cells;
    for class in 0..81u32 {
        let key = r as usize * 81 + class as usize;
        let count = areas.counts.at(key);
        let length = areas.bytes.at(key);
        push_area(calls, count, u64::from(class), start, length)?;
        start += length;
    }
    Ok(start)
}

/// The counting events of a rank's cells.
pub(crate) fn add_counter_calls(calls: &mut Vec<Call>, own: &[u32]) -> Result<(), NoMemory>
    ensures { IfOk result (λ u. calls.new.items ≡ calls.old.items ++ map CtCell own.now) }
{
    for c in own {
        push_call(calls, Call::CtCell { cell: *c })?;
    }
    Ok(())
}

/// The operations of the links that a rank fires.
pub(crate) fn add_link_calls(
    calls: &mut Vec<Call>,
    plan: &Plan,
    starts: &[u64],
    out: &[u32],
) -> Result<(), NoMemory>
    requires tabled { IsTabled plan.now }
    requires links { (i : ℕ) → i < length out.now → get_or out.now i 0 < length plan.now.links }
    requires starts { starts.now ≡ map (cell_start plan.now) (all_cells plan.now) }
    ensures { IfOk result (λ u. calls.new.items ≡ calls.old.items ++ map (λ l. trigger plan.now (ForLink l)) out.now) }
{
    for l in out {
        push_call(calls, link_call(plan, starts, *l))?;
    }
    Ok(())
}

/// The operations that count a rank's cells as done.
pub(crate) fn add_done_calls(
    calls: &mut Vec<Call>,
    plan: &Plan,
    own: &[u32],
) -> Result<(), NoMemory>
    requires { (i : ℕ) → i < length own.now → get_or own.now i 0 < length plan.now.cells }
    ensures { IfOk result (λ u. calls.new.items ≡ calls.old.items ++ map (λ c. trigger plan.now (ForDone c)) own.now) }
{
    for c in own {
        push_call(calls, done_call(plan, *c))?;
    }
    Ok(())
}

/// The entries of the cells of rank r.
pub(crate) fn add_append_calls(
    calls: &mut Vec<Call>,
    plan: &Plan,
    starts: &[u64],
    r: Rank,
    own: &[u32],
) -> Result<(), NoMemory>
    requires tabled { IsTabled plan.now }
    requires cells { (i : ℕ) → i < length own.now → get_or own.now i 0 < length plan.now.cells }
    requires rank { (i : ℕ) → i < length own.now → (cell plan.now (get_or own.now i 0)).rank ≡ r }
    requires starts { starts.now ≡ map (cell_start plan.now) (all_cells plan.now) }
    ensures { IfOk result (λ u. calls.new.items ≡ calls.old.items ++ map (append_call plan.now r) own.now) }
{
    for c in own {
        push_call(calls, append_call(plan, starts, r, *c))?;
    }
    Ok(())
}
