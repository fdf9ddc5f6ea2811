//! The lines that name cells, one by one.

ghost use Rattle.std.specs.Prelude.{◌≡◌, ◌<◌, ◌+◌, ◌^◌, None, [], length, take};
ghost use Rattle.number_lists.specs.Numbers.{from_to};
ghost use Rattle.mark_judge.specs.Judged.{line_flaw};
ghost use Rattle.mark_judge.specs.Tables.{AreNamed, places};
ghost use Rattle.plan_judge.specs.Causes.{first_found};
ghost use Rattle.plan_tables.specs.Tables.{IsTabled};

use crate::asked::mark_at;
use crate::flaw::MarkFlaw;
use crate::named::is_first;
use coll_shape::Shape;
use given_lines::Mark;
use plan_core::Plan;

/// The line at a place, where the description doesn't ask for it, it names a cell that doesn't fit, or a line before it is for the same.
/// Where it is at no fault, that is noted in the table, which tells what has a line before it.
fn line_flaw(
    named: &mut Vec<bool>,
    plan: &Plan,
    shape: &Shape,
    marks: &[Mark],
    i: usize,
) -> Option<MarkFlaw>
    requires room { length named.old.items ≡ places }
    requires before { AreNamed (take i marks.now) named.old.items }
    requires tabled { IsTabled plan.now }
    requires line { i < length marks.now }
    requires few_marks { length marks.now < 2 ^ 32 }
    ensures flaw { result ≡ line_flaw plan.now shape.now marks.now i }
    ensures room { result ≡ None → length named.new.items ≡ places }
    ensures named { result ≡ None → AreNamed (take (i + 1) marks.now) named.new.items }
{
    if is_first(named, plan, shape, mark_at(marks, i)) {
        None
    } else {
        Some(MarkFlaw::BadResult { mark: i as u32 })
    }
}

/// The first line that the description doesn't ask for, that names a cell which doesn't fit, or before which another is for the same.
/// Where there is none, the table, which was one of nothing, tells what has a line.
pub(crate) fn first_line_flaw(
    named: &mut Vec<bool>,
    plan: &Plan,
    shape: &Shape,
    marks: &[Mark],
) -> Option<MarkFlaw>
    requires room { length named.old.items ≡ places }
    requires none { AreNamed [] named.old.items }
    requires tabled { IsTabled plan.now }
    requires few_marks { length marks.now < 2 ^ 32 }
    ensures flaw { result ≡ first_found (line_flaw plan.now shape.now marks.now) (from_to 0 (length marks.now)) }
    ensures room { result ≡ None → length named.new.items ≡ places }
    ensures named { result ≡ None → AreNamed marks.now named.new.items }
{
    for i in 0..marks.len() {
        let flaw = line_flaw(named, plan, shape, marks, i);
        if flaw.is_some() {
            return flaw;
        }
    }
    None
}
