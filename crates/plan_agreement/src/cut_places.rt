//! What the cells of a plan are computed from, slice by slice.

ghost use Rattle.std.specs.Prelude.{◌≡◌, ◌<◌, ◌+◌, ◌-◌, ◌*◌, ◌^◌, [], ℕ, true, IfOk, length, get_or};
ghost use Rattle.plan_core.specs.Plan.{link};
ghost use Rattle.plan_slices.specs.Slices.{cut_at};
ghost use Rattle.plan_terms.specs.terms.Terms.{Keeps};
ghost use Rattle.plan_agreement.specs.Evaluated.{CutAlike, IsEvaluated};

use plan_core::Plan;
use plan_slices::{Cut, are_cuts, cut_at, recall_uncut, sliced};
use plan_terms::terms::{TermFault, Terms};
use plan_terms::{CellPlaces, cell_places};
use std::alloc::Global;
use std::marker::Model;

/// How the cells of a plan are cut, and the places of a slice of the bytes of each. All slices are computed alike, each from slices of
/// the inputs' bytes.
#[derive(Drop)]
pub(crate) struct CutPlaces {
    cuts: Vec<Cut>,
    places: CellPlaces,
}

impl Model for CutPlaces {
    ghost use Rattle.plan_agreement.specs.Evaluated.{Evaluated};

    ghost Value = { Evaluated };

    ghost view = { λ x. record { cuts = x.cuts.items; places = x.places } };
}

impl CutPlaces {
    /// How a cell is cut.
    pub(crate) fn cut(&self, c: u32) -> Cut
        ensures { result ≡ cut_at self.now.cuts c }
    {
        cut_at(self.cuts.as_slice(), c)
    }

    /// The places of a slice of a cell's bytes; none, where there is no such cell.
    pub(crate) fn cell(&self, c: u32) -> &[u32]
        ensures { result.now ≡ get_or self.now.places c [] }
    {
        self.places.cell(c)
    }
}

/// What the cells of a plan that has so many inputs are computed from, where its cells are cut so.
///
/// # Errors
///
/// `Unfit` where the plan can't be cut so, or isn't sound. `TooMany` where there are too many places. Or there was no memory.
pub(crate) fn cut_places(
    terms: &mut Terms,
    alloc: Global,
    plan: &Plan,
    cuts: Vec<Cut>,
    count: u32,
) -> Result<CutPlaces, TermFault>
    requires few { length plan.now.cells < 2 ^ 24 }
    requires together { length plan.now.cells + length plan.now.links < 2 ^ 32 - 1 }
    requires targets { (l : ℕ) → l < length plan.now.links → (link plan.now l).target < length plan.now.cells }
    requires ranks { terms.old.ranks ≡ plan.now.ranks }
    ensures keeps { Keeps terms.old terms.new }
    ensures are { IfOk result (λ v. IsEvaluated plan.now count terms.new v) }
{
    if cuts.is_empty() {
        recall_uncut(plan);
        let places = cell_places(terms, alloc, plan, count)?;
        return Ok(CutPlaces { cuts, places });
    }
    if !are_cuts(plan, &cuts) {
        return Err(TermFault::Unfit);
    }
    let slice = sliced(alloc, plan, &cuts)?;
    let places = cell_places(terms, alloc, &slice, count)?;
    Ok(CutPlaces { cuts, places })
}

/// Whether so many lists of inputs, whose cells stand after the go cells, are cut alike.
pub(crate) fn are_inputs_alike(one: &CutPlaces, other: &CutPlaces, ranks: u32, lists: u32) -> bool
    ensures { result ≡ true → CutAlike one.now other.now ranks lists }
{
    for i in 0..lists {
        let Some(cell) = ranks.checked_add(i) else {
            return false;
        };
        if !one.cut(cell).is(other.cut(cell)) {
            return false;
        }
    }
    true
}
