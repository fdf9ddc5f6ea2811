//! Orders: for each rank a list of local steps, without messages; what can be taken of them, and the verdict.

ghost use Rattle.std.specs.Prelude.{ℕ, ◌<◌, ◌≡◌, ◌↔◌, List, [], length, map};
ghost use Rattle.ni_model.specs.Ready.{ready_numbers};
ghost use Rattle.plan_core.specs.Members.{Distinct, In};
ghost use Rattle.cuts.specs.orders.Rising.{Rises};
ghost use Rattle.cuts.specs.histories.Moment.{IsLocalStep, IsStill};
ghost use Rattle.cuts.specs.orders.Chosen.{IsChosen, Scene, chosen, enabled_steps, step_made};
ghost use Rattle.cuts.specs.declared.orders.Step.{Step};
ghost use Rattle.plan_core.specs.Plan.{Plan};
ghost use Rattle.plan_core.specs.Sound.{SoundPlan, AreInputsOf};
ghost use Rattle.plan_core.specs.Values.{Inputs};
ghost use Rattle.cuts.specs.view.Slots.{Slots};
ghost use Rattle.cuts.specs.histories.Cut.{IsCut, IsAtRest};
ghost use Rattle.cuts.specs.histories.Plans.{system_of};
ghost use Rattle.cuts.specs.histories.System.{Histories, System, state_at};
ghost use Rattle.cuts.specs.orders.Reached.{EndsSo, IsReached};
ghost use Rattle.cuts.specs.orders.Taking.{Lists, Move, IsInterleaving, IsTaken, histories, listed};
ghost use Rattle.cuts.specs.orders.Verdict.{IsVerdict, IsWhole, Rests};
ghost use Rattle.cuts.specs.declared.orders.Verdict.{Verdict};
ghost use Rattle.cuts.specs.declared.orders.Verdict.TheVariants.{Holds};

use ptl_types::{Cause, Lane, Rank};

/// A step of an interleaving, as a choice names it.
#[derive(Clone, Copy, Debug, PartialEq, Eq)]
pub enum Step {
    /// The host of this rank starts it.
    Start(Rank),
    /// The first message from one rank to another on a lane is received.
    Deliver(Rank, Rank, Lane),
    /// The operation of this number is fired at this rank.
    Fire(Rank, u32),
}

/// What is said of given orders.
#[derive(Clone, Copy, Debug, PartialEq, Eq)]
pub enum Verdict {
    /// They are the local steps of one interleaving that ends at rest.
    Holds,
    /// The lowest rank that fails, the place in its list, counted from 1, and why.
    Fails {
        rank: Rank,
        place: u64,
        cause: Cause,
    },
}

/// What is taken of given lists doesn't depend on the order of taking: the same steps, with the same messages. So there is at
/// most one verdict.
pub fn orders_are_of_no_matter()
    ensures taken { (ranks : System) (lists : Lists) (one other : List Move) →
        IsTaken ranks lists one → IsTaken ranks lists other → (r : ℕ) → histories one r ≡ histories other r }
    ensures verdict { (ranks : System) (lists : Lists) (one other : Verdict) →
        IsVerdict ranks lists one → IsVerdict ranks lists other → one ≡ other }
{}

/// Taking ends: something is taken of any lists, as far as it goes.
pub fn taking_ends()
    ensures { (ranks : System) (lists : Lists) → (moves : List Move) × IsTaken ranks lists moves }
{}

/// The verdict is `Holds` exactly where the lists are the local steps of one interleaving that ends at rest: over any ranks, and
/// by steps from moment to moment.
pub fn holds_exactly()
    ensures moves { (ranks : System) (lists : Lists) →
        (IsVerdict ranks lists Holds ↔ ((moves : List Move) × IsInterleaving ranks moves
        × ((r : ℕ) → r < ranks.count → IsWhole lists (histories moves) r × Rests ranks (histories moves) r))) }
    ensures steps { (ranks : System) (lists : Lists) →
        (IsVerdict ranks lists Holds ↔ EndsSo ranks lists) }
{}

/// Orders of a sound plan that hold are those of a cut at rest, so of a complete one.
pub fn what_holds_is_at_rest()
    ensures { (plan : Plan) (inputs : Inputs) (slots : ℕ → Slots) (lists : Lists) →
        SoundPlan plan (length inputs) → AreInputsOf plan inputs →
        IsVerdict (system_of plan inputs slots) lists Holds →
        ((world : Histories) × IsCut (system_of plan inputs slots) world ×
        IsAtRest (system_of plan inputs slots) world ×
        ((r : ℕ) → r < plan.ranks → map listed (world r) ≡ lists r)) }
{}

/// The slots that the tables of a sound plan's interfaces gave out are of no matter: what is said of lists under some slots is said
/// of them under any others.
pub fn slots_are_of_no_matter()
    ensures { (plan : Plan) (inputs : Inputs) (slots others : ℕ → Slots) (lists : Lists) (verdict : Verdict) →
        SoundPlan plan (length inputs) → AreInputsOf plan inputs →
        IsVerdict (system_of plan inputs slots) lists verdict →
        IsVerdict (system_of plan inputs others) lists verdict }
{}

/// The enabled steps of a moment are each a step that a rank may make, and where none is listed all is still. So a chosen run is
/// made of steps, and the lists of one of which no step is left hold.
pub fn chosen_runs()
    ensures listed { (ranks : System) (scene : Scene) (step : Step) →
        In step (enabled_steps ranks scene) →
        IsLocalStep ranks scene.world scene.held (step_made ranks step scene).world (step_made ranks step scene).held }
    ensures none { (ranks : System) (scene : Scene) → enabled_steps ranks scene ≡ [] →
        IsStill ranks scene.world scene.held }
    ensures reached { (ranks : System) (words : ℕ → ℕ) (n : ℕ) →
        IsReached ranks (chosen ranks words n).world (chosen ranks words n).held }
    ensures holds { (ranks : System) (words : ℕ → ℕ) (world : Histories) →
        IsChosen ranks words world → IsVerdict ranks (λ r. map listed (world r)) Holds }
{}

/// In a cut of a sound plan's ranks the numbers of ready operations rise in the order in which they wait, and so no enabled step is
/// listed twice; and the run that words choose ends.
pub fn chosen_runs_of_plans()
    ensures rise { (plan : Plan) (inputs : Inputs) (slots : ℕ → Slots) (world : Histories) →
        SoundPlan plan (length inputs) → AreInputsOf plan inputs →
        IsCut (system_of plan inputs slots) world → (r : ℕ) → r < plan.ranks →
        Rises (ready_numbers (state_at (system_of plan inputs slots) world r)) }
    ensures once { (plan : Plan) (inputs : Inputs) (slots : ℕ → Slots) (scene : Scene) →
        SoundPlan plan (length inputs) → AreInputsOf plan inputs →
        IsCut (system_of plan inputs slots) scene.world →
        Distinct (enabled_steps (system_of plan inputs slots) scene) }
    ensures ends { (plan : Plan) (inputs : Inputs) (slots : ℕ → Slots) (words : ℕ → ℕ) →
        SoundPlan plan (length inputs) → AreInputsOf plan inputs →
        ((world : Histories) × IsChosen (system_of plan inputs slots) words world) }
{}

/// Words choose one run of a sound plan, whatever slots the tables of its interfaces gave out: the local steps of each rank are the
/// same.
pub fn one_run_is_chosen()
    ensures { (plan : Plan) (inputs : Inputs) (slots others : ℕ → Slots) (words : ℕ → ℕ) (one other : Histories) →
        SoundPlan plan (length inputs) → AreInputsOf plan inputs →
        IsChosen (system_of plan inputs slots) words one → IsChosen (system_of plan inputs others) words other →
        (r : ℕ) → r < plan.ranks → map listed (one r) ≡ map listed (other r) }
{}
