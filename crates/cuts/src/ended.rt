//! What holds where ranks that know nothing of each other have ended, each by what it sees of itself alone.

ghost use Rattle.std.specs.Prelude.{ℕ, ◌<◌, length};
ghost use Rattle.plan_core.specs.Plan.{Plan};
ghost use Rattle.plan_core.specs.Sound.{SoundPlan, AreInputsOf};
ghost use Rattle.plan_core.specs.Values.{Inputs};
ghost use Rattle.cuts.specs.view.Slots.{Slots};
ghost use Rattle.cuts.specs.histories.Cut.{IsAtRest, IsCut};
ghost use Rattle.cuts.specs.histories.Plans.{system_of};
ghost use Rattle.cuts.specs.histories.System.{Histories};
ghost use Rattle.cuts.specs.ended.Ended.{HasEnded};

/// A cut each of whose ranks has ended is at rest: where each rank has started, has no operation that is ready, and has got as many
/// messages on each lane as the plan says of it, nothing is on its way from any rank to any other. So ranks need no agreement on when
/// to end.
pub fn ended_ranks_are_at_rest()
    ensures { (plan : Plan) (inputs : Inputs) (slots : ℕ → Slots) (world : Histories) →
        SoundPlan plan (length inputs) → AreInputsOf plan inputs →
        IsCut (system_of plan inputs slots) world →
        ((r : ℕ) → r < plan.ranks → HasEnded plan inputs slots world r) →
        IsAtRest (system_of plan inputs slots) world }
{}
