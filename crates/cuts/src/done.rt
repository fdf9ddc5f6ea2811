//! What a rank's done counter tells: where it has reached its threshold in a cut of a plan's ranks, the rank's cells hold their final
//! bytes and nothing of the job comes to it any more; and where completion is remote, nothing of the job is left there.

ghost use Rattle.std.specs.Prelude.{ℕ, true, Some, [], ◌<◌, ◌≤◌, ◌≡◌, length};
ghost use Rattle.ni_model.specs.Counts.{successes};
ghost use Rattle.ni_model.specs.Tables.{lookup};
ghost use Rattle.plan_core.specs.Plan.{Plan};
ghost use Rattle.plan_core.specs.Sound.{SoundPlan, AreInputsOf};
ghost use Rattle.plan_core.specs.Values.{Inputs};
ghost use Rattle.plan_core.specs.calls.RankOps.{done_threshold};
ghost use Rattle.cuts.specs.view.Slots.{Slots, done_ct};
ghost use Rattle.cuts.specs.histories.Cut.{IsCut};
ghost use Rattle.cuts.specs.histories.Plans.{system_of};
ghost use Rattle.cuts.specs.histories.System.{Histories, state_at};
ghost use Rattle.cuts.specs.done.Done.{GoesOn, HasGotAll, HoldsValues, IsDone, IsLeftAlone, OnlySendsAreLeft};

/// In every cut, whatever the order of arrivals: a rank's done counter has counted no failure and no more than its threshold. Where it
/// has reached that, each cell of the rank holds its final bytes; nothing of the job is on its way to the rank or is sent to it
/// later; the operations that it has left are sends, and ready; and so it stays.
pub fn done_ranks()
    ensures counts { (plan : Plan) (inputs : Inputs) (slots : ℕ → Slots) (world : Histories) →
        SoundPlan plan (length inputs) → AreInputsOf plan inputs →
        IsCut (system_of plan inputs slots) world → (r : ℕ) → r < plan.ranks →
        ((n : ℕ) × (n ≤ done_threshold plan r) ×
        (lookup (done_ct (slots r)) (state_at (system_of plan inputs slots) world r).cts.live ≡ Some (successes n))) }
    ensures values { (plan : Plan) (inputs : Inputs) (slots : ℕ → Slots) (world : Histories) →
        SoundPlan plan (length inputs) → AreInputsOf plan inputs →
        IsCut (system_of plan inputs slots) world → (r : ℕ) → r < plan.ranks → IsDone plan inputs slots world r →
        HoldsValues plan inputs slots world r }
    ensures nothing_comes { (plan : Plan) (inputs : Inputs) (slots : ℕ → Slots) (world : Histories) →
        SoundPlan plan (length inputs) → AreInputsOf plan inputs →
        IsCut (system_of plan inputs slots) world → (r : ℕ) → r < plan.ranks → IsDone plan inputs slots world r →
        HasGotAll (system_of plan inputs slots) world r }
    ensures left { (plan : Plan) (inputs : Inputs) (slots : ℕ → Slots) (world : Histories) →
        SoundPlan plan (length inputs) → AreInputsOf plan inputs →
        IsCut (system_of plan inputs slots) world → (r : ℕ) → r < plan.ranks → IsDone plan inputs slots world r →
        OnlySendsAreLeft (state_at (system_of plan inputs slots) world r) }
    ensures stays { (plan : Plan) (inputs : Inputs) (slots : ℕ → Slots) (world later : Histories) →
        SoundPlan plan (length inputs) → AreInputsOf plan inputs →
        IsCut (system_of plan inputs slots) world → IsCut (system_of plan inputs slots) later →
        GoesOn (system_of plan inputs slots) world later →
        (r : ℕ) → r < plan.ranks → IsDone plan inputs slots world r → IsDone plan inputs slots later r }
{}

/// A rank that is done has no operation left where completion is remote. Where it has none, completion remote or not, all that it
/// does from then on is to drop strays: nothing reads its memory or writes it any more.
pub fn released_ranks()
    ensures none_pending { (plan : Plan) (inputs : Inputs) (slots : ℕ → Slots) (world : Histories) →
        SoundPlan plan (length inputs) → AreInputsOf plan inputs →
        IsCut (system_of plan inputs slots) world → (r : ℕ) → r < plan.ranks → plan.remote ≡ true → IsDone plan inputs slots world r →
        (state_at (system_of plan inputs slots) world r).pending.waiting ≡ [] }
    ensures left_alone { (plan : Plan) (inputs : Inputs) (slots : ℕ → Slots) (world later : Histories) →
        SoundPlan plan (length inputs) → AreInputsOf plan inputs →
        IsCut (system_of plan inputs slots) world → IsCut (system_of plan inputs slots) later →
        GoesOn (system_of plan inputs slots) world later →
        (r : ℕ) → r < plan.ranks → IsDone plan inputs slots world r →
        (state_at (system_of plan inputs slots) world r).pending.waiting ≡ [] →
        IsLeftAlone (system_of plan inputs slots) world r later }
{}
