//! The machine of a plan: the steps of its ranks as cells and links alone, without messages, handles or match bits, and what
//! holds of every cut of it and of every cut at rest.

ghost use Rattle.std.specs.Prelude.{ℕ, List, ◌<◌, ◌≡◌, true, length};
ghost use Rattle.plan_core.specs.Members.{In};
ghost use Rattle.plan_core.specs.Plan.{Plan, cell};
ghost use Rattle.plan_core.specs.Values.{Inputs, value, initial};
ghost use Rattle.plan_core.specs.Sound.{SoundPlan, AreInputsOf};
ghost use Rattle.plan_core.specs.calls.RankOps.{RankOp, rank_ops};
ghost use Rattle.cuts.specs.machine.Seen.{content, was_fired};
ghost use Rattle.cuts.specs.machine.Machine.{Move, IsMachineCut, IsMachineRest, HasReached, Leads, all_seen};
ghost use Rattle.cuts.specs.machine.Rounds.{IsRounds};

/// In every cut of a sound plan's machine, whatever came in whatever order: a cell that has reached its needs holds its value,
/// and each cell from which links lead to it has reached its needs too.
pub fn reached_cells()
    ensures value { (plan : Plan) (inputs : Inputs) (moves : ℕ → List Move) →
        SoundPlan plan (length inputs) → AreInputsOf plan inputs →
        IsMachineCut plan inputs moves → (c : ℕ) → c < length plan.cells →
        HasReached plan moves c →
        content plan (all_seen plan moves (cell plan c).rank).came c (initial plan inputs c) ≡
        value plan inputs c }
    ensures ancestors { (plan : Plan) (inputs : Inputs) (moves : ℕ → List Move) →
        SoundPlan plan (length inputs) → IsMachineCut plan inputs moves → (b c : ℕ) →
        c < length plan.cells → Leads plan b c → HasReached plan moves c →
        HasReached plan moves b }
{}

/// At rest every cell has reached its needs, and every operation was fired.
pub fn rest_is_completion()
    ensures reached { (plan : Plan) (inputs : Inputs) (moves : ℕ → List Move) →
        SoundPlan plan (length inputs) → IsMachineRest plan inputs moves → (c : ℕ) →
        c < length plan.cells → HasReached plan moves c }
    ensures fired { (plan : Plan) (inputs : Inputs) (moves : ℕ → List Move) →
        SoundPlan plan (length inputs) → IsMachineRest plan inputs moves → (r : ℕ) →
        r < plan.ranks → (w : RankOp) → In w (rank_ops plan r) →
        was_fired (all_seen plan moves r).fired w ≡ true }
{}

/// In the rounds of a dissemination barrier links lead from the entry of every rank to the exit of every rank.
pub fn rounds_reach_all()
    ensures { (plan : Plan) (n rounds : ℕ) (round : ℕ → ℕ → ℕ) → IsRounds plan n rounds round →
        (a r : ℕ) → a < n → r < n →
        Leads plan (round 0 a) (round rounds r) }
{}
