//! Local histories of ranks, systems of ranks, consistent cuts, rest, completion, interleavings and waves of probes, as definitions
//! in `specs/`; and what holds of one history, whatever it receives. In `proofs/` stands the simulation: the histories of a plan's
//! ranks in a cut are histories of the plan's machine. The laws of cuts stand in the crate above.

ghost use Rattle.std.specs.Prelude.{ℕ, Bool, false, suc, ◌+◌, ◌≤◌, ◌≡◌, count_by, IsTrue, List, [], ◌∷◌, ◌++◌, length};
ghost use Rattle.ptl_types.specs.declared.headers.Lane.{Lane};
ghost use Rattle.ptl_types.specs.declared.headers.Lane.TheVariants.{Answer, Request};
ghost use Rattle.ptl_types.specs.Messages.{Sent};
ghost use Rattle.ni_model.specs.Ready.{is_ready};
ghost use Rattle.ni_model.specs.State.{State};
ghost use Rattle.plan_core.specs.Members.{In};
ghost use Rattle.plan_core.specs.Plan.{Plan};
ghost use Rattle.plan_core.specs.Sound.{SoundPlan};
ghost use Rattle.plan_core.specs.Values.{Inputs};
ghost use Rattle.plan_core.specs.calls.Lanes.{lane_bytes, lane_messages};
ghost use Rattle.plan_core.specs.calls.RankOps.{rank_ops};
ghost use Rattle.cuts.specs.view.Slots.{Slots};
ghost use Rattle.cuts.specs.view.Calls.{prepare};
ghost use Rattle.cuts.specs.histories.Cut.{is_stray};
ghost use Rattle.cuts.specs.histories.History.{Beginning, Local, Legal, got, is_fire, sent, state};
ghost use Rattle.cuts.specs.histories.History.Local.{Fire};
ghost use Rattle.cuts.specs.histories.Lanes.{bytes_in, is_receipt};
ghost use Rattle.cuts.specs.histories.Plans.{start_of};

/// In a legal history, from any state, each number is fired at most once, and its counter had reached its threshold before.
pub fn firings()
    ensures once { (t : ℕ) (go : Beginning) (begun : Bool) (from : State) (history : List Local) →
        Legal go begun from history → count_by (is_fire t) history ≤ 1 }
    ensures ready { (t : ℕ) (go : Beginning) (begun : Bool) (from : State)
        (front later : List Local) →
        Legal go begun from (front ++ Fire t ∷ later) → IsTrue (is_ready (state go from front) t) }
{}

/// In a legal history of a rank of a sound plan, whatever it receives: a lane of requests carries at most the plan's messages on
/// it, with at most their bytes, so none where the plan has no link along it; a lane of answers carries at most one for each
/// request that came along it, and no bytes; and nothing that is sent is a stray.
pub fn lanes_of_one_history()
    ensures messages { (plan : Plan) (inputs : Inputs) (slots : Slots) (r d : ℕ) (history : List Local) →
        SoundPlan plan (length inputs) →
        Legal (start_of plan slots r) false (prepare plan inputs slots r) history →
        length (sent (start_of plan slots r) (prepare plan inputs slots r) history d Request) ≤
        lane_messages plan r d Request }
    ensures bytes { (plan : Plan) (inputs : Inputs) (slots : Slots) (r d : ℕ) (history : List Local) →
        SoundPlan plan (length inputs) →
        Legal (start_of plan slots r) false (prepare plan inputs slots r) history →
        bytes_in (sent (start_of plan slots r) (prepare plan inputs slots r) history d Request) ≤
        lane_bytes plan r d }
    ensures unused { (plan : Plan) (inputs : Inputs) (slots : Slots) (r d : ℕ) (history : List Local) →
        SoundPlan plan (length inputs) →
        Legal (start_of plan slots r) false (prepare plan inputs slots r) history →
        lane_messages plan r d Request ≡ 0 →
        sent (start_of plan slots r) (prepare plan inputs slots r) history d Request ≡ [] }
    ensures answers { (plan : Plan) (inputs : Inputs) (slots : Slots) (r d : ℕ) (history : List Local) →
        SoundPlan plan (length inputs) →
        Legal (start_of plan slots r) false (prepare plan inputs slots r) history →
        length (sent (start_of plan slots r) (prepare plan inputs slots r) history d Answer) ≤
        length (got history d Request) }
    ensures no_bytes { (plan : Plan) (inputs : Inputs) (slots : Slots) (r d : ℕ) (history : List Local) (m : Sent) →
        SoundPlan plan (length inputs) →
        In m (sent (start_of plan slots r) (prepare plan inputs slots r) history d Answer) →
        m.bytes ≡ [] }
    ensures clean { (plan : Plan) (inputs : Inputs) (slots : Slots) (r d : ℕ) (history : List Local) (lane : Lane) (m : Sent) →
        SoundPlan plan (length inputs) →
        In m (sent (start_of plan slots r) (prepare plan inputs slots r) history d lane) →
        is_stray m ≡ false }
{}

/// A legal history of a rank of a sound plan has at most one start, as many firings as the rank has operations, and its receipts.
pub fn steps_of_one_history()
    ensures { (plan : Plan) (inputs : Inputs) (slots : Slots) (r : ℕ) (history : List Local) →
        SoundPlan plan (length inputs) →
        Legal (start_of plan slots r) false (prepare plan inputs slots r) history →
        length history ≤ suc (length (rank_ops plan r)) + count_by is_receipt history }
{}
