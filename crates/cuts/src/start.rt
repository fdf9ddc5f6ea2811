//! The interface of a rank of a plan before its start and at it: what its preparation leaves, in closed form; that none of the calls
//! that prepare it is refused; messages that come before the start, which lie in areas; and the start, which brings them into the
//! cells and appends the cells' entries.

ghost use Rattle.std.specs.Prelude.{ℕ, [], ◌≡◌, length, get_or};
ghost use Rattle.ptl_types.specs.declared.entries.List.TheVariants.{Priority};
ghost use Rattle.ni_model.specs.State.{State};
ghost use Rattle.plan_core.specs.Plan.{Plan, own};
ghost use Rattle.plan_core.specs.Sound.{SoundPlan, AreInputsOf};
ghost use Rattle.plan_core.specs.Values.{Inputs};
ghost use Rattle.plan_core.specs.calls.Areas.{initial_region};
ghost use Rattle.plan_core.specs.calls.Calls.{append_call, own_cell, prepare_calls};
ghost use Rattle.cuts.specs.machine.Seen.{nothing_seen};
ghost use Rattle.cuts.specs.view.Slots.{Slots, counter_at};
ghost use Rattle.cuts.specs.view.Calls.{AllPass, call_made, fresh, prepare, with_entry};
ghost use Rattle.cuts.specs.start.Start.{entry_of};
ghost use Rattle.cuts.specs.start.Waiting.{waiting_view};

/// The calls of a preparation give the closed form to which nothing came.
pub fn preparation()
    ensures { (plan : Plan) (inputs : Inputs) (slots : Slots) (r : ℕ) (senders : ℕ → Slots) →
        SoundPlan plan (length inputs) →
        prepare plan inputs slots r ≡ waiting_view plan inputs slots r senders [] nothing_seen }
{}

/// Each of the calls that prepare a rank of a sound plan may be made where it stands, and none is refused.
pub fn preparation_passes()
    ensures { (plan : Plan) (inputs : Inputs) (slots : Slots) (r : ℕ) →
        SoundPlan plan (length inputs) → AreInputsOf plan inputs →
        AllPass slots (own plan r) (prepare_calls plan r) (fresh plan inputs r) }
{}

/// The calls of a start, as values, are the appends that it makes: each appends to the priority list the entry of its cell.
pub fn start_calls()
    ensures { (plan : Plan) (slots : Slots) (r c : ℕ) (state : State) →
        call_made slots (own plan r) (append_call plan r c) state ≡
        with_entry (slots.me state.entries_given) Priority (entry_of (counter_at slots (own plan r) c) (own_cell plan r c)) state }
{}

/// The region that a rank is prepared with depends on that rank's inputs alone.
pub fn region_of_own_inputs()
    ensures { (plan : Plan) (inputs others : Inputs) (r : ℕ) →
        SoundPlan plan (length inputs) → length others ≡ length inputs →
        ((b : ℕ) → get_or (get_or others b []) r [] ≡ get_or (get_or inputs b []) r []) →
        initial_region plan others r ≡ initial_region plan inputs r }
{}
