//! Worlds over plans: which of the enabled steps of a moment are possible under a window, in their fixed order, and the laws of
//! these.

ghost use Rattle.std.specs.Prelude.{ℕ, ◌<◌, ◌≤◌, ◌≡◌, ◌+◌, ◌*◌, [], length, count_by, sum, take, slice_index_or};
ghost use Rattle.ptl_types.specs.declared.headers.Lane.{Lane};
ghost use Rattle.plan_core.specs.Members.{In};
ghost use Rattle.plan_core.specs.Plan.{Plan};
ghost use Rattle.plan_core.specs.Sound.{SoundPlan, AreInputsOf};
ghost use Rattle.plan_core.specs.Values.{Inputs};
ghost use Rattle.cuts.specs.view.Slots.{Slots};
ghost use Rattle.plan_core.specs.calls.Lanes.{lane_messages};
ghost use Rattle.cuts.specs.histories.Cut.{IsAtRest, IsPrefixOf, is_received_stray, owned};
ghost use Rattle.cuts.specs.histories.History.{Local};
ghost use Rattle.cuts.specs.histories.Moment.{IsEnabled, IsLocalStep, IsMoment, IsPossible};
ghost use Rattle.cuts.specs.histories.Plans.{IsComplete, system_of};
ghost use Rattle.cuts.specs.histories.System.{System};
ghost use Rattle.cuts.specs.orders.Chosen.{Scene, enabled_steps, start_at, step_made};
ghost use Rattle.cuts.specs.declared.orders.Step.{Step};
ghost use Rattle.cuts.specs.declared.orders.Step.TheVariants.{Deliver, Start};
ghost use Rattle.cuts.specs.windows.Left.{steps_left};
ghost use Rattle.cuts.specs.windows.Named.{named};
ghost use Rattle.cuts.specs.windows.Places.{counts, delivery_at, fires_at, destination_at, kind_at, source_at, steps_by_place};
ghost use Rattle.cuts.specs.windows.Possible.{possible_steps};

/// The steps that are listed are those that a rank may make under the window: a local step that is enabled and possible has its
/// name in the list.
pub fn all_are_listed()
    ensures enabled { (ranks : System) (scene : Scene) (r : ℕ) (e : Local) → r < ranks.count →
        IsEnabled ranks scene.world scene.held r e → In (named r e) (enabled_steps ranks scene) }
    ensures possible { (ranks : System) (window : ℕ) (scene : Scene) (r : ℕ) (e : Local) → r < ranks.count →
        IsEnabled ranks scene.world scene.held r e → IsPossible ranks scene.world scene.held window r e →
        In (named r e) (possible_steps ranks window scene) }
{}

/// A possible step is a step of its rank, and leaves a moment of a sound plan.
pub fn each_possible_step()
    ensures made { (ranks : System) (window : ℕ) (scene : Scene) (step : Step) →
        In step (possible_steps ranks window scene) →
        IsLocalStep ranks scene.world scene.held (step_made ranks step scene).world (step_made ranks step scene).held }
    ensures keeps { (plan : Plan) (inputs : Inputs) (slots : ℕ → Slots) (window : ℕ) (scene : Scene) (step : Step) →
        SoundPlan plan (length inputs) → AreInputsOf plan inputs →
        IsMoment (system_of plan inputs slots) scene.world scene.held →
        In step (possible_steps (system_of plan inputs slots) window scene) →
        IsMoment (system_of plan inputs slots) (step_made (system_of plan inputs slots) step scene).world
        (step_made (system_of plan inputs slots) step scene).held }
{}

/// Where no step is possible a moment of a sound plan is at rest and complete at each rank, strays or none.
pub fn none_possible_is_rest()
    ensures rest { (plan : Plan) (inputs : Inputs) (slots : ℕ → Slots) (window : ℕ) (scene : Scene) →
        SoundPlan plan (length inputs) → 0 < window →
        IsMoment (system_of plan inputs slots) scene.world scene.held →
        possible_steps (system_of plan inputs slots) window scene ≡ [] →
        IsAtRest (system_of plan inputs slots) scene.world }
    ensures complete { (plan : Plan) (inputs : Inputs) (slots : ℕ → Slots) (window : ℕ) (scene : Scene) →
        SoundPlan plan (length inputs) → AreInputsOf plan inputs → 0 < window →
        IsMoment (system_of plan inputs slots) scene.world scene.held →
        possible_steps (system_of plan inputs slots) window scene ≡ [] →
        (r : ℕ) → r < plan.ranks → IsComplete plan inputs slots scene.world r }
{}

/// Under a window that no lane fills each enabled step is possible.
pub fn wide_windows()
    ensures { (ranks : System) (window : ℕ) (scene : Scene) →
        ((s d : ℕ) (lane : Lane) → length (scene.held s d lane) < window) →
        possible_steps ranks window scene ≡ enabled_steps ranks scene }
{}

/// At a moment a lane holds, without strays, at most the plan's messages on it.
pub fn lanes_have_room()
    ensures { (plan : Plan) (inputs : Inputs) (slots : ℕ → Slots) (scene : Scene) (s d : ℕ) (lane : Lane) →
        SoundPlan plan (length inputs) → AreInputsOf plan inputs →
        IsMoment (system_of plan inputs slots) scene.world scene.held → s < plan.ranks → d < plan.ranks →
        length (owned (scene.held s d lane)) ≤ lane_messages plan s d lane }
{}

/// After a step each history begins with what it was.
pub fn histories_go_on()
    ensures { (ranks : System) (scene : Scene) (step : Step) (r : ℕ) →
        IsPrefixOf (scene.world r) ((step_made ranks step scene).world r) }
{}

/// Each step leaves one fewer that can be made, as long as no rank receives more than so many strays: so a run ends.
pub fn runs_end()
    ensures { (plan : Plan) (inputs : Inputs) (slots : ℕ → Slots) (strays window : ℕ) (scene : Scene) (step : Step) →
        SoundPlan plan (length inputs) → AreInputsOf plan inputs →
        IsMoment (system_of plan inputs slots) scene.world scene.held →
        In step (possible_steps (system_of plan inputs slots) window scene) →
        ((r : ℕ) → r < plan.ranks →
        count_by is_received_stray ((step_made (system_of plan inputs slots) step scene).world r) ≤ strays) →
        steps_left plan strays (step_made (system_of plan inputs slots) step scene) + 1 ≡ steps_left plan strays scene }
{}

/// The possible steps stand by their places: starts by rank, deliveries by the places of lanes, firings by rank.
pub fn steps_stand_by_place()
    ensures { (ranks : System) (window : ℕ) (scene : Scene) →
        possible_steps ranks window scene ≡ steps_by_place ranks window scene }
{}

/// The possible step of a number is found by the counts of the places: how many there are, and which one it is.
pub fn steps_are_found()
    ensures number { (ranks : System) (window : ℕ) (scene : Scene) →
        length (possible_steps ranks window scene) ≡
        sum (counts (start_at scene) ranks.count) +
        (sum (counts (delivery_at ranks window scene) (2 * (ranks.count * ranks.count))) +
        sum (counts (fires_at ranks window scene) ranks.count)) }
    ensures start { (ranks : System) (window : ℕ) (scene : Scene) (place rest i : ℕ) (other : Step) →
        place < ranks.count →
        sum (take place (counts (start_at scene) ranks.count)) + rest ≡ i →
        rest < slice_index_or (counts (start_at scene) ranks.count) place 0 →
        i < sum (counts (start_at scene) ranks.count) →
        slice_index_or (possible_steps ranks window scene) i other ≡ Start place }
    ensures delivery { (ranks : System) (window : ℕ) (scene : Scene) (place rest i : ℕ) (other : Step) →
        place < 2 * (ranks.count * ranks.count) →
        sum (take place (counts (delivery_at ranks window scene) (2 * (ranks.count * ranks.count)))) + rest ≡ i →
        rest < slice_index_or (counts (delivery_at ranks window scene) (2 * (ranks.count * ranks.count))) place 0 →
        i < sum (counts (delivery_at ranks window scene) (2 * (ranks.count * ranks.count))) →
        slice_index_or (possible_steps ranks window scene) (sum (counts (start_at scene) ranks.count) + i) other ≡
        Deliver (source_at ranks.count place) (destination_at ranks.count place) (kind_at place) }
    ensures firing { (ranks : System) (window : ℕ) (scene : Scene) (place rest i : ℕ) (other : Step) →
        place < ranks.count →
        sum (take place (counts (fires_at ranks window scene) ranks.count)) + rest ≡ i →
        rest < slice_index_or (counts (fires_at ranks window scene) ranks.count) place 0 →
        slice_index_or (possible_steps ranks window scene)
        (sum (counts (start_at scene) ranks.count) +
        (sum (counts (delivery_at ranks window scene) (2 * (ranks.count * ranks.count))) + i)) other ≡
        slice_index_or (fires_at ranks window scene place) rest other }
{}
