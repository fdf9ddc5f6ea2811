//! Nodes as the ranks of a moment of a plan: what a node may receive and fire is what the moment says.

ghost use Rattle.std.specs.Prelude.{ℕ, ◌<◌, ◌≡◌, ◌∷◌, List, Bool, IsTrue, false, filter, map, length};
ghost use Rattle.ptl_types.specs.declared.headers.Lane.{Lane};
ghost use Rattle.ptl_types.specs.Messages.{Sent};
ghost use Rattle.plan_core.specs.Plan.{Plan};
ghost use Rattle.plan_core.specs.Sound.{SoundPlan, AreInputsOf};
ghost use Rattle.plan_core.specs.Values.{Inputs};
ghost use Rattle.cuts.specs.view.Slots.{Slots};
ghost use Rattle.cuts.specs.histories.History.Local.{Receive};
ghost use Rattle.cuts.specs.histories.Moment.{IsMoment};
ghost use Rattle.cuts.specs.histories.Plans.{system_of};
ghost use Rattle.cuts.specs.histories.System.{state_at};
ghost use Rattle.rank_node.specs.of_plan.Ranks.{AreGates, HasStrayRoom, IsRank, MayReceive, mover};
ghost use Rattle.cuts.specs.orders.Chosen.{Scene, firings_at, step_made};
ghost use Rattle.cuts.specs.declared.orders.Step.{Step};
ghost use Rattle.cuts.specs.declared.orders.Step.TheVariants.{Deliver, Fire, Start};
ghost use Rattle.cuts.specs.windows.Possible.{is_possible};
ghost use Rattle.rank_node.specs.Gates.{open_numbers};
ghost use Rattle.rank_node.specs.Handles.{Agrees};
ghost use Rattle.rank_node.specs.Node.{IsNode, IsStarted, NodeState, fired_node, received_node};

/// The interface of a node is that of its rank in the moment.
pub fn nodes_are_ranks()
    ensures { (plan : Plan) (inputs : Inputs) (slots : ℕ → Slots) (scene : Scene) (r : ℕ) (node : NodeState) →
        IsRank plan inputs slots scene r node →
        node.nic ≡ state_at (system_of plan inputs slots) scene.world r }
{}

/// The first message of a lane meets the conditions under which its target's node receives it: there is room for it, if there is
/// room for one stray more where it is one.
pub fn next_message_finds_room()
    ensures { (plan : Plan) (inputs : Inputs) (slots : ℕ → Slots) (scene : Scene) (r s : ℕ) (lane : Lane)
        (m : Sent) (later : List Sent) (node : NodeState) →
        SoundPlan plan (length inputs) → AreInputsOf plan inputs → r < plan.ranks → s < plan.ranks →
        IsMoment (system_of plan inputs slots) scene.world scene.held → scene.held s r lane ≡ m ∷ later →
        IsRank plan inputs slots scene r node → HasStrayRoom node (Receive s lane m) →
        MayReceive node s lane m }
{}

/// What a node counts as ready after its open lanes are the firings of its rank that are possible under the window.
pub fn open_firings_are_possible()
    ensures { (plan : Plan) (inputs : Inputs) (slots : ℕ → Slots) (scene : Scene) (window r : ℕ) (node : NodeState)
        (closed : List Bool) →
        0 < window → IsRank plan inputs slots scene r node → AreGates scene window r closed →
        filter (is_possible (system_of plan inputs slots) window scene) (firings_at (system_of plan inputs slots) scene r) ≡
        map (Fire r) (open_numbers closed node.nic) }
{}

/// A step of a node is the step of its rank: the node after it stands for the rank of the moment after it, and the nodes of the
/// other ranks for theirs. A start is so under all slots that agree with the handles that there are after it.
pub fn each_step_of_a_node()
    ensures fired { (plan : Plan) (inputs : Inputs) (slots : ℕ → Slots) (scene : Scene) (r t : ℕ) (node : NodeState) →
        IsRank plan inputs slots scene r node → IsNode (fired_node t node) →
        IsRank plan inputs slots (step_made (system_of plan inputs slots) (Fire r t) scene) r (fired_node t node) }
    ensures received { (plan : Plan) (inputs : Inputs) (slots : ℕ → Slots) (scene : Scene) (r s : ℕ) (lane : Lane)
        (m : Sent) (later : List Sent) (node : NodeState) →
        scene.held s r lane ≡ m ∷ later → IsRank plan inputs slots scene r node →
        IsNode (received_node s lane m node) →
        IsRank plan inputs slots (step_made (system_of plan inputs slots) (Deliver s r lane) scene) r (received_node s lane m node) }
    ensures started { (plan : Plan) (inputs : Inputs) (slots : ℕ → Slots) (scene : Scene) (r : ℕ) (old new : NodeState) →
        IsRank plan inputs slots scene r old → IsStarted old new → IsNode new → Agrees (slots r) new.kept →
        IsRank plan inputs slots (step_made (system_of plan inputs slots) (Start r) scene) r new }
    ensures others { (plan : Plan) (inputs : Inputs) (slots : ℕ → Slots) (scene : Scene) (q : ℕ) (step : Step)
        (node : NodeState) →
        (q ≡ mover step → IsTrue false) → IsRank plan inputs slots scene q node →
        IsRank plan inputs slots (step_made (system_of plan inputs slots) step scene) q node }
{}
