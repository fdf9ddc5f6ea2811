//! What is compiled for a rank of a sound plan: it can be installed, and a node of it has a history of the plan's system.

ghost use Rattle.std.specs.Prelude.{ℕ, ◌+◌, ◌<◌, ◌^◌, ◌≡◌, false, length};
ghost use Rattle.plan_core.specs.Plan.{Plan};
ghost use Rattle.plan_core.specs.Sound.{SoundPlan, AreInputsOf};
ghost use Rattle.plan_core.specs.Values.{Inputs};
ghost use Rattle.cuts.specs.view.Calls.{prepare};
ghost use Rattle.cuts.specs.view.Slots.{Slots};
ghost use Rattle.cuts.specs.histories.History.{Legal};
ghost use Rattle.cuts.specs.histories.Plans.{start_of as begins, system_of};
ghost use Rattle.cuts.specs.histories.System.{Histories, state_at};
ghost use Rattle.rank_node.specs.Handles.{Agrees, slots_of};
ghost use Rattle.rank_node.specs.Node.{IsCompiled, IsNode, NodeState, Task, prepared, start_of};
ghost use Rattle.rank_node.specs.Plans.{IsCompiledFor};

/// What is compiled for a rank of a sound plan of fewer than 2^27 cells and links meets the condition of `Node::install`; the
/// interface that this makes is the plan's prepared interface of that rank, and its start is the plan's.
pub fn compiled_plans()
    ensures can { (plan : Plan) (inputs : Inputs) (r : ℕ) (task : Task) →
        SoundPlan plan (length inputs) → length plan.cells + length plan.links < 2 ^ 27 →
        AreInputsOf plan inputs → r < plan.ranks →
        IsCompiledFor plan inputs r task → IsCompiled task }
    ensures prepares { (plan : Plan) (inputs : Inputs) (r : ℕ) (task : Task) (slots : Slots) →
        IsCompiledFor plan inputs r task → prepared task slots ≡ prepare plan inputs slots r }
    ensures starts { (plan : Plan) (inputs : Inputs) (r : ℕ) (task : Task) (slots : Slots) →
        IsCompiledFor plan inputs r task → start_of task slots ≡ begins plan slots r }
{}

/// A node of a rank of a plan: its interface is that of the plan's system at the end of its history, under any slots that are those
/// that its interface gave, and the history is legal. There are such slots.
pub fn node_runs()
    ensures state { (plan : Plan) (inputs : Inputs) (slots : ℕ → Slots) (world : Histories) (r : ℕ)
        (node : NodeState) →
        IsCompiledFor plan inputs r node.task → IsNode node → Agrees (slots r) node.kept →
        world r ≡ node.diary.locals →
        node.nic ≡ state_at (system_of plan inputs slots) world r }
    ensures legal { (plan : Plan) (inputs : Inputs) (slots : Slots) (r : ℕ) (node : NodeState) →
        IsCompiledFor plan inputs r node.task → IsNode node → Agrees slots node.kept →
        Legal (begins plan slots r) false (prepare plan inputs slots r) node.diary.locals }
    ensures slots { (node : NodeState) → IsNode node → Agrees (slots_of node.kept) node.kept }
{}
