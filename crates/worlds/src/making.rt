//! Any step over the parts of a world.

ghost use Rattle.std.specs.Prelude.{◌≡◌, ◌≤◌, ◌*◌, ◌↔◌, IsTrue, length};
ghost use Rattle.plan_core.specs.Plan.{Plan};
ghost use Rattle.plan_core.specs.Values.{Inputs};
ghost use Rattle.worlds.specs.parts.Keeps.{IsSomeWorld, IsWorld};
ghost use Rattle.worlds.specs.parts.Steps.{IsStepped};
ghost use Rattle.worlds.specs.Allowed.{Allows};

use crate::parts::acts;
use crate::parts::traffic::Traffic;
use cuts::orders::Step;
use rank_node::Node;

/// Whether the parts allow a step.
pub fn allows(nodes: &[Node], traffic: &Traffic, step: Step) -> bool
    requires at_most { traffic.now.setting.ranks ≤ 256 }
    requires nodes { length nodes.now ≡ traffic.now.setting.ranks }
    requires lanes { length traffic.now.lanes ≡ 2 * (traffic.now.setting.ranks * traffic.now.setting.ranks) }
    ensures { IsTrue result ↔ Allows nodes.now traffic.now step }
{
    let setting = traffic.setting;
    let ranks = setting.ranks;
    match step {
        Step::Start(r) => r < ranks && !nodes[r as usize].started(),
        Step::Deliver(s, d, lane) => {
            s < ranks && d < ranks && traffic.lanes.may_deliver(setting, s, d, lane)
        }
        Step::Fire(r, number) => r < ranks && nodes[r as usize].may_fire(number),
    }
}

/// Makes a step that the parts allow.
pub fn make(nodes: &mut [Node], traffic: &mut Traffic, step: Step)
    requires world { IsSomeWorld nodes.old traffic.old }
    requires allowed { Allows nodes.old traffic.old step }
    ensures step { (p : Plan) (inputs : Inputs) → IsWorld p inputs nodes.old traffic.old →
        IsStepped p inputs step nodes.old traffic.old nodes.new traffic.new }
    ensures world { (p : Plan) (inputs : Inputs) → IsWorld p inputs nodes.old traffic.old → IsWorld p inputs nodes.new traffic.new }
{
    match step {
        Step::Start(r) => acts::start(nodes, traffic, r),
        Step::Deliver(s, d, lane) => acts::deliver(nodes, traffic, s, d, lane),
        Step::Fire(r, number) => acts::fire(nodes, traffic, r, number),
    }
}
