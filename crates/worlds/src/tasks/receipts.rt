//! How much comes to a rank in a whole run of the plan.

ghost use Rattle.std.specs.Prelude.{◌≡◌, ◌<◌, ◌+◌, if◌then◌else◌, length, sum_by};
ghost use Rattle.plan_core.specs.Plan.{link};
ghost use Rattle.plan_core.specs.calls.Areas.{links_to};
ghost use Rattle.plan_core.specs.calls.RankOps.{sends_of};
ghost use Rattle.plan_tables.specs.Installed.{installed};

use ptl_types::Rank;
use schedule_compiler::{RankTable, Schedule};

/// How many messages come to a rank: its interface has room for the header of each request, and its done counter counts each
/// answer beside the own cells.
pub(crate) fn receipts_of(schedule: &Schedule, r: Rank, table: &RankTable) -> u64
    requires rank { r < schedule.now.plan.ranks }
    requires table { table.now ≡ installed schedule.now.plan r }
    ensures { result ≡ length (links_to schedule.now.plan r) +
        (if schedule.now.plan.remote then sends_of schedule.now.plan r else 0) }
{
    let _ = schedule.plan();
    let _ = r;
    let requests = u64::from(table.limits().unexpected);
    let answers = table.done() - table.cells().len() as u64;
    requests + answers
}

/// How many bytes these messages have together. Answers carry none.
pub fn bytes_to(schedule: &Schedule, r: Rank) -> u64
    requires { r < schedule.now.plan.ranks }
    ensures { result ≡ sum_by (λ l. (link schedule.now.plan l).length) (links_to schedule.now.plan r) }
{
    let mut bytes = 0;
    for source in 0..schedule.plan().ranks() {
        bytes += schedule.lane_bytes(source, r);
    }
    bytes
}
