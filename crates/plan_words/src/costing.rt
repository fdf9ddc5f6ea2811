//! The lines of what a plan takes in time.

ghost use Rattle.std.specs.Prelude.{◌≡◌, ◌<◌, ◌≤◌, ◌^◌, [], length};
ghost use Rattle.plan_core.specs.Plan.{Plan, link};
ghost use Rattle.plan_costs.specs.declared.numbers.LogGp.{LogGp};
ghost use Rattle.plan_costs.specs.Path.{IsCosted};
ghost use Rattle.run_text.specs.Putting.{EndsWith, Puts};
ghost use Rattle.plan_words.specs.Costs.{CostOf, IsCostOf, begin_line, begin_of, cell_time_line, cell_time_lines, cost_text, costs_of};
ghost use Rattle.plan_words.specs.Costs.{hop_line, path_lines, rank_time_line, rank_time_lines, sum_line, total_line};

use plan_core::Plan;
use plan_core::reading::{cell_at, cell_count, link_at};
use plan_costs::{CriticalPath, LogGp, Spent, Times, Traffic, link_costs, traffic_of};
use port_io::{Failed, Sink};
use run_text::{Pieces, Rows, Word, put_line, put_listed, put_rows};

/// What a plan takes in time by some numbers.
#[derive(Clone, Copy)]
pub struct PlanCosts<'a> {
    /// The plan.
    pub plan: &'a Plan,
    /// The numbers of LogGP.
    pub numbers: &'a LogGp,
    /// When each cell is reached.
    pub times: &'a Times,
    /// When each rank is done, by rank.
    pub ranks: &'a [u64],
    /// The critical path.
    pub path: &'a CriticalPath,
}

/// The lines of cells, by when each is reached.
#[derive(Clone, Copy)]
struct CellRows<'a>(&'a Times);

impl<'a> Rows for CellRows<'a> {
    ghost use Rattle.std.specs.Prelude.{◌<◌, length};
    ghost use Rattle.plan_words.specs.Costs.{cell_time_line};

    ghost has = { λ rows c. c < length rows.0.now.cells };

    ghost line = { λ rows. cell_time_line rows.0.now };

    fn put<K: Sink>(&self, out: &mut Pieces, sink: &mut K, number: u32) -> Result<(), Failed> {
        let words = [
            Word::Number(u64::from(number)),
            Word::Number(self.0.cell(number)),
        ];
        put_line(out, sink, b"cell", &words)
    }
}

/// The lines of ranks, by when each is done.
#[derive(Clone, Copy)]
struct RankTimeRows<'a>(&'a [u64]);

impl<'a> Rows for RankTimeRows<'a> {
    ghost use Rattle.std.specs.Prelude.{◌<◌, length};
    ghost use Rattle.plan_words.specs.Costs.{rank_time_line};

    ghost has = { λ rows r. r < length rows.0.now };

    ghost line = { λ rows. rank_time_line rows.0.now };

    fn put<K: Sink>(&self, out: &mut Pieces, sink: &mut K, number: u32) -> Result<(), Failed> {
        let words = [
            Word::Number(u64::from(number)),
            Word::Number(self.0[number as usize]),
        ];
        put_line(out, sink, b"rank", &words)
    }
}

/// Adds the lines of all cells.
fn put_cells<K: Sink>(out: &mut Pieces, sink: &mut K, costs: &PlanCosts) -> Result<(), Failed>
    requires { IsCosted costs.now.numbers.now costs.now.plan.now costs.now.times.now }
    ensures { Puts (K.outflow sink.old) (K.outflow sink.new) out.old out.new
        (cell_time_lines costs.now.plan.now costs.now.times.now) result }
{
    put_rows(out, sink, &CellRows(costs.times), cell_count(costs.plan))
}

/// Adds the lines of all ranks.
fn put_ranks<K: Sink>(out: &mut Pieces, sink: &mut K, ranks: &[u64]) -> Result<(), Failed>
    requires { length ranks.now < 2 ^ 32 }
    ensures { Puts (K.outflow sink.old) (K.outflow sink.new) out.old out.new (rank_time_lines ranks.now) result }
{
    put_rows(out, sink, &RankTimeRows(ranks), ranks.len() as u32)
}

/// Adds the line of the cell at which the path begins.
fn put_begin<K: Sink>(
    out: &mut Pieces,
    sink: &mut K,
    costs: &PlanCosts,
    c: u32,
) -> Result<(), Failed>
    requires cell { c < length costs.now.plan.now.cells }
    requires costed { IsCosted costs.now.numbers.now costs.now.plan.now costs.now.times.now }
    ensures { Puts (K.outflow sink.old) (K.outflow sink.new) out.old out.new (begin_line costs.now.plan.now costs.now.times.now c) result }
{
    let words = [
        Word::Number(u64::from(c)),
        Word::Text(b"rank"),
        Word::Number(u64::from(cell_at(costs.plan, c).rank)),
        Word::Text(b"time"),
        Word::Number(costs.times.cell(c)),
    ];
    put_line(out, sink, b"path", &words)
}

/// Adds the line of a link of the path.
fn put_hop<K: Sink>(out: &mut Pieces, sink: &mut K, costs: &PlanCosts, l: u32) -> Result<(), Failed>
    requires link { l < length costs.now.plan.now.links }
    requires costed { IsCosted costs.now.numbers.now costs.now.plan.now costs.now.times.now }
    ensures { Puts (K.outflow sink.old) (K.outflow sink.new) out.old out.new
        (hop_line costs.now.numbers.now costs.now.plan.now costs.now.times.now l) result }
{
    let link = link_at(costs.plan, l);
    let spent = link_costs(costs.plan, costs.numbers, costs.times, l);
    let words = [
        Word::Number(u64::from(link.target)),
        Word::Text(b"rank"),
        Word::Number(u64::from(cell_at(costs.plan, link.target).rank)),
        Word::Text(b"time"),
        Word::Number(costs.times.cell(link.target)),
        Word::Text(b"link"),
        Word::Number(u64::from(l)),
        Word::Text(b"bytes"),
        Word::Number(link.length),
        Word::Text(b"queued"),
        Word::Number(spent.queued),
        Word::Text(b"overhead"),
        Word::Number(spent.overhead),
        Word::Text(b"wire"),
        Word::Number(spent.wire),
        Word::Text(b"latency"),
        Word::Number(spent.latency),
        Word::Text(b"held"),
        Word::Number(spent.held),
        Word::Text(b"work"),
        Word::Number(spent.work),
    ];
    put_line(out, sink, b"path", &words)
}

/// The lines of links of the path.
#[derive(Clone, Copy)]
struct HopRows<'a>(PlanCosts<'a>);

impl<'a> Rows for HopRows<'a> {
    ghost use Rattle.std.specs.Prelude.{◌<◌, length};
    ghost use Rattle.plan_costs.specs.Path.{IsCosted};
    ghost use Rattle.plan_words.specs.Costs.{hop_line};

    ghost has = { λ rows l. (l < length rows.0.plan.now.links) × IsCosted rows.0.numbers.now rows.0.plan.now rows.0.times.now };

    ghost line = { λ rows. hop_line rows.0.numbers.now rows.0.plan.now rows.0.times.now };

    fn put<K: Sink>(&self, out: &mut Pieces, sink: &mut K, number: u32) -> Result<(), Failed> {
        put_hop(out, sink, &self.0, number)
    }
}

/// The cell at which the path begins.
fn begin_of(costs: &PlanCosts) -> u32
    requires { IsCostOf costs.now.numbers.now costs.now.plan.now
        (costs_of costs.now.times.now costs.now.ranks.now costs.now.path.now) }
    ensures value { result ≡ begin_of costs.now.plan.now costs.now.path.now.end costs.now.path.now.links }
    ensures known { result < length costs.now.plan.now.cells }
{
    match costs.path.links() {
        [] => costs.path.end(),
        [first, ..] => link_at(costs.plan, *first).source,
    }
}

/// Adds the lines of the path.
fn put_path<K: Sink>(out: &mut Pieces, sink: &mut K, costs: &PlanCosts) -> Result<(), Failed>
    requires { IsCostOf costs.now.numbers.now costs.now.plan.now
        (costs_of costs.now.times.now costs.now.ranks.now costs.now.path.now) }
    ensures { Puts (K.outflow sink.old) (K.outflow sink.new) out.old out.new
        (path_lines costs.now.numbers.now costs.now.plan.now costs.now.times.now costs.now.path.now) result }
{
    put_begin(out, sink, costs, begin_of(costs))?;
    put_listed(out, sink, &HopRows(*costs), costs.path.links())
}

/// Adds the last line.
fn put_total<K: Sink>(
    out: &mut Pieces,
    sink: &mut K,
    time: u64,
    sent: Traffic,
    spent: Spent,
) -> Result<(), Failed>
    ensures { Puts (K.outflow sink.old) (K.outflow sink.new) out.old out.new (total_line time sent spent) result }
{
    let words = [
        Word::Number(time),
        Word::Text(b"messages"),
        Word::Number(sent.messages),
        Word::Text(b"bytes"),
        Word::Number(sent.bytes),
        Word::Text(b"queued"),
        Word::Number(spent.queued),
        Word::Text(b"overhead"),
        Word::Number(spent.overhead),
        Word::Text(b"wire"),
        Word::Number(spent.wire),
        Word::Text(b"latency"),
        Word::Number(spent.latency),
        Word::Text(b"held"),
        Word::Number(spent.held),
        Word::Text(b"work"),
        Word::Number(spent.work),
    ];
    put_line(out, sink, b"total", &words)
}

/// Adds the line of what the plan takes.
fn put_sum<K: Sink>(out: &mut Pieces, sink: &mut K, costs: &PlanCosts) -> Result<(), Failed>
    requires { IsCostOf costs.now.numbers.now costs.now.plan.now
        (costs_of costs.now.times.now costs.now.ranks.now costs.now.path.now) }
    ensures { Puts (K.outflow sink.old) (K.outflow sink.new) out.old out.new
        (sum_line costs.now.plan.now (costs_of costs.now.times.now costs.now.ranks.now costs.now.path.now)) result }
{
    let time = costs.times.cell(costs.path.end());
    put_total(out, sink, time, traffic_of(costs.plan), costs.path.spent())
}

/// Adds all lines.
fn put_costs<K: Sink>(out: &mut Pieces, sink: &mut K, costs: &PlanCosts) -> Result<(), Failed>
    requires { IsCostOf costs.now.numbers.now costs.now.plan.now
        (costs_of costs.now.times.now costs.now.ranks.now costs.now.path.now) }
    ensures { Puts (K.outflow sink.old) (K.outflow sink.new) out.old out.new
        (cost_text costs.now.numbers.now costs.now.plan.now
        (costs_of costs.now.times.now costs.now.ranks.now costs.now.path.now)) result }
{
    put_cells(out, sink, costs)?;
    put_ranks(out, sink, costs.ranks)?;
    put_path(out, sink, costs)?;
    put_sum(out, sink, costs)
}

/// Writes what a plan takes in time, in picoseconds: when each cell is reached and each rank is done, the cells of the critical path with
/// what each of its links takes, and in a last line the whole time, the messages between ranks with their bytes, and on what the time was
/// spent along the path; and finishes the sink.
///
/// At `Failed` the count of the sink's faults rose, and a beginning of the text stands. It takes no memory.
pub fn write_costs<K: Sink>(out: &mut Pieces, sink: &mut K, costs: &PlanCosts) -> Result<(), Failed>
    requires empty { out.old ≡ [] }
    requires costs { IsCostOf costs.now.numbers.now costs.now.plan.now
        (costs_of costs.now.times.now costs.now.ranks.now costs.now.path.now) }
    ensures { EndsWith (K.outflow sink.old) (K.outflow sink.new)
        (cost_text costs.now.numbers.now costs.now.plan.now
        (costs_of costs.now.times.now costs.now.ranks.now costs.now.path.now)) result }
{
    put_costs(out, sink, costs)?;
    out.end(sink)
}

/// With an overhead of at least 1 a plan takes one time by some numbers: there is one answer to what each cell, each rank and the critical
/// path take, and so one text.
pub fn costs_are_one()
    ensures { (n : LogGp) (p : Plan) (a b : CostOf) → 1 ≤ n.overhead → IsCostOf n p a → IsCostOf n p b → b ≡ a }
{}
