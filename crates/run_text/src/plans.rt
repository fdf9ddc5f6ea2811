//! The text of a plan.

ghost use Rattle.std.specs.Prelude.{◌≡◌, ◌<◌, ◌+◌, ◌^◌, [], length};
ghost use Rattle.std.specs.List.{flat_map};
ghost use Rattle.number_lists.specs.Numbers.{from_to};
ghost use Rattle.coll_lang.specs.Words.{op_word, type_word};
ghost use Rattle.plan_core.specs.Plan.{Plan};
ghost use Rattle.plan_core.specs.calls.RankOps.{done_threshold};
ghost use Rattle.run_text.specs.Plans.{cell_line_of, completion_word, done_line_of, drawn_text, kind_word, link_line_of, op_or_none};
ghost use Rattle.run_text.specs.Plans.{plan_line, plan_text};
ghost use Rattle.run_text.specs.Putting.{Puts, EndsWith};

use crate::pieces::Pieces;
use crate::rows::{Rows, put_rows};
use crate::words::{Word, put_line};
use coll_lang::{op_word, type_word};
use plan_core::{Cell, Link, LinkKind, Plan};
use port_io::{Failed, Sink};
use ptl_types::{AtomicOp, Rank};

/// A line of a plan's text.
#[derive(Clone, Copy, Debug)]
pub enum PlanLine {
    /// `plan RANKS CELLS LINKS local` or `remote`.
    Head {
        /// How many ranks there are.
        ranks: u32,
        /// How many cells.
        cells: u32,
        /// How many links.
        links: u32,
        /// Whether completion also waits for every acknowledgement.
        remote: bool,
    },
    /// `cell NUMBER RANK TYPE OP LENGTH NEEDS`, with `-` where there is no operation.
    CellLine {
        /// The cell's number.
        number: u32,
        /// The cell.
        cell: Cell,
    },
    /// `link NUMBER SOURCE SOURCE_OFFSET LENGTH TARGET TARGET_OFFSET KIND`.
    LinkLine {
        /// The link's number.
        number: u32,
        /// The link.
        link: Link,
    },
    /// `done RANK THRESHOLD`.
    DoneLine {
        /// The rank.
        rank: Rank,
        /// Where its counter of what is done stands when all is done.
        threshold: u64,
    },
    /// `end`.
    EndLine,
}

/// The word of a cell's operation, as a plan's text has it; `-` where there is none.
pub fn op_or_none(op: Option<AtomicOp>) -> &'static [u8]
    ensures { result.now ≡ op_or_none op }
{
    match op {
        Some(op) => op_word(op),
        None => b"-",
    }
}

/// The word of a kind of link, as a plan's text has it.
pub fn kind_word(kind: LinkKind) -> &'static [u8]
    ensures { result.now ≡ kind_word kind }
{
    match kind {
        LinkKind::Put => b"put",
        LinkKind::Atomic => b"atomic",
        LinkKind::Bump => b"bump",
    }
}

fn completion_word(remote: bool) -> &'static [u8]
    ensures { result.now ≡ completion_word remote }
{
    if remote { b"remote" } else { b"local" }
}

/// Adds the line of a cell.
fn cell_line<K: Sink>(
    out: &mut Pieces,
    sink: &mut K,
    number: u32,
    cell: &Cell,
) -> Result<(), Failed>
    ensures { Puts (K.outflow sink.old) (K.outflow sink.new) out.old out.new (plan_line (PlanLine.CellLine number cell.now)) result }
{
    let words = [
        Word::Number(u64::from(number)),
        Word::Number(u64::from(cell.rank)),
        Word::Text(type_word(cell.ty)),
        Word::Text(op_or_none(cell.op)),
        Word::Number(cell.length),
        Word::Number(cell.needs),
    ];
    put_line(out, sink, b"cell", &words)
}

/// Adds the line of a link.
fn link_line<K: Sink>(
    out: &mut Pieces,
    sink: &mut K,
    number: u32,
    link: &Link,
) -> Result<(), Failed>
    ensures { Puts (K.outflow sink.old) (K.outflow sink.new) out.old out.new (plan_line (PlanLine.LinkLine number link.now)) result }
{
    let words = [
        Word::Number(u64::from(number)),
        Word::Number(u64::from(link.source)),
        Word::Number(link.source_offset),
        Word::Number(link.length),
        Word::Number(u64::from(link.target)),
        Word::Number(link.target_offset),
        Word::Text(kind_word(link.kind)),
    ];
    put_line(out, sink, b"link", &words)
}

/// Adds a line of a plan's text.
///
/// At `Failed` the count of the sink's faults rose, and a beginning of the text stands. It takes no memory.
pub fn plan_line<K: Sink>(out: &mut Pieces, sink: &mut K, line: &PlanLine) -> Result<(), Failed>
    ensures { Puts (K.outflow sink.old) (K.outflow sink.new) out.old out.new (plan_line line.now) result }
{
    match *line {
        PlanLine::Head {
            ranks,
            cells,
            links,
            remote,
        } => {
            let words = [
                Word::Number(u64::from(ranks)),
                Word::Number(u64::from(cells)),
                Word::Number(u64::from(links)),
                Word::Text(completion_word(remote)),
            ];
            put_line(out, sink, b"plan", &words)
        }
        PlanLine::CellLine { number, ref cell } => cell_line(out, sink, number, cell),
        PlanLine::LinkLine { number, ref link } => link_line(out, sink, number, link),
        PlanLine::DoneLine { rank, threshold } => {
            let words = [Word::Number(u64::from(rank)), Word::Number(threshold)];
            put_line(out, sink, b"done", &words)
        }
        PlanLine::EndLine => put_line(out, sink, b"end", &[]),
    }
}

/// A plan, and who tells where each rank's counter of what is done stands when all is done.
pub trait PlanTables {
    /// The plan.
    ghost drawn: { Self → Plan };

    /// The plan. It has fewer than 2^32 cells and links.
    fn plan(&self) -> &Plan
        ensures value { result.now ≡ drawn self.now }
        ensures at_most { length (drawn self.now).cells + length (drawn self.now).links < 2 ^ 32 };

    /// Where a rank's counter of what is done stands when all is done.
    fn done(&self, r: Rank) -> u64
        requires { r < (drawn self.now).ranks }
        ensures { result ≡ done_threshold (drawn self.now) r };
}

/// The lines of a plan's cells.
#[derive(Clone, Copy)]
struct CellRows<'a>(&'a Plan);

impl<'a> Rows for CellRows<'a> {
    ghost use Rattle.std.specs.Prelude.{◌<◌, length};
    ghost use Rattle.run_text.specs.Plans.{cell_line_of};

    ghost has = { λ rows number. number < length rows.0.now.cells };

    ghost line = { λ rows. cell_line_of rows.0.now };

    fn put<K: Sink>(&self, out: &mut Pieces, sink: &mut K, number: u32) -> Result<(), Failed> {
        cell_line(out, sink, number, &self.0.cells()[number as usize])
    }
}

/// The lines of a plan's links.
#[derive(Clone, Copy)]
struct LinkRows<'a>(&'a Plan);

impl<'a> Rows for LinkRows<'a> {
    ghost use Rattle.std.specs.Prelude.{◌<◌, length};
    ghost use Rattle.run_text.specs.Plans.{link_line_of};

    ghost has = { λ rows number. number < length rows.0.now.links };

    ghost line = { λ rows. link_line_of rows.0.now };

    fn put<K: Sink>(&self, out: &mut Pieces, sink: &mut K, number: u32) -> Result<(), Failed> {
        link_line(out, sink, number, &self.0.links()[number as usize])
    }
}

/// The lines of the ranks' counters of what is done.
struct DoneRows<'a, T>(&'a T);

impl<'a, T> Drop for DoneRows<'a, T> {
    fn drop(self) {
        let DoneRows(_) = self;
    }
}

impl<'a, T: PlanTables> Rows for DoneRows<'a, T> {
    ghost use Rattle.std.specs.Prelude.{◌<◌};
    ghost use Rattle.run_text.specs.Plans.{done_line_of};

    ghost has = { λ rows r. r < (T.drawn rows.0.now).ranks };

    ghost line = { λ rows. done_line_of (T.drawn rows.0.now) };

    fn put<K: Sink>(&self, out: &mut Pieces, sink: &mut K, number: u32) -> Result<(), Failed> {
        let rank = number;
        let threshold = self.0.done(rank);
        plan_line(out, sink, &PlanLine::DoneLine { rank, threshold })
    }
}

/// Adds the lines of the cells, by their numbers.
fn put_cells<K: Sink>(out: &mut Pieces, sink: &mut K, plan: &Plan) -> Result<(), Failed>
    requires { length plan.now.cells < 2 ^ 32 }
    ensures { Puts (K.outflow sink.old) (K.outflow sink.new) out.old out.new
        (flat_map (cell_line_of plan.now) (from_to 0 (length plan.now.cells))) result }
{
    let count = plan.cells().len() as u32;
    put_rows(out, sink, &CellRows(plan), count)
}

/// Adds the lines of the links, by their numbers.
fn put_links<K: Sink>(out: &mut Pieces, sink: &mut K, plan: &Plan) -> Result<(), Failed>
    requires { length plan.now.links < 2 ^ 32 }
    ensures { Puts (K.outflow sink.old) (K.outflow sink.new) out.old out.new
        (flat_map (link_line_of plan.now) (from_to 0 (length plan.now.links))) result }
{
    let count = plan.links().len() as u32;
    put_rows(out, sink, &LinkRows(plan), count)
}

/// Adds the line of each rank's counter of what is done.
///
/// At `Failed` the count of the sink's faults rose, and a beginning of the text stands. It takes no memory.
pub fn put_done<K: Sink, T: PlanTables>(
    out: &mut Pieces,
    sink: &mut K,
    tables: &T,
) -> Result<(), Failed>
    ensures { Puts (K.outflow sink.old) (K.outflow sink.new) out.old out.new
        (flat_map (done_line_of (T.drawn tables.now)) (from_to 0 (T.drawn tables.now).ranks)) result }
{
    let ranks = tables.plan().ranks();
    put_rows(out, sink, &DoneRows(tables), ranks)
}

/// Adds the first line.
fn put_head<K: Sink>(out: &mut Pieces, sink: &mut K, plan: &Plan) -> Result<(), Failed>
    requires { length plan.now.cells + length plan.now.links < 2 ^ 32 }
    ensures { Puts (K.outflow sink.old) (K.outflow sink.new) out.old out.new
        (plan_line (PlanLine.Head plan.now.ranks (length plan.now.cells) (length plan.now.links) plan.now.remote)) result }
{
    let head = PlanLine::Head {
        ranks: plan.ranks(),
        cells: plan.cells().len() as u32,
        links: plan.links().len() as u32,
        remote: plan.remote(),
    };
    plan_line(out, sink, &head)
}

/// Adds the lines of a plan's size, its cells and its links.
///
/// At `Failed` the count of the sink's faults rose, and a beginning of the text stands. It takes no memory.
pub fn put_drawn<K: Sink>(out: &mut Pieces, sink: &mut K, plan: &Plan) -> Result<(), Failed>
    requires { length plan.now.cells + length plan.now.links < 2 ^ 32 }
    ensures { Puts (K.outflow sink.old) (K.outflow sink.new) out.old out.new (drawn_text plan.now) result }
{
    put_head(out, sink, plan)?;
    put_cells(out, sink, plan)?;
    put_links(out, sink, plan)
}

/// Adds all lines of a plan's text.
fn put_plan<K: Sink, T: PlanTables>(
    out: &mut Pieces,
    sink: &mut K,
    tables: &T,
) -> Result<(), Failed>
    ensures { Puts (K.outflow sink.old) (K.outflow sink.new) out.old out.new (plan_text (T.drawn tables.now)) result }
{
    let plan = tables.plan();
    put_drawn(out, sink, plan)?;
    put_done(out, sink, tables)?;
    plan_line(out, sink, &PlanLine::EndLine)
}

/// Writes the text of a plan: its size, its cells and its links by their numbers, where each rank's counter of what is done
/// stands when all is done, and `end`; and finishes the sink.
///
/// At `Failed` the count of the sink's faults rose, and a beginning of the text stands. It takes no memory.
pub fn write_plan<K: Sink, T: PlanTables>(
    out: &mut Pieces,
    sink: &mut K,
    tables: &T,
) -> Result<(), Failed>
    requires empty { out.old ≡ [] }
    ensures ends { EndsWith (K.outflow sink.old) (K.outflow sink.new) (plan_text (T.drawn tables.now)) result }
{
    put_plan(out, sink, tables)?;
    out.end(sink)
}
