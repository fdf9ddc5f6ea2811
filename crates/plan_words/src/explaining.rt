//! What each triggered operation of a plan is, in words.

ghost use Rattle.std.specs.Prelude.{None, Some, ◌≡◌, ◌<◌, ◌∷◌, ◌^◌, [], length, map};
ghost use Rattle.coll_text.specs.Text.{line};
ghost use Rattle.ptl_types.specs.declared.steps.LocalStep.TheVariants.{Fire};
ghost use Rattle.plan_core.specs.Plan.{cell, link};
ghost use Rattle.plan_core.specs.calls.RankOps.{rank_ops};
ghost use Rattle.plan_core.specs.calls.RankOps.RankOp.{ForDone, ForLink};
ghost use Rattle.plan_tables.specs.Tables.{IsTabled};
ghost use Rattle.run_text.specs.Orders.{step_word};
ghost use Rattle.run_text.specs.Putting.{EndsWith, Puts};
ghost use Rattle.run_text.specs.Worded.{word_bytes};
ghost use Rattle.plan_words.specs.Words.{IsOps, cell_line, counted_line, explained, for_link, link_line, op_line, ops_lines, rank_text};
ghost use Rattle.plan_words.specs.Words.{sent_line};

use crate::ops::OpTables;
use coll_lang::{op_word, type_word};
use itoa::Buffer;
use plan_core::{Cell, Link, LinkKind, Plan};
use port_io::{Failed, Sink};
use ptl_types::{AtomicOp, ElemType, Rank};
use run_text::{Pieces, Rows, Word, put_line, put_rows};

/// The cell of this number.
fn cell_of(plan: &Plan, c: u32) -> Cell
    ensures { result ≡ cell plan.now c }
{
    match plan.cells().get(c as usize) {
        Some(cell) => *cell,
        None => Cell {
            rank: 0,
            ty: ElemType::U8,
            op: None,
            length: 0,
            needs: 0,
        },
    }
}

/// The link of this number.
fn link_of(plan: &Plan, l: u32) -> Link
    ensures { result ≡ link plan.now l }
{
    match plan.links().get(l as usize) {
        Some(link) => *link,
        None => Link {
            source: 0,
            source_offset: 0,
            length: 0,
            target: 0,
            target_offset: 0,
            kind: LinkKind::Bump,
        },
    }
}

/// A plan, and the line with which its text begins.
#[derive(Clone, Copy)]
pub(crate) struct PlanText<'a> {
    /// The plan.
    pub(crate) plan: &'a Plan,
    /// The number of its head's line.
    pub(crate) head: u32,
}

/// The line of a cell.
fn cell_line(text: &PlanText, c: u32) -> u64
    ensures { result ≡ cell_line text.now.head c }
{
    u64::from(text.head) + 1 + u64::from(c)
}

/// The line of a link.
fn link_line(text: &PlanText, l: u32) -> u64
    requires { length text.now.plan.now.cells < 2 ^ 32 }
    ensures { result ≡ link_line text.now.head text.now.plan.now l }
{
    u64::from(text.head) + 1 + text.plan.cells().len() as u64 + u64::from(l)
}

/// What stands before the number of a link along which a message goes.
fn for_link(remote: bool) -> &'static [u8]
    ensures { result.now ≡ for_link remote }
{
    if remote {
        b"with acknowledgement for link"
    } else {
        b"for link"
    }
}

/// Adds the line of an operation: its number, as orders name it, and these words.
fn put_op<K: Sink>(
    out: &mut Pieces,
    sink: &mut K,
    number: u32,
    words: &[Word],
) -> Result<(), Failed>
    ensures { Puts (K.outflow sink.old) (K.outflow sink.new) out.old out.new
        (line (step_word (Fire number) ∷ map word_bytes words.now)) result }
{
    let mut buffer = Buffer::new();
    out.put(sink, b"f")?;
    put_line(
        out,
        sink,
        buffer.format(u64::from(number)).as_bytes(),
        words,
    )
}

/// Adds the line of the count along a link.
fn put_bump<K: Sink>(
    out: &mut Pieces,
    sink: &mut K,
    text: &PlanText,
    number: u32,
    l: u32,
) -> Result<(), Failed>
    requires { length text.now.plan.now.cells < 2 ^ 32 }
    ensures { Puts (K.outflow sink.old) (K.outflow sink.new) out.old out.new
        (counted_line text.now.head text.now.plan.now number l) result }
{
    let link = link_of(text.plan, l);
    let words = [
        Word::Text(b"waits for cell"),
        Word::Number(u64::from(link.source)),
        Word::Text(b"at"),
        Word::Number(cell_of(text.plan, link.source).needs),
        Word::Text(b"then counts in cell"),
        Word::Number(u64::from(link.target)),
        Word::Text(b"for link"),
        Word::Number(u64::from(l)),
        Word::Text(b"in line"),
        Word::Number(link_line(text, l)),
    ];
    put_op(out, sink, number, &words)
}

/// Adds the line of a put along a link.
fn put_put<K: Sink>(
    out: &mut Pieces,
    sink: &mut K,
    text: &PlanText,
    number: u32,
    l: u32,
) -> Result<(), Failed>
    requires { length text.now.plan.now.cells < 2 ^ 32 }
    ensures { Puts (K.outflow sink.old) (K.outflow sink.new) out.old out.new
        (sent_line text.now.head text.now.plan.now number l None) result }
{
    let link = link_of(text.plan, l);
    let words = [
        Word::Text(b"waits for cell"),
        Word::Number(u64::from(link.source)),
        Word::Text(b"at"),
        Word::Number(cell_of(text.plan, link.source).needs),
        Word::Text(b"then puts"),
        Word::Number(link.length),
        Word::Text(b"bytes from"),
        Word::Number(link.source_offset),
        Word::Text(b"to cell"),
        Word::Number(u64::from(link.target)),
        Word::Text(b"of rank"),
        Word::Number(u64::from(cell_of(text.plan, link.target).rank)),
        Word::Text(b"at"),
        Word::Number(link.target_offset),
        Word::Text(for_link(text.plan.remote())),
        Word::Number(u64::from(l)),
        Word::Text(b"in line"),
        Word::Number(link_line(text, l)),
    ];
    put_op(out, sink, number, &words)
}

/// Adds the line of an atomic along a link.
fn put_atomic<K: Sink>(
    out: &mut Pieces,
    sink: &mut K,
    text: &PlanText,
    number: u32,
    l: u32,
    op: AtomicOp,
) -> Result<(), Failed>
    requires { length text.now.plan.now.cells < 2 ^ 32 }
    ensures { Puts (K.outflow sink.old) (K.outflow sink.new) out.old out.new
        (sent_line text.now.head text.now.plan.now number l (Some op)) result }
{
    let link = link_of(text.plan, l);
    let target = cell_of(text.plan, link.target);
    let words = [
        Word::Text(b"waits for cell"),
        Word::Number(u64::from(link.source)),
        Word::Text(b"at"),
        Word::Number(cell_of(text.plan, link.source).needs),
        Word::Text(b"then combines"),
        Word::Number(link.length),
        Word::Text(b"bytes from"),
        Word::Number(link.source_offset),
        Word::Text(b"by"),
        Word::Text(op_word(op)),
        Word::Text(type_word(target.ty)),
        Word::Text(b"with cell"),
        Word::Number(u64::from(link.target)),
        Word::Text(b"of rank"),
        Word::Number(u64::from(target.rank)),
        Word::Text(b"at"),
        Word::Number(link.target_offset),
        Word::Text(for_link(text.plan.remote())),
        Word::Number(u64::from(l)),
        Word::Text(b"in line"),
        Word::Number(link_line(text, l)),
    ];
    put_op(out, sink, number, &words)
}

/// Adds the line of a message along a link, to a cell that combines by this operation, if any.
fn put_send<K: Sink>(
    out: &mut Pieces,
    sink: &mut K,
    text: &PlanText,
    number: u32,
    l: u32,
    op: Option<AtomicOp>,
) -> Result<(), Failed>
    requires { length text.now.plan.now.cells < 2 ^ 32 }
    ensures { Puts (K.outflow sink.old) (K.outflow sink.new) out.old out.new
        (sent_line text.now.head text.now.plan.now number l op) result }
{
    match op {
        None => put_put(out, sink, text, number, l),
        Some(op) => put_atomic(out, sink, text, number, l, op),
    }
}

/// Adds the line of the operation of a link.
fn put_link<K: Sink>(
    out: &mut Pieces,
    sink: &mut K,
    text: &PlanText,
    number: u32,
    l: u32,
) -> Result<(), Failed>
    requires { length text.now.plan.now.cells < 2 ^ 32 }
    ensures { Puts (K.outflow sink.old) (K.outflow sink.new) out.old out.new
        (op_line text.now.head text.now.plan.now number (ForLink l)) result }
{
    let link = link_of(text.plan, l);
    match link.kind {
        LinkKind::Bump => put_bump(out, sink, text, number, l),
        _ => {
            let op = cell_of(text.plan, link.target).op;
            put_send(out, sink, text, number, l, op)
        }
    }
}

/// Adds the line of the telling of a cell.
fn put_telling<K: Sink>(
    out: &mut Pieces,
    sink: &mut K,
    text: &PlanText,
    number: u32,
    c: u32,
) -> Result<(), Failed>
    ensures { Puts (K.outflow sink.old) (K.outflow sink.new) out.old out.new
        (op_line text.now.head text.now.plan.now number (ForDone c)) result }
{
    let words = [
        Word::Text(b"waits for cell"),
        Word::Number(u64::from(c)),
        Word::Text(b"at"),
        Word::Number(cell_of(text.plan, c).needs),
        Word::Text(b"then counts in done for cell"),
        Word::Number(u64::from(c)),
        Word::Text(b"in line"),
        Word::Number(cell_line(text, c)),
    ];
    put_op(out, sink, number, &words)
}

/// The lines of the operations of a rank that fires these links and has these cells.
#[derive(Clone, Copy)]
struct OpRows<'a> {
    text: PlanText<'a>,
    links: &'a [u32],
    cells: &'a [u32],
}

impl<'a> Rows for OpRows<'a> {
    ghost use Rattle.std.specs.Prelude.{◌<◌, ◌+◌, ◌^◌, get_or, length};
    ghost use Rattle.plan_words.specs.Words.{no_op, op_line, ops_of};

    ghost has = { λ rows n. (n < length rows.links.now + length rows.cells.now) × (length rows.text.plan.now.cells < 2 ^ 32) };

    ghost line = { λ rows n. op_line rows.text.head rows.text.plan.now n (get_or (ops_of rows.links.now rows.cells.now) n no_op) };

    fn put<K: Sink>(&self, out: &mut Pieces, sink: &mut K, number: u32) -> Result<(), Failed> {
        let place = number as usize;
        let links = self.links.len();
        if place < links {
            put_link(out, sink, &self.text, number, self.links[place])
        } else {
            put_telling(out, sink, &self.text, number, self.cells[place - links])
        }
    }
}

/// Adds the lines of the operations of a rank.
fn put_ops<K: Sink>(
    out: &mut Pieces,
    sink: &mut K,
    text: &PlanText,
    tables: &OpTables,
    r: Rank,
) -> Result<(), Failed>
    requires tabled { IsTabled text.now.plan.now }
    requires tables { IsOps text.now.plan.now tables.now }
    requires rank { r < text.now.plan.now.ranks }
    ensures { Puts (K.outflow sink.old) (K.outflow sink.new) out.old out.new
        (ops_lines text.now.head text.now.plan.now (rank_ops text.now.plan.now r)) result }
{
    let links = tables.links(text.plan, r);
    let cells = tables.cells(text.plan, r);
    let rows = OpRows {
        text: *text,
        links,
        cells,
    };
    put_rows(out, sink, &rows, (links.len() + cells.len()) as u32)
}

/// Adds the text of a rank.
fn put_rank<K: Sink>(
    out: &mut Pieces,
    sink: &mut K,
    text: &PlanText,
    tables: &OpTables,
    r: Rank,
) -> Result<(), Failed>
    requires tabled { IsTabled text.now.plan.now }
    requires tables { IsOps text.now.plan.now tables.now }
    requires rank { r < text.now.plan.now.ranks }
    ensures { Puts (K.outflow sink.old) (K.outflow sink.new) out.old out.new
        (rank_text text.now.head text.now.plan.now r) result }
{
    put_line(out, sink, b"rank", &[Word::Number(u64::from(r))])?;
    put_ops(out, sink, text, tables, r)
}

/// The texts of ranks.
#[derive(Clone, Copy)]
struct RankRows<'a> {
    text: PlanText<'a>,
    tables: &'a OpTables,
}

impl<'a> Rows for RankRows<'a> {
    ghost use Rattle.std.specs.Prelude.{◌<◌};
    ghost use Rattle.plan_tables.specs.Tables.{IsTabled};
    ghost use Rattle.plan_words.specs.Words.{IsOps, rank_text};

    ghost has = { λ rows r. (r < rows.text.plan.now.ranks) × (IsTabled rows.text.plan.now × IsOps rows.text.plan.now rows.tables.now) };

    ghost line = { λ rows. rank_text rows.text.head rows.text.plan.now };

    fn put<K: Sink>(&self, out: &mut Pieces, sink: &mut K, number: u32) -> Result<(), Failed> {
        put_rank(out, sink, &self.text, self.tables, number)
    }
}

/// Adds the texts of all ranks.
fn put_explained<K: Sink>(
    out: &mut Pieces,
    sink: &mut K,
    text: &PlanText,
    tables: &OpTables,
) -> Result<(), Failed>
    requires tabled { IsTabled text.now.plan.now }
    requires tables { IsOps text.now.plan.now tables.now }
    ensures { Puts (K.outflow sink.old) (K.outflow sink.new) out.old out.new
        (explained text.now.head text.now.plan.now) result }
{
    let rows = RankRows {
        text: *text,
        tables,
    };
    put_rows(out, sink, &rows, text.plan.ranks())
}

/// Writes what each triggered operation of each rank of a plan is, in words, where the plan's text begins with this line: `rank R`, and
/// then a line for each operation in the order of their numbers; and finishes the sink.
///
/// At `Failed` the count of the sink's faults rose, and a beginning of the text stands. It takes no memory.
pub fn write_explained<K: Sink>(
    out: &mut Pieces,
    sink: &mut K,
    plan: &Plan,
    head: u32,
    tables: &OpTables,
) -> Result<(), Failed>
    requires empty { out.old ≡ [] }
    requires tabled { IsTabled plan.now }
    requires tables { IsOps plan.now tables.now }
    ensures { EndsWith (K.outflow sink.old) (K.outflow sink.new) (explained head plan.now) result }
{
    put_explained(out, sink, &PlanText { plan, head }, tables)?;
    out.end(sink)
}

/// Writes the same of one rank.
///
/// At `Failed` the count of the sink's faults rose, and a beginning of the text stands. It takes no memory.
pub fn write_rank_explained<K: Sink>(
    out: &mut Pieces,
    sink: &mut K,
    plan: &Plan,
    head: u32,
    tables: &OpTables,
    r: Rank,
) -> Result<(), Failed>
    requires empty { out.old ≡ [] }
    requires tabled { IsTabled plan.now }
    requires tables { IsOps plan.now tables.now }
    requires rank { r < plan.now.ranks }
    ensures { EndsWith (K.outflow sink.old) (K.outflow sink.new) (rank_text head plan.now r) result }
{
    put_rank(out, sink, &PlanText { plan, head }, tables, r)?;
    out.end(sink)
}
