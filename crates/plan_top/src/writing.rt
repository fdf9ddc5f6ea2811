//! The text of a plan with the lines that name its cells.

ghost use Rattle.std.specs.Prelude.{◌≡◌, ◌∷◌, [], codes, get_or};
ghost use Rattle.std.specs.Fmt.{decimal};
ghost use Rattle.std.specs.List.{flat_map};
ghost use Rattle.coll_text.specs.Text.{line};
ghost use Rattle.coll_shape.specs.Outline.{no_buffer};
ghost use Rattle.plan_top.specs.Texts.{mark_line, marked_text};
ghost use Rattle.run_text.specs.Putting.{EndsWith, Puts};

use coll_shape::{Buffer, Shape};
use given_lines::Mark;
use marked_plans::MarkedPlan;
use plan_core::Plan;
use port_io::{Failed, Sink};
use ptl_types::Rank;
use run_text::{Pieces, PlanLine, PlanTables, Word, plan_line, put_done, put_drawn, put_line};
use schedule_compiler::done::CountedPlan;

/// The name of a buffer.
fn name_of<'a>(buffers: &'a [Buffer], buffer: u32) -> &'a [u8]
    ensures { result.now ≡ (get_or buffers.now buffer no_buffer).name }
{
    match buffers.get(buffer as usize) {
        Some(buffer) => buffer.name.as_slice(),
        None => &[],
    }
}

/// Adds the line of a result's cell.
fn put_result<K: Sink>(
    out: &mut Pieces,
    sink: &mut K,
    name: &[u8],
    rank: Rank,
    cell: u32,
) -> Result<(), Failed>
    ensures { Puts (K.outflow sink.old) (K.outflow sink.new) out.old out.new
        (line (codes "result" ∷ name.now ∷ decimal rank ∷ decimal cell ∷ [])) result }
{
    let numbers = [Word::Number(u64::from(rank)), Word::Number(u64::from(cell))];
    out.put(sink, b"result ")?;
    put_line(out, sink, name, &numbers)
}

/// Adds the line of a cell at which a barrier is entered or left.
fn put_passage<K: Sink>(
    out: &mut Pieces,
    sink: &mut K,
    key: &[u8],
    step: u32,
    rank: Rank,
    cell: u32,
) -> Result<(), Failed>
    ensures { Puts (K.outflow sink.old) (K.outflow sink.new) out.old out.new
        (line (key.now ∷ decimal step ∷ decimal rank ∷ decimal cell ∷ [])) result }
{
    let numbers = [
        Word::Number(u64::from(step)),
        Word::Number(u64::from(rank)),
        Word::Number(u64::from(cell)),
    ];
    put_line(out, sink, key, &numbers)
}

/// Adds the line of a named cell.
fn put_mark<K: Sink>(
    out: &mut Pieces,
    sink: &mut K,
    buffers: &[Buffer],
    mark: Mark,
) -> Result<(), Failed>
    ensures { Puts (K.outflow sink.old) (K.outflow sink.new) out.old out.new (mark_line buffers.now mark) result }
{
    match mark {
        Mark::Result { buffer, rank, cell } => {
            put_result(out, sink, name_of(buffers, buffer), rank, cell)
        }
        Mark::Enter { step, rank, cell } => put_passage(out, sink, b"enter", step, rank, cell),
        Mark::Leave { step, rank, cell } => put_passage(out, sink, b"leave", step, rank, cell),
    }
}

/// A plan that is written.
struct Drawn<'a>(&'a CountedPlan);

impl<'a> Drop for Drawn<'a> {
    fn drop(self) {
        let Drawn(_) = self;
    }
}

impl<'a> PlanTables for Drawn<'a> {
    ghost drawn = { λ drawn. drawn.0.now };

    fn plan(&self) -> &Plan {
        self.0.plan()
    }

    fn done(&self, r: Rank) -> u64 {
        self.0.done(r)
    }
}

/// Adds the lines of the named cells.
fn put_marks<K: Sink>(
    out: &mut Pieces,
    sink: &mut K,
    buffers: &[Buffer],
    marks: &[Mark],
) -> Result<(), Failed>
    ensures { Puts (K.outflow sink.old) (K.outflow sink.new) out.old out.new (flat_map (mark_line buffers.now) marks.now) result }
{
    for mark in marks {
        put_mark(out, sink, buffers, *mark)?;
    }
    Ok(())
}

/// Adds all lines of a plan's text.
fn put_marked<K: Sink>(
    out: &mut Pieces,
    sink: &mut K,
    buffers: &[Buffer],
    marked: &MarkedPlan,
) -> Result<(), Failed>
    ensures { Puts (K.outflow sink.old) (K.outflow sink.new) out.old out.new (marked_text buffers.now marked.now) result }
{
    let plan = marked.plan();
    put_drawn(out, sink, plan.plan())?;
    put_done(out, sink, &Drawn(plan))?;
    put_marks(out, sink, buffers, marked.marks())?;
    plan_line(out, sink, &PlanLine::EndLine)
}

/// Writes the text of a shape's plan: its size, its cells and its links by their numbers, where each rank's counter of what is done
/// stands when all is done, the cells of the results and at which barriers are entered and left, and `end`; and finishes the sink.
///
/// At `Failed` the count of the sink's faults rose, and a beginning of the text stands. It takes no memory.
pub(crate) fn write_marked<K: Sink>(
    out: &mut Pieces,
    sink: &mut K,
    shape: &Shape,
    marked: &MarkedPlan,
) -> Result<(), Failed>
    requires { out.old ≡ [] }
    ensures { EndsWith (K.outflow sink.old) (K.outflow sink.new) (marked_text shape.now.buffers marked.now) result }
{
    put_marked(out, sink, shape.buffers(), marked)?;
    out.end(sink)
}
