//! What a rank writes behind its frames, or in their place.

ghost use Rattle.std.specs.Prelude.{◌≡◌, ◌++◌, []};
ghost use Rattle.rank_frames.specs.Frames.{mark};
ghost use Rattle.rank_process.specs.lines.Lines.{placed_lines};
ghost use Rattle.run_text.specs.Orders.{order_line};
ghost use Rattle.run_text.specs.Putting.{EndsWith};

use crate::lines::Prints;
use port_io::{Failed, Sink};
use ptl_types::LocalStep;
use rank_frames::NOBODY;
use run_text::{Pieces, order_line};

/// The mark of the end.
pub(crate) fn end_mark() -> [u8; 8]
    ensures { result ≡ mark }
{
    let nobody = NOBODY.to_le_bytes();
    [nobody[0], nobody[1], nobody[2], nobody[3], 0, 0, 0, 0]
}

/// Writes the mark of the end, the rank's lines and the line of its steps, and finishes the sink.
pub(crate) fn write_end<K: Sink>(
    out: &mut Pieces,
    sink: &mut K,
    prints: &Prints,
    memory: &[u8],
    steps: &[LocalStep],
) -> Result<(), Failed>
    requires { out.old ≡ [] }
    ensures { EndsWith (K.outflow sink.old) (K.outflow sink.new) (mark ++ (placed_lines prints.now memory.now
        ++ order_line prints.now.rank steps.now)) result }
{
    out.put(sink, &end_mark())?;
    prints.put(out, sink, memory)?;
    order_line(out, sink, prints.rank(), steps)?;
    out.end(sink)
}

/// Adds a head and a line, and finishes the sink.
pub(crate) fn write_line<K: Sink>(
    out: &mut Pieces,
    sink: &mut K,
    head: &[u8],
    line: &[u8],
) -> Result<(), Failed>
    requires { out.old ≡ [] }
    ensures { EndsWith (K.outflow sink.old) (K.outflow sink.new) (head.now ++ line.now) result }
{
    out.put(sink, head)?;
    out.put(sink, line)?;
    out.end(sink)
}
