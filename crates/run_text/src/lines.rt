//! The lines of a result.

ghost use Rattle.std.specs.Prelude.{◌∷◌};
ghost use Rattle.std.specs.Fmt.{decimal};
ghost use Rattle.run_text.specs.Lines.{result_line, rest_line, value_line};
ghost use Rattle.run_text.specs.Putting.{Puts};

use crate::pieces::Pieces;
use crate::values::put_values;
use crate::words::{Word, put_line, put_spaced};
use port_io::{Failed, Sink};
use ptl_types::{ElemType, Rank};

/// Adds a space and a word.
pub(crate) fn put_word<K: Sink>(out: &mut Pieces, sink: &mut K, word: &[u8]) -> Result<(), Failed>
    ensures { Puts (K.outflow sink.old) (K.outflow sink.new) out.old out.new (32 ∷ word.now) result }
{
    out.put(sink, b" ")?;
    out.put(sink, word)
}

/// Adds a space and a number.
pub(crate) fn put_number<K: Sink>(out: &mut Pieces, sink: &mut K, number: u32) -> Result<(), Failed>
    ensures { Puts (K.outflow sink.old) (K.outflow sink.new) out.old out.new (32 ∷ decimal number) result }
{
    put_spaced(out, sink, number as u64)
}

/// Adds the line of one rank's list of a buffer: the buffer's name, the rank and the values of the list's elements, parted by
/// one space. The list is whole elements of the type, little-endian; a signed value below 0 has a minus sign.
///
/// At `Failed` the count of the sink's faults rose, and a beginning of the text stands. It takes no memory.
pub fn result_line<K: Sink>(
    out: &mut Pieces,
    sink: &mut K,
    name: &[u8],
    rank: Rank,
    ty: ElemType,
    list: &[u8],
) -> Result<(), Failed>
    ensures { Puts (K.outflow sink.old) (K.outflow sink.new) out.old out.new (result_line name.now rank ty list.now) result }
{
    out.put(sink, name)?;
    put_number(out, sink, rank)?;
    put_values(out, sink, ty, list)?;
    out.put(sink, b"\n")
}

/// Adds the line of the result of a step at a rank, in a choice text: the step's name, the rank and the value, parted by one space.
///
/// At `Failed` the count of the sink's faults rose, and a beginning of the text stands. It takes no memory.
pub fn value_line<K: Sink>(
    out: &mut Pieces,
    sink: &mut K,
    name: &[u8],
    rank: Rank,
    value: u64,
) -> Result<(), Failed>
    ensures { Puts (K.outflow sink.old) (K.outflow sink.new) out.old out.new (value_line name.now rank value) result }
{
    let words = [Word::Number(u64::from(rank)), Word::Number(value)];
    put_line(out, sink, name, &words)
}

/// Adds the line that follows the last result: `rest`.
///
/// At `Failed` the count of the sink's faults rose, and a beginning of the text stands. It takes no memory.
pub fn rest_line<K: Sink>(out: &mut Pieces, sink: &mut K) -> Result<(), Failed>
    ensures { Puts (K.outflow sink.old) (K.outflow sink.new) out.old out.new rest_line result }
{
    out.put(sink, b"rest\n")
}
