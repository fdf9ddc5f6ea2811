//! Lines of words and numbers.

ghost use Rattle.std.specs.Prelude.{◌≡◌, ◌≤◌, ◌++◌, ◌∷◌, drop, length, map};
ghost use Rattle.std.specs.List.{flat_map};
ghost use Rattle.std.specs.Fmt.{decimal};
ghost use Rattle.coll_text.specs.Text.{line};
ghost use Rattle.run_text.specs.Worded.{word_bytes};
ghost use Rattle.run_text.specs.Putting.{Puts};

use crate::lines::put_word;
use crate::pieces::Pieces;
use itoa::{Buffer, write_digits};
use port_io::{Failed, Sink};

/// A word of a line.
#[derive(Clone, Copy)]
pub enum Word {
    /// A number.
    Number(u64),
    /// A word that stands as it is.
    Text(&'static [u8]),
}

/// Adds some bytes and a number.
pub(crate) fn put_marked<K: Sink>(
    out: &mut Pieces,
    sink: &mut K,
    mark: &[u8],
    number: u64,
) -> Result<(), Failed>
    ensures { Puts (K.outflow sink.old) (K.outflow sink.new) out.old out.new (mark.now ++ decimal number) result }
{
    let mut buffer = Buffer::new();
    out.put(sink, mark)?;
    out.put(sink, buffer.format(number).as_bytes())
}

/// How many bytes a space and the longest number have.
const LONGEST: usize = 21;

/// Writes a space and a number at the end of a buffer. It answers where they begin.
fn spaced(number: u64, buffer: &mut [u8]) -> usize
    requires { length buffer.old ≡ 21 }
    ensures within { result ≤ 21 }
    ensures written { drop result buffer.new ≡ 32 ∷ decimal number }
{
    let start = write_digits(number, buffer, LONGEST);
    buffer[start - 1] = b' ';
    start - 1
}

/// Adds a space and a number.
pub(crate) fn put_spaced<K: Sink>(out: &mut Pieces, sink: &mut K, number: u64) -> Result<(), Failed>
    ensures { Puts (K.outflow sink.old) (K.outflow sink.new) out.old out.new (32 ∷ decimal number) result }
{
    let mut buffer = [0u8; LONGEST];
    let start = spaced(number, &mut buffer);
    out.put(sink, &buffer[start..])
}

/// Adds a space and a word.
fn put_one<K: Sink>(out: &mut Pieces, sink: &mut K, word: Word) -> Result<(), Failed>
    ensures { Puts (K.outflow sink.old) (K.outflow sink.new) out.old out.new (32 ∷ word_bytes word) result }
{
    match word {
        Word::Text(text) => put_word(out, sink, text),
        Word::Number(number) => put_spaced(out, sink, number),
    }
}

/// Adds a space and a word, for each word.
fn put_all<K: Sink>(out: &mut Pieces, sink: &mut K, words: &[Word]) -> Result<(), Failed>
    ensures { Puts (K.outflow sink.old) (K.outflow sink.new) out.old out.new (flat_map (λ w. 32 ∷ word_bytes w) words.now) result }
{
    for word in words {
        put_one(out, sink, *word)?;
    }
    Ok(())
}

/// Adds a line: a first word and the others, parted by one space.
///
/// At `Failed` the count of the sink's faults rose, and a beginning of the text stands. It takes no memory.
pub fn put_line<K: Sink>(
    out: &mut Pieces,
    sink: &mut K,
    first: &[u8],
    words: &[Word],
) -> Result<(), Failed>
    ensures { Puts (K.outflow sink.old) (K.outflow sink.new) out.old out.new (line (first.now ∷ map word_bytes words.now)) result }
{
    out.put(sink, first)?;
    put_all(out, sink, words)?;
    out.put(sink, b"\n")
}
