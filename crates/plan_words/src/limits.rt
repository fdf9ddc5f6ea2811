//! The lines of what a plan takes of its ranks' interfaces.

ghost use Rattle.std.specs.Prelude.{◌≡◌, ◌<◌, ◌^◌, [], length};
ghost use Rattle.run_text.specs.Putting.{EndsWith, Puts};
ghost use Rattle.plan_words.specs.Limits.{larger, limits_text, most_line, most_of, nothing, ranks_lines, takes_line};

use crate::takes::Takes;
use port_io::{Failed, Sink};
use run_text::{Pieces, Rows, Word, put_line, put_rows};

/// What a plan of no ranks takes.
fn nothing() -> Takes
    ensures { result ≡ nothing }
{
    Takes {
        triggered: 0,
        counting: 0,
        entries: 0,
        headers: 0,
        early: 0,
        descriptors: 0,
        region: 0,
        longest: 0,
        sent: 0,
        received: 0,
        own: 0,
    }
}

/// Of each thing the greater number.
fn larger(a: Takes, b: Takes) -> Takes
    ensures { result ≡ larger a b }
{
    Takes {
        triggered: a.triggered.max(b.triggered),
        counting: a.counting.max(b.counting),
        entries: a.entries.max(b.entries),
        headers: a.headers.max(b.headers),
        early: a.early.max(b.early),
        descriptors: a.descriptors.max(b.descriptors),
        region: a.region.max(b.region),
        longest: a.longest.max(b.longest),
        sent: a.sent.max(b.sent),
        received: a.received.max(b.received),
        own: a.own.max(b.own),
    }
}

/// Of each thing the greatest number of these.
fn most_of(takes: &[Takes]) -> Takes
    ensures { result ≡ most_of nothing takes.now }
{
    let mut most = nothing();
    for i in 0..takes.len() {
        most = larger(most, takes[i]);
    }
    most
}

/// Adds a line: a word and its number, and then each thing with its number.
fn put_takes<K: Sink>(
    out: &mut Pieces,
    sink: &mut K,
    key: &[u8],
    number: u32,
    takes: &Takes,
) -> Result<(), Failed>
    ensures { Puts (K.outflow sink.old) (K.outflow sink.new) out.old out.new (takes_line key.now number takes.now) result }
{
    let words = [
        Word::Number(u64::from(number)),
        Word::Text(b"triggered"),
        Word::Number(u64::from(takes.triggered)),
        Word::Text(b"counting"),
        Word::Number(u64::from(takes.counting)),
        Word::Text(b"entries"),
        Word::Number(u64::from(takes.entries)),
        Word::Text(b"headers"),
        Word::Number(u64::from(takes.headers)),
        Word::Text(b"early"),
        Word::Number(takes.early),
        Word::Text(b"descriptors"),
        Word::Number(u64::from(takes.descriptors)),
        Word::Text(b"region"),
        Word::Number(takes.region),
        Word::Text(b"longest"),
        Word::Number(takes.longest),
        Word::Text(b"sent"),
        Word::Number(takes.sent),
        Word::Text(b"received"),
        Word::Number(takes.received),
        Word::Text(b"own"),
        Word::Number(takes.own),
    ];
    put_line(out, sink, key, &words)
}

/// The lines of ranks, by what each takes.
#[derive(Clone, Copy)]
struct TakesRows<'a>(&'a [Takes]);

impl<'a> Rows for TakesRows<'a> {
    ghost use Rattle.std.specs.Prelude.{◌<◌, codes, length, get_or};
    ghost use Rattle.plan_words.specs.Limits.{nothing, takes_line};

    ghost has = { λ rows r. r < length rows.0.now };

    ghost line = { λ rows r. takes_line (codes "rank") r (get_or rows.0.now r nothing) };

    fn put<K: Sink>(&self, out: &mut Pieces, sink: &mut K, number: u32) -> Result<(), Failed> {
        put_takes(out, sink, b"rank", number, &self.0[number as usize])
    }
}

/// Adds the line of each rank.
fn put_ranks<K: Sink>(out: &mut Pieces, sink: &mut K, takes: &[Takes]) -> Result<(), Failed>
    requires { length takes.now < 2 ^ 32 }
    ensures { Puts (K.outflow sink.old) (K.outflow sink.new) out.old out.new (ranks_lines takes.now) result }
{
    put_rows(out, sink, &TakesRows(takes), takes.len() as u32)
}

/// Adds the line of what is the most over all ranks.
fn put_most<K: Sink>(out: &mut Pieces, sink: &mut K, takes: &[Takes]) -> Result<(), Failed>
    requires { length takes.now < 2 ^ 32 }
    ensures { Puts (K.outflow sink.old) (K.outflow sink.new) out.old out.new (most_line takes.now) result }
{
    put_takes(out, sink, b"most", takes.len() as u32, &most_of(takes))
}

/// Adds all lines.
fn put_limits<K: Sink>(out: &mut Pieces, sink: &mut K, takes: &[Takes]) -> Result<(), Failed>
    requires { length takes.now < 2 ^ 32 }
    ensures { Puts (K.outflow sink.old) (K.outflow sink.new) out.old out.new (limits_text takes.now) result }
{
    put_ranks(out, sink, takes)?;
    put_most(out, sink, takes)
}

/// Writes what each rank takes, a line a rank, and in a last line the most of each thing that a rank takes; and finishes the sink.
///
/// At `Failed` the count of the sink's faults rose, and a beginning of the text stands. It takes no memory.
pub fn write_limits<K: Sink>(out: &mut Pieces, sink: &mut K, takes: &[Takes]) -> Result<(), Failed>
    requires empty { out.old ≡ [] }
    requires at_most { length takes.now < 2 ^ 32 }
    ensures { EndsWith (K.outflow sink.old) (K.outflow sink.new) (limits_text takes.now) result }
{
    put_limits(out, sink, takes)?;
    out.end(sink)
}
