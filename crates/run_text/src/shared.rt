//! The text of a result, whose lines threads make before it is written.

ghost use Rattle.std.specs.Prelude.{◌≡◌, ◌<◌, ◌≤◌, ◌/◌, ◌%◌, ◌*◌, [], length, get_or};
ghost use Rattle.run_text.specs.Lines.{text_of};
ghost use Rattle.run_text.specs.Made.{AreMade, IsMade};
ghost use Rattle.run_text.specs.Putting.{EndsWith};

use crate::lines::rest_line;
use crate::pieces::Pieces;
use crate::results::{ResultLists, put_line_at, put_prints};
use coll_shape::Shape;
use port_io::{Failed, IoTurns, MemorySink, Sink};
use ptl_types::Rank;
use std::alloc::Global;
use std::thread::Threads;
use work_sharing::map_indices;

/// Lists that have fewer bytes together aren't shared among threads.
const FEW: u64 = 65_536;

/// The most bytes of a line beside its values: a name, a space, a rank and the end of the line.
const BESIDE: u64 = 32;

/// The most bytes of a value's word with the space before it, for each byte of the value: one byte may be `-128`.
const WIDEST: u64 = 5;

/// The line of a buffer at a rank as a text, where there is memory for it.
fn line_text<H: ResultLists>(alloc: Global, held: &H, buffer: u32, rank: Rank) -> Option<MemorySink>
    requires gives { H.can_give held.now }
    requires buffer { buffer < length (H.outline held.now).buffers }
    requires rank { rank < (H.outline held.now).ranks }
    ensures { IsMade (H.outline held.now) (H.lists held.now) buffer rank result }
{
    let size = held.list(buffer, rank).len() as u64;
    let room = WIDEST.saturating_mul(size).saturating_add(BESIDE);
    // The piece is taken first, so that its memory serves the next line's piece: the text is kept.
    let mut out = Pieces::open(alloc).ok()?;
    let mut sink = MemorySink::with_room(alloc, IoTurns::new(alloc), room).ok()?;
    put_line_at(&mut out, &mut sink, held, buffer, rank, None).ok()?;
    out.end(&mut sink).ok()?;
    Some(sink)
}

/// How many bytes the lists of a buffer have together.
fn bytes_of<H: ResultLists>(held: &H, buffer: u32) -> u64
    requires gives { H.can_give held.now }
    requires buffer { buffer < length (H.outline held.now).buffers }
{
    let mut bytes = 0u64;
    for rank in 0..held.shape().ranks() {
        bytes = bytes.saturating_add(held.list(buffer, rank).len() as u64);
    }
    bytes
}

/// Whether the lists that are printed are too short to be shared among threads.
fn is_short<H: ResultLists>(held: &H) -> bool
    requires gives { H.can_give held.now }
{
    let shape = held.shape();
    shape.recall_form();
    let mut bytes = 0u64;
    for buffer in shape.prints() {
        bytes = bytes.saturating_add(bytes_of(held, *buffer));
    }
    bytes < FEW
}

/// How many lines a result has.
fn line_count(shape: &Shape) -> usize
    ensures value { result ≡ length shape.now.prints * shape.now.ranks }
    ensures at_most { result ≤ 32768 }
{
    shape.recall_form();
    shape.prints().len() * shape.ranks() as usize
}

/// The text of the line with this number, where there is memory for it.
fn numbered_text<H: ResultLists>(alloc: Global, held: &H, number: usize) -> Option<MemorySink>
    requires line { number < length (H.outline held.now).prints * (H.outline held.now).ranks }
    requires gives { H.can_give held.now }
    ensures { IsMade (H.outline held.now) (H.lists held.now) (get_or (H.outline held.now).prints (number / (H.outline held.now).ranks) 0)
        (number % (H.outline held.now).ranks) result }
{
    let shape = held.shape();
    shape.recall_form();
    let ranks = shape.ranks() as usize;
    let buffer = shape.prints()[number / ranks];
    line_text(alloc, held, buffer, (number % ranks) as Rank)
}

/// The lines of a result as texts, made by so many threads at most, the caller among them; each takes the next line that none has taken.
/// There are none where that isn't worth it, and where there is no memory for one its place is empty.
fn line_texts<R: Threads + Sync, H: ResultLists + Sync>(
    rt: &R,
    alloc: Global,
    threads: u32,
    held: &H,
) -> Vec<Option<MemorySink>>
    requires threads { 0 < threads }
    requires gives { H.can_give held.now }
    ensures { AreMade (H.outline held.now) (H.lists held.now) result.items }
{
    if threads == 1 || is_short(held) {
        return Vec::new(alloc);
    }
    let made = map_indices(
        rt,
        alloc,
        threads as usize,
        line_count(held.shape()),
        &|number: usize|
            requires { (number < length (H.outline held.now).prints * (H.outline held.now).ranks) × H.can_give held.now }
            ensures { IsMade (H.outline held.entry.now) (H.lists held.entry.now)
                (get_or (H.outline held.entry.now).prints (number / (H.outline held.entry.now).ranks) 0)
                (number % (H.outline held.entry.now).ranks) result }
        { numbered_text(alloc, held, number) },
    );
    match made {
        Ok(texts) => texts,
        Err(_) => Vec::new(alloc),
    }
}

/// Writes the text of a result and finishes the sink, as `write_result` does. Where the lists that are printed are long, so many threads
/// at most, the caller among them, make its lines before the first byte is written, in memory that they take for them; what they can't
/// make, since memory or threads ran out, the call makes itself as it writes. Once the first byte is written no memory is taken, and no
/// thread is started.
///
/// At `Failed` the count of the sink's faults rose, and a beginning of the text stands.
pub fn write_result_by<R: Threads + Sync, K: Sink, H: ResultLists + Sync>(
    rt: &R,
    alloc: Global,
    threads: u32,
    out: &mut Pieces,
    sink: &mut K,
    held: &H,
) -> Result<(), Failed>
    requires threads { 0 < threads }
    requires empty { out.old ≡ [] }
    requires gives { H.can_give held.now }
    ensures ends { EndsWith (K.outflow sink.old) (K.outflow sink.new) (text_of (H.outline held.now) (H.lists held.now)) result }
{
    let texts = line_texts(rt, alloc, threads, held);
    put_prints(out, sink, held, texts.as_slice())?;
    rest_line(out, sink)?;
    out.end(sink)
}
