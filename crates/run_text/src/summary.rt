//! The summary of a generated run.

ghost use Rattle.std.specs.Prelude.{◌≡◌, ◌<◌, ◌%◌, ◌^◌, [], length, sum};
ghost use Rattle.std.specs.List.{flat_map};
ghost use Rattle.coll_text.specs.Elements.{elements};
ghost use Rattle.run_text.specs.Putting.{Puts, EndsWith};
ghost use Rattle.run_text.specs.Summary.{buffer_sum, sum_line, sum_line_at, summary_head, summary_of};

use crate::lines::rest_line;
use crate::pieces::Pieces;
use crate::results::ResultLists;
use crate::rows::{Rows, put_listed};
use crate::words::{Word, put_line};
use lane_ops::elements::read_pattern;
use port_io::{Failed, Sink};
use ptl_types::ElemType;

/// Adds the first line of a summary: `large`, the number that chose the inputs, and how many ranks, cells and links there are.
///
/// At `Failed` the count of the sink's faults rose, and a beginning of the text stands. It takes no memory.
pub fn summary_head<K: Sink>(
    out: &mut Pieces,
    sink: &mut K,
    k: u32,
    cells: u64,
    links: u64,
) -> Result<(), Failed>
    ensures { Puts (K.outflow sink.old) (K.outflow sink.new) out.old out.new (summary_head k cells links) result }
{
    let words = [
        Word::Number(u64::from(k)),
        Word::Text(b"ranks"),
        Word::Number(64),
        Word::Text(b"cells"),
        Word::Number(cells),
        Word::Text(b"links"),
        Word::Number(links),
    ];
    put_line(out, sink, b"large", &words)
}

/// Adds the line of a buffer: its name, and the sum of its values over all ranks.
///
/// At `Failed` the count of the sink's faults rose, and a beginning of the text stands. It takes no memory.
pub fn sum_line<K: Sink>(
    out: &mut Pieces,
    sink: &mut K,
    name: &[u8],
    sum: u64,
) -> Result<(), Failed>
    ensures { Puts (K.outflow sink.old) (K.outflow sink.new) out.old out.new (sum_line name.now sum) result }
{
    put_line(out, sink, name, &[Word::Number(sum)])
}

/// The elements of a list, added up modulo 2^64.
fn list_sum(ty: ElemType, bytes: &[u8]) -> u64
    ensures { result ≡ sum (elements ty bytes.now) % 2 ^ 64 }
{
    let size = ty.size() as usize;
    let mut rest = bytes;
    let mut total = 0u64;
    while rest.len() >= size {
        let (element, behind) = rest.split_at(size);
        total = total.wrapping_add(read_pattern(ty, element));
        rest = behind;
    }
    total
}

/// The values of a buffer at all ranks, added up modulo 2^64.
fn buffer_sum<H: ResultLists>(held: &H, buffer: u32) -> u64
    requires gives { H.can_give held.now }
    requires buffer { buffer < length (H.outline held.now).buffers }
    ensures { result ≡ buffer_sum (H.outline held.now) (H.lists held.now) buffer }
{
    let shape = held.shape();
    let ty = shape.buffers()[buffer as usize].ty;
    let mut total = 0u64;
    for rank in 0..shape.ranks() {
        total = total.wrapping_add(list_sum(ty, held.list(buffer, rank)));
    }
    total
}

/// The lines of the buffers.
struct SumRows<'a, H>(&'a H);

impl<'a, H> Drop for SumRows<'a, H> {
    fn drop(self) {
        let SumRows(_) = self;
    }
}

impl<'a, H: ResultLists> Rows for SumRows<'a, H> {
    ghost use Rattle.std.specs.Prelude.{◌<◌, length};
    ghost use Rattle.run_text.specs.Summary.{sum_line_at};

    ghost has = { λ rows buffer. H.can_give rows.0.now × (buffer < length (H.outline rows.0.now).buffers) };

    ghost line = { λ rows. sum_line_at (H.outline rows.0.now) (H.lists rows.0.now) };

    fn put<K: Sink>(&self, out: &mut Pieces, sink: &mut K, number: u32) -> Result<(), Failed> {
        let sum = buffer_sum(self.0, number);
        let about = &self.0.shape().buffers()[number as usize];
        sum_line(out, sink, about.name.as_slice(), sum)
    }
}

/// Adds the line of each buffer that is printed, in order.
fn put_sums<K: Sink, H: ResultLists>(out: &mut Pieces, sink: &mut K, held: &H) -> Result<(), Failed>
    requires gives { H.can_give held.now }
    ensures { Puts (K.outflow sink.old) (K.outflow sink.new) out.old out.new
        (flat_map (sum_line_at (H.outline held.now) (H.lists held.now)) (H.outline held.now).prints) result }
{
    let shape = held.shape();
    shape.recall_form();
    put_listed(out, sink, &SumRows(held), shape.prints())
}

/// Adds a summary: its first line, the line of each buffer that is printed, in order, and the line `rest`.
fn put_summary<K: Sink, H: ResultLists>(
    out: &mut Pieces,
    sink: &mut K,
    k: u32,
    cells: u64,
    links: u64,
    held: &H,
) -> Result<(), Failed>
    requires gives { H.can_give held.now }
    ensures { Puts (K.outflow sink.old) (K.outflow sink.new) out.old out.new
        (summary_of k cells links (H.outline held.now) (H.lists held.now)) result }
{
    summary_head(out, sink, k, cells, links)?;
    put_sums(out, sink, held)?;
    rest_line(out, sink)
}

/// Writes the summary of a run of a generated description, whose plan has so many cells and links, and finishes the sink.
/// The values are of unsigned types.
///
/// At `Failed` the count of the sink's faults rose, and a beginning of the text stands. It takes no memory.
pub fn write_summary<K: Sink, H: ResultLists>(
    out: &mut Pieces,
    sink: &mut K,
    k: u32,
    cells: u64,
    links: u64,
    held: &H,
) -> Result<(), Failed>
    requires empty { out.old ≡ [] }
    requires gives { H.can_give held.now }
    ensures ends { EndsWith (K.outflow sink.old) (K.outflow sink.new)
        (summary_of k cells links (H.outline held.now) (H.lists held.now)) result }
{
    put_summary(out, sink, k, cells, links, held)?;
    out.end(sink)
}
