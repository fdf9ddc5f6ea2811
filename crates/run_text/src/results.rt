//! The whole text of a result.

ghost use Rattle.std.specs.Prelude.{◌≡◌, ◌<◌, ◌≤◌, [], IfSome, length};
ghost use Rattle.std.specs.List.{flat_map};
ghost use Rattle.coll_shape.specs.Folding.{at};
ghost use Rattle.coll_shape.specs.Meaning.{Lists, lists_of};
ghost use Rattle.coll_shape.specs.Outline.{Outline};
ghost use Rattle.run_text.specs.Lines.{buffer_lines, line_at, text_of};
ghost use Rattle.run_text.specs.Made.{AreMade, AreMadeFrom, IsMade};
ghost use Rattle.run_text.specs.Putting.{Puts, EndsWith};

use crate::lines::{rest_line, result_line};
use crate::pieces::Pieces;
use coll_shape::Shape;
use port_io::{Failed, MemorySink, Sink};
use ptl_types::Rank;

/// The lists that are printed, with the shape that says which these are.
pub trait ResultLists {
    /// The shape.
    ghost outline: { Self → Outline };

    /// For each buffer its list at each rank.
    ghost lists: { Self → Lists };

    /// Whether it can give the lists.
    ghost can_give: { Self → Type 0 };

    /// The shape.
    fn shape(&self) -> &Shape
        ensures { result.now ≡ outline self.now };

    /// The bytes of a buffer's list at a rank: its elements in order, each little-endian.
    fn list(&self, buffer: u32, rank: Rank) -> &[u8]
        requires gives { can_give self.now }
        requires buffer { buffer < length (outline self.now).buffers }
        requires rank { rank < (outline self.now).ranks }
        ensures { result.now ≡ at (lists_of (lists self.now) buffer) rank };
}

/// Adds the line of a buffer at a rank, which may be made as a text.
pub(crate) fn put_line_at<K: Sink, H: ResultLists>(
    out: &mut Pieces,
    sink: &mut K,
    held: &H,
    buffer: u32,
    rank: Rank,
    text: Option<&Option<MemorySink>>,
) -> Result<(), Failed>
    requires gives { H.can_give held.now }
    requires buffer { buffer < length (H.outline held.now).buffers }
    requires rank { rank < (H.outline held.now).ranks }
    requires made { IfSome text (λ t. IsMade (H.outline held.now) (H.lists held.now) buffer rank t.now) }
    ensures { Puts (K.outflow sink.old) (K.outflow sink.new) out.old out.new
        (line_at (H.outline held.now) (H.lists held.now) buffer rank) result }
{
    if let Some(Some(text)) = text {
        return out.put(sink, text.as_slice());
    }
    let about = &held.shape().buffers()[buffer as usize];
    let list = held.list(buffer, rank);
    result_line(out, sink, about.name.as_slice(), rank, about.ty, list)
}

/// Adds the lines of a buffer, one a rank. From the place `first` on texts may hold them, by rank.
fn put_buffer<K: Sink, H: ResultLists>(
    out: &mut Pieces,
    sink: &mut K,
    held: &H,
    buffer: u32,
    texts: &[Option<MemorySink>],
    first: usize,
) -> Result<(), Failed>
    requires gives { H.can_give held.now }
    requires buffer { buffer < length (H.outline held.now).buffers }
    requires first { first ≤ 32768 }
    requires made { AreMadeFrom (H.outline held.now) (H.lists held.now) buffer first texts.now }
    ensures { Puts (K.outflow sink.old) (K.outflow sink.new) out.old out.new
        (buffer_lines (H.outline held.now) (H.lists held.now) buffer) result }
{
    for rank in 0..held.shape().ranks() {
        let text = texts.get(first + rank as usize);
        put_line_at(out, sink, held, buffer, rank, text)?;
    }
    Ok(())
}

/// Adds the lines of each buffer that is printed, in order. Of these the first may be made as texts.
pub(crate) fn put_prints<K: Sink, H: ResultLists>(
    out: &mut Pieces,
    sink: &mut K,
    held: &H,
    texts: &[Option<MemorySink>],
) -> Result<(), Failed>
    requires made { AreMade (H.outline held.now) (H.lists held.now) texts.now }
    requires gives { H.can_give held.now }
    ensures { Puts (K.outflow sink.old) (K.outflow sink.new) out.old out.new
        (flat_map (buffer_lines (H.outline held.now) (H.lists held.now)) (H.outline held.now).prints) result }
{
    let shape = held.shape();
    shape.recall_form();
    let ranks = shape.ranks() as usize;
    let mut first = 0;
    for buffer in shape.prints() {
        put_buffer(out, sink, held, *buffer, texts, first)?;
        first += ranks;
    }
    Ok(())
}

/// Adds the text of a result: the lines of each buffer that is printed, in order, one a rank, and the line `rest`.
///
/// At `Failed` the count of the sink's faults rose, and a beginning of the text stands. It takes no memory.
pub fn put_result<K: Sink, H: ResultLists>(
    out: &mut Pieces,
    sink: &mut K,
    held: &H,
) -> Result<(), Failed>
    requires gives { H.can_give held.now }
    ensures { Puts (K.outflow sink.old) (K.outflow sink.new) out.old out.new (text_of (H.outline held.now) (H.lists held.now)) result }
{
    put_prints(out, sink, held, &[])?;
    rest_line(out, sink)
}

/// Writes the text of a result and finishes the sink.
///
/// At `Failed` the count of the sink's faults rose, and a beginning of the text stands. It takes no memory.
pub fn write_result<K: Sink, H: ResultLists>(
    out: &mut Pieces,
    sink: &mut K,
    held: &H,
) -> Result<(), Failed>
    requires empty { out.old ≡ [] }
    requires gives { H.can_give held.now }
    ensures ends { EndsWith (K.outflow sink.old) (K.outflow sink.new) (text_of (H.outline held.now) (H.lists held.now)) result }
{
    put_result(out, sink, held)?;
    out.end(sink)
}
