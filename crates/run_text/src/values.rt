//! The values of a line, many at once.

ghost use Rattle.std.specs.Prelude.{ℕ, ◌≡◌, ◌<◌, ◌≤◌, ◌+◌, ◌*◌, ◌++◌, ◌∷◌, drop, length};
ghost use Rattle.std.specs.List.{flat_map};
ghost use Rattle.std.specs.Fmt.{decimal};
ghost use Rattle.ptl_types.specs.Operations.{bytes_of, span};
ghost use Rattle.coll_text.specs.Elements.{elements, value_word};
ghost use Rattle.run_text.specs.Putting.{Puts};

use crate::pieces::Pieces;
use coll_text::printed_value;
use itoa::write_digits;
use lane_ops::elements::read_pattern;
use port_io::{Failed, Sink};
use ptl_types::ElemType;

/// How many values are written at once.
const MANY: usize = 64;

/// How many bytes they have at most: a space, a minus sign and twenty digits each.
const BLOCK: usize = 1_408;

/// Writes a byte before a place, and answers its place.
fn mark(block: &mut [u8], at: usize, byte: u8) -> usize
    requires nonempty { 0 < at }
    requires inside { at ≤ length block.old }
    ensures place { result + 1 ≡ at }
    ensures written { drop result block.new ≡ byte ∷ drop at block.old }
{
    block[at - 1] = byte;
    at - 1
}

/// Writes a number so that it ends at `end`. It answers where it begins.
fn write_number(number: u64, block: &mut [u8], end: usize) -> usize
    requires room { 20 ≤ end }
    requires inside { end ≤ length block.old }
    ensures near { end ≤ result + 20 }
    ensures within { result ≤ end }
    ensures written { drop result block.new ≡ decimal number ++ drop end block.old }
{
    write_digits(number, block, end)
}

/// Writes a space and the word of a value, from its bit pattern, so that they end at `end`. It answers where they begin.
fn write_value(ty: ElemType, n: u64, block: &mut [u8], end: usize) -> usize
    requires pattern { n < span ty }
    requires room { 22 ≤ end }
    requires inside { end ≤ length block.old }
    ensures near { end ≤ result + 22 }
    ensures within { result ≤ end }
    ensures written { drop result block.new ≡ (32 ∷ value_word ty n) ++ drop end block.old }
{
    let (negative, number) = printed_value(ty, n);
    let start = write_number(number, block, end);
    if negative {
        let sign = mark(block, start, b'-');
        return mark(block, sign, b' ');
    }
    mark(block, start, b' ')
}

/// Writes a space and each value of whole elements so that they end where the block does. It answers where they begin.
fn write_values(ty: ElemType, bytes: &[u8], block: &mut [u8]) -> usize
    requires { (n : ℕ) × (length bytes.now ≡ n * bytes_of ty) × (n * 22 ≤ length block.old) }
    ensures within { result ≤ length block.new }
    ensures written { drop result block.new ≡ flat_map (λ x. 32 ∷ value_word ty x) (elements ty bytes.now) }
{
    let size = ty.size() as usize;
    let mut rest = bytes;
    let mut at = block.len();
    while rest.len() >= size {
        let (front, element) = rest.split_at(rest.len() - size);
        at = write_value(ty, read_pattern(ty, element), block, at);
        rest = front;
    }
    at
}

/// Adds a space and a value for each of at most 64 elements.
fn put_many<K: Sink>(
    out: &mut Pieces,
    sink: &mut K,
    ty: ElemType,
    bytes: &[u8],
) -> Result<(), Failed>
    requires { (n : ℕ) × (length bytes.now ≡ n * bytes_of ty) × (n ≤ 64) }
    ensures { Puts (K.outflow sink.old) (K.outflow sink.new) out.old out.new
        (flat_map (λ x. 32 ∷ value_word ty x) (elements ty bytes.now)) result }
{
    let mut block = [0; BLOCK];
    let start = write_values(ty, bytes, &mut block);
    out.put(sink, &block[start..])
}

/// How many of so many bytes are written at once: whole elements of this size, 64 at most.
fn share(len: usize, size: usize) -> usize
    requires nonempty { 0 < size }
    requires one { size ≤ len }
    ensures whole { (n : ℕ) × (result ≡ n * size) × (n ≤ 64) }
    ensures some { 0 < result }
    ensures within { result ≤ len }
{
    (len / size).min(MANY) * size
}

/// Adds a space and a value for each element.
pub(crate) fn put_values<K: Sink>(
    out: &mut Pieces,
    sink: &mut K,
    ty: ElemType,
    bytes: &[u8],
) -> Result<(), Failed>
    ensures { Puts (K.outflow sink.old) (K.outflow sink.new) out.old out.new
        (flat_map (λ x. 32 ∷ value_word ty x) (elements ty bytes.now)) result }
{
    let size = ty.size() as usize;
    let mut rest = bytes;
    while rest.len() >= size {
        let (many, behind) = rest.split_at(share(rest.len(), size));
        put_many(out, sink, ty, many)?;
        rest = behind;
    }
    Ok(())
}
