//! The operations on little-endian bytes in place, element by element: the tests of operation and type stand outside the
//! loops, which LLVM may then make vector code of.

ghost use Rattle.std.specs.Prelude.{◌≡◌, ◌<◌, ◌≤◌, ◌+◌, ◌*◌, ◌/◌, ◌%◌, length};
ghost use Rattle.ptl_types.specs.Elements.{combined, little_endian, repeated, starting, written};
ghost use Rattle.lane_ops.specs.Places.{combined_at};
ghost use Rattle.ptl_types.specs.Operations.{op, bytes_of, span};

use crate::elements::{
    Element, Signed8, Signed16, Signed32, Signed64, Unsigned8, Unsigned16, Unsigned32, Unsigned64,
};
use crate::operations::{
    BitwiseAnd, BitwiseOr, BitwiseXor, Combine, LogicalAnd, LogicalOr, LogicalXor, Maximum,
    Minimum, Product, Sum, start_value,
};
use ptl_types::{AtomicOp, ElemType};

/// Combines the element of number i of both lists.
fn combine_at<E: Element, C: Combine>(operation: &C, into: &mut [u8], with: &[u8], i: usize)
    requires into { i * bytes_of E.ty + bytes_of E.ty ≤ length into.old }
    requires with { i * bytes_of E.ty + bytes_of E.ty ≤ length with.now }
    ensures { into.new ≡ combined_at (op C.operation E.ty) (bytes_of E.ty) i into.old with.now }
{
    let size = E::size();
    let from = i * size;
    let place = &mut into[from..from + size];
    let combined = operation.op(E::ty(), E::read(place), E::read(&with[from..from + size]));
    E::write(place, combined);
}

/// One pass over all elements.
fn combine_all<E: Element, C: Combine>(operation: &C, into: &mut [u8], with: &[u8])
    requires same { length into.old ≡ length with.now }
    requires whole { length into.old % bytes_of E.ty ≡ 0 }
    ensures { into.new ≡ combined C.operation E.ty into.old with.now }
{
    for i in 0..into.len() / E::size() {
        combine_at::<E, C>(operation, into, with, i);
    }
}

/// One pass with the loop of its type.
fn combine_as<C: Combine>(operation: &C, ty: ElemType, into: &mut [u8], with: &[u8])
    requires same { length into.old ≡ length with.now }
    requires whole { length into.old % bytes_of ty ≡ 0 }
    ensures { into.new ≡ combined C.operation ty into.old with.now }
{
    match ty {
        ElemType::U8 => combine_all::<Unsigned8, C>(operation, into, with),
        ElemType::I8 => combine_all::<Signed8, C>(operation, into, with),
        ElemType::U16 => combine_all::<Unsigned16, C>(operation, into, with),
        ElemType::I16 => combine_all::<Signed16, C>(operation, into, with),
        ElemType::U32 => combine_all::<Unsigned32, C>(operation, into, with),
        ElemType::I32 => combine_all::<Signed32, C>(operation, into, with),
        ElemType::U64 => combine_all::<Unsigned64, C>(operation, into, with),
        ElemType::I64 => combine_all::<Signed64, C>(operation, into, with),
    }
}

/// Combines each element of `into` with the one of `with` at its place, in place: both are lists of whole elements of the
/// type, little-endian, and equally long.
pub fn combine(op: AtomicOp, ty: ElemType, into: &mut [u8], with: &[u8])
    requires same { length into.old ≡ length with.now }
    requires whole { length into.old % bytes_of ty ≡ 0 }
    ensures does { into.new ≡ combined op ty into.old with.now }
{
    match op {
        AtomicOp::Min => combine_as(&Minimum, ty, into, with),
        AtomicOp::Max => combine_as(&Maximum, ty, into, with),
        AtomicOp::Sum => combine_as(&Sum, ty, into, with),
        AtomicOp::Prod => combine_as(&Product, ty, into, with),
        AtomicOp::Lor => combine_as(&LogicalOr, ty, into, with),
        AtomicOp::Land => combine_as(&LogicalAnd, ty, into, with),
        AtomicOp::Bor => combine_as(&BitwiseOr, ty, into, with),
        AtomicOp::Band => combine_as(&BitwiseAnd, ty, into, with),
        AtomicOp::Lxor => combine_as(&LogicalXor, ty, into, with),
        AtomicOp::Bxor => combine_as(&BitwiseXor, ty, into, with),
    }
}

/// Writes the element of number i.
fn fill_at<E: Element>(into: &mut [u8], x: u64, i: usize)
    requires room { i * bytes_of E.ty + bytes_of E.ty ≤ length into.old }
    requires pattern { x < span E.ty }
    ensures { into.new ≡ written (i * bytes_of E.ty) (little_endian (bytes_of E.ty) x) into.old }
{
    let size = E::size();
    let from = i * size;
    E::write(&mut into[from..from + size], x);
}

/// Writes every element.
fn fill_all<E: Element>(into: &mut [u8], x: u64)
    requires whole { length into.old % bytes_of E.ty ≡ 0 }
    requires pattern { x < span E.ty }
    ensures { into.new ≡ repeated (bytes_of E.ty) (length into.old / bytes_of E.ty) x }
{
    for i in 0..into.len() / E::size() {
        fill_at::<E>(into, x, i);
    }
}

fn fill_as(ty: ElemType, into: &mut [u8], x: u64)
    requires whole { length into.old % bytes_of ty ≡ 0 }
    requires pattern { x < span ty }
    ensures { into.new ≡ repeated (bytes_of ty) (length into.old / bytes_of ty) x }
{
    match ty {
        ElemType::U8 => fill_all::<Unsigned8>(into, x),
        ElemType::I8 => fill_all::<Signed8>(into, x),
        ElemType::U16 => fill_all::<Unsigned16>(into, x),
        ElemType::I16 => fill_all::<Signed16>(into, x),
        ElemType::U32 => fill_all::<Unsigned32>(into, x),
        ElemType::I32 => fill_all::<Signed32>(into, x),
        ElemType::U64 => fill_all::<Unsigned64>(into, x),
        ElemType::I64 => fill_all::<Signed64>(into, x),
    }
}

/// Writes the operation's starting value in each element of `into`, a list of whole elements of the type, little-endian.
pub fn start_values(op: AtomicOp, ty: ElemType, into: &mut [u8])
    requires whole { length into.old % bytes_of ty ≡ 0 }
    ensures does { into.new ≡ starting op ty (length into.old) }
{
    fill_as(ty, into, start_value(op, ty));
}
