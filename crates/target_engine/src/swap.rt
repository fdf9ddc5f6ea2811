//! The swaps, on one element.

ghost use Rattle.std.specs.Prelude.{◌≡◌, ◌+◌, ◌/◌, ◌%◌, ◌<◌, length};
ghost use Rattle.ptl_types.specs.Elements.{by_element};
ghost use Rattle.ptl_types.specs.Operations.{bytes_of, span, swapped};

use lane_ops::elements::{read_pattern, write_pattern};
use ptl_types::{ElemType, SwapOp};

/// The greatest bit pattern of the type.
fn mask(ty: ElemType) -> u64
    ensures { result + 1 ≡ span ty }
{
    match ty.size() {
        1 => 0xff,
        2 => 0xffff,
        4 => 0xffff_ffff,
        _ => u64::MAX,
    }
}

/// The bits of an operand that name bits of an element.
fn element_bits(ty: ElemType, operand: u64) -> u64
    ensures value { result ≡ operand % span ty }
    ensures small { result < span ty }
{
    match ty {
        ElemType::U8 | ElemType::I8 => operand % 0x100,
        ElemType::U16 | ElemType::I16 => operand % 0x1_0000,
        ElemType::U32 | ElemType::I32 => operand % 0x1_0000_0000,
        ElemType::U64 | ElemType::I64 => operand,
    }
}

/// The bit pattern that a swap writes over `old`, where `new` came.
#[tactic(auto, using(crate::proofs::Swapping::masked_lt))]
fn swapped(op: SwapOp, ty: ElemType, operand: u64, old: u64, new: u64) -> u64
    requires old { old < span ty }
    requires new { new < span ty }
    ensures value { result ≡ swapped op ty operand old new }
    ensures pattern { result < span ty }
{
    match op {
        SwapOp::Swap => new,
        SwapOp::Cswap => { if old == operand { new } else { old } }
        SwapOp::Mswap => old & (mask(ty) - element_bits(ty, operand)) | new & operand,
    }
}

/// What a swap writes over the element `old`: `new` holds the element that came, and then that.
pub fn swap_element(op: SwapOp, ty: ElemType, operand: u64, old: &[u8], new: &mut [u8])
    requires old { length old.now ≡ bytes_of ty }
    requires new { length new.old ≡ bytes_of ty }
    ensures { new.new ≡ by_element (swapped op ty operand) (bytes_of ty) (length old.now / bytes_of ty) old.now new.old }
{
    let before = read_pattern(ty, old);
    let came = read_pattern(ty, new);
    write_pattern(ty, new, swapped(op, ty, operand, before, came));
}
