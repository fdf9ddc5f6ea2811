//! Each operation on the bit patterns of a type.

ghost use Rattle.std.specs.Prelude.{◌≡◌, ◌<◌, ◌+◌, ◌*◌, ◌%◌};
ghost use Rattle.ptl_types.specs.Operations.{op, start_value, span, order_key};
ghost use Rattle.op_laws.specs.Laws.{Swaps, Commutes, Associates, Starts, Stays, Absorbs};
ghost use Rattle.op_laws.proofs.OpLaws.{swaps, commutes, associates, starts, stays, absorbs};
ghost use Rattle.ptl_types.specs.declared.elements.AtomicOp.{AtomicOp};
ghost use Rattle.ptl_types.specs.declared.elements.AtomicOp.TheVariants.{Min, Max, Sum, Prod, Lor, Land, Bor, Band, Lxor, Bxor};

use ptl_types::{AtomicOp, ElemType};

/// An atomic operation. An element is its bit pattern, a number below 2 to the type's width; a signed one is two's
/// complement. Each implementation proves that partial results may be combined in any order, beginning with the starting
/// value.
pub trait Combine {
    ghost operation: { AtomicOp };

    /// The operation of two elements.
    fn op(&self, ty: ElemType, x: u64, y: u64) -> u64
        requires patterns { (x < span ty) × (y < span ty) }
        ensures value { result ≡ op operation ty x y }
        ensures pattern { result < span ty };

    /// The value that a reduction begins with.
    fn start(&self, ty: ElemType) -> u64
        ensures value { result ≡ start_value operation ty }
        ensures pattern { result < span ty };

    ghost operands_swap: { Swaps operation };

    ghost operands_commute: { Commutes operation };

    ghost operands_associate: { Associates operation };

    ghost start_stays: { Starts operation };

    ghost values_stay: { Stays operation };

    ghost start_is_absorbed: { Absorbs operation };
}

/// A number by whose order the type's order goes.
fn key(ty: ElemType, x: u64) -> u64
    requires { x < span ty }
    ensures { result ≡ order_key ty x }
{
    match ty {
        ElemType::U8 | ElemType::U16 | ElemType::U32 | ElemType::U64 => x,
        ElemType::I8 => (x + (1 << 7)) % (1 << 8),
        ElemType::I16 => (x + (1 << 15)) % (1 << 16),
        ElemType::I32 => (x + (1 << 31)) % (1 << 32),
        ElemType::I64 => x.wrapping_add(1 << 63),
    }
}

fn sum_of(ty: ElemType, x: u64, y: u64) -> u64
    requires { (x < span ty) × (y < span ty) }
    ensures { result ≡ (x + y) % span ty }
{
    match ty {
        ElemType::U8 | ElemType::I8 => (x + y) % (1 << 8),
        ElemType::U16 | ElemType::I16 => (x + y) % (1 << 16),
        ElemType::U32 | ElemType::I32 => (x + y) % (1 << 32),
        ElemType::U64 | ElemType::I64 => x.wrapping_add(y),
    }
}

fn product_of(ty: ElemType, x: u64, y: u64) -> u64
    requires { (x < span ty) × (y < span ty) }
    ensures { result ≡ (x * y) % span ty }
{
    match ty {
        ElemType::U8 | ElemType::I8 => x.wrapping_mul(y) % (1 << 8),
        ElemType::U16 | ElemType::I16 => x.wrapping_mul(y) % (1 << 16),
        ElemType::U32 | ElemType::I32 => x.wrapping_mul(y) % (1 << 32),
        ElemType::U64 | ElemType::I64 => x.wrapping_mul(y),
    }
}

/// The greatest pattern of the type.
fn all_ones(ty: ElemType) -> u64
    ensures { result + 1 ≡ span ty }
{
    match ty {
        ElemType::U8 | ElemType::I8 => (1 << 8) - 1,
        ElemType::U16 | ElemType::I16 => (1 << 16) - 1,
        ElemType::U32 | ElemType::I32 => (1 << 32) - 1,
        ElemType::U64 | ElemType::I64 => u64::MAX,
    }
}

/// The pattern of the type's greatest value.
fn greatest(ty: ElemType) -> u64
    ensures { result ≡ start_value Min ty }
{
    match ty {
        ElemType::I8 => (1 << 7) - 1,
        ElemType::I16 => (1 << 15) - 1,
        ElemType::I32 => (1 << 31) - 1,
        ElemType::I64 => (1 << 63) - 1,
        _ => all_ones(ty),
    }
}

/// The pattern of the type's least value.
fn least(ty: ElemType) -> u64
    ensures { result ≡ start_value Max ty }
{
    match ty {
        ElemType::I8 => 1 << 7,
        ElemType::I16 => 1 << 15,
        ElemType::I32 => 1 << 31,
        ElemType::I64 => 1 << 63,
        _ => 0,
    }
}

/// The lesser by the type's order; it begins with the type's greatest value.
#[derive(Clone, Copy, Debug)]
pub struct Minimum;

impl Combine for Minimum {
    ghost operation = { Min };

    fn op(&self, ty: ElemType, x: u64, y: u64) -> u64 {
        if key(ty, x) <= key(ty, y) { x } else { y }
    }

    fn start(&self, ty: ElemType) -> u64 {
        greatest(ty)
    }

    ghost operands_swap = { swaps Min };

    ghost operands_commute = { commutes Min };

    ghost operands_associate = { associates Min };

    ghost start_stays = { starts Min };

    ghost values_stay = { stays Min };

    ghost start_is_absorbed = { absorbs Min };
}

/// The greater by the type's order; it begins with the type's least value.
#[derive(Clone, Copy, Debug)]
pub struct Maximum;

impl Combine for Maximum {
    ghost operation = { Max };

    fn op(&self, ty: ElemType, x: u64, y: u64) -> u64 {
        if key(ty, x) <= key(ty, y) { y } else { x }
    }

    fn start(&self, ty: ElemType) -> u64 {
        least(ty)
    }

    ghost operands_swap = { swaps Max };

    ghost operands_commute = { commutes Max };

    ghost operands_associate = { associates Max };

    ghost start_stays = { starts Max };

    ghost values_stay = { stays Max };

    ghost start_is_absorbed = { absorbs Max };
}

/// The sum, which wraps; it begins with 0.
#[derive(Clone, Copy, Debug)]
pub struct Sum;

impl Combine for Sum {
    ghost operation = { Sum };

    fn op(&self, ty: ElemType, x: u64, y: u64) -> u64 {
        sum_of(ty, x, y)
    }

    fn start(&self, ty: ElemType) -> u64 {
        0
    }

    ghost operands_swap = { swaps Sum };

    ghost operands_commute = { commutes Sum };

    ghost operands_associate = { associates Sum };

    ghost start_stays = { starts Sum };

    ghost values_stay = { stays Sum };

    ghost start_is_absorbed = { absorbs Sum };
}

/// The product, which wraps; it begins with 1.
#[derive(Clone, Copy, Debug)]
pub struct Product;

impl Combine for Product {
    ghost operation = { Prod };

    fn op(&self, ty: ElemType, x: u64, y: u64) -> u64 {
        product_of(ty, x, y)
    }

    fn start(&self, ty: ElemType) -> u64 {
        1
    }

    ghost operands_swap = { swaps Prod };

    ghost operands_commute = { commutes Prod };

    ghost operands_associate = { associates Prod };

    ghost start_stays = { starts Prod };

    ghost values_stay = { stays Prod };

    ghost start_is_absorbed = { absorbs Prod };
}

/// 1 where either isn't 0, else 0; it begins with 0.
#[derive(Clone, Copy, Debug)]
pub struct LogicalOr;

impl Combine for LogicalOr {
    ghost operation = { Lor };

    fn op(&self, ty: ElemType, x: u64, y: u64) -> u64 {
        u64::from(x != 0 || y != 0)
    }

    fn start(&self, ty: ElemType) -> u64 {
        0
    }

    ghost operands_swap = { swaps Lor };

    ghost operands_commute = { commutes Lor };

    ghost operands_associate = { associates Lor };

    ghost start_stays = { starts Lor };

    ghost values_stay = { stays Lor };

    ghost start_is_absorbed = { absorbs Lor };
}

/// 1 where neither is 0, else 0; it begins with 1.
#[derive(Clone, Copy, Debug)]
pub struct LogicalAnd;

impl Combine for LogicalAnd {
    ghost operation = { Land };

    fn op(&self, ty: ElemType, x: u64, y: u64) -> u64 {
        u64::from(x != 0 && y != 0)
    }

    fn start(&self, ty: ElemType) -> u64 {
        1
    }

    ghost operands_swap = { swaps Land };

    ghost operands_commute = { commutes Land };

    ghost operands_associate = { associates Land };

    ghost start_stays = { starts Land };

    ghost values_stay = { stays Land };

    ghost start_is_absorbed = { absorbs Land };
}

/// Bitwise or; it begins with 0.
#[derive(Clone, Copy, Debug)]
pub struct BitwiseOr;

impl Combine for BitwiseOr {
    ghost operation = { Bor };

    fn op(&self, ty: ElemType, x: u64, y: u64) -> u64 {
        x | y
    }

    fn start(&self, ty: ElemType) -> u64 {
        0
    }

    ghost operands_swap = { swaps Bor };

    ghost operands_commute = { commutes Bor };

    ghost operands_associate = { associates Bor };

    ghost start_stays = { starts Bor };

    ghost values_stay = { stays Bor };

    ghost start_is_absorbed = { absorbs Bor };
}

/// Bitwise and; it begins with all ones.
#[derive(Clone, Copy, Debug)]
pub struct BitwiseAnd;

impl Combine for BitwiseAnd {
    ghost operation = { Band };

    fn op(&self, ty: ElemType, x: u64, y: u64) -> u64 {
        x & y
    }

    fn start(&self, ty: ElemType) -> u64 {
        all_ones(ty)
    }

    ghost operands_swap = { swaps Band };

    ghost operands_commute = { commutes Band };

    ghost operands_associate = { associates Band };

    ghost start_stays = { starts Band };

    ghost values_stay = { stays Band };

    ghost start_is_absorbed = { absorbs Band };
}

/// 1 where exactly one isn't 0, else 0; it begins with 0.
#[derive(Clone, Copy, Debug)]
pub struct LogicalXor;

impl Combine for LogicalXor {
    ghost operation = { Lxor };

    fn op(&self, ty: ElemType, x: u64, y: u64) -> u64 {
        u64::from((x != 0) != (y != 0))
    }

    fn start(&self, ty: ElemType) -> u64 {
        0
    }

    ghost operands_swap = { swaps Lxor };

    ghost operands_commute = { commutes Lxor };

    ghost operands_associate = { associates Lxor };

    ghost start_stays = { starts Lxor };

    ghost values_stay = { stays Lxor };

    ghost start_is_absorbed = { absorbs Lxor };
}

/// Bitwise exclusive or; it begins with 0.
#[derive(Clone, Copy, Debug)]
pub struct BitwiseXor;

impl Combine for BitwiseXor {
    ghost operation = { Bxor };

    fn op(&self, ty: ElemType, x: u64, y: u64) -> u64 {
        x ^ y
    }

    fn start(&self, ty: ElemType) -> u64 {
        0
    }

    ghost operands_swap = { swaps Bxor };

    ghost operands_commute = { commutes Bxor };

    ghost operands_associate = { associates Bxor };

    ghost start_stays = { starts Bxor };

    ghost values_stay = { stays Bxor };

    ghost start_is_absorbed = { absorbs Bxor };
}

/// The operation of two elements, each its bit pattern.
pub fn combine_elements(operation: AtomicOp, ty: ElemType, x: u64, y: u64) -> u64
    requires patterns { (x < span ty) × (y < span ty) }
    ensures value { result ≡ op operation ty x y }
    ensures pattern { result < span ty }
{
    match operation {
        AtomicOp::Min => Minimum.op(ty, x, y),
        AtomicOp::Max => Maximum.op(ty, x, y),
        AtomicOp::Sum => Sum.op(ty, x, y),
        AtomicOp::Prod => Product.op(ty, x, y),
        AtomicOp::Lor => LogicalOr.op(ty, x, y),
        AtomicOp::Land => LogicalAnd.op(ty, x, y),
        AtomicOp::Bor => BitwiseOr.op(ty, x, y),
        AtomicOp::Band => BitwiseAnd.op(ty, x, y),
        AtomicOp::Lxor => LogicalXor.op(ty, x, y),
        AtomicOp::Bxor => BitwiseXor.op(ty, x, y),
    }
}

/// The value that a reduction by the operation begins with, as a bit pattern.
pub fn start_value(operation: AtomicOp, ty: ElemType) -> u64
    ensures value { result ≡ start_value operation ty }
    ensures pattern { result < span ty }
{
    match operation {
        AtomicOp::Min => Minimum.start(ty),
        AtomicOp::Max => Maximum.start(ty),
        AtomicOp::Sum => Sum.start(ty),
        AtomicOp::Prod => Product.start(ty),
        AtomicOp::Lor => LogicalOr.start(ty),
        AtomicOp::Land => LogicalAnd.start(ty),
        AtomicOp::Bor => BitwiseOr.start(ty),
        AtomicOp::Band => BitwiseAnd.start(ty),
        AtomicOp::Lxor => LogicalXor.start(ty),
        AtomicOp::Bxor => BitwiseXor.start(ty),
    }
}
