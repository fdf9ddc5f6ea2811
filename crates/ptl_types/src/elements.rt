//! The types of an element, and the operations on elements at the target.

ghost use Rattle.std.specs.Prelude.{◌≡◌};
ghost use Rattle.ptl_types.specs.Operations.{bytes_of};

/// The type of an element of an atomic operation: unsigned and two's complement integers, little-endian in memory.
#[derive(Clone, Copy, Debug, PartialEq, Eq)]
pub enum ElemType {
    /// One byte, unsigned.
    U8,
    /// One byte, signed.
    I8,
    /// Two bytes, unsigned.
    U16,
    /// Two bytes, signed.
    I16,
    /// Four bytes, unsigned.
    U32,
    /// Four bytes, signed.
    I32,
    /// Eight bytes, unsigned.
    U64,
    /// Eight bytes, signed.
    I64,
}

impl ElemType {
    /// The size of one element, in bytes.
    pub fn size(self) -> u64
        ensures { result ≡ bytes_of self }
    {
        match self {
            ElemType::U8 | ElemType::I8 => 1,
            ElemType::U16 | ElemType::I16 => 2,
            ElemType::U32 | ElemType::I32 => 4,
            ElemType::U64 | ElemType::I64 => 8,
        }
    }
}

/// The operation of an atomic or a fetch-atomic, element by element (Portals 4.3, atomic operations).
#[derive(Clone, Copy, Debug, PartialEq, Eq)]
pub enum AtomicOp {
    /// The lesser, by the type's order.
    Min,
    /// The greater, by the type's order.
    Max,
    /// The sum, which wraps.
    Sum,
    /// The product, which wraps.
    Prod,
    /// Logical or: 1 where either isn't 0.
    Lor,
    /// Logical and: 1 where neither is 0.
    Land,
    /// Bitwise or.
    Bor,
    /// Bitwise and.
    Band,
    /// Logical exclusive or: 1 where exactly one isn't 0.
    Lxor,
    /// Bitwise exclusive or.
    Bxor,
}

/// The operation of a swap, on one element (Portals 4.3, swap operations).
#[derive(Clone, Copy, Debug, PartialEq, Eq)]
pub enum SwapOp {
    /// The new element is written.
    Swap,
    /// The new element is written where the old one equals the operand.
    Cswap,
    /// The bits that the operand names are taken from the new element.
    Mswap,
}
