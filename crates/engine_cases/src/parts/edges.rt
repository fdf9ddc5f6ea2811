//! Edge values and what the operations make of them, computed outside the program.

use ptl_types::{AtomicOp, ElemType};

/// An operation at a type: its starting value; then what it makes of each edge value and the next one; then of each and the
/// one three places on.
pub struct Row {
    pub op: AtomicOp,
    pub ty: ElemType,
    pub start: u64,
    pub next: [u64; 6],
    pub third: [u64; 6],
}

/// The edge values of a type, as bit patterns: least, greatest, 0, 1, all ones, one bit.
pub fn edges(ty: ElemType) -> [u64; 6] {
    match ty {
        ElemType::U8 => [0, 0xff, 0, 1, 0xff, 0x10],
        ElemType::I8 => [0x80, 0x7f, 0, 1, 0xff, 0x10],
        ElemType::U16 => [0, 0xffff, 0, 1, 0xffff, 0x100],
        ElemType::I16 => [0x8000, 0x7fff, 0, 1, 0xffff, 0x100],
        ElemType::U32 => [0, 0xffffffff, 0, 1, 0xffffffff, 0x10000],
        ElemType::I32 => [0x80000000, 0x7fffffff, 0, 1, 0xffffffff, 0x10000],
        ElemType::U64 => [0, 0xffffffffffffffff, 0, 1, 0xffffffffffffffff, 0x100000000],
        ElemType::I64 => [
            0x8000000000000000,
            0x7fffffffffffffff,
            0,
            1,
            0xffffffffffffffff,
            0x100000000,
        ],
    }
}

/// The rows of min.
pub const MIN: &[Row] = &[
    Row {
        op: AtomicOp::Min,
        ty: ElemType::U8,
        start: 0xff,
        next: [0, 0, 0, 1, 0x10, 0],
        third: [0, 0xff, 0, 0, 0xff, 0],
    },
    Row {
        op: AtomicOp::Min,
        ty: ElemType::I8,
        start: 0x7f,
        next: [0x80, 0, 0, 0xff, 0xff, 0x80],
        third: [0x80, 0xff, 0, 0x80, 0xff, 0],
    },
    Row {
        op: AtomicOp::Min,
        ty: ElemType::U16,
        start: 0xffff,
        next: [0, 0, 0, 1, 0x100, 0],
        third: [0, 0xffff, 0, 0, 0xffff, 0],
    },
    Row {
        op: AtomicOp::Min,
        ty: ElemType::I16,
        start: 0x7fff,
        next: [0x8000, 0, 0, 0xffff, 0xffff, 0x8000],
        third: [0x8000, 0xffff, 0, 0x8000, 0xffff, 0],
    },
    Row {
        op: AtomicOp::Min,
        ty: ElemType::U32,
        start: 0xffffffff,
        next: [0, 0, 0, 1, 0x10000, 0],
        third: [0, 0xffffffff, 0, 0, 0xffffffff, 0],
    },
    Row {
        op: AtomicOp::Min,
        ty: ElemType::I32,
        start: 0x7fffffff,
        next: [0x80000000, 0, 0, 0xffffffff, 0xffffffff, 0x80000000],
        third: [0x80000000, 0xffffffff, 0, 0x80000000, 0xffffffff, 0],
    },
    Row {
        op: AtomicOp::Min,
        ty: ElemType::U64,
        start: 0xffffffffffffffff,
        next: [0, 0, 0, 1, 0x100000000, 0],
        third: [0, 0xffffffffffffffff, 0, 0, 0xffffffffffffffff, 0],
    },
    Row {
        op: AtomicOp::Min,
        ty: ElemType::I64,
        start: 0x7fffffffffffffff,
        next: [
            0x8000000000000000,
            0,
            0,
            0xffffffffffffffff,
            0xffffffffffffffff,
            0x8000000000000000,
        ],
        third: [
            0x8000000000000000,
            0xffffffffffffffff,
            0,
            0x8000000000000000,
            0xffffffffffffffff,
            0,
        ],
    },
];

/// The rows of max.
pub const MAX: &[Row] = &[
    Row {
        op: AtomicOp::Max,
        ty: ElemType::U8,
        start: 0,
        next: [0xff, 0xff, 1, 0xff, 0xff, 0x10],
        third: [1, 0xff, 0x10, 1, 0xff, 0x10],
    },
    Row {
        op: AtomicOp::Max,
        ty: ElemType::I8,
        start: 0x80,
        next: [0x7f, 0x7f, 1, 1, 0x10, 0x10],
        third: [1, 0x7f, 0x10, 1, 0x7f, 0x10],
    },
    Row {
        op: AtomicOp::Max,
        ty: ElemType::U16,
        start: 0,
        next: [0xffff, 0xffff, 1, 0xffff, 0xffff, 0x100],
        third: [1, 0xffff, 0x100, 1, 0xffff, 0x100],
    },
    Row {
        op: AtomicOp::Max,
        ty: ElemType::I16,
        start: 0x8000,
        next: [0x7fff, 0x7fff, 1, 1, 0x100, 0x100],
        third: [1, 0x7fff, 0x100, 1, 0x7fff, 0x100],
    },
    Row {
        op: AtomicOp::Max,
        ty: ElemType::U32,
        start: 0,
        next: [0xffffffff, 0xffffffff, 1, 0xffffffff, 0xffffffff, 0x10000],
        third: [1, 0xffffffff, 0x10000, 1, 0xffffffff, 0x10000],
    },
    Row {
        op: AtomicOp::Max,
        ty: ElemType::I32,
        start: 0x80000000,
        next: [0x7fffffff, 0x7fffffff, 1, 1, 0x10000, 0x10000],
        third: [1, 0x7fffffff, 0x10000, 1, 0x7fffffff, 0x10000],
    },
    Row {
        op: AtomicOp::Max,
        ty: ElemType::U64,
        start: 0,
        next: [
            0xffffffffffffffff,
            0xffffffffffffffff,
            1,
            0xffffffffffffffff,
            0xffffffffffffffff,
            0x100000000,
        ],
        third: [
            1,
            0xffffffffffffffff,
            0x100000000,
            1,
            0xffffffffffffffff,
            0x100000000,
        ],
    },
    Row {
        op: AtomicOp::Max,
        ty: ElemType::I64,
        start: 0x8000000000000000,
        next: [
            0x7fffffffffffffff,
            0x7fffffffffffffff,
            1,
            1,
            0x100000000,
            0x100000000,
        ],
        third: [
            1,
            0x7fffffffffffffff,
            0x100000000,
            1,
            0x7fffffffffffffff,
            0x100000000,
        ],
    },
];

/// The rows of sum.
pub const SUM: &[Row] = &[
    Row {
        op: AtomicOp::Sum,
        ty: ElemType::U8,
        start: 0,
        next: [0xff, 0xff, 1, 0, 0xf, 0x10],
        third: [1, 0xfe, 0x10, 1, 0xfe, 0x10],
    },
    Row {
        op: AtomicOp::Sum,
        ty: ElemType::I8,
        start: 0,
        next: [0xff, 0x7f, 1, 0, 0xf, 0x90],
        third: [0x81, 0x7e, 0x10, 0x81, 0x7e, 0x10],
    },
    Row {
        op: AtomicOp::Sum,
        ty: ElemType::U16,
        start: 0,
        next: [0xffff, 0xffff, 1, 0, 0xff, 0x100],
        third: [1, 0xfffe, 0x100, 1, 0xfffe, 0x100],
    },
    Row {
        op: AtomicOp::Sum,
        ty: ElemType::I16,
        start: 0,
        next: [0xffff, 0x7fff, 1, 0, 0xff, 0x8100],
        third: [0x8001, 0x7ffe, 0x100, 0x8001, 0x7ffe, 0x100],
    },
    Row {
        op: AtomicOp::Sum,
        ty: ElemType::U32,
        start: 0,
        next: [0xffffffff, 0xffffffff, 1, 0, 0xffff, 0x10000],
        third: [1, 0xfffffffe, 0x10000, 1, 0xfffffffe, 0x10000],
    },
    Row {
        op: AtomicOp::Sum,
        ty: ElemType::I32,
        start: 0,
        next: [0xffffffff, 0x7fffffff, 1, 0, 0xffff, 0x80010000],
        third: [
            0x80000001, 0x7ffffffe, 0x10000, 0x80000001, 0x7ffffffe, 0x10000,
        ],
    },
    Row {
        op: AtomicOp::Sum,
        ty: ElemType::U64,
        start: 0,
        next: [
            0xffffffffffffffff,
            0xffffffffffffffff,
            1,
            0,
            0xffffffff,
            0x100000000,
        ],
        third: [
            1,
            0xfffffffffffffffe,
            0x100000000,
            1,
            0xfffffffffffffffe,
            0x100000000,
        ],
    },
    Row {
        op: AtomicOp::Sum,
        ty: ElemType::I64,
        start: 0,
        next: [
            0xffffffffffffffff,
            0x7fffffffffffffff,
            1,
            0,
            0xffffffff,
            0x8000000100000000,
        ],
        third: [
            0x8000000000000001,
            0x7ffffffffffffffe,
            0x100000000,
            0x8000000000000001,
            0x7ffffffffffffffe,
            0x100000000,
        ],
    },
];

/// The rows of prod.
pub const PROD: &[Row] = &[
    Row {
        op: AtomicOp::Prod,
        ty: ElemType::U8,
        start: 1,
        next: [0, 0, 0, 0xff, 0xf0, 0],
        third: [0, 1, 0, 0, 1, 0],
    },
    Row {
        op: AtomicOp::Prod,
        ty: ElemType::I8,
        start: 1,
        next: [0x80, 0, 0, 0xff, 0xf0, 0],
        third: [0x80, 0x81, 0, 0x80, 0x81, 0],
    },
    Row {
        op: AtomicOp::Prod,
        ty: ElemType::U16,
        start: 1,
        next: [0, 0, 0, 0xffff, 0xff00, 0],
        third: [0, 1, 0, 0, 1, 0],
    },
    Row {
        op: AtomicOp::Prod,
        ty: ElemType::I16,
        start: 1,
        next: [0x8000, 0, 0, 0xffff, 0xff00, 0],
        third: [0x8000, 0x8001, 0, 0x8000, 0x8001, 0],
    },
    Row {
        op: AtomicOp::Prod,
        ty: ElemType::U32,
        start: 1,
        next: [0, 0, 0, 0xffffffff, 0xffff0000, 0],
        third: [0, 1, 0, 0, 1, 0],
    },
    Row {
        op: AtomicOp::Prod,
        ty: ElemType::I32,
        start: 1,
        next: [0x80000000, 0, 0, 0xffffffff, 0xffff0000, 0],
        third: [0x80000000, 0x80000001, 0, 0x80000000, 0x80000001, 0],
    },
    Row {
        op: AtomicOp::Prod,
        ty: ElemType::U64,
        start: 1,
        next: [0, 0, 0, 0xffffffffffffffff, 0xffffffff00000000, 0],
        third: [0, 1, 0, 0, 1, 0],
    },
    Row {
        op: AtomicOp::Prod,
        ty: ElemType::I64,
        start: 1,
        next: [
            0x8000000000000000,
            0,
            0,
            0xffffffffffffffff,
            0xffffffff00000000,
            0,
        ],
        third: [
            0x8000000000000000,
            0x8000000000000001,
            0,
            0x8000000000000000,
            0x8000000000000001,
            0,
        ],
    },
];

/// The rows of lor.
pub const LOR: &[Row] = &[
    Row {
        op: AtomicOp::Lor,
        ty: ElemType::U8,
        start: 0,
        next: [1, 1, 1, 1, 1, 1],
        third: [1, 1, 1, 1, 1, 1],
    },
    Row {
        op: AtomicOp::Lor,
        ty: ElemType::I8,
        start: 0,
        next: [1, 1, 1, 1, 1, 1],
        third: [1, 1, 1, 1, 1, 1],
    },
    Row {
        op: AtomicOp::Lor,
        ty: ElemType::U16,
        start: 0,
        next: [1, 1, 1, 1, 1, 1],
        third: [1, 1, 1, 1, 1, 1],
    },
    Row {
        op: AtomicOp::Lor,
        ty: ElemType::I16,
        start: 0,
        next: [1, 1, 1, 1, 1, 1],
        third: [1, 1, 1, 1, 1, 1],
    },
    Row {
        op: AtomicOp::Lor,
        ty: ElemType::U32,
        start: 0,
        next: [1, 1, 1, 1, 1, 1],
        third: [1, 1, 1, 1, 1, 1],
    },
    Row {
        op: AtomicOp::Lor,
        ty: ElemType::I32,
        start: 0,
        next: [1, 1, 1, 1, 1, 1],
        third: [1, 1, 1, 1, 1, 1],
    },
    Row {
        op: AtomicOp::Lor,
        ty: ElemType::U64,
        start: 0,
        next: [1, 1, 1, 1, 1, 1],
        third: [1, 1, 1, 1, 1, 1],
    },
    Row {
        op: AtomicOp::Lor,
        ty: ElemType::I64,
        start: 0,
        next: [1, 1, 1, 1, 1, 1],
        third: [1, 1, 1, 1, 1, 1],
    },
];

/// The rows of land.
pub const LAND: &[Row] = &[
    Row {
        op: AtomicOp::Land,
        ty: ElemType::U8,
        start: 1,
        next: [0, 0, 0, 1, 1, 0],
        third: [0, 1, 0, 0, 1, 0],
    },
    Row {
        op: AtomicOp::Land,
        ty: ElemType::I8,
        start: 1,
        next: [1, 0, 0, 1, 1, 1],
        third: [1, 1, 0, 1, 1, 0],
    },
    Row {
        op: AtomicOp::Land,
        ty: ElemType::U16,
        start: 1,
        next: [0, 0, 0, 1, 1, 0],
        third: [0, 1, 0, 0, 1, 0],
    },
    Row {
        op: AtomicOp::Land,
        ty: ElemType::I16,
        start: 1,
        next: [1, 0, 0, 1, 1, 1],
        third: [1, 1, 0, 1, 1, 0],
    },
    Row {
        op: AtomicOp::Land,
        ty: ElemType::U32,
        start: 1,
        next: [0, 0, 0, 1, 1, 0],
        third: [0, 1, 0, 0, 1, 0],
    },
    Row {
        op: AtomicOp::Land,
        ty: ElemType::I32,
        start: 1,
        next: [1, 0, 0, 1, 1, 1],
        third: [1, 1, 0, 1, 1, 0],
    },
    Row {
        op: AtomicOp::Land,
        ty: ElemType::U64,
        start: 1,
        next: [0, 0, 0, 1, 1, 0],
        third: [0, 1, 0, 0, 1, 0],
    },
    Row {
        op: AtomicOp::Land,
        ty: ElemType::I64,
        start: 1,
        next: [1, 0, 0, 1, 1, 1],
        third: [1, 1, 0, 1, 1, 0],
    },
];

/// The rows of bor.
pub const BOR: &[Row] = &[
    Row {
        op: AtomicOp::Bor,
        ty: ElemType::U8,
        start: 0,
        next: [0xff, 0xff, 1, 0xff, 0xff, 0x10],
        third: [1, 0xff, 0x10, 1, 0xff, 0x10],
    },
    Row {
        op: AtomicOp::Bor,
        ty: ElemType::I8,
        start: 0,
        next: [0xff, 0x7f, 1, 0xff, 0xff, 0x90],
        third: [0x81, 0xff, 0x10, 0x81, 0xff, 0x10],
    },
    Row {
        op: AtomicOp::Bor,
        ty: ElemType::U16,
        start: 0,
        next: [0xffff, 0xffff, 1, 0xffff, 0xffff, 0x100],
        third: [1, 0xffff, 0x100, 1, 0xffff, 0x100],
    },
    Row {
        op: AtomicOp::Bor,
        ty: ElemType::I16,
        start: 0,
        next: [0xffff, 0x7fff, 1, 0xffff, 0xffff, 0x8100],
        third: [0x8001, 0xffff, 0x100, 0x8001, 0xffff, 0x100],
    },
    Row {
        op: AtomicOp::Bor,
        ty: ElemType::U32,
        start: 0,
        next: [0xffffffff, 0xffffffff, 1, 0xffffffff, 0xffffffff, 0x10000],
        third: [1, 0xffffffff, 0x10000, 1, 0xffffffff, 0x10000],
    },
    Row {
        op: AtomicOp::Bor,
        ty: ElemType::I32,
        start: 0,
        next: [
            0xffffffff, 0x7fffffff, 1, 0xffffffff, 0xffffffff, 0x80010000,
        ],
        third: [
            0x80000001, 0xffffffff, 0x10000, 0x80000001, 0xffffffff, 0x10000,
        ],
    },
    Row {
        op: AtomicOp::Bor,
        ty: ElemType::U64,
        start: 0,
        next: [
            0xffffffffffffffff,
            0xffffffffffffffff,
            1,
            0xffffffffffffffff,
            0xffffffffffffffff,
            0x100000000,
        ],
        third: [
            1,
            0xffffffffffffffff,
            0x100000000,
            1,
            0xffffffffffffffff,
            0x100000000,
        ],
    },
    Row {
        op: AtomicOp::Bor,
        ty: ElemType::I64,
        start: 0,
        next: [
            0xffffffffffffffff,
            0x7fffffffffffffff,
            1,
            0xffffffffffffffff,
            0xffffffffffffffff,
            0x8000000100000000,
        ],
        third: [
            0x8000000000000001,
            0xffffffffffffffff,
            0x100000000,
            0x8000000000000001,
            0xffffffffffffffff,
            0x100000000,
        ],
    },
];

/// The rows of band.
pub const BAND: &[Row] = &[
    Row {
        op: AtomicOp::Band,
        ty: ElemType::U8,
        start: 0xff,
        next: [0, 0, 0, 1, 0x10, 0],
        third: [0, 0xff, 0, 0, 0xff, 0],
    },
    Row {
        op: AtomicOp::Band,
        ty: ElemType::I8,
        start: 0xff,
        next: [0, 0, 0, 1, 0x10, 0],
        third: [0, 0x7f, 0, 0, 0x7f, 0],
    },
    Row {
        op: AtomicOp::Band,
        ty: ElemType::U16,
        start: 0xffff,
        next: [0, 0, 0, 1, 0x100, 0],
        third: [0, 0xffff, 0, 0, 0xffff, 0],
    },
    Row {
        op: AtomicOp::Band,
        ty: ElemType::I16,
        start: 0xffff,
        next: [0, 0, 0, 1, 0x100, 0],
        third: [0, 0x7fff, 0, 0, 0x7fff, 0],
    },
    Row {
        op: AtomicOp::Band,
        ty: ElemType::U32,
        start: 0xffffffff,
        next: [0, 0, 0, 1, 0x10000, 0],
        third: [0, 0xffffffff, 0, 0, 0xffffffff, 0],
    },
    Row {
        op: AtomicOp::Band,
        ty: ElemType::I32,
        start: 0xffffffff,
        next: [0, 0, 0, 1, 0x10000, 0],
        third: [0, 0x7fffffff, 0, 0, 0x7fffffff, 0],
    },
    Row {
        op: AtomicOp::Band,
        ty: ElemType::U64,
        start: 0xffffffffffffffff,
        next: [0, 0, 0, 1, 0x100000000, 0],
        third: [0, 0xffffffffffffffff, 0, 0, 0xffffffffffffffff, 0],
    },
    Row {
        op: AtomicOp::Band,
        ty: ElemType::I64,
        start: 0xffffffffffffffff,
        next: [0, 0, 0, 1, 0x100000000, 0],
        third: [0, 0x7fffffffffffffff, 0, 0, 0x7fffffffffffffff, 0],
    },
];

/// The rows of lxor.
pub const LXOR: &[Row] = &[
    Row {
        op: AtomicOp::Lxor,
        ty: ElemType::U8,
        start: 0,
        next: [1, 1, 1, 0, 0, 1],
        third: [1, 0, 1, 1, 0, 1],
    },
    Row {
        op: AtomicOp::Lxor,
        ty: ElemType::I8,
        start: 0,
        next: [0, 1, 1, 0, 0, 0],
        third: [0, 0, 1, 0, 0, 1],
    },
    Row {
        op: AtomicOp::Lxor,
        ty: ElemType::U16,
        start: 0,
        next: [1, 1, 1, 0, 0, 1],
        third: [1, 0, 1, 1, 0, 1],
    },
    Row {
        op: AtomicOp::Lxor,
        ty: ElemType::I16,
        start: 0,
        next: [0, 1, 1, 0, 0, 0],
        third: [0, 0, 1, 0, 0, 1],
    },
    Row {
        op: AtomicOp::Lxor,
        ty: ElemType::U32,
        start: 0,
        next: [1, 1, 1, 0, 0, 1],
        third: [1, 0, 1, 1, 0, 1],
    },
    Row {
        op: AtomicOp::Lxor,
        ty: ElemType::I32,
        start: 0,
        next: [0, 1, 1, 0, 0, 0],
        third: [0, 0, 1, 0, 0, 1],
    },
    Row {
        op: AtomicOp::Lxor,
        ty: ElemType::U64,
        start: 0,
        next: [1, 1, 1, 0, 0, 1],
        third: [1, 0, 1, 1, 0, 1],
    },
    Row {
        op: AtomicOp::Lxor,
        ty: ElemType::I64,
        start: 0,
        next: [0, 1, 1, 0, 0, 0],
        third: [0, 0, 1, 0, 0, 1],
    },
];

/// The rows of bxor.
pub const BXOR: &[Row] = &[
    Row {
        op: AtomicOp::Bxor,
        ty: ElemType::U8,
        start: 0,
        next: [0xff, 0xff, 1, 0xfe, 0xef, 0x10],
        third: [1, 0, 0x10, 1, 0, 0x10],
    },
    Row {
        op: AtomicOp::Bxor,
        ty: ElemType::I8,
        start: 0,
        next: [0xff, 0x7f, 1, 0xfe, 0xef, 0x90],
        third: [0x81, 0x80, 0x10, 0x81, 0x80, 0x10],
    },
    Row {
        op: AtomicOp::Bxor,
        ty: ElemType::U16,
        start: 0,
        next: [0xffff, 0xffff, 1, 0xfffe, 0xfeff, 0x100],
        third: [1, 0, 0x100, 1, 0, 0x100],
    },
    Row {
        op: AtomicOp::Bxor,
        ty: ElemType::I16,
        start: 0,
        next: [0xffff, 0x7fff, 1, 0xfffe, 0xfeff, 0x8100],
        third: [0x8001, 0x8000, 0x100, 0x8001, 0x8000, 0x100],
    },
    Row {
        op: AtomicOp::Bxor,
        ty: ElemType::U32,
        start: 0,
        next: [0xffffffff, 0xffffffff, 1, 0xfffffffe, 0xfffeffff, 0x10000],
        third: [1, 0, 0x10000, 1, 0, 0x10000],
    },
    Row {
        op: AtomicOp::Bxor,
        ty: ElemType::I32,
        start: 0,
        next: [
            0xffffffff, 0x7fffffff, 1, 0xfffffffe, 0xfffeffff, 0x80010000,
        ],
        third: [
            0x80000001, 0x80000000, 0x10000, 0x80000001, 0x80000000, 0x10000,
        ],
    },
    Row {
        op: AtomicOp::Bxor,
        ty: ElemType::U64,
        start: 0,
        next: [
            0xffffffffffffffff,
            0xffffffffffffffff,
            1,
            0xfffffffffffffffe,
            0xfffffffeffffffff,
            0x100000000,
        ],
        third: [1, 0, 0x100000000, 1, 0, 0x100000000],
    },
    Row {
        op: AtomicOp::Bxor,
        ty: ElemType::I64,
        start: 0,
        next: [
            0xffffffffffffffff,
            0x7fffffffffffffff,
            1,
            0xfffffffffffffffe,
            0xfffffffeffffffff,
            0x8000000100000000,
        ],
        third: [
            0x8000000000000001,
            0x8000000000000000,
            0x100000000,
            0x8000000000000001,
            0x8000000000000000,
            0x100000000,
        ],
    },
];
