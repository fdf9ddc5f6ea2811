//! Links and cells by what they are for.

ghost use Rattle.std.specs.Prelude.{◌≡◌};
ghost use Rattle.plan_steps.specs.StepContext.{atomic, bump, put, put_whole, silent_part};

use plan_core::{Incoming, LinkKind, Part};
use ptl_types::{ElemType, Rank};

/// Counts alone, when the cell has reached its needs.
pub fn bump(source: u32) -> Incoming
    ensures { result ≡ bump source }
{
    Incoming {
        source,
        source_offset: 0,
        length: 0,
        target_offset: 0,
        kind: LinkKind::Bump,
    }
}

/// So many bytes of a cell from one offset, written at another.
pub(crate) fn put(length: u64, source: u32, from: u64, at: u64) -> Incoming
    ensures { result ≡ put length source from at }
{
    Incoming {
        source,
        source_offset: from,
        length,
        target_offset: at,
        kind: LinkKind::Put,
    }
}

/// The first bytes of a cell, written to the front.
pub(crate) fn put_whole(length: u64, source: u32) -> Incoming
    ensures { result ≡ put_whole length source }
{
    put(length, source, 0, 0)
}

/// The first bytes of a cell, combined with what is there.
pub(crate) fn atomic(length: u64, source: u32) -> Incoming
    ensures { result ≡ atomic length source }
{
    Incoming {
        source,
        source_offset: 0,
        length,
        target_offset: 0,
        kind: LinkKind::Atomic,
    }
}

/// A cell without data.
pub(crate) fn silent(rank: Rank) -> Part
    ensures { result ≡ silent_part rank }
{
    Part {
        rank,
        ty: ElemType::U8,
        op: None,
        length: 0,
    }
}
