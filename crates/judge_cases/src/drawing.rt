//! Plans by hand.

use plan_core::{Cell, Link, LinkKind, Plan};
use ptl_types::{AtomicOp, ElemType, NoMemory};
use std::alloc::Global;

/// A cell of bytes.
pub fn bytes(rank: u32, length: u64, needs: u64) -> Cell {
    Cell {
        rank,
        ty: ElemType::U8,
        op: None,
        length,
        needs,
    }
}

/// The same, where what comes is added up.
pub fn sum(rank: u32, length: u64, needs: u64) -> Cell {
    Cell {
        rank,
        ty: ElemType::U8,
        op: Some(AtomicOp::Sum),
        length,
        needs,
    }
}

/// A link from the beginning of a cell into another.
pub fn link(kind: LinkKind, source: u32, length: u64, target: u32, target_offset: u64) -> Link {
    Link {
        source,
        source_offset: 0,
        length,
        target,
        target_offset,
        kind,
    }
}

/// The cells of the plan that is judged, after the go cells of two ranks: 2 and 3 hold the lists of one input, of four bytes each; 4
/// gets both lists, one after the other, and 5 their sums.
pub fn sound_cells() -> [Cell; 4] {
    [bytes(0, 4, 1), bytes(1, 4, 1), bytes(1, 8, 2), sum(0, 4, 2)]
}

/// Its links.
pub fn sound_links() -> [Link; 6] {
    [
        link(LinkKind::Bump, 0, 0, 2, 0),
        link(LinkKind::Bump, 1, 0, 3, 0),
        link(LinkKind::Put, 2, 4, 4, 0),
        link(LinkKind::Put, 3, 4, 4, 4),
        link(LinkKind::Atomic, 2, 4, 5, 0),
        link(LinkKind::Atomic, 3, 4, 5, 0),
    ]
}

/// The plan of these cells, after the go cells of so many ranks, and of these links.
pub fn plan_of(
    alloc: Global,
    ranks: u32,
    cells: &[Cell],
    links: &[Link],
) -> Result<Plan, NoMemory> {
    let mut plan = Plan::open(alloc, ranks, false, 0, 0)?;
    for cell in cells {
        if plan.cells().len() < 1000 {
            plan.add_cell(*cell)?;
        }
    }
    for link in links {
        if plan.links().len() < 1000 {
            plan.add_link(*link)?;
        }
    }
    Ok(plan)
}
