//! How two plans can be cut, so that what they compute can be compared slice by slice.

use crate::cut::Cut;
use crate::groups::Groups;
use plan_core::{Cell, Link, LinkKind, Plan};
use std::alloc::{AllocError, Global};

/// What the cells of a group have in common: a number of bytes that divides all lengths and places, and the largest element that is
/// combined.
#[derive(Clone, Copy)]
struct Measure {
    divisor: u64,
    element: u64,
}

impl Measure {
    /// Nothing yet.
    fn new() -> Measure {
        Measure {
            divisor: 0,
            element: 1,
        }
    }

    /// With a length or a place more. Nothing but one divides one.
    fn with_bytes(self, bytes: u64) -> Measure {
        if self.divisor == 1 {
            return self;
        }
        Measure {
            divisor: common_divisor(self.divisor, bytes),
            element: self.element,
        }
    }

    /// With a cell more.
    fn with_cell(self, cell: &Cell) -> Measure {
        let with = self.with_bytes(cell.length);
        match cell.op {
            None => with,
            Some(_op) => Measure {
                divisor: with.divisor,
                element: with.element.max(cell.ty.size()),
            },
        }
    }

    /// With what another has in common.
    fn with(self, other: Measure) -> Measure {
        let with = self.with_bytes(other.divisor);
        Measure {
            divisor: with.divisor,
            element: with.element.max(other.element),
        }
    }

    /// With a link more.
    fn with_link(self, link: &Link) -> Measure {
        self.with_bytes(link.source_offset)
            .with_bytes(link.length)
            .with_bytes(link.target_offset)
    }

    /// How the cells of the group can be cut: into blocks as long as can be, of pieces as short as can be.
    fn cut(self) -> Cut {
        let width = self.element.max(1);
        if self.divisor == 0 || self.divisor % width != 0 {
            return Cut { width: 1, count: 1 };
        }
        Cut {
            width,
            count: self.divisor / width,
        }
    }
}

/// The greatest common divisor.
fn common_divisor(a: u64, b: u64) -> u64 {
    let mut most = a;
    let mut rest = b;
    for _ in 0..128u32 {
        if rest == 0 {
            return most;
        }
        let left = most % rest;
        most = rest;
        rest = left;
    }
    1
}

/// Whether a link carries bytes.
fn moves(link: &Link) -> bool {
    match link.kind {
        LinkKind::Bump => false,
        LinkKind::Put => true,
        LinkKind::Atomic => true,
    }
}

/// Two plans, and which cells of the first are to be cut as which of the second.
#[derive(Clone, Copy)]
pub struct CutPlans<'a> {
    /// The first plan.
    pub first: &'a Plan,
    /// The second one.
    pub second: &'a Plan,
    /// Cells of the first plan, each with one of the second.
    pub pairs: &'a [(u32, u32)],
}

/// The cells of both plans in groups, with what each group has in common: those of the second stand after those of the first.
#[derive(Drop)]
struct Measured {
    groups: Groups,
    measures: Vec<Measure>,
}

impl Measured {
    /// What the group has in common for which this cell stands.
    fn measure(&self, first: u32) -> Measure {
        match self.measures.get(first as usize) {
            Some(measure) => *measure,
            None => Measure::new().with_bytes(1),
        }
    }

    /// Keeps what the group has in common for which this cell stands.
    fn keep(&mut self, first: u32, measure: Measure) {
        let at = first as usize;
        if at < self.measures.len() {
            self.measures[at] = measure;
        }
    }

    /// Takes the cells of a plan in, each by itself.
    fn measure_cells(&mut self, plan: &Plan, before: u32) {
        let mut number = before;
        for cell in plan.cells() {
            let measure = self.measure(number).with_cell(cell);
            self.keep(number, measure);
            number = number.saturating_add(1);
        }
    }

    /// Takes the links of a plan in that carry bytes, each with its target.
    fn measure_links(&mut self, plan: &Plan, before: u32) {
        for link in plan.links() {
            if moves(link) {
                let target = before.saturating_add(link.target);
                let measure = self.measure(target).with_link(link);
                self.keep(target, measure);
            }
        }
    }

    /// Joins the groups of two cells.
    fn join(&mut self, one: u32, other: u32) {
        if self.groups.are_near(one, other) {
            return;
        }
        let one = self.groups.first(one);
        let other = self.groups.first(other);
        let both = self.measure(one).with(self.measure(other));
        let (first, last) = (one.min(other), one.max(other));
        self.groups.lead(last, first);
        self.keep(last, Measure::new());
        self.keep(first, both);
    }

    /// Joins the two ends of the links that carry bytes.
    fn join_links(&mut self, plan: &Plan, before: u32) {
        for link in plan.links() {
            if moves(link) {
                self.join(
                    before.saturating_add(link.source),
                    before.saturating_add(link.target),
                );
            }
        }
    }

    /// Joins the cells of the pairs.
    fn join_pairs(&mut self, pairs: &[(u32, u32)], before: u32) {
        for pair in pairs {
            let (one, other) = *pair;
            self.join(one, before.saturating_add(other));
        }
    }

    /// Whether the cells of any group can be cut into more than one piece.
    fn has_pieces(&self) -> bool {
        self.measures.iter().any(|measure| measure.cut().count > 1)
    }

    /// How the cells of a plan can be cut.
    fn cuts(&mut self, alloc: Global, plan: &Plan, before: u32) -> Result<Vec<Cut>, AllocError> {
        let mut cuts = Vec::with_capacity(alloc, plan.cells().len())?;
        let mut number = before;
        for _cell in plan.cells() {
            let first = self.groups.first(number);
            cuts.push(self.measure(first).cut())?;
            number = number.saturating_add(1);
        }
        Ok(cuts)
    }
}

/// How the cells of two plans can be cut, with those of each pair alike: each into blocks as long as can be, of pieces as short as can
/// be. Both lists are empty where no cell would have a second piece: then nothing is cut, and where that shows of each cell by itself no
/// groups are joined. That the plans can be cut so is for `are_cuts` to see. It takes about as many steps as there are cells and links.
///
/// # Errors
///
/// There was no memory.
pub fn cut_plans(alloc: Global, plans: CutPlans) -> Result<(Vec<Cut>, Vec<Cut>), AllocError> {
    let before = (plans.first.cells().len() as u64).min(1 << 30) as u32;
    let after = (plans.second.cells().len() as u64).min(1 << 30) as u32;
    let all = before + after;
    let mut measured = Measured {
        groups: Groups::of(alloc, all)?,
        measures: vec![in alloc; Measure::new(); all as usize]?,
    };
    measured.measure_cells(plans.first, 0);
    measured.measure_cells(plans.second, before);
    measured.measure_links(plans.first, 0);
    measured.measure_links(plans.second, before);
    if measured.has_pieces() {
        measured.join_links(plans.first, 0);
        measured.join_links(plans.second, before);
        measured.join_pairs(plans.pairs, before);
    }
    if !measured.has_pieces() {
        return Ok((Vec::new(alloc), Vec::new(alloc)));
    }
    let first = measured.cuts(alloc, plans.first, 0)?;
    let second = measured.cuts(alloc, plans.second, before)?;
    Ok((first, second))
}
