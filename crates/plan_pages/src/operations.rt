//! The triggered operations of each rank, in the order in which it posts them.

use plan_core::Plan;
use std::alloc::{AllocError, Global};

/// A triggered operation of a rank.
#[derive(Clone, Copy, Debug, PartialEq, Eq)]
pub enum Operation {
    /// Along the link of this number.
    Link(u32),
    /// The increment of the done counter by the cell of this number.
    Done(u32),
}

/// Adds an operation to those of a rank, if it is one of the plan's.
fn add(lists: &mut Vec<Vec<Operation>>, rank: u32, operation: Operation) -> Result<(), AllocError> {
    match lists.get_mut(rank as usize) {
        Some(list) => Ok(list.push(operation)?),
        None => Ok(()),
    }
}

/// Adds the links, each to the operations of its source's rank.
fn add_links(lists: &mut Vec<Vec<Operation>>, plan: &Plan) -> Result<(), AllocError> {
    let cells = plan.cells();
    let mut number = 0u32;
    for link in plan.links() {
        if let Some(source) = cells.get(link.source as usize) {
            add(lists, source.rank, Operation::Link(number))?;
        }
        number = number.saturating_add(1);
    }
    Ok(())
}

/// Adds the increments of the done counters, one for each cell.
fn add_increments(lists: &mut Vec<Vec<Operation>>, plan: &Plan) -> Result<(), AllocError> {
    let mut number = 0u32;
    for cell in plan.cells() {
        add(lists, cell.rank, Operation::Done(number))?;
        number = number.saturating_add(1);
    }
    Ok(())
}

/// The operations of each rank: one for each link that leaves it, rising, and then one for each of its cells, rising. The number of an
/// operation, as order lines name it, is its place in the list of its rank.
pub fn operations_of(alloc: Global, plan: &Plan) -> Result<Vec<Vec<Operation>>, AllocError> {
    let mut lists = Vec::new(alloc);
    for _ in 0..plan.ranks() {
        lists.push(Vec::new(alloc))?;
    }
    add_links(&mut lists, plan)?;
    add_increments(&mut lists, plan)?;
    Ok(lists)
}
