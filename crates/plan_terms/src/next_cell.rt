//! The cell that comes next.

use crate::places::Places;
use plan_core::Plan;

/// A cell whose places are to be found: its plan, which has so many inputs, its number, and the places of the cells before it.
#[derive(Clone, Copy)]
pub(crate) struct NextCell<'a> {
    pub(crate) plan: &'a Plan,
    pub(crate) count: u32,
    pub(crate) number: u32,
    pub(crate) before: &'a [Places],
}
