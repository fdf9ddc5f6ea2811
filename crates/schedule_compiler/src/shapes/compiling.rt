//! From a shape to its plan.

ghost use Rattle.schedule_compiler.specs.shapes.Compiling.{Draws};

use crate::shapes::drawing::{DrawnShape, draw};
use crate::shapes::faults::CompileFault;
use crate::shapes::judging::judge;
use coll_shape::Shape;
use std::alloc::Global;

/// The plan of a shape, with the cell that holds each buffer at each rank. A shape that is refused takes no memory.
///
/// # Errors
///
/// `TooMany` and `TooLarge` come exactly where the shape is refused: they name the first step at which the plan has too many links,
/// or too many bytes. `NoMemory` comes of no shape that is refused.
pub fn drawn_shape(alloc: Global, shape: &Shape) -> Result<DrawnShape, CompileFault>
    ensures { Draws shape.now result }
{
    shape.recall_form();
    match judge(shape) {
        Ok(size) => match draw(alloc, shape, size.links) {
            Ok(drawn) => Ok(drawn),
            Err(_) => Err(CompileFault::NoMemory),
        },
        Err(fault) => Err(fault),
    }
}
