//! The judgement of a shape by the sizes of its steps, before anything is drawn.

ghost use Rattle.std.specs.Prelude.{◌≡◌, ◌≤◌, ◌<◌, ◌^◌, length};
ghost use Rattle.schedule_compiler.specs.shapes.Judging.{Judges, add_sizes, inputs_size, step_size};

use crate::shapes::faults::CompileFault;
use crate::shapes::footprints::Size;
use coll_shape::{Shape, holders_among};
use plan_steps::{step_bytes, step_links};

/// The most links of a plan.
pub const MOST_LINKS: u64 = 500_000;

/// The most bytes of a plan's cells, over all ranks.
pub const MOST_BYTES: u64 = 134_217_728;

/// Two sizes together.
fn add_sizes(a: Size, b: Size) -> Size
    requires links { a.links ≤ 2 ^ 62 }
    requires bytes { a.bytes ≤ 2 ^ 62 }
    requires more_links { b.links ≤ 2 ^ 62 }
    requires more_bytes { b.bytes ≤ 2 ^ 62 }
    ensures { result ≡ add_sizes a b }
{
    Size {
        links: a.links + b.links,
        bytes: a.bytes + b.bytes,
    }
}

/// What a step adds.
fn step_size(shape: &Shape, k: u32) -> Size
    requires { k < length shape.now.steps }
    ensures value { result ≡ step_size shape.now k }
    ensures links { result.links ≤ 2 ^ 18 }
    ensures bytes { result.bytes ≤ 2 ^ 45 }
{
    shape.recall_form();
    let step = &shape.steps()[k as usize];
    let members = shape.group(k);
    let m = members.len() as u32;
    match step.source() {
        Some(a) => {
            let read = &shape.buffers()[a as usize];
            let h = holders_among(members, read.spread.holders.as_slice()) as u32;
            Size {
                links: step_links(step, m, h),
                bytes: step_bytes(step, m, h, read.list_bytes()),
            }
        }
        None => Size {
            links: step_links(step, m, 0),
            bytes: step_bytes(step, m, 0, 0),
        },
    }
}

/// What the inputs add.
fn inputs_size(shape: &Shape) -> Size
    ensures value { result ≡ inputs_size shape.now shape.now.inputs }
    ensures links { result.links ≤ 2 ^ 15 }
    ensures bytes { result.bytes ≤ 2 ^ 42 }
{
    shape.recall_form();
    let ranks = u64::from(shape.ranks());
    let mut sum = Size { links: 0, bytes: 0 };
    for b in 0..shape.input_count() {
        let list = shape.buffers()[b as usize].list_bytes();
        sum = add_sizes(
            sum,
            Size {
                links: ranks,
                bytes: ranks * list,
            },
        );
    }
    sum
}

/// Judges a shape: the first step at which the links or the bytes pass their limit, the links first. It draws nothing.
///
/// # Errors
///
/// The step, and what passes its limit there.
pub(crate) fn judge(shape: &Shape) -> Result<Size, CompileFault>
    ensures { Judges shape.now result }
{
    shape.recall_form();
    let mut sum = inputs_size(shape);
    for k in 0..shape.steps().len() as u32 {
        sum = add_sizes(sum, step_size(shape, k));
        if MOST_LINKS < sum.links {
            return Err(CompileFault::TooMany { step: k });
        }
        if MOST_BYTES < sum.bytes {
            return Err(CompileFault::TooLarge { step: k });
        }
    }
    Ok(sum)
}
