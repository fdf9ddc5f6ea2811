//! Whether two puts to a cell write the same byte.

ghost use Rattle.std.specs.Prelude.{◌≡◌, ◌<◌, ◌+◌, All, IfOk, length, nat_lt};
ghost use Rattle.std.specs.List.Sorted.{IsSorted};
ghost use Rattle.std.specs.Ordering.{nat_cmp, ordering_then};
ghost use Rattle.plan_judge.specs.Causes.{overlap, put_parts};

use crate::kinds::is_put;
use plan_core::Plan;
use plan_core::reading::link_at;
use ptl_types::NoMemory;
use std::alloc::{AllocError, Global};

/// Where the puts among these links begin, and how many bytes each writes.
fn parts_of(alloc: Global, plan: &Plan, links: &[u32]) -> Result<Vec<(u64, u64)>, AllocError>
    requires { All (λ l. l < length plan.now.links) links.now }
    ensures { IfOk result (λ parts. parts.items ≡ put_parts plan.now links.now) }
{
    let mut parts = Vec::new(alloc);
    for l in links {
        let link = link_at(plan, *l);
        if is_put(link.kind) {
            parts.push((link.target_offset, link.length))?;
        }
    }
    Ok(parts)
}

/// The same, by rising beginning.
fn sorted_parts(alloc: Global, plan: &Plan, links: &[u32]) -> Result<Vec<(u64, u64)>, AllocError>
    requires { All (λ l. l < length plan.now.links) links.now }
    ensures sorted { IfOk result (λ parts. IsSorted (λ x y. ordering_then (nat_cmp x.0 y.0) (nat_cmp x.1 y.1)) parts.items) }
    ensures same { IfOk result (λ parts. overlap parts.items ≡ overlap (put_parts plan.now links.now)) }
{
    let mut parts = parts_of(alloc, plan, links)?;
    parts.sort()?;
    Ok(parts)
}

/// Whether a part begins before the end of the one before it.
fn begins_within(part: (u64, u64), before: (u64, u64)) -> bool
    ensures { result ≡ nat_lt part.0 (before.0 + before.1) }
{
    u128::from(part.0) < u128::from(before.0) + u128::from(before.1)
}

/// Whether, of parts by rising beginning, one begins before the end of the one before it.
fn neighbours_overlap(parts: &[(u64, u64)]) -> bool
    requires { IsSorted (λ x y. ordering_then (nat_cmp x.0 y.0) (nat_cmp x.1 y.1)) parts.now }
    ensures { result ≡ overlap parts.now }
{
    for place in 1..parts.len() {
        if begins_within(parts[place], parts[place - 1]) {
            return true;
        }
    }
    false
}

/// Whether two of the puts among these links write the same byte. It takes the order of n log n steps.
///
/// # Errors
///
/// There was no memory to sort them.
pub(crate) fn puts_overlap(alloc: Global, plan: &Plan, links: &[u32]) -> Result<bool, NoMemory>
    requires { All (λ l. l < length plan.now.links) links.now }
    ensures { IfOk result (λ t. t ≡ overlap (put_parts plan.now links.now)) }
{
    match sorted_parts(alloc, plan, links) {
        Ok(parts) => Ok(neighbours_overlap(parts.as_slice())),
        Err(_) => Err(NoMemory),
    }
}
