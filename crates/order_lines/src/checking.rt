//! Reading a check's input.

ghost use Rattle.std.specs.Prelude.{◌+◌, ◌-◌, ◌^◌, ◌<◌, ◌≡◌, ◌≤◌, IfOk, None, length};
ghost use Rattle.coll_text.specs.Text.{lines};
ghost use Rattle.coll_lang.specs.Readable.{IsReadable};
ghost use Rattle.coll_lang.specs.Verdicts.{Reads};
ghost use Rattle.order_lines.specs.Check.{description_bytes, line_after, orders_after, read_check};

use crate::orders::Orders;
use crate::reading::{orders_in, refused};
use coll_lang::{Description, ParseFault, Refusal, parse};
use coll_text::{cut, is};
use std::alloc::Global;

/// The most bytes of a check's input: a description and the order lines after it.
pub const LONGEST_CHECK: usize = 16_777_216;

/// How many bytes the lines up to and including the first line `end` have, and the number of the line after them: all bytes,
/// where there is no such line. A description ends there.
#[tactic(auto, using(crate::proofs::Ends::goes_on, crate::proofs::Ends::stops, crate::proofs::Ends::breaks_off))]
pub fn first_end(bytes: &[u8]) -> (usize, u32)
    requires { length bytes.now < 2 ^ 32 - 1 }
    ensures bytes { result.0 ≡ description_bytes (lines bytes.now) }
    ensures within { result.0 ≤ length bytes.now }
    ensures line { result.1 ≡ line_after 1 (lines bytes.now) }
    ensures at_most { result.1 ≤ result.0 + 1 }
{
    let mut rest = bytes;
    let mut number = 1u32;
    loop {
        let (line, Some(after)) = cut(rest, b'\n') else {
            return (bytes.len(), number);
        };
        rest = after;
        number += 1;
        if is(line, b"end") {
            return (bytes.len() - rest.len(), number);
        }
    }
}

/// The order lines after a description, the first of them with this number.
#[tactic(auto, using(crate::proofs::Inputs::lists_fail))]
fn with_orders(
    alloc: Global,
    description: Description,
    next: u32,
    rest: &[u8],
) -> Result<(Description, Orders), ParseFault>
    requires at_most { next + length rest.now < 2 ^ 32 }
    requires readable { IsReadable description }
    ensures exact { Reads (λ both. both) result (orders_after description description.choices next (lines rest.now)) }
    ensures same { IfOk result (λ both. both.0 ≡ description) }
    ensures steps { IfOk result (λ both. both.0.choices ≡ None) }
    ensures orders { IfOk result (λ both. length both.1 ≡ both.0.shape.ranks) }
{
    match description.choices() {
        Some(_) => Err(refused(0, Refusal::OneThread)),
        None => {
            let orders = orders_in(alloc, description.shape().ranks(), next, rest)?;
            Ok((description, orders))
        }
    }
}

/// Reads the input of a check in one pass: a description, which ends with the first line `end`, and after it for each rank, rank 0
/// first, the line of its local steps.
///
/// # Errors
///
/// The first refusal of the text with its line, that the description is a choice text, or that there was no memory.
#[tactic(auto, unfolding(crate::specs::Check::read_check), using(crate::proofs::Inputs::fails_at))]
pub fn parse_check(alloc: Global, bytes: &[u8]) -> Result<(Description, Orders), ParseFault>
    // Unless memory runs out, it is what reading gives, both ways.
    ensures exact { Reads (λ both. both) result (read_check bytes.now) }
    ensures readable { IfOk result (λ both. IsReadable both.0) }
    ensures steps { IfOk result (λ both. both.0.choices ≡ None) }
    ensures orders { IfOk result (λ both. length both.1 ≡ both.0.shape.ranks) }
{
    if bytes.len() > LONGEST_CHECK {
        return Err(refused(0, Refusal::TooLong));
    }
    let (at, next) = first_end(bytes);
    let description = parse(alloc, &bytes[..at])?;
    with_orders(alloc, description, next, &bytes[at..])
}
