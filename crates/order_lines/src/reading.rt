//! Reading order lines.

ghost use Rattle.std.specs.Prelude.{◌+◌, ◌^◌, ◌<◌, ◌≡◌, length};
ghost use Rattle.std.specs.List.{list_all};
ghost use Rattle.coll_text.specs.Text.{lines};
ghost use Rattle.coll_lang.specs.Language.{is_allowed};
ghost use Rattle.coll_lang.specs.Verdicts.{Reads};
ghost use Rattle.coll_lang.specs.declared.fault.ParseFault.TheVariants.{Refused};
ghost use Rattle.order_lines.specs.Orders.{firing, order_at, order_of, read_orders, receipt, step_of, steps_of, unless_bad};

use crate::orders::{Order, Orders};
use coll_lang::{ParseFault, Refusal};
use coll_text::{Words, cut, is, number_between};
use ptl_types::{Lane, LocalStep, Rank};
use std::alloc::Global;

/// The greatest number of an operation.
const MOST_NUMBER: u32 = 4_294_967_295;

/// The refusal of a line.
pub(crate) fn refused(line: u32, name: Refusal) -> ParseFault
    ensures { result ≡ Refused line name }
{
    ParseFault::Refused { line, name }
}

/// The receipt from the rank that the word is.
fn receipt(ranks: u32, word: &[u8], lane: Lane) -> Option<LocalStep>
    requires { 0 < ranks }
    ensures { result ≡ receipt ranks word.now lane }
{
    let source = number_between(0, ranks - 1, word)?;
    Some(LocalStep::Receive { source, lane })
}

/// The firing of the number that the word is.
fn firing(word: &[u8]) -> Option<LocalStep>
    ensures { result ≡ firing word.now }
{
    let number = number_between(0, MOST_NUMBER, word)?;
    Some(LocalStep::Fire { number })
}

/// The step that a word is.
#[tactic(auto, unfolding(crate::specs::Orders::step_of))]
fn step_of(ranks: u32, word: &[u8]) -> Option<LocalStep>
    requires { 0 < ranks }
    ensures { result ≡ step_of ranks word.now }
{
    let (kind, number) = word.split_first()?;
    if *kind == b's' {
        if number.is_empty() {
            Some(LocalStep::Start)
        } else {
            None
        }
    } else if *kind == b'r' {
        receipt(ranks, number, Lane::Request)
    } else if *kind == b'a' {
        receipt(ranks, number, Lane::Answer)
    } else if *kind == b'f' {
        firing(number)
    } else {
        None
    }
}

/// The steps that the words are.
#[tactic(auto, using(crate::proofs::Steps::begins, crate::proofs::Steps::takes, crate::proofs::Steps::breaks, crate::proofs::Steps::ends))]
fn steps_of(alloc: Global, ranks: u32, number: u32, mut words: Words) -> Result<Order, ParseFault>
    requires { 0 < ranks }
    ensures { Reads (λ steps. steps) result (unless_bad number (steps_of ranks words.entry)) }
{
    let mut steps = Vec::new(alloc);
    while let Some(word) = words.next() {
        let Some(step) = step_of(ranks, word) else {
            return Err(refused(number, Refusal::BadOrder));
        };
        steps.push(step)?;
    }
    Ok(Order::of(steps))
}

/// The steps after `order` and the rank that is due.
#[tactic(auto, unfolding(crate::specs::Orders::order_of))]
fn order_of(
    alloc: Global,
    ranks: u32,
    r: Rank,
    number: u32,
    mut words: Words,
) -> Result<Order, ParseFault>
    requires { 0 < ranks }
    ensures { Reads (λ steps. steps) result (unless_bad number (order_of ranks r words.entry)) }
{
    let Some(key) = words.next() else {
        return Err(refused(number, Refusal::BadOrder));
    };
    let Some(rank) = words.next() else {
        return Err(refused(number, Refusal::BadOrder));
    };
    if !is(key, b"order") || number_between(r, r, rank).is_none() {
        return Err(refused(number, Refusal::BadOrder));
    }
    steps_of(alloc, ranks, number, words)
}

/// Whether each byte of the line is one from 0x20 to 0x7E.
fn are_allowed(line: &[u8]) -> bool
    ensures { result ≡ list_all is_allowed line.now }
{
    line.iter().all(|b| matches!(*b, b' '..=b'~'))
}

/// The line of a rank.
#[tactic(auto, unfolding(crate::specs::Orders::order_at))]
fn order_at(
    alloc: Global,
    ranks: u32,
    r: Rank,
    number: u32,
    line: &[u8],
) -> Result<Order, ParseFault>
    requires { 0 < ranks }
    ensures { Reads (λ steps. steps) result (order_at ranks r number line.now) }
{
    if !are_allowed(line) {
        return Err(refused(number, Refusal::BadByte));
    }
    order_of(alloc, ranks, r, number, Words::of(line))
}

/// The lines of all ranks, the first of them with this number. Nothing may stand after them.
#[tactic(auto, using(crate::proofs::Lines::begins, crate::proofs::Lines::takes, crate::proofs::Lines::breaks_off))]
pub(crate) fn orders_in(
    alloc: Global,
    ranks: u32,
    first: u32,
    bytes: &[u8],
) -> Result<Orders, ParseFault>
    requires nonempty { 0 < ranks }
    requires at_most { first + length bytes.now < 2 ^ 32 }
    ensures { Reads (λ orders. orders) result (read_orders ranks ranks 0 first (lines bytes.now)) }
{
    let mut lists = Vec::new(alloc);
    let mut rest = bytes;
    let mut number = first;
    for r in 0..ranks {
        let (line, Some(after)) = cut(rest, b'\n') else {
            return Err(refused(number, Refusal::Unended));
        };
        match order_at(alloc, ranks, r, number, line) {
            Ok(order) => lists.push(order)?,
            Err(fault) => return Err(fault),
        }
        rest = after;
        number += 1;
    }
    if rest.is_empty() {
        Ok(Orders::of(lists))
    } else {
        Err(refused(number, Refusal::AfterEnd))
    }
}
