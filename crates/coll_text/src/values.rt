//! Values of the element types, and data lines.

ghost use Rattle.std.specs.Prelude.{◌≡◌, ◌∷◌, ◌+◌, ◌<◌, ◌++◌, [], OnOk, OnErr, IfNone, IfSome, MatchResult, Ok, true};
ghost use Rattle.std.specs.List.{list_all};
ghost use Rattle.ptl_types.specs.Operations.{span, bytes_of, is_signed};
ghost use Rattle.ptl_types.specs.Elements.{little_endian};
ghost use Rattle.coll_text.specs.Cuts.{parts_after};
ghost use Rattle.coll_text.specs.Text.{is_digit, is_number, words};
ghost use Rattle.coll_text.specs.Elements.{half};
ghost use Rattle.coll_text.specs.Values.{too_large, value_of, negative_of, unsigned_of, data_line};
ghost use Rattle.coll_text.specs.Answers.{Fails};
ghost use Rattle.coll_text.specs.declared.values.ValuesFault.TheVariants.{NoMemory};

use crate::numerals::{Number, leading_digits, number_at};
use crate::splitting::{Words, cut};
use lane_ops::elements::write_pattern;
use ptl_types::ElemType;
use std::alloc::{AllocError, AllocFailed, Global};

/// What is wrong with a data line.
#[derive(Clone, Copy, Debug, PartialEq, Eq)]
pub enum Flaw {
    /// The number of words is wrong, or a word is empty.
    Malformed,
    /// A word isn't a value of the type.
    NoValue,
}

/// Why a data line isn't read.
#[derive(Debug, Drop)]
pub enum ValuesFault {
    /// The line is flawed.
    Flawed(Flaw),
    /// There was no memory for the values.
    NoMemory,
}

impl From<AllocError> for ValuesFault {
    ghost from_gives = { λ _ e. e ≡ NoMemory };

    fn from(_e: AllocError) -> ValuesFault {
        ValuesFault::NoMemory
    }
}

impl<T: Drop> From<AllocFailed<T>> for ValuesFault {
    ghost from_gives = { λ _ e. e ≡ NoMemory };

    fn from(_e: AllocFailed<T>) -> ValuesFault {
        ValuesFault::NoMemory
    }
}

/// Half of the bit patterns.
pub(crate) fn half(ty: ElemType) -> u64
    ensures { result ≡ half ty }
{
    match ty {
        ElemType::U8 | ElemType::I8 => 0x80,
        ElemType::U16 | ElemType::I16 => 0x8000,
        ElemType::U32 | ElemType::I32 => 0x8000_0000,
        ElemType::U64 | ElemType::I64 => 0x8000_0000_0000_0000,
    }
}

/// Whether the type is signed.
pub(crate) fn is_signed(ty: ElemType) -> bool
    ensures { result ≡ is_signed ty }
{
    matches!(
        ty,
        ElemType::I8 | ElemType::I16 | ElemType::I32 | ElemType::I64
    )
}

/// The greatest value.
fn largest(ty: ElemType) -> u64
    ensures { result + 1 ≡ too_large ty }
{
    match ty {
        ElemType::U8 => 0xff,
        ElemType::I8 => 0x7f,
        ElemType::U16 => 0xffff,
        ElemType::I16 => 0x7fff,
        ElemType::U32 => 0xffff_ffff,
        ElemType::I32 => 0x7fff_ffff,
        ElemType::U64 => 0xffff_ffff_ffff_ffff,
        ElemType::I64 => 0x7fff_ffff_ffff_ffff,
    }
}

/// The bit pattern of a value without a sign.
fn unsigned_of(ty: ElemType, word: &[u8]) -> Option<u64>
    ensures { result ≡ unsigned_of ty word.now }
{
    match number_at(word) {
        Number::Small(n) if n <= largest(ty) => Some(n),
        _ => None,
    }
}

/// The bit pattern of the value after a `-`.
fn negative_of(ty: ElemType, digits: &[u8]) -> Option<u64>
    ensures { result ≡ negative_of ty digits.now }
{
    match number_at(digits) {
        Number::Small(n) if 0 < n && n <= half(ty) => Some((half(ty) - n) + half(ty)),
        _ => None,
    }
}

/// The bit pattern of the value that the word is, if it is one of the type: a number in its range, or `-` and a number
/// that isn't 0.
#[tactic(auto, unfolding(crate::specs::Values::value_of))]
pub fn value_of(ty: ElemType, word: &[u8]) -> Option<u64>
    ensures value { result ≡ value_of ty word.now }
    ensures fits { IfSome result (λ n. n < span ty) }
{
    let (first, others) = word.split_first()?;
    if is_signed(ty) && *first == b'-' {
        negative_of(ty, others)
    } else {
        unsigned_of(ty, word)
    }
}

/// The first word of a line, the value that it is, and what follows it where it isn't the last.
#[derive(Clone, Copy)]
struct ValueWord<'a> {
    word: &'a [u8],
    value: Option<u64>,
    rest: Option<&'a [u8]>,
}

/// Whether a word of digits is a number: it has some, and no 0 before others.
#[tactic(auto, using(crate::proofs::Leading::lone_digit, crate::proofs::Leading::more_digits))]
fn is_one_spelling(digits: &[u8]) -> bool
    requires { list_all is_digit digits.now ≡ true }
    ensures { result ≡ is_number digits.now }
{
    match digits.split_first() {
        None => false,
        Some((first, others)) => others.is_empty() || *first != b'0',
    }
}

/// The first word, where it is a number of few digits up to `most`, the greatest value. `None`: it may be any word.
fn plain_value<'a>(ty: ElemType, most: u64, line: &'a [u8]) -> Option<ValueWord<'a>>
    requires { most + 1 ≡ too_large ty }
    ensures parts { IfSome result (λ first. words line.now ≡ first.word.now ∷ parts_after 32 first.rest) }
    ensures value { IfSome result (λ first. first.value ≡ value_of ty first.word.now) }
{
    let (number, count) = leading_digits(line);
    let (word, others) = line.split_at(count);
    if number > most || !is_one_spelling(word) {
        return None;
    }
    let value = Some(number);
    match others.split_first() {
        None => Some(ValueWord {
            word,
            value,
            rest: None,
        }),
        Some((b' ', rest)) => Some(ValueWord {
            word,
            value,
            rest: Some(rest),
        }),
        Some(_) => None,
    }
}

/// The first word of a line and its value.
fn first_value<'a>(ty: ElemType, most: u64, line: &'a [u8]) -> ValueWord<'a>
    requires { most + 1 ≡ too_large ty }
    ensures parts { words line.now ≡ result.word.now ∷ parts_after 32 result.rest }
    ensures value { result.value ≡ value_of ty result.word.now }
{
    if let Some(first) = plain_value(ty, most, line) {
        return first;
    }
    let (word, rest) = cut(line, b' ');
    ValueWord {
        word,
        value: value_of(ty, word),
        rest,
    }
}

/// The next word of a line and its value.
#[tactic(auto, using(crate::proofs::DataSpelled::value_small))]
fn next_value<'a>(words: &mut Words<'a>, ty: ElemType, most: u64) -> Option<(&'a [u8], Option<u64>)>
    requires { most + 1 ≡ too_large ty }
    ensures word { IfSome result (λ next. words.old ≡ next.0.now ∷ words.new) }
    ensures value { IfSome result (λ next. next.1 ≡ value_of ty next.0.now) }
    ensures fits { IfSome result (λ next. IfSome next.1 (λ n. n < span ty)) }
    ensures none { IfNone result (words.old ≡ []) }
{
    let first = first_value(ty, most, words.left?);
    words.left = first.rest;
    Some((first.word, first.value))
}

/// Adds the bytes of an element, lowest first, from its bit pattern.
///
/// # Errors
///
/// There was no memory; nothing was added.
pub fn push_value(out: &mut Vec<u8>, ty: ElemType, n: u64) -> Result<(), AllocError>
    requires pattern { n < span ty }
    ensures added { OnOk result (out.new.items ≡ out.old.items ++ little_endian (bytes_of ty) n) }
    ensures unchanged { OnErr result (out.new.items ≡ out.old.items) }
{
    let mut bytes = [0; 8];
    write_pattern(ty, &mut bytes, n);
    out.extend_from_slice(&bytes[..ty.size() as usize])
}

/// Reads a data line of so many values: their bytes in order.
///
/// # Errors
///
/// The line's flaw, or that there was no memory for the values.
#[tactic(auto, using(crate::proofs::Data::word_by_word))]
pub fn data_line(
    alloc: Global,
    ty: ElemType,
    count: u64,
    line: &[u8],
) -> Result<Vec<u8>, ValuesFault>
    ensures exact { let read = data_line ty count (words line.now) in MatchResult result (λ bytes. read ≡ Ok bytes.items)
        (λ fault. Fails fault read) }
{
    let mut out = Vec::new(alloc);
    let mut left = count;
    let mut is_bad = false;
    let most = largest(ty);
    let mut words = Words::of(line);
    while let Some((word, value)) = next_value(&mut words, ty, most) {
        if word.is_empty() || left == 0 {
            return Err(ValuesFault::Flawed(Flaw::Malformed));
        }
        left -= 1;
        match value {
            Some(n) => push_value(&mut out, ty, n)?,
            None => is_bad = true,
        }
    }
    if left != 0 {
        return Err(ValuesFault::Flawed(Flaw::Malformed));
    }
    if is_bad {
        return Err(ValuesFault::Flawed(Flaw::NoValue));
    }
    Ok(out)
}
