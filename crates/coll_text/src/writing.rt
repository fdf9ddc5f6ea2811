//! Writing words, numbers, values and lines.

ghost use Rattle.std.specs.Prelude.{◌≡◌, ◌∷◌, ◌++◌, ◌<◌, map, OnOk, if◌then◌else◌};
ghost use Rattle.std.specs.List.{flat_map};
ghost use Rattle.std.specs.Fmt.{decimal};
ghost use Rattle.ptl_types.specs.Operations.{span};
ghost use Rattle.coll_text.specs.Text.{line};
ghost use Rattle.coll_text.specs.Elements.{elements, value_word};

use crate::values::{half, is_signed};
use itoa::Buffer;
use lane_ops::elements::read_pattern;
use ptl_types::ElemType;
use std::alloc::AllocError;

/// Adds a space and a word, for each word.
fn push_spaced(out: &mut Vec<u8>, words: &[&[u8]]) -> Result<(), AllocError>
    ensures { OnOk result (out.new.items ≡ out.old.items ++ flat_map (λ w. 32 ∷ w.now) words.now) }
{
    for word in words {
        out.push(b' ')?;
        out.extend_from_slice(word)?;
    }
    Ok(())
}

/// Adds a line: the words, parted by one space, and LF.
///
/// # Errors
///
/// There was no memory; a beginning of the line may stand.
pub fn push_line(out: &mut Vec<u8>, words: &[&[u8]]) -> Result<(), AllocError>
    ensures added { OnOk result (out.new.items ≡ out.old.items ++ line (map (λ w. w.now) words.now)) }
{
    let Some((first, others)) = words.split_first() else {
        out.push(b'\n')?;
        return Ok(());
    };
    out.extend_from_slice(first)?;
    push_spaced(out, others)?;
    out.push(b'\n')?;
    Ok(())
}

/// Adds the decimal of a number.
fn push_number(out: &mut Vec<u8>, n: u64) -> Result<(), AllocError>
    ensures { OnOk result (out.new.items ≡ out.old.items ++ decimal n) }
{
    let mut buffer = Buffer::new();
    out.extend_from_slice(buffer.format(n).as_bytes())
}

/// A value as it is printed, from its bit pattern: whether a minus sign stands before it, and the number after that.
pub fn printed_value(ty: ElemType, n: u64) -> (bool, u64)
    requires pattern { n < span ty }
    ensures value { value_word ty n ≡ (if result.0 then 45 ∷ decimal result.1 else decimal result.1) }
{
    if is_signed(ty) && n >= half(ty) {
        (true, half(ty) - (n - half(ty)))
    } else {
        (false, n)
    }
}

/// Adds the word of a value, from its bit pattern.
fn push_value_word(out: &mut Vec<u8>, ty: ElemType, n: u64) -> Result<(), AllocError>
    requires { n < span ty }
    ensures { OnOk result (out.new.items ≡ out.old.items ++ value_word ty n) }
{
    let (negative, number) = printed_value(ty, n);
    if negative {
        out.push(b'-')?;
        push_number(out, number)
    } else {
        push_number(out, number)
    }
}

/// Adds a space and the word of an element, for each element.
fn push_spaced_values(out: &mut Vec<u8>, ty: ElemType, bytes: &[u8]) -> Result<(), AllocError>
    ensures { OnOk result (out.new.items ≡ out.old.items ++ flat_map (λ x. 32 ∷ value_word ty x) (elements ty bytes.now)) }
{
    let size = ty.size() as usize;
    let mut rest = bytes;
    while rest.len() >= size {
        let (element, others) = rest.split_at(size);
        out.push(b' ')?;
        push_value_word(out, ty, read_pattern(ty, element))?;
        rest = others;
    }
    Ok(())
}

/// Adds a data line: the values of the elements, parted by one space, and LF.
///
/// # Errors
///
/// There was no memory; a beginning of the line may stand.
pub fn push_data_line(out: &mut Vec<u8>, ty: ElemType, bytes: &[u8]) -> Result<(), AllocError>
    ensures added { OnOk result (out.new.items ≡ out.old.items ++ line (map (value_word ty) (elements ty bytes.now))) }
{
    let size = ty.size() as usize;
    if bytes.len() < size {
        out.push(b'\n')?;
        return Ok(());
    }
    let (element, others) = bytes.split_at(size);
    push_value_word(out, ty, read_pattern(ty, element))?;
    push_spaced_values(out, ty, others)?;
    out.push(b'\n')?;
    Ok(())
}
