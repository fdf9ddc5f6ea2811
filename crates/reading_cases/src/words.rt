//! Words, values, lines and names whose readings were found by hand.

use crate::answers::{are_equal, gives, holds};
use coll_text::{
    Flaw, Number, ValuesFault, Words, cut, data_line, is, is_name, number_at, number_between,
    push_data_line, push_line, push_value, value_of,
};
use ptl_types::ElemType;
use std::alloc::{AllocError, Global};
use std::process::Abort;

const NUMBERS: &[(&[u8], Number)] = &[
    (b"0", Number::Small(0)),
    (b"7", Number::Small(7)),
    (b"10", Number::Small(10)),
    (
        b"18446744073709551615",
        Number::Small(0xffff_ffff_ffff_ffff),
    ),
    (b"18446744073709551616", Number::Huge),
    (b"1000000000000000000000000000000000000000", Number::Huge),
    (
        b"0000000000000000000000000000000000000001",
        Number::Malformed,
    ),
    (b"007", Number::Malformed),
    (b"00", Number::Malformed),
    (b"-0", Number::Malformed),
    (b"+1", Number::Malformed),
    (b"1a", Number::Malformed),
    (b"1\r", Number::Malformed),
    (b" 1", Number::Malformed),
    (b"", Number::Malformed),
];

#[test]
fn numbers_have_one_spelling(rt: HostRuntime) {
    for row in NUMBERS.iter() {
        gives!(rt; number_at(row.0), row.1);
    }
    numbers_between_two(&rt);
}

/// Words, and their numbers from 1 to 64.
const BETWEEN: &[(&[u8], Option<u32>)] = &[
    (b"1", Some(1)),
    (b"64", Some(64)),
    (b"65", None),
    (b"0", None),
    (b"064", None),
];

/// Numbers between two, in the same spelling.
fn numbers_between_two(rt: &impl Abort) {
    for row in BETWEEN.iter() {
        gives!(rt; number_between(1, 64, row.0), row.1);
    }
    gives!(rt; number_between(0, 64, b"18446744073709551616"), None);
}

/// Least and greatest values, and the values one past each.
const EDGES: &[(ElemType, &[u8], Option<u64>)] = &[
    (ElemType::U8, b"0", Some(0)),
    (ElemType::U8, b"255", Some(0xff)),
    (ElemType::U8, b"-1", None),
    (ElemType::U8, b"256", None),
    (ElemType::I8, b"-128", Some(0x80)),
    (ElemType::I8, b"127", Some(0x7f)),
    (ElemType::I8, b"-129", None),
    (ElemType::I8, b"128", None),
    (ElemType::U16, b"0", Some(0)),
    (ElemType::U16, b"65535", Some(0xffff)),
    (ElemType::U16, b"-1", None),
    (ElemType::U16, b"65536", None),
    (ElemType::I16, b"-32768", Some(0x8000)),
    (ElemType::I16, b"32767", Some(0x7fff)),
    (ElemType::I16, b"-32769", None),
    (ElemType::I16, b"32768", None),
    (ElemType::U32, b"0", Some(0)),
    (ElemType::U32, b"4294967295", Some(0xffff_ffff)),
    (ElemType::U32, b"-1", None),
    (ElemType::U32, b"4294967296", None),
    (ElemType::I32, b"-2147483648", Some(0x8000_0000)),
    (ElemType::I32, b"2147483647", Some(0x7fff_ffff)),
    (ElemType::I32, b"-2147483649", None),
    (ElemType::I32, b"2147483648", None),
    (ElemType::U64, b"0", Some(0)),
    (
        ElemType::U64,
        b"18446744073709551615",
        Some(0xffff_ffff_ffff_ffff),
    ),
    (ElemType::U64, b"-1", None),
    (ElemType::U64, b"18446744073709551616", None),
    (
        ElemType::I64,
        b"-9223372036854775808",
        Some(0x8000_0000_0000_0000),
    ),
    (
        ElemType::I64,
        b"9223372036854775807",
        Some(0x7fff_ffff_ffff_ffff),
    ),
    (ElemType::I64, b"-9223372036854775809", None),
    (ElemType::I64, b"9223372036854775808", None),
];

/// Words that are values of no type.
const NO_VALUES: &[&[u8]] = &[
    b"",
    b"-",
    b"-0",
    b"007",
    b"-007",
    b"+1",
    b"--1",
    b"1\r",
    b"1.0",
    b"1000000000000000000000000000000000000000",
    b"-1000000000000000000000000000000000000000",
];

/// Whether no such word is a value of the type.
fn takes_none(ty: ElemType) -> bool {
    for word in NO_VALUES.iter() {
        if value_of(ty, word).is_some() {
            return false;
        }
    }
    true
}

#[test]
fn values_end_at_the_least_and_the_greatest(rt: HostRuntime) {
    for edge in EDGES.iter() {
        gives!(rt; value_of(edge.0, edge.1), edge.2);
        gives!(rt; takes_none(edge.0), true);
    }
    gives!(rt; value_of(ElemType::I8, b"-1"), Some(0xff));
    gives!(rt; value_of(ElemType::I64, b"-1"), Some(0xffff_ffff_ffff_ffff));
}

/// A type and a number of values, a line, and its bytes or its flaw.
type Line = (ElemType, u64, &'static [u8], Result<&'static [u8], Flaw>);

const LINES: &[Line] = &[
    (ElemType::U8, 3, b"1 2 3", Ok(&[1, 2, 3])),
    (ElemType::I16, 2, b"-1 258", Ok(&[0xff, 0xff, 2, 1])),
    (ElemType::U32, 1, b"16909060", Ok(&[4, 3, 2, 1])),
    (
        ElemType::I64,
        1,
        b"-2",
        Ok(&[0xfe, 0xff, 0xff, 0xff, 0xff, 0xff, 0xff, 0xff]),
    ),
    (ElemType::U8, 2, b"1 2 3", Err(Flaw::Malformed)),
    (ElemType::U8, 4, b"1 2 3", Err(Flaw::Malformed)),
    (ElemType::U8, 2, b"1  2", Err(Flaw::Malformed)),
    (ElemType::U8, 3, b"1  2", Err(Flaw::Malformed)),
    (ElemType::U8, 2, b"1 2 ", Err(Flaw::Malformed)),
    (ElemType::U8, 3, b"1 2 ", Err(Flaw::Malformed)),
    (ElemType::U8, 1, b" 1", Err(Flaw::Malformed)),
    (ElemType::U8, 2, b" 1", Err(Flaw::Malformed)),
    (ElemType::U8, 0, b"", Err(Flaw::Malformed)),
    (ElemType::U8, 1, b"", Err(Flaw::Malformed)),
    (ElemType::U8, 1, b"1\r", Err(Flaw::NoValue)),
    (ElemType::U8, 2, b"1 256", Err(Flaw::NoValue)),
    (ElemType::U8, 2, b"007 1", Err(Flaw::NoValue)),
    (ElemType::U8, 2, b"256", Err(Flaw::Malformed)),
    (ElemType::U8, 3, b"256  1", Err(Flaw::Malformed)),
];

/// Whether what is read has these bytes, or this flaw.
fn is_read(read: Result<Vec<u8>, ValuesFault>, wanted: Result<&[u8], Flaw>) -> bool {
    match (read, wanted) {
        (Ok(bytes), Ok(wanted)) => are_equal(&bytes, wanted),
        (Err(ValuesFault::Flawed(flaw)), Err(wanted)) => flaw == wanted,
        _ => false,
    }
}

/// Whether the line holds so many values of the type, and their bytes are these, or it has that flaw.
fn reads_as(alloc: Global, line: &Line) -> bool {
    let (ty, count, text, wanted) = *line;
    is_read(data_line(alloc, ty, count, text), wanted)
}

#[test]
fn a_data_line_has_just_the_values_that_are_due(rt: HostRuntime) {
    for (i, line) in LINES.iter().enumerate() {
        holds(&rt, "LINES", i, reads_as(rt.alloc(), line));
    }
}

/// Bytes, their first line, and what is behind it.
const CUTS: &[(&[u8], &[u8], Option<&[u8]>)] = &[
    (b"ab", b"ab", None),
    (b"ab\n", b"ab", Some(b"")),
    (b"\n\n", b"", Some(b"\n")),
    (b"a\r\nb", b"a\r", Some(b"b")),
    (b"", b"", None),
];

#[test]
fn lines_are_cut(rt: HostRuntime) {
    for row in CUTS.iter() {
        let (first, after) = cut(row.0, b'\n');
        gives!(rt; first, row.1);
        gives!(rt; after, row.2);
    }
    words_are_cut(&rt);
}

/// A line's words, up to its end.
fn words_are_cut(rt: &impl Abort) {
    let words: [&[u8]; 4] = [b"a", b"", b"b", b""];
    let mut read = Words::of(b"a  b ");
    for word in words.iter() {
        gives!(rt; read.next(), Some(*word));
    }
    gives!(rt; read.next(), None);
}

const NAMES: &[&[u8]] = &[b"a", b"z9", b"a_b_0", b"abcdefghijklmno0"];

const NO_NAMES: &[&[u8]] = &[
    b"",
    b"9a",
    b"_a",
    b"A",
    b"a-b",
    b"a\r",
    b"abcdefghijklmno01",
];

#[test]
fn names_have_1_to_16_bytes_and_begin_with_a_letter(rt: HostRuntime) {
    for (i, word) in NAMES.iter().enumerate() {
        holds(&rt, "NAMES", i, is_name(word));
    }
    for (i, word) in NO_NAMES.iter().enumerate() {
        holds(&rt, "NO_NAMES", i, !is_name(word));
    }
    holds(&rt, "end", 0, is(b"end", b"end"));
    holds(&rt, "end", 1, !is(b"end ", b"end"));
}

/// Writes lines of each kind.
fn add_lines(out: &mut Vec<u8>) -> Result<(), AllocError> {
    push_line(out, &[b"print", b"a"])?;
    push_line(out, &[])?;
    push_data_line(out, ElemType::I8, &[0x80, 0x7f, 0])?;
    push_data_line(out, ElemType::U16, &[1, 1])?;
    push_data_line(out, ElemType::I64, &[0, 0, 0, 0, 0, 0, 0, 0x80])?;
    push_data_line(out, ElemType::U32, &[])
}

/// Writes the bytes of two values.
fn add_values(bytes: &mut Vec<u8>) -> Result<(), AllocError> {
    push_value(bytes, ElemType::U32, 0x0102_0304)?;
    push_value(bytes, ElemType::I8, 0xff)
}

#[test]
fn lines_are_written(rt: HostRuntime) {
    let mut out = Vec::new(rt.alloc());
    holds(&rt, "memory", 0, add_lines(&mut out).is_ok());
    let lines = b"print a\n\n-128 127 0\n257\n-9223372036854775808\n\n";
    holds(&rt, "lines", 0, are_equal(&out, lines));
    let mut bytes = Vec::new(rt.alloc());
    holds(&rt, "memory", 1, add_values(&mut bytes).is_ok());
    holds(&rt, "values", 0, are_equal(&bytes, &[4, 3, 2, 1, 0xff]));
}
