//! The least and the greatest value of each type, and the values beyond them.

use crate::answers::{Answer, same_answer};
use crate::language::texts::answer_to;
use std::alloc::Global;
use std::process::Abort;

/// The refusal of a value.
const REFUSED: Answer = Some((4, "BadNumber"));

/// A type, its least and greatest value, and the values beyond them.
type Ends = (&'static [u8], [&'static [u8]; 2], [&'static [u8]; 2]);

static ENDS: [Ends; 8] = [
    (b"u8", [b"0", b"255"], [b"-1", b"256"]),
    (b"i8", [b"-128", b"127"], [b"-129", b"128"]),
    (b"u16", [b"0", b"65535"], [b"-1", b"65536"]),
    (b"i16", [b"-32768", b"32767"], [b"-32769", b"32768"]),
    (b"u32", [b"0", b"4294967295"], [b"-1", b"4294967296"]),
    (
        b"i32",
        [b"-2147483648", b"2147483647"],
        [b"-2147483649", b"2147483648"],
    ),
    (
        b"u64",
        [b"0", b"18446744073709551615"],
        [b"-1", b"18446744073709551616"],
    ),
    (
        b"i64",
        [b"-9223372036854775808", b"9223372036854775807"],
        [b"-9223372036854775809", b"9223372036854775808"],
    ),
];

/// A type and a word that is no value of it.
type NoValue = (&'static [u8], &'static [u8]);

static NO_VALUES: [NoValue; 7] = [
    (b"u8", b"007"),
    (b"i32", b"-0"),
    (b"i32", b"-01"),
    (b"i8", b"+1"),
    (b"i8", b"-"),
    (b"u8", b"0x1"),
    (b"u8", b"1.0"),
];

/// What reading answers to one value of that type.
fn value_answer<'a>(alloc: Global, ty: &'a [u8], value: &'a [u8]) -> Answer {
    answer_to(
        alloc,
        &[
            (b"coll 1\nranks 1\ninput a ", 1),
            (ty, 1),
            (b" 1\n", 1),
            (value, 1),
            (b"\nend\n", 1),
        ],
    )
}

/// Stops the test where one of the two values is read otherwise.
fn both_give(
    rt: &(impl Abort + AllocGlobal),
    place: usize,
    ty: &[u8],
    values: [&[u8]; 2],
    wanted: Answer,
) {
    let [first, second] = values;
    same_answer(
        rt,
        "first",
        place,
        value_answer(rt.alloc(), ty, first),
        wanted,
    );
    same_answer(
        rt,
        "second",
        place,
        value_answer(rt.alloc(), ty, second),
        wanted,
    );
}

// Each table has a function of its own: the proof of what names a table carries the whole of it from step to step.
fn ends() -> &'static [Ends] {
    &ENDS
}

fn no_values() -> &'static [NoValue] {
    &NO_VALUES
}

/// Stops the test where the ends of one of these types are read otherwise.
fn each_end(rt: &(impl Abort + AllocGlobal), cases: &[Ends]) {
    for (i, case) in cases.iter().enumerate() {
        let (ty, within, beyond) = *case;
        both_give(rt, i, ty, within, None);
        both_give(rt, i, ty, beyond, REFUSED);
    }
}

/// Stops the test where one of these words is read.
fn each_is_no_value(rt: &(impl Abort + AllocGlobal), cases: &[NoValue]) {
    for (i, case) in cases.iter().enumerate() {
        let (ty, value) = *case;
        same_answer(
            rt,
            "NO_VALUES",
            i,
            value_answer(rt.alloc(), ty, value),
            REFUSED,
        );
    }
}

#[test]
fn ends_of_each_type(rt: HostRuntime) {
    each_end(&rt, ends());
}

#[test]
fn words_that_are_no_values(rt: HostRuntime) {
    each_is_no_value(&rt, no_values());
}
