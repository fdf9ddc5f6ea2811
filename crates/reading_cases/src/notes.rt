//! Wrong texts, and the lines of their notes, written by hand from the language's page.

use crate::answers::{are_equal, gives, holds};
use coll_lang::{ParseFault, Refusal, parse};
use order_lines::parse_check;
use ptl_types::Cause;
use std::alloc::Global;
use std::process::Abort;
use text_notes::notes::note_text;
use text_notes::{explain_fails, explain_text};

/// Whether the line of a refusal's note is this one.
fn is_note(text: &[u8], line: u32, name: Refusal, expected: &[u8]) -> bool {
    are_equal(
        note_text(&explain_text(text, line, name)).as_slice(),
        expected,
    )
}

/// Whether the text is refused, and the line of its note is this one.
fn is_noted(alloc: Global, text: &[u8], expected: &[u8]) -> bool {
    match parse(alloc, text) {
        Err(ParseFault::Refused { line, name }) => is_note(text, line, name, expected),
        _ => false,
    }
}

/// Whether the input of a check is refused, and the line of its note is this one.
fn is_noted_of_check(alloc: Global, text: &[u8], expected: &[u8]) -> bool {
    match parse_check(alloc, text) {
        Err(ParseFault::Refused { line, name }) => is_note(text, line, name, expected),
        _ => false,
    }
}

/// A text, and the line of its note.
type Row = (&'static [u8], &'static [u8]);

const OF_HEADS: &[Row] = &[
    (
        b"coll 3\n",
        b"line 1, column 6: '3' is not what line 1 says: coll 1 or coll 2",
    ),
    (
        b"coll 1 \n",
        b"line 1, column 8: '' is not what line 1 says: coll 1 or coll 2",
    ),
    (
        b"coll 1\nranks 65\n",
        b"line 2, column 7: '65' is not what line 2 says: ranks and a number from 1 to 64",
    ),
    (
        b"coll 2\nrank 4\n",
        b"line 2, column 1: 'rank' is not what line 2 says: ranks and a number from 1 to 256",
    ),
    (
        b"coll 1\nranks 2\r\nend\n",
        b"line 2, column 8: '\\x0d' is no byte of a line: 0x20 to 0x7e are",
    ),
    (
        b"coll 1\nranks 2\ngroup g 0\nend\n",
        b"line 3, column 1: 'group' stands in a text of version 2 alone",
    ),
    (
        b"coll 1\nranks 1\nfoo\nend\n",
        b"line 3, column 1: 'foo' is no first word here: complete, group, input, on, elect, tickets, a step, print or end",
    ),
    (
        b"coll 1\nranks 1\ncomplete local\nend\n",
        b"line 3, column 10: 'local' stands where the word remote is due",
    ),
    (
        b"coll 1\nranks 1\nend",
        b"line 3, column 1: 'end' is no line with its LF, and one is due",
    ),
    (
        b"coll 1\nranks 1\nend\nend\n",
        b"line 4, column 1: 'end' stands after the last line",
    ),
];

const OF_INPUTS: &[Row] = &[
    (
        b"coll 1\nranks 1\ninput a u8\n",
        b"line 3, column 11: '' stands where COUNT is due, a number",
    ),
    (
        b"coll 1\nranks 1\ninput 1 u8 1\n",
        b"line 3, column 7: '1' is no name: 1 to 16 of a-z, 0-9 and _, a letter first",
    ),
    (
        b"coll 1\nranks 1\ninput a u9 1\n",
        b"line 3, column 9: 'u9' is no type: u8 i8 u16 i16 u32 i32 u64 i64",
    ),
    (
        b"coll 1\nranks 1\ninput a u8 4097\n",
        b"line 3, column 12: '4097' is no number from 1 to 4096",
    ),
    (
        b"coll 1\nranks 2\ninput a u8 2\n1 2\n3\n",
        b"line 5, column 2: '' stands where a value is due: the line has 2 of them",
    ),
    (
        b"coll 1\nranks 2\ninput a u8 1\n1\n7 8\n",
        b"line 5, column 3: '8' is one value too many: the line has 1 of them",
    ),
    (
        b"coll 1\nranks 1\ninput a i8 3\n1 128 3\n",
        b"line 4, column 3: '128' is no value of the type i8",
    ),
    (
        b"coll 1\nranks 1\ninput a u8 1\n1\ninput a u8 1\n",
        b"line 5, column 7: 'a' is the name of a buffer or a group already",
    ),
    (
        b"coll 1\nranks 1\ninput a u8 1\n1\ncomplete remote\n",
        b"line 5, column 1: 'complete' is no first word here: input, on, a step, print or end",
    ),
];

const OF_STEPS: &[Row] = &[
    (
        b"coll 1\nranks 1\ninput a u8 1\n1\nallreduce add a b\n",
        b"line 5, column 11: 'add' is no operation: min max sum prod lor land bor band lxor bxor",
    ),
    (
        b"coll 1\nranks 1\ninput a u8 1\n1\nbroadcast  a b\n",
        b"line 5, column 11: '' stands where ROOT is due, the number of a place",
    ),
    (
        b"coll 1\nranks 1\ninput a u8 1\n1\nbroadcast x a b\n",
        b"line 5, column 11: 'x' is no number: 0, or digits without a leading 0",
    ),
    (
        b"coll 1\nranks 3\ninput a u8 1\n1\n2\n3\nbroadcast 3 a b\n",
        b"line 7, column 11: '3' is no place: each is below the number of members, 3",
    ),
    (
        b"coll 1\nranks 1\ninput a u8 1\n1\nbroadcast 0 c d\n",
        b"line 5, column 13: 'c' is no buffer that an earlier line made",
    ),
    (
        b"coll 1\nranks 1\ninput a u8 1\n1\nbroadcast 0 a a\n",
        b"line 5, column 15: 'a' is the name of a buffer or a group already",
    ),
    (
        b"coll 1\nranks 2\ninput a u8 3\n1 2 3\n4 5 6\nalltoall a b\n",
        b"line 6, column 10: 'a' isn't held by every member, or its length is no multiple of their number",
    ),
    (
        b"coll 1\nranks 1\nbarrier now\n",
        b"line 3, column 9: 'now' is one word too many",
    ),
    (
        b"coll 1\nranks 1\nprint c\n",
        b"line 3, column 7: 'c' is no buffer that an earlier line made",
    ),
    (
        b"coll 2\nranks 4\ngroup g 3 1\n",
        b"line 3, column 11: '1' is not greater than the member before it",
    ),
    (
        b"coll 2\nranks 4\ngroup g 3 4\n",
        b"line 3, column 11: '4' is no rank: each is below 4",
    ),
    (
        b"coll 2\nranks 4\ngroup g 3 x\n",
        b"line 3, column 11: 'x' is no number: 0, or digits without a leading 0",
    ),
    (
        b"coll 2\nranks 4\non even barrier\n",
        b"line 3, column 4: 'even' is no group that an earlier line made",
    ),
    (
        b"coll 2\nranks 4\ngroup g 1 3\ninput a u8 1\n1\n2\n3\n4\non g broadcast 2 a b\n",
        b"line 9, column 16: '2' is no place: each is below the number of members, 2",
    ),
];

const OF_CHECKS: &[Row] = &[
    (
        b"coll 1\nranks 1\nbarrier\nend\norder 1 s\n",
        b"line 5, column 7: '1' stands where this rank is due: 0",
    ),
    (
        b"coll 1\nranks 2\nbarrier\nend\norder 0 s r2\n",
        b"line 5, column 11: 'r2' is no local step: s, rS, aS or fT, with a number T and a rank S below 2",
    ),
    (
        b"coll 1\nranks 1\nbarrier\nend\n",
        b"line 5, column 1: '' is no line with its LF, and one is due",
    ),
    (
        b"coll 1\nranks 1\nbarrier\nend\norder 0 s\nrest\n",
        b"line 6, column 1: 'rest' stands after the last line",
    ),
];

/// Stops the test where one of these texts has another note.
fn all_noted(rt: &impl Abort, alloc: Global, table: &str, rows: &[Row]) {
    for (i, (text, expected)) in rows.iter().enumerate() {
        holds(rt, table, i, is_noted(alloc, text, expected));
    }
}

/// Stops the test where one of these inputs of a check has another note.
fn all_noted_of_checks(rt: &impl Abort, alloc: Global, rows: &[Row]) {
    for (i, (text, expected)) in rows.iter().enumerate() {
        holds(rt, "OF_CHECKS", i, is_noted_of_check(alloc, text, expected));
    }
}

/// Stops the test where the note of orders that fail is another one.
fn noted_of_orders(rt: &impl Abort) {
    let orders = b"coll 1\nranks 2\nbarrier\nend\norder 0 s r1\norder 1 s a0\n";
    let note = explain_fails(orders, 1, 2, Cause::NotSent);
    let line = b"line 6, column 11: 'a0' is not possible here: no such message is there";
    gives!(*rt; are_equal(note_text(&note).as_slice(), line), true);
}

#[test]
fn words_of_wrong_lines(rt: HostRuntime) {
    all_noted(&rt, rt.alloc(), "OF_HEADS", OF_HEADS);
    all_noted(&rt, rt.alloc(), "OF_INPUTS", OF_INPUTS);
    all_noted(&rt, rt.alloc(), "OF_STEPS", OF_STEPS);
    all_noted_of_checks(&rt, rt.alloc(), OF_CHECKS);
    noted_of_orders(&rt);
}
