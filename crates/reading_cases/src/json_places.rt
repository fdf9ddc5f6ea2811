//! Wrong descriptions in JSON, and the lines of their notes, written by hand from the language's page.

use crate::answers::{are_equal, holds};
use coll_lang::Refusal;
use json_lang::notes::explain_json;
use json_lang::parse_json;
use std::alloc::Global;
use text_notes::notes::note_text;

/// Whether the line of a refusal's note is this one.
fn is_note(alloc: Global, json: &[u8], line: u32, name: Refusal, expected: &[u8]) -> bool {
    are_equal(
        note_text(&explain_json(alloc, json, line, name)).as_slice(),
        expected,
    )
}

/// Whether the JSON is refused, and the line of its note is this one.
fn is_noted(alloc: Global, json: &[u8], expected: &[u8]) -> bool {
    match parse_json(alloc, json) {
        Err(fault) => match fault.refusal() {
            Some((line, name)) => is_note(alloc, json, line, name, expected),
            None => false,
        },
        Ok(_) => false,
    }
}

/// JSON, and the line of its note.
const ROWS: &[(&[u8], &[u8])] = &[
    (
        b"{\"coll\":1",
        b"line 1, column 9 of the JSON: the bytes are no JSON value, or not in UTF-8",
    ),
    (b"[]", b"an object is due here"),
    (
        b"{\"coll\":1,\"ranks\":1.0}",
        b"ranks: a whole number is due here",
    ),
    (
        b"{\"coll\":1,\"ranks\":1,\"extra\":0}",
        b"extra: no member of this name may stand here",
    ),
    (
        b"{\"coll\":1,\"ranks\":1,\"steps\":[[\"barrier\"],[\"broadcast\",null]]}",
        b"steps[1][1]: a string of bytes from 0x21 to 0x7e or a whole number is due here",
    ),
    (
        b"{\"coll\":1,\"ranks\":1,\"inputs\":[{\"name\":\"a\",\"type\":\"u8\",\"rows\":[[true]]}]}",
        b"inputs[0].rows[0][0]: a whole number is due here",
    ),
    (
        b"{\"coll\":1,\"ranks\":1,\"inputs\":[{\"name\":\"a\",\"type\":\"u9\",\"rows\":[[1]]}]}",
        b"inputs[0].type (line 3 of its line text): 'u9' is no type: u8 i8 u16 i16 u32 i32 u64 i64",
    ),
    (
        b"{\"coll\":1,\"ranks\":1,\"inputs\":[{\"name\":\"a\",\"type\":\"u8\",\"rows\":[[256]]}]}",
        b"inputs[0].rows[0][0] (line 4 of its line text): '256' is no value of the type u8",
    ),
    (
        b"{\"coll\":1,\"ranks\":1,\"steps\":[[\"barrier\"],[\"scan\",\"add\",\"a\",\"b\"]]}",
        b"steps[1][1] (line 4 of its line text): 'add' is no operation: min max sum prod lor land bor band lxor bxor",
    ),
];

#[test]
fn places_in_json(rt: HostRuntime) {
    for (i, (json, expected)) in ROWS.iter().enumerate() {
        holds(&rt, "ROWS", i, is_noted(rt.alloc(), json, expected));
    }
}
