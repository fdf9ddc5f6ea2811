//! Lines of notes, written by hand.

use crate::answers::{are_equal, gives};
use text_notes::notes::{About, Cause, LineFlaw, Note, Printable, cut_word, note_text};

fn note(line: u32, column: u32, cause: Cause, found: &[u8]) -> Note {
    Note {
        line,
        column,
        path: Printable::new(),
        about: About::Refused(cause),
        found: cut_word(found),
    }
}

fn text_of(note: Note, expected: &[u8]) -> bool {
    are_equal(note_text(&note).as_slice(), expected)
}

#[test]
fn lines_of_notes(rt: HostRuntime) {
    let none = note(7, 14, Cause::BadLine(LineFlaw::NoOperation), b"add");
    let line =
        b"line 7, column 14: 'add' is no operation: min max sum prod lor land bor band lxor bxor";
    gives!(rt; text_of(none, line), true);
    let byte = note(3, 2, Cause::BadByte, b"\t");
    let line = b"line 3, column 2: '\\x09' is no byte of a line: 0x20 to 0x7e are";
    gives!(rt; text_of(byte, line), true);
    let long = note(0, 0, Cause::TooLong { most: 1_048_576 }, b"");
    gives!(rt; text_of(long, b"the text has more than 1048576 bytes"), true);
    let name = note(5, 9, Cause::NameTaken, b"aaaaaaaaaaaaaaaaaaaaaaaa");
    let cut =
        b"line 5, column 9: 'aaaaaaaaaaaaaaaaaaaa..' is the name of a buffer or a group already";
    gives!(rt; text_of(name, cut), true);
}
