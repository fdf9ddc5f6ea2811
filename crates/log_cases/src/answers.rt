//! Answers by hand, held against what is owed.

ghost use Rattle.std.specs.Prelude.{true, false, [], Some, None, codes, if◌then◌else◌};
ghost use Rattle.std.specs.Str.{bytes_eq};

use log_answers::{Found, Knows, Owed, Sort, Text, compare};
use log_lines::{Line, read_line};
use ptl_types::{Count, Handle, Outcome, Rank};
use std::process::Abort;

/// Where one operation is ready, each word is free, and nothing has a word.
#[derive(Drop)]
struct Nothing;

impl Knows for Nothing {
    ghost known = { λ _. record {
      free = λ sort word. true;
      ready = λ word. bytes_eq word (codes "t0");
      descriptor_word = λ rank md. None;
      entry_word = λ entry. None;
      operation_word = λ number. None;
      part = λ start length. [];
      message = [];
    } };

    fn is_free(&self, _sort: Sort, _word: &[u8]) -> bool {
        true
    }

    fn is_ready(&self, word: &[u8]) -> bool {
        coll_text::is(word, b"t0")
    }

    fn descriptor_word(&self, _rank: Rank, _md: Handle) -> Option<&[u8]> {
        None
    }

    fn entry_word(&self, _entry: Handle) -> Option<&[u8]> {
        None
    }

    fn operation_word(&self, _number: u32) -> Option<&[u8]> {
        None
    }

    fn part(&self, _start: u64, _length: u64) -> &[u8] {
        b""
    }

    fn message(&self) -> &[u8] {
        b""
    }
}

/// A line, and the column from which on its answer differs; 0 where it agrees.
type Answered = (&'static [u8], usize);

/// Where the counts 5 and 6 are owed.
static OF_COUNTS: [Answered; 8] = [
    (b"0 ct_get c0 -> 5 0x6", 0),
    (b"0 ct_get c0 -> ? 6", 0),
    (b"0 ct_get c0 -> ?", 0),
    (b"0 ct_get c0 -> 5 7", 18),
    (b"0 ct_get c0 -> 5", 18),
    (b"0 ct_get c0 -> 5 6 7", 20),
    (b"0 ct_get c0 -> Stale", 16),
    (b"0 ct_get c0 -> 5 6 ok=1", 20),
];

/// Where an operation is owed that is ready.
static OF_READY: [Answered; 2] = [(b"0 ready -> t0", 0), (b"0 ready -> t1", 12)];

/// Where a message is owed that was matched, and is answered.
static OF_DELIVERED: [Answered; 2] = [
    (b"0 deliver w0 -> matched a0", 0),
    (b"0 deliver w0 -> matched", 25),
];

/// Where `ok` is owed.
static OF_WORD: [Answered; 2] = [(b"0 ct_free c0 -> ok", 0), (b"0 ct_free c0 -> Stale", 17)];

/// The column from which on the answer of a line differs; 0 where it agrees.
fn differs_at(line: &[u8], owed: &Owed) -> usize {
    match read_line(line) {
        Ok(Line::Calls(_, _, said)) => match compare(said, owed, &Nothing) {
            Found::Agrees(_) => 0,
            Found::Differs(column) => column,
        },
        _ => 1,
    }
}

/// Stops the test where one of these answers is found otherwise.
fn are_found(rt: &impl Abort, owed: &Owed, rows: &[Answered]) {
    for (line, column) in rows {
        assert!(rt; differs_at(line, owed) == *column, "differs at {column}");
    }
}

#[test]
fn counts(rt: HostRuntime) {
    let owed = Owed::Counts(Count {
        success: 5,
        failure: 6,
    });
    are_found(&rt, &owed, &OF_COUNTS);
}

#[test]
fn single_words(rt: HostRuntime) {
    are_found(&rt, &Owed::Ready, &OF_READY);
    are_found(&rt, &Owed::Word(Text::of(b"ok")), &OF_WORD);
    are_found(&rt, &Owed::Delivered(Outcome::Matched, true), &OF_DELIVERED);
}
