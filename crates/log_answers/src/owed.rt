//! What is owed as an answer.

ghost use Rattle.std.specs.Prelude.{◌≡◌, List, ℕ};
ghost use Rattle.std.specs.Option.{option_copied};
ghost use Rattle.log_answers.specs.Known.{Known};

use ptl_types::{Count, Event, Handle, Header, Outcome, Rank, UnexpectedHeader};
use std::marker::Model;

/// What a handle names.
#[derive(Clone, Copy, Debug, PartialEq, Eq)]
pub enum Sort {
    /// A counting event.
    Counter,
    /// An event queue.
    Queue,
    /// A memory descriptor.
    Descriptor,
    /// A match entry.
    Entry,
}

/// Bytes: those of a word, or of a region or a message.
#[derive(Drop)]
pub struct Text<'a> {
    bytes: &'a [u8],
}

impl<'a> Model for Text<'a> {
    ghost use Rattle.std.specs.Prelude.{List, ℕ};

    ghost Value = { List ℕ };

    ghost view = { λ t. t.bytes.now };
}

impl<'a> Text<'a> {
    /// These bytes.
    pub fn of(bytes: &'a [u8]) -> Text<'a>
        ensures { result ≡ bytes.now }
    {
        Text { bytes }
    }

    /// The bytes.
    pub fn bytes(&self) -> &'a [u8]
        ensures { result.now ≡ self.now }
    {
        self.bytes
    }
}

/// What is owed as one word, or behind the `=` of a field.
#[derive(Drop)]
pub enum Item<'a> {
    /// This word.
    Exact(Text<'a>),
    /// This number, in either spelling.
    Amount(u64),
    /// These bytes, in hexadecimal.
    Raw(Text<'a>),
    /// The word of some operation that is ready.
    SomeReady,
    /// The device's word for a new thing of this sort.
    NewThing(Sort),
    /// The log's word for a new message.
    NewMessage,
    /// The word of a thing that has none: no word says it.
    Nameless,
}

/// What is owed as a whole.
#[derive(Drop)]
pub enum Owed {
    /// This word.
    Word(Text<'static>),
    /// This number.
    Amount(u64),
    /// The two numbers of a counting event.
    Counts(Count),
    /// The bytes of a part of the region: where it begins, and its length.
    Part(u64, u64),
    /// A word for this new thing.
    New(Sort, Handle),
    /// `linked`, and a word for this new entry.
    Linked(Handle),
    /// A word for a message.
    Message,
    /// What became of a message that arrived; and where an answer is sent, a word for it.
    Delivered(Outcome, bool),
    /// An event.
    Event(Event),
    /// `found`, and a header.
    Found(UnexpectedHeader),
    /// `taken`, and a header.
    Taken(UnexpectedHeader),
    /// What is told of a message of this header.
    Told(Header),
    /// The word of some operation that is ready.
    Ready,
    /// The word of the operation of this number.
    Operation(u32),
}

/// What an answer is compared with beside what is owed: what words name where it was given, and which bytes stand there.
pub trait Knows {
    ghost known: { Self → Known };

    /// Whether a device may give this word to a new thing of this sort.
    fn is_free(&self, sort: Sort, word: &[u8]) -> bool
        ensures { result ≡ (known self.now).free sort word.now };

    /// Whether the word is that of an operation that is ready.
    fn is_ready(&self, word: &[u8]) -> bool
        ensures { result ≡ (known self.now).ready word.now };

    /// The word of a descriptor of a rank, where it has one.
    fn descriptor_word(&self, rank: Rank, md: Handle) -> Option<&[u8]>
        ensures { option_copied result ≡ (known self.now).descriptor_word rank md };

    /// The word of an entry, where it has one.
    fn entry_word(&self, entry: Handle) -> Option<&[u8]>
        ensures { option_copied result ≡ (known self.now).entry_word entry };

    /// The word of the operation of a number, where it has one.
    fn operation_word(&self, number: u32) -> Option<&[u8]>
        ensures { option_copied result ≡ (known self.now).operation_word number };

    /// A part of the region.
    fn part(&self, start: u64, length: u64) -> &[u8]
        ensures { result.now ≡ (known self.now).part start length };

    /// The bytes of the message that is told.
    fn message(&self) -> &[u8]
        ensures { result.now ≡ (known self.now).message };
}
