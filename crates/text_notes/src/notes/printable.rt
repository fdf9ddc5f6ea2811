//! Printable text of limited length.

ghost use Rattle.std.specs.Prelude.{◌≡◌, ◌≤◌, ◌<◌, ◌+◌, ◌++◌, ◌∷◌, List, ℕ, [], length, true};
ghost use Rattle.std.specs.List.{list_all};
ghost use Rattle.std.specs.Fmt.{decimal};
ghost use Rattle.coll_lang.specs.Language.{is_allowed};
ghost use Rattle.text_notes.specs.notes.Shown.{IsNote, hex_digit, then_shown, with_byte, with_shown};

use arrayvec::ArrayVec;
use itoa::Buffer;
use std::marker::Model;

/// The most bytes of a line, without its LF.
pub const LONGEST: usize = 200;

/// Text of at most 200 bytes from 0x20 to 0x7E. It takes no memory beside itself; what has no room is left out.
#[derive(Drop)]
pub struct Printable {
    bytes: ArrayVec<u8, 201>,
}

impl Model for Printable {
    ghost use Rattle.std.specs.Prelude.{◌≡◌, ◌≤◌, List, ℕ, length, true};
    ghost use Rattle.std.specs.List.{list_all};
    ghost use Rattle.coll_lang.specs.Language.{is_allowed};
    ghost use Rattle.text_notes.specs.declared.notes.printable.TheConstants.{LONGEST};

    ghost Value = { List ℕ };

    ghost view = { λ p. p.bytes.items };

    ghost invariant = { λ p. (length p.bytes.items ≤ LONGEST) × (list_all is_allowed p.bytes.items ≡ true) };
}

/// Whether the byte is one from 0x20 to 0x7E.
fn is_allowed(b: u8) -> bool
    ensures { result ≡ is_allowed b }
{
    matches!(b, b' '..=b'~')
}

/// The digit of a number below 16.
fn hex_digit(n: u8) -> u8
    requires { n < 16 }
    ensures value { result ≡ hex_digit n }
    ensures printable { is_allowed result ≡ true }
{
    if n < 10 { b'0' + n } else { b'a' - 10 + n }
}

impl Printable {
    /// No text.
    pub fn new() -> Printable
        ensures { result ≡ [] }
    {
        Printable {
            bytes: ArrayVec::new(),
        }
    }

    /// The bytes of the text.
    pub fn as_slice(&self) -> &[u8]
        ensures value { result.now ≡ self.now }
        // This holds of every such text, whichever call tells it.
        ensures short { length self.now ≤ LONGEST }
        ensures printable { list_all is_allowed self.now ≡ true }
    {
        self.bytes.as_slice()
    }

    /// Adds a printable byte, where it has room.
    #[tactic(auto, using(crate::proofs::notes::ShownLemmas::one_more))]
    fn push(&mut self, b: u8)
        requires { is_allowed b ≡ true }
        ensures { self.new ≡ with_byte self.old b }
    {
        if self.bytes.len() < LONGEST {
            self.bytes.push(b);
        }
    }

    /// Adds a byte, another than a printable one as `\x` and two digits.
    fn push_shown(&mut self, b: u8)
        ensures { self.new ≡ with_shown self.old b }
    {
        if is_allowed(b) {
            self.push(b);
            return;
        }
        self.push(b'\\');
        self.push(b'x');
        self.push(hex_digit(b / 16));
        self.push(hex_digit(b % 16));
    }

    /// Adds the bytes, each that isn't printable as `\x` and two digits.
    #[tactic(auto, unfolding(crate::specs::notes::Shown::then_shown))]
    pub fn show(&mut self, bytes: &[u8])
        ensures { self.new ≡ then_shown self.old bytes.now }
    {
        for b in bytes {
            self.push_shown(*b);
        }
    }

    /// Adds a number.
    pub fn show_number(&mut self, n: u64)
        ensures { self.new ≡ then_shown self.old (decimal n) }
    {
        let mut digits = Buffer::new();
        self.show(digits.format(n).as_bytes());
    }
}

/// A line of a note: printable text and its LF.
#[derive(Drop)]
pub struct NoteLine {
    bytes: ArrayVec<u8, 201>,
}

impl Model for NoteLine {
    ghost Value = { List ℕ };

    ghost view = { λ l. l.bytes.items };
}

impl NoteLine {
    /// The line that this text is.
    pub fn of(text: Printable) -> NoteLine
        ensures value { result ≡ text ++ 10 ∷ [] }
        ensures note { IsNote text }
    {
        let mut bytes = text.bytes;
        bytes.push(b'\n');
        NoteLine { bytes }
    }

    /// The bytes of the line.
    pub fn as_slice(&self) -> &[u8]
        ensures value { result.now ≡ self.now }
        ensures short { length self.now ≤ LONGEST + 1 }
    {
        self.bytes.as_slice()
    }
}
