//! Why a log is refused.

ghost use Rattle.std.specs.Prelude.{◌≡◌};
ghost use Rattle.log_words.specs.Flaws.{flaw_name};

/// Why a log is refused, where its line isn't one or names what isn't there. On one line the first that holds in this order of reading
/// is told: bytes, spaces, then word by word from the left.
#[derive(Clone, Copy, Debug, PartialEq, Eq)]
pub enum Flaw {
    /// The line has more than 16,777,216 bytes.
    TooLong,
    /// A byte below 0x20 or above 0x7E.
    BadByte,
    /// Two spaces beside each other, or one at an end of the line, or an empty line.
    BadSpace,
    /// Line 1 isn't `ni 1`, or line 2 isn't `ranks N`.
    BadHeader,
    /// The line begins with neither a rank nor a word that lines begin with, a word is missing, or one is too many.
    BadLine,
    /// There is no such call.
    BadCall,
    /// The word isn't one of those that may stand here.
    BadWord,
    /// A field or a flag stands twice.
    WordTwice,
    /// It isn't a number, or too large a one.
    BadNumber,
    /// It isn't bytes in hexadecimal.
    BadHex,
    /// A call without an answer.
    NoAnswer,
    /// The word names a message that is under way, or an operation that waits, already.
    NameTaken,
    /// The rank has no open interface, or one that is opened again has.
    NotOpen,
    /// No message under way has this word.
    UnknownMessage,
    /// The text ends before `end`, or the line before its LF.
    Unended,
    /// Bytes follow `end`.
    AfterEnd,
}

impl Flaw {
    /// The name that a refusal is printed with.
    pub fn name(self) -> &'static [u8]
        ensures { result.now ≡ flaw_name self }
    {
        match self {
            Flaw::TooLong => b"TooLong",
            Flaw::BadByte => b"BadByte",
            Flaw::BadSpace => b"BadSpace",
            Flaw::BadHeader => b"BadHeader",
            Flaw::BadLine => b"BadLine",
            Flaw::BadCall => b"BadCall",
            Flaw::BadWord => b"BadWord",
            Flaw::WordTwice => b"WordTwice",
            Flaw::BadNumber => b"BadNumber",
            Flaw::BadHex => b"BadHex",
            Flaw::NoAnswer => b"NoAnswer",
            Flaw::NameTaken => b"NameTaken",
            Flaw::NotOpen => b"NotOpen",
            Flaw::UnknownMessage => b"UnknownMessage",
            Flaw::Unended => b"Unended",
            Flaw::AfterEnd => b"AfterEnd",
        }
    }
}

/// A flaw, and the column where it stands, from 1.
#[derive(Clone, Copy, Debug, PartialEq, Eq)]
pub struct LineFault {
    /// The column of the byte, or of the first byte of the word.
    pub column: usize,
    /// What is wrong there.
    pub flaw: Flaw,
}

/// A flaw at a column.
pub fn at(column: usize, flaw: Flaw) -> LineFault
    ensures { result ≡ record { column = column; flaw = flaw } }
{
    LineFault { column, flaw }
}
