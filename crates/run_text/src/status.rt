//! How a call of a program ends.

ghost use Rattle.std.specs.Prelude.{◌≡◌};
ghost use Rattle.run_text.specs.Ending.{number_of};

/// How a call of the program ended. Each has a number, with which the process ends.
#[derive(Clone, Copy, Debug, PartialEq, Eq)]
pub enum Status {
    /// The source was read to its end, the whole result was written, and the sink was finished.
    Done,
    /// The words are no command. The source is unread, and the usage line was written.
    Usage,
    /// The text is refused, and the line that says why was written.
    Refused,
    /// The source failed. Nothing was written.
    ReadFault,
    /// The sink failed. A beginning of the text that was due was written.
    WriteFault,
    /// There was no memory. Nothing was written.
    NoMemory,
}

impl Status {
    /// The number with which the process ends.
    pub fn number(&self) -> u8
        ensures { result ≡ number_of self.now }
    {
        match self {
            Status::Done => 0,
            Status::Usage => 2,
            Status::Refused => 3,
            Status::ReadFault => 4,
            Status::WriteFault => 5,
            Status::NoMemory => 6,
        }
    }
}
