//! Why JSON isn't taken.

ghost use Rattle.std.specs.Prelude.{◌≡◌};
ghost use Rattle.json_lang.specs.Answers.{refusal_of};

use coll_lang::Refusal;

/// Why a value has no line text.
#[derive(Clone, Copy, Debug, PartialEq, Eq, Drop)]
pub enum JsonFault {
    /// The value isn't of the form.
    BadForm,
    /// There was no memory for the text.
    NoMemory,
}

/// Why JSON bytes aren't read.
#[derive(Debug, Drop)]
pub enum JsonRefusal {
    /// The bytes aren't UTF-8, or hold no JSON value.
    BadJson,
    /// The value isn't of the form.
    BadForm,
    /// The first refusal of the line text, or that the bytes or the line text are too long.
    Refused {
        /// The first line of the line text that breaks a rule, counted from 1, or 0 where something is too long.
        line: u32,
        /// The rule.
        name: Refusal,
    },
    /// There was no memory.
    NoMemory,
}

impl JsonRefusal {
    /// The line and the name that are written for it: line 0 where no line of the line text is to blame. `None`: there was
    /// no memory, which refuses nothing.
    pub fn refusal(&self) -> Option<(u32, Refusal)>
        ensures value { result ≡ refusal_of self.now }
    {
        match self {
            JsonRefusal::BadJson => Some((0, Refusal::BadJson)),
            JsonRefusal::BadForm => Some((0, Refusal::BadForm)),
            JsonRefusal::Refused { line, name } => Some((*line, *name)),
            JsonRefusal::NoMemory => None,
        }
    }
}
