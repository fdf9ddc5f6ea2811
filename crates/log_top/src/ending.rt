//! How a call of the program ends, and what is said of it on standard error.

ghost use Rattle.std.specs.Prelude.{◌≡◌, ◌≤◌, length};
ghost use Rattle.log_top.specs.Ending.{Explained, ExplainedFlaw, Says, alone, flaw_note};

use log_words::Flaw;
use port_io::Sink;
use run_text::{Status, write_short};

/// How a call ended, and what is wrong with a text that is refused.
#[derive(Clone, Copy)]
pub(crate) struct Ended {
    pub(crate) status: Status,
    pub(crate) flaw: Option<Flaw>,
}

/// A line for each form of the command line.
const FORMS: &[u8] = b"judge: reads a log, and writes whether each answer is what is owed
fill: reads a log of calls without answers, and writes it with those that are owed
serve: writes the answer that is owed to each line, before it reads the next
any-order: the messages of one lane may overtake each other
";

impl Ended {
    /// It ended so, and nothing is to be known of a text.
    pub(crate) fn alone(status: Status) -> Ended
        ensures { result ≡ alone status }
    {
        Ended { status, flaw: None }
    }
}

/// What a person is to know of a flaw.
fn flaw_note(flaw: Flaw) -> &'static [u8]
    ensures value { result.now ≡ flaw_note flaw }
    ensures short { length result.now ≤ 65536 }
{
    match flaw {
        Flaw::TooLong => b"the line is longer than 16777216 bytes\n",
        Flaw::BadByte => b"a byte may not stand in a line\n",
        Flaw::BadSpace =>
            b"a word is empty: one space parts two words, and none stands at an end\n",
        Flaw::BadHeader => b"line 1 is `ni 1`, line 2 is `ranks N`\n",
        Flaw::BadLine => b"a word is missing or one too many, or the line begins with no rank\n",
        Flaw::BadCall => b"there is no such call\n",
        Flaw::BadWord => b"this word may not stand there\n",
        Flaw::WordTwice => b"a field or a flag stands twice\n",
        Flaw::BadNumber => b"it is no number, or too large a one\n",
        Flaw::BadHex => b"it isn't bytes in hexadecimal\n",
        Flaw::NoAnswer => b"the call has no answer\n",
        Flaw::NameTaken => b"what is named so is there already\n",
        Flaw::NotOpen => b"the rank has no open interface\n",
        Flaw::UnknownMessage => b"no message under way has this name\n",
        Flaw::Unended => b"the text ends before its line `end`\n",
        Flaw::AfterEnd => b"bytes follow `end`\n",
    }
}

/// Says this on standard error. What fails here changes nothing.
fn say<N: Sink>(notes: &mut N, text: &[u8])
    requires { length text.now ≤ 65536 }
    ensures { Says text.now (N.outflow notes.old) (N.outflow notes.new) }
{
    let _ = write_short(notes, text);
}

/// Says what is wrong with a text, where something is.
fn say_flaw<N: Sink>(notes: &mut N, flaw: Option<Flaw>)
    ensures { ExplainedFlaw flaw (N.outflow notes.old) (N.outflow notes.new) }
{
    if let Some(flaw) = flaw {
        say(notes, flaw_note(flaw));
    }
}

/// Says what a person is to know of how a call ended. What fails here changes nothing.
pub(crate) fn explain<N: Sink>(notes: &mut N, ended: Ended)
    ensures { Explained ended.status ended.flaw (N.outflow notes.old) (N.outflow notes.new) }
{
    match ended.status {
        Status::Done => {}
        Status::Usage => say(notes, FORMS),
        Status::Refused => say_flaw(notes, ended.flaw),
        Status::ReadFault => say(notes, b"standard input can't be read\n"),
        Status::WriteFault => say(notes, b"standard output can't be written\n"),
        Status::NoMemory => say(notes, b"there is not enough memory\n"),
    }
}
