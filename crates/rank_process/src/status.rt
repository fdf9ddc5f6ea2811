//! How a rank ended.

ghost use Rattle.std.specs.Prelude.{◌≡◌};
ghost use Rattle.rank_process.specs.Status.{answer_number, number_of, status_of};

use given_verdicts::GivenAnswer;
use rank_frames::{FrameFault, Stop};

/// How a rank ended. Each has a number, with which the process ends.
#[derive(Debug, Drop)]
pub enum Status {
    /// It has started, nothing is ready, all that its lanes carry has come, and its lines were written.
    Ended,
    /// There are words. The source is unread.
    Usage,
    /// The description has no such rank. Nothing was written.
    WrongRank,
    /// Nothing ran, and this is why: the text is refused, or the plan in it has a flaw. The mark of the end and the answer's line were
    /// written.
    Answered(GivenAnswer),
    /// The source failed, or ended before the rank did.
    ReadFault,
    /// The sink failed.
    WriteFault,
    /// There was no memory.
    NoMemory,
    /// A frame was refused. By it nothing was done.
    Frame(FrameFault),
}

/// The number of a text of which this is the answer.
fn answer_number(answer: &GivenAnswer) -> u8
    ensures { result ≡ answer_number answer.now }
{
    match answer {
        GivenAnswer::Fails { .. } => 8,
        GivenAnswer::Holds | GivenAnswer::Unknown { .. } | GivenAnswer::Refused { .. } => 3,
    }
}

impl Status {
    /// The number with which the process ends.
    pub fn number(&self) -> u8
        ensures { result ≡ number_of self.now }
    {
        match self {
            Status::Ended => 0,
            Status::Usage | Status::WrongRank => 2,
            Status::Answered(answer) => answer_number(answer),
            Status::ReadFault => 4,
            Status::WriteFault => 5,
            Status::NoMemory => 6,
            Status::Frame(_) => 7,
        }
    }
}

/// The status of a rank that stops.
pub(crate) fn status_of(stop: Stop) -> Status
    ensures { result ≡ status_of stop }
{
    match stop {
        Stop::Read => Status::ReadFault,
        Stop::Write => Status::WriteFault,
        Stop::NoMemory => Status::NoMemory,
        Stop::Frame(fault) => Status::Frame(fault),
    }
}
