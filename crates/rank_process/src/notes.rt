//! What is said on standard error.

ghost use Rattle.std.specs.Prelude.{◌≡◌, ◌≤◌, ◌⊎◌, length};
ghost use Rattle.given_verdicts.specs.Saying.{answer_line};
ghost use Rattle.rank_process.specs.Notes.{Says, SaysBeside, frame_note, message_note};

use crate::printing::write_line;
use crate::status::Status;
use given_verdicts::{GivenAnswer, answer_line};
use message_codec::Fault;
use port_io::Sink;
use rank_frames::FrameFault;
use run_text::{Pieces, write_short};
use std::alloc::Global;

/// The line of a message that is none.
fn message_note(fault: Fault) -> &'static [u8]
    ensures value { result.now ≡ message_note fault }
    ensures short { length result.now ≤ 65536 }
{
    match fault {
        Fault::Short => b"a frame is refused: bytes are lacking\n",
        Fault::Kind => b"a frame is refused: an unknown kind of message\n",
        Fault::Delivered => b"a frame is refused: an unknown word on delivery\n",
        Fault::Ack => b"a frame is refused: an unknown acknowledgement\n",
        Fault::Operation => b"a frame is refused: an unknown operation\n",
        Fault::Swap => b"a frame is refused: an unknown swap\n",
        Fault::ElementType => b"a frame is refused: an unknown type\n",
        Fault::Home => b"a frame is refused: an unknown word on the descriptor\n",
        Fault::Reserved => b"a frame is refused: a reserved byte that isn't 0\n",
        Fault::StrayHome => b"a frame is refused: a descriptor that awaits nothing\n",
        Fault::OperationOfKind => b"a frame is refused: an operation that isn't its kind's\n",
        Fault::SwapOfKind => b"a frame is refused: a swap that isn't its kind's\n",
        Fault::PartElement => b"a frame is refused: a part of an element\n",
        Fault::OneElement => b"a frame is refused: a swap that isn't of one element\n",
        Fault::Long => b"a frame is refused: too many bytes\n",
    }
}

/// The line of a frame that is refused.
fn frame_note(fault: FrameFault) -> &'static [u8]
    ensures value { result.now ≡ frame_note fault }
    ensures short { length result.now ≤ 65536 }
{
    match fault {
        FrameFault::Mark => b"a frame is refused: no mark of a first start\n",
        FrameFault::Source => b"a frame is refused: of no rank\n",
        FrameFault::TooLong => b"a frame is refused: too long\n",
        FrameFault::Message(fault) => message_note(fault),
        FrameFault::OtherSource => b"a frame is refused: a message of another source\n",
        FrameFault::OtherTarget => b"a frame is refused: a message for another rank\n",
        FrameFault::OtherJob => b"a frame is refused: a message of another job\n",
        FrameFault::Lane => b"a frame is refused: a message more than its lane carries\n",
        FrameFault::NotAwaited => b"a frame is refused: an answer that nothing awaits\n",
        FrameFault::TooMany => b"a frame is refused: more bytes than come to this rank\n",
    }
}

/// Writes a note.
fn say_note<N: Sink>(notes: &mut N, note: &[u8])
    requires { length note.now ≤ 65536 }
    ensures { Says note.now (N.outflow notes.old) (N.outflow notes.new) }
{
    let _ = write_short(notes, note);
}

/// Writes the line of an answer, if there is memory for it.
fn say_answer<N: Sink>(alloc: Global, notes: &mut N, answer: &GivenAnswer)
    ensures { Says (answer_line answer.now) (N.outflow notes.old) (N.outflow notes.new) ⊎ (N.outflow notes.new ≡ N.outflow notes.old) }
{
    let Ok(line) = answer_line(alloc, answer) else {
        return;
    };
    let Ok(mut out) = Pieces::open(alloc) else {
        return;
    };
    let _ = write_line(&mut out, notes, &[], line.as_slice());
}

/// Says what a person is to know beside a status. What fails here changes nothing.
pub(crate) fn say<N: Sink>(alloc: Global, notes: &mut N, status: &Status)
    ensures { SaysBeside status.now (N.outflow notes.old) (N.outflow notes.new) }
{
    match status {
        Status::Ended => {}
        Status::Usage => say_note(
            notes,
            b"it takes no words: a rank is told by its first frame\n",
        ),
        Status::WrongRank => say_note(notes, b"the description has no such rank\n"),
        Status::Answered(answer) => say_answer(alloc, notes, answer),
        Status::ReadFault => say_note(
            notes,
            b"standard input failed, or ended before the rank did\n",
        ),
        Status::WriteFault => say_note(notes, b"standard output can't be written\n"),
        Status::NoMemory => say_note(notes, b"there is not enough memory\n"),
        Status::Frame(fault) => say_note(notes, frame_note(*fault)),
    }
}
