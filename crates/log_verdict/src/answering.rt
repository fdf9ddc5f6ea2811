//! What comes of an answer: it is held against what is owed, or what is owed is written where none was given.

ghost use Rattle.std.specs.Prelude.{◌≡◌, ◌∷◌, [], IfOk, OnOk};
ghost use Rattle.std.specs.Option.{option_copied};
ghost use Rattle.log_words.specs.Reading.{flaw_at};
ghost use Rattle.log_answers.specs.Printing.{owed_text};
ghost use Rattle.log_verdict.specs.Answering.{agreed, answered, came, chosen_name, compared_with, filled_as, is_taken, judged_as};
ghost use Rattle.log_verdict.specs.Answering.{said_or_owed, said_text, step_of, taken_as, told_step, with_answer, with_new, with_sent_if};
ghost use Rattle.log_seats.specs.Answers.{left};
ghost use Rattle.log_verdict.specs.Scenes.{known_at};
ghost use Rattle.log_verdict.specs.declared.answering.Compared.TheVariants as compares;
ghost use Rattle.log_verdict.specs.declared.answering.Step.TheVariants as steps;

use crate::filling::{chosen_name, filled_text};
use crate::kept::Kept;
use crate::printed::Printed;
use crate::scenes::{Around, Scene};
use log_answers::names::Flights;
use log_answers::{Found, Owed, Sort, compare, push_owed};
use log_seats::{After, Seat};
use log_words::{Flaw, LineFault, Rest, Word, at};
use ptl_types::{Message, NoMemory};
use std::alloc::Global;

/// What came of a line.
#[derive(Drop)]
pub enum Step {
    /// The log goes on.
    Goes,
    /// The log goes on, and this is owed as the answer, each word behind a space.
    Owes(Printed),
    /// The line has a flaw.
    Refused(LineFault),
    /// From this column on it isn't what is owed: what was said, and what was owed.
    Differs(usize, Printed, Printed),
}

/// What an answer was found to be: what is owed, with the word for what is new; or not from a column on, with what was said and is owed.
#[derive(Drop)]
pub enum Compared<'w> {
    Agrees(Option<Word<'w>>),
    Differs(usize, Printed, Printed),
}

/// A flaw of a line.
pub(crate) fn flawed(column: usize, flaw: Flaw) -> Step
    ensures { result ≡ steps.Refused (flaw_at column flaw) }
{
    Step::Refused(at(column, flaw))
}

/// A text behind a space.
pub(crate) fn spaced(alloc: Global, text: &[u8]) -> Result<Printed, NoMemory>
    ensures { IfOk result (λ p. p ≡ 32 ∷ text.now) }
{
    let mut out = Vec::new(alloc);
    out.push(b' ')?;
    out.extend_from_slice(text)?;
    Ok(Printed::of(out))
}

/// Words, each behind a space.
fn said_text(alloc: Global, words: &Rest) -> Result<Printed, NoMemory>
    ensures { IfOk result (λ p. p ≡ said_text words.now.words) }
{
    let mut left = words.again();
    let mut out = Vec::new(alloc);
    while let Some(word) = left.next() {
        out.push(b' ')?;
        out.extend_from_slice(word.text())?;
    }
    Ok(Printed::of(out))
}

/// What is owed, each word behind a space.
fn owed_text(alloc: Global, owed: &Owed, around: &Around) -> Result<Printed, NoMemory>
    ensures { IfOk result (λ p. p ≡
        owed_text (known_at (option_copied around.now.seat) around.now.bytes.now around.now.others.now) owed.now) }
{
    let mut out = Vec::new(alloc);
    push_owed(&mut out, owed, around)?;
    Ok(Printed::of(out))
}

/// An answer that differs from this column on.
fn differs<'w>(
    alloc: Global,
    column: usize,
    said: &Rest<'w>,
    owed: &Owed,
    around: &Around,
) -> Result<Compared<'w>, NoMemory>
    ensures { IfOk result (λ c. c ≡ compares.Differs column (said_text said.now.words)
        (owed_text (known_at (option_copied around.now.seat) around.now.bytes.now around.now.others.now) owed.now)) }
{
    let text = said_text(alloc, said)?;
    let due = owed_text(alloc, owed, around)?;
    Ok(Compared::Differs(column, text, due))
}

/// Compares what was said with what is owed: by an interface among others, or by none of a message with these bytes.
#[tactic(auto, unfolding(crate::specs::Answering::compared_with))]
fn held_against<'x, 'w>(
    alloc: Global,
    others: &'x Scene,
    seat: Option<&'x Seat>,
    bytes: &'x [u8],
    said: &Rest<'w>,
    owed: &Owed,
) -> Result<Compared<'w>, NoMemory>
    ensures { IfOk result (λ c. c ≡ compared_with (known_at (option_copied seat.entry) bytes.now others.now) owed.now said.now) }
{
    let around = Around {
        others,
        seat,
        bytes,
    };
    match compare(said.again(), owed, &around) {
        Found::Agrees(word) => Ok(Compared::Agrees(word)),
        Found::Differs(column) => {
            let compared = differs(alloc, column, said, owed, &around)?;
            Ok(compared)
        }
    }
}

/// Whether another message under way has the word that one is given which is sent.
fn is_taken(flights: &Flights, sent: &Option<Message>, word: Option<&[u8]>) -> bool
    ensures { result ≡ is_taken sent.now (option_copied word.entry) flights.now }
{
    match sent {
        Some(_) => match word {
            Some(word) => flights.age(word).is_some(),
            None => false,
        },
        None => false,
    }
}

/// An interface with the word for what is new there.
fn with_new(alloc: Global, seat: Kept, owed: &Owed, word: Option<&[u8]>) -> Result<Kept, NoMemory>
    ensures { IfOk result (λ s. s ≡ with_new owed.now (option_copied word.entry) seat) }
{
    let mut seat = seat;
    match owed {
        Owed::New(sort, handle) => {
            seat.bind(alloc, *sort, *handle, word)?;
            Ok(seat)
        }
        Owed::Linked(handle) => {
            seat.bind(alloc, Sort::Entry, *handle, word)?;
            Ok(seat)
        }
        _ => Ok(seat),
    }
}

/// Sends a message, where there is one.
fn send(
    alloc: Global,
    flights: &mut Flights,
    sent: Option<Message>,
    word: Option<&[u8]>,
) -> Result<(), NoMemory>
    ensures { OnOk result (flights.new ≡ with_sent_if sent (option_copied word.entry) flights.old) }
{
    match sent {
        Some(message) => flights.send(alloc, message, word),
        None => Ok(()),
    }
}

/// Takes the word that an answer gives for what is new, and its message, and puts the interface back.
#[tactic(auto, unfolding(crate::specs::Answering::with_answer))]
pub(crate) fn takes(
    alloc: Global,
    scene: &mut Scene,
    seat: Kept,
    after: After,
    word: Option<&[u8]>,
) -> Result<(), NoMemory>
    ensures { OnOk result (scene.new ≡ with_answer (left seat after) (option_copied word.entry) scene.old) }
{
    let After { owed, sent } = after;
    let named = with_new(alloc, seat, &owed, word)?;
    let rank = named.seat().nic.rank();
    scene.seats.put(u64::from(rank), named)?;
    send(alloc, &mut scene.flights, sent, word)
}

/// Takes a word that stands in this column, unless another message under way has it.
fn taken_as(
    alloc: Global,
    scene: &mut Scene,
    seat: Kept,
    after: After,
    word: Option<&[u8]>,
    column: usize,
) -> Result<Step, NoMemory>
    ensures { IfOk result (λ step.
        came scene.new step ≡ taken_as (left seat after) (option_copied word.entry) column steps.Goes scene.old) }
{
    if is_taken(&scene.flights, &after.sent, word) {
        return Ok(flawed(column, Flaw::NameTaken));
    }
    takes(alloc, scene, seat, after, word)?;
    Ok(Step::Goes)
}

/// Takes an answer that is what is owed.
fn agreed(
    alloc: Global,
    scene: &mut Scene,
    seat: Kept,
    after: After,
    word: Option<Word>,
) -> Result<Step, NoMemory>
    ensures { IfOk result (λ step. came scene.new step ≡ agreed word.entry (left seat after) scene.old) }
{
    match word {
        Some(word) => {
            let column = word.column();
            let step = taken_as(alloc, scene, seat, after, Some(word.text()), column)?;
            Ok(step)
        }
        None => {
            let step = taken_as(alloc, scene, seat, after, None, 1)?;
            Ok(step)
        }
    }
}

/// The bytes of a name, where there is one.
fn bytes_of(name: &Option<Printed>) -> Option<&[u8]>
    ensures { option_copied result ≡ name.now }
{
    match name {
        Some(name) => Some(name.as_slice()),
        None => None,
    }
}

/// Writes what is owed, with this name for what is new.
fn filled_as(
    alloc: Global,
    scene: &mut Scene,
    seat: Kept,
    after: After,
    word: Option<&[u8]>,
) -> Result<Step, NoMemory>
    ensures { IfOk result (λ step.
        came scene.new step ≡ filled_as (option_copied word.entry) (left seat after) scene.old) }
{
    let text = filled_text(alloc, scene, seat.seat(), &after.owed, word)?;
    takes(alloc, scene, seat, after, word)?;
    Ok(Step::Owes(text))
}

/// Writes what is owed, with a name of its own for what is new.
fn filled(alloc: Global, scene: &mut Scene, seat: Kept, after: After) -> Result<Step, NoMemory>
    ensures { IfOk result (λ step.
        came scene.new step ≡ filled_as (chosen_name scene.old.flights seat after.owed) (left seat after) scene.old) }
{
    let name = chosen_name(alloc, &scene.flights, seat.seat(), &after.owed)?;
    let step = filled_as(alloc, scene, seat, after, bytes_of(&name))?;
    Ok(step)
}

/// Holds an answer of an interface against what is owed, and takes the word that it gives.
fn judged(
    alloc: Global,
    scene: &mut Scene,
    seat: Kept,
    said: &Rest,
    after: After,
) -> Result<Step, NoMemory>
    ensures { IfOk result (λ step. came scene.new step ≡
        judged_as (compared_with (known_at (Some seat) [] scene.old) after.owed said.now) (left seat after) scene.old) }
{
    let compared = held_against(alloc, scene, Some(seat.seat()), b"", said, &after.owed)?;
    match compared {
        Compared::Agrees(word) => {
            let step = agreed(alloc, scene, seat, after, word)?;
            Ok(step)
        }
        Compared::Differs(column, text, due) => Ok(Step::Differs(column, text, due)),
    }
}

/// Holds an answer of an interface against what is owed, and takes the word that it gives; where there is none, what is owed is written.
#[tactic(auto, unfolding(crate::specs::Answering::answered))]
pub(crate) fn answered(
    alloc: Global,
    scene: &mut Scene,
    seat: Kept,
    said: Option<Rest>,
    after: After,
) -> Result<Step, NoMemory>
    ensures { IfOk result (λ step. came scene.new step ≡ answered (left seat after) said.entry scene.old) }
{
    match said {
        Some(said) => {
            let step = judged(alloc, scene, seat, &said, after)?;
            Ok(step)
        }
        None => {
            let step = filled(alloc, scene, seat, after)?;
            Ok(step)
        }
    }
}

/// What comes of an answer of no interface.
fn step_of(compared: Compared) -> Step
    ensures { result ≡ step_of compared.entry }
{
    match compared {
        Compared::Agrees(_) => Step::Goes,
        Compared::Differs(column, said, owed) => Step::Differs(column, said, owed),
    }
}

/// Compares what was said with what is owed, where no interface answers.
pub(crate) fn said_of(
    alloc: Global,
    scene: &Scene,
    said: &Rest,
    owed: &Owed,
    bytes: &[u8],
) -> Result<Step, NoMemory>
    ensures { IfOk result (λ step. step ≡ told_step scene.now bytes.now owed.now said.now) }
{
    let compared = held_against(alloc, scene, None, bytes, said, owed)?;
    let step = step_of(compared);
    Ok(step)
}

/// Writes what is owed where no interface answers.
fn owes(alloc: Global, scene: &Scene, owed: &Owed) -> Result<Step, NoMemory>
    ensures { IfOk result (λ step. step ≡ steps.Owes (owed_text (known_at None [] scene.now) owed.now)) }
{
    let around = Around {
        others: scene,
        seat: None,
        bytes: b"",
    };
    let text = owed_text(alloc, owed, &around)?;
    Ok(Step::Owes(text))
}

/// Compares an answer that may not be there: then what is owed is written.
pub(crate) fn said_or_owed(
    alloc: Global,
    scene: &Scene,
    said: Option<Rest>,
    owed: &Owed,
) -> Result<Step, NoMemory>
    ensures { IfOk result (λ step. step ≡ said_or_owed scene.now owed.now said.entry) }
{
    match said {
        Some(said) => {
            let step = said_of(alloc, scene, &said, owed, b"")?;
            Ok(step)
        }
        None => {
            let step = owes(alloc, scene, owed)?;
            Ok(step)
        }
    }
}
