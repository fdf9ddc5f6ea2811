//! What comes of a line.

ghost use Rattle.std.specs.Prelude.{◌≡◌, IfOk, is_some, option_copied};
ghost use Rattle.log_verdict.specs.Answering.{came};
ghost use Rattle.log_verdict.specs.Scenes.{seat_at};
ghost use Rattle.log_verdict.specs.Steps.{Asks, CallComes, CallsSeat, LineCame, Makes, MakesUnlessLacking, Opens, answer_flaw, call_flaw};
ghost use Rattle.log_verdict.specs.Steps.{flaw_or, is_opening, lacks, loses, may_lack, place_flaw, posted_name, region_of, said_if};
ghost use Rattle.log_verdict.specs.Steps.{says_no_memory, taken_by, taken_word, tells, tells_flight};

use crate::answering::{Step, answered, flawed, said_of, said_or_owed};
use crate::arriving::deliver;
use crate::kept::Kept;
use crate::scenes::Scene;
use crate::settling::settle;
use coll_text::is;
use log_answers::Owed;
use log_answers::names::Flight;
use log_lines::{Call, Line};
use log_seats::{Seat, bytes_in, refused, word};
use log_words::call_fields::Opening;
use log_words::{Flaw, LineFault, Rest, Word, at};
use ptl_types::{Bytes, NoMemory, Rank};
use std::alloc::Global;

/// The bytes that a region begins with.
fn region_of(alloc: Global, region: &Option<Word>) -> Result<Bytes, NoMemory>
    ensures { IfOk result (λ b. b.list ≡ region_of region.now) }
{
    match region {
        Some(word) => {
            let bytes = bytes_in(alloc, word.text())?;
            Ok(Bytes::from_vec(bytes))
        }
        None => Ok(Bytes::empty(alloc)),
    }
}

/// Opens an interface.
fn open(
    alloc: Global,
    scene: &mut Scene,
    rank: Rank,
    opening: &Opening,
    said: Option<Rest>,
) -> Result<Step, NoMemory>
    ensures { IfOk result (λ step. Opens rank opening.now said.entry scene.old (came scene.new step)) }
{
    let region = region_of(alloc, &opening.region)?;
    match guarded_ni::open(alloc, rank, scene.ranks, opening.limits, region) {
        Ok(nic) => {
            let step = said_or_owed(alloc, scene, said, &word(b"ok"))?;
            let kept = Kept::of(alloc, Seat::new(alloc, nic))?;
            scene.seats.put(u64::from(rank), kept)?;
            Ok(step)
        }
        Err(fault) => {
            let owed = refused(fault)?;
            let step = said_or_owed(alloc, scene, said, &owed)?;
            Ok(step)
        }
    }
}

/// Whether a device may lack memory for a call.
fn may_lack(call: &Call) -> bool
    ensures { result ≡ may_lack call.now }
{
    matches!(
        call,
        Call::Open(_) | Call::EqAlloc(_) | Call::Start(_) | Call::Triggered(_, _, _, _)
    )
}

/// Whether a device said that it lacked memory.
fn says_no_memory(said: &Rest) -> bool
    ensures { result ≡ says_no_memory said.now.words }
{
    let mut left = said.again();
    match left.next() {
        Some(word) => is(word.text(), b"NoMemory") && left.is_over(),
        None => false,
    }
}

/// Whether a device said that it lacked memory for a call, and may.
#[tactic(auto, unfolding(crate::specs::Steps::lacks))]
fn lacks(fills: bool, call: &Call, said: &Rest) -> bool
    ensures { result ≡ lacks fills call.now said.now }
{
    !fills && may_lack(call) && says_no_memory(said)
}

/// Whether the call opens an interface.
fn is_opening(call: &Call) -> bool
    ensures { result ≡ is_opening call.now }
{
    matches!(call, Call::Open(_))
}

/// What is wrong with the place of a call: the interface is open where it is opened, or isn't where it is used.
fn place_flaw(opening: bool, there: bool) -> Option<Flaw>
    ensures { result ≡ place_flaw opening there }
{
    if opening {
        if there { Some(Flaw::NameTaken) } else { None }
    } else if there {
        None
    } else {
        Some(Flaw::NotOpen)
    }
}

/// What is wrong with an answer: one stands where it is to be written, or none where it is judged.
fn answer_flaw(fills: bool, said: &Rest) -> Option<LineFault>
    ensures { result ≡ answer_flaw fills said.now }
{
    let column = said.column();
    let over = said.is_over();
    if fills {
        if over {
            None
        } else {
            Some(at(column, Flaw::BadWord))
        }
    } else if over {
        Some(at(column, Flaw::NoAnswer))
    } else {
        None
    }
}

/// The first of two flaws.
fn flaw_or(flaw: Option<Flaw>, later: Option<LineFault>) -> Option<LineFault>
    ensures { result ≡ flaw_or flaw later }
{
    match flaw {
        Some(flaw) => Some(at(1, flaw)),
        None => later,
    }
}

/// What is wrong with a call before it is made.
#[tactic(auto, unfolding(crate::specs::Steps::call_flaw))]
fn call_flaw(fills: bool, call: &Call, said: &Rest, there: bool) -> Option<LineFault>
    ensures { result ≡ call_flaw fills call.now said.now there }
{
    flaw_or(
        place_flaw(is_opening(call), there),
        answer_flaw(fills, said),
    )
}

/// The word that a triggered operation is given.
fn posted_name<'c, 'a>(call: &'c Call<'a>) -> Option<&'c Word<'a>>
    ensures { option_copied result ≡ posted_name call.now }
{
    match call {
        Call::Triggered(name, _, _, _) => Some(name),
        _ => None,
    }
}

/// The column of this word, where an operation that waits has it.
fn taken_by(name: Option<&Word>, seat: Option<&Seat>) -> Option<usize>
    ensures { result ≡ taken_by (option_copied name.entry) (option_copied seat.entry) }
{
    let Some(name) = name else {
        return None;
    };
    let Some(seat) = seat else {
        return None;
    };
    if seat.operation(name).is_some() {
        Some(name.column())
    } else {
        None
    }
}

/// The column of the word that a triggered operation is given, where one that waits has it.
#[tactic(auto, unfolding(crate::specs::Steps::taken_word))]
fn taken_word(call: &Call, seat: Option<&Seat>) -> Option<usize>
    ensures { result ≡ taken_word call.now (option_copied seat.entry) }
{
    taken_by(posted_name(call), seat)
}

/// A call that an open interface answers.
fn asks(
    alloc: Global,
    scene: &mut Scene,
    rank: Rank,
    call: &Call,
    said: Option<Rest>,
) -> Result<Step, NoMemory>
    ensures { IfOk result (λ step. Asks call.now rank said.entry scene.old (came scene.new step)) }
{
    let Some(mut seat) = scene.seats.take(u64::from(rank)) else {
        return Err(NoMemory);
    };
    let after = seat.answer(alloc, call)?;
    let step = answered(alloc, scene, seat, said, after)?;
    Ok(step)
}

/// A call of an open interface, but for `deliver`.
fn call_open(
    alloc: Global,
    scene: &mut Scene,
    rank: Rank,
    call: &Call,
    said: Option<Rest>,
) -> Result<Step, NoMemory>
    ensures { IfOk result (λ step. CallsSeat call.now rank said.entry scene.old (came scene.new step)) }
{
    let named = scene.seat(rank);
    match taken_word(call, named) {
        Some(column) => Ok(flawed(column, Flaw::NameTaken)),
        None => {
            let step = asks(alloc, scene, rank, call, said)?;
            Ok(step)
        }
    }
}

/// A call that may be made.
#[tactic(auto, unfolding(crate::specs::Steps::Makes))]
fn make(
    alloc: Global,
    scene: &mut Scene,
    rank: Rank,
    call: &Call,
    said: Option<Rest>,
) -> Result<Step, NoMemory>
    ensures { IfOk result (λ step. Makes call.now rank said.entry scene.old (came scene.new step)) }
{
    match call {
        Call::Open(opening) => {
            let step = open(alloc, scene, rank, opening, said)?;
            Ok(step)
        }
        Call::Deliver(message) => {
            let step = deliver(alloc, scene, rank, message, said)?;
            Ok(step)
        }
        _ => {
            let step = call_open(alloc, scene, rank, call, said)?;
            Ok(step)
        }
    }
}

/// The answer that was given.
fn said_if<'a>(fills: bool, said: Rest<'a>) -> Option<Rest<'a>>
    ensures { result ≡ said_if fills said.entry }
{
    if fills { None } else { Some(said) }
}

/// A call that has no flaw.
fn unless_lacking(
    alloc: Global,
    scene: &mut Scene,
    fills: bool,
    rank: Rank,
    call: &Call,
    said: Rest,
) -> Result<Step, NoMemory>
    ensures { IfOk result (λ step. MakesUnlessLacking fills call.now rank said.entry scene.old (came scene.new step)) }
{
    let lacking = lacks(fills, call, &said);
    if lacking {
        Ok(Step::Goes)
    } else {
        let step = make(alloc, scene, rank, call, said_if(fills, said))?;
        Ok(step)
    }
}

/// A call of a rank.
fn call(
    alloc: Global,
    scene: &mut Scene,
    fills: bool,
    rank: Rank,
    call: &Call,
    said: Rest,
) -> Result<Step, NoMemory>
    ensures { IfOk result (λ step. CallComes fills call.now rank said.entry scene.old (came scene.new step)) }
{
    let there = scene.is_open(rank);
    match call_flaw(fills, call, &said, there) {
        Some(fault) => Ok(Step::Refused(fault)),
        None => {
            let step = unless_lacking(alloc, scene, fills, rank, call, said)?;
            Ok(step)
        }
    }
}

/// What is told of a message, where it is under way.
fn tells_flight(
    alloc: Global,
    scene: &Scene,
    flight: Option<&Flight>,
    message: &Word,
    said: &Rest,
) -> Result<Step, NoMemory>
    ensures { IfOk result (λ step.
        came scene.now step ≡ tells_flight (option_copied flight.entry) message.now said.now scene.now) }
{
    let Some(flight) = flight else {
        return Ok(flawed(message.column(), Flaw::UnknownMessage));
    };
    if said.is_over() {
        return Ok(Step::Goes);
    }
    let owed = Owed::Told(*flight.message().header());
    let bytes = flight.message().bytes().as_slice();
    let step = said_of(alloc, scene, said, &owed, bytes)?;
    Ok(step)
}

/// What is told of a message under way.
#[tactic(auto, unfolding(crate::specs::Steps::tells))]
fn tells(alloc: Global, scene: &Scene, message: &Word, said: &Rest) -> Result<Step, NoMemory>
    ensures { IfOk result (λ step. came scene.now step ≡ tells message.now said.now scene.now) }
{
    match scene.flights.age(message.text()) {
        Some(age) => {
            let step = tells_flight(alloc, scene, scene.flights.at(age), message, said)?;
            Ok(step)
        }
        None => Ok(flawed(message.column(), Flaw::UnknownMessage)),
    }
}

/// A message is lost.
#[tactic(auto, unfolding(crate::specs::Steps::loses))]
fn loses(scene: &mut Scene, message: &Word) -> Step
    ensures { came scene.new result ≡ loses message.now scene.old }
{
    match scene.flights.age(message.text()) {
        Some(age) => {
            let _ = scene.flights.take(age);
            Step::Goes
        }
        None => flawed(message.column(), Flaw::UnknownMessage),
    }
}

/// What comes of a line that is read. Where `fills` is set the answers of calls are written, and else they are judged.
#[tactic(auto, unfolding(crate::specs::Steps::LineCame))]
pub(crate) fn line_step(
    alloc: Global,
    scene: &mut Scene,
    fills: bool,
    line: &Line,
) -> Result<Step, NoMemory>
    ensures { IfOk result (λ step. LineCame fills line.now scene.old (came scene.new step)) }
{
    match line {
        Line::Note => Ok(Step::Goes),
        Line::Tells(message, said) => {
            let step = tells(alloc, scene, message, said)?;
            Ok(step)
        }
        Line::Loses(message) => Ok(loses(scene, message)),
        Line::Settles => {
            settle(alloc, scene)?;
            Ok(Step::Goes)
        }
        Line::Calls(rank, made, said) => {
            let step = call(alloc, scene, fills, *rank, made, said.again())?;
            Ok(step)
        }
    }
}
