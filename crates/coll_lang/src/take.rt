//! Taking one line.

ghost use Rattle.std.specs.Prelude.{◌≡◌, ◌≤◌, ◌<◌, IfOk, IfSome, Ok, length};
ghost use Rattle.std.specs.List.{list_all};
ghost use Rattle.number_lists.specs.Numbers.{from_to};
ghost use Rattle.coll_text.specs.Text.{words};
ghost use Rattle.coll_text.specs.Values.{data_line};
ghost use Rattle.coll_shape.specs.WellFormed.{most_ranks};
ghost use Rattle.coll_lang.specs.Answers.{Gives};
ghost use Rattle.coll_lang.specs.Language.{choice_line, data_due, form_line, form_since, group_line, input_line, is_allowed, judge};
ghost use Rattle.coll_lang.specs.Language.{later_line, line_at, may_stand, print_line, ranks_in, stands_at, stands_in, step_line};
ghost use Rattle.coll_lang.specs.Language.{unless_flawed, values_line, version_of, with_values};
ghost use Rattle.coll_lang.specs.Made.{members_said, rank_read};
ghost use Rattle.coll_lang.specs.Seen.{form, now, step_seen};
ghost use Rattle.coll_lang.specs.States.{past, Takes};

use crate::adding::{add_buffer, add_group, add_made};
use crate::choices::{ChoiceKind, ChoiceStep};
use crate::fault::{LineFault, Refusal};
use crate::forms::{Line, StepLine, line_of};
use crate::naming::{buffer_named, elements_of, is_taken};
use crate::reader::Reader;
use crate::stage::Stage;
use crate::stepping::{Made, judge_step};
use coll_shape::{
    Buffer, Group, InputList, MOST_BUFFERS, MOST_ELEMENTS, MOST_GIVEN, MOST_GROUPS, MOST_PRINTS,
    MOST_RANKS, MOST_RANKS_IN_ONE, MOST_STEPS, Name, RankList, Spread, Version,
};
use coll_text::{Flaw, Number, ValuesFault, Words, data_line, is, number_at, number_between};
use ptl_types::{ElemType, Rank};
use std::alloc::{AllocError, Global};

/// The most ranks of a version.
fn most_ranks(version: Version) -> u32
    ensures value { result ≡ most_ranks version }
    ensures most { result ≤ MOST_RANKS }
{
    match version {
        Version::One => MOST_RANKS_IN_ONE,
        Version::Two => MOST_RANKS,
    }
}

/// `coll 1` or `coll 2`
fn version_of(line: &[u8]) -> Option<Version>
    ensures { result ≡ version_of line.now }
{
    if is(line, b"coll 1") {
        Some(Version::One)
    } else if is(line, b"coll 2") {
        Some(Version::Two)
    } else {
        None
    }
}

/// `ranks N`
#[tactic(auto, unfolding(crate::specs::Language::ranks_in))]
fn ranks_in(most: u32, line: &[u8]) -> Option<u32>
    ensures value { result ≡ ranks_in most (words line.now) }
    ensures least { IfSome result (λ n. 1 ≤ n) }
    ensures most { IfSome result (λ n. n ≤ most) }
{
    let mut words = Words::of(line);
    let key = words.next()?;
    let number = words.next()?;
    if words.next().is_some() || !is(key, b"ranks") {
        return None;
    }
    number_between(1, most, number)
}

/// Whether what stands from a version on stands in a text of a version.
fn stands_in(since: Version, version: Version) -> bool
    ensures { result ≡ stands_in since version }
{
    match since {
        Version::One => true,
        Version::Two => matches!(version, Version::Two),
    }
}

/// The version from which on there are such lines.
fn form_since(line: &Line) -> Version
    ensures { result ≡ form_since (form line.now) }
{
    match line {
        Line::Group { .. } | Line::Choice(_, _) | Line::Step(Some(_), _) => Version::Two,
        Line::Step(None, words) => words.kind.since(),
        Line::Complete | Line::Input { .. } | Line::Print(_) | Line::End => Version::One,
    }
}

/// Whether such a line may stand at this stage.
fn stands_at(stage: Stage, line: &Line) -> bool
    ensures { result ≡ stands_at stage (form line.now) }
{
    match stage {
        Stage::Options => true,
        Stage::Groups => !matches!(line, Line::Complete | Line::Choice(_, _)),
        Stage::Inputs => !matches!(
            line,
            Line::Complete | Line::Group { .. } | Line::Choice(_, _)
        ),
        Stage::Steps => matches!(line, Line::Step(_, _) | Line::Print(_) | Line::End),
        Stage::Choosing => matches!(line, Line::Choice(_, _) | Line::Print(_) | Line::End),
        Stage::Prints => matches!(line, Line::Print(_) | Line::End),
        Stage::Header | Stage::Ranks | Stage::Data { .. } | Stage::Finished => false,
    }
}

/// Whether such a line may stand here.
fn may_stand(version: Version, stage: Stage, line: &Line) -> bool
    ensures { result ≡ may_stand version stage (form line.now) }
{
    stands_in(form_since(line), version) && stands_at(stage, line)
}

/// The ranks from 0 on, so many.
#[tactic(auto, using(crate::proofs::Ranks::begins, crate::proofs::Ranks::one_more))]
pub fn all_ranks(alloc: Global, ranks: u32) -> Result<RankList, AllocError>
    ensures are { IfOk result (λ list. list ≡ from_to 0 ranks) }
    ensures many { IfOk result (λ list. length list ≡ ranks) }
{
    let mut list = Vec::new(alloc);
    for r in 0..ranks {
        list.push(r)?;
    }
    Ok(RankList::of(list))
}

/// The stage where this many data lines are still due.
fn data_due(left: u32, ty: ElemType, count: u32) -> Stage
    ensures { result ≡ data_due left ty count }
{
    if left == 0 {
        Stage::Inputs
    } else {
        Stage::Data { left, ty, count }
    }
}

/// The member that a word is. `None`: it is no rank from `least` on.
#[tactic(auto, unfolding(crate::specs::Made::rank_read))]
fn rank_at(ranks: u32, least: u32, word: &[u8]) -> Result<Option<Rank>, LineFault>
    ensures exact { Gives (λ rank. rank) result (rank_read ranks least word.now) }
    ensures least { IfOk result (λ rank. IfSome rank (λ r. least ≤ r)) }
    ensures below { IfOk result (λ rank. IfSome rank (λ r. r < ranks)) }
{
    match number_at(word) {
        Number::Malformed => Err(LineFault::Refused(Refusal::BadNumber)),
        Number::Small(n) if u64::from(least) <= n && n < u64::from(ranks) => Ok(Some(n as u32)),
        _ => Ok(None),
    }
}

/// The members that the words are. `None`: one isn't a rank, or they don't rise.
#[tactic(auto, using(crate::proofs::Members::word_by_word))]
fn members_said(
    alloc: Global,
    ranks: u32,
    mut members: Words,
) -> Result<Option<RankList>, LineFault>
    requires { ranks ≤ MOST_RANKS }
    ensures exact { Gives (λ list. list) result (members_said ranks members.entry) }
    ensures some { IfOk result (λ list. IfSome list (λ l. 1 ≤ length l)) }
    ensures at_most { IfOk result (λ list. IfSome list (λ l. length l ≤ MOST_RANKS)) }
{
    let mut list = Vec::new(alloc);
    let mut least = 0u32;
    let mut is_broken = false;
    while let Some(word) = members.next() {
        match rank_at(ranks, least, word)? {
            Some(rank) => {
                list.push(rank)?;
                least = rank + 1;
            }
            None => is_broken = true,
        }
    }
    if is_broken || list.is_empty() {
        Ok(None)
    } else {
        Ok(Some(RankList::of(list)))
    }
}

/// `group NAME MEMBER ..`
#[tactic(auto, unfolding(crate::specs::Language::group_line, crate::specs::Made::members_said))]
fn group_line(reader: &mut Reader, name: &[u8], members: Words) -> Result<(), LineFault>
    ensures { Takes result reader.new (group_line (past reader.old) name.now members.entry) }
{
    let members = members_said(reader.alloc, reader.ranks, members)?;
    if is_taken(reader.groups.as_slice(), reader.buffers.as_slice(), name) {
        return Err(LineFault::Refused(Refusal::NameTaken));
    }
    if reader.groups.len() >= MOST_GROUPS {
        return Err(LineFault::Refused(Refusal::TooMany));
    }
    let Some(members) = members else {
        return Err(LineFault::Refused(Refusal::BadGroup));
    };
    let name = Name::copied(reader.alloc, name)?;
    add_group(&mut reader.groups, Group { name, members })?;
    reader.stage = Stage::Groups;
    Ok(())
}

/// A buffer that all ranks hold.
fn held_by_all(
    alloc: Global,
    everyone: &[Rank],
    name: &[u8],
    ty: ElemType,
    length: u64,
) -> Result<Buffer, AllocError>
    ensures { IfOk result (λ b. b ≡ record { name = name.now; ty = ty; spread = record { length = length; holders = everyone.now } }) }
{
    Ok(Buffer {
        name: Name::copied(alloc, name)?,
        ty,
        spread: Spread {
            length,
            holders: RankList::copied(alloc, everyone)?,
        },
    })
}

/// `input NAME TYPE COUNT`
#[tactic(auto, unfolding(crate::specs::Language::input_line))]
fn input_line(reader: &mut Reader, name: &[u8], ty: ElemType, count: &[u8]) -> Result<(), LineFault>
    ensures { Takes result reader.new (input_line (past reader.old) name.now ty count.now) }
{
    let Some(count) = number_between(1, MOST_GIVEN, count) else {
        return Err(LineFault::Refused(Refusal::BadNumber));
    };
    if is_taken(reader.groups.as_slice(), reader.buffers.as_slice(), name) {
        return Err(LineFault::Refused(Refusal::NameTaken));
    }
    if reader.buffers.len() >= MOST_BUFFERS {
        return Err(LineFault::Refused(Refusal::TooMany));
    }
    let everyone = reader.everyone.as_slice();
    let buffer = held_by_all(reader.alloc, everyone, name, ty, u64::from(count))?;
    add_buffer(&mut reader.buffers, buffer)?;
    reader.inputs += 1;
    reader.stage = data_due(reader.ranks, ty, count);
    Ok(())
}

/// A step.
fn step_line(reader: &mut Reader, on: Option<&[u8]>, words: StepLine) -> Result<(), LineFault>
    ensures { Takes result reader.new (step_line (past reader.old) (now on.entry) (step_seen words.entry)) }
{
    let Made { step, on, buffer } = judge_step(reader, on, words)?;
    add_made(&mut reader.buffers, buffer)?;
    reader.steps.push(step)?;
    reader.on.push(on)?;
    reader.stage = Stage::Steps;
    Ok(())
}

/// A step of a choice text.
#[tactic(auto, unfolding(crate::specs::Language::choice_line))]
fn choice_line(reader: &mut Reader, kind: ChoiceKind, name: &[u8]) -> Result<(), LineFault>
    ensures { Takes result reader.new (choice_line (past reader.old) kind name.now) }
{
    if is_taken(reader.groups.as_slice(), reader.buffers.as_slice(), name) {
        return Err(LineFault::Refused(Refusal::NameTaken));
    }
    if reader.choices.len() >= MOST_STEPS || reader.buffers.len() >= MOST_BUFFERS {
        return Err(LineFault::Refused(Refusal::TooMany));
    }
    let everyone = reader.everyone.as_slice();
    let buffer = held_by_all(reader.alloc, everyone, name, ElemType::U64, 1)?;
    let name = Name::copied(reader.alloc, name)?;
    add_buffer(&mut reader.buffers, buffer)?;
    reader.choices.push(match kind {
        ChoiceKind::Elect => ChoiceStep::Elect(name),
        ChoiceKind::Tickets => ChoiceStep::Tickets(name),
    })?;
    reader.stage = Stage::Choosing;
    Ok(())
}

/// `print NAME`
#[tactic(auto, unfolding(crate::specs::Language::print_line))]
fn print_line(reader: &mut Reader, name: &[u8]) -> Result<(), LineFault>
    ensures { Takes result reader.new (print_line (past reader.old) name.now) }
{
    let Some((number, buffer)) = buffer_named(reader.buffers.as_slice(), name) else {
        return Err(LineFault::Refused(Refusal::UnknownBuffer));
    };
    if reader.prints.len() >= MOST_PRINTS {
        return Err(LineFault::Refused(Refusal::TooMany));
    }
    let printed = reader.printed + elements_of(buffer);
    if printed > MOST_ELEMENTS {
        return Err(LineFault::Refused(Refusal::TooLarge));
    }
    reader.prints.push(number)?;
    reader.printed = printed;
    reader.stage = Stage::Prints;
    Ok(())
}

/// A line after the first two that may stand where it does.
#[tactic(auto, unfolding(crate::specs::Language::form_line))]
fn form_line(reader: &mut Reader, line: Line) -> Result<(), LineFault>
    ensures { Takes result reader.new (form_line (past reader.old) (form line.entry)) }
{
    match line {
        Line::Complete => {
            reader.stage = Stage::Groups;
            reader.remote = true;
            Ok(())
        }
        Line::Group { name, members } => group_line(reader, name, members),
        Line::Input { name, ty, count } => input_line(reader, name, ty, count),
        Line::Step(on, words) => step_line(reader, on, words),
        Line::Choice(kind, name) => choice_line(reader, kind, name),
        Line::Print(name) => print_line(reader, name),
        Line::End => {
            reader.stage = Stage::Finished;
            Ok(())
        }
    }
}

/// The values of a data line.
pub(crate) fn values_of(
    alloc: Global,
    ty: ElemType,
    count: u32,
    line: &[u8],
) -> Result<InputList, LineFault>
    ensures { Gives (λ list. list) result (unless_flawed (data_line ty count (words line.now))) }
{
    match data_line(alloc, ty, u64::from(count), line) {
        Ok(bytes) => Ok(InputList::of(bytes)),
        Err(ValuesFault::Flawed(Flaw::Malformed)) => Err(LineFault::Refused(Refusal::BadLine)),
        Err(ValuesFault::Flawed(Flaw::NoValue)) => Err(LineFault::Refused(Refusal::BadNumber)),
        Err(ValuesFault::NoMemory) => Err(LineFault::NoMemory),
    }
}

/// The values of the next data line.
pub(crate) fn take_values(
    reader: &mut Reader,
    left: u32,
    ty: ElemType,
    count: u32,
    values: InputList,
) -> Result<(), LineFault>
    ensures { Takes result reader.new (Ok (with_values (past reader.old) left ty count values)) }
{
    reader.given.push(values)?;
    reader.stage = data_due(left.saturating_sub(1), ty, count);
    Ok(())
}

/// A data line.
#[tactic(auto, unfolding(crate::specs::Language::values_line))]
fn values_line(
    reader: &mut Reader,
    left: u32,
    ty: ElemType,
    count: u32,
    line: &[u8],
) -> Result<(), LineFault>
    ensures { Takes result reader.new (values_line (past reader.old) left ty count line.now) }
{
    let values = values_of(reader.alloc, ty, count, line)?;
    take_values(reader, left, ty, count, values)
}

/// A line after the first two that is no data line.
#[tactic(auto, unfolding(crate::specs::Language::later_line))]
fn later_line(reader: &mut Reader, line: &[u8]) -> Result<(), LineFault>
    ensures { Takes result reader.new (later_line (past reader.old) line.now) }
{
    let Some(line) = line_of(line) else {
        return Err(LineFault::Refused(Refusal::BadLine));
    };
    if !may_stand(reader.version, reader.stage, &line) {
        return Err(LineFault::Refused(Refusal::BadLine));
    }
    form_line(reader, line)
}

/// Line 1.
#[tactic(auto, unfolding(crate::specs::Language::line_at))]
fn header_line(reader: &mut Reader, line: &[u8]) -> Result<(), LineFault>
    ensures { Takes result reader.new (line_at Stage.Header (past reader.old) line.now) }
{
    let Some(version) = version_of(line) else {
        return Err(LineFault::Refused(Refusal::BadHeader));
    };
    reader.stage = Stage::Ranks;
    reader.version = version;
    Ok(())
}

/// Line 2.
#[tactic(auto, unfolding(crate::specs::Language::line_at))]
fn ranks_line(reader: &mut Reader, line: &[u8]) -> Result<(), LineFault>
    ensures { Takes result reader.new (line_at Stage.Ranks (past reader.old) line.now) }
{
    let Some(ranks) = ranks_in(most_ranks(reader.version), line) else {
        return Err(LineFault::Refused(Refusal::BadRanks));
    };
    reader.everyone = all_ranks(reader.alloc, ranks)?;
    reader.ranks = ranks;
    reader.stage = Stage::Options;
    Ok(())
}

/// A line of allowed bytes, by the stage.
#[tactic(auto, unfolding(crate::specs::Language::line_at))]
fn line_at(reader: &mut Reader, line: &[u8]) -> Result<(), LineFault>
    ensures { Takes result reader.new (line_at reader.old.stage (past reader.old) line.now) }
{
    match reader.stage {
        Stage::Header => header_line(reader, line),
        Stage::Ranks => ranks_line(reader, line),
        Stage::Data { left, ty, count } => values_line(reader, left, ty, count, line),
        Stage::Options
        | Stage::Groups
        | Stage::Inputs
        | Stage::Steps
        | Stage::Choosing
        | Stage::Prints => later_line(reader, line),
        Stage::Finished => Err(LineFault::Refused(Refusal::AfterEnd)),
    }
}

/// Whether each byte of the line is one from 0x20 to 0x7E.
pub(crate) fn are_allowed(line: &[u8]) -> bool
    ensures { result ≡ list_all is_allowed line.now }
{
    line.iter().all(|b| matches!(*b, b' '..=b'~'))
}

/// Takes one line, judged by the lines before it. After an `Err` the reader is given up.
#[tactic(auto, unfolding(crate::specs::Language::judge))]
pub fn take_line(reader: &mut Reader, line: &[u8]) -> Result<(), LineFault>
    ensures { Takes result reader.new (judge (past reader.old) line.now) }
{
    if !are_allowed(line) {
        return Err(LineFault::Refused(Refusal::BadByte));
    }
    line_at(reader, line)
}
