//! Judging a step.

ghost use Rattle.std.specs.Prelude.{ℕ, if◌then◌else◌, ◌+◌, ◌≡◌, ◌≤◌, ◌<◌, ◌||◌, ◌&&◌, length, IfOk, nat_le, is_some, option_map, Some};
ghost use Rattle.std.specs.Prelude.{None};
ghost use Rattle.coll_text.specs.Cuts.{ReadsNumber};
ghost use Rattle.coll_lang.specs.Answers.{Gives};
ghost use Rattle.coll_lang.specs.Language.{members_in, root_number, rooted_line, source_named, step_on, step_line};
ghost use Rattle.coll_lang.specs.Made.{IfMade, Places, made_count, put, source_seen};
ghost use Rattle.coll_lang.specs.Seen.{both_now, now, step_seen};
ghost use Rattle.coll_lang.specs.States.{past};

use crate::fault::{LineFault, Refusal};
use crate::forms::StepLine;
use crate::naming::{buffer_named, group_named, is_taken};
use crate::reader::Reader;
use coll_shape::{
    Buffer, CollStep, MOST_BUFFERS, MOST_ELEMENTS, MOST_RANKS, MOST_STEPS, Name, Spread, can_read,
    made_holders, made_length,
};
use coll_text::{Number, number_at};
use ptl_types::{ElemType, Rank};

/// The buffer that a step reads. A step without buffers has an empty one in its stead.
#[derive(Clone, Copy)]
pub struct Source<'a> {
    /// Its number.
    pub number: u32,
    /// Its name.
    pub name: &'a [u8],
    /// The type of its elements.
    pub ty: ElemType,
    /// How many elements a holder has.
    pub len: u64,
    /// The ranks that hold it.
    pub holders: &'a [Rank],
}

/// A step that may be taken.
#[derive(Drop)]
pub struct Made {
    /// The step.
    pub step: CollStep,
    /// The number of the group that it names.
    pub on: Option<u32>,
    /// The buffer that it makes.
    pub buffer: Option<Buffer>,
}

/// The number that ROOT is; 0 where the step takes none.
fn root_at(root: Option<&[u8]>) -> Number
    ensures { ReadsNumber result (root_number (now root.entry)) }
{
    match root {
        Some(word) => number_at(word),
        None => Number::Small(0),
    }
}

/// The buffer that a step reads, where the new name isn't taken.
#[tactic(auto, unfolding(crate::specs::Language::source_named))]
fn source_named<'a>(
    reader: &'a Reader,
    names: Option<(&'a [u8], &'a [u8])>,
) -> Result<Source<'a>, LineFault>
    ensures exact { Gives source_seen result (source_named (past reader.now) (option_map both_now names.entry)) }
    ensures small { IfOk result (λ s. s.len ≤ MOST_ELEMENTS) }
    ensures number { IfOk result (λ s. s.number ≤ MOST_BUFFERS) }
{
    let Some((a, b)) = names else {
        return Ok(Source {
            number: 0,
            name: &[],
            ty: ElemType::U8,
            len: 0,
            holders: &[],
        });
    };
    if is_taken(reader.groups.as_slice(), reader.buffers.as_slice(), b) {
        return Err(LineFault::Refused(Refusal::NameTaken));
    }
    let Some((number, buffer)) = buffer_named(reader.buffers.as_slice(), a) else {
        return Err(LineFault::Refused(Refusal::UnknownBuffer));
    };
    Ok(Source {
        number,
        name: buffer.name.as_slice(),
        ty: buffer.ty,
        len: buffer.spread.length,
        holders: buffer.spread.holders.as_slice(),
    })
}

/// Whether no such step may be added, or no buffer that it makes.
fn is_full(reader: &Reader, makes: bool) -> bool
    ensures { result ≡ (nat_le MOST_STEPS (length reader.now.steps.items)
        || (makes && nat_le MOST_BUFFERS (length reader.now.buffers.items))) }
{
    reader.steps.len() >= MOST_STEPS || (makes && reader.buffers.len() >= MOST_BUFFERS)
}

/// How a step is refused whose group isn't one.
fn without_group(reader: &Reader, makes: bool) -> LineFault
    ensures { result ≡ LineFault.Refused (if nat_le MOST_STEPS (length reader.now.steps.items)
        || (makes && nat_le MOST_BUFFERS (length reader.now.buffers.items)) then Refusal.TooMany else Refusal.BadGroup) }
{
    if is_full(reader, makes) {
        LineFault::Refused(Refusal::TooMany)
    } else {
        LineFault::Refused(Refusal::BadGroup)
    }
}

/// The step and what it makes, on members that were found, with a root that is a place.
#[tactic(auto, unfolding(crate::specs::Language::step_on))]
fn step_on(
    reader: &Reader,
    words: StepLine,
    root: Rank,
    source: Source,
    on: Option<u32>,
    members: &[Rank],
) -> Result<Made, LineFault>
    requires nonempty { 1 ≤ length members.now }
    requires at_most { length members.now ≤ MOST_RANKS }
    requires place { root < length members.now }
    requires small { source.len ≤ MOST_ELEMENTS }
    requires are { members.now ≡ members_in (past reader.now) on }
    ensures exact { Gives (put (past reader.now)) result (step_on (past reader.now) (step_seen words.entry) root
        (source_seen source.entry) (Some on)) }
    ensures small { IfOk result (λ made. IfMade made.buffer) }
    ensures room { IfOk result (λ made. length reader.now.buffers.items + made_count made.buffer ≤ MOST_BUFFERS) }
{
    let step = words
        .kind
        .step(root, words.op, source.number, reader.buffers.len() as u32);
    if !can_read(step, members, source.len, source.holders) {
        return Err(LineFault::Refused(Refusal::WrongShape));
    }
    if is_full(reader, words.names.is_some()) {
        return Err(LineFault::Refused(Refusal::TooMany));
    }
    let length = made_length(step, members, source.len, source.holders);
    if length > MOST_ELEMENTS {
        return Err(LineFault::Refused(Refusal::TooLarge));
    }
    let buffer = match words.names {
        None => None,
        Some((_, b)) => Some(Buffer {
            name: Name::copied(reader.alloc, b)?,
            ty: source.ty,
            spread: Spread {
                length,
                holders: made_holders(reader.alloc, step, members)?,
            },
        }),
    };
    Ok(Made { step, on, buffer })
}

/// Judges a step whose root is that place. `None`: it is no place of any group.
#[tactic(auto, unfolding(crate::specs::Language::rooted_line, crate::specs::Language::step_on))]
fn judge_rooted(
    reader: &Reader,
    on: Option<&[u8]>,
    words: StepLine,
    place: Option<Rank>,
) -> Result<Made, LineFault>
    ensures exact { (root : ℕ) → Places place root → Gives (put (past reader.now)) result
        (rooted_line (past reader.now) (now on.entry) (step_seen words.entry) root) }
    ensures small { IfOk result (λ made. IfMade made.buffer) }
    ensures room { IfOk result (λ made. length reader.now.buffers.items + made_count made.buffer ≤ MOST_BUFFERS) }
{
    let source = source_named(reader, words.names)?;
    let everyone = reader.everyone.as_slice();
    let Some((on, members)) = group_named(everyone, reader.groups.as_slice(), on) else {
        return Err(without_group(reader, words.names.is_some()));
    };
    match place {
        Some(root) if (root as usize) < members.len() => {
            step_on(reader, words, root, source, on, members)
        }
        _ => Err(LineFault::Refused(Refusal::BadRoot)),
    }
}

/// Judges a step.
#[tactic(auto, unfolding(crate::specs::Language::step_line))]
pub fn judge_step(reader: &Reader, on: Option<&[u8]>, words: StepLine) -> Result<Made, LineFault>
    ensures exact { Gives (put (past reader.now)) result (step_line (past reader.now) (now on.entry) (step_seen words.entry)) }
    ensures small { IfOk result (λ made. IfMade made.buffer) }
    ensures room { IfOk result (λ made. length reader.now.buffers.items + made_count made.buffer ≤ MOST_BUFFERS) }
{
    match root_at(words.root) {
        Number::Malformed => Err(LineFault::Refused(Refusal::BadNumber)),
        Number::Small(n) if n < u64::from(MOST_RANKS) => judge_rooted(
            reader,
            on,
            words,
            Some(n as u32),
        ),
        Number::Small(_) => judge_rooted(reader, on, words, None),
        Number::Huge => judge_rooted(reader, on, words, None),
    }
}
