//! What a line is by its words.

ghost use Rattle.std.specs.Prelude.{◌≡◌, option_map, IfSome, IfNone, Some, None};
ghost use Rattle.std.specs.List.{list_any};
ghost use Rattle.coll_text.specs.Text.{words, is_empty};
ghost use Rattle.coll_lang.specs.Forms.{choice, last, print, step, op_in, root_in, names_in, step_in, on_in, group_in};
ghost use Rattle.coll_lang.specs.Forms.{input_in, name_in, complete_in, form_of, alone};
ghost use Rattle.coll_lang.specs.Seen.{form, now, both_now, step_seen};

use crate::choices::ChoiceKind;
use coll_shape::StepKind;
use coll_text::{Words, is, is_name, op_named, type_named};
use ptl_types::{AtomicOp, ElemType};

/// A line after the first two. Numbers are still words.
#[derive(Drop)]
pub enum Line<'a> {
    /// `complete remote`
    Complete,
    /// `group NAME MEMBER ..`
    Group {
        /// The new group's name.
        name: &'a [u8],
        /// The words of the members, at least one, none of them empty.
        members: Words<'a>,
    },
    /// `input NAME TYPE COUNT`
    Input {
        /// The new buffer's name.
        name: &'a [u8],
        /// The type of its elements.
        ty: ElemType,
        /// The word of COUNT, which isn't empty.
        count: &'a [u8],
    },
    /// A step, with the name of its group where it is on one.
    Step(Option<&'a [u8]>, StepLine<'a>),
    /// A step of a choice text, with the name of the buffer that it makes.
    Choice(ChoiceKind, &'a [u8]),
    /// `print NAME`, with the name.
    Print(&'a [u8]),
    /// `end`
    End,
}

/// The words of a step.
#[derive(Clone, Copy)]
pub struct StepLine<'a> {
    /// What the step does.
    pub kind: StepKind,
    /// The word of ROOT, which isn't empty, where the kind takes one.
    pub root: Option<&'a [u8]>,
    /// The operation; `sum` where the kind takes none.
    pub op: AtomicOp,
    /// The names of the buffer that is read and of the one that is made, where the kind takes them.
    pub names: Option<(&'a [u8], &'a [u8])>,
}

/// OP as the next word, where the kind takes one.
#[tactic(auto, unfolding(crate::specs::Forms::op_in))]
fn op_in(is_due: bool, words: &mut Words) -> Option<AtomicOp>
    ensures some { IfSome result (λ op. op_in is_due words.old ≡ Some (op, words.new)) }
    ensures none { IfNone result (op_in is_due words.old ≡ None) }
{
    if is_due {
        op_named(words.next()?)
    } else {
        Some(AtomicOp::Sum)
    }
}

/// The word of the root, where the kind takes one. `None`: it is missing or empty.
#[tactic(auto, unfolding(crate::specs::Forms::root_in))]
fn root_in<'a>(is_due: bool, words: &mut Words<'a>) -> Option<Option<&'a [u8]>>
    ensures some { IfSome result (λ root. root_in is_due words.old ≡ Some (now root, words.new)) }
    ensures none { IfNone result (root_in is_due words.old ≡ None) }
{
    if !is_due {
        return Some(None);
    }
    let word = words.next()?;
    if word.is_empty() {
        None
    } else {
        Some(Some(word))
    }
}

/// A and B where the kind takes them, and no word more.
#[tactic(auto, unfolding(crate::specs::Forms::names_in))]
fn names_in<'a>(is_due: bool, mut words: Words<'a>) -> Option<Option<(&'a [u8], &'a [u8])>>
    ensures { option_map (option_map both_now) result ≡ names_in is_due words.entry }
{
    if is_due {
        let a = words.next()?;
        let b = words.next()?;
        if words.next().is_some() || !is_name(a) || !is_name(b) {
            return None;
        }
        Some(Some((a, b)))
    } else if words.next().is_some() {
        None
    } else {
        Some(None)
    }
}

/// The words of a step after its first.
#[tactic(auto, unfolding(crate::specs::Forms::step_in))]
fn step_in<'a>(key: &[u8], mut words: Words<'a>) -> Option<StepLine<'a>>
    ensures { option_map step_seen result ≡ step_in key.now words.entry }
{
    let kind = StepKind::named(key)?;
    let root = root_in(kind.takes_root(), &mut words)?;
    let op = op_in(kind.takes_op(), &mut words)?;
    let names = names_in(kind.takes_buffers(), words)?;
    Some(StepLine {
        kind,
        root,
        op,
        names,
    })
}

/// A step of all ranks.
fn plain_step<'a>(key: &[u8], words: Words<'a>) -> Option<Line<'a>>
    ensures { option_map form result ≡ option_map (step None) (step_in key.now words.entry) }
{
    Some(Line::Step(None, step_in(key, words)?))
}

/// The words after `on`.
#[tactic(auto, unfolding(crate::specs::Forms::on_in))]
fn on_in<'a>(mut words: Words<'a>) -> Option<Line<'a>>
    ensures { option_map form result ≡ on_in words.entry }
{
    let name = words.next()?;
    let key = words.next()?;
    if !is_name(name) {
        return None;
    }
    Some(Line::Step(Some(name), step_in(key, words)?))
}

/// Whether some word is empty.
fn is_some_empty(mut words: Words) -> bool
    ensures { result ≡ list_any is_empty words.entry }
{
    while let Some(word) = words.next() {
        if word.is_empty() {
            return true;
        }
    }
    false
}

/// The words after `group`.
#[tactic(auto, unfolding(crate::specs::Forms::group_in))]
fn group_in<'a>(mut words: Words<'a>) -> Option<Line<'a>>
    ensures { option_map form result ≡ group_in words.entry }
{
    let name = words.next()?;
    let members = words.again();
    if words.next().is_none() || !is_name(name) || is_some_empty(members.again()) {
        return None;
    }
    Some(Line::Group { name, members })
}

/// The words of an input line after its first.
#[tactic(auto, unfolding(crate::specs::Forms::input_in))]
fn input_in<'a>(mut words: Words<'a>) -> Option<Line<'a>>
    ensures { option_map form result ≡ input_in words.entry }
{
    let name = words.next()?;
    let ty = words.next()?;
    let count = words.next()?;
    if words.next().is_some() || !is_name(name) || count.is_empty() {
        return None;
    }
    let ty = type_named(ty)?;
    Some(Line::Input { name, ty, count })
}

/// The word after `complete`.
#[tactic(auto, unfolding(crate::specs::Forms::complete_in))]
fn complete_in<'a>(mut words: Words<'a>) -> Option<Line<'a>>
    ensures { option_map form result ≡ complete_in words.entry }
{
    let word = words.next()?;
    if words.next().is_some() || !is(word, b"remote") {
        return None;
    }
    Some(Line::Complete)
}

/// A line of one word, `end`.
fn end_in<'a>(mut words: Words<'a>) -> Option<Line<'a>>
    ensures { option_map form result ≡ alone last words.entry }
{
    match words.next() {
        None => Some(Line::End),
        Some(_) => None,
    }
}

/// A line of a print.
#[tactic(auto, unfolding(crate::specs::Forms::name_in))]
fn print_in<'a>(mut words: Words<'a>) -> Option<Line<'a>>
    ensures { option_map form result ≡ name_in print words.entry }
{
    let name = words.next()?;
    if words.next().is_some() || !is_name(name) {
        return None;
    }
    Some(Line::Print(name))
}

/// A line of a choice step.
#[tactic(auto, unfolding(crate::specs::Forms::name_in))]
fn choice_in<'a>(kind: ChoiceKind, mut words: Words<'a>) -> Option<Line<'a>>
    ensures { option_map form result ≡ name_in (choice kind) words.entry }
{
    let name = words.next()?;
    if words.next().is_some() || !is_name(name) {
        return None;
    }
    Some(Line::Choice(kind, name))
}

/// What a line is, wherever it stands.
#[tactic(auto, unfolding(crate::specs::Forms::form_of))]
pub fn line_of(line: &[u8]) -> Option<Line<'_>>
    ensures { option_map form result ≡ form_of (words line.now) }
{
    let mut words = Words::of(line);
    let key = words.next()?;
    if is(key, b"complete") {
        complete_in(words)
    } else if is(key, b"group") {
        group_in(words)
    } else if is(key, b"input") {
        input_in(words)
    } else if is(key, b"on") {
        on_in(words)
    } else if is(key, b"elect") {
        choice_in(ChoiceKind::Elect, words)
    } else if is(key, b"tickets") {
        choice_in(ChoiceKind::Tickets, words)
    } else if is(key, b"print") {
        print_in(words)
    } else if is(key, b"end") {
        end_in(words)
    } else {
        plain_step(key, words)
    }
}
