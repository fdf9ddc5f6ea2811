//! Messages in parts: words, and what a cell, a link or a line of a plan has.

ghost use Rattle.std.specs.Prelude.{◌≡◌};
ghost use Rattle.plan_core.specs.Plan.{cell, link};
ghost use Rattle.coll_shape.specs.Outline.{buffer_at, list_bytes};
ghost use Rattle.text_notes.specs.notes.Shown.{then_shown};
ghost use Rattle.plan_top.specs.notes.Parts.{cell_bytes, filled_by, link_bytes, list_part, part_bytes, shown};

use crate::notes::counts::{bytes_to, links_to};
use crate::notes::table::Message;
use coll_lang::type_word;
use coll_shape::Shape;
use plan_core::{Cell, Link, LinkKind, Plan};
use ptl_types::ElemType;
use run_text::{kind_word, op_or_none};
use text_notes::notes::Printable;

/// What a cell has.
#[derive(Clone, Copy)]
pub(crate) enum OfCell {
    /// Its number.
    Number,
    /// Its rank.
    Rank,
    /// Its bytes.
    Length,
    /// What it needs.
    Needs,
    /// How many links come to it.
    Links,
    /// The bytes that the puts to it have together.
    Puts,
    /// The type of its elements.
    Type,
    /// The bytes of an element.
    Element,
    /// Its operation; `-` stands for none.
    Operation,
}

/// What a link has.
#[derive(Clone, Copy)]
pub(crate) enum OfLink {
    /// Its number.
    Number,
    /// Its bytes.
    Length,
    /// Where they begin in its source.
    From,
    /// Where they go in its target.
    To,
    /// What it does.
    Kind,
}

/// What a list of a buffer has.
#[derive(Clone, Copy)]
pub(crate) enum OfList {
    /// The buffer's name.
    Name,
    /// Its bytes.
    Length,
    /// The type of its elements.
    Type,
}

/// A part of a message.
#[derive(Clone, Copy)]
pub(crate) enum Part {
    /// How many ranks the plan has.
    Ranks,
    /// How many cells.
    Cells,
    /// Of the cell at fault, or the target of the link at fault.
    Cell(OfCell),
    /// Of the link's source.
    Source(OfCell),
    /// Of the link.
    Link(OfLink),
    /// Of the list that the cell holds, or that the line is for.
    List(OfList),
    /// The rank whose list it is, or which the line is for.
    Rank,
    /// The step that the line is for.
    Step,
}

/// What a message is about, by numbers: 0 where it isn't about such a thing.
#[derive(Clone, Copy)]
pub(crate) struct Subject {
    /// The cell, or the link's target.
    pub cell: u64,
    /// The link's source.
    pub source: u64,
    /// The link.
    pub link: u64,
    /// The buffer.
    pub buffer: u64,
    /// The rank whose list it is, or which the line is for.
    pub rank: u64,
    /// The step.
    pub step: u64,
}

/// The cell of this number.
#[tactic(auto, using(std::proofs::lemmas::List::get_or_past))]
pub(crate) fn cell_at(plan: &Plan, c: u64) -> Cell
    ensures { result ≡ cell plan.now c }
{
    match plan.cells().get(c as usize) {
        Some(cell) => *cell,
        None => Cell {
            rank: 0,
            ty: ElemType::U8,
            op: None,
            length: 0,
            needs: 0,
        },
    }
}

/// The link of this number.
#[tactic(auto, using(std::proofs::lemmas::List::get_or_past))]
pub(crate) fn link_at(plan: &Plan, l: u64) -> Link
    ensures { result ≡ link plan.now l }
{
    match plan.links().get(l as usize) {
        Some(link) => *link,
        None => Link {
            source: 0,
            source_offset: 0,
            length: 0,
            target: 0,
            target_offset: 0,
            kind: LinkKind::Bump,
        },
    }
}

/// Adds what a cell has.
fn show_cell(text: &mut Printable, plan: &Plan, c: u64, part: OfCell)
    ensures { text.new ≡ then_shown text.old (cell_bytes plan.now c part) }
{
    let cell = cell_at(plan, c);
    match part {
        OfCell::Number => text.show_number(c),
        OfCell::Rank => text.show_number(u64::from(cell.rank)),
        OfCell::Length => text.show_number(cell.length),
        OfCell::Needs => text.show_number(cell.needs),
        OfCell::Links => text.show_number(links_to(plan, c)),
        OfCell::Puts => text.show_number(bytes_to(plan, c)),
        OfCell::Type => text.show(type_word(cell.ty)),
        OfCell::Element => text.show_number(cell.ty.size()),
        OfCell::Operation => text.show(op_or_none(cell.op)),
    }
}

/// Adds what a link has.
fn show_link(text: &mut Printable, plan: &Plan, l: u64, part: OfLink)
    ensures { text.new ≡ then_shown text.old (link_bytes plan.now l part) }
{
    let link = link_at(plan, l);
    match part {
        OfLink::Number => text.show_number(l),
        OfLink::Length => text.show_number(link.length),
        OfLink::From => text.show_number(link.source_offset),
        OfLink::To => text.show_number(link.target_offset),
        OfLink::Kind => text.show(kind_word(link.kind)),
    }
}

/// The bytes of a list of this buffer at a rank; 0, where there is no such buffer.
fn bytes_of_list(shape: &Shape, buffer: u64) -> u64
    ensures { result ≡ list_bytes (buffer_at shape.now buffer) }
{
    shape.recall_form();
    match shape.buffers().get(buffer as usize) {
        Some(buffer) => buffer.list_bytes(),
        None => 0,
    }
}

/// The type of a buffer; u8, where there is no such buffer.
fn type_of_list(shape: &Shape, buffer: u64) -> ElemType
    ensures { result ≡ (buffer_at shape.now buffer).ty }
{
    match shape.buffers().get(buffer as usize) {
        Some(buffer) => buffer.ty,
        None => ElemType::U8,
    }
}

/// The name of a buffer; none, where there is no such buffer.
fn name_of_list(shape: &Shape, buffer: u64) -> &[u8]
    ensures { result.now ≡ (buffer_at shape.now buffer).name }
{
    match shape.buffers().get(buffer as usize) {
        Some(buffer) => buffer.name.as_slice(),
        None => &[],
    }
}

/// Adds what a list has.
fn show_list(text: &mut Printable, shape: &Shape, buffer: u64, part: OfList)
    ensures { text.new ≡ then_shown text.old (list_part shape.now buffer part) }
{
    match part {
        OfList::Name => text.show(name_of_list(shape, buffer)),
        OfList::Length => text.show_number(bytes_of_list(shape, buffer)),
        OfList::Type => text.show(type_word(type_of_list(shape, buffer))),
    }
}

/// Adds a part of a message.
fn show_part(text: &mut Printable, plan: &Plan, shape: &Shape, subject: Subject, part: Part)
    ensures { text.new ≡ then_shown text.old (part_bytes plan.now shape.now subject part) }
{
    match part {
        Part::Ranks => text.show_number(u64::from(plan.ranks())),
        Part::Cells => text.show_number(plan.cells().len() as u64),
        Part::Cell(part) => show_cell(text, plan, subject.cell, part),
        Part::Source(part) => show_cell(text, plan, subject.source, part),
        Part::Link(part) => show_link(text, plan, subject.link, part),
        Part::List(part) => show_list(text, shape, subject.buffer, part),
        Part::Rank => text.show_number(subject.rank),
        Part::Step => text.show_number(subject.step),
    }
}

/// A message that is being written.
#[derive(Drop)]
struct Filling {
    /// What was written of it.
    text: Printable,
    /// How many parts that is.
    parts: usize,
}

/// Adds a byte of the words of a message, or the next part for a `%`.
fn fill(filling: &mut Filling, plan: &Plan, shape: &Shape, subject: Subject, parts: &[Part], b: u8)
    ensures { filling.new ≡ filled_by plan.now shape.now subject parts.now filling.old b }
{
    if b != b'%' {
        filling.text.show(&[b]);
        return;
    }
    if let Some(part) = parts.get(filling.parts) {
        show_part(&mut filling.text, plan, shape, subject, *part);
        filling.parts += 1;
    }
}

/// A message with its parts.
pub(crate) fn shown(plan: &Plan, shape: &Shape, subject: Subject, message: Message) -> Printable
    ensures { result ≡ shown plan.now shape.now subject (message.words.now, message.parts.now) }
{
    let mut filling = Filling {
        text: Printable::new(),
        parts: 0,
    };
    for b in message.words {
        fill(&mut filling, plan, shape, subject, message.parts, *b);
    }
    filling.text
}
