//! Writing the one spelling of a description.

ghost use Rattle.std.specs.Prelude.{◌≡◌, [], ◌∷◌, ◌++◌, length, map, take, get_or, IfOk, OnOk};
ghost use Rattle.std.specs.List.{flat_map, join_with_byte};
ghost use Rattle.std.specs.Fmt.{decimal};
ghost use Rattle.coll_text.specs.Text.{line};
ghost use Rattle.coll_text.specs.Elements.{elements, value_word};
ghost use Rattle.coll_shape.specs.Outline.{no_group};
ghost use Rattle.coll_shape.specs.Rows.{joined};
ghost use Rattle.coll_lang.specs.Seen.{choices_seen};
ghost use Rattle.coll_lang.specs.Spaced.{spaced};
ghost use Rattle.coll_lang.specs.Words.{type_word, op_word, version_word};
ghost use Rattle.coll_lang.specs.Spelling.{choice_name, choice_words, choices_text, chosen_text, group_text, groups_text, head_text};
ghost use Rattle.coll_lang.specs.Spelling.{if_there, input_text, inputs_text, name_at, no_choice, on_words, prints_text, remote_text};
ghost use Rattle.coll_lang.specs.Spelling.{step_words, steps_text, text};

use crate::choices::{ChoiceKind, ChoiceStep, Choices};
use crate::description::Description;
use crate::text::Text;
use coll_shape::{Buffer, CollStep, Group, InputList, Version};
use coll_text::{push_data_line, push_line};
use itoa::Buffer as Digits;
use ptl_types::{AtomicOp, ElemType, NoMemory, Rank};
use std::alloc::{AllocError, Global};

/// The type as it is written.
pub fn type_word(ty: ElemType) -> &'static [u8]
    ensures { result.now ≡ type_word ty }
{
    match ty {
        ElemType::U8 => b"u8",
        ElemType::I8 => b"i8",
        ElemType::U16 => b"u16",
        ElemType::I16 => b"i16",
        ElemType::U32 => b"u32",
        ElemType::I32 => b"i32",
        ElemType::U64 => b"u64",
        ElemType::I64 => b"i64",
    }
}

/// The operation as it is written.
pub fn op_word(op: AtomicOp) -> &'static [u8]
    ensures { result.now ≡ op_word op }
{
    match op {
        AtomicOp::Min => b"min",
        AtomicOp::Max => b"max",
        AtomicOp::Sum => b"sum",
        AtomicOp::Prod => b"prod",
        AtomicOp::Lor => b"lor",
        AtomicOp::Land => b"land",
        AtomicOp::Bor => b"bor",
        AtomicOp::Band => b"band",
        AtomicOp::Lxor => b"lxor",
        AtomicOp::Bxor => b"bxor",
    }
}

/// The number of a version as it is written.
fn version_word(version: Version) -> &'static [u8]
    ensures { result.now ≡ version_word version }
{
    match version {
        Version::One => b"1",
        Version::Two => b"2",
    }
}

/// The name of a buffer by its number. No name where there is no such buffer.
fn name_at(buffers: &[Buffer], i: u32) -> &[u8]
    ensures { result.now ≡ name_at buffers.now i }
{
    match buffers.get(i as usize) {
        Some(buffer) => buffer.name.as_slice(),
        None => b"",
    }
}

/// The lines 1 and 2.
fn print_head(out: &mut Vec<u8>, version: Version, ranks: u32) -> Result<(), AllocError>
    ensures { OnOk result (out.new.items ≡ out.old.items ++ head_text version ranks) }
{
    let mut digits = Digits::new();
    push_line(out, &[b"coll", version_word(version)])?;
    push_line(out, &[b"ranks", digits.format(ranks).as_bytes()])
}

/// `complete remote`, where it stands.
fn print_remote(out: &mut Vec<u8>, remote: bool) -> Result<(), AllocError>
    ensures { OnOk result (out.new.items ≡ out.old.items ++ remote_text remote) }
{
    if remote {
        push_line(out, &[b"complete", b"remote"])?;
    }
    Ok(())
}

/// A space and a word.
fn push_word(out: &mut Vec<u8>, word: &[u8]) -> Result<(), AllocError>
    ensures { OnOk result (out.new.items ≡ out.old.items ++ 32 ∷ word.now) }
{
    out.push(b' ')?;
    out.extend_from_slice(word)
}

/// A space and the decimal of a number.
fn push_number(out: &mut Vec<u8>, n: u32) -> Result<(), AllocError>
    ensures { OnOk result (out.new.items ≡ out.old.items ++ 32 ∷ decimal n) }
{
    let mut digits = Digits::new();
    push_word(out, digits.format(n).as_bytes())
}

/// The members of a group, each after a space.
fn print_members(out: &mut Vec<u8>, members: &[Rank]) -> Result<(), AllocError>
    ensures { OnOk result (out.new.items ≡ out.old.items ++ flat_map (λ r. 32 ∷ decimal r) members.now) }
{
    for r in members {
        push_number(out, *r)?;
    }
    Ok(())
}

/// The line of a group.
#[tactic(auto, using(crate::proofs::Spacing::group_line))]
fn print_group(out: &mut Vec<u8>, group: &Group) -> Result<(), AllocError>
    ensures { OnOk result (out.new.items ≡ out.old.items ++ group_text group.now) }
{
    out.extend_from_slice(b"group")?;
    push_word(out, group.name.as_slice())?;
    print_members(out, group.members.as_slice())?;
    out.push(b'\n')?;
    Ok(())
}

/// The lines of all groups.
fn print_groups(out: &mut Vec<u8>, groups: &[Group]) -> Result<(), AllocError>
    ensures { OnOk result (out.new.items ≡ out.old.items ++ groups_text groups.now) }
{
    for group in groups {
        print_group(out, group)?;
    }
    Ok(())
}

/// A line of four words, which may be borrowed from different places.
fn push_four<'a>(
    out: &mut Vec<u8>,
    key: &'a [u8],
    second: &'a [u8],
    third: &'a [u8],
    fourth: &'a [u8],
) -> Result<(), AllocError>
    ensures { OnOk result (out.new.items ≡ out.old.items ++ line (key.now ∷ second.now ∷ third.now ∷ fourth.now ∷ [])) }
{
    push_line(out, &[key, second, third, fourth])
}

/// The line of an input.
fn print_input(out: &mut Vec<u8>, buffer: &Buffer) -> Result<(), AllocError>
    ensures { OnOk result (out.new.items ≡ out.old.items ++ input_text buffer.now) }
{
    let mut digits = Digits::new();
    let count = digits.format(buffer.spread.length).as_bytes();
    push_four(
        out,
        b"input",
        buffer.name.as_slice(),
        type_word(buffer.ty),
        count,
    )
}

/// The data lines of an input, one a rank.
fn print_lists(out: &mut Vec<u8>, ty: ElemType, lists: &[InputList]) -> Result<(), AllocError>
    ensures { OnOk result (out.new.items ≡ out.old.items ++ flat_map (λ l. line (map (value_word ty) (elements ty l))) lists.now) }
{
    for list in lists {
        push_data_line(out, ty, list.as_slice())?;
    }
    Ok(())
}

/// Each input with its data lines.
fn print_inputs(
    out: &mut Vec<u8>,
    ranks: usize,
    buffers: &[Buffer],
    lists: &[InputList],
) -> Result<(), AllocError>
    ensures { OnOk result (out.new.items ≡ out.old.items ++ inputs_text ranks buffers.now lists.now) }
{
    let mut rest = lists;
    for buffer in buffers {
        let (own, others) = rest.split_at(ranks.min(rest.len()));
        print_input(out, buffer)?;
        print_lists(out, buffer.ty, own)?;
        rest = others;
    }
    Ok(())
}

/// The root after a space, where there is one.
#[tactic(auto, using(crate::proofs::Spacing::one_word, crate::proofs::Spacing::no_word))]
fn print_root(out: &mut Vec<u8>, root: Option<Rank>) -> Result<(), AllocError>
    ensures { OnOk result (out.new.items ≡ out.old.items ++ spaced (if_there decimal root)) }
{
    match root {
        Some(root) => push_number(out, root),
        None => Ok(()),
    }
}

/// The operation after a space, where there is one.
#[tactic(auto, using(crate::proofs::Spacing::one_word, crate::proofs::Spacing::no_word))]
fn print_op(out: &mut Vec<u8>, op: Option<AtomicOp>) -> Result<(), AllocError>
    ensures { OnOk result (out.new.items ≡ out.old.items ++ spaced (if_there op_word op)) }
{
    match op {
        Some(op) => push_word(out, op_word(op)),
        None => Ok(()),
    }
}

/// The name of a buffer after a space, where there is one.
#[tactic(auto, using(crate::proofs::Spacing::one_word, crate::proofs::Spacing::no_word))]
fn print_name(out: &mut Vec<u8>, buffers: &[Buffer], i: Option<u32>) -> Result<(), AllocError>
    ensures { OnOk result (out.new.items ≡ out.old.items ++ spaced (if_there (name_at buffers.now) i)) }
{
    match i {
        Some(i) => push_word(out, name_at(buffers, i)),
        None => Ok(()),
    }
}

/// The name of a group by its number. No name where there is no such group.
fn group_name(groups: &[Group], i: u32) -> &[u8]
    ensures { result.now ≡ (get_or groups.now i no_group).name }
{
    match groups.get(i as usize) {
        Some(group) => group.name.as_slice(),
        None => b"",
    }
}

/// The first word of a step, after the group that it names.
#[tactic(auto, using(crate::proofs::Spacing::first_words))]
fn print_first(
    out: &mut Vec<u8>,
    groups: &[Group],
    on: Option<u32>,
    word: &[u8],
) -> Result<(), AllocError>
    ensures { OnOk result (out.new.items ≡ out.old.items ++ join_with_byte 32 (on_words groups.now on ++ word.now ∷ [])) }
{
    match on {
        Some(i) => {
            out.extend_from_slice(b"on")?;
            push_word(out, group_name(groups, i))?;
            push_word(out, word)
        }
        None => out.extend_from_slice(word),
    }
}

/// The line of a step.
#[tactic(auto, using(crate::proofs::Spacing::step_line))]
fn print_step(
    out: &mut Vec<u8>,
    groups: &[Group],
    buffers: &[Buffer],
    step: CollStep,
    on: Option<u32>,
) -> Result<(), AllocError>
    ensures { OnOk result (out.new.items ≡ out.old.items ++ line (on_words groups.now on ++ step_words buffers.now step)) }
{
    print_first(out, groups, on, step.kind().word())?;
    print_root(out, step.root())?;
    print_op(out, step.op())?;
    print_name(out, buffers, step.source())?;
    print_name(out, buffers, step.result())?;
    out.push(b'\n')?;
    Ok(())
}

/// The lines of all steps, with the groups that they name.
fn print_steps(
    out: &mut Vec<u8>,
    groups: &[Group],
    buffers: &[Buffer],
    steps: &[CollStep],
    on: &[Option<u32>],
) -> Result<(), AllocError>
    ensures { OnOk result (out.new.items ≡ out.old.items ++ steps_text groups.now buffers.now steps.now on.now) }
{
    let mut rest = on;
    for step in steps {
        let Some((group, others)) = rest.split_first() else {
            return Ok(());
        };
        print_step(out, groups, buffers, *step, *group)?;
        rest = others;
    }
    Ok(())
}

/// The lines of all prints.
fn print_prints(out: &mut Vec<u8>, buffers: &[Buffer], prints: &[u32]) -> Result<(), AllocError>
    ensures { OnOk result (out.new.items ≡ out.old.items ++ prints_text (name_at buffers.now) prints.now) }
{
    for i in prints {
        push_line(out, &[b"print", name_at(buffers, *i)])?;
    }
    Ok(())
}

/// The name of a choice step's buffer.
fn choice_name(choice: &ChoiceStep) -> &[u8]
    ensures { result.now ≡ choice_name choice.now }
{
    match choice {
        ChoiceStep::Elect(name) | ChoiceStep::Tickets(name) => name.as_slice(),
    }
}

/// A line of two words, which may be borrowed from different places.
fn push_two<'a>(out: &mut Vec<u8>, key: &'a [u8], second: &'a [u8]) -> Result<(), AllocError>
    ensures { OnOk result (out.new.items ≡ out.old.items ++ line (key.now ∷ second.now ∷ [])) }
{
    push_line(out, &[key, second])
}

/// The line of a choice step.
fn print_choice(out: &mut Vec<u8>, choice: &ChoiceStep) -> Result<(), AllocError>
    ensures { OnOk result (out.new.items ≡ out.old.items ++ line (choice_words choice.now)) }
{
    match choice {
        ChoiceStep::Elect(name) => push_two(out, ChoiceKind::Elect.word(), name.as_slice()),
        ChoiceStep::Tickets(name) => push_two(out, ChoiceKind::Tickets.word(), name.as_slice()),
    }
}

/// The lines of all choice steps.
fn print_choices(out: &mut Vec<u8>, choices: &[ChoiceStep]) -> Result<(), AllocError>
    ensures { OnOk result (out.new.items ≡ out.old.items ++ choices_text choices.now) }
{
    for choice in choices {
        print_choice(out, choice)?;
    }
    Ok(())
}

/// The name of a choice step's buffer by its number. No name where there is no such step.
fn chosen_name(choices: &[ChoiceStep], i: u32) -> &[u8]
    ensures { result.now ≡ choice_name (get_or choices.now i no_choice) }
{
    match choices.get(i as usize) {
        Some(choice) => choice_name(choice),
        None => b"",
    }
}

/// The lines of all prints of a choice text.
fn print_picks(out: &mut Vec<u8>, choices: &[ChoiceStep], prints: &[u32]) -> Result<(), AllocError>
    ensures { OnOk result (out.new.items ≡ out.old.items ++ prints_text (λ i. choice_name (get_or choices.now i no_choice)) prints.now) }
{
    for i in prints {
        push_line(out, &[b"print", chosen_name(choices, *i)])?;
    }
    Ok(())
}

/// The steps and the prints of a choice text, where it is one.
fn print_chosen(out: &mut Vec<u8>, choices: Option<&Choices>) -> Result<(), AllocError>
    ensures { OnOk result (out.new.items ≡ out.old.items ++ chosen_text (choices_seen choices.entry)) }
{
    match choices {
        Some(choices) => {
            print_choices(out, choices.steps())?;
            print_picks(out, choices.steps(), choices.prints())
        }
        None => Ok(()),
    }
}

/// The lines before the steps.
fn print_before_steps(out: &mut Vec<u8>, d: &Description) -> Result<(), AllocError>
    ensures { OnOk result (out.new.items ≡ out.old.items ++ (head_text d.now.shape.version d.now.shape.ranks ++
        (remote_text d.now.shape.remote ++ (groups_text d.now.shape.groups ++ inputs_text d.now.shape.ranks
        (take d.now.shape.inputs d.now.shape.buffers) (joined d.now.inputs))))) }
{
    let shape = d.shape();
    let buffers = shape.buffers();
    let inputs = buffers.len().min(shape.input_count() as usize);
    print_head(out, shape.version(), shape.ranks())?;
    print_remote(out, shape.remote())?;
    print_groups(out, shape.groups())?;
    print_inputs(
        out,
        shape.ranks() as usize,
        &buffers[..inputs],
        d.inputs().lists(),
    )
}

/// The whole text after what stands there.
fn print_all(out: &mut Vec<u8>, d: &Description) -> Result<(), AllocError>
    ensures { OnOk result (out.new.items ≡ out.old.items ++ text d.now) }
{
    let shape = d.shape();
    let buffers = shape.buffers();
    print_before_steps(out, d)?;
    print_steps(out, shape.groups(), buffers, shape.steps(), shape.on())?;
    print_prints(out, buffers, shape.prints())?;
    print_chosen(out, d.choices())?;
    push_line(out, &[b"end"])?;
    Ok(())
}

/// The one spelling of a description: the text that is read as it.
///
/// # Errors
///
/// There was no memory for the text.
pub fn print(alloc: Global, d: &Description) -> Result<Text, NoMemory>
    ensures spelled { IfOk result (λ t. t ≡ text d.now) }
{
    let mut out = Vec::new(alloc);
    match print_all(&mut out, d) {
        Ok(()) => Ok(Text::of(out)),
        Err(_) => Err(NoMemory),
    }
}
