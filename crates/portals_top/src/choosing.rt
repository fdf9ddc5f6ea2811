//! Running choice texts.

ghost use Rattle.std.specs.Prelude.{◌≡◌, ◌<◌, ◌≤◌, IfOk};
ghost use Rattle.plan_choice.specs.World.{IsStanding};
ghost use Rattle.portals_top.specs.Answered.{HandsBack, LeavesChosen};
ghost use Rattle.portals_top.specs.Choosing.{IsChoiceInOrder, IsChoiceRun};
ghost use Rattle.run_text.specs.Ending.{Written, refused};
ghost use Rattle.portals_top.specs.Due.{due_chosen, due_in_mode};
ghost use Rattle.portals_top.specs.Explained.{Tells};
ghost use Rattle.portals_top.specs.Left.{nothing_ran};

use crate::ran::Ran;
use crate::refusing::refuse_with;
use crate::values::{write_ordered_values, write_values};
use crate::words::Command;
use crate::writing::status_of;
use coll_lang::{Choices, Refusal};
use job_runs::{Mode, Words};
use plan_choice::{ChoiceWorld, choices_by_words};
use port_io::Sink;
use ptl_types::NoMemory;
use run_text::{Pieces, Status};
use std::alloc::Global;
use text_notes::notes::{About, Cause, Note};
use text_notes::plain_note;

/// A choice text on so many ranks.
#[derive(Clone, Copy)]
pub(crate) struct ChoiceText<'a> {
    /// How many ranks there are, from 1 to 256.
    pub(crate) ranks: u32,
    /// Its steps, and what is printed of them.
    pub(crate) choices: &'a Choices,
    ghost nonempty: { 0 < ranks },
    ghost at_most: { ranks ≤ 256 },
}

/// What holds of a choice world whatever was done with it.
fn recall_standing(world: &ChoiceWorld)
    ensures { IsStanding world.now }
{
    let _ = world.enabled();
}

/// Runs a choice text in the program's own order.
fn run_choices(alloc: Global, text: &ChoiceText) -> Result<ChoiceWorld, NoMemory>
    ensures { IfOk result (λ w. IsChoiceRun text.now.ranks text.now.choices.now w) }
{
    let mut world = ChoiceWorld::open(alloc, text.ranks, text.choices)?;
    world.run_to_rest();
    recall_standing(&world);
    Ok(world)
}

/// Runs a choice text in the order that the words of a generator choose.
fn run_chosen_choices(alloc: Global, text: &ChoiceText, seed: u64) -> Result<ChoiceWorld, NoMemory>
    ensures { IfOk result (λ w. IsChoiceRun text.now.ranks text.now.choices.now w × IsChoiceInOrder seed w) }
{
    let mut world = ChoiceWorld::open(alloc, text.ranks, text.choices)?;
    let mut words = Words::of(seed);
    world.run_chosen(&mut words);
    choices_by_words::<Words>();
    recall_standing(&world);
    Ok(world)
}

/// Runs a choice text in the program's own order, writes its results, and hands back the world.
fn once<K: Sink>(alloc: Global, text: &ChoiceText, sink: &mut K, ran: &mut Ran) -> Status
    requires none { ran.old ≡ nothing_ran }
    ensures written { Written (due_in_mode Mode.Once text.now.choices.now ran.new.choice) (K.outflow sink.old) (K.outflow sink.new) result }
    ensures world { HandsBack result Status.Done (LeavesChosen (Command.Execute Mode.Once) text.now.ranks text.now.choices.now) ran.new }
{
    let Ok(mut out) = Pieces::open(alloc) else {
        return Status::NoMemory;
    };
    let Ok(world) = run_choices(alloc, text) else {
        return Status::NoMemory;
    };
    let written = write_values(&mut out, sink, text.choices, &world);
    ran.choice = Some(world);
    status_of(written)
}

/// Runs a choice text in the order that a seed chooses, writes its results and that order, and hands back the world.
fn sim<K: Sink>(alloc: Global, text: &ChoiceText, seed: u64, sink: &mut K, ran: &mut Ran) -> Status
    requires none { ran.old ≡ nothing_ran }
    ensures written { Written (due_in_mode (Mode.Sim seed) text.now.choices.now ran.new.choice) (K.outflow sink.old)
        (K.outflow sink.new) result }
    ensures world { HandsBack result Status.Done
        (LeavesChosen (Command.Execute (Mode.Sim seed)) text.now.ranks text.now.choices.now) ran.new }
{
    let Ok(mut out) = Pieces::open(alloc) else {
        return Status::NoMemory;
    };
    let Ok(world) = run_chosen_choices(alloc, text, seed) else {
        return Status::NoMemory;
    };
    let written = write_ordered_values(&mut out, sink, text.choices, &world);
    ran.choice = Some(world);
    status_of(written)
}

/// Refuses a choice text.
fn refuse_choices<K: Sink>(alloc: Global, sink: &mut K, told: &mut Option<Note>) -> Status
    ensures written { Written (refused 0 Refusal.OneThread) (K.outflow sink.old) (K.outflow sink.new) result }
    ensures told { Tells result (K.outflow sink.old) (K.outflow sink.new) told.new }
{
    let note = plain_note(0, About::Refused(Cause::OneThread));
    refuse_with(alloc, sink, 0, Refusal::OneThread, note, told)
}

/// Answers a choice text in a mode: it is run on one thread alone.
fn in_mode<K: Sink>(
    alloc: Global,
    mode: Mode,
    text: &ChoiceText,
    sink: &mut K,
    ran: &mut Ran,
    told: &mut Option<Note>,
) -> Status
    requires none { ran.old ≡ nothing_ran }
    ensures written { Written (due_in_mode mode text.now.choices.now ran.new.choice) (K.outflow sink.old) (K.outflow sink.new) result }
    ensures world { HandsBack result (due_in_mode mode text.now.choices.now ran.new.choice).status
        (LeavesChosen (Command.Execute mode) text.now.ranks text.now.choices.now) ran.new }
    ensures told { Tells result (K.outflow sink.old) (K.outflow sink.new) told.new }
{
    match mode {
        Mode::Once => once(alloc, text, sink, ran),
        Mode::Sim { seed } => sim(alloc, text, seed, sink, ran),
        Mode::Run { .. } | Mode::Trace { .. } | Mode::Steady { .. } => {
            refuse_choices(alloc, sink, told)
        }
    }
}

/// Answers a choice text.
pub(crate) fn chosen<K: Sink>(
    alloc: Global,
    command: Command,
    text: &ChoiceText,
    sink: &mut K,
    ran: &mut Ran,
    told: &mut Option<Note>,
) -> Status
    requires { ran.old ≡ nothing_ran }
    ensures written { Written (due_chosen command text.now.choices.now ran.new.choice) (K.outflow sink.old) (K.outflow sink.new) result }
    ensures world { HandsBack result (due_chosen command text.now.choices.now ran.new.choice).status
        (LeavesChosen command text.now.ranks text.now.choices.now) ran.new }
    ensures told { Tells result (K.outflow sink.old) (K.outflow sink.new) told.new }
{
    match command {
        Command::Execute(mode) => in_mode(alloc, mode, text, sink, ran, told),
        Command::Plan => refuse_choices(alloc, sink, told),
    }
}
