//! Writing what a choice world at rest holds.

ghost use Rattle.std.specs.Prelude.{◌≡◌, ◌++◌, Some, [], length};
ghost use Rattle.std.specs.List.{flat_map};
ghost use Rattle.coll_lang.specs.Readable.{AreChoices};
ghost use Rattle.coll_lang.specs.Spelling.{choice_name};
ghost use Rattle.run_text.specs.Putting.{EndsWith, Puts};
ghost use Rattle.portals_top.specs.Choosing.{choice_orders_of, step_lines, values_text};

use coll_lang::{ChoiceStep, Choices};
use plan_choice::ChoiceWorld;
use port_io::{Failed, Sink};
use run_text::{Pieces, Rows, order_line, put_listed, put_rows, rest_line, value_line};

/// The name that a step gives to its results.
fn name_of(step: &ChoiceStep) -> &[u8]
    ensures { result.now ≡ choice_name step.now }
{
    match step {
        ChoiceStep::Elect(name) | ChoiceStep::Tickets(name) => name.as_slice(),
    }
}

/// The lines of a step's results, one for each rank.
#[derive(Clone, Copy)]
struct RankRows<'a> {
    choices: &'a Choices,
    world: &'a ChoiceWorld,
    step: u32,
}

impl<'a> Rows for RankRows<'a> {
    ghost use Rattle.std.specs.Prelude.{◌<◌, ◌≡◌, length};
    ghost use Rattle.coll_lang.specs.Readable.{chosen_name};
    ghost use Rattle.plan_choice.specs.World.{value_in};
    ghost use Rattle.run_text.specs.Lines.{value_line};

    ghost has = { λ rows r. (length rows.world.now.kinds ≡ length rows.choices.now.steps)
        × (rows.step < length rows.choices.now.steps) × (r < rows.world.now.ranks) };

    ghost line = { λ rows r. value_line (chosen_name rows.choices.now rows.step) r (value_in rows.world.now rows.step r) };

    fn put<K: Sink>(&self, out: &mut Pieces, sink: &mut K, number: u32) -> Result<(), Failed> {
        let step = self.step;
        let name = name_of(&self.choices.steps()[step as usize]);
        value_line(out, sink, name, number, self.world.value(step, number))
    }
}

/// The results of a choice world, step by step.
#[derive(Clone, Copy)]
struct StepRows<'a> {
    choices: &'a Choices,
    world: &'a ChoiceWorld,
}

impl<'a> Rows for StepRows<'a> {
    ghost use Rattle.std.specs.Prelude.{◌<◌, ◌≡◌, length};
    ghost use Rattle.portals_top.specs.Choosing.{step_lines};

    ghost has = { λ rows step. (length rows.world.now.kinds ≡ length rows.choices.now.steps)
        × (step < length rows.choices.now.steps) };

    ghost line = { λ rows. step_lines rows.choices.now rows.world.now };

    fn put<K: Sink>(&self, out: &mut Pieces, sink: &mut K, number: u32) -> Result<(), Failed> {
        let ranks = self.world.ranks();
        let rows = RankRows {
            choices: self.choices,
            world: self.world,
            step: number,
        };
        put_rows(out, sink, &rows, ranks)
    }
}

/// The lines of the steps that each rank of a choice world made, oldest first.
#[derive(Clone, Copy)]
struct OrderRows<'a>(&'a ChoiceWorld);

impl<'a> Rows for OrderRows<'a> {
    ghost use Rattle.std.specs.Prelude.{◌<◌};
    ghost use Rattle.portals_top.specs.Choosing.{choice_steps};
    ghost use Rattle.run_text.specs.Orders.{order_line};

    ghost has = { λ rows r. r < rows.0.now.ranks };

    ghost line = { λ rows r. order_line r (choice_steps rows.0.now r) };

    fn put<K: Sink>(&self, out: &mut Pieces, sink: &mut K, number: u32) -> Result<(), Failed> {
        order_line(out, sink, number, self.0.history(number))
    }
}

/// Adds the order of each rank.
fn put_orders<K: Sink>(out: &mut Pieces, sink: &mut K, world: &ChoiceWorld) -> Result<(), Failed>
    ensures { Puts (K.outflow sink.old) (K.outflow sink.new) out.old out.new (choice_orders_of (Some world.now)) result }
{
    let ranks = world.ranks();
    put_rows(out, sink, &OrderRows(world), ranks)
}

/// The steps that are printed are steps.
fn recall_prints(choices: &Choices)
    ensures { AreChoices choices.now }
{
    let _ = choices.steps();
}

/// Adds the results of each step that is printed, in order.
fn put_steps<K: Sink>(
    out: &mut Pieces,
    sink: &mut K,
    choices: &Choices,
    world: &ChoiceWorld,
) -> Result<(), Failed>
    requires { length world.now.kinds ≡ length choices.now.steps }
    ensures { Puts (K.outflow sink.old) (K.outflow sink.new) out.old out.new
        (flat_map (step_lines choices.now world.now) choices.now.prints) result }
{
    recall_prints(choices);
    put_listed(out, sink, &StepRows { choices, world }, choices.prints())
}

/// Adds the results and the line that follows them.
fn put_values<K: Sink>(
    out: &mut Pieces,
    sink: &mut K,
    choices: &Choices,
    world: &ChoiceWorld,
) -> Result<(), Failed>
    requires { length world.now.kinds ≡ length choices.now.steps }
    ensures { Puts (K.outflow sink.old) (K.outflow sink.new) out.old out.new (values_text choices.now world.now) result }
{
    put_steps(out, sink, choices, world)?;
    rest_line(out, sink)
}

/// Writes the results.
pub(crate) fn write_values<K: Sink>(
    out: &mut Pieces,
    sink: &mut K,
    choices: &Choices,
    world: &ChoiceWorld,
) -> Result<(), Failed>
    requires empty { out.old ≡ [] }
    requires steps { length world.now.kinds ≡ length choices.now.steps }
    ensures { EndsWith (K.outflow sink.old) (K.outflow sink.new) (values_text choices.now world.now) result }
{
    put_values(out, sink, choices, world)?;
    out.end(sink)
}

/// Writes the results and the order.
pub(crate) fn write_ordered_values<K: Sink>(
    out: &mut Pieces,
    sink: &mut K,
    choices: &Choices,
    world: &ChoiceWorld,
) -> Result<(), Failed>
    requires empty { out.old ≡ [] }
    requires steps { length world.now.kinds ≡ length choices.now.steps }
    ensures { EndsWith (K.outflow sink.old) (K.outflow sink.new)
        (values_text choices.now world.now ++ choice_orders_of (Some world.now)) result }
{
    put_values(out, sink, choices, world)?;
    put_orders(out, sink, world)?;
    out.end(sink)
}
