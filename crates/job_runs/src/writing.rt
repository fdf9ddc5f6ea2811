//! Writing what a world at rest holds, and the order of its steps.

ghost use Rattle.std.specs.Prelude.{◌≡◌, ◌++◌, []};
ghost use Rattle.run_text.specs.Lines.{text_of};
ghost use Rattle.run_text.specs.Putting.{EndsWith, Puts};
ghost use Rattle.job_runs.specs.Orders.{orders_in};

use port_io::{Failed, Sink};
use run_text::{Pieces, ResultLists, Rows, order_line, put_result, put_rows};
use worlds::World;

/// The lines of the steps that each rank of a world made, oldest first.
#[derive(Clone, Copy)]
struct OrderRows<'a>(&'a World);

impl<'a> Rows for OrderRows<'a> {
    ghost use Rattle.std.specs.Prelude.{◌<◌, map};
    ghost use Rattle.cuts.specs.orders.Taking.{listed};
    ghost use Rattle.run_text.specs.Orders.{order_line};
    ghost use Rattle.worlds.specs.World.{histories_in};

    ghost has = { λ rows r. r < rows.0.now.schedule.plan.ranks };

    ghost line = { λ rows r. order_line r (map listed (histories_in rows.0.now r)) };

    fn put<K: Sink>(&self, out: &mut Pieces, sink: &mut K, number: u32) -> Result<(), Failed> {
        order_line(out, sink, number, self.0.history(number))
    }
}

/// Adds the order of each rank.
fn put_orders<K: Sink>(out: &mut Pieces, sink: &mut K, world: &World) -> Result<(), Failed>
    ensures { Puts (K.outflow sink.old) (K.outflow sink.new) out.old out.new (orders_in world.now) result }
{
    let ranks = world.schedule().ranks();
    put_rows(out, sink, &OrderRows(world), ranks)
}

/// Writes the lists that are printed, and then the steps of each rank of a world, in the order in which the rank made them; and finishes
/// the sink.
///
/// # Errors
///
/// The sink failed. It took a beginning of the text.
pub fn write_ordered<K: Sink, H: ResultLists>(
    out: &mut Pieces,
    sink: &mut K,
    held: &H,
    world: &World,
) -> Result<(), Failed>
    requires empty { out.old ≡ [] }
    requires gives { H.can_give held.now }
    ensures { EndsWith (K.outflow sink.old) (K.outflow sink.new)
        (text_of (H.outline held.now) (H.lists held.now) ++ orders_in world.now) result }
{
    put_result(out, sink, held)?;
    put_orders(out, sink, world)?;
    out.end(sink)
}
