//! The lines of orders of local steps, and of what fails of them.

ghost use Rattle.std.specs.Prelude.{◌≡◌, ◌∷◌};
ghost use Rattle.std.specs.List.{flat_map};
ghost use Rattle.run_text.specs.Orders.{cause_word, fails_line, order_line, step_word};
ghost use Rattle.run_text.specs.Putting.{Puts};

use crate::pieces::Pieces;
use crate::words::{Word, put_line, put_marked};
use port_io::{Failed, Sink};
use ptl_types::{Cause, Lane, LocalStep, Rank};

/// Adds a space and a local step.
fn put_step<K: Sink>(out: &mut Pieces, sink: &mut K, step: LocalStep) -> Result<(), Failed>
    ensures { Puts (K.outflow sink.old) (K.outflow sink.new) out.old out.new (32 ∷ step_word step) result }
{
    match step {
        LocalStep::Start => out.put(sink, b" s"),
        LocalStep::Receive {
            source,
            lane: Lane::Request,
        } => put_marked(out, sink, b" r", u64::from(source)),
        LocalStep::Receive {
            source,
            lane: Lane::Answer,
        } => put_marked(out, sink, b" a", u64::from(source)),
        LocalStep::Fire { number } => put_marked(out, sink, b" f", u64::from(number)),
    }
}

/// Adds a space and a local step, for each step.
fn put_steps<K: Sink>(out: &mut Pieces, sink: &mut K, steps: &[LocalStep]) -> Result<(), Failed>
    ensures { Puts (K.outflow sink.old) (K.outflow sink.new) out.old out.new (flat_map (λ s. 32 ∷ step_word s) steps.now) result }
{
    for step in steps {
        put_step(out, sink, *step)?;
    }
    Ok(())
}

/// Adds the line of a rank's local steps: `order`, the rank and the steps in order, `s` for a start, `r` and the source for a
/// message on the request lane, `a` and the source for one on the answer lane, `f` and the number for a firing.
///
/// At `Failed` the count of the sink's faults rose, and a beginning of the text stands. It takes no memory.
pub fn order_line<K: Sink>(
    out: &mut Pieces,
    sink: &mut K,
    r: Rank,
    steps: &[LocalStep],
) -> Result<(), Failed>
    ensures { Puts (K.outflow sink.old) (K.outflow sink.new) out.old out.new (order_line r steps.now) result }
{
    put_marked(out, sink, b"order ", u64::from(r))?;
    put_steps(out, sink, steps)?;
    out.put(sink, b"\n")
}

fn cause_word(cause: Cause) -> &'static [u8]
    ensures { result.now ≡ cause_word cause }
{
    match cause {
        Cause::StartedTwice => b"StartedTwice",
        Cause::NotSent => b"NotSent",
        Cause::NotReady => b"NotReady",
        Cause::NotAtRest => b"NotAtRest",
    }
}

/// Adds the line of orders that fail: `fails`, the rank, the place of the step among its own, from 1, and the cause.
///
/// At `Failed` the count of the sink's faults rose, and a beginning of the text stands. It takes no memory.
pub fn fails_line<K: Sink>(
    out: &mut Pieces,
    sink: &mut K,
    rank: Rank,
    place: u64,
    cause: Cause,
) -> Result<(), Failed>
    ensures { Puts (K.outflow sink.old) (K.outflow sink.new) out.old out.new (fails_line rank place cause) result }
{
    let words = [
        Word::Number(u64::from(rank)),
        Word::Number(place),
        Word::Text(cause_word(cause)),
    ];
    put_line(out, sink, b"fails", &words)
}
