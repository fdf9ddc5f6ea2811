//! Rows that are added one after the other.

ghost use Rattle.std.specs.Prelude.{ℕ, List, ◌<◌, length, get_or};
ghost use Rattle.std.specs.List.{flat_map};
ghost use Rattle.number_lists.specs.Numbers.{from_to};
ghost use Rattle.run_text.specs.Putting.{Puts};

use crate::pieces::Pieces;
use port_io::{Failed, Sink};

/// Rows, each with a number.
pub trait Rows {
    /// Whether a number has a row.
    ghost has: { Self → ℕ → Type 0 };

    /// The line of a number.
    ghost line: { Self → ℕ → List ℕ };

    /// Adds the row of a number. At `Failed` the count of the sink's faults rose, and a beginning of the text stands. It takes no memory.
    fn put<K: Sink>(&self, out: &mut Pieces, sink: &mut K, number: u32) -> Result<(), Failed>
        requires { has self.now number }
        ensures { Puts (K.outflow sink.old) (K.outflow sink.new) out.old out.new (line self.now number) result };
}

/// Adds the rows of the first n numbers. At `Failed` the count of the sink's faults rose, and a beginning of the text stands. It takes
/// no memory.
pub fn put_rows<K: Sink, R: Rows>(
    out: &mut Pieces,
    sink: &mut K,
    rows: &R,
    n: u32,
) -> Result<(), Failed>
    requires { (i : ℕ) → i < n → R.has rows.now i }
    ensures { Puts (K.outflow sink.old) (K.outflow sink.new) out.old out.new (flat_map (R.line rows.now) (from_to 0 n)) result }
{
    for number in 0..n {
        rows.put(out, sink, number)?;
    }
    Ok(())
}

/// Adds the rows of these numbers. At `Failed` the count of the sink's faults rose, and a beginning of the text stands. It takes no
/// memory.
pub fn put_listed<K: Sink, R: Rows>(
    out: &mut Pieces,
    sink: &mut K,
    rows: &R,
    numbers: &[u32],
) -> Result<(), Failed>
    requires { (i : ℕ) → i < length numbers.now → R.has rows.now (get_or numbers.now i 0) }
    ensures { Puts (K.outflow sink.old) (K.outflow sink.new) out.old out.new (flat_map (R.line rows.now) numbers.now) result }
{
    for number in numbers {
        rows.put(out, sink, *number)?;
    }
    Ok(())
}
