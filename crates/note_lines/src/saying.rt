//! Lines for a person.

ghost use Rattle.std.specs.Prelude.{◌++◌, ◌∷◌, []};
ghost use Rattle.note_lines.specs.Said.{SaysAll};
ghost use Rattle.run_text.specs.Putting.{EndsWith};
ghost use Rattle.text_notes.specs.notes.Shown.{IsNote};

use port_io::{Failed, Sink};
use run_text::write_short;
use text_notes::notes::{NoteLine, Printable};

/// Writes a line, and finishes the sink.
///
/// At `Failed` a beginning of it may stand.
pub fn say_line<N: Sink>(notes: &mut N, text: Printable) -> Result<(), Failed>
    ensures written { EndsWith (N.outflow notes.old) (N.outflow notes.new) (text ++ 10 ∷ []) result }
    ensures note { IsNote text }
{
    let line = NoteLine::of(text);
    write_short(notes, line.as_slice())
}

/// Writes a line of these bytes, as far as it has room; those that can't be printed as `\xHH`.
///
/// At `Failed` a beginning of it may stand.
pub fn say<N: Sink>(notes: &mut N, bytes: &[u8]) -> Result<(), Failed>
    ensures { SaysAll (N.outflow notes.old) (N.outflow notes.new) result }
{
    let mut text = Printable::new();
    text.show(bytes);
    say_line(notes, text)
}

/// Writes a line for each of these.
///
/// At `Failed` those before it and a beginning of one may stand.
#[tactic(auto, using(crate::proofs::Lines::no_lines, crate::proofs::Lines::takes_then, crate::proofs::Lines::begins_then))]
pub fn say_each<N: Sink>(notes: &mut N, forms: &[&[u8]]) -> Result<(), Failed>
    ensures { SaysAll (N.outflow notes.old) (N.outflow notes.new) result }
{
    for form in forms {
        say(notes, form)?;
    }
    Ok(())
}
