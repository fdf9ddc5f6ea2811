//! A verdict as text.

ghost use Rattle.std.specs.Prelude.{◌≡◌, ◌++◌, ◌∷◌, [], IfOk, OnOk, drop};
ghost use Rattle.log_top.specs.Telling.{flaw_of, served, spaced, status_of, verdict_text};

use itoa::Buffer;
use log_verdict::{Taken, Verdict};
use log_words::Flaw;
use ptl_types::NoMemory;
use run_text::Status;
use std::alloc::Global;

/// A number behind a space.
fn push_number(out: &mut Vec<u8>, n: u64) -> Result<(), NoMemory>
    ensures { OnOk result (out.new.items ≡ out.old.items ++ spaced n) }
{
    let mut buffer = Buffer::new();
    out.push(b' ')?;
    out.extend_from_slice(buffer.format(n).as_bytes())?;
    Ok(())
}

/// A line and a column behind a word.
fn push_place(out: &mut Vec<u8>, word: &[u8], line: u64, column: usize) -> Result<(), NoMemory>
    ensures { OnOk result (out.new.items ≡ out.old.items ++ word.now ++ spaced line ++ spaced column) }
{
    out.extend_from_slice(word)?;
    push_number(out, line)?;
    push_number(out, column as u64)
}

/// A word behind a byte, and words behind it.
fn push_words(out: &mut Vec<u8>, part: u8, word: &[u8], words: &[u8]) -> Result<(), NoMemory>
    ensures { OnOk result (out.new.items ≡ out.old.items ++ part ∷ word.now ++ words.now) }
{
    out.push(part)?;
    out.extend_from_slice(word)?;
    out.extend_from_slice(words)?;
    Ok(())
}

/// A verdict, of which what was said and what is owed stand behind this byte.
pub(crate) fn verdict_text(alloc: Global, part: u8, verdict: &Verdict) -> Result<Vec<u8>, NoMemory>
    ensures { IfOk result (λ v. v.items ≡ verdict_text part verdict.now) }
{
    let mut out = Vec::new(alloc);
    match verdict {
        Verdict::Conforms(calls) => {
            out.extend_from_slice(b"conforms")?;
            push_number(&mut out, *calls)?;
        }
        Verdict::Differs {
            line,
            column,
            said,
            owed,
        } => {
            push_place(&mut out, b"differs", *line, *column)?;
            push_words(&mut out, part, b"said", said.as_slice())?;
            push_words(&mut out, part, b"owed", owed.as_slice())?;
        }
        Verdict::Refused { line, column, flaw } => {
            push_place(&mut out, b"refused", *line, *column)?;
            push_words(&mut out, b' ', flaw.name(), b"")?;
        }
    }
    out.push(b'\n')?;
    Ok(out)
}

/// An answer without the space before it, and LF.
fn owed_line(alloc: Global, owed: &[u8]) -> Result<Vec<u8>, NoMemory>
    ensures { IfOk result (λ v. v.items ≡ drop 1 owed.now ++ 10 ∷ []) }
{
    let mut out = Vec::new(alloc);
    if let Some((_, words)) = owed.split_first() {
        out.extend_from_slice(words)?;
    }
    out.push(b'\n')?;
    Ok(out)
}

/// The line that answers a line.
pub(crate) fn served(alloc: Global, taken: &Taken) -> Result<Vec<u8>, NoMemory>
    ensures { IfOk result (λ v. v.items ≡ served taken.now) }
{
    match taken {
        Taken::Goes => {
            let out = b"ok\n".to_vec(alloc)?;
            Ok(out)
        }
        Taken::Owes(owed) => owed_line(alloc, owed.as_slice()),
        Taken::Ends(verdict) => verdict_text(alloc, b' ', verdict),
    }
}

/// The status of a verdict.
pub(crate) fn status_of(verdict: &Verdict) -> Status
    ensures { result ≡ status_of verdict.now }
{
    match verdict {
        Verdict::Conforms(_) => Status::Done,
        _ => Status::Refused,
    }
}

/// What is wrong with a text that is refused.
pub(crate) fn flaw_of(verdict: &Verdict) -> Option<Flaw>
    ensures { result ≡ flaw_of verdict.now }
{
    match verdict {
        Verdict::Refused { flaw, .. } => Some(*flaw),
        _ => None,
    }
}
