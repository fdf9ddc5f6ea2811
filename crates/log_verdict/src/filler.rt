//! A log that is filled in, line by line.

ghost use Rattle.std.specs.Prelude.{◌≡◌, ◌++◌, [], Bool, List, ℕ, IfOk, OnOk};
ghost use Rattle.log_verdict.specs.Filling.{FillTook, IsFilled, IsNewFiller, JudgedAs, WrittenAs, arrowed, end_or, fill_end};
ghost use Rattle.log_verdict.specs.Filling.Extent.{Whole};
ghost use Rattle.log_verdict.specs.Judging.{IsVerdict};
ghost use Rattle.log_verdict.specs.declared.judge.Verdict.TheVariants.{Conforms};

use crate::judge::{Judge, Taken, Verdict};
use crate::printed::Printed;
use ptl_types::NoMemory;
use std::alloc::Global;

/// What became of a line that is to be filled in.
#[derive(Drop)]
pub enum Filled {
    /// The line as it is to be written, without its LF.
    Line(Printed),
    /// The verdict, whatever follows.
    Ends(Verdict),
}

/// Fills in the answers of a log, a line at a time: each line is judged as it is to be written, so that what is written conforms.
#[derive(Drop)]
pub struct Filler {
    alloc: Global,
    fills: Judge,
    judges: Judge,
}

/// A line with ` ->` at its end.
fn push_arrowed(out: &mut Vec<u8>, line: &[u8]) -> Result<(), NoMemory>
    ensures { OnOk result (out.new.items ≡ out.old.items ++ arrowed line.now) }
{
    out.extend_from_slice(line)?;
    if !line.ends_with(b" ->") {
        out.extend_from_slice(b" ->")?;
    }
    Ok(())
}

/// A line with an answer behind it.
fn with_answer(alloc: Global, line: &[u8], owed: &[u8]) -> Result<Vec<u8>, NoMemory>
    ensures { IfOk result (λ v. v.items ≡ arrowed line.now ++ owed.now) }
{
    let mut out = Vec::new(alloc);
    push_arrowed(&mut out, line)?;
    out.extend_from_slice(owed)?;
    Ok(out)
}

/// The first of two verdicts, unless that is that all conforms.
fn end_or(first: Verdict, other: Verdict) -> Verdict
    ensures { result ≡ end_or first other }
{
    match first {
        Verdict::Conforms(_) => other,
        _ => first,
    }
}

impl Filler {
    /// No line was taken yet. `any_order`: messages of one lane may overtake each other.
    pub fn new(alloc: Global, any_order: bool) -> Filler
        ensures { IsNewFiller any_order result }
    {
        Filler {
            alloc,
            fills: Judge::filling(alloc, any_order),
            judges: Judge::new(alloc, any_order),
        }
    }

    /// The line as it is to be written, or the verdict on it.
    fn written(&mut self, line: &[u8]) -> Result<Result<Printed, Verdict>, NoMemory>
        ensures judges { self.new.judges ≡ self.old.judges }
        ensures written { IfOk result (WrittenAs self.old line.now self.new) }
    {
        let taken = self.fills.take(line)?;
        match taken {
            Taken::Goes => {
                let text = line.to_vec(self.alloc)?;
                Ok(Ok(Printed::of(text)))
            }
            Taken::Owes(owed) => {
                let text = with_answer(self.alloc, line, owed.as_slice())?;
                Ok(Ok(Printed::of(text)))
            }
            Taken::Ends(verdict) => Ok(Err(verdict)),
        }
    }

    /// Judges a line as it is to be written.
    fn judged(&mut self, text: Printed) -> Result<Filled, NoMemory>
        ensures fills { self.new.fills ≡ self.old.fills }
        ensures judged { IfOk result (JudgedAs self.old.judges text self.new.judges) }
    {
        let judged = self.judges.judge_line(text.as_slice())?;
        match judged {
            Some(verdict) => Ok(Filled::Ends(verdict)),
            None => Ok(Filled::Line(text)),
        }
    }

    /// Takes the next line, without its LF.
    ///
    /// # Errors
    ///
    /// There was no memory; the log can't be filled in further then.
    pub fn take(&mut self, line: &[u8]) -> Result<Filled, NoMemory>
        ensures { IfOk result (FillTook self.old line.now self.new) }
    {
        let written = self.written(line)?;
        match written {
            Ok(text) => {
                let filled = self.judged(text)?;
                Ok(filled)
            }
            Err(verdict) => Ok(Filled::Ends(verdict)),
        }
    }

    /// The verdict at the end of the text, where none was given before: that each answer is owed, or that more was due. `rest` are the
    /// bytes behind the last LF.
    pub fn end(&mut self, rest: &[u8]) -> Verdict
        ensures { result ≡ fill_end self.old rest.now }
    {
        let due = self.fills.end(rest);
        let judged = self.judges.end(b"");
        end_or(due, judged)
    }
}

/// A log that was filled in as a whole conforms, and has as many calls.
pub fn filled_logs_conform()
    ensures { (any_order : Bool) (text out : List ℕ) (calls : ℕ) → IsFilled any_order text out (Whole calls)
        → IsVerdict any_order out (Conforms calls) }
{}
