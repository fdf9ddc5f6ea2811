//! The verdict, line by line.

ghost use Rattle.std.specs.Prelude.{◌≡◌, ◌∷◌, [], IfOk, false, true};
ghost use Rattle.coll_text.specs.Text.{words};
ghost use Rattle.log_verdict.specs.Judging.{BodyTook, IsNew, LineJudged, LineTook, ShortTook, StepTook, became, end_verdict, ended_with};
ghost use Rattle.log_verdict.specs.Judging.{heads, next_line, ranks_of, ranks_taken, refused, refuses, refuses_long, tells_ranks};
ghost use Rattle.log_verdict.specs.Judging.{Unchanged, too_long, took, unended_with, verdict_given, with_counted};

use crate::answering::Step;
use crate::printed::Printed;
use crate::scenes::Scene;
use crate::steps::line_step;
use coll_text::{cut, is, number_between};
use log_lines::{LONGEST_LINE, Line, read_line};
use log_words::Flaw;
use ptl_types::NoMemory;
use std::alloc::Global;

/// The verdict on a log.
#[derive(Debug, Drop)]
pub enum Verdict {
    /// Each answer is what is owed; there were so many calls.
    Conforms(u64),
    /// The first answer that isn't what is owed.
    Differs {
        /// The number of its line, from 1.
        line: u64,
        /// The column of the first word that isn't.
        column: usize,
        /// What was said, each word behind a space.
        said: Printed,
        /// What was owed.
        owed: Printed,
    },
    /// The text isn't a log.
    Refused {
        /// The number of the line, from 1.
        line: u64,
        /// The column.
        column: usize,
        /// What is wrong.
        flaw: Flaw,
    },
}

/// What became of a line.
#[derive(Drop)]
pub enum Taken {
    /// The log goes on.
    Goes,
    /// The log goes on, and this is owed as the answer of the call, each word behind a space. It comes only where answers are filled in.
    Owes(Printed),
    /// The verdict, whatever follows.
    Ends(Verdict),
}

/// Which line is due.
#[derive(Clone, Copy, PartialEq, Eq)]
pub enum Stage {
    Header,
    Ranks,
    Body,
    Ended,
}

/// Whether a line is too long.
fn is_long(line: &[u8]) -> bool
    ensures { result ≡ too_long line.now }
{
    line.len() > LONGEST_LINE
}

/// How many ranks a word and a number say.
fn ranks_if(key: &[u8], number: &[u8]) -> Option<u32>
    ensures { result ≡ ranks_of (key.now ∷ number.now ∷ []) }
{
    let said = is(key, b"ranks");
    if said {
        number_between(1, u32::MAX, number)
    } else {
        None
    }
}

/// How many ranks a word and the words behind it say.
fn ranks_after(key: &[u8], rest: &[u8]) -> Option<u32>
    ensures { result ≡ ranks_of (key.now ∷ words rest.now) }
{
    let (number, more) = cut(rest, b' ');
    match more {
        Some(_) => None,
        None => ranks_if(key, number),
    }
}

/// How many ranks a line `ranks N` says.
fn ranks_in(line: &[u8]) -> Option<u32>
    ensures { result ≡ ranks_of (words line.now) }
{
    let (key, rest) = cut(line, b' ');
    match rest {
        Some(rest) => ranks_after(key, rest),
        None => None,
    }
}

/// The verdict that ends a log, where there is one.
fn verdict_given(taken: Taken) -> Option<Verdict>
    ensures { result ≡ verdict_given taken }
{
    match taken {
        Taken::Ends(verdict) => Some(verdict),
        _ => None,
    }
}

/// Judges a log, a line at a time, or fills in the answers of its calls. It holds what the log's interfaces hold, and nothing of the lines
/// before.
#[derive(Drop)]
pub struct Judge {
    alloc: Global,
    fills: bool,
    stage: Stage,
    line: u64,
    calls: u64,
    scene: Scene,
}

impl Judge {
    /// No line was taken yet. `any_order`: messages of one lane may overtake each other.
    pub fn new(alloc: Global, any_order: bool) -> Judge
        ensures { IsNew false any_order result }
    {
        Judge {
            alloc,
            fills: false,
            stage: Stage::Header,
            line: 0,
            calls: 0,
            scene: Scene::new(alloc, 0, any_order),
        }
    }

    /// The same for a log whose calls have no answers: they are filled in. A new thing is called by its sort (`c`, `q`, `d`, `m`) and how
    /// many of them its interface made before, a message `w` and how many were sent before.
    pub fn filling(alloc: Global, any_order: bool) -> Judge
        ensures { IsNew true any_order result }
    {
        let mut judge = Judge::new(alloc, any_order);
        judge.fills = true;
        judge
    }

    /// The refusal of the line that was taken last.
    fn refusal(&self, column: usize, flaw: Flaw) -> Verdict
        ensures { result ≡ refused self.now column flaw }
    {
        Verdict::Refused {
            line: self.line,
            column,
            flaw,
        }
    }

    /// The same as what became of it.
    fn refused(&self, column: usize, flaw: Flaw) -> Taken
        ensures { took self.now result ≡ refuses self.now column flaw }
    {
        Taken::Ends(self.refusal(column, flaw))
    }

    /// The refusal of a line that is too long.
    fn refused_long(&self) -> Taken
        ensures { took self.now result ≡ refuses_long self.now }
    {
        self.refused(LONGEST_LINE + 1, Flaw::TooLong)
    }

    /// `ni 1`.
    fn header(&mut self, line: &[u8]) -> Taken
        ensures { took self.new result ≡ heads self.old line.now }
    {
        if is_long(line) {
            return self.refused_long();
        }
        if is(line, b"ni 1") {
            self.stage = Stage::Ranks;
            Taken::Goes
        } else {
            self.refused(1, Flaw::BadHeader)
        }
    }

    /// This many ranks.
    fn with_ranks(&mut self, ranks: Option<u32>) -> Taken
        ensures { took self.new result ≡ ranks_taken ranks self.old }
    {
        match ranks {
            Some(ranks) => {
                self.scene.ranks = ranks;
                self.stage = Stage::Body;
                Taken::Goes
            }
            None => self.refused(1, Flaw::BadHeader),
        }
    }

    /// `ranks N`.
    fn ranks(&mut self, line: &[u8]) -> Taken
        ensures { took self.new result ≡ tells_ranks self.old line.now }
    {
        if is_long(line) {
            return self.refused_long();
        }
        self.with_ranks(ranks_in(line))
    }

    /// One call more, where the line is one.
    fn count(&mut self, line: &Line)
        ensures { self.new ≡ with_counted line.now self.old }
    {
        if matches!(line, Line::Calls(_, _, _)) {
            self.calls = self.calls.saturating_add(1);
        }
    }

    /// What became of a line.
    fn became(&mut self, line: &Line, step: Step) -> Taken
        ensures { took self.new result ≡ became step line.now self.old }
    {
        match step {
            Step::Goes => {
                self.count(line);
                Taken::Goes
            }
            Step::Owes(text) => {
                self.count(line);
                Taken::Owes(text)
            }
            Step::Refused(fault) => self.refused(fault.column, fault.flaw),
            Step::Differs(column, said, owed) => Taken::Ends(Verdict::Differs {
                line: self.line,
                column,
                said,
                owed,
            }),
        }
    }

    /// A line of the body that has a meaning.
    fn step(&mut self, line: &Line) -> Result<Taken, NoMemory>
        ensures { IfOk result (λ t. StepTook line.now self.old (took self.new t)) }
    {
        let step = line_step(self.alloc, &mut self.scene, self.fills, line)?;
        Ok(self.became(line, step))
    }

    /// A line of the body.
    fn short(&mut self, line: &[u8]) -> Result<Taken, NoMemory>
        ensures { IfOk result (λ t. ShortTook self.old line.now (took self.new t)) }
    {
        let over = is(line, b"end");
        if over {
            self.stage = Stage::Ended;
            return Ok(Taken::Goes);
        }
        match read_line(line) {
            Ok(read) => {
                let taken = self.step(&read)?;
                Ok(taken)
            }
            Err(fault) => Ok(self.refused(fault.column, fault.flaw)),
        }
    }

    /// A line of the body, or one that is too long.
    fn body(&mut self, line: &[u8]) -> Result<Taken, NoMemory>
        ensures { IfOk result (λ t. BodyTook self.old line.now (took self.new t)) }
    {
        let long = is_long(line);
        if long {
            return Ok(self.refused_long());
        }
        let taken = self.short(line)?;
        Ok(taken)
    }

    /// The line that is due.
    #[tactic(auto, unfolding(crate::specs::Judging::LineTook))]
    fn take_due(&mut self, line: &[u8]) -> Result<Taken, NoMemory>
        ensures { IfOk result (λ t. LineTook self.old line.now (took self.new t)) }
    {
        match self.stage {
            Stage::Header => Ok(self.header(line)),
            Stage::Ranks => Ok(self.ranks(line)),
            Stage::Body => {
                let taken = self.body(line)?;
                Ok(taken)
            }
            Stage::Ended => Ok(self.refused(1, Flaw::AfterEnd)),
        }
    }

    /// Takes the next line, without its LF. Where answers are filled in, a line that is refused or differs changes nothing but the number
    /// of lines.
    ///
    /// # Errors
    ///
    /// There was no memory; there is no verdict then.
    pub fn take(&mut self, line: &[u8]) -> Result<Taken, NoMemory>
        ensures took { IfOk result (λ t. LineTook (next_line self.old) line.now (took self.new t)) }
        ensures stays { IfOk result (λ t. Unchanged self.old t self.new) }
    {
        self.line = self.line.saturating_add(1);
        let taken = self.take_due(line)?;
        Ok(taken)
    }

    /// Takes the next line, without its LF; the verdict, where the log ends with it.
    ///
    /// # Errors
    ///
    /// There was no memory; there is no verdict then.
    pub fn judge_line(&mut self, line: &[u8]) -> Result<Option<Verdict>, NoMemory>
        ensures { IfOk result (LineJudged self.old line.now self.new) }
    {
        let taken = self.take(line)?;
        Ok(verdict_given(taken))
    }

    /// The verdict at the end, where nothing was to follow.
    fn ended_with(&self, rest: &[u8]) -> Verdict
        ensures { result ≡ ended_with self.now rest.now }
    {
        if rest.is_empty() {
            Verdict::Conforms(self.calls)
        } else {
            self.refusal(1, Flaw::AfterEnd)
        }
    }

    /// The verdict at the end, where a line is due.
    fn unended_with(&self, rest: &[u8]) -> Verdict
        ensures { result ≡ unended_with self.now rest.now }
    {
        if is_long(rest) {
            self.refusal(LONGEST_LINE + 1, Flaw::TooLong)
        } else {
            self.refusal(1, Flaw::Unended)
        }
    }

    /// The verdict at the end.
    #[tactic(auto, unfolding(crate::specs::Judging::end_verdict))]
    fn end_due(&self, rest: &[u8]) -> Verdict
        ensures { result ≡ end_verdict self.now rest.now }
    {
        match self.stage {
            Stage::Header => self.unended_with(rest),
            Stage::Ranks => self.unended_with(rest),
            Stage::Body => self.unended_with(rest),
            Stage::Ended => self.ended_with(rest),
        }
    }

    /// The verdict at the end of the text, where none was given before. `rest` are the bytes behind the last LF.
    pub fn end(&mut self, rest: &[u8]) -> Verdict
        ensures { result ≡ end_verdict (next_line self.old) rest.now }
    {
        self.line = self.line.saturating_add(1);
        self.end_due(rest)
    }
}
