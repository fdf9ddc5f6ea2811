//! The words of the command line: all forms of the program stand here, in its usage line, and in `saying`.

ghost use Rattle.std.specs.Prelude.{◌≡◌, ◌≤◌, IfSome, map, string_bytes};
ghost use Rattle.given_top.specs.Words.{CanServe, cost_form, cost_of, form_of, is_check, log_gp, plan_request, ranked, telling_of};
ghost use Rattle.job_runs.specs.Modes.{mode_of};
ghost use Rattle.run_text.specs.Ending.{Written};
ghost use Rattle.given_top.specs.Usage.{owed_usage};

use coll_text::number_between;
use job_runs::{Mode, mode_in};
use plan_costs::LogGp;
use plan_top::{PlanRequest, Status};
use port_io::Sink;
use run_text::write_short;

/// The line of all forms.
const USAGE: &[u8] =
    b"usage: portals_plan draw | verify | verify given | once | sim X | run W | trace W | steady W | check \
| limits | explain [RANK] | explain --dot | cost L o g G [O]\n";

/// What is told of a plan without running it.
#[derive(Clone, Copy, Debug, PartialEq, Eq)]
pub enum Telling {
    /// `limits`: what each rank takes of an interface.
    Limits,
    /// `explain`: what each triggered operation of each rank is.
    Explain,
    /// `explain RANK`: the same of one rank.
    ExplainRank {
        /// The rank, below 256.
        rank: u32,
    },
    /// `explain --dot`: the plan as a graph.
    Graph,
}

/// What is done with a plan in which no flaw is found.
#[derive(Clone, Copy, Debug, PartialEq, Eq)]
pub enum Purpose {
    /// It is run: `once`, `sim X`, `run W`, `trace W` or `steady W`.
    Run(Mode),
    /// This is told of it.
    Tell(Telling),
}

/// What the program is asked to do.
#[derive(Clone, Copy, Debug, PartialEq, Eq)]
pub enum Form {
    /// `draw`, `verify` or `verify given`: to draw a description's plan, or to judge a given one.
    Judge(PlanRequest),
    /// To read a description and a plan after it, and do this with the plan.
    Use(Purpose),
    /// `check`: to read a description, a plan and orders of its ranks' local steps, and write the verdict on these.
    Check,
    /// `cost L o g G` and `cost L o g G O`: to read a description and a plan after it, and tell what the plan takes in time by these
    /// numbers.
    Cost(LogGp),
}

/// What is asked for that is drawn or judged.
fn plan_request(words: &[String]) -> Option<PlanRequest>
    ensures { result ≡ plan_request (map string_bytes words.now) }
{
    match words {
        [verb] if verb.as_str() == "draw" => Some(PlanRequest::Draw),
        [verb] if verb.as_str() == "verify" => Some(PlanRequest::Verify),
        [verb, what] if verb.as_str() == "verify" && what.as_str() == "given" => {
            Some(PlanRequest::VerifyGiven)
        }
        _ => None,
    }
}

/// What `explain` and this word ask for.
fn explained_as(word: &[u8]) -> Option<Telling>
    ensures { result ≡ ranked word.now }
{
    let rank = number_between(0, 255, word)?;
    Some(Telling::ExplainRank { rank })
}

/// What is asked for that is told.
fn telling_of(words: &[String]) -> Option<Telling>
    ensures { result ≡ telling_of (map string_bytes words.now) }
{
    match words {
        [verb] if verb.as_str() == "limits" => Some(Telling::Limits),
        [verb] if verb.as_str() == "explain" => Some(Telling::Explain),
        [verb, what] if verb.as_str() == "explain" && what.as_str() == "--dot" => {
            Some(Telling::Graph)
        }
        [verb, rank] if verb.as_str() == "explain" => explained_as(rank.as_bytes()),
        _ => None,
    }
}

/// Whether a check is asked for.
fn is_check(words: &[String]) -> bool
    ensures { result ≡ is_check (map string_bytes words.now) }
{
    match words {
        [verb] if verb.as_str() == "check" => true,
        _ => false,
    }
}

/// The greatest number of LogGP that is read.
const MOST: u32 = 4_294_967_295;

/// The numbers of LogGP that these words are.
fn log_gp(
    latency: &[u8],
    overhead: &[u8],
    gap: &[u8],
    byte_gap: &[u8],
    byte_work: Option<u32>,
) -> Option<LogGp>
    ensures value { result ≡ log_gp latency.now overhead.now gap.now byte_gap.now byte_work }
    ensures some { IfSome result (λ numbers. 1 ≤ numbers.overhead) }
{
    let latency = number_between(0, MOST, latency)?;
    let overhead = number_between(1, MOST, overhead)?;
    let gap = number_between(0, MOST, gap)?;
    let byte_gap = number_between(0, MOST, byte_gap)?;
    LogGp::of(latency, overhead, gap, byte_gap, byte_work?)
}

/// The numbers by which a plan's times are asked for.
fn cost_of(words: &[String]) -> Option<LogGp>
    ensures value { result ≡ cost_of (map string_bytes words.now) }
    ensures some { IfSome result (λ numbers. 1 ≤ numbers.overhead) }
{
    match words {
        [verb, l, o, g, b] if verb.as_str() == "cost" => log_gp(
            l.as_bytes(),
            o.as_bytes(),
            g.as_bytes(),
            b.as_bytes(),
            Some(0),
        ),
        [verb, l, o, g, b, w] if verb.as_str() == "cost" => log_gp(
            l.as_bytes(),
            o.as_bytes(),
            g.as_bytes(),
            b.as_bytes(),
            number_between(0, MOST, w.as_bytes()),
        ),
        _ => None,
    }
}

/// What is asked for that is told of times, or run.
fn cost_form(words: &[String]) -> Option<Form>
    ensures value { result ≡ cost_form (cost_of (map string_bytes words.now)) (mode_of (map string_bytes words.now)) }
    ensures possible { IfSome result CanServe }
{
    match cost_of(words) {
        Some(numbers) => Some(Form::Cost(numbers)),
        None => match mode_in(words) {
            Some(mode) => Some(Form::Use(Purpose::Run(mode))),
            None => None,
        },
    }
}

/// What the words ask for. None for all other words.
pub(crate) fn form_of(words: &[String]) -> Option<Form>
    ensures value { result ≡ form_of (map string_bytes words.now) }
    ensures possible { IfSome result CanServe }
{
    match plan_request(words) {
        Some(request) => Some(Form::Judge(request)),
        None => match telling_of(words) {
            Some(telling) => Some(Form::Use(Purpose::Tell(telling))),
            None => if is_check(words) {
                Some(Form::Check)
            } else {
                cost_form(words)
            },
        },
    }
}

/// Writes the usage line.
pub(crate) fn usage<K: Sink>(sink: &mut K) -> Status
    ensures { Written owed_usage (K.outflow sink.old) (K.outflow sink.new) result }
{
    match write_short(sink, USAGE) {
        Ok(()) => Status::Usage,
        Err(_) => Status::WriteFault,
    }
}
