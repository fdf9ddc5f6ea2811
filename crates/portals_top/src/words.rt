//! The words of the command line.

ghost use Rattle.std.specs.Prelude.{◌≡◌, map, string_bytes, IfSome};
ghost use Rattle.job_runs.specs.Modes.{seed_of, workers_of};
ghost use Rattle.portals_top.specs.Words.{CanAnswer, chosen_of, json_of, large_of, request, run_of, sim_of, steady_of, text_task};
ghost use Rattle.portals_top.specs.Words.{trace_of};

use coll_text::{long_number, number_between};
use job_runs::Mode;

/// What is done with a description.
#[derive(Clone, Copy, Debug, PartialEq, Eq)]
pub enum Command {
    /// Run it.
    Execute(Mode),
    /// Write the plan that it is compiled to. Nothing is run.
    Plan,
}

/// How a description is spelled.
#[derive(Clone, Copy, Debug, PartialEq, Eq)]
pub enum Format {
    /// As a text of the description language.
    Text,
    /// In JSON.
    Json,
}

/// What is done with a description of which spelling.
#[derive(Clone, Copy, Debug, PartialEq, Eq)]
pub struct Task {
    /// How the description is spelled.
    pub format: Format,
    /// What is done with it.
    pub command: Command,
}

/// What the program is asked to do.
#[derive(Clone, Copy, Debug, PartialEq, Eq)]
pub enum Request {
    /// Read a description, and do this with it.
    Do(Task),
    /// Run the generated description by workers on threads, and write its summary. Nothing is read.
    Large {
        /// What chooses the values of the description, below 65,536.
        number: u32,
        /// How many workers there are, from 1 to 16.
        workers: u32,
    },
    /// Read a description and orders of its ranks' local steps, and write the verdict on these.
    Check,
}

/// What is done with a text of the description language.
fn text_task(command: Command) -> Task
    ensures { result ≡ text_task command }
{
    Task {
        format: Format::Text,
        command,
    }
}

/// What `sim` and this word ask for.
fn sim_in(word: &[u8]) -> Option<Request>
    ensures value { result ≡ sim_of (seed_of word.now) }
    ensures possible { IfSome result CanAnswer }
{
    match long_number(word) {
        Some(seed) => Some(Request::Do(text_task(Command::Execute(Mode::Sim { seed })))),
        None => None,
    }
}

/// What `run` and this word ask for.
fn run_in(word: &[u8]) -> Option<Request>
    ensures value { result ≡ run_of (workers_of word.now) }
    ensures possible { IfSome result CanAnswer }
{
    match number_between(1, 16, word) {
        Some(workers) => Some(Request::Do(text_task(Command::Execute(Mode::Run { workers })))),
        None => None,
    }
}

/// What `trace` and this word ask for.
fn trace_in(word: &[u8]) -> Option<Request>
    ensures value { result ≡ trace_of (workers_of word.now) }
    ensures possible { IfSome result CanAnswer }
{
    match number_between(1, 16, word) {
        Some(workers) => Some(Request::Do(text_task(Command::Execute(Mode::Trace { workers })))),
        None => None,
    }
}

/// What `steady` and this word ask for.
fn steady_in(word: &[u8]) -> Option<Request>
    ensures value { result ≡ steady_of (workers_of word.now) }
    ensures possible { IfSome result CanAnswer }
{
    match number_between(1, 16, word) {
        Some(workers) => Some(Request::Do(text_task(Command::Execute(Mode::Steady { workers })))),
        None => None,
    }
}

/// What `json` and this word ask for.
fn json_in(word: &[u8]) -> Option<Request>
    ensures value { result ≡ json_of (workers_of word.now) }
    ensures possible { IfSome result CanAnswer }
{
    match number_between(1, 16, word) {
        Some(workers) => Some(Request::Do(Task {
            format: Format::Json,
            command: Command::Execute(Mode::Run { workers }),
        })),
        None => None,
    }
}

/// What `large` and these words ask for.
fn large_in(number: &[u8], workers: &[u8]) -> Option<Request>
    ensures value { result ≡ large_of (chosen_of number.now) (workers_of workers.now) }
    ensures possible { IfSome result CanAnswer }
{
    let number = number_between(0, 65_535, number)?;
    let workers = number_between(1, 16, workers)?;
    Some(Request::Large { number, workers })
}

/// What the words ask for. None for all other words.
pub(crate) fn request_in(words: &[String]) -> Option<Request>
    ensures value { result ≡ request (map string_bytes words.now) }
    ensures possible { IfSome result CanAnswer }
{
    match words {
        [word] if word.as_str() == "once" => Some(Request::Do(text_task(Command::Execute(
            Mode::Once,
        )))),
        [word] if word.as_str() == "plan" => Some(Request::Do(text_task(Command::Plan))),
        [word] if word.as_str() == "check" => Some(Request::Check),
        [word, number] if word.as_str() == "sim" => sim_in(number.as_bytes()),
        [word, number] if word.as_str() == "run" => run_in(number.as_bytes()),
        [word, number] if word.as_str() == "trace" => trace_in(number.as_bytes()),
        [word, number] if word.as_str() == "steady" => steady_in(number.as_bytes()),
        [word, number] if word.as_str() == "json" => json_in(number.as_bytes()),
        [word, number, workers] if word.as_str() == "large" => {
            large_in(number.as_bytes(), workers.as_bytes())
        }
        _ => None,
    }
}
