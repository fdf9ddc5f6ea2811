//! How a job is run, by the words that ask for it.

ghost use Rattle.std.specs.Prelude.{◌≡◌, IfSome, map, string_bytes};
ghost use Rattle.job_runs.specs.Modes.{HasWorkers, mode_of, run_of, seed_of, sim_of, steady_of, trace_of, workers_of};

use coll_text::{long_number, number_between};

/// How a description is run, and what is written of the run.
#[derive(Clone, Copy, Debug, PartialEq, Eq)]
pub enum Mode {
    /// On one thread in the program's own order. The results are written.
    Once,
    /// On one thread in the order that the words of a generator choose. The results and the order are written.
    Sim {
        /// What the generator is seeded by.
        seed: u64,
    },
    /// By workers on threads. The results are written.
    Run {
        /// How many workers there are, from 1 to 16.
        workers: u32,
    },
    /// By workers on threads. The results and the order of each rank's steps are written.
    Trace {
        /// How many workers there are, from 1 to 16.
        workers: u32,
    },
    /// By workers on threads that go on until a wave of probes has found rest. The results are written.
    Steady {
        /// How many workers there are, from 1 to 16.
        workers: u32,
    },
}

/// What `sim` and this word ask for.
fn sim_in(word: &[u8]) -> Option<Mode>
    ensures value { result ≡ sim_of (seed_of word.now) }
    ensures possible { IfSome result HasWorkers }
{
    let seed = long_number(word)?;
    Some(Mode::Sim { seed })
}

/// What `run` and this word ask for.
fn run_in(word: &[u8]) -> Option<Mode>
    ensures value { result ≡ run_of (workers_of word.now) }
    ensures possible { IfSome result HasWorkers }
{
    let workers = number_between(1, 16, word)?;
    Some(Mode::Run { workers })
}

/// What `trace` and this word ask for.
fn trace_in(word: &[u8]) -> Option<Mode>
    ensures value { result ≡ trace_of (workers_of word.now) }
    ensures possible { IfSome result HasWorkers }
{
    let workers = number_between(1, 16, word)?;
    Some(Mode::Trace { workers })
}

/// What `steady` and this word ask for.
fn steady_in(word: &[u8]) -> Option<Mode>
    ensures value { result ≡ steady_of (workers_of word.now) }
    ensures possible { IfSome result HasWorkers }
{
    let workers = number_between(1, 16, word)?;
    Some(Mode::Steady { workers })
}

/// How the words ask for a run: `once`, `sim X`, `run W`, `trace W` or `steady W`. None for all other words.
pub fn mode_in(words: &[String]) -> Option<Mode>
    ensures value { result ≡ mode_of (map string_bytes words.now) }
    ensures possible { IfSome result HasWorkers }
{
    match words {
        [word] if word.as_str() == "once" => Some(Mode::Once),
        [word, number] if word.as_str() == "sim" => sim_in(number.as_bytes()),
        [word, number] if word.as_str() == "run" => run_in(number.as_bytes()),
        [word, number] if word.as_str() == "trace" => trace_in(number.as_bytes()),
        [word, number] if word.as_str() == "steady" => steady_in(number.as_bytes()),
        _ => None,
    }
}
