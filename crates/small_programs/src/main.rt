//! Three small programs in one, by a word: `put` tells a put between two interfaces line by line, `calls` makes each call of an
//! interface that is full, and prints with the further word `timed` how many nanoseconds each took, and `meaning` is a load on the
//! meaning of a description. Without a word all three run, one after the other.
#![tactic(auto)]

mod cost_load;
mod meaning_load;
mod put_between_two;

use std::alloc::AllocError;
use std::{env, io};

/// Runs the program of a word.
fn run(rt: &HostRuntime, word: &str, timed: bool) -> io::Result<()> {
    match word {
        "put" => put_between_two::print(rt),
        "calls" => cost_load::print(rt, timed),
        "meaning" => meaning_load::print(rt),
        _ => println!(rt; "put, calls, calls timed or meaning"),
    }
}

/// Runs all three.
fn run_all(rt: &HostRuntime) -> io::Result<()> {
    run(rt, "put", false)?;
    run(rt, "calls", false)?;
    run(rt, "meaning", false)
}

fn main(rt: HostRuntime) -> io::Result<()> {
    let Ok(mut args) = env::args(&rt) else {
        return Err(io::Error::from(AllocError));
    };
    let timed = args.len() > 2;
    match args.nth(1) {
        Some(word) => run(&rt, word.as_str(), timed),
        None => run_all(&rt),
    }
}
