//! The examples, run: what each description of data/ gives under `once` is what the file beside it says, the plan that is drawn of it
//! holds for its inputs, and what each in JSON stands for is the description of the same name. What is told of the plan of forms/, and
//! written of runs of the one of told/, is what the files beside them say, and plans take the time of closed forms. The logs of logs/ are
//! judged.
#![tactic(auto)]

mod comparing;
mod drawn;
mod folder;
mod forms;
mod logs;
mod times;
mod told;

use comparing::{Found, lines_of_json, once_gives};
use drawn::print_drawn;
use folder::names;
use forms::{print_forms, print_runs};
use logs::judge_logs;
use std::{fs, io};
use times::print_times;
use told::print_told;

/// The text of a file, and the file beside it that says what is wanted.
#[derive(Drop)]
struct Pair {
    text: Vec<u8>,
    other: String,
    wanted: Vec<u8>,
}

/// Reads a file, and the one of the same stem with this ending.
fn read_pair(rt: &HostRuntime, name: &str, stem: &str, ending: &str) -> io::Result<Pair> {
    let other = format!(in rt.alloc(); "{stem}.{ending}")?;
    let text = fs::read(rt, name)?;
    let wanted = fs::read(rt, other.as_str())?;
    Ok(Pair {
        text,
        other,
        wanted,
    })
}

/// Prints what was found of a file.
fn print_found(rt: &HostRuntime, name: &str, found: Found, other: &str) -> io::Result<()> {
    println!(rt; "{name}: {found} {other}")
}

/// Reads a description in JSON, and prints how its lines are found.
fn print_json(rt: &HostRuntime, name: &str, stem: &str) -> io::Result<()> {
    let pair = read_pair(rt, name, stem, "coll")?;
    let found = lines_of_json(rt.alloc(), pair.text.as_slice(), pair.wanted.as_slice());
    print_found(rt, name, found, pair.other.as_str())
}

fn main(rt: HostRuntime) -> io::Result<()> {
    for name in names(&rt, ".")?.iter() {
        let name = name.as_str();
        if let Some(stem) = name.strip_suffix(".coll") {
            let pair = read_pair(&rt, name, stem, "out")?;
            let (text, wanted) = (pair.text.as_slice(), pair.wanted.as_slice());
            let found = once_gives(&rt, rt.alloc(), text, wanted);
            print_found(&rt, name, found, pair.other.as_str())?;
            print_drawn(&rt, &rt, name, text, wanted)?;
        } else if let Some(stem) = name.strip_suffix(".json") {
            print_json(&rt, name, stem)?;
        }
    }
    print_forms(&rt, &rt, "forms/broadcast")?;
    print_runs(&rt, &rt, "forms/broadcast_and_barrier", "told/sum")?;
    print_told(&rt, &rt, "told/sum.given", "told/rows")?;
    print_times(&rt, &rt)?;
    judge_logs(&rt, "logs")?;
    judge_logs(&rt, "logs/wrong")
}
