//! What stands on standard error beside an answer, written by hand from the language's page.

use crate::comparing::same_bytes;
use crate::runs::run_noted;
use std::alloc::Global;
use std::process::Abort;
use std::sync::Wait;
use std::test::Fail;
use std::thread::Threads;

/// A command, what is read, and all that stands on standard error.
type Row = (&'static [&'static str], &'static str, &'static str);

const ROWS: &[Row] = &[
    (
        &["once"],
        "coll 1\nranks 1\ninput a u8 1\n7\nallreduce add a b\nend\n",
        "line 5, column 11: 'add' is no operation: min max sum prod lor land bor band lxor bxor\n",
    ),
    (
        &["run", "2"],
        "coll 2\nranks 2\nelect e\nend\n",
        "a choice text runs under once and sim X alone\n",
    ),
    (
        &["check"],
        "coll 1\nranks 1\nbarrier\nend\norder 0 s s\n",
        "line 5, column 11: 's' is a second start of this rank\n",
    ),
    (
        &["check"],
        "coll 1\nranks 1\nbarrier\nend\norder 0\n",
        "line 5, column 8: '' stands where a further step is due: the rank isn't at rest\n",
    ),
    (
        &["json", "1"],
        "{\"coll\":1,\"ranks\":0}",
        "ranks (line 2 of its line text): '0' is not what line 2 says: ranks and a number from 1 to 64\n",
    ),
    (&["once"], "coll 1\nranks 1\nend\n", ""),
];

const FORMS: &str = "once: reads a description and runs it on one thread
sim X: the same in the order that the seed X chooses, X from 0 to 18446744073709551615
plan: writes the plan of a description
run W: runs a description by W workers, W from 1 to 16
trace W: the same, and writes the order of each rank's steps
large K W: runs the generated description of number K, K from 0 to 65535
check: reads a description and orders, and writes the verdict on these
steady W: runs a description by workers that find out when all is done
json W: runs a description in JSON
";

/// Words that are no form, and the first line on standard error.
const WORDS: &[(&[&str], &str)] = &[
    (&[], "no word is given: one of these forms is due\n"),
    (&["--help"], "--help: no form begins with this word\n"),
    (&["run", "17"], "run 17: W is from 1 to 16\n"),
    (
        &["large", "70000", "4"],
        "large 70000: K is from 0 to 65535\n",
    ),
    (&["large", "7"], "large 7: W is from 1 to 16\n"),
    (
        &["once", "more"],
        "once more: the last word is one too many\n",
    ),
    (
        &["sim", "\u{fffd}"],
        "sim \\xef\\xbf\\xbd: X is from 0 to 18446744073709551615\n",
    ),
];

fn rows_are_noted(rt: &(impl Abort + Threads + Wait + Sync), alloc: Global) -> Result<(), Fail> {
    for (command, text, wanted) in ROWS {
        let notes = run_noted(rt, alloc, command, text.as_bytes())?;
        same_bytes(rt, text, notes.as_slice(), wanted.as_bytes());
    }
    Ok(())
}

#[test]
fn what_is_said_beside_an_answer(rt: HostRuntime) -> Result<(), Fail> {
    rows_are_noted(&rt, rt.alloc())
}

#[test]
fn what_is_said_of_words(rt: HostRuntime) -> Result<(), Fail> {
    for (command, first) in WORDS {
        let notes = run_noted(&rt, rt.alloc(), command, b"")?;
        let (line, others) = notes
            .as_slice()
            .split_at(first.len().min(notes.as_slice().len()));
        same_bytes(&rt, first, line, first.as_bytes());
        same_bytes(&rt, first, others, FORMS.as_bytes());
    }
    Ok(())
}
