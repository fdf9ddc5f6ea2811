//! The whole program on small texts, with what it writes worked out by hand.

use log_top::{Status, log_main};
use port_io::{SureSink, SureSource};
use ptl_types::Bytes;
use std::alloc::Global;
use std::process::Abort;

/// The words of a command line.
fn words_of(rt: &impl Abort, alloc: Global, words: &[&str]) -> Vec<String> {
    let mut out = Vec::new(alloc);
    for word in words {
        let word = String::from_str(alloc, word).expect(rt, "memory");
        out.push(word).expect(rt, "memory");
    }
    out
}

/// What the program writes, on both outputs, and its status.
fn ran(
    rt: &impl Abort,
    alloc: Global,
    words: &[&str],
    text: &[u8],
) -> (SureSink, SureSink, Status) {
    let words = words_of(rt, alloc, words);
    let mut source = SureSource::new(Bytes::of(alloc, text).expect(rt, "memory"));
    let mut sink = SureSink::with_room(alloc, 1000).expect(rt, "memory");
    let mut notes = SureSink::with_room(alloc, 1000).expect(rt, "memory");
    let status = log_main(alloc, words.as_slice(), &mut source, &mut sink, &mut notes);
    (sink, notes, status)
}

#[test]
fn texts_with_what_is_written(rt: HostRuntime) {
    let cases: [(&[&str], &[u8], &[u8], &[u8], Status); 5] = [
        (
            &["fill"],
            b"ni 1\nranks 1\n0 open cts=1\n0 ct_alloc ->\n# a comment\n0 ct_get c0\nend\n",
            b"ni 1\nranks 1\n0 open cts=1 -> ok\n0 ct_alloc -> c0\n# a comment\n0 ct_get c0 -> 0 0\nend\n",
            b"",
            Status::Done,
        ),
        (
            &["fill"],
            b"ni 1\nranks 1\n0 ct_alloc\nend\n",
            b"ni 1\nranks 1\nrefused 3 1 NotOpen\n",
            b"the rank has no open interface\n",
            Status::Refused,
        ),
        (
            &["serve", "any-order"],
            b"ni 1\nranks 1\n0 open cts=1\nnonsense\n0 ct_alloc\n0 ct_get c0\nend\nwithout LF",
            b"ok\nok\nok\nrefused 4 1 BadLine\nc0\n0 0\nok\n",
            b"",
            Status::Done,
        ),
        (
            &["judge"],
            b"ni 1\nranks 1\n0 open cts=1 -> ok\n0 ct_alloc -> c\n0 ct_get c -> 1 0\nend\n",
            b"differs 5 15\nsaid 1 0\nowed 0 0\n",
            b"",
            Status::Refused,
        ),
        (
            &["judge", "any-order", "twice"],
            b"ni 1\n",
            b"usage: portals_log judge | fill | serve [any-order]\n",
            b"judge: reads a log, and writes whether each answer is what is owed
fill: reads a log of calls without answers, and writes it with those that are owed
serve: writes the answer that is owed to each line, before it reads the next
any-order: the messages of one lane may overtake each other
",
            Status::Usage,
        ),
    ];
    for (words, text, written, said, status) in cases {
        let (sink, notes, ended) = ran(&rt, rt.alloc(), words, text);
        assert_eq!(rt; sink.as_slice(), written);
        assert_eq!(rt; notes.as_slice(), said);
        assert_eq!(rt; ended.number(), status.number());
    }
}
