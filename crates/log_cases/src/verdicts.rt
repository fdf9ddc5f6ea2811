//! Verdicts on small logs, worked out by hand from the grammar and the profile.

use coll_text::cut;
use log_verdict::{Judge, Taken, Verdict};
use log_words::Flaw;
use std::alloc::Global;
use std::process::Abort;

/// The verdict on a text.
fn verdict(rt: &impl Abort, alloc: Global, text: &[u8]) -> Verdict {
    let mut judge = Judge::new(alloc, false);
    let mut rest = text;
    loop {
        let (line, Some(after)) = cut(rest, b'\n') else {
            return judge.end(rest);
        };
        if let Taken::Ends(verdict) = judge.take(line).expect(rt, "memory") {
            return verdict;
        }
        rest = after;
    }
}

/// The body behind the first two lines, with one open interface of four bytes.
fn body(rt: &impl Abort, alloc: Global, lines: &[u8]) -> Verdict {
    let mut text =
        b"ni 1\nranks 2\n0 open entries=2 mds=1 cts=1 eqs=1 pts=1 triggered=1 msg=8 region=01020304 -> ok\n"
            .to_vec(alloc)
            .expect(rt, "memory");
    text.extend_from_slice(lines).expect(rt, "memory");
    verdict(rt, alloc, text.as_slice())
}

#[test]
fn texts_that_are_no_logs(rt: HostRuntime) {
    let cases: [(&[u8], u64, usize, Flaw); 9] = [
        (b"", 1, 1, Flaw::Unended),
        (b"ni 1", 1, 1, Flaw::Unended),
        (b"ni 2\n", 1, 1, Flaw::BadHeader),
        (b"ni 1\nranks 0\n", 2, 1, Flaw::BadHeader),
        (b"ni 1\nranks 1\n", 3, 1, Flaw::Unended),
        (b"ni 1\nranks 1\nend", 3, 1, Flaw::Unended),
        (b"ni 1\nranks 1\nend\nend\n", 4, 1, Flaw::AfterEnd),
        (b"ni 1\nranks 1\nend\n ", 4, 1, Flaw::AfterEnd),
        (b"ni 1\nranks 1\n0 ct_alloc -> c0\n", 3, 1, Flaw::NotOpen),
    ];
    for (text, line, column, flaw) in cases {
        match verdict(&rt, rt.alloc(), text) {
            Verdict::Refused {
                line: l,
                column: c,
                flaw: f,
            } => {
                assert_eq!(rt; (l, c), (line, column));
                assert_eq!(rt; f, flaw);
            }
            _ => assert!(rt; false, "refused"),
        }
    }
}

#[test]
fn lines_that_are_none(rt: HostRuntime) {
    let cases: [(&[u8], usize, Flaw); 22] = [
        (b"\n", 1, Flaw::BadSpace),
        (b"0  ct_alloc -> c0\n", 3, Flaw::BadSpace),
        (b"0 ct_alloc -> c0 \n", 18, Flaw::BadSpace),
        (b"0 ct_\x07alloc  -> c0\n", 6, Flaw::BadByte),
        (b"x ct_alloc -> c0\n", 1, Flaw::BadLine),
        (b"0\n", 3, Flaw::BadLine),
        (b"0 ct_make -> c0\n", 3, Flaw::BadCall),
        (b"0 ct_get -> 0 0\n", 10, Flaw::BadLine),
        (b"0 ct_get c0 c1 -> 0 0\n", 13, Flaw::BadLine),
        (b"0 ct_get ? -> 0 0\n", 10, Flaw::BadWord),
        (b"0 ct_get c=0 -> 0 0\n", 10, Flaw::BadWord),
        (b"0 ct_set c0 01 0 -> ok\n", 13, Flaw::BadNumber),
        (b"0 ct_set c0 0xG 0 -> ok\n", 13, Flaw::BadNumber),
        (
            b"0 ct_set c0 18446744073709551616 0 -> ok\n",
            13,
            Flaw::BadNumber,
        ),
        (b"0 md_bind length=4 length=4 -> d0\n", 20, Flaw::WordTwice),
        (b"0 md_bind width=4 -> d0\n", 11, Flaw::BadWord),
        (b"0 md_bind send=1 -> d0\n", 11, Flaw::BadWord),
        (b"0 write 0 abc -> ok\n", 11, Flaw::BadHex),
        (b"0 ct_alloc\n", 12, Flaw::NoAnswer),
        (b"0 deliver w0 -> matched\n", 11, Flaw::UnknownMessage),
        (b"lose w0\n", 6, Flaw::UnknownMessage),
        (b"settle now\n", 8, Flaw::BadLine),
    ];
    for (text, column, flaw) in cases {
        match body(&rt, rt.alloc(), text) {
            Verdict::Refused {
                line: l,
                column: c,
                flaw: f,
            } => {
                assert_eq!(rt; (l, c), (4, column));
                assert_eq!(rt; f, flaw);
            }
            _ => assert!(rt; false, "refused"),
        }
    }
}

#[test]
fn answers_that_differ(rt: HostRuntime) {
    let cases: [(&[u8], usize, &[u8], &[u8]); 8] = [
        (b"0 ct_get c0 -> 0 0\n", 16, b" 0 0", b" Stale"),
        (b"0 pending -> 1\n", 14, b" 1", b" 0"),
        (b"0 pending -> 0 0\n", 16, b" 0 0", b" 0"),
        (b"0 pending -> x=0\n", 14, b" x=0", b" 0"),
        (b"0 read 1 2 -> 0204\n", 15, b" 0204", b" 0203"),
        (b"0 ct_alloc -> none\n", 15, b" none", b" HANDLE"),
        (
            b"0 me_append 0 priority -> linked m0\n",
            27,
            b" linked m0",
            b" Stale",
        ),
        (b"0 fire t0 -> none\n", 14, b" none", b" NotReady"),
    ];
    for (text, column, said, owed) in cases {
        match body(&rt, rt.alloc(), text) {
            Verdict::Differs {
                line: l,
                column: c,
                said: s,
                owed: o,
            } => {
                assert_eq!(rt; (l, c), (4, column));
                assert_eq!(rt; s.as_slice(), said);
                assert_eq!(rt; o.as_slice(), owed);
            }
            _ => assert!(rt; false, "differs"),
        }
    }
}

#[test]
fn answers_that_are_filled_in(rt: HostRuntime) {
    let calls: [(&[u8], &[u8]); 13] = [
        (b"0 open mds=1 cts=1 msg=16 region=01020304", b" ok"),
        (b"1 open entries=1 pts=1 msg=16 ->", b" ok"),
        (b"1 pt_alloc 0", b" ok"),
        (b"1 me_append 0 priority bits=5 put", b" linked m0"),
        (b"0 ct_alloc", b" c0"),
        (b"0 ct_alloc", b" NoSpace"),
        (b"0 md_bind length=4 ct=c0 ack", b" d0"),
        (b"0 put d0 offset=2 length=2 ack=ct target=1 bits=5", b" w0"),
        (b"0 triggered t0 c0 1 put d0 target=1", b" NoSpace"),
        (b"1 deliver w0", b" matched w1"),
        (b"0 deliver w1", b" answered"),
        (b"0 ct_get c0", b" 1 0"),
        (b"0 read 1 2", b" 0203"),
    ];
    let mut judge = Judge::filling(rt.alloc(), false);
    assert!(rt; judge.take(b"ni 1").is_ok() && judge.take(b"ranks 2").is_ok());
    for (line, owed) in calls {
        match judge.take(line).expect(&rt, "memory") {
            Taken::Owes(text) => assert_eq!(rt; text.as_slice(), owed),
            _ => assert!(rt; false, "an answer is owed"),
        }
    }
}

/// An overflow entry of rank 1 is unlinked by its first message. Two more are linked, the second under the same name, while the message's
/// header waits.
const WAITING: [&[u8]; 14] = [
    b"ni 1",
    b"ranks 2",
    b"0 open mds=1 msg=16 region=01020304 -> ok",
    b"1 open entries=2 unexpected=1 pts=1 msg=16 region=00000000 -> ok",
    b"1 pt_alloc 0 -> ok",
    b"1 me_append 0 overflow length=4 once put -> linked m0",
    b"0 md_bind length=4 -> d0",
    b"0 put d0 length=2 target=1 -> w0",
    b"1 deliver w0 -> overflow",
    b"1 me_unlink m0 -> Stale",
    b"1 me_append 0 priority bits=7 put -> linked m1",
    b"1 me_append 0 priority bits=8 put -> linked m0",
    b"1 header 0 0 -> found delivered=2 entry=m0",
    b"1 me_unlink m0 -> ok",
];

#[test]
fn an_entry_has_its_name_while_a_header_waits_in_it(rt: HostRuntime) {
    let ends: [(&[u8], bool); 3] = [
        (b"1 header 0 0 -> found entry=m0", true),
        (b"1 me_search 0 delete put -> found entry=m0", true),
        (b"1 header 0 0 -> found entry=m1", false),
    ];
    for (line, conforms) in ends {
        let mut judge = Judge::new(rt.alloc(), false);
        for before in WAITING {
            assert!(rt; matches!(judge.take(before), Ok(Taken::Goes)));
        }
        match judge.take(line).expect(&rt, "memory") {
            Taken::Goes => assert!(rt; conforms),
            _ => assert!(rt; !conforms),
        }
    }
}
