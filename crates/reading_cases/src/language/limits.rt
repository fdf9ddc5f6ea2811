//! Exactly the most of each quantity, and one more, in both versions.

use crate::answers::{Answer, same_answer};
use crate::language::texts::{
    NO_MEMORY, Part, add_data_line, add_parts, answer, answer_if, answer_to, numbered,
};
use std::alloc::Global;
use std::process::Abort;

/// One input on one rank: the lines 1 to 4.
const ONE: &[u8] = b"coll 1\nranks 1\ninput a u8 1\n7\n";

/// The same of version 2, with a group: the lines 1 to 5.
const ONE_2: &[u8] = b"coll 2\nranks 1\ngroup g 0\ninput a u8 1\n7\n";

/// The lines 1 and 2.
const JOB: &[u8] = b"coll 1\nranks 1\n";

/// The same of version 2.
const JOB_2: &[u8] = b"coll 2\nranks 1\n";

/// A group after them.
const GROUP: &[u8] = b"coll 2\nranks 1\ngroup g 0\n";

/// A choice text with one step.
const CHOICE: &[u8] = b"coll 2\nranks 1\nelect e\n";

/// A head, a line, how many times it stands there, the lines after it, and the answer.
type Repeated = (&'static [u8], &'static [u8], u32, &'static [u8], Answer);

/// Steps and prints: the 64th and the 65th step of each kind, the 128th and the 129th print.
static REPEATED: [Repeated; 45] = [
    (JOB, b"barrier\n", 64, b"", None),
    (JOB, b"barrier\n", 65, b"", Some((67, "TooMany"))),
    (JOB_2, b"barrier\n", 64, b"", None),
    (JOB_2, b"barrier\n", 65, b"", Some((67, "TooMany"))),
    (GROUP, b"on g barrier\n", 64, b"", None),
    (GROUP, b"on g barrier\n", 65, b"", Some((68, "TooMany"))),
    (ONE, b"print a\n", 128, b"", None),
    (ONE, b"print a\n", 129, b"", Some((133, "TooMany"))),
    (
        ONE,
        b"print a\n",
        128,
        b"print c\n",
        Some((133, "UnknownBuffer")),
    ),
    (ONE_2, b"print a\n", 128, b"", None),
    (ONE_2, b"print a\n", 129, b"", Some((134, "TooMany"))),
    (
        ONE_2,
        b"print a\n",
        128,
        b"print c\n",
        Some((134, "UnknownBuffer")),
    ),
    (CHOICE, b"print e\n", 128, b"", None),
    (CHOICE, b"print e\n", 129, b"", Some((132, "TooMany"))),
    (ONE, b"barrier\n", 64, b"barrier\n", Some((69, "TooMany"))),
    (
        ONE,
        b"barrier\n",
        64,
        b"broadcast 0 a b\n",
        Some((69, "TooMany")),
    ),
    (
        ONE,
        b"barrier\n",
        64,
        b"reduce 0 sum a b\n",
        Some((69, "TooMany")),
    ),
    (
        ONE,
        b"barrier\n",
        64,
        b"allreduce sum a b\n",
        Some((69, "TooMany")),
    ),
    (
        ONE,
        b"barrier\n",
        64,
        b"gather 0 a b\n",
        Some((69, "TooMany")),
    ),
    (
        ONE,
        b"barrier\n",
        64,
        b"allgather a b\n",
        Some((69, "TooMany")),
    ),
    (
        ONE,
        b"barrier\n",
        64,
        b"alltoall a b\n",
        Some((69, "TooMany")),
    ),
    (
        ONE,
        b"barrier\n",
        64,
        b"scan sum a b\n",
        Some((69, "TooMany")),
    ),
    (
        ONE_2,
        b"barrier\n",
        64,
        b"scatter 0 a b\n",
        Some((70, "TooMany")),
    ),
    (
        ONE_2,
        b"barrier\n",
        64,
        b"reducescatter sum a b\n",
        Some((70, "TooMany")),
    ),
    (
        ONE_2,
        b"barrier\n",
        64,
        b"exscan sum a b\n",
        Some((70, "TooMany")),
    ),
    (
        ONE_2,
        b"barrier\n",
        64,
        b"gatherv 0 a b\n",
        Some((70, "TooMany")),
    ),
    (
        ONE_2,
        b"barrier\n",
        64,
        b"on g barrier\n",
        Some((70, "TooMany")),
    ),
    (
        ONE_2,
        b"barrier\n",
        64,
        b"on g broadcast 0 a b\n",
        Some((70, "TooMany")),
    ),
    (
        ONE_2,
        b"barrier\n",
        64,
        b"on g reduce 0 sum a b\n",
        Some((70, "TooMany")),
    ),
    (
        ONE_2,
        b"barrier\n",
        64,
        b"on g allreduce sum a b\n",
        Some((70, "TooMany")),
    ),
    (
        ONE_2,
        b"barrier\n",
        64,
        b"on g gather 0 a b\n",
        Some((70, "TooMany")),
    ),
    (
        ONE_2,
        b"barrier\n",
        64,
        b"on g allgather a b\n",
        Some((70, "TooMany")),
    ),
    (
        ONE_2,
        b"barrier\n",
        64,
        b"on g alltoall a b\n",
        Some((70, "TooMany")),
    ),
    (
        ONE_2,
        b"barrier\n",
        64,
        b"on g scan sum a b\n",
        Some((70, "TooMany")),
    ),
    (
        ONE_2,
        b"barrier\n",
        64,
        b"on g scatter 0 a b\n",
        Some((70, "TooMany")),
    ),
    (
        ONE_2,
        b"barrier\n",
        64,
        b"on g reducescatter sum a b\n",
        Some((70, "TooMany")),
    ),
    (
        ONE_2,
        b"barrier\n",
        64,
        b"on g exscan sum a b\n",
        Some((70, "TooMany")),
    ),
    (
        ONE_2,
        b"barrier\n",
        64,
        b"on g gatherv 0 a b\n",
        Some((70, "TooMany")),
    ),
    (
        ONE,
        b"barrier\n",
        64,
        b"broadcast 0 a a\n",
        Some((69, "NameTaken")),
    ),
    (
        ONE,
        b"barrier\n",
        64,
        b"broadcast 0 c b\n",
        Some((69, "UnknownBuffer")),
    ),
    (
        ONE,
        b"barrier\n",
        64,
        b"broadcast 1 a b\n",
        Some((69, "BadRoot")),
    ),
    (
        ONE_2,
        b"barrier\n",
        64,
        b"on h barrier\n",
        Some((70, "TooMany")),
    ),
    (
        ONE_2,
        b"barrier\n",
        64,
        b"on h allreduce sum a b\n",
        Some((70, "TooMany")),
    ),
    (
        ONE_2,
        b"barrier\n",
        64,
        b"on h scan sum a a\n",
        Some((70, "NameTaken")),
    ),
    (
        ONE_2,
        b"barrier\n",
        64,
        b"on g scatter 1 a b\n",
        Some((70, "BadRoot")),
    ),
];

/// What reading answers to the head, so many times the line, the last lines and `end`.
fn repeated(alloc: Global, case: &Repeated) -> Answer {
    let (head, line, times, last, _) = *case;
    answer_to(alloc, &[(head, 1), (line, times), (last, 1), (b"end\n", 1)])
}

/// Stops the test where one of these is read otherwise.
fn each_repeated(rt: &(impl Abort + AllocGlobal), cases: &[Repeated]) {
    for (i, case) in cases.iter().enumerate() {
        same_answer(rt, "REPEATED", i, repeated(rt.alloc(), case), case.4);
    }
}

// Each table has a function of its own: the proof of what names a table carries the whole of it from step to step.
fn repeated_lines() -> &'static [Repeated] {
    &REPEATED
}

#[test]
fn steps_and_prints(rt: HostRuntime) {
    each_repeated(&rt, repeated_lines());
}

/// A head, a line before and after its number, how many of these stand there, the lines after them, and the answer.
type Numbered = (
    &'static [u8],
    (&'static str, &'static str),
    u32,
    &'static [u8],
    Answer,
);

/// The 64th and the 65th group and choice step, the 128th and the 129th buffer by each kind of step.
static NUMBERED: [Numbered; 35] = [
    (JOB_2, ("tickets t", "\n"), 65, b"", Some((67, "TooMany"))),
    (JOB, ("input a", " u8 1\n7\n"), 128, b"", None),
    (
        JOB,
        ("input a", " u8 1\n7\n"),
        129,
        b"",
        Some((259, "TooMany")),
    ),
    (JOB_2, ("input a", " u8 1\n7\n"), 128, b"", None),
    (
        JOB_2,
        ("input a", " u8 1\n7\n"),
        129,
        b"",
        Some((259, "TooMany")),
    ),
    (JOB_2, ("group g", " 0\n"), 64, b"", None),
    (JOB_2, ("group g", " 0\n"), 65, b"", Some((67, "TooMany"))),
    (
        JOB_2,
        ("group g", " 0\n"),
        64,
        b"group h x\n",
        Some((67, "BadNumber")),
    ),
    (
        JOB_2,
        ("group g", " 0\n"),
        64,
        b"group g0 1\n",
        Some((67, "NameTaken")),
    ),
    (
        JOB_2,
        ("group g", " 0\n"),
        64,
        b"group h 1\n",
        Some((67, "TooMany")),
    ),
    (JOB_2, ("elect e", "\n"), 64, b"", None),
    (JOB_2, ("elect e", "\n"), 65, b"", Some((67, "TooMany"))),
    (
        JOB_2,
        ("tickets t", "\n"),
        64,
        b"elect t0\n",
        Some((67, "NameTaken")),
    ),
    (JOB_2, ("input a", " u8 1\n7\n"), 128, b"barrier\n", None),
    (
        JOB_2,
        ("input a", " u8 1\n7\n"),
        128,
        b"broadcast 0 a0 b\n",
        Some((259, "TooMany")),
    ),
    (
        JOB_2,
        ("input a", " u8 1\n7\n"),
        128,
        b"reduce 0 sum a0 b\n",
        Some((259, "TooMany")),
    ),
    (
        JOB_2,
        ("input a", " u8 1\n7\n"),
        128,
        b"allreduce sum a0 b\n",
        Some((259, "TooMany")),
    ),
    (
        JOB_2,
        ("input a", " u8 1\n7\n"),
        128,
        b"gather 0 a0 b\n",
        Some((259, "TooMany")),
    ),
    (
        JOB_2,
        ("input a", " u8 1\n7\n"),
        128,
        b"allgather a0 b\n",
        Some((259, "TooMany")),
    ),
    (
        JOB_2,
        ("input a", " u8 1\n7\n"),
        128,
        b"alltoall a0 b\n",
        Some((259, "TooMany")),
    ),
    (
        JOB_2,
        ("input a", " u8 1\n7\n"),
        128,
        b"scan sum a0 b\n",
        Some((259, "TooMany")),
    ),
    (
        JOB_2,
        ("input a", " u8 1\n7\n"),
        128,
        b"scatter 0 a0 b\n",
        Some((259, "TooMany")),
    ),
    (
        JOB_2,
        ("input a", " u8 1\n7\n"),
        128,
        b"reducescatter sum a0 b\n",
        Some((259, "TooMany")),
    ),
    (
        JOB_2,
        ("input a", " u8 1\n7\n"),
        128,
        b"exscan sum a0 b\n",
        Some((259, "TooMany")),
    ),
    (
        JOB_2,
        ("input a", " u8 1\n7\n"),
        128,
        b"gatherv 0 a0 b\n",
        Some((259, "TooMany")),
    ),
    (JOB, ("input a", " u8 1\n7\n"), 128, b"barrier\n", None),
    (
        JOB,
        ("input a", " u8 1\n7\n"),
        128,
        b"broadcast 0 a0 b\n",
        Some((259, "TooMany")),
    ),
    (
        JOB,
        ("input a", " u8 1\n7\n"),
        128,
        b"reduce 0 sum a0 b\n",
        Some((259, "TooMany")),
    ),
    (
        JOB,
        ("input a", " u8 1\n7\n"),
        128,
        b"allreduce sum a0 b\n",
        Some((259, "TooMany")),
    ),
    (
        JOB,
        ("input a", " u8 1\n7\n"),
        128,
        b"gather 0 a0 b\n",
        Some((259, "TooMany")),
    ),
    (
        JOB,
        ("input a", " u8 1\n7\n"),
        128,
        b"allgather a0 b\n",
        Some((259, "TooMany")),
    ),
    (
        JOB,
        ("input a", " u8 1\n7\n"),
        128,
        b"alltoall a0 b\n",
        Some((259, "TooMany")),
    ),
    (
        JOB,
        ("input a", " u8 1\n7\n"),
        128,
        b"scan sum a0 b\n",
        Some((259, "TooMany")),
    ),
    (ONE, ("broadcast 0 a b", "\n"), 64, b"", None),
    (
        ONE,
        ("broadcast 0 a b", "\n"),
        65,
        b"",
        Some((69, "TooMany")),
    ),
];

/// What reading answers to such a case.
fn numbered_case(alloc: Global, case: &Numbered) -> Answer {
    let (head, line, times, last, _) = *case;
    numbered(alloc, &[(head, 1)], line, times, last)
}

/// Stops the test where one of these is read otherwise.
fn each_numbered(rt: &(impl Abort + AllocGlobal), cases: &[Numbered]) {
    for (i, case) in cases.iter().enumerate() {
        same_answer(rt, "NUMBERED", i, numbered_case(rt.alloc(), case), case.4);
    }
}

fn numbered_lines() -> &'static [Numbered] {
    &NUMBERED
}

#[test]
fn groups_and_buffers(rt: HostRuntime) {
    each_numbered(&rt, numbered_lines());
}

/// What is written, and its answer.
type Read = (&'static [u8], Answer);

static RANKS: [Read; 4] = [
    (b"coll 1\nranks 64\nend\n", None),
    (b"coll 1\nranks 65\nend\n", Some((2, "BadRanks"))),
    (b"coll 2\nranks 256\nend\n", None),
    (b"coll 2\nranks 257\nend\n", Some((2, "BadRanks"))),
];

#[test]
fn ranks(rt: HostRuntime) {
    for (i, case) in RANKS.iter().enumerate() {
        same_answer(&rt, "RANKS", i, answer(rt.alloc(), case.0), case.1);
    }
}

/// What reading answers to a group of so many members, from 0 on.
fn members(alloc: Global, count: u32) -> Answer {
    numbered(
        alloc,
        &[(b"coll 2\nranks 256\ngroup g", 1)],
        (" ", ""),
        count,
        b"\n",
    )
}

#[test]
fn members_of_a_group(rt: HostRuntime) {
    same_answer(&rt, "members", 256, members(rt.alloc(), 256), None);
    same_answer(
        &rt,
        "members",
        257,
        members(rt.alloc(), 257),
        Some((3, "BadGroup")),
    );
}

/// What reading answers to the parts, which have to have so many bytes.
fn answer_at(alloc: Global, parts: &[Part], length: usize) -> Answer {
    let mut text = Vec::new(alloc);
    let written = add_parts(&mut text, parts);
    if text.len() == length {
        answer_if(alloc, written, &text)
    } else {
        Some((0, "another length"))
    }
}

/// What reading answers to a text of the version with these two data lines at each rank, which has to have so many bytes.
fn long_answer<'a>(
    alloc: Global,
    version: &'a [u8],
    name: &'a [u8],
    first: &'a [u8],
    second: &'a [u8],
    length: usize,
) -> Answer {
    let parts: [Part; 9] = [
        (b"coll ", 1),
        (version, 1),
        (b"\nranks 12\ninput a u64 4096\n", 1),
        (first, 12),
        (b"input ", 1),
        (name, 1),
        (b" u8 340\n", 1),
        (second, 12),
        (b"end\n", 1),
    ];
    answer_at(alloc, &parts, length)
}

/// What reading answers to a text of 1,048,563 bytes, and one more for each byte of the name; it has to have so many bytes.
fn long_text(alloc: Global, version: &[u8], name: &[u8], length: usize) -> Answer {
    let mut first = Vec::new(alloc);
    let mut second = Vec::new(alloc);
    let numbers = add_data_line(&mut first, b"18446744073709551615", 4096).is_ok();
    let bytes = add_data_line(&mut second, b"255", 340).is_ok();
    if numbers && bytes {
        long_answer(alloc, version, name, &first, &second, length)
    } else {
        Some(NO_MEMORY)
    }
}

#[test]
fn bytes_of_a_text(rt: HostRuntime) {
    let most = long_text(rt.alloc(), b"1", b"thirteen_char", 1_048_576);
    same_answer(&rt, "most", 1, most, None);
    let more = long_text(rt.alloc(), b"1", b"fourteen_chars", 1_048_577);
    same_answer(&rt, "more", 1, more, Some((0, "TooLong")));
}

#[test]
fn bytes_of_a_text_of_version_2(rt: HostRuntime) {
    let most = long_text(rt.alloc(), b"2", b"thirteen_char", 1_048_576);
    same_answer(&rt, "most", 2, most, None);
    let more = long_text(rt.alloc(), b"2", b"fourteen_chars", 1_048_577);
    same_answer(&rt, "more", 2, more, Some((0, "TooLong")));
}

/// After an input of 4096 elements at each of 64 ranks, on the lines 1 to 67.
static ELEMENTS: [Read; 5] = [
    (
        b"allgather a b\nallgather b c\ngather 0 c d\n",
        Some((70, "TooLarge")),
    ),
    (
        b"allgather a b\nallgather b c\nallgather c d\n",
        Some((70, "TooLarge")),
    ),
    (b"allgather a b\nprint b\nprint b\n", Some((70, "TooLarge"))),
    (b"allgather a b\ngather 63 b c\nprint c\n", None),
    (
        b"allgather a b\ngather 63 b c\nprint c\nprint a\n",
        Some((71, "TooLarge")),
    ),
];

/// Of version 2: after an input of 256 elements at each of 256 ranks and two groups, on the lines 1 to 261.
static ELEMENTS_2: [Read; 18] = [
    (
        b"allgather a b\nallgather b c\non two gather 0 c d\n",
        Some((264, "TooLarge")),
    ),
    (
        b"allgather a b\nallgather b c\non none allgather c d\n",
        Some((264, "BadGroup")),
    ),
    (
        b"allgather a b\nallgather b c\nscatter 0 a s\non one broadcast 0 s y\non one broadcast 0 c d\nprint d\n",
        None,
    ),
    (
        b"allgather a b\nallgather b c\nscatter 0 a s\non one broadcast 0 s y\non one broadcast 0 c d\nprint d\nprint y\n",
        Some((268, "TooLarge")),
    ),
    (b"allgather a b\nallgather b c\n", None),
    (
        b"allgather a b\nallgather b c\nallgather c d\n",
        Some((264, "TooLarge")),
    ),
    (
        b"allgather a b\nallgather b c\ngather 255 c d\n",
        Some((264, "TooLarge")),
    ),
    (
        b"allgather a b\nallgather b c\ngatherv 255 c d\n",
        Some((264, "TooLarge")),
    ),
    (
        b"allgather a b\nallgather b c\non two gatherv 0 c d\n",
        Some((264, "TooLarge")),
    ),
    (
        b"allgather a b\nallgather b c\non two allgather c d\n",
        Some((264, "TooLarge")),
    ),
    (
        b"allgather a b\nallgather b c\non one gatherv 0 c d\n",
        None,
    ),
    (
        b"allgather a b\nallgather b c\nscatter 9 c d\nprint d\nprint a\n",
        Some((266, "TooLarge")),
    ),
    (b"allgather a b\nprint b\n", None),
    (
        b"allgather a b\nprint b\nprint a\n",
        Some((264, "TooLarge")),
    ),
    (
        b"allgather a b\nallgather b c\non one broadcast 0 c d\nprint d\n",
        None,
    ),
    (
        b"allgather a b\nallgather b c\non one broadcast 0 c d\nprint d\nprint a\n",
        Some((266, "TooLarge")),
    ),
    (
        b"allgather a b\nallgather b c\non two broadcast 0 c d\nprint d\n",
        Some((265, "TooLarge")),
    ),
    (
        b"allgather a b\nallgather b c\non two exscan sum c d\nprint d\n",
        None,
    ),
];

/// What reading answers to the head, so many times the data line, and the last lines.
fn lined<'a>(alloc: Global, head: &'a [u8], line: &'a [u8], ranks: u32, last: &'a [u8]) -> Answer {
    answer_to(alloc, &[(head, 1), (line, ranks), (last, 1), (b"end\n", 1)])
}

/// What reading answers to the head, data lines of zeros and the last lines.
fn wide(alloc: Global, head: &[u8], count: u32, ranks: u32, last: &[u8]) -> Answer {
    let mut line = Vec::new(alloc);
    match add_data_line(&mut line, b"0", count) {
        Ok(()) => lined(alloc, head, &line, ranks, last),
        Err(_) => Some(NO_MEMORY),
    }
}

fn elements() -> &'static [Read] {
    &ELEMENTS
}

fn elements_2() -> &'static [Read] {
    &ELEMENTS_2
}

/// Stops the test where one of these is read otherwise after the head and so many data lines of so many zeros.
fn each_wide(
    rt: &(impl Abort + AllocGlobal),
    table: &str,
    head: &[u8],
    count: u32,
    ranks: u32,
    cases: &[Read],
) {
    for (i, case) in cases.iter().enumerate() {
        same_answer(
            rt,
            table,
            i,
            wide(rt.alloc(), head, count, ranks, case.0),
            case.1,
        );
    }
}

#[test]
fn elements_of_a_buffer_and_of_all_prints(rt: HostRuntime) {
    let head = b"coll 1\nranks 64\ninput a u8 4096\n";
    each_wide(&rt, "ELEMENTS", head, 4096, 64, elements());
}

#[test]
fn elements_on_256_ranks(rt: HostRuntime) {
    let head = b"coll 2\nranks 256\ngroup one 0\ngroup two 0 1\ninput a u8 256\n";
    each_wide(&rt, "ELEMENTS_2", head, 256, 256, elements_2());
}

/// So many allgathers of one byte on 64 ranks.
static ALLGATHERS: [(u32, Answer); 4] = [
    (60, None),
    (61, None),
    (64, None),
    (65, Some((132, "TooMany"))),
];

/// What reading answers to them.
fn allgathers(alloc: Global, steps: u32) -> Answer {
    let head: [(&[u8], u32); 2] = [(b"coll 1\nranks 64\ninput a u8 1\n", 1), (b"0\n", 64)];
    numbered(alloc, &head, ("allgather a b", "\n"), steps, b"")
}

/// What a compiler refuses isn't refused here: many allgathers on 64 ranks, and one of much.
#[test]
fn what_a_compiler_refuses(rt: HostRuntime) {
    for (i, case) in ALLGATHERS.iter().enumerate() {
        same_answer(&rt, "ALLGATHERS", i, allgathers(rt.alloc(), case.0), case.1);
    }
    let head = b"coll 1\nranks 64\ninput a u64 4096\n";
    same_answer(
        &rt,
        "much",
        0,
        wide(rt.alloc(), head, 4096, 64, b"allgather a b\n"),
        None,
    );
}
