//! What is drawn: each cell and each link of a plan's text once, each local step of an order text once.

use crate::pictures::answers::is_fault;
use plan_pages::{order_picture, plan_page};
use plan_pictures::lines::{Refusal, TextFault};
use plan_pictures::plan_picture;
use std::process::Abort;
use std::test::Fail;

/// A plan of one rank with one broadcast of one byte to itself.
const ONE_RANK: &str = "plan 1 4 4 local\ncell 0 0 u8 - 0 1\ncell 1 0 u8 - 1 1\ncell 2 0 u8 - 1 2\n\
cell 3 0 u8 - 1 1\nlink 0 0 0 0 1 0 bump\nlink 1 0 0 0 2 0 bump\nlink 2 1 0 1 2 0 put\nlink 3 2 0 1 3 0 put\n\
done 0 4\nend\n";

/// The same rank with an allreduce of what it got.
const TWO_STEPS: &str =
    "plan 1 7 8 local\ncell 0 0 u8 - 0 1\ncell 1 0 u8 - 1 1\ncell 2 0 u8 - 1 2\n\
cell 3 0 u8 - 1 1\ncell 4 0 u8 - 1 2\ncell 5 0 u8 sum 1 1\ncell 6 0 u8 - 1 1\nlink 0 0 0 0 1 0 bump\n\
link 1 0 0 0 2 0 bump\nlink 2 1 0 1 2 0 put\nlink 3 2 0 1 3 0 put\nlink 4 3 0 0 4 0 bump\n\
link 5 3 0 1 4 0 put\nlink 6 4 0 1 5 0 atomic\nlink 7 5 0 1 6 0 put\ndone 0 7\nend\n";

/// How many times a word stands in a text.
fn count(text: &str, word: &str) -> usize {
    let mut found = 0usize;
    for _part in text.split(word) {
        found = found.saturating_add(1);
    }
    found.saturating_sub(1)
}

/// Stops the test where a word doesn't stand so often in the picture.
fn has_word(rt: &impl Abort, picture: &str, word: &str, times: usize) {
    assert_eq!(rt; count(picture, word), times, "at {word}");
}

/// A word, and how many times it stands in a picture.
type Word = (&'static str, usize);

/// Stops the test where one of the words doesn't stand so often in the picture.
fn has_words(rt: &impl Abort, picture: &str, words: &[Word]) {
    for word in words {
        has_word(rt, picture, word.0, word.1);
    }
}

/// Stops the test where one of the words doesn't stand so often in the plan's picture.
fn plan_has(rt: &(impl Abort + AllocGlobal), plan: &str, words: &[Word]) {
    let Ok(picture) = plan_picture(rt.alloc(), plan.as_bytes()) else {
        panic!(rt; "no picture of the plan")
    };
    has_words(rt, picture.as_str(), words);
}

/// Stops the test where one of the words doesn't stand so often in the orders' picture.
fn orders_have(rt: &(impl Abort + AllocGlobal), orders: &str, words: &[Word]) {
    let Ok(picture) = order_picture(rt.alloc(), orders.as_bytes()) else {
        panic!(rt; "no picture of the orders")
    };
    has_words(rt, picture.as_str(), words);
}

const WHOLE: &[Word] = &[
    ("id=\"cell-0\"", 1),
    ("id=\"cell-1\"", 1),
    ("id=\"cell-2\"", 1),
    ("id=\"cell-3\"", 1),
    ("id=\"link-0\"", 1),
    ("id=\"link-1\"", 1),
    ("id=\"link-2\"", 1),
    ("id=\"link-3\"", 1),
    (">rank 0<", 1),
    (">done at 4<", 1),
    (">step 1<", 1),
    ("id=\"cell-", 4),
    ("id=\"link-", 4),
    ("<svg ", 1),
    ("</svg>", 1),
];

#[test]
fn a_plan_is_drawn_whole(rt: HostRuntime) {
    plan_has(&rt, ONE_RANK, WHOLE);
}

const STEPS: &[Word] = &[
    (">step 1<", 1),
    (">step 2<", 1),
    ("class=\"band-1\"", 1),
    ("class=\"band-2\"", 1),
    (">step 3<", 0),
    ("class=\"atomic\" marker-end=\"url(#atomic-head)\" d=\"M", 2),
];

#[test]
fn steps_are_told_apart(rt: HostRuntime) {
    plan_has(&rt, TWO_STEPS, STEPS);
}

/// The local steps of the plan of one rank.
const ORDERS: &str = "b 0 7\nrest\norder 0 s f0 f4 f1 f2 f5 r0 f3 f6 r0 f7\n";

const ALONE: &[Word] = &[
    ("id=\"step-0-", 11),
    ("id=\"step-0-1\"", 1),
    ("id=\"step-0-11\"", 1),
    (">f7<", 1),
    ("<path class=\"put\"", 0),
];

const WITH_PLAN: &[Word] = &[
    ("id=\"step-0-", 11),
    ("<path class=\"put\"", 2),
    ("from rank 0, step 5 to rank 0, step 7<", 1),
    ("from rank 0, step 8 to rank 0, step 10<", 1),
];

#[test]
fn orders_are_drawn_whole(rt: HostRuntime) -> Result<(), Fail> {
    orders_have(&rt, ORDERS, ALONE);
    let both = format!(in rt.alloc(); "{ONE_RANK}{ORDERS}")?;
    orders_have(&rt, both.as_str(), WITH_PLAN);
    Ok(())
}

/// A sum over two ranks, of which the second sends its list to the first.
const SUM: &str =
    "coll 1\nranks 2\ninput a u8 1\n1\n2\nreduce 0 sum a b\nprint b\nend\nplan 2 5 4 local\n\
cell 0 0 u8 - 0 1\ncell 1 1 u8 - 0 1\ncell 2 0 u8 - 1 1\ncell 3 1 u8 - 1 1\ncell 4 0 u8 sum 1 3\n\
link 0 0 0 0 2 0 bump\nlink 1 1 0 0 3 0 bump\nlink 2 2 0 1 4 0 atomic\nlink 3 3 0 1 4 0 atomic\n\
done 0 3\ndone 1 2\nresult b 0 4\nend\n";

const NAMED: &[Word] = &[
    (">input a</text>", 2),
    (">result b</text>", 1),
    (">step 1<", 0),
    ("fault", 0),
];

const CELL_AT_FAULT: &[Word] = &[
    (
        "<g id=\"cell-4\" class=\"operation fault\"><title>fails 14 Needs</title>",
        1,
    ),
    (">fails 14 Needs (cell 4)</text>", 1),
    (" fault\"", 2),
];

const LINK_AT_FAULT: &[Word] = &[
    ("<path id=\"link-3\" class=\"atomic fault\"", 1),
    ("<title>fails 18 BadAtomic. link 3: atomic of 1 bytes", 1),
];

const VALUE_AT_FAULT: &[Word] = &[(
    "<g id=\"cell-4\" class=\"operation fault\"><title>fails 21 Value b 0 0</title>",
    1,
)];

const COUNTER_AT_FAULT: &[Word] = &[(">fails 20 BadDone (rank 1)</text>", 1), (" fault\"", 1)];

/// What was answered of the sum, and what its picture then has.
const ANSWERS: &[(&str, &[Word])] = &[
    ("", NAMED),
    ("holds\n", NAMED),
    ("fails 14 Needs\n", CELL_AT_FAULT),
    ("fails 18 BadAtomic\n", LINK_AT_FAULT),
    ("fails 21 Value b 0 0\n", VALUE_AT_FAULT),
    ("fails 20 BadDone\n", COUNTER_AT_FAULT),
];

#[test]
fn what_is_at_fault_is_marked(rt: HostRuntime) -> Result<(), Fail> {
    for case in ANSWERS.iter() {
        let (answer, words) = *case;
        let both = format!(in rt.alloc(); "{SUM}{answer}")?;
        plan_has(&rt, both.as_str(), words);
    }
    Ok(())
}

/// Stops the test where one of the words doesn't stand so often in the page.
fn page_has(rt: &(impl Abort + AllocGlobal), text: &str, words: &[Word]) {
    let Ok(page) = plan_page(rt.alloc(), text.as_bytes()) else {
        panic!(rt; "no page")
    };
    has_words(rt, page.as_str(), words);
}

/// What each step changes: the place of a register, and what it held before and after. The counters of the four cells come first, then
/// the links, the acknowledgements, whether cells are counted, the done counter, and whether the rank has started.
const PLAYED: &[Word] = &[
    (
        "\"steps\":[[0,17,0,1,0,0,1],[0,4,0,3,1,0,1],[0,12,0,1,16,0,1],[0,5,0,3,2,0,1],[0,6,0,1],[0,13,0,1,16,1,2],\
[0,6,1,3,2,1,2],[0,7,0,1],[0,14,0,1,16,2,3],[0,7,1,3,3,0,1],[0,15,0,1,16,3,4]]",
        1,
    ),
    ("<tr id=\"step-", 11),
    ("<g id=\"turn-", 11),
    ("<path id=\"flight-", 2),
    (
        ">fires link 2, put of 1 bytes from cell 1 to cell 2</td><td></td>",
        1,
    ),
    ("<td>cell 2: 2 of 2, final. </td>", 1),
    ("every cell is final", 1),
    ("can't make", 0),
];

/// A message comes before the start, and a step that can't be made is told.
const STUCK: &[Word] = &[
    (": before its start, for which it waits<", 1),
    (
        "<p class=\"faulty\">Rank 0 can't make step 3 of its order, f4.</p>",
        1,
    ),
    (
        "2 cells aren't final, 2 done counters aren't at their thresholds, 0 messages are left",
        1,
    ),
];

#[test]
fn orders_are_played(rt: HostRuntime) -> Result<(), Fail> {
    let whole = format!(in rt.alloc(); "{ONE_RANK}{ORDERS}")?;
    page_has(&rt, whole.as_str(), PLAYED);
    let stuck = format!(in rt.alloc(); "{SUM}order 0 r1 s f4\norder 1 s f0 f1\nholds\n")?;
    page_has(&rt, stuck.as_str(), STUCK);
    let faulty = format!(in rt.alloc(); "{SUM}fails 14 Needs\n")?;
    page_has(
        &rt,
        faulty.as_str(),
        &[("fails 14 Needs", 3), ("<tr id=\"step-", 0)],
    );
    Ok(())
}

#[test]
fn other_texts_have_no_picture(rt: HostRuntime) {
    let plan = "plan 1 4 20001 local\n";
    let fault = plan_picture(rt.alloc(), plan.as_bytes()).err();
    is_fault(
        &rt,
        plan,
        fault,
        TextFault::Refused {
            line: 1,
            name: Refusal::TooManyLinks,
        },
    );
    let fault = plan_page(rt.alloc(), ORDERS.as_bytes()).err();
    is_fault(
        &rt,
        ORDERS,
        fault,
        TextFault::Refused {
            line: 1,
            name: Refusal::NotAPlan,
        },
    );
    let orders = "rest\n";
    let fault = order_picture(rt.alloc(), orders.as_bytes()).err();
    is_fault(
        &rt,
        orders,
        fault,
        TextFault::Refused {
            line: 2,
            name: Refusal::NotAnOrder,
        },
    );
}
