//! What no clause says: whole values and their line texts or refusals, from outside. The expected answers are another
//! program's, written apart from this one.

use crate::answers::{Answer, are_equal, holds, is_printed, same_answer};
use json_lang::{JsonFault, lines_of, parse_json};
use serde_json::Value;
use std::alloc::{AllocError, Global};
use std::process::Abort;

/// The members of one broadcast of a 7, after the first ones.
const BEHIND: &str =
    r#""inputs":[{"name":"a","type":"u8","rows":[[7]]}],"steps":[["broadcast",0,"a","b"]],"prints":["b"]}"#;

/// Two ranks and their input, up to its rows.
const TWO_RANKS: &str = r#"{"coll":1,"ranks":2,"inputs":[{"name":"a","type":"u8","rows":"#;

/// The line and the name of a refusal; nothing where the bytes are accepted, or where there was no memory.
fn answer(alloc: Global, bytes: &[u8]) -> Answer {
    match parse_json(alloc, bytes) {
        Ok(_) => None,
        Err(fault) => {
            let (line, name) = fault.refusal()?;
            Some((line, name.word()))
        }
    }
}

/// Bytes, and how many times they stand there.
type Part<'a> = (&'a [u8], u32);

/// Adds the bytes so many times.
fn add(json: &mut Vec<u8>, bytes: &[u8], times: u32) -> Result<(), AllocError> {
    for _ in 0..times {
        json.extend_from_slice(bytes)?;
    }
    Ok(())
}

/// Adds the parts, one after the other.
fn add_parts(json: &mut Vec<u8>, parts: &[Part]) -> Result<(), AllocError> {
    for part in parts {
        let (bytes, times) = *part;
        add(json, bytes, times)?;
    }
    Ok(())
}

/// What reading answers to the parts, one after the other.
fn answer_to(alloc: Global, parts: &[Part]) -> Answer {
    let mut json = Vec::new(alloc);
    match add_parts(&mut json, parts) {
        Ok(()) => answer(alloc, &json),
        Err(_) => Some((0, "NoMemory")),
    }
}

/// Whether the bytes describe what that text does.
fn describes(alloc: Global, json: &str, text: &str) -> bool {
    match parse_json(alloc, json.as_bytes()) {
        Ok(d) => is_printed(alloc, &d, text.as_bytes()),
        Err(_) => false,
    }
}

/// Stops the test where a value doesn't describe what its text does.
fn each_describes(rt: &(impl Abort + AllocGlobal), table: &str, cases: &[(&str, &str)]) {
    for (i, case) in cases.iter().enumerate() {
        holds(rt, table, i, describes(rt.alloc(), case.0, case.1));
    }
}

/// Stops the test where one of these is read otherwise.
fn each_gives(rt: &(impl Abort + AllocGlobal), table: &str, cases: &[&str], wanted: Answer) {
    for (i, json) in cases.iter().enumerate() {
        same_answer(rt, table, i, answer(rt.alloc(), json.as_bytes()), wanted);
    }
}

/// A value, and what reading answers to it.
type Case = (&'static str, Answer);

/// Stops the test where one of the cases is read otherwise.
fn cases_give(rt: &(impl Abort + AllocGlobal), table: &str, cases: &[Case]) {
    for (i, case) in cases.iter().enumerate() {
        same_answer(rt, table, i, answer(rt.alloc(), case.0.as_bytes()), case.1);
    }
}

/// Each the value of a whole description, and its line text.
const DESCRIBED: &[(&str, &str)] = &[
    // One broadcast of a 7.
    (
        r#"{"coll":1,"ranks":1,"inputs":[{"name":"a","type":"u8","rows":[[7]]}],"steps":[["broadcast",0,"a","b"]],"prints":["b"]}"#,
        "coll 1\nranks 1\ninput a u8 1\n7\nbroadcast 0 a b\nprint b\nend\n",
    ),
    // Sixteen ranks.
    (
        r#"{"coll":1,"ranks":16,"inputs":[{"name":"load","type":"u64","rows":[[0,1,2,3,4,5,6,7],[100,101,102,103,104,105,106,107],[200,201,202,203,204,205,206,207],[300,301,302,303,304,305,306,307],[400,401,402,403,404,405,406,407],[500,501,502,503,504,505,506,507],[600,601,602,603,604,605,606,607],[700,701,702,703,704,705,706,707],[800,801,802,803,804,805,806,807],[900,901,902,903,904,905,906,907],[1000,1001,1002,1003,1004,1005,1006,1007],[1100,1101,1102,1103,1104,1105,1106,1107],[1200,1201,1202,1203,1204,1205,1206,1207],[1300,1301,1302,1303,1304,1305,1306,1307],[1400,1401,1402,1403,1404,1405,1406,1407],[1500,1501,1502,1503,1504,1505,1506,1507]]}],"steps":[["allreduce","max","load","peak"],["allgather","load","all"],["barrier"]],"prints":["peak","all"]}"#,
        "coll 1\nranks 16\ninput load u64 8\n0 1 2 3 4 5 6 7\n100 101 102 103 104 105 106 107\n200 201 202 203 204 205 206 207\n300 301 302 303 304 305 306 307\n400 401 402 403 404 405 406 407\n500 501 502 503 504 505 506 507\n600 601 602 603 604 605 606 607\n700 701 702 703 704 705 706 707\n800 801 802 803 804 805 806 807\n900 901 902 903 904 905 906 907\n1000 1001 1002 1003 1004 1005 1006 1007\n1100 1101 1102 1103 1104 1105 1106 1107\n1200 1201 1202 1203 1204 1205 1206 1207\n1300 1301 1302 1303 1304 1305 1306 1307\n1400 1401 1402 1403 1404 1405 1406 1407\n1500 1501 1502 1503 1504 1505 1506 1507\nallreduce max load peak\nallgather load all\nbarrier\nprint peak\nprint all\nend\n",
    ),
    // Members in any order, white space, an escape in a name; absent lists are empty.
    (
        r#" {"remote" : true, "ranks":2, "c\u006fll":1, "groups":[] } "#,
        "coll 1\nranks 2\ncomplete remote\nend\n",
    ),
    // The least and the greatest numbers.
    (
        r#"{"coll":1,"ranks":2,"inputs":[{"rows":[[-9223372036854775808,5],[0,-1]],"type":"i64","name":"a"},{"rows":[[18446744073709551615],[0]],"type":"u64","name":"b"}]}"#,
        "coll 1\nranks 2\ninput a i64 2\n-9223372036854775808 5\n0 -1\ninput b u64 1\n18446744073709551615\n0\nend\n",
    ),
    // Every later step, on groups and on all ranks.
    (
        r#"{"coll":2,"ranks":4,"remote":true,"groups":[["odd",1,3],["last",3]],"inputs":[{"name":"a","type":"u8","rows":[[1,2,3,4],[5,6,7,8],[9,0,1,2],[3,4,5,6]]}],"steps":[["on","odd","scatter",1,"a","b"],["on","last","gatherv",0,"b","c"],["reducescatter","sum","a","d"],["exscan","sum","a","e"],["on","odd","barrier"]],"prints":["b","e"]}"#,
        "coll 2\nranks 4\ncomplete remote\ngroup odd 1 3\ngroup last 3\ninput a u8 4\n1 2 3 4\n5 6 7 8\n9 0 1 2\n3 4 5 6\non odd scatter 1 a b\non last gatherv 0 b c\nreducescatter sum a d\nexscan sum a e\non odd barrier\nprint b\nprint e\nend\n",
    ),
    // A choice text.
    (
        r#"{"coll":2,"ranks":3,"steps":[["elect","a"],["tickets","b"]],"prints":["b","a"]}"#,
        "coll 2\nranks 3\nelect a\ntickets b\nprint b\nprint a\nend\n",
    ),
    // A step may spell any line.
    (
        r#"{"coll":1,"ranks":1,"steps":[["input","a","u8",1],["9"],["barrier"],["print","a"]]}"#,
        "coll 1\nranks 1\ninput a u8 1\n9\nbarrier\nprint a\nend\n",
    ),
    // A step may write a number as a string.
    (
        r#"{"coll":1,"ranks":1,"inputs":[{"name":"a","type":"u8","rows":[[7]]}],"steps":[["broadcast","0","a","b"]]}"#,
        "coll 1\nranks 1\ninput a u8 1\n7\nbroadcast 0 a b\nend\n",
    ),
];

#[test]
fn a_value_describes_what_its_line_text_describes(rt: HostRuntime) {
    each_describes(&rt, "DESCRIBED", DESCRIBED);
}

/// No JSON, by the reading of `serde_json`.
const NO_JSON: &[&str] = &[
    "",
    " ",
    r#"{"coll":1"#,
    r#"{"coll":1,"ranks":1}}"#,
    r#"{"coll":01,"ranks":1}"#,
    r#"{"coll":+1,"ranks":1}"#,
    r#"{"coll":1,"ranks":1,}"#,
    r#"{"coll":1,"ranks":1e999}"#,
    r#"{"coll":1,"ranks":NaN}"#,
    r#"{"coll":1,"ranks":"\ud800"}"#,
    r#"{"coll":1,"ranks":1,"prints":["\x41"]}"#,
    "{\"coll\":1,\"ranks\":1,\"prints\":[\"a\nb\"]}",
    "\u{feff}{\"coll\":1,\"ranks\":1}",
    "{'coll':1}",
    r#"{"coll":1,"ranks":1} {}"#,
];

#[test]
fn what_is_no_json(rt: HostRuntime) {
    each_gives(&rt, "NO_JSON", NO_JSON, Some((0, "BadJson")));
    same_answer(
        &rt,
        "no text",
        0,
        answer(rt.alloc(), b"\"\xff\""),
        Some((0, "BadJson")),
    );
}

/// JSON, but no value of the form.
const NO_FORM: &[&str] = &[
    "[]",
    "null",
    "1",
    r#""coll""#,
    "{}",
    r#"{"coll":1}"#,
    r#"{"ranks":1}"#,
    r#"{"coll":"1","ranks":1}"#,
    r#"{"coll":1,"ranks":true}"#,
    r#"{"coll":1,"ranks":null}"#,
    r#"{"coll":1,"ranks":1,"extra":0}"#,
    r#"{"coll":1,"ranks":1,"Remote":true}"#,
    r#"{"coll":1,"ranks":1,"remote":1}"#,
    r#"{"coll":1,"ranks":1,"remote":0}"#,
    r#"{"coll":1,"ranks":1,"remote":null}"#,
    r#"{"coll":1,"ranks":1,"remote":"true"}"#,
    r#"{"coll":1,"ranks":1,"groups":null}"#,
    r#"{"coll":1,"ranks":1,"groups":{}}"#,
    r#"{"coll":1,"ranks":1,"groups":["g"]}"#,
    r#"{"coll":1,"ranks":1,"groups":[[]]}"#,
    r#"{"coll":1,"ranks":1,"groups":[[0]]}"#,
    r#"{"coll":1,"ranks":1,"groups":[["g","0"]]}"#,
    r#"{"coll":1,"ranks":1,"groups":[["g",0.5]]}"#,
    r#"{"coll":1,"ranks":1,"inputs":{}}"#,
    r#"{"coll":1,"ranks":1,"inputs":[[]]}"#,
    r#"{"coll":1,"ranks":1,"inputs":[{"name":"a","type":"u8"}]}"#,
    r#"{"coll":1,"ranks":1,"inputs":[{"name":"a","rows":[]}]}"#,
    r#"{"coll":1,"ranks":1,"inputs":[{"type":"u8","rows":[]}]}"#,
    r#"{"coll":1,"ranks":1,"inputs":[{"name":"a","type":"u8","rows":[],"x":0}]}"#,
    r#"{"coll":1,"ranks":1,"inputs":[{"name":1,"type":"u8","rows":[]}]}"#,
    r#"{"coll":1,"ranks":1,"inputs":[{"name":"a","type":"u8","rows":[7]}]}"#,
    r#"{"coll":1,"ranks":1,"inputs":[{"name":"a","type":"u8","rows":[["7"]]}]}"#,
    r#"{"coll":1,"ranks":1,"inputs":[{"name":"a","type":"u8","rows":[[7.0]]}]}"#,
    r#"{"coll":1,"ranks":1,"steps":[[]]}"#,
    r#"{"coll":1,"ranks":1,"steps":["barrier"]}"#,
    r#"{"coll":1,"ranks":1,"steps":[[1]]}"#,
    r#"{"coll":1,"ranks":1,"steps":[["broadcast",0.0,"a","b"]]}"#,
    r#"{"coll":1,"ranks":1,"steps":[["broadcast",null,"a","b"]]}"#,
    r#"{"coll":1,"ranks":1,"steps":[["on",["g"],"barrier"]]}"#,
    r#"{"coll":1,"ranks":1,"steps":[["on g"]]}"#,
    r#"{"coll":1,"ranks":1,"steps":[["barrier",""]]}"#,
    r#"{"coll":1,"ranks":1,"steps":[["barrier\n"]]}"#,
    r#"{"coll":1,"ranks":1,"prints":"a"}"#,
    r#"{"coll":1,"ranks":1,"prints":[""]}"#,
    r#"{"coll":1,"ranks":1,"prints":[0]}"#,
    r#"{"coll":1,"ranks":1,"prints":["a b"]}"#,
    r#"{"coll":1,"ranks":1,"prints":["\u0020"]}"#,
    r#"{"coll":1,"ranks":1,"prints":["\u007f"]}"#,
    r#"{"coll":1,"ranks":1,"prints":["ä"]}"#,
];

#[test]
fn what_is_not_of_the_form(rt: HostRuntime) {
    each_gives(&rt, "NO_FORM", NO_FORM, Some((0, "BadForm")));
}

/// Values of the form, refused at a line of their line text.
const REFUSED: &[Case] = &[
    (
        r#"{"coll":1,"ranks":1,"inputs":[{"name":"a","type":"u8","rows":[[256]]}],"steps":[["broadcast",0,"a","b"]],"prints":["b"]}"#,
        Some((4, "BadNumber")),
    ),
    (r#"{"coll":3,"ranks":1}"#, Some((1, "BadHeader"))),
    (r#"{"coll":-1,"ranks":1}"#, Some((1, "BadHeader"))),
    (r#"{"coll":1,"ranks":0}"#, Some((2, "BadRanks"))),
    (r#"{"coll":1,"ranks":65}"#, Some((2, "BadRanks"))),
    (r#"{"coll":2,"ranks":257}"#, Some((2, "BadRanks"))),
    (
        r#"{"coll":1,"ranks":1,"groups":[["g",0]]}"#,
        Some((3, "BadLine")),
    ),
    (
        r#"{"coll":2,"ranks":1,"groups":[["g"]]}"#,
        Some((3, "BadLine")),
    ),
    (
        r#"{"coll":2,"ranks":2,"groups":[["g",1,0]]}"#,
        Some((3, "BadGroup")),
    ),
    (
        r#"{"coll":2,"ranks":2,"groups":[["g",0,-1]]}"#,
        Some((3, "BadNumber")),
    ),
    (
        r#"{"coll":2,"ranks":2,"steps":[["on","g","barrier"]]}"#,
        Some((3, "BadGroup")),
    ),
    (
        r#"{"coll":1,"ranks":1,"inputs":[{"name":"a","type":"u8","rows":[]}]}"#,
        Some((3, "BadNumber")),
    ),
    (
        r#"{"coll":1,"ranks":1,"inputs":[{"name":"a","type":"u8","rows":[[]]}]}"#,
        Some((3, "BadNumber")),
    ),
    (
        r#"{"coll":1,"ranks":1,"inputs":[{"name":"A","type":"u8","rows":[[7]]}]}"#,
        Some((3, "BadLine")),
    ),
    (
        r#"{"coll":1,"ranks":1,"inputs":[{"name":"a","type":"f64","rows":[[7]]}]}"#,
        Some((3, "BadLine")),
    ),
    (
        r#"{"coll":1,"ranks":1,"steps":[["!"]]}"#,
        Some((3, "BadLine")),
    ),
    (
        r#"{"coll":1,"ranks":1,"steps":[["~"]]}"#,
        Some((3, "BadLine")),
    ),
    (
        r#"{"coll":1,"ranks":1,"steps":[["end"]]}"#,
        Some((4, "AfterEnd")),
    ),
    (
        r#"{"coll":1,"ranks":1,"steps":[["broadcast",-1,"a","b"]]}"#,
        Some((3, "BadNumber")),
    ),
    (
        r#"{"coll":1,"ranks":1,"prints":["b"]}"#,
        Some((3, "UnknownBuffer")),
    ),
];

#[test]
fn what_the_language_refuses(rt: HostRuntime) {
    cases_give(&rt, "REFUSED", REFUSED);
}

/// Members of one name: the last one stands, and each must be a value.
const REPEATED: &[Case] = &[
    (
        r#"{"coll":1,"ranks":2.5,"remote":true,"ranks":1,"remote":false}"#,
        None,
    ),
    (r#"{"coll":1,"ranks":0,"ranks":1}"#, None),
    (r#"{"coll":1,"ranks":1,"ranks":0}"#, Some((2, "BadRanks"))),
    (r#"{"coll":1,"ranks":1,"ranks":1.0}"#, Some((0, "BadForm"))),
    (
        r#"{"coll":1,"ranks":1e999,"ranks":1}"#,
        Some((0, "BadJson")),
    ),
    (
        r#"{"coll":1,"ranks":1,"inputs":[{"name":"a","type":"u8","rows":[[256]],"rows":[[7]]}]}"#,
        None,
    ),
    (r#"{"coll":1,"ranks":1,"steps":[["end"]],"steps":[]}"#, None),
];

#[test]
fn the_last_of_two_members_of_one_name_stands(rt: HostRuntime) {
    cases_give(&rt, "REPEATED", REPEATED);
    let json = r#"{"coll":1,"ranks":2.5,"remote":true,"ranks":1,"remote":false}"#;
    holds(
        &rt,
        "text",
        0,
        describes(rt.alloc(), json, "coll 1\nranks 1\nend\n"),
    );
}

/// The first two members, and what reading answers to them before a broadcast.
const NUMBERS: &[Case] = &[
    (r#""coll":1,"ranks":1"#, None),
    (r#""coll":1,"ranks":1.0"#, Some((0, "BadForm"))),
    (r#""coll":1,"ranks":1e0"#, Some((0, "BadForm"))),
    (r#""coll":1,"ranks":-0"#, Some((0, "BadForm"))),
    (
        r#""coll":1,"ranks":18446744073709551615"#,
        Some((2, "BadRanks")),
    ),
    (
        r#""coll":1,"ranks":18446744073709551616"#,
        Some((0, "BadForm")),
    ),
    (
        r#""coll":1,"ranks":-9223372036854775808"#,
        Some((2, "BadRanks")),
    ),
    (
        r#""coll":1,"ranks":-9223372036854775809"#,
        Some((0, "BadForm")),
    ),
    (r#""coll":1.0,"ranks":1e999"#, Some((0, "BadJson"))),
];

/// What reading answers to these members before a broadcast.
fn with_members(alloc: Global, members: &str) -> Answer {
    answer_to(
        alloc,
        &[
            (b"{", 1),
            (members.as_bytes(), 1),
            (b",", 1),
            (BEHIND.as_bytes(), 1),
        ],
    )
}

#[test]
fn what_is_a_whole_number(rt: HostRuntime) {
    for (i, case) in NUMBERS.iter().enumerate() {
        same_answer(&rt, "NUMBERS", i, with_members(rt.alloc(), case.0), case.1);
    }
}

/// What reading answers to a number of ranks of so many zeros after a one.
fn with_zeros(alloc: Global, zeros: u32) -> Answer {
    answer_to(
        alloc,
        &[(b"{\"coll\":1,\"ranks\":1", 1), (b"0", zeros), (b"}", 1)],
    )
}

#[test]
fn whole_numbers_of_many_digits(rt: HostRuntime) {
    // Ten to the power of 308 is no whole number; of 309 it is too large for a double.
    same_answer(
        &rt,
        "zeros",
        308,
        with_zeros(rt.alloc(), 308),
        Some((0, "BadForm")),
    );
    same_answer(
        &rt,
        "zeros",
        309,
        with_zeros(rt.alloc(), 309),
        Some((0, "BadJson")),
    );
}

/// The rows of two ranks, and what reading answers.
const ROWS: &[Case] = &[
    ("[[1,2],[3,4]]", None),
    ("[[1,2],[3]]", Some((5, "BadLine"))),
    ("[[1],[2,3]]", Some((5, "BadLine"))),
    ("[[1],[]]", Some((5, "BadLine"))),
    ("[[],[1]]", Some((3, "BadNumber"))),
    ("[[1,2],[3,4],[5,6]]", Some((6, "BadLine"))),
    ("[[1,2]]", Some((5, "BadLine"))),
];

/// What reading answers to these rows of two ranks.
fn with_rows(alloc: Global, rows: &str) -> Answer {
    answer_to(
        alloc,
        &[(TWO_RANKS.as_bytes(), 1), (rows.as_bytes(), 1), (b"}]}", 1)],
    )
}

#[test]
fn rows_of_unequal_length(rt: HostRuntime) {
    for (i, case) in ROWS.iter().enumerate() {
        same_answer(&rt, "ROWS", i, with_rows(rt.alloc(), case.0), case.1);
    }
}

/// What reading answers to a description of 118 bytes and so many times 1,024 spaces and so many more.
fn with_spaces(alloc: Global, blocks: u32, more: u32) -> Answer {
    answer_to(
        alloc,
        &[
            (DESCRIBED[0].0.as_bytes(), 1),
            (&[b' '; 1024], blocks),
            (b" ", more),
        ],
    )
}

/// What reading answers to so many spaces.
fn spaces(alloc: Global, blocks: u32, more: u32) -> Answer {
    answer_to(alloc, &[(&[b' '; 1024], blocks), (b" ", more)])
}

/// What reading answers to a description that prints a buffer so often.
fn with_prints(alloc: Global, count: u32) -> Answer {
    answer_to(
        alloc,
        &[
            (b"{\"coll\":1,\"ranks\":1,\"prints\":[\"b\"", 1),
            (b",\"b\"", count.saturating_sub(1)),
            (b"]}", 1),
        ],
    )
}

/// What reading answers to so many levels of lists.
fn levels(alloc: Global, count: u32) -> Answer {
    answer_to(alloc, &[(b"[", count), (b"]", count)])
}

#[test]
fn limits(rt: HostRuntime) {
    let alloc = rt.alloc();
    // The most bytes, and one more: 1,048,458 spaces are 1,023 blocks and 906.
    same_answer(&rt, "spaces", 906, with_spaces(alloc, 1023, 906), None);
    same_answer(
        &rt,
        "spaces",
        907,
        with_spaces(alloc, 1023, 907),
        Some((0, "TooLong")),
    );
    // What isn't even JSON is too long first.
    same_answer(
        &rt,
        "spaces",
        1,
        spaces(alloc, 1024, 1),
        Some((0, "TooLong")),
    );
    same_answer(
        &rt,
        "spaces",
        0,
        spaces(alloc, 1024, 0),
        Some((0, "BadJson")),
    );
    // Line texts of 15 bytes, 8 for each print and 4: 1,048,579 bytes, and 1,048,571.
    same_answer(
        &rt,
        "prints",
        131_070,
        with_prints(alloc, 131_070),
        Some((0, "TooLong")),
    );
    same_answer(
        &rt,
        "prints",
        131_069,
        with_prints(alloc, 131_069),
        Some((3, "UnknownBuffer")),
    );
    same_answer(&rt, "levels", 128, levels(alloc, 128), Some((0, "BadJson")));
    same_answer(&rt, "levels", 127, levels(alloc, 127), Some((0, "BadForm")));
}

/// Whether the value's lines are these, whatever it describes.
fn has_lines(alloc: Global, value: &Value, wanted: &[u8]) -> bool {
    match lines_of(alloc, value) {
        Ok(text) => are_equal(text.as_slice(), wanted),
        Err(_) => false,
    }
}

/// Whether the JSON is a value whose lines are these.
fn reads_as_lines(alloc: Global, json: &str, wanted: &[u8]) -> bool {
    match Value::from_str(alloc, json) {
        Ok(value) => has_lines(alloc, &value, wanted),
        Err(_) => false,
    }
}

/// Whether the value is refused since it isn't of the form.
fn is_bad_form(alloc: Global, value: &Value) -> bool {
    matches!(lines_of(alloc, value), Err(JsonFault::BadForm))
}

#[test]
fn lines_of_a_value_that_describes_nothing(rt: HostRuntime) {
    let json =
        r#"{"coll":3,"ranks":-4,"groups":[["g",0,2],["h"]],"inputs":[{"name":"a","type":"t","rows":[[],[1,2]]},{"name":"b","type":"t","rows":[]}],"steps":[["on","g",7]]}"#;
    let wanted =
        b"coll 3\nranks -4\ngroup g 0 2\ngroup h\ninput a t 0\n\n1 2\ninput b t 0\non g 7\nend\n";
    holds(&rt, "lines", 0, reads_as_lines(rt.alloc(), json, wanted));
    holds(&rt, "null", 0, is_bad_form(rt.alloc(), &Value::Null));
}

/// The examples that stand in both spellings: the JSON, and the text.
const EXAMPLES: &[(&str, &str)] = &[
    (
        r#"{
  "coll": 1,
  "ranks": 1,
  "inputs": [{"name": "a", "type": "u8", "rows": [[7]]}],
  "steps": [["broadcast", 0, "a", "b"]],
  "prints": ["b"]
}
"#,
        "coll 1\nranks 1\ninput a u8 1\n7\nbroadcast 0 a b\nprint b\nend\n",
    ),
    (
        r#"{
  "coll": 1,
  "ranks": 4,
  "remote": true,
  "inputs": [{"name": "a", "type": "u32", "rows": [[1], [2], [3], [4]]}],
  "steps": [["allreduce", "sum", "a", "b"], ["barrier"], ["scan", "sum", "b", "c"]],
  "prints": ["b", "c"]
}
"#,
        "coll 1\nranks 4\ncomplete remote\ninput a u32 1\n1\n2\n3\n4\nallreduce sum a b\nbarrier\nscan sum b c\nprint b\nprint c\nend\n",
    ),
    (
        r#"{
  "coll": 2,
  "ranks": 6,
  "groups": [["even", 0, 2, 4], ["odd", 1, 3, 5]],
  "inputs": [{"name": "a", "type": "u8", "rows": [[1], [2], [3], [4], [5], [6]]}],
  "steps": [
    ["on", "even", "allreduce", "sum", "a", "sums"],
    ["on", "odd", "scan", "max", "a", "greatest"],
    ["on", "odd", "broadcast", 2, "a", "last"]
  ],
  "prints": ["sums", "greatest", "last"]
}
"#,
        "coll 2\nranks 6\ngroup even 0 2 4\ngroup odd 1 3 5\ninput a u8 1\n1\n2\n3\n4\n5\n6\non even allreduce sum a sums\non odd scan max a greatest\non odd broadcast 2 a last\nprint sums\nprint greatest\nprint last\nend\n",
    ),
];

#[test]
fn examples_in_both_spellings(rt: HostRuntime) {
    each_describes(&rt, "EXAMPLES", EXAMPLES);
}
