//! Comparisons of one call each: where a test compares ten answers one after the other, its proof goes through all the branches.

use coll_lang::{Description, print};
use std::alloc::Global;
use std::fmt::Debug;
use std::process::Abort;

/// The line and the name of a refusal; nothing where the text is read.
pub(crate) type Answer = Option<(u32, &'static str)>;

/// Stops the test where a call's answer isn't the one that is wanted, and tells the call and both answers.
macro_rules! gives {
    ($rt:expr; $call:expr, $wanted:expr) => {
        $crate::answers::same(&$rt, stringify!($call), $call, $wanted)
    };
}

pub(crate) use gives;

/// Stops the test where these differ.
pub(crate) fn same<T: PartialEq + Debug + Drop>(rt: &impl Abort, call: &str, answer: T, wanted: T) {
    assert_eq!(rt; answer, wanted, "{call}");
}

/// Stops the test where these differ, and tells its table and the place there.
pub(crate) fn same_answer(
    rt: &impl Abort,
    table: &str,
    place: usize,
    found: Answer,
    wanted: Answer,
) {
    assert_eq!(rt; found, wanted, "{table} at {place}");
}

/// Stops the test where this isn't so, and tells its table and the place there.
pub(crate) fn holds(rt: &impl Abort, table: &str, place: usize, so: bool) {
    assert!(rt; so, "{table} at {place}");
}

/// Whether two lists of bytes are equal.
pub(crate) fn are_equal(list: &[u8], wanted: &[u8]) -> bool {
    list == wanted
}

/// Whether the description is printed as that text.
pub(crate) fn is_printed(alloc: Global, d: &Description, text: &[u8]) -> bool {
    match print(alloc, d) {
        Ok(printed) => are_equal(printed.as_slice(), text),
        Err(_) => false,
    }
}
