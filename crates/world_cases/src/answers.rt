//! Comparisons of one call each: where a test compares ten answers one after the other, its proof goes through all the branches.

use ptl_types::Rank;
use std::fmt::Debug;
use std::process::Abort;

/// Stops the test where a call's answer isn't the one that is wanted, and tells the call and both answers.
macro_rules! gives {
    ($rt:expr; $call:expr, $wanted:expr) => {
        $crate::answers::same($rt, stringify!($call), $call, $wanted)
    };
}

pub(crate) use gives;

/// Stops the test where these differ.
pub(crate) fn same<T: PartialEq + Debug + Drop>(rt: &impl Abort, call: &str, answer: T, wanted: T) {
    assert_eq!(rt; answer, wanted, "{call}");
}

/// Stops the test where these differ in a case.
pub(crate) fn same_in<T: PartialEq + Debug + Drop>(
    rt: &impl Abort,
    name: u64,
    answer: T,
    wanted: T,
) {
    assert_eq!(rt; answer, wanted, "case {name}");
}

/// Stops the test where these differ at a rank of a case.
pub(crate) fn same_at<T: PartialEq + Debug + Drop>(
    rt: &impl Abort,
    place: (u64, Rank),
    answer: T,
    wanted: T,
) {
    let (name, r) = place;
    assert_eq!(rt; answer, wanted, "case {name}, rank {r}");
}
