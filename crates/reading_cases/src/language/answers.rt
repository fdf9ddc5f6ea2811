//! Tables of whole texts that are refused.

use crate::answers::same_answer;
use crate::language::texts::answer;
use std::process::Abort;

/// A whole text, and the line and the name of its refusal.
pub type Refused = (&'static [u8], u32, &'static str);

/// Stops the test where one of these whole texts is read otherwise.
pub fn are_refused(rt: &(impl Abort + AllocGlobal), table: &str, cases: &[Refused]) {
    for (i, case) in cases.iter().enumerate() {
        let (text, line, name) = *case;
        same_answer(rt, table, i, answer(rt.alloc(), text), Some((line, name)));
    }
}
