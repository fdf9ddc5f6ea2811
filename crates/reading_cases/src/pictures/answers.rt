//! Texts of pictures that are refused.

use plan_pictures::lines::TextFault;
use std::process::Abort;

/// Stops the test where the text isn't refused so.
pub(crate) fn is_fault(rt: &impl Abort, text: &str, found: Option<TextFault>, wanted: TextFault) {
    assert!(rt; found == Some(wanted), "at {text}");
}
