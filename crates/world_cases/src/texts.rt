//! Long texts, piece by piece.

use std::alloc::{AllocError, Global};

/// Adds a number to a text, and what stands before and after it.
pub fn put_number(
    alloc: Global,
    text: &mut Vec<u8>,
    before: &str,
    number: u32,
    after: &str,
) -> Result<(), AllocError> {
    let word = format!(in alloc; "{before}{number}{after}")?;
    text.extend_from_slice(word.as_bytes())
}
