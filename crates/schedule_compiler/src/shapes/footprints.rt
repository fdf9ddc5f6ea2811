//! How large plans are.

/// The links of a plan, and the bytes of its cells.
#[derive(Clone, Copy, Debug, PartialEq, Eq)]
pub struct Size {
    /// Links.
    pub links: u64,
    /// Bytes of all cells.
    pub bytes: u64,
}
