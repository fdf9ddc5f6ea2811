//! The limits of what a description says. Code and definitions cite each by its name here.

/// The most ranks of a job, as in version 2, and so the most members of a group.
pub const MOST_RANKS: u32 = 256;

/// The most ranks of a job in version 1.
pub const MOST_RANKS_IN_ONE: u32 = 64;

/// The most groups that are named.
pub const MOST_GROUPS: usize = 64;

/// The most buffers: the inputs and what the steps make, together.
pub const MOST_BUFFERS: usize = 128;

/// The most steps.
pub const MOST_STEPS: usize = 64;

/// The most prints.
pub const MOST_PRINTS: usize = 128;

/// The most elements of an input at one rank.
pub const MOST_GIVEN: u32 = 4_096;

/// The most elements of a buffer at one rank, and of all prints together over all ranks.
pub const MOST_ELEMENTS: u64 = 16_777_216;
