//! What a wave answers.

use ptl_types::{Lane, Rank};

/// Whether the notes of a wave show that the job is at rest; if not, the lowest cause.
#[derive(Clone, Copy, Debug, PartialEq, Eq)]
pub enum WaveAnswer {
    /// It is at rest.
    Rest,
    /// This rank hadn't started. It is the lowest.
    NotStarted(Rank),
    /// An operation of this rank was ready. All ranks had started, and the rank is the lowest.
    Ready {
        /// The rank.
        rank: Rank,
        /// The operation's number.
        number: u32,
    },
    /// On this lane not as much was received as was sent. All ranks had started, none had an operation that was ready, and the lane is the
    /// first by source, target and kind.
    Between {
        /// The rank that sent.
        source: Rank,
        /// The rank that received.
        target: Rank,
        /// The kind of the lane.
        lane: Lane,
        /// How many messages were noted as sent.
        sent: u64,
        /// How many were noted as received.
        got: u64,
    },
}
