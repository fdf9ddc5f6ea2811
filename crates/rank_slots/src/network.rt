//! What the ranks of a fabric share.

use crate::mail::Mail;
use pair_wires::Wire;

/// What a worker has of the others while it holds a rank's turn: the wires between all ranks, and the mail that is left for them.
#[derive(Clone, Copy)]
pub struct Network<'a> {
    /// The wires, by their numbers.
    pub wires: &'a [Wire],
    /// Where messages are likely to lie.
    pub mail: &'a Mail,
}
