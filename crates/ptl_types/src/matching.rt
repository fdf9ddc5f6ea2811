//! When a match entry matches a message.

ghost use Rattle.std.specs.Prelude.{◌≡◌};
ghost use Rattle.ptl_types.specs.Matching.{is_match};

use crate::{Entry, Header};

/// Whether the entry matches the message: their match bits are equal but for the ignored ones, and the entry takes the
/// message's source (Portals 4.3, matching). Lengths, offsets and what the entry allows aren't looked at.
pub fn matches(entry: &Entry, header: &Header) -> bool
    ensures { result ≡ is_match entry.now header.now }
{
    (header.match_bits ^ entry.match_bits) & !entry.ignore_bits == 0
        && match entry.match_id {
            None => true,
            Some(rank) => rank == header.source,
        }
}
