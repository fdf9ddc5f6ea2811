//! What the search for the entry that takes a message reads of each entry.
ghost use Rattle.std.specs.Prelude.{◌≡◌};
ghost use Rattle.match_lists.specs.Looks.{look_of};
ghost use Rattle.ni_model.specs.declared.Linked.{Linked};
ghost use Rattle.ni_model.specs.Lists.{fits};

use ni_model::Linked;
use ptl_types::{Header, Rank};

/// All that tells whether an entry takes a message. It lies apart from the rest of the entry's node, so that a search passes
/// over few bytes of each entry.
#[derive(Clone, Copy, Debug)]
pub struct Look {
    match_bits: u64,
    ignore_bits: u64,
    length: u64,
    running: u64,
    match_id: Option<Rank>,
    manage_local: bool,
    no_truncate: bool,
}

/// The look of an entry.
pub(crate) fn look_of(linked: &Linked) -> Look
    ensures { result ≡ look_of linked.now }
{
    Look {
        match_bits: linked.entry.match_bits,
        ignore_bits: linked.entry.ignore_bits,
        length: linked.entry.length,
        running: linked.running,
        match_id: linked.entry.match_id,
        manage_local: linked.entry.manage_local,
        no_truncate: linked.entry.no_truncate,
    }
}

/// A look of no entry, for a place where none is.
pub(crate) fn no_look() -> Look {
    Look {
        match_bits: 0,
        ignore_bits: 0,
        length: 0,
        running: 0,
        match_id: None,
        manage_local: false,
        no_truncate: false,
    }
}

/// Whether the entry of this look takes the message.
pub(crate) fn takes(look: &Look, header: &Header) -> bool
    ensures { (x : Linked) → look.now ≡ look_of x → result ≡ fits header.now x }
{
    let offset = if look.manage_local {
        look.running
    } else {
        header.offset
    };
    (header.match_bits ^ look.match_bits) & !look.ignore_bits == 0
        && match look.match_id {
            None => true,
            Some(rank) => rank == header.source,
        }
        && (!look.no_truncate || header.length <= look.length.saturating_sub(offset))
}
