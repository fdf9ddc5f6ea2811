//! What one entry takes, and the walk along a list for the entries that name a counting event.
ghost use Rattle.std.specs.Prelude.{◌≡◌, ◌+◌, ◌*◌, ◌≤◌, None, length};
ghost use Rattle.ni_model.specs.Lists.{fits, offset_in, space_in};
ghost use Rattle.ni_model.specs.Refusals.{entry_names_ct};
ghost use Rattle.ni_model.specs.Tables.{names};
ghost use Rattle.chain_list.specs.Chain.{first_or};
ghost use Rattle.match_lists.specs.Lists.{values};

use chain_list::{Chain, Steps};
use ni_model::Linked;
use ptl_types::{Handle, Header, matches};
use std::sync::ledger::Ledger;

/// The offset at which an entry takes a message, in bytes: its own running offset where it is locally managed, else the
/// message's.
pub fn offset_in(linked: &Linked, header: &Header) -> u64
    ensures { result ≡ offset_in linked.now header.now }
{
    if linked.entry.manage_local {
        linked.running
    } else {
        header.offset
    }
}

/// How many bytes of the entry are left from that offset on; 0 where the offset is beyond its length.
pub fn space_in(linked: &Linked, header: &Header) -> u64
    ensures { result ≡ space_in linked.now header.now }
{
    linked
        .entry
        .length
        .saturating_sub(offset_in(linked, header))
}

/// Whether the entry takes the message: it matches, and holds the whole message where it forbids truncation.
pub fn fits(linked: &Linked, header: &Header) -> bool
    ensures { result ≡ fits header.now linked.now }
{
    matches(&linked.entry, header)
        && (!linked.entry.no_truncate || header.length <= space_in(linked, header))
}

/// The place of a chain's first node.
fn first_place(chain: &Chain<Linked>) -> Option<u32>
    ensures { result ≡ first_or chain.now.entries None }
{
    match chain.first() {
        Some(key) => Some(key.place),
        None => None,
    }
}

/// Whether the entry names the counting event.
fn names(linked: &Linked, ct: Handle) -> bool
    ensures { result ≡ names linked.now.entry.ct ct }
{
    match linked.entry.ct {
        Some(named) => named.is(ct),
        None => false,
    }
}

/// Whether an entry of a list names the counting event. Counts at most two nodes for each entry.
pub(crate) fn some_names<L: Ledger>(chain: &Chain<Linked>, ct: Handle, steps: &mut Steps<L>) -> bool
    ensures value { result ≡ entry_names_ct ct (values chain.now.entries) }
    ensures steps { steps.new ≤ steps.old + 2 * length chain.now.entries }
{
    let nodes = chain.nodes();
    let mut next = first_place(chain);
    while let Some(place) = next {
        if names(nodes.value(place, steps), ct) {
            return true;
        }
        let (_, after) = nodes.links(place, steps);
        next = after;
    }
    false
}
