//! Buffers and groups by their names.

ghost use Rattle.std.specs.Prelude.{◌≡◌, ◌≤◌, ◌*◌, ◌||◌, length, All, IfSome, is_some, option_map};
ghost use Rattle.coll_shape.specs.Outline.{members_of};
ghost use Rattle.coll_shape.specs.WellFormed.{elements_of};
ghost use Rattle.coll_shape.specs.declared.limits.TheConstants.{MOST_RANKS, MOST_GROUPS, MOST_BUFFERS, MOST_ELEMENTS};
ghost use Rattle.coll_lang.specs.Held.{HasMembers, IsSmall};
ghost use Rattle.coll_lang.specs.Language.{buffer_number, buffer_named, group_number, group_named};
ghost use Rattle.coll_lang.specs.Seen.{now, at_now, found_group};

use coll_shape::{Buffer, Group};
use coll_text::is;
use ptl_types::Rank;

/// The number of the group of that name. There are at most 64.
fn group_number(groups: &[Group], name: &[u8]) -> Option<usize>
    ensures { result ≡ group_number groups.now name.now }
{
    groups.iter().position(|g| is(g.name.as_slice(), name))
}

/// The number of the buffer of that name. There are at most 128.
fn buffer_number(buffers: &[Buffer], name: &[u8]) -> Option<usize>
    ensures { result ≡ buffer_number buffers.now name.now }
{
    buffers.iter().position(|b| is(b.name.as_slice(), name))
}

/// Whether a group or a buffer has the name.
pub fn is_taken(groups: &[Group], buffers: &[Buffer], name: &[u8]) -> bool
    ensures { result ≡ (is_some (group_number groups.now name.now) || is_some (buffer_number buffers.now name.now)) }
{
    group_number(groups, name).is_some() || buffer_number(buffers, name).is_some()
}

/// The buffer of that name, with its number.
#[tactic(auto, unfolding(crate::specs::Language::buffer_named))]
pub fn buffer_named<'a>(buffers: &'a [Buffer], name: &[u8]) -> Option<(u32, &'a Buffer)>
    requires at_most { length buffers.now ≤ MOST_BUFFERS }
    requires small { All IsSmall buffers.now }
    ensures named { option_map at_now result ≡ buffer_named buffers.now name.now }
    ensures small { IfSome result (λ b. IsSmall b.1.now) }
    ensures number { IfSome result (λ b. b.0 ≤ MOST_BUFFERS) }
{
    let at = buffer_number(buffers, name)?;
    Some((at as u32, &buffers[at]))
}

/// The number and the members of the group that a step names; without a name, everyone.
pub fn group_named<'a>(
    everyone: &'a [Rank],
    groups: &'a [Group],
    on: Option<&[u8]>,
) -> Option<(Option<u32>, &'a [Rank])>
    requires at_most { length groups.now ≤ MOST_GROUPS }
    requires everyone_some { 1 ≤ length everyone.now }
    requires everyone_few { length everyone.now ≤ MOST_RANKS }
    requires members { All HasMembers groups.now }
    ensures named { option_map found_group result ≡ group_named groups.now (now on.entry) }
    ensures members { IfSome result (λ f. f.1.now ≡ members_of everyone.now groups.now f.0) }
    ensures some { IfSome result (λ f. 1 ≤ length f.1.now) }
    ensures at_most { IfSome result (λ f. length f.1.now ≤ MOST_RANKS) }
{
    let Some(name) = on else {
        return Some((None, everyone));
    };
    let at = group_number(groups, name)?;
    Some((Some(at as u32), groups[at].members.as_slice()))
}

/// The elements of a buffer, over all ranks.
pub fn elements_of(buffer: &Buffer) -> u64
    requires { IsSmall buffer.now }
    ensures value { result ≡ elements_of buffer.now }
    ensures most { result ≤ MOST_RANKS * MOST_ELEMENTS }
{
    buffer.spread.length * buffer.spread.holders.as_slice().len() as u64
}
