//! The ends of a thread, and what linking two neighbours makes of them.
ghost use Rattle.std.specs.Prelude.{◌≡◌, ◌<◌, length, is_some, IfSome, if◌then◌else◌};
ghost use Rattle.chain_list.specs.Relinked.{places_after, places_before};
ghost use Rattle.chain_list.specs.threads.Fields.{next_of};

use crate::threads::links::Links;

/// The first and the last place of a thread.
#[derive(Clone, Copy, Debug)]
pub struct Ends {
    pub(crate) first: Option<u32>,
    pub(crate) last: Option<u32>,
}

/// Makes `after` what follows `before`; where nothing is before, makes it the first.
pub(crate) fn set_next(links: &mut Links, ends: &mut Ends, before: Option<u32>, after: Option<u32>)
    requires before { IfSome before (λ place. place < length links.old) }
    requires after { IfSome after (λ place. place < length links.old) }
    ensures links { links.new ≡ places_after before after links.old }
    ensures first { ends.new.first ≡ (if is_some before then ends.old.first else after) }
    ensures last { ends.new.last ≡ ends.old.last }
{
    match before {
        Some(place) => links.set_after(place, after),
        None => ends.first = after,
    }
}

/// Makes `before` what goes before `after`; where nothing is after, makes it the last.
pub(crate) fn set_previous(
    links: &mut Links,
    ends: &mut Ends,
    after: Option<u32>,
    before: Option<u32>,
)
    requires after { IfSome after (λ place. place < length links.old) }
    requires before { IfSome before (λ place. place < length links.old) }
    ensures links { links.new ≡ places_before after before links.old }
    ensures first { ends.new.first ≡ ends.old.first }
    ensures last { ends.new.last ≡ (if is_some after then ends.old.last else before) }
{
    match after {
        Some(place) => links.set_before(place, before),
        None => ends.last = before,
    }
}

/// What comes after a place of the thread with these ends; the first, where that is asked.
pub(crate) fn next_of(links: &Links, ends: Ends, place: Option<u32>) -> Option<u32>
    requires { IfSome place (λ p. p < length links.now) }
    ensures { result ≡ next_of place ends.first links.now }
{
    match place {
        Some(place) => links.at(place).after(),
        None => ends.first,
    }
}
