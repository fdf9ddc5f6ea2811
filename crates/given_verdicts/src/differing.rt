//! Where two lists differ.

ghost use Rattle.std.specs.Prelude.{◌≡◌};
ghost use Rattle.given_verdicts.specs.Differences.{difference_from};

/// The first place at which two lists of bytes differ, or at which one of them ends. None: they are the same.
#[tactic(auto, using(crate::proofs::Unlike::place_by_place))]
pub(crate) fn difference(a: &[u8], b: &[u8]) -> Option<usize>
    ensures { result ≡ difference_from 0 a.now b.now }
{
    let both = a.len().min(b.len());
    for i in 0..both {
        if a[i] != b[i] {
            return Some(i);
        }
    }
    if a.len() == b.len() { None } else { Some(both) }
}
