//! Whether a descriptor awaits an answer.

ghost use Rattle.std.specs.Prelude.{◌≡◌};
ghost use Rattle.ni_model.specs.Answers.{is_awaited};

use ni_model::Bound;
use ni_objects::handles::Store;

/// Whether a descriptor awaits an answer. It goes through the slots of the table.
pub fn some_awaits(mds: &Store<Bound>) -> bool
    ensures { result ≡ is_awaited mds.now.live }
{
    for slot in 0..mds.slots() {
        if let Some((_, bound)) = mds.at(slot) {
            if bound.awaits > 0 {
                return true;
            }
        }
    }
    false
}
