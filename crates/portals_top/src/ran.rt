//! What a run leaves for the caller to look at.

ghost use Rattle.std.specs.Prelude.{◌≡◌};
ghost use Rattle.portals_top.specs.Left.{nothing_ran};

use plan_choice::ChoiceWorld;
use rank_threads::SpentWires;
use worlds::World;

/// The world that was run, beside the text that was written.
pub struct Ran {
    /// The world at rest, where a result was due and the run was made. Else none, and none of a choice text.
    pub world: Option<World>,
    /// The choice world at rest, where the result of a choice text was due and the run was made. Else none.
    pub choice: Option<ChoiceWorld>,
    /// What a run by threads leaves beside the world: memory that is given back when this is let go.
    pub(crate) spent: Option<SpentWires>,
}

// Written out, so that letting one go is one call: docs/DECISIONS.md, "Large types have a drop of their own".
impl Drop for Ran {
    fn drop(self) {
        let Ran {
            world: _,
            choice: _,
            spent: _,
        } = self;
    }
}

impl Ran {
    /// No world.
    pub fn new() -> Ran
        ensures { result ≡ nothing_ran }
    {
        Ran {
            world: None,
            choice: None,
            spent: None,
        }
    }
}

impl Default for Ran {
    fn default() -> Ran {
        Ran::new()
    }
}
