//! What the injection of a stray is.

ghost use Rattle.std.specs.Prelude.{ℕ, true, ◌<◌, ◌≡◌};
ghost use Rattle.ptl_types.specs.Messages.{Sent};
ghost use Rattle.ptl_types.specs.declared.headers.Lane.TheVariants.{Request};
ghost use Rattle.ni_model.specs.Conditions.{IsKept};
ghost use Rattle.cuts.specs.histories.Cut.{is_stray};
ghost use Rattle.cuts.specs.histories.Moment.{IsStrayStep};
ghost use Rattle.cuts.specs.histories.System.{System};
ghost use Rattle.cuts.specs.orders.Chosen.{Scene};
ghost use Rattle.worlds.specs.parts.Steps.{injected};

/// The injection of a stray on a used lane is a step of ranks and strays, in which no rank does anything.
pub fn injections_are_strays()
    ensures { (ranks : System) (scene : Scene) (s d : ℕ) (m : Sent) → s < ranks.count → d < ranks.count →
        ranks.used s d Request ≡ true → is_stray m ≡ true → m.header.source ≡ s → m.header.target ≡ d → IsKept m →
        IsStrayStep ranks scene.world scene.held (injected s d m scene).world (injected s d m scene).held }
{}
