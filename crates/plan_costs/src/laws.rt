//! That a plan's times, its ranks' and its critical path are one each.

ghost use Rattle.std.specs.Prelude.{ℕ, List, ◌≡◌, ◌≤◌};
ghost use Rattle.plan_core.specs.Plan.{Plan};
ghost use Rattle.plan_costs.specs.declared.numbers.LogGp.{LogGp};
ghost use Rattle.plan_costs.specs.Path.{IsCritical, PathOf};
ghost use Rattle.plan_costs.specs.Ranks.{AreRankTimes};
ghost use Rattle.plan_costs.specs.Times.{AreTimes, IsTimed, TimesOf};

/// Where the overhead is at least 1, the equations of a plan's times have one solution; and of such times each rank's time, and the
/// critical path with what it is spent on, are one.
pub fn times_are_one()
    ensures times { (n : LogGp) (p : Plan) (t u : TimesOf) → IsTimed p → 1 ≤ n.overhead → AreTimes n p t → AreTimes n p u → u ≡ t }
    ensures ranks { (p : Plan) (t : TimesOf) (k : ℕ) (xs ys : List ℕ) → AreRankTimes p t k xs → AreRankTimes p t k ys → ys ≡ xs }
    ensures path { (n : LogGp) (p : Plan) (t : TimesOf) (a b : PathOf) → IsCritical n p t a → IsCritical n p t b → b ≡ a }
{}
