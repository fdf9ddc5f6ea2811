//! From a plan to what each of its ranks installs: tables by rank, lane and class, made in one pass over the cells or links each,
//! and from them each rank's calls, limits and done threshold. It knows no shapes.
#![tactic(auto)]

ghost use Rattle.std.specs.Prelude.{ℕ};
ghost use Rattle.plan_core.specs.Plan.{Plan};
ghost use Rattle.plan_core.specs.Sound.{SoundPlan};
ghost use Rattle.plan_tables.specs.Tables.{IsTabled};

mod all_areas;
mod appended;
mod by_rank;
mod calls;
mod index;
mod lanes;
mod owners;
mod ranks;
mod reading;
mod starts;
mod tables;
mod tallies;

pub use by_rank::ByRank;
pub use lanes::Lanes;
pub use ranks::RankTable;
pub use tables::Tables;
pub use tallies::Tallies;

/// A sound plan is one that the tables can be made of.
pub fn sound_plans()
    ensures { (p : Plan) (inputs : ℕ) → SoundPlan p inputs → IsTabled p }
{}
