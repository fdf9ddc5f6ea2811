//! What an order tells of a cut, and how an interleaving ends: where the listed histories of two cuts agree they have the same
//! messages; an interleaving that strays come into is bounded by the plan and the strays, and leaves the ranks complete.

ghost use Rattle.std.specs.Prelude.{ℕ, suc, true, ◌↔◌, ◌+◌, ◌<◌, ◌≤◌, ◌≡◌, length, map, sum_by};
ghost use Rattle.ptl_types.specs.declared.headers.Lane.{Lane};
ghost use Rattle.ptl_types.specs.declared.headers.Lane.TheVariants.{Request};
ghost use Rattle.ptl_types.specs.Messages.{Sent};
ghost use Rattle.plan_core.specs.Plan.{Plan, from_to};
ghost use Rattle.plan_core.specs.Sound.{SoundPlan, AreInputsOf};
ghost use Rattle.plan_core.specs.Values.{Inputs};
ghost use Rattle.cuts.specs.view.Slots.{Slots};
ghost use Rattle.cuts.specs.histories.Cut.{IsAtRest, IsCut};
ghost use Rattle.cuts.specs.histories.Moment.{IsMoment, IsStill, IsStrayOf, Lanes};
ghost use Rattle.cuts.specs.histories.Plans.{IsComplete, system_of};
ghost use Rattle.cuts.specs.histories.System.{Histories, System};
ghost use Rattle.cuts.specs.histories.Wave.{HasNoStray};
ghost use Rattle.cuts.specs.orders.Reached.{IsReached};
ghost use Rattle.cuts.specs.orders.Taking.{listed};
ghost use Rattle.cuts.specs.interleavings.Interleaving.{IsReachedIn, IsStillButStrays, steps_due, strays_received};
ghost use Rattle.cuts.specs.interleavings.Open.{stray_in};

/// Listed histories leave one choice of messages, at the moments of interleavings of any ranks, those of a plan as those of a choice
/// text: where the lists of two moments agree, each rank made the same steps with the same messages, and the same are on their way.
pub fn listed_moments()
    ensures histories { (ranks : System) (one other : Histories) (held later : Lanes) →
        IsReached ranks one held → IsReached ranks other later →
        ((r : ℕ) → r < ranks.count → map listed (one r) ≡ map listed (other r)) →
        (r : ℕ) → r < ranks.count → one r ≡ other r }
    ensures lanes { (ranks : System) (one other : Histories) (held later : Lanes) →
        IsReached ranks one held → IsReached ranks other later →
        ((r : ℕ) → r < ranks.count → map listed (one r) ≡ map listed (other r)) →
        (s d : ℕ) (lane : Lane) → held s d lane ≡ later s d lane }
{}

/// The same in cuts of a sound plan's ranks, which have no common time: where the listed histories of two cuts agree, each rank
/// received the same messages, bytes included. Strays are anyone's: where some were received, which ones has to be told too.
pub fn listed_cuts()
    ensures messages { (plan : Plan) (inputs : Inputs) (slots : ℕ → Slots) (one other : Histories) →
        SoundPlan plan (length inputs) → AreInputsOf plan inputs →
        IsCut (system_of plan inputs slots) one → IsCut (system_of plan inputs slots) other →
        HasNoStray (system_of plan inputs slots) one → HasNoStray (system_of plan inputs slots) other →
        ((r : ℕ) → r < plan.ranks → map listed (one r) ≡ map listed (other r)) →
        (r : ℕ) → r < plan.ranks → one r ≡ other r }
    ensures strays { (plan : Plan) (inputs : Inputs) (slots : ℕ → Slots) (one other : Histories) →
        SoundPlan plan (length inputs) → AreInputsOf plan inputs →
        IsCut (system_of plan inputs slots) one → IsCut (system_of plan inputs slots) other →
        ((r : ℕ) → r < plan.ranks → map listed (one r) ≡ map listed (other r)) →
        ((r : ℕ) → r < plan.ranks → map stray_in (one r) ≡ map stray_in (other r)) →
        (r : ℕ) → r < plan.ranks → one r ≡ other r }
{}

/// An interleaving of a plan's ranks ends, however many strays come into it and whenever: each moment of it is a moment of the
/// plan; its local steps are as many as all histories are long, which is at most the steps that the plan's ranks have to make (a
/// start each, a firing of each operation, the receipts of the plan's messages) and one for each stray that was received; and no
/// stray is received that wasn't put in a lane, so the plan and the strays bound it. Without strays these are the interleavings of
/// local steps, and some interleaving comes to its end.
pub fn interleavings_end()
    ensures moment { (plan : Plan) (inputs : Inputs) (slots : ℕ → Slots) (steps strays : ℕ) (world : Histories) (held : Lanes) →
        SoundPlan plan (length inputs) → AreInputsOf plan inputs →
        IsReachedIn (system_of plan inputs slots) steps strays world held →
        IsMoment (system_of plan inputs slots) world held }
    ensures counted { (ranks : System) (steps strays : ℕ) (world : Histories) (held : Lanes) →
        IsReachedIn ranks steps strays world held →
        steps ≡ sum_by (λ r. length (world r)) (from_to 0 ranks.count) }
    ensures by_receipts { (plan : Plan) (inputs : Inputs) (slots : ℕ → Slots) (steps strays : ℕ) (world : Histories) (held : Lanes) →
        SoundPlan plan (length inputs) → AreInputsOf plan inputs →
        IsReachedIn (system_of plan inputs slots) steps strays world held →
        steps ≤ steps_due plan + strays_received world plan.ranks }
    ensures received { (plan : Plan) (inputs : Inputs) (slots : ℕ → Slots) (steps strays : ℕ) (world : Histories) (held : Lanes) →
        SoundPlan plan (length inputs) → AreInputsOf plan inputs →
        IsReachedIn (system_of plan inputs slots) steps strays world held →
        strays_received world plan.ranks ≤ strays }
    ensures bounded { (plan : Plan) (inputs : Inputs) (slots : ℕ → Slots) (steps strays : ℕ) (world : Histories) (held : Lanes) →
        SoundPlan plan (length inputs) → AreInputsOf plan inputs →
        IsReachedIn (system_of plan inputs slots) steps strays world held →
        steps ≤ steps_due plan + strays }
    ensures plain { (ranks : System) (world : Histories) (held : Lanes) →
        (IsReached ranks world held ↔ ((steps : ℕ) × IsReachedIn ranks steps 0 world held)) }
    ensures some { (plan : Plan) (inputs : Inputs) (slots : ℕ → Slots) →
        SoundPlan plan (length inputs) → AreInputsOf plan inputs →
        ((steps : ℕ) × (world : Histories) × (held : Lanes) ×
        IsReachedIn (system_of plan inputs slots) steps 0 world held ×
        IsStill (system_of plan inputs slots) world held) }
{}

/// Strays change nothing of the end: in an interleaving of a plan's ranks that any number of them came into, once each rank has
/// started, no operation is ready and nothing but strays is left in the lanes, each rank is complete: each completion counter stands
/// at its threshold, and each cell holds its value. The ranks have then made just the steps that the plan gives, and one for each
/// stray that they received. An interleaving of which no step but a stray's is left is one such, and stays one when a stray more comes.
pub fn strays_change_no_end()
    ensures complete { (plan : Plan) (inputs : Inputs) (slots : ℕ → Slots) (steps strays : ℕ) (world : Histories) (held : Lanes) →
        SoundPlan plan (length inputs) → AreInputsOf plan inputs →
        IsReachedIn (system_of plan inputs slots) steps strays world held →
        IsStillButStrays (system_of plan inputs slots) world held →
        (r : ℕ) → r < plan.ranks → IsComplete plan inputs slots world r }
    ensures rest { (plan : Plan) (inputs : Inputs) (slots : ℕ → Slots) (steps strays : ℕ) (world : Histories) (held : Lanes) →
        SoundPlan plan (length inputs) → AreInputsOf plan inputs →
        IsReachedIn (system_of plan inputs slots) steps strays world held →
        IsStillButStrays (system_of plan inputs slots) world held →
        IsAtRest (system_of plan inputs slots) world }
    ensures steps { (plan : Plan) (inputs : Inputs) (slots : ℕ → Slots) (steps strays : ℕ) (world : Histories) (held : Lanes) →
        SoundPlan plan (length inputs) → AreInputsOf plan inputs →
        IsReachedIn (system_of plan inputs slots) steps strays world held →
        IsStillButStrays (system_of plan inputs slots) world held →
        steps ≡ steps_due plan + strays_received world plan.ranks }
    ensures still { (ranks : System) (world : Histories) (held : Lanes) →
        IsStill ranks world held → IsStillButStrays ranks world held }
    ensures more { (ranks : System) (steps strays : ℕ) (world : Histories) (held : Lanes) (s d : ℕ) (m : Sent) →
        IsReachedIn ranks steps strays world held → IsStillButStrays ranks world held →
        s < ranks.count → d < ranks.count → ranks.used s d Request ≡ true → IsStrayOf s d Request m →
        ((later : Lanes) × IsReachedIn ranks steps (suc strays) world later × IsStillButStrays ranks world later) }
{}
