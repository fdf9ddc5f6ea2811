//! What holds of every cut of a plan's ranks, whatever the order of arrivals: rest is completion, a cell that has reached its needs
//! holds its value, barriers are kept, answers are awaited where they come; of every moment of an interleaving, strays and windows
//! included; of one wave of probes; and how much the lanes and the ranks of a cut carry.

ghost use Rattle.std.specs.Prelude.{ℕ, suc, Bool, true, false, None, ◌↔◌, if◌then◌else◌, ◌+◌, ◌<◌, ◌≤◌, ◌≡◌, count_by, sum_by, IsTrue};
ghost use Rattle.std.specs.Prelude.{List, [], ◌∷◌, ◌++◌, length};
ghost use Rattle.ptl_types.specs.declared.headers.Lane.{Lane};
ghost use Rattle.ptl_types.specs.declared.headers.Lane.TheVariants.{Answer};
ghost use Rattle.ptl_types.specs.Messages.{Sent};
ghost use Rattle.ptl_types.specs.declared.calls.Outcome.TheVariants.{Dropped};
ghost use Rattle.ni_model.specs.Conditions.{IsKept};
ghost use Rattle.ptl_types.specs.Handles.{one_more};
ghost use Rattle.ni_model.specs.State.{delivers, target};
ghost use Rattle.plan_core.specs.Members.{In};
ghost use Rattle.plan_core.specs.Plan.{Plan, link};
ghost use Rattle.plan_core.specs.Sound.{SoundPlan, AreInputsOf};
ghost use Rattle.plan_core.specs.Values.{Inputs, value};
ghost use Rattle.plan_core.specs.calls.Areas.{links_to};
ghost use Rattle.plan_core.specs.calls.Lanes.{is_used_lane, lane_messages};
ghost use Rattle.plan_core.specs.calls.RankOps.{sends_of, rank_ops};
ghost use Rattle.cuts.specs.machine.Machine.{Leads};
ghost use Rattle.cuts.specs.machine.Rounds.{IsRounds};
ghost use Rattle.cuts.specs.view.Slots.{Slots};
ghost use Rattle.cuts.specs.view.Calls.{prepare};
ghost use Rattle.cuts.specs.histories.Barrier.{IsBarrierKept};
ghost use Rattle.cuts.specs.histories.Cut.{IsCut, IsAtRest, got_by, is_received_stray, is_stray};
ghost use Rattle.cuts.specs.histories.History.{Local, IsDue, May, is_lane};
ghost use Rattle.cuts.specs.histories.History.Local.{Receive};
ghost use Rattle.cuts.specs.histories.Lanes.{is_receipt, received_bytes};
ghost use Rattle.cuts.specs.histories.Moment.{HasNoneHeld, IsEnabled, IsMoment, IsStep, IsStill, IsStuck, Lanes};
ghost use Rattle.cuts.specs.histories.Plans.{CounterReached, IsComplete, StartsPass, cell_bytes, system_of};
ghost use Rattle.cuts.specs.histories.System.{Histories, sent_by, state_at};
ghost use Rattle.cuts.specs.histories.Wave.{HasNoStray, IsWave};

/// For every sound plan, whatever its inputs and the slots that tables gave out, every cut that is at rest is complete, at each
/// rank: every completion counter stands at its threshold, nothing is pending, no header is left, only strays were dropped, and
/// every cell holds its value.
pub fn rest_gives_completion()
    ensures { (plan : Plan) (inputs : Inputs) (slots : ℕ → Slots) (world : Histories) →
        SoundPlan plan (length inputs) → AreInputsOf plan inputs →
        IsCut (system_of plan inputs slots) world → IsAtRest (system_of plan inputs slots) world →
        (r : ℕ) → r < plan.ranks → IsComplete plan inputs slots world r }
{}

/// In every cut, whatever the order of arrivals: a cell whose counter has reached its needs holds its value, and each cell from
/// which links lead to it has reached its needs too, whether or not its rank has started.
pub fn reached_cells()
    ensures value { (plan : Plan) (inputs : Inputs) (slots : ℕ → Slots) (world : Histories) →
        SoundPlan plan (length inputs) → AreInputsOf plan inputs →
        IsCut (system_of plan inputs slots) world → (c : ℕ) → c < length plan.cells →
        CounterReached plan inputs slots world c →
        cell_bytes plan inputs slots world c ≡ value plan inputs c }
    ensures ancestors { (plan : Plan) (inputs : Inputs) (slots : ℕ → Slots) (world : Histories) →
        SoundPlan plan (length inputs) → AreInputsOf plan inputs →
        IsCut (system_of plan inputs slots) world →
        (b c : ℕ) → b < length plan.cells → c < length plan.cells → Leads plan b c →
        CounterReached plan inputs slots world c → CounterReached plan inputs slots world b }
{}

/// In every cut a dissemination barrier over the places of a group is kept: if one member has passed it, every member has entered
/// it. `round k m` is the cell of the member at place m in round k.
pub fn barriers_hold()
    ensures { (plan : Plan) (inputs : Inputs) (slots : ℕ → Slots) (world : Histories)
        (places rounds : ℕ) (round : ℕ → ℕ → ℕ) →
        SoundPlan plan (length inputs) → AreInputsOf plan inputs →
        IsCut (system_of plan inputs slots) world →
        IsRounds plan places rounds round → ((k m : ℕ) → k ≤ rounds → m < places →
        round k m < length plan.cells) →
        IsBarrierKept plan inputs slots world places round rounds }
{}

/// In a cut, the next answer that is on the way to a rank is one that is awaited there: its delivery makes a legal step.
pub fn next_answer()
    ensures { (plan : Plan) (inputs : Inputs) (slots : ℕ → Slots) (world : Histories) →
        SoundPlan plan (length inputs) → AreInputsOf plan inputs →
        IsCut (system_of plan inputs slots) world →
        (r s : ℕ) (m : Sent) (later : List Sent) → r < plan.ranks → s < plan.ranks →
        got_by world r s Answer ++ m ∷ later ≡ sent_by (system_of plan inputs slots) world s r Answer →
        IsDue (state_at (system_of plan inputs slots) world r) Answer m }
{}

/// The next message of any lane may be received: its source, its target, a kind of its lane, what messages keep, and, on an answer
/// lane, that an answer is awaited. In a cut of a message of the job, at a moment of whatever is held, strays too.
pub fn next_message()
    ensures of_a_cut { (plan : Plan) (inputs : Inputs) (slots : ℕ → Slots) (world : Histories) →
        SoundPlan plan (length inputs) → AreInputsOf plan inputs →
        IsCut (system_of plan inputs slots) world →
        (r s : ℕ) (lane : Lane) (m : Sent) (later : List Sent) (begun : Bool) → r < plan.ranks → s < plan.ranks →
        got_by world r s lane ++ m ∷ later ≡ sent_by (system_of plan inputs slots) world s r lane →
        May begun (state_at (system_of plan inputs slots) world r) (Receive s lane m) }
    ensures of_a_moment { (plan : Plan) (inputs : Inputs) (slots : ℕ → Slots) (world : Histories) (held : Lanes) →
        SoundPlan plan (length inputs) → AreInputsOf plan inputs →
        IsMoment (system_of plan inputs slots) world held →
        (r s : ℕ) (lane : Lane) (m : Sent) (later : List Sent) (begun : Bool) → r < plan.ranks → s < plan.ranks →
        held s r lane ≡ m ∷ later →
        May begun (state_at (system_of plan inputs slots) world r) (Receive s lane m) }
{}

/// Whatever stray comes to a rank of a cut, whether or not it has started, is dropped without an answer: the drop register rises by
/// one, as far as it can, and nothing else of the interface changes.
pub fn strays_are_dropped()
    ensures { (plan : Plan) (inputs : Inputs) (slots : ℕ → Slots) (world : Histories) →
        SoundPlan plan (length inputs) → AreInputsOf plan inputs →
        IsCut (system_of plan inputs slots) world → (r : ℕ) → r < plan.ranks →
        (m : Sent) → is_stray m ≡ true →
        (let s = state_at (system_of plan inputs slots) world r in
        target s m ≡ delivers (record s { drops = one_more s.drops }) Dropped None) }
{}

/// In a cut, what a rank sent to another on a lane has that source and that target and a kind of that lane, keeps what messages
/// keep, and is no stray.
pub fn sent_messages()
    ensures source { (plan : Plan) (inputs : Inputs) (slots : ℕ → Slots) (world : Histories) →
        SoundPlan plan (length inputs) → AreInputsOf plan inputs →
        IsCut (system_of plan inputs slots) world →
        (s d : ℕ) (lane : Lane) (m : Sent) → s < plan.ranks → d < plan.ranks →
        In m (sent_by (system_of plan inputs slots) world s d lane) → m.header.source ≡ s }
    ensures target { (plan : Plan) (inputs : Inputs) (slots : ℕ → Slots) (world : Histories) →
        SoundPlan plan (length inputs) → AreInputsOf plan inputs →
        IsCut (system_of plan inputs slots) world →
        (s d : ℕ) (lane : Lane) (m : Sent) → s < plan.ranks → d < plan.ranks →
        In m (sent_by (system_of plan inputs slots) world s d lane) → m.header.target ≡ d }
    ensures kind { (plan : Plan) (inputs : Inputs) (slots : ℕ → Slots) (world : Histories) →
        SoundPlan plan (length inputs) → AreInputsOf plan inputs →
        IsCut (system_of plan inputs slots) world →
        (s d : ℕ) (lane : Lane) (m : Sent) → s < plan.ranks → d < plan.ranks →
        In m (sent_by (system_of plan inputs slots) world s d lane) →
        IsTrue (is_lane lane m.header.kind) }
    ensures kept { (plan : Plan) (inputs : Inputs) (slots : ℕ → Slots) (world : Histories) →
        SoundPlan plan (length inputs) → AreInputsOf plan inputs →
        IsCut (system_of plan inputs slots) world →
        (s d : ℕ) (lane : Lane) (m : Sent) → s < plan.ranks → d < plan.ranks →
        In m (sent_by (system_of plan inputs slots) world s d lane) → IsKept m }
    ensures clean { (plan : Plan) (inputs : Inputs) (slots : ℕ → Slots) (world : Histories) →
        SoundPlan plan (length inputs) → AreInputsOf plan inputs →
        IsCut (system_of plan inputs slots) world →
        (s d : ℕ) (lane : Lane) (m : Sent) → s < plan.ranks → d < plan.ranks →
        In m (sent_by (system_of plan inputs slots) world s d lane) → is_stray m ≡ false }
{}

/// In a cut a lane carries at most the plan's messages on it, and so nothing where it isn't used: neither is anything sent there,
/// nor does anything of the job come.
pub fn lanes_of_a_cut()
    ensures messages { (plan : Plan) (inputs : Inputs) (slots : ℕ → Slots) (world : Histories) →
        SoundPlan plan (length inputs) → AreInputsOf plan inputs →
        IsCut (system_of plan inputs slots) world →
        (s d : ℕ) (lane : Lane) → s < plan.ranks → d < plan.ranks →
        length (sent_by (system_of plan inputs slots) world s d lane) ≤ lane_messages plan s d lane }
    ensures unused { (plan : Plan) (inputs : Inputs) (slots : ℕ → Slots) (world : Histories) →
        SoundPlan plan (length inputs) → AreInputsOf plan inputs →
        IsCut (system_of plan inputs slots) world →
        (s d : ℕ) (lane : Lane) → s < plan.ranks → d < plan.ranks →
        is_used_lane plan s d lane ≡ false →
        sent_by (system_of plan inputs slots) world s d lane ≡ [] }
    ensures nothing_comes { (plan : Plan) (inputs : Inputs) (slots : ℕ → Slots) (world : Histories) →
        SoundPlan plan (length inputs) → AreInputsOf plan inputs →
        IsCut (system_of plan inputs slots) world →
        (s d : ℕ) (lane : Lane) → s < plan.ranks → d < plan.ranks →
        is_used_lane plan s d lane ≡ false → got_by world d s lane ≡ [] }
{}

/// In a cut a rank receives, beside strays, at most the messages of the links to it and, where the plan is remote, an answer for
/// each message that it sends; it makes at most so many steps beside a start and its firings; and it receives at most the bytes of
/// the links to it.
pub fn receipts_of_a_cut()
    ensures number { (plan : Plan) (inputs : Inputs) (slots : ℕ → Slots) (world : Histories) →
        SoundPlan plan (length inputs) → AreInputsOf plan inputs →
        IsCut (system_of plan inputs slots) world → (r : ℕ) → r < plan.ranks →
        count_by is_receipt (world r) ≤
        count_by is_received_stray (world r) +
        (length (links_to plan r) + (if plan.remote then sends_of plan r else 0)) }
    ensures steps { (plan : Plan) (inputs : Inputs) (slots : ℕ → Slots) (world : Histories) →
        SoundPlan plan (length inputs) → AreInputsOf plan inputs →
        IsCut (system_of plan inputs slots) world → (r : ℕ) → r < plan.ranks →
        length (world r) ≤
        suc (length (rank_ops plan r)) + (count_by is_received_stray (world r) +
        (length (links_to plan r) + (if plan.remote then sends_of plan r else 0))) }
    ensures bytes { (plan : Plan) (inputs : Inputs) (slots : ℕ → Slots) (world : Histories) →
        SoundPlan plan (length inputs) → AreInputsOf plan inputs →
        IsCut (system_of plan inputs slots) world → (r : ℕ) → r < plan.ranks →
        received_bytes (world r) ≤ sum_by (λ l. (link plan l).length) (links_to plan r) }
{}

/// In a cut each header that a start takes is used and lies in the region, none of its appends is refused, nor the count of its
/// go counter.
pub fn starts_pass()
    ensures { (plan : Plan) (inputs : Inputs) (slots : ℕ → Slots) (world : Histories) →
        SoundPlan plan (length inputs) → AreInputsOf plan inputs →
        IsCut (system_of plan inputs slots) world → (r : ℕ) → r < plan.ranks →
        StartsPass plan (slots r) r (prepare plan inputs (slots r) r) (world r) }
{}

/// Every moment of an interleaving is a cut: the first one is, and so is what a step leaves, a stray's included. Where no step but
/// a stray's is enabled the moment is at rest; where no stray waits in a lane, a moment at rest is one at which none is.
pub fn each_moment()
    ensures first { (plan : Plan) (inputs : Inputs) (slots : ℕ → Slots) →
        IsMoment (system_of plan inputs slots) (λ r. []) (λ s d lane. []) }
    ensures next { (plan : Plan) (inputs : Inputs) (slots : ℕ → Slots) (world next : Histories)
        (held later : Lanes) →
        SoundPlan plan (length inputs) → AreInputsOf plan inputs →
        IsMoment (system_of plan inputs slots) world held →
        IsStep (system_of plan inputs slots) world held next later →
        IsMoment (system_of plan inputs slots) next later }
    ensures rest { (plan : Plan) (inputs : Inputs) (slots : ℕ → Slots) (world : Histories)
        (held : Lanes) →
        IsMoment (system_of plan inputs slots) world held →
        ((r : ℕ) (e : Local) → r < plan.ranks →
        IsEnabled (system_of plan inputs slots) world held r e → IsTrue false) →
        IsAtRest (system_of plan inputs slots) world }
    ensures converse { (plan : Plan) (inputs : Inputs) (slots : ℕ → Slots) (world : Histories)
        (held : Lanes) →
        IsMoment (system_of plan inputs slots) world held →
        HasNoneHeld (system_of plan inputs slots) held →
        IsAtRest (system_of plan inputs slots) world →
        (r : ℕ) (e : Local) → r < plan.ranks →
        IsEnabled (system_of plan inputs slots) world held r e → IsTrue false }
    ensures still { (plan : Plan) (inputs : Inputs) (slots : ℕ → Slots) (world : Histories)
        (held : Lanes) →
        (IsStill (system_of plan inputs slots) world held ↔ ((r : ℕ) (e : Local) → r < plan.ranks →
        IsEnabled (system_of plan inputs slots) world held r e → IsTrue false)) }
{}

/// Under a window of at least one message a moment at which no step is possible is at rest, strays or none.
pub fn windows()
    ensures { (plan : Plan) (inputs : Inputs) (slots : ℕ → Slots) (world : Histories) (held : Lanes)
        (window : ℕ) →
        SoundPlan plan (length inputs) → 0 < window →
        IsMoment (system_of plan inputs slots) world held →
        IsStuck (system_of plan inputs slots) world held window →
        IsAtRest (system_of plan inputs slots) world }
{}

/// Fronts of the histories of a cut without strays, which one wave of probes finds started, idle and with as much received as
/// sent on each used lane, are a cut at rest, and are the whole histories.
pub fn one_wave()
    ensures cut { (plan : Plan) (inputs : Inputs) (slots : ℕ → Slots) (fronts world : Histories) →
        SoundPlan plan (length inputs) → AreInputsOf plan inputs →
        IsCut (system_of plan inputs slots) world → HasNoStray (system_of plan inputs slots) world →
        IsWave (system_of plan inputs slots) fronts world →
        IsCut (system_of plan inputs slots) fronts }
    ensures rest { (plan : Plan) (inputs : Inputs) (slots : ℕ → Slots) (fronts world : Histories) →
        SoundPlan plan (length inputs) → AreInputsOf plan inputs →
        IsCut (system_of plan inputs slots) world → HasNoStray (system_of plan inputs slots) world →
        IsWave (system_of plan inputs slots) fronts world →
        IsAtRest (system_of plan inputs slots) fronts }
    ensures whole { (plan : Plan) (inputs : Inputs) (slots : ℕ → Slots) (fronts world : Histories) →
        SoundPlan plan (length inputs) → AreInputsOf plan inputs →
        IsCut (system_of plan inputs slots) world → HasNoStray (system_of plan inputs slots) world →
        IsWave (system_of plan inputs slots) fronts world →
        (r : ℕ) → r < plan.ranks → fronts r ≡ world r }
{}
