//! The interface of a rank that a plan is installed on, in closed form, and one equation for each kind of step: an installed
//! interface makes the moves of its plan's machine.

ghost use Rattle.std.specs.Prelude.{ℕ, List, true, false, None, IsTrue, ◌<◌, ◌≡◌, ◌∷◌, ◌/◌, ◌%◌, ◌^◌, ◌==◌, length};
ghost use Rattle.ptl_types.specs.declared.calls.Outcome.TheVariants.{Matched, Answered, Dropped};
ghost use Rattle.ptl_types.specs.Kinds.{is_put_or_atomic, is_no_ack};
ghost use Rattle.ptl_types.specs.Messages.{Sent};
ghost use Rattle.ni_model.specs.Answers.{is_awaited};
ghost use Rattle.ni_model.specs.Ready.{is_ready, fired, fires};
ghost use Rattle.ni_model.specs.State.{target, delivers};
ghost use Rattle.plan_core.specs.Members.{In};
ghost use Rattle.plan_core.specs.Plan.{Plan, link};
ghost use Rattle.plan_core.specs.Values.{Inputs};
ghost use Rattle.plan_core.specs.Sound.{SoundPlan};
ghost use Rattle.cuts.specs.machine.Seen.{Seen, was_fired};
ghost use Rattle.plan_core.specs.calls.RankOps.{RankOp, rank_ops};
ghost use Rattle.cuts.specs.machine.Machine.{note, note_work};
ghost use Rattle.cuts.specs.machine.Machine.Move.{Began, Took, Heard, Strayed};
ghost use Rattle.cuts.specs.view.View.{Annex, view, raise_go};
ghost use Rattle.cuts.specs.view.Slots.{Slots, cell_ct};
ghost use Rattle.cuts.specs.view.TriggeredOps.{link_message, ack_of};
ghost use Rattle.cuts.specs.view.Steps.{Sized, sent_message, IsLinkHere, IsAckHere, IsQuiet};

/// A start raises the go counter: the machine's rank has begun.
pub fn start_begins()
    ensures { (annex : Annex) (plan : Plan) (inputs : Inputs) (slots : Slots) (r : ℕ)
        (seen : Seen) →
        SoundPlan plan (length inputs) → r < plan.ranks → seen.started ≡ false →
        raise_go (cell_ct plan slots r) (view annex plan inputs slots r seen) ≡
        view annex plan inputs slots r (note plan seen Began) }
{}

/// An operation that is ready is one of the rank's that wasn't fired; its firing makes its message and is noted.
pub fn firing_does()
    ensures { (annex : Annex) (plan : Plan) (inputs : Inputs) (slots : Slots) (r : ℕ)
        (seen : Seen) (t : ℕ) →
        SoundPlan plan (length inputs) → Sized plan inputs seen →
        is_ready (view annex plan inputs slots r seen) t ≡ true →
        (w : RankOp) × In w (rank_ops plan r) × (was_fired seen.fired w ≡ false) ×
        (fired (view annex plan inputs slots r seen) t ≡
        fires (view annex plan inputs slots r (note_work plan seen w)) (sent_message plan inputs slots seen w)) }
{}

/// A link's message is matched, lands as the link says, counts, and is acknowledged where the plan is remote.
pub fn message_lands()
    ensures { (annex : Annex) (plan : Plan) (inputs : Inputs) (slots theirs : Slots) (r l : ℕ)
        (seen : Seen) (bytes : List ℕ) →
        IsQuiet annex → SoundPlan plan (length inputs) → IsLinkHere plan r l →
        Sized plan inputs seen → length bytes ≡ (link plan l).length →
        target (view annex plan inputs slots r seen) (link_message plan theirs l bytes) ≡
        delivers (view annex plan inputs slots r (note plan seen (Took l bytes))) Matched (ack_of plan theirs l) }
{}

/// A put or an atomic of another job is dropped: the drop register rises, and nothing else changes.
pub fn stray_is_dropped()
    ensures { (annex : Annex) (plan : Plan) (inputs : Inputs) (slots : Slots) (r : ℕ)
        (seen : Seen) (m : Sent) →
        IsQuiet annex → SoundPlan plan (length inputs) → is_put_or_atomic m.header.kind ≡ true →
        is_no_ack m.header.ack ≡ true →
        (m.header.match_bits / 2 ^ 48 % 2 ^ 16 == 1) ≡ false →
        target (view annex plan inputs slots r seen) m ≡
        delivers (view annex plan inputs slots r (note plan seen Strayed)) Dropped None }
{}

/// An acknowledgement that is awaited counts on the done counter.
pub fn acknowledgement_counts()
    ensures { (annex : Annex) (plan : Plan) (inputs : Inputs) (slots : Slots) (r : ℕ)
        (seen : Seen) (m : Sent) →
        IsAckHere slots m → IsTrue (is_awaited (view annex plan inputs slots r seen).mds.live) →
        target (view annex plan inputs slots r seen) m ≡
        delivers (view annex plan inputs slots r (note plan seen (Heard m.header.ok))) Answered None }
{}
