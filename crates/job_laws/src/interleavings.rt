//! Laws of the interleavings of a description's ranks: messages of other jobs change nothing of their end, how long they are, and
//! that the order lines of a cut leave one choice of messages.

ghost use Rattle.std.specs.Prelude.{ℕ, List, None, Ok, ◌+◌, ◌<◌, ◌≤◌, ◌≡◌, map};
ghost use Rattle.coll_lang.specs.Language.{read};
ghost use Rattle.coll_lang.specs.Program.{Program};
ghost use Rattle.cuts.specs.view.Slots.{Slots};
ghost use Rattle.cuts.specs.histories.Cut.{IsCut};
ghost use Rattle.cuts.specs.histories.Moment.{Lanes};
ghost use Rattle.cuts.specs.histories.Plans.{system_of};
ghost use Rattle.cuts.specs.histories.System.{Histories};
ghost use Rattle.cuts.specs.histories.Wave.{HasNoStray};
ghost use Rattle.cuts.specs.orders.Taking.{listed};
ghost use Rattle.schedule_compiler.specs.shapes.Drawing.{plan_of};
ghost use Rattle.schedule_compiler.specs.shapes.Footprint.{refusal};
ghost use Rattle.cuts.specs.interleavings.Interleaving.{IsReachedIn, IsStillButStrays, steps_due, strays_received};
ghost use Rattle.job_laws.specs.interleavings.Headline.{HeadlineWithStrays};

/// For every accepted description, number of ranks and interleaving of starts, deliveries and firings that keeps each lane's order,
/// with any number of messages of other jobs among them: once every rank has started, no operation is ready and nothing but messages
/// of other jobs is left, every completion counter stands at its threshold, and every buffer at every rank is what the description
/// means of the inputs.
pub fn every_interleaving_with_strays_is_meant()
    ensures { HeadlineWithStrays }
{}

/// An interleaving of an accepted description's ranks has at most the steps that its plan gives, and one more for each message of
/// another job that came into it. At its end it has just the steps that the plan gives, and one for each such message received.
pub fn every_interleaving_ends()
    ensures bounded { (bytes : List ℕ) (d : Program) (slots : ℕ → Slots) (steps strays : ℕ) (world : Histories) (held : Lanes) →
        read bytes ≡ Ok d → refusal d.shape ≡ None →
        IsReachedIn (system_of (plan_of d.shape) d.inputs slots) steps strays world held →
        steps ≤ steps_due (plan_of d.shape) + strays }
    ensures exact { (bytes : List ℕ) (d : Program) (slots : ℕ → Slots) (steps strays : ℕ) (world : Histories) (held : Lanes) →
        read bytes ≡ Ok d → refusal d.shape ≡ None →
        IsReachedIn (system_of (plan_of d.shape) d.inputs slots) steps strays world held →
        IsStillButStrays (system_of (plan_of d.shape) d.inputs slots) world held →
        steps ≡ steps_due (plan_of d.shape) + strays_received world d.shape.ranks }
{}

/// The order lines of a cut of an accepted description's ranks leave one choice of messages: two cuts without messages of other jobs
/// whose listed histories agree have the same histories, messages included.
pub fn orders_leave_one_choice()
    ensures { (bytes : List ℕ) (d : Program) (slots : ℕ → Slots) (one other : Histories) →
        read bytes ≡ Ok d → refusal d.shape ≡ None →
        IsCut (system_of (plan_of d.shape) d.inputs slots) one → IsCut (system_of (plan_of d.shape) d.inputs slots) other →
        HasNoStray (system_of (plan_of d.shape) d.inputs slots) one → HasNoStray (system_of (plan_of d.shape) d.inputs slots) other →
        ((r : ℕ) → r < d.shape.ranks → map listed (one r) ≡ map listed (other r)) →
        (r : ℕ) → r < d.shape.ranks → one r ≡ other r }
{}
