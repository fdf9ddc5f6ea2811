//! Laws of slots: no answer of an interface but a handle depends on the slots that its tables give, so the verdict on a log is one. No code
//! but functions that are proved, and nothing stands on it.
#![tactic(auto)]

ghost use Rattle.std.specs.Prelude.{ℕ, Bool, List, Option, ◌≡◌};
ghost use Rattle.ptl_types.specs.declared.calls.Limits.{Limits};
ghost use Rattle.ptl_types.specs.Messages.{Sent};
ghost use Rattle.ni_model.specs.State.{opened};
ghost use Rattle.log_verdict.specs.Filling.{Extent, IsFilled};
ghost use Rattle.log_lines.specs.declared.calls.Call.{Call};
ghost use Rattle.log_seats.specs.Answers.{After, Answers, arrived};
ghost use Rattle.log_seats.specs.Seats.{new_seat};
ghost use Rattle.log_verdict.specs.Answering.{with_new};
ghost use Rattle.slot_laws.specs.Renamed.{renamed_message};
ghost use Rattle.log_seats.specs.declared.seats.Seat.{Seat};
ghost use Rattle.log_verdict.specs.Judging.{IsVerdict};
ghost use Rattle.log_verdict.specs.declared.judge.Verdict.{Verdict};
ghost use Rattle.slot_laws.specs.Alike.{AftersAlike, IsConsistent, KeepsNone, SeatsAlike};
ghost use Rattle.slot_laws.specs.Alike.{Matches};
ghost use Rattle.slot_laws.specs.Renaming.{IsRenaming, Renaming};

/// Two interfaces of a log that differ in the slots of handles alone answer a call alike, but for the handle of what is new, and a message
/// that arrives: s and t are the two with the log's words for their things, x and y what the call leaves and answers at each. `r` takes the
/// handles of the one to those of the other, and what is new in the one to what is new in the other (`Matches`). In each of the two a thing
/// has a slot of its own, and only live things have words (`IsConsistent`). `open` and `deliver` are no calls of an interface that is open:
/// a message that arrives has its own clause.
pub fn answers_are_alike()
    ensures calls { (r : Renaming) → IsRenaming r → KeepsNone r → (call : Call) (s t : Seat) (x y : After) → SeatsAlike r s t
        → IsConsistent s → IsConsistent t → Answers call s x → Answers call t y → Matches r s.nic.rank x.owed y.owed → AftersAlike r x y }
    ensures messages { (r : Renaming) → IsRenaming r → (m : Sent) (s t : Seat) → SeatsAlike r s t
        → AftersAlike r (arrived m s) (arrived (renamed_message r m) t) }
{}

/// New interfaces are two such, and two such stay so, whatever word a new thing is given: the conditions above hold all along a log.
pub fn interfaces_stay_alike()
    ensures first { (r : Renaming) (rank ranks : ℕ) (l : Limits) (region : List ℕ) → SeatsAlike r (new_seat (opened rank ranks l region))
        (new_seat (opened rank ranks l region)) × IsConsistent (new_seat (opened rank ranks l region)) }
    ensures later { (r : Renaming) → IsRenaming r → KeepsNone r → (call : Call) (s t : Seat) (x y : After) → SeatsAlike r s t
        → IsConsistent s → IsConsistent t → Answers call s x → Answers call t y → Matches r s.nic.rank x.owed y.owed
        → (word : Option (List ℕ)) → SeatsAlike r (with_new x.owed word x.seat) (with_new y.owed word y.seat)
        × IsConsistent (with_new x.owed word x.seat) × IsConsistent (with_new y.owed word y.seat) }
{}

/// The verdict on a log is one, whatever free slots new things get: there are no two of a text.
pub fn verdicts_are_one()
    ensures { (any_order : Bool) (text : List ℕ) (v w : Verdict) → IsVerdict any_order text v → IsVerdict any_order text w → v ≡ w }
{}

/// Where a log is filled in as a whole under two choices of slots, the same is written of it, and it has as many calls.
pub fn fillings_are_one()
    ensures { (any_order : Bool) (text out out' : List ℕ) (calls calls' : ℕ) → IsFilled any_order text out (Extent.Whole calls)
        → IsFilled any_order text out' (Extent.Whole calls') → (out' ≡ out) × (calls' ≡ calls) }
{}
