//! Every interleaving of a choice text: what is right where nothing is left to do, how long it is, and what goes over its lanes.

ghost use Rattle.std.specs.Prelude.{ℕ, List, ◌≡◌, ◌<◌, ◌≤◌, ◌+◌, ◌*◌, ◌∷◌, Some, IsTrue, length};
ghost use Rattle.ptl_types.specs.declared.headers.Lane.{Lane};
ghost use Rattle.ptl_types.specs.Messages.{Sent};
ghost use Rattle.ni_model.specs.Ready.{is_ready, fired};
ghost use Rattle.ni_model.specs.State.{target};
ghost use Rattle.cuts.specs.histories.Moment.{IsStill, Lanes};
ghost use Rattle.coll_lang.specs.declared.choices.ChoiceKind.{ChoiceKind};
ghost use Rattle.plan_choice.specs.texts.machine.Counted.{steps_due};
ghost use Rattle.plan_choice.specs.texts.view.Install.{Slots};
ghost use Rattle.cuts.specs.histories.System.{Histories, state_at};
ghost use Rattle.cuts.specs.orders.Reached.{IsReached};
ghost use Rattle.plan_choice.specs.texts.laws.Decided.{IsDecided, IsInRange, choice_system};
ghost use Rattle.plan_choice.specs.texts.laws.Traffic.{IsComing, IsMade};

/// For every choice text and every interleaving: at a moment at which every rank has started, no message is in a lane and no
/// operation is ready, each done counter stands at the number of steps, each elect names one rank at every rank, and the values of
/// each tickets are the numbers of the ranks, each once.
pub fn rest_decides()
    ensures { (ranks : ℕ) (choices : List ChoiceKind) (slots : ℕ → Slots) (histories : Histories)
        (held : Lanes) →
        IsInRange ranks choices → IsReached (choice_system ranks choices slots) histories held →
        IsStill (choice_system ranks choices slots) histories held →
        IsDecided ranks choices slots histories }
{}

/// No history grows past the steps that are due at its rank, and nothing is left to do exactly where each has them all.
pub fn interleavings_end()
    ensures bounded { (ranks : ℕ) (choices : List ChoiceKind) (slots : ℕ → Slots)
        (histories : Histories) (held : Lanes) (r : ℕ) →
        IsInRange ranks choices → IsReached (choice_system ranks choices slots) histories held →
        r < ranks → length (histories r) ≤ steps_due ranks choices r }
    ensures still { (ranks : ℕ) (choices : List ChoiceKind) (slots : ℕ → Slots)
        (histories : Histories) (held : Lanes) (r : ℕ) →
        IsInRange ranks choices → IsReached (choice_system ranks choices slots) histories held →
        IsStill (choice_system ranks choices slots) histories held → r < ranks →
        length (histories r) ≡ steps_due ranks choices r }
    ensures whole { (ranks : ℕ) (choices : List ChoiceKind) (slots : ℕ → Slots)
        (histories : Histories) (held : Lanes) →
        IsInRange ranks choices → IsReached (choice_system ranks choices slots) histories held →
        ((r : ℕ) → r < ranks → length (histories r) ≡ steps_due ranks choices r) →
        IsStill (choice_system ranks choices slots) histories held }
{}

/// A lane holds at most one message for each step of the text. Its first is for the rank that it leads to, finds its entry or is
/// awaited there, and carries one word at most. What a receipt or a firing makes goes onto a lane that is used, and an answer goes
/// back to where its request came from.
pub fn messages_come()
    ensures at_most { (ranks : ℕ) (choices : List ChoiceKind) (slots : ℕ → Slots) (histories : Histories)
        (held : Lanes) (s d : ℕ) (lane : Lane) →
        IsInRange ranks choices → IsReached (choice_system ranks choices slots) histories held →
        s < ranks → d < ranks → length (held s d lane) ≤ length choices }
    ensures first { (ranks : ℕ) (choices : List ChoiceKind) (slots : ℕ → Slots)
        (histories : Histories) (held : Lanes) (s d : ℕ) (lane : Lane) (m : Sent) (rest : List Sent) →
        IsInRange ranks choices → IsReached (choice_system ranks choices slots) histories held →
        s < ranks → d < ranks → held s d lane ≡ m ∷ rest →
        IsComing s d lane (state_at (choice_system ranks choices slots) histories d) m }
    ensures receipt { (ranks : ℕ) (choices : List ChoiceKind) (slots : ℕ → Slots)
        (histories : Histories) (held : Lanes) (s d : ℕ) (lane : Lane) (m made : Sent) (rest : List Sent) →
        IsInRange ranks choices → IsReached (choice_system ranks choices slots) histories held →
        s < ranks → d < ranks → held s d lane ≡ m ∷ rest →
        (target (state_at (choice_system ranks choices slots) histories d) m).delivered.answer ≡ Some made →
        IsMade ranks d made }
    ensures back { (ranks : ℕ) (choices : List ChoiceKind) (slots : ℕ → Slots) (histories : Histories)
        (held : Lanes) (s d : ℕ) (lane : Lane) (m made : Sent) (rest : List Sent) →
        IsInRange ranks choices → IsReached (choice_system ranks choices slots) histories held →
        s < ranks → d < ranks → held s d lane ≡ m ∷ rest →
        (target (state_at (choice_system ranks choices slots) histories d) m).delivered.answer ≡ Some made →
        made.header.target ≡ s }
    ensures firing { (ranks : ℕ) (choices : List ChoiceKind) (slots : ℕ → Slots)
        (histories : Histories) (held : Lanes) (r t : ℕ) (made : Sent) →
        IsInRange ranks choices → IsReached (choice_system ranks choices slots) histories held →
        IsTrue (is_ready (state_at (choice_system ranks choices slots) histories r) t) →
        (fired (state_at (choice_system ranks choices slots) histories r) t).message ≡ Some made →
        IsMade ranks r made }
{}

/// No message is dropped, and none is refused by its entry.
pub fn nothing_is_lost()
    ensures drops { (ranks : ℕ) (choices : List ChoiceKind) (slots : ℕ → Slots) (histories : Histories)
        (held : Lanes) (r : ℕ) →
        IsInRange ranks choices → IsReached (choice_system ranks choices slots) histories held →
        (state_at (choice_system ranks choices slots) histories r).drops ≡ 0 }
    ensures violations { (ranks : ℕ) (choices : List ChoiceKind) (slots : ℕ → Slots)
        (histories : Histories) (held : Lanes) (r : ℕ) →
        IsInRange ranks choices → IsReached (choice_system ranks choices slots) histories held →
        (state_at (choice_system ranks choices slots) histories r).violations ≡ 0 }
{}

/// The four words of each step of the text are within the memory of each rank.
pub fn words_are_within()
    ensures { (ranks : ℕ) (choices : List ChoiceKind) (slots : ℕ → Slots) (histories : Histories)
        (held : Lanes) (r s : ℕ) →
        IsInRange ranks choices → IsReached (choice_system ranks choices slots) histories held →
        s < length choices →
        32 * s + 32 ≤ length (state_at (choice_system ranks choices slots) histories r).memory }
{}
