//! The interface of a rank under a choice text, in closed form, and one equation for each kind of step: an interface makes the moves of
//! the text's machine.

ghost use Rattle.std.specs.Prelude.{ℕ, List, Bool, true, false, None, Some, Ok, ◌≡◌, ◌<◌, ◌≤◌, ◌*◌, ◌-◌, ◌^◌, ◌∷◌, [], length};
ghost use Rattle.ptl_types.specs.declared.calls.Outcome.TheVariants.{Matched, Answered};
ghost use Rattle.ni_model.specs.Calls.{ct_inc, ends};
ghost use Rattle.ni_model.specs.Counts.{successes};
ghost use Rattle.ni_model.specs.Ready.{is_ready, fired, fires};
ghost use Rattle.ni_model.specs.State.{target, delivers};
ghost use Rattle.cuts.specs.view.View.{raise_go};
ghost use Rattle.coll_lang.specs.declared.choices.ChoiceKind.{ChoiceKind};
ghost use Rattle.plan_choice.specs.texts.machine.Choices.{choice_at};
ghost use Rattle.coll_lang.specs.declared.choices.ChoiceKind.TheVariants.{Tickets};
ghost use Rattle.plan_choice.specs.texts.machine.Lawful.{IsAnswer, is_plain};
ghost use Rattle.plan_choice.specs.texts.machine.Machine.{Answer, advanced, answer, ask, at_home, served, word_after};
ghost use Rattle.plan_choice.specs.texts.machine.Machine.{is_ready as is_ready_phase};
ghost use Rattle.plan_choice.specs.texts.view.Install.{ChoiceRank, Slots, answer_message, ask_message, ct_of, view};
ghost use Rattle.plan_choice.specs.texts.view.Install.Counter.{Go};
ghost use Rattle.plan_choice.specs.texts.view.Calls.{AllPass, blank, install, install_calls, no_seat};
ghost use Rattle.plan_choice.specs.texts.view.Steps.{sent_message, with_phase, with_word};

/// The interface that the calls of an installation leave, in closed form.
pub fn installation()
    ensures { (slots : Slots) (ranks : ℕ) (choices : List ChoiceKind) (r : ℕ) →
        install slots ranks choices r ≡ view slots ranks choices r (no_seat choices r) }
{}

/// Each of the calls that install a choice text may be made where it stands, and none is refused.
pub fn installation_is_accepted()
    ensures { (slots : Slots) (ranks : ℕ) (choices : List ChoiceKind) (r : ℕ) →
        0 < ranks → 3 * length choices < 2 ^ 32 - 1 →
        AllPass slots choices (install_calls choices r) (blank ranks choices r) }
{}

/// A start raises the go counter, and the host's increment of it is accepted.
pub fn start_begins()
    ensures raised { (slots : Slots) (ranks : ℕ) (choices : List ChoiceKind) (r : ℕ) (seat : ChoiceRank) →
        seat.started ≡ false →
        raise_go (ct_of slots choices Go) (view slots ranks choices r seat) ≡
        view slots ranks choices r (record seat { started = true }) }
    ensures accepted { (slots : Slots) (ranks : ℕ) (choices : List ChoiceKind) (r : ℕ) (seat : ChoiceRank) →
        seat.started ≡ false →
        ct_inc (ct_of slots choices Go) (successes 1) (view slots ranks choices r seat) ≡
        ends (view slots ranks choices r (record seat { started = true })) (Ok tt) }
{}

/// An operation that is ready is that of a step which is so far; its firing advances the step and sends what is due.
pub fn firing_does()
    ensures { (slots : Slots) (ranks : ℕ) (choices : List ChoiceKind) (r : ℕ) (seat : ChoiceRank) (t : ℕ) →
        is_ready (view slots ranks choices r seat) t ≡ true →
        (s : ℕ) × (s < length choices) × (is_ready_phase (choice_at choices s) (seat.phase s) ≡ true) ×
        (fired (view slots ranks choices r seat) t ≡
        fires (view slots ranks choices r (with_phase s (advanced (seat.phase s)) seat)) (sent_message slots choices r s (seat.phase s))) }
{}

/// A request of rank r finds the word of its step at rank 0, changes it as the step says, and is answered with what stood there.
pub fn request_is_served()
    ensures served { (slots theirs : Slots) (ranks : ℕ) (choices : List ChoiceKind) (seat : ChoiceRank)
        (s r : ℕ) (reads : Bool) →
        length choices ≤ 2 ^ 64 → s < length choices → seat.word s < 2 ^ 64 → r < 2 ^ 64 →
        target (view slots ranks choices 0 seat) (ask_message theirs choices r (ask s reads)) ≡
        delivers (view slots ranks choices 0 (with_word s (word_after (choice_at choices s) reads r (seat.word s)) seat)) Matched
        (Some (answer_message theirs choices r (answer s reads (seat.word s)))) }
    ensures unseen { (slots : Slots) (ranks : ℕ) (choices : List ChoiceKind) (r : ℕ) (seat : ChoiceRank)
        (s w : ℕ) →
        view slots ranks choices r (with_phase s (served w (seat.phase s)) seat) ≡
        view slots ranks choices r seat }
{}

/// An answer that is under way is awaited, and leaves its step one further.
pub fn answer_comes_home()
    ensures { (slots : Slots) (ranks : ℕ) (choices : List ChoiceKind) (r : ℕ) (seat : ChoiceRank)
        (a : Answer) →
        a.step < length choices → IsAnswer (seat.phase a.step) a →
        (choice_at choices a.step ≡ Tickets → is_plain (seat.phase a.step) ≡ true) →
        target (view slots ranks choices r seat) (answer_message slots choices r a) ≡
        delivers (view slots ranks choices r (with_phase a.step (at_home (choice_at choices a.step) (seat.phase a.step)) seat)) Answered
        None }
{}
