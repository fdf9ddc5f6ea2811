//! The machine of a choice text: elections and tickets as small numbers, without messages, handles or bytes. Whatever the order of
//! arrival, at rest one rank is elected at every rank, and each rank has a ticket of its own.

ghost use Rattle.std.specs.Prelude.{ℕ, List, ◌≡◌, ◌<◌, ◌≤◌, ◌∷◌, true, length};
ghost use Rattle.coll_lang.specs.declared.choices.ChoiceKind.{ChoiceKind};
ghost use Rattle.plan_choice.specs.texts.machine.Choices.{IsRight, choice_at};
ghost use Rattle.plan_choice.specs.texts.machine.Machine.{Moment, Ask, Answer, IsTold, value_of, opened, begun, fired, taken, returned};
ghost use Rattle.plan_choice.specs.texts.machine.Machine.{is_ready};
ghost use Rattle.plan_choice.specs.texts.machine.Lawful.{IsLawful, IsResting};

/// The first moment keeps what every moment keeps.
pub fn opening_is_lawful()
    ensures { (ranks : ℕ) (choices : List ChoiceKind) → IsLawful ranks choices (opened choices) }
{}

/// Each move keeps it: a start, a firing, a request at rank 0, an answer at home.
pub fn moves_are_lawful()
    ensures start { (ranks : ℕ) (choices : List ChoiceKind) (m : Moment) (r : ℕ) →
        IsLawful ranks choices m → IsLawful ranks choices (begun r m) }
    ensures firing { (ranks : ℕ) (choices : List ChoiceKind) (m : Moment) (r s : ℕ) →
        r < ranks → s < length choices → is_ready (choice_at choices s) (m.phase r s) ≡ true →
        IsLawful ranks choices m → IsLawful ranks choices (fired r s m) }
    ensures request { (ranks : ℕ) (choices : List ChoiceKind) (m : Moment) (r : ℕ) (a : Ask)
        (rest : List Ask) →
        ranks ≤ 256 → r < ranks → m.asks r ≡ a ∷ rest → IsLawful ranks choices m →
        IsLawful ranks choices (taken choices r a rest m) }
    ensures answer { (ranks : ℕ) (choices : List ChoiceKind) (m : Moment) (r : ℕ) (a : Answer)
        (rest : List Answer) →
        r < ranks → m.answers r ≡ a ∷ rest → IsLawful ranks choices m →
        IsLawful ranks choices (returned choices r a rest m) }
{}

/// At rest each step is told at each rank, and its values are right: one rank at every rank, or a ticket of its own for each.
pub fn rest_is_right()
    ensures complete { (ranks : ℕ) (choices : List ChoiceKind) (m : Moment) (r s : ℕ) →
        IsLawful ranks choices m → IsResting ranks choices m → r < ranks → s < length choices →
        IsTold (m.phase r s) }
    ensures right { (ranks : ℕ) (choices : List ChoiceKind) (m : Moment) (s : ℕ) →
        0 < ranks → IsLawful ranks choices m → IsResting ranks choices m → s < length choices →
        IsRight (choice_at choices s) ranks (λ r. value_of (m.phase r s)) }
{}
