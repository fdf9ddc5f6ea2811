//! Choice texts: steps whose results depend on the order of arrival.

ghost use Rattle.std.specs.Prelude.{◌≡◌};
ghost use Rattle.coll_lang.specs.Readable.{AreChoices};
ghost use Rattle.coll_lang.specs.Words.{choice_word};

use coll_shape::Name;
use std::marker::Model;

/// What a choice step does.
#[derive(Clone, Copy, Debug, PartialEq, Eq)]
pub enum ChoiceKind {
    /// `elect`
    Elect,
    /// `tickets`
    Tickets,
}

/// A step of a choice text, with the name of the buffer that it makes, which has one element at each rank.
#[derive(Debug, Drop)]
pub enum ChoiceStep {
    /// Every rank learns the same rank, one of those whose message came first.
    Elect(Name),
    /// Every rank draws a number of its own, from 0 on in the order of arrival.
    Tickets(Name),
}

/// What a choice text says: its steps, and the numbers of the steps that are printed. It keeps that there are 1 to 64 steps,
/// each with a name of its own, and at most 128 prints of them.
#[derive(Debug, Drop)]
pub struct Choices {
    steps: Vec<ChoiceStep>,
    prints: Vec<u32>,
}

impl Model for Choices {
    ghost use Rattle.coll_lang.specs.Program.{Chosen};
    ghost use Rattle.coll_lang.specs.Readable.{AreChoices};

    ghost Value = { Chosen };

    ghost view = { λ c. record { steps = c.steps.items; prints = c.prints.items } };

    ghost invariant = { λ c. ∥ AreChoices (record { steps = c.steps.items; prints = c.prints.items }) ∥₁ };
}

impl Choices {
    /// These steps, of which these are printed. It takes no memory.
    pub(crate) fn of(steps: Vec<ChoiceStep>, prints: Vec<u32>) -> Choices
        requires { AreChoices (record { steps = steps.items; prints = prints.items }) }
        ensures { result ≡ record { steps = steps.items; prints = prints.items } }
    {
        Choices { steps, prints }
    }

    /// The steps in order.
    pub fn steps(&self) -> &[ChoiceStep]
        ensures value { result.now ≡ self.now.steps }
        // This holds of all choices, whichever call tells it.
        ensures are { AreChoices self.now }
    {
        self.steps.as_slice()
    }

    /// The numbers of the steps whose buffers are printed, in order.
    pub fn prints(&self) -> &[u32]
        ensures value { result.now ≡ self.now.prints }
    {
        self.prints.as_slice()
    }
}

impl ChoiceKind {
    /// The first word of such a step.
    pub(crate) fn word(self) -> &'static [u8]
        ensures { result.now ≡ choice_word self }
    {
        match self {
            ChoiceKind::Elect => b"elect",
            ChoiceKind::Tickets => b"tickets",
        }
    }
}
