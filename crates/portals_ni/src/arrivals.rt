//! What a message does where it arrives.

ghost use Rattle.std.specs.Prelude.{◌≡◌, false};
ghost use Rattle.ptl_types.specs.Kinds.{is_answer};
ghost use Rattle.ni_model.specs.Arrive.{request};
ghost use Rattle.ni_model.specs.Answers.{answered};
ghost use Rattle.ni_model.specs.State.{target, parts_of, home_of, drops_after, violations_after, after_request, after_answer};

use crate::nic::Nic;
use crate::posted_op::tell;
use ptl_types::{Delivered, Message, Outcome};
use target_engine::SpareBuffers;

/// The drop register after a message.
fn raise_drops(drops: u64, outcome: Outcome) -> u64
    ensures { result ≡ drops_after outcome drops }
{
    match outcome {
        Outcome::Dropped => drops.saturating_add(1),
        _ => drops,
    }
}

/// The violation register after a message.
fn raise_violations(violations: u64, outcome: Outcome) -> u64
    ensures { result ≡ violations_after outcome violations }
{
    match outcome {
        Outcome::Violation => violations.saturating_add(1),
        _ => violations,
    }
}

impl Nic {
    /// Handles a message that arrived (Portals 4.3, matching, overflow lists, acknowledgements and replies). The outcome is
    /// `Matched` in the priority list, `Overflow` in the overflow list, `Violation` where the first match doesn't allow the
    /// operation, `Answered` for an acknowledgement or a reply that was awaited, and else `Dropped`. The answer is there where
    /// the message asked for one, and uses the message's own bytes, so that this takes no memory. Condition: the message is
    /// for this rank.
    pub fn deliver(&mut self, message: Message) -> Delivered
        requires { message.header.target ≡ self.old.rank }
        ensures does { record { state = self.new; delivered = result } ≡ target self.old message }
    {
        let mut spares = SpareBuffers::none();
        self.deliver_keeping(message, &mut spares)
    }

    /// Handles a message that arrived, as `deliver` does. Where a request asks for no answer the room of its bytes is kept, if there
    /// is place for it.
    #[tactic(auto, unfolding(ni_model::specs::State::target))]
    pub fn deliver_keeping(&mut self, message: Message, spares: &mut SpareBuffers) -> Delivered
        requires { message.header.target ≡ self.old.rank }
        ensures does { record { state = self.new; delivered = result } ≡ target self.old message }
    {
        if message.header().kind.is_answer() {
            self.take_answer(message)
        } else {
            self.take_request(message, spares)
        }
    }

    /// A request at its target: the engine's parts change, and the counting event that rose is told to the pending operations.
    fn take_request(&mut self, message: Message, spares: &mut SpareBuffers) -> Delivered
        requires { is_answer message.header.kind ≡ false }
        ensures { record { state = self.new; delivered = result } ≡ after_request self.old (request (parts_of self.old) message) }
    {
        let arrived = self.target.request(
            &mut self.region,
            &mut self.cts,
            &mut self.eqs,
            message,
            spares,
        );
        tell(&mut self.pending, &self.cts, arrived.counted);
        self.drops = raise_drops(self.drops, arrived.outcome);
        self.violations = raise_violations(self.violations, arrived.outcome);
        Delivered {
            outcome: arrived.outcome,
            answer: arrived.answer,
        }
    }

    /// An acknowledgement or a reply that comes home.
    fn take_answer(&mut self, message: Message) -> Delivered
        ensures { record { state = self.new; delivered = result } ≡ after_answer self.old (answered (home_of self.old) message) }
    {
        // What a message keeps of its bytes comes to the proof by this call.
        let _bytes = message.bytes();
        let (outcome, counted) = self
            .initiator
            .answer(&mut self.region, &mut self.cts, &mut self.eqs, message);
        tell(&mut self.pending, &self.cts, counted);
        self.drops = raise_drops(self.drops, outcome);
        self.violations = raise_violations(self.violations, outcome);
        Delivered {
            outcome,
            answer: None,
        }
    }
}
