//! The two ends of a wire.

ghost use Rattle.std.specs.Prelude.{◌≡◌, length};

use crate::rule::EndView;
use crossbeam_queue::Pass;
use ptl_types::Message;
use std::marker::Model;

/// The end at which messages go in.
///
/// One message may wait here for room in the wire's queue. The end stands for its wire with the wire's bounds; for the list of
/// the messages that it sent, oldest first, the one that waits among them; for whether one waits; for a count of the pushes that were
/// refused, which stays at 2^64 - 1 once it is there; and for how many of the messages it heard were received (`Wire::hear`). Of the list
/// only what waits is more than a type, and what was heard is in the type alone.
#[derive(Drop)]
pub struct OutEnd {
    pub(crate) pass: Pass<Message, EndView>,
    pub(crate) waiting: Option<Message>,
    // How many went into the queue.
    pub(crate) pushed: u32,
    pub(crate) refused: u64,
}

impl Model for OutEnd {
    ghost use Rattle.pair_wires.specs.Ends.{Outgoing, followed_by, is_there};
    ghost use Rattle.pair_wires.specs.Keeping.{OutKeeps};

    ghost Value = { Outgoing };

    ghost view = { λ e. record {
      wire = e.pass.table_id;
      bounds = e.pass.me.0.client.bounds;
      sent =
          followed_by e.pass.me.0.client.sent e.waiting;
      waits = is_there e.waiting;
      refused = e.refused;
      heard = e.pass.me.0.client.heard;
    } };

    ghost invariant = { λ e. OutKeeps e.pass.me.0.client e.pass.me.1 e.waiting e.pushed };
}

impl OutEnd {
    /// Whether a message waits for room in the queue.
    pub fn waits(&self) -> bool
        ensures { result ≡ self.now.waits }
    {
        self.waiting.is_some()
    }

    /// How many messages were sent, the one that waits among them.
    pub fn sent(&self) -> u64
        ensures { result ≡ length self.now.sent }
    {
        self.pushed as u64 + u64::from(self.waiting.is_some())
    }
}

/// The end at which messages come out.
///
/// It stands for its wire with the wire's bounds; for the list of the messages that it received, oldest first; for a count of the
/// pops that found the wire empty, which stays at 2^64 - 1 once it is there; and for how many messages it was told went in
/// (`Wire::note`). The list and what it was told are in the type alone.
#[derive(Drop)]
pub struct InEnd {
    pub(crate) pass: Pass<Message, EndView>,
    // How many came out.
    pub(crate) popped: u32,
    pub(crate) empty: u64,
}

impl Model for InEnd {
    ghost use Rattle.pair_wires.specs.Ends.{Incoming};
    ghost use Rattle.pair_wires.specs.Keeping.{InKeeps};

    ghost Value = { Incoming };

    ghost view = { λ e. record {
      wire = e.pass.table_id;
      bounds = e.pass.me.0.client.bounds;
      received =
          e.pass.me.0.client.received;
      empty = e.empty;
      told = e.pass.me.0.client.told;
    } };

    ghost invariant = { λ e. InKeeps e.pass.me.0.client e.pass.me.1 e.popped };
}

impl InEnd {
    /// How many messages were received.
    pub fn received(&self) -> u64
        ensures { result ≡ length self.now.received }
    {
        self.popped as u64
    }
}

/// Word from an in end of how many messages were received there (`Wire::tell`). It has no bytes, stands for its wire and the number, and
/// goes to the out end, in whatever thread that is.
#[derive(Drop)]
pub struct Receipts {
    pub(crate) pass: Pass<Message, EndView>,
}

impl Model for Receipts {
    ghost use Rattle.std.specs.Prelude.{◌≡◌, []};
    ghost use Rattle.pair_wires.specs.Ends.{Word};

    ghost Value = { Word };

    ghost view = { λ r. record { wire = r.pass.table_id; count = r.pass.me.0.client.heard } };

    ghost invariant = { λ r. r.pass.me.1 ≡ [] };
}

/// Word from an out end of how many messages went into the queue there (`Wire::announce`). It has no bytes, stands for its wire with the
/// wire's bounds and the number, and goes to the in end, in whatever thread that is.
#[derive(Drop)]
pub struct Notice {
    pub(crate) pass: Pass<Message, EndView>,
}

impl Model for Notice {
    ghost use Rattle.std.specs.Prelude.{◌≡◌, ◌≤◌, []};
    ghost use Rattle.pair_wires.specs.Ends.{Announced};

    ghost Value = { Announced };

    ghost view = { λ n. record { wire = n.pass.table_id; bounds = n.pass.me.0.client.bounds; count = n.pass.me.0.client.told } };

    ghost invariant = { λ n. (n.pass.me.1 ≡ []) × (n.pass.me.0.client.told ≤ n.pass.me.0.client.bounds.messages) };
}
