//! The messages of a plan between its ranks.

ghost use Rattle.std.specs.Prelude.{◌≡◌, ◌<◌, length};
ghost use Rattle.plan_costs.specs.Path.{bytes_by, messages_by, traffic};
ghost use Rattle.plan_costs.specs.Times.{IsTimed};

use crate::numbers::stays;
use plan_core::Plan;
use plan_core::reading::{link_at, link_count};

/// What goes between ranks.
#[derive(Clone, Copy, Debug, PartialEq, Eq)]
pub struct Traffic {
    /// How many messages.
    pub messages: u64,
    /// Their bytes together.
    pub bytes: u64,
}

/// A link's message between ranks, if any.
fn message_of(plan: &Plan, l: u32) -> Traffic
    requires timed { IsTimed plan.now }
    requires link { l < length plan.now.links }
    ensures { result ≡ record { messages = messages_by plan.now l; bytes = bytes_by plan.now l } }
{
    if stays(plan, l) {
        return Traffic {
            messages: 0,
            bytes: 0,
        };
    }
    Traffic {
        messages: 1,
        bytes: link_at(plan, l).length,
    }
}

/// All messages between ranks.
pub fn traffic_of(plan: &Plan) -> Traffic
    requires { IsTimed plan.now }
    ensures { result ≡ traffic plan.now }
{
    let (mut messages, mut bytes) = (0u64, 0u64);
    for l in 0..link_count(plan) {
        let message = message_of(plan, l);
        messages += message.messages;
        bytes += message.bytes;
    }
    Traffic { messages, bytes }
}
