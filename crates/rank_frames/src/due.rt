//! What has still to come to a rank.

ghost use Rattle.std.specs.Prelude.{◌≡◌, ◌+◌, ◌-◌, ◌<◌, ◌≤◌, ◌==◌, length, slice_index, slice_set, sum};
ghost use Rattle.rank_frames.specs.Due.{due_on, messages_due, with_taken};

use ptl_types::{Lane, Rank};
use std::marker::Model;

/// How many messages each lane to a rank has still to bring, and how many bytes come in all.
#[derive(Drop)]
pub struct Due {
    requests: Vec<u64>,
    answers: Vec<u64>,
    messages: u64,
    bytes: u64,
}

impl Model for Due {
    ghost use Rattle.std.specs.Prelude.{◌≡◌, ◌+◌, sum};
    ghost use Rattle.rank_frames.specs.Due.{Dues};

    ghost Value = { Dues };

    ghost view = { λ d. record { requests = d.requests.items; answers = d.answers.items; bytes = d.bytes } };

    ghost invariant = { λ d. d.messages ≡ sum d.requests.items + sum d.answers.items };
}

/// The count at a place; 0 past the last.
fn count_at(list: &[u64], at: Rank) -> u64
    ensures { result ≡ slice_index list.now at }
{
    list.get(at as usize).copied().unwrap_or(0)
}

/// One less at a place.
fn lessen(list: &mut Vec<u64>, at: Rank)
    requires { 0 < slice_index list.old.items at }
    ensures set { list.new.items ≡ slice_set list.old.items at (slice_index list.old.items at - 1) }
    ensures fewer { sum list.new.items + 1 ≡ sum list.old.items }
{
    list[at as usize] -= 1;
}

impl Due {
    /// So many requests and answers of each rank, by its number, so many messages in all, and so many bytes in all.
    pub fn of(requests: Vec<u64>, answers: Vec<u64>, messages: u64, bytes: u64) -> Due
        requires { messages ≡ sum requests.items + sum answers.items }
        ensures { result ≡ record { requests = requests.items; answers = answers.items; bytes = bytes } }
    {
        Due {
            requests,
            answers,
            messages,
            bytes,
        }
    }

    /// Whether nothing is due.
    pub fn has_come(&self) -> bool
        ensures { result ≡ (messages_due self.now == 0) }
    {
        self.messages == 0
    }

    /// How many ranks there are.
    pub fn ranks(&self) -> usize
        ensures { result ≡ length self.now.requests }
    {
        self.requests.len()
    }

    /// How many bytes have still to come.
    pub fn bytes(&self) -> u64
        ensures { result ≡ self.now.bytes }
    {
        self.bytes
    }

    /// How many messages a lane has still to bring; none of what is no rank.
    pub fn on(&self, source: Rank, lane: Lane) -> u64
        ensures { result ≡ due_on self.now source lane }
    {
        match lane {
            Lane::Request => count_at(self.requests.as_slice(), source),
            Lane::Answer => count_at(self.answers.as_slice(), source),
        }
    }

    /// One message less, of so many bytes.
    pub fn take(&mut self, source: Rank, lane: Lane, bytes: u64)
        requires nonempty { 0 < due_on self.old source lane }
        requires bytes { bytes ≤ self.old.bytes }
        ensures does { self.new ≡ with_taken self.old source lane bytes }
        ensures fewer { messages_due self.new + 1 ≡ messages_due self.old }
    {
        self.messages -= 1;
        self.bytes -= bytes;
        match lane {
            Lane::Request => lessen(&mut self.requests, source),
            Lane::Answer => lessen(&mut self.answers, source),
        }
    }
}
