//! One counting event: successes and failures whose sum never passes 2^64 - 1 (Portals 4.3, counting events).

ghost use Rattle.std.specs.Prelude.{◌≡◌, ◌≤◌, ◌+◌, ◌<◌, ◌^◌, ◌↔◌, IsOk, OnOk, OnErr};
ghost use Rattle.ni_model.specs.Counts.{bump, plus};

use ptl_types::Count;
use std::marker::Model;
use std::{cmp, fmt};

/// The sum of success and failure would pass 2^64 - 1. The counter is as it was.
#[derive(Clone, Copy, Debug, PartialEq, Eq)]
pub struct CountFull;

impl fmt::Display for CountFull {
    fn fmt<W: fmt::Write>(&self, f: &mut fmt::Formatter<W>) -> fmt::Result {
        f.write_str("the count would pass its end")
    }
}

impl std::error::Error for CountFull {}

/// A counting event. Its value is the count that it holds.
#[derive(Debug, Drop)]
pub struct Counter {
    success: u64,
    failure: u64,
}

impl Model for Counter {
    ghost use Rattle.std.specs.Prelude.{◌≤◌, ◌+◌};
    ghost use Rattle.ptl_types.specs.Handles.{top};
    ghost use Rattle.ptl_types.specs.declared.handles.Count.{Count};

    ghost Value = { Count };

    ghost view = { λ c. record { success = c.success; failure = c.failure } };

    ghost invariant = { λ c. c.success + c.failure ≤ top };
}

impl Counter {
    /// A counter at 0, 0.
    pub fn new() -> Counter
        ensures { result ≡ record { success = 0; failure = 0 } }
    {
        Counter {
            success: 0,
            failure: 0,
        }
    }

    /// What it holds.
    pub fn count(&self) -> Count
        ensures count { result ≡ self.now }
        ensures fits { self.now.success + self.now.failure < 2 ^ 64 }
    {
        Count {
            success: self.success,
            failure: self.failure,
        }
    }

    /// Holds these numbers from now on. It is refused where their sum would pass 2^64 - 1; the counter is then as it was.
    pub fn set(&mut self, to: Count) -> Result<(), CountFull>
        ensures fits { IsOk result ↔ (to.success + to.failure < 2 ^ 64) }
        ensures ok { OnOk result (self.new ≡ to) }
        ensures err { OnErr result (self.new ≡ self.old) }
    {
        if to.success.checked_add(to.failure).is_none() {
            return Err(CountFull);
        }
        self.success = to.success;
        self.failure = to.failure;
        Ok(())
    }

    /// Adds both numbers. It is refused where the sum would pass 2^64 - 1; the counter is then as it was.
    pub fn inc(&mut self, by: Count) -> Result<(), CountFull>
        ensures fits { IsOk result ↔ (self.old.success + by.success + (self.old.failure + by.failure) < 2 ^ 64) }
        ensures ok { OnOk result (self.new ≡ plus by self.old) }
        ensures err { OnErr result (self.new ≡ self.old) }
    {
        let success = self.success.checked_add(by.success).ok_or(CountFull)?;
        let failure = self.failure.checked_add(by.failure).ok_or(CountFull)?;
        self.set(Count { success, failure })
    }

    /// Counts what the network or a firing counts: first the successes, then the failures, each as far as the sum allows.
    pub fn bump(&mut self, by: Count)
        ensures { self.new ≡ bump by self.old }
    {
        let success = cmp::min(by.success, u64::MAX - (self.success + self.failure));
        self.success += success;
        let failure = cmp::min(by.failure, u64::MAX - (self.success + self.failure));
        self.failure += failure;
    }
}
