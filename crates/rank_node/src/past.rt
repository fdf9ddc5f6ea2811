//! What clauses alone know of a history: its steps with their messages, in the type and in no bytes.

ghost use Rattle.std.specs.Prelude.{◌≡◌, ◌-◌, ℕ, List, [], ◌∷◌, ◌++◌, length};
ghost use Rattle.std.specs.Borrow.{ftrue};
ghost use Rattle.ptl_types.specs.Messages.{message};
ghost use Rattle.cuts.specs.histories.History.{Local};
ghost use Rattle.cuts.specs.histories.History.Local.{Start, Receive, Fire};

use ptl_types::{Bytes, Header, Lane, Rank};
use std::marker::Model;

/// The steps of a rank with the messages that it received, oldest first, and how many further messages it may receive, and bytes with
/// them. It takes no bytes, and its calls do nothing at run time.
#[derive(Drop)]
pub struct Past {
    pub ghost locals: { List Local },
    pub ghost receipts: { ℕ },
    pub ghost bytes: { ℕ },
}

impl Model for Past {
    ghost also_owns = { λ _. ftrue };
}

// It owns nothing, but a struct with `also_owns` has neither by itself.
unsafe impl Send for Past {}

unsafe impl Sync for Past {}

impl Past {
    /// No steps, before so many receipts and bytes.
    pub fn none() -> Past
        ghost bounds: { ℕ × ℕ }
        ensures { result ≡ record { locals = []; receipts = bounds.0; bytes = bounds.1 } }
    {
        Past {}
    }

    /// These steps, and a start.
    pub fn started(&self) -> Past
        ensures { result ≡ record { locals = self.now.locals ++ Start ∷ []; receipts = self.now.receipts; bytes = self.now.bytes } }
    {
        Past {}
    }

    /// These steps, and a firing.
    pub fn fired(&self, _number: &u32) -> Past
        ensures { result ≡ record {
          locals = self.now.locals ++ Fire _number.now ∷ [];
          receipts = self.now.receipts;
          bytes = self.now.bytes;
        } }
    {
        Past {}
    }

    /// These steps, and a receipt of the message of this header and these bytes.
    pub fn received(&self, _source: &Rank, _lane: &Lane, _header: &Header, _bytes: &Bytes) -> Past
        ensures { result ≡ record {
          locals = self.now.locals ++ Receive _source.now _lane.now (message _header.now _bytes.now.list) ∷ [];
          receipts = self.now.receipts - 1;
          bytes = self.now.bytes - length _bytes.now.list;
        } }
    {
        Past {}
    }
}
