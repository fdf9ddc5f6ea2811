//! Texts that are written.

ghost use Rattle.std.specs.Prelude.{◌≡◌};

use std::marker::Model;

/// What was said or is owed as an answer, each word behind a space; or a name that is chosen.
#[derive(Debug, Drop)]
pub struct Printed {
    bytes: Vec<u8>,
}

impl Model for Printed {
    ghost use Rattle.std.specs.Prelude.{List, ℕ};

    ghost Value = { List ℕ };

    ghost view = { λ p. p.bytes.items };
}

impl Printed {
    /// These bytes.
    pub(crate) fn of(bytes: Vec<u8>) -> Printed
        ensures { result ≡ bytes.items }
    {
        Printed { bytes }
    }

    /// Its bytes.
    pub fn as_slice(&self) -> &[u8]
        ensures { result.now ≡ self.now }
    {
        self.bytes.as_slice()
    }
}
