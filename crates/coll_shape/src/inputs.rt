//! The values of a description's inputs.

ghost use Rattle.std.specs.Prelude.{◌≡◌, ◌*◌, ◌<◌, length, get_or, [], List, ℕ};
ghost use Rattle.coll_shape.specs.Rows.{in_rows, joined};

use ptl_types::Rank;
use std::marker::Model;

/// One rank's list of an input: its elements in order, each little-endian.
#[derive(Debug, Drop)]
pub struct InputList {
    bytes: Vec<u8>,
}

impl Model for InputList {
    ghost Value = { List ℕ };

    ghost view = { λ l. l.bytes.items };
}

impl InputList {
    /// The list of these bytes. It takes no memory.
    pub fn of(bytes: Vec<u8>) -> InputList
        ensures made { result ≡ bytes.items }
    {
        InputList { bytes }
    }

    /// The bytes of the list.
    pub fn as_slice(&self) -> &[u8]
        ensures value { result.now ≡ self.now }
    {
        self.bytes.as_slice()
    }
}

/// The values of the inputs, for each input and each rank a list of bytes.
#[derive(Debug, Drop)]
pub struct Inputs {
    ranks: u32,
    inputs: u32,
    /// Input by input, and in each rank by rank.
    lists: Vec<InputList>,
}

impl Model for Inputs {
    ghost use Rattle.std.specs.Prelude.{◌≡◌, ◌*◌, length, List, ℕ};
    ghost use Rattle.coll_shape.specs.Rows.{in_rows};

    ghost Value = { List (List (List ℕ)) };

    ghost view = { λ i. in_rows i.ranks i.inputs i.lists.items };

    ghost invariant = { λ i. length i.lists.items ≡ i.inputs * i.ranks };
}

impl Inputs {
    /// These lists, which stand input by input, and in each input rank by rank. It takes no memory.
    pub fn of(ranks: u32, inputs: u32, lists: Vec<InputList>) -> Inputs
        requires { length lists.items ≡ inputs * ranks }
        ensures made { result ≡ in_rows ranks inputs lists.items }
    {
        Inputs {
            ranks,
            inputs,
            lists,
        }
    }

    /// All lists, input by input, and in each input rank by rank.
    pub fn lists(&self) -> &[InputList]
        ensures value { result.now ≡ joined self.now }
    {
        self.lists.as_slice()
    }

    /// The list of an input at a rank: its elements in order, each little-endian.
    pub fn list(&self, input: u32, r: Rank) -> &[u8]
        requires input { input < length self.now }
        requires rank { r < length (get_or self.now input []) }
        ensures value { result.now ≡ get_or (get_or self.now input []) r [] }
    {
        self.lists[input as usize * self.ranks as usize + r as usize].as_slice()
    }
}
