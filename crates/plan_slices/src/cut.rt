//! How the bytes of a cell are cut.

ghost use Rattle.std.specs.Prelude.{◌≡◌, true, IfSome};
ghost use Rattle.plan_slices.specs.Slices.{block, cut_at};

/// How the bytes of a cell are cut: a block has so many pieces of so many bytes.
#[derive(Clone, Copy, Debug)]
pub struct Cut {
    /// The bytes of a piece.
    pub width: u64,
    /// The pieces of a block.
    pub count: u64,
}

impl Cut {
    /// The bytes of a block, if that number fits.
    pub fn block(self) -> Option<u64>
        ensures { IfSome result (λ b. b ≡ block self) }
    {
        self.count.checked_mul(self.width)
    }

    /// Whether two are the same.
    pub fn is(self, other: Cut) -> bool
        ensures { result ≡ true → self ≡ other }
    {
        self.width == other.width && self.count == other.count
    }
}

/// How the bytes of a cell are cut, of which there is a list by the cells' numbers. Past its end each byte stands by itself.
pub fn cut_at(cuts: &[Cut], cell: u32) -> Cut
    ensures { result ≡ cut_at cuts.now cell }
{
    match cuts.get(cell as usize) {
        Some(cut) => *cut,
        None => Cut { width: 1, count: 1 },
    }
}
