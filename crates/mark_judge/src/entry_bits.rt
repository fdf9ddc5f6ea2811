//! A bit for each of up to 256 entries.

ghost use Rattle.std.specs.Prelude.{ℕ, ◌≡◌, ◌<◌, ◌==◌, ◌||◌, ◌&&◌, true};
ghost use Rattle.mark_judge.specs.Tables.{has_bit};

/// Which of up to 256 entries are meant: a bit for each.
#[derive(Clone, Copy, Debug)]
pub(crate) struct Bits {
    /// Those of the first 128.
    pub low: u128,
    /// Those of the others.
    pub high: u128,
}

/// No entry.
pub(crate) const NO_BITS: Bits = Bits { low: 0, high: 0 };

/// Whether the entry of this number is meant.
pub(crate) fn has_bit(bits: Bits, k: u32) -> bool
    requires { k < 256 }
    ensures { result ≡ has_bit bits k }
{
    if k < 128 {
        (bits.low >> k) & 1 == 1
    } else {
        (bits.high >> (k - 128)) & 1 == 1
    }
}

/// The same entries, and that of this number.
pub(crate) fn with_bit(bits: Bits, k: u32) -> Bits
    requires { k < 256 }
    ensures { (j : ℕ) → has_bit result j ≡ (has_bit bits j || (j == k)) }
{
    if k < 128 {
        Bits {
            low: bits.low | (1 << k),
            high: bits.high,
        }
    } else {
        Bits {
            low: bits.low,
            high: bits.high | (1 << (k - 128)),
        }
    }
}

/// The entries of both.
pub(crate) fn joined(a: Bits, b: Bits) -> Bits
    ensures { (j : ℕ) → has_bit result j ≡ (has_bit a j || has_bit b j) }
{
    Bits {
        low: a.low | b.low,
        high: a.high | b.high,
    }
}

/// Whether two words are the same.
fn is_same(a: Bits, b: Bits) -> bool
    ensures { result ≡ ((a.low == b.low) && (a.high == b.high)) }
{
    a.low == b.low && a.high == b.high
}

/// Whether all entries of a mask are among these.
pub(crate) fn has_all(bits: Bits, mask: Bits) -> bool
    ensures { result ≡ true → (j : ℕ) → has_bit mask j ≡ true → has_bit bits j ≡ true }
{
    is_same(joined(bits, mask), bits)
}
