//! How many times a word is combined.

ghost use Rattle.std.specs.Prelude.{◌≡◌, ◌+◌, ◌%◌, ◌<◌, true, IfSome};
ghost use Rattle.plan_terms.specs.terms.Folds.{AreTimes, IsPlain};

use ptl_types::AtomicOp;

/// One time, where there is one.
fn at_most_one(a: u64, b: u64) -> u64
    ensures none { a + b ≡ 0 → result ≡ 0 }
    ensures some { 0 < a + b → result ≡ 1 }
{
    if a == 0 && b == 0 { 0 } else { 1 }
}

/// What is left when pairs are taken away.
fn odd_one(a: u64, b: u64) -> u64
    ensures { result ≡ (a + b) % 2 }
{
    (a % 2 + b % 2) % 2
}

/// How many times are as good as a times and b times more, if that is known. One is as good as many for what a value can meet twice, and
/// an exclusive or that meets a value twice is as it was.
pub(crate) fn times_of(op: AtomicOp, a: u64, b: u64) -> Option<u64>
    ensures { IfSome result (λ n. AreTimes op (a + b) n) }
{
    match op {
        AtomicOp::Min => Some(at_most_one(a, b)),
        AtomicOp::Max => Some(at_most_one(a, b)),
        AtomicOp::Lor => Some(at_most_one(a, b)),
        AtomicOp::Land => Some(at_most_one(a, b)),
        AtomicOp::Bor => Some(at_most_one(a, b)),
        AtomicOp::Band => Some(at_most_one(a, b)),
        AtomicOp::Lxor => Some(odd_one(a, b)),
        AtomicOp::Bxor => Some(odd_one(a, b)),
        AtomicOp::Sum => Some(a.wrapping_add(b)),
        AtomicOp::Prod => a.checked_add(b),
    }
}

/// Whether the fold of a single value is that value. The logical operations give 0 or 1.
pub(crate) fn is_plain(op: AtomicOp) -> bool
    ensures { result ≡ true → IsPlain op }
{
    match op {
        AtomicOp::Min => true,
        AtomicOp::Max => true,
        AtomicOp::Sum => true,
        AtomicOp::Prod => true,
        AtomicOp::Bor => true,
        AtomicOp::Band => true,
        AtomicOp::Bxor => true,
        AtomicOp::Lor | AtomicOp::Land | AtomicOp::Lxor => false,
    }
}
