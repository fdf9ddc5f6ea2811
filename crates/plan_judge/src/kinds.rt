//! What kind of link one is.

ghost use Rattle.std.specs.Prelude.{◌≡◌};
ghost use Rattle.plan_core.specs.Plan.{is_atomic, is_bump};
ghost use Rattle.plan_judge.specs.Causes.{is_put};

use plan_core::LinkKind;

/// Whether a link counts alone.
pub(crate) fn is_bump(kind: LinkKind) -> bool
    ensures { result ≡ is_bump kind }
{
    match kind {
        LinkKind::Bump => true,
        _ => false,
    }
}

/// Whether a link combines at its target.
pub(crate) fn is_atomic(kind: LinkKind) -> bool
    ensures { result ≡ is_atomic kind }
{
    match kind {
        LinkKind::Atomic => true,
        _ => false,
    }
}

/// Whether a link writes over its target.
pub(crate) fn is_put(kind: LinkKind) -> bool
    ensures { result ≡ is_put kind }
{
    match kind {
        LinkKind::Put => true,
        _ => false,
    }
}
