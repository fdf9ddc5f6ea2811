//! What each kind of step on the table tells. No value of these types is made: they stand in proofs alone.

use crate::views::{HandView, Past};
use atomic_table::{Join, Play, Split};

/// A try to take: found home, or busy.
pub(crate) struct TryStep;

impl<T: Past> Play<Option<T>, HandView<T>> for TryStep {
    ghost use Rattle.turn_table.specs.Rules.{try_tells};

    ghost then = { try_tells T.past T.name };
}

/// The count that ends a turn.
pub(crate) struct CountStep;

impl<T: Past> Play<Option<T>, HandView<T>> for CountStep {
    ghost use Rattle.turn_table.specs.Rules.{count_tells};

    ghost then = { count_tells T.past };
}

/// A hand is split off.
pub(crate) struct SplitHand;

impl<T> Split<HandView<T>> for SplitHand {
    ghost use Rattle.turn_table.specs.Views.{after_split, new_view};

    ghost left = { after_split };

    ghost right = { new_view };
}

/// A hand is joined to another.
pub(crate) struct JoinHand;

impl<T> Join<HandView<T>> for JoinHand {
    ghost use Rattle.turn_table.specs.Views.{after_join, spent_view};

    ghost both = { after_join };

    ghost spent = { spent_view };
}
