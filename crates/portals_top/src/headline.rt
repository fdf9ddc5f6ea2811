//! What holds of every interleaving.

ghost use Rattle.portals_top.specs.Headline.{Headline};

/// For every accepted description, number of ranks and interleaving of starts, deliveries and firings that keeps each lane's
/// order: once every rank has started and no message or ready operation is left, every completion counter stands at its
/// threshold, and every buffer at every rank is what the description means of the inputs.
pub fn every_interleaving_is_meant()
    ensures { Headline }
{}
