//! The laws of the ten atomic operations on the eight integer types, on bit patterns and on lists of little-endian elements.
//! `proofs/` has them as lemmas that other crates cite.
#![tactic(auto)]

ghost use Rattle.ptl_types.specs.declared.elements.AtomicOp.{AtomicOp};
ghost use Rattle.op_laws.specs.Combining.{CombineSwaps, CombineStarts};
ghost use Rattle.op_laws.specs.Laws.{Swaps, Commutes, Associates, Starts, Stays, Absorbs, IsClosed, StartsInRange};

/// On bit patterns of a type: partial results may be combined in any order, the result is a bit pattern of the type, and the
/// starting value changes nothing that the operation gives.
pub fn laws_on_patterns()
    ensures swaps { (o : AtomicOp) → Swaps o }
    ensures commutes { (o : AtomicOp) → Commutes o }
    ensures associates { (o : AtomicOp) → Associates o }
    ensures starts { (o : AtomicOp) → Starts o }
    ensures stays { (o : AtomicOp) → Stays o }
    ensures absorbs { (o : AtomicOp) → Absorbs o }
    ensures closed { (o : AtomicOp) → IsClosed o }
    ensures start_in_range { (o : AtomicOp) → StartsInRange o }
{}

/// The same on lists of bytes, element by element.
pub fn laws_on_bytes()
    ensures swaps { CombineSwaps }
    ensures starts { CombineStarts }
{}
