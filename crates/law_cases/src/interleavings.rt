//! Worked cases of cuts and interleavings that strays come into, in `proofs/`: what order lines leave open where a stray was received,
//! steps that lead to it, and what is no end.
