//! Worked cases of ranks that are done, in `proofs/`: without acknowledgements a rank of a barrier is done while its message has still
//! to go; with them it isn't done yet in the same cut.
