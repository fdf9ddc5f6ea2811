//! Worked cases of what the program owes and leaves, and of runs of worlds, in `proofs/`.
