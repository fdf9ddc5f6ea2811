//! Worked cases of the meaning of descriptions, one small theorem each, in `proofs/`: the inputs, and every buffer's list at
//! every rank. The values come from a program of its own. They are computed, so a definition that is changed by mistake fails
//! one of them.
