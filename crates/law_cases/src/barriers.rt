//! Worked cases of what comes after a barrier, in `proofs/`: two barriers of two ranks, drawn with the exits that the rules say and with
//! exits that stay the go cells; the second plan breaks the law, in a cut that stands here step by step.
