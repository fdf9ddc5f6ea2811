//! Worked cases of the model, one small theorem each, in `proofs/`: what an interface answers and holds after a script of
//! calls and messages. They are computed, so a definition that is changed by mistake fails one of them.
