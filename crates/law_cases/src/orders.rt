//! Worked cases of orders, in `proofs/`: verdicts on given lists for a barrier of two ranks and for one of one rank, each computed
//! from the installed interfaces.
