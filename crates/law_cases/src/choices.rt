//! Worked cases of choice texts, in `proofs/`: histories of small texts, computed step by step.
