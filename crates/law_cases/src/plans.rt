//! Worked cases of plans and histories, in `proofs/`: small plans whose histories are computed step by step, a sound plan with a
//! cut at rest, so that no premise of the theorem is empty, and the history that shows why an answer has to be awaited.
