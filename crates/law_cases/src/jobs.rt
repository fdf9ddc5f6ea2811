//! Worked cases of jobs, in `proofs/`: the plan of a small shape cell by cell, where its barriers stand, when they are kept, and when the
//! memories of its ranks hold what the shape means.
