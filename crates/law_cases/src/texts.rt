//! Worked cases of texts, in `proofs/`: order lines and what stands before them, the lines that the program writes, and JSON values with
//! the text that they stand for.
