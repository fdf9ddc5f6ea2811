//! Memory that a thread reaches for in one step.

use std::alloc::{AllocError, Global};

/// How many bytes lie ahead then.
const AHEAD: usize = 8 << 20;

/// Takes a large block and gives it back, untouched, so that the blocks that this thread takes next lie where the allocator has memory
/// already. The C library's heap of a thread beside the first one grows by the pages that one block lacks, and each time the memory of
/// the whole process is locked, also for threads that touch a page for the first time. A first block of this size is one that the
/// system gives and takes back by itself; after it such blocks lie in the heaps, so it is done twice. Where there is no memory for the
/// block nothing is lost.
pub fn reach_ahead(alloc: Global) {
    for _ in 0..2 {
        let _block: Result<Vec<u8>, AllocError> = Vec::with_capacity(alloc, AHEAD);
    }
}
