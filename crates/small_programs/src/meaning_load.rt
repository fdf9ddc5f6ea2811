//! A load on the meaning of a description, to be measured: 31 alltoalls of 4096 elements of eight bytes on 64 ranks, nearly as
//! many bytes of cells as are accepted, and no list that two ranks share. It prints how many bytes the lists of all buffers have.

use coll_lang::parse;
use coll_meaning::{Buffers, buffers_of};
use std::alloc::{AllocError, Global};
use std::io;

/// How many ranks there are, and how many elements each has.
const RANKS: u32 = 64;

const ELEMENTS: u32 = 4_096;

/// How many alltoalls there are. As a plan's cells they have 4 MiB each beside the 2 MiB of the input, together 126 MiB of at most
/// 128.
const STEPS: u32 = 31;

/// Adds the line of a rank's elements, which are all the rank.
fn put_rank(alloc: Global, text: &mut Vec<u8>, r: u32) -> Result<(), AllocError> {
    let word = format!(in alloc; " {r}")?;
    let line = format!(in alloc; "{r}")?;
    text.extend_from_slice(line.as_bytes())?;
    for _ in 1..ELEMENTS {
        text.extend_from_slice(word.as_bytes())?;
    }
    text.extend_from_slice(b"\n")
}

/// The description.
fn text(alloc: Global) -> Result<Vec<u8>, AllocError> {
    let mut text = Vec::from_slice(alloc, b"coll 1\nranks 64\ninput a u64 4096\n")?;
    for r in 0..RANKS {
        put_rank(alloc, &mut text, r)?;
    }
    for k in 0..STEPS {
        let line = format!(in alloc; "alltoall a b{k}\n")?;
        text.extend_from_slice(line.as_bytes())?;
    }
    text.extend_from_slice(b"end\n")?;
    Ok(text)
}

/// The bytes of the lists of so many buffers.
fn bytes_of(buffers: &Buffers, count: u32) -> u64 {
    let mut bytes: u64 = 0;
    for buffer in 0..count {
        for r in 0..RANKS {
            bytes = bytes.saturating_add(buffers.list(buffer, r).len() as u64);
        }
    }
    bytes
}

/// The bytes of all lists of all buffers. `None`: there is no memory.
fn bytes_of_meaning(alloc: Global) -> Option<u64> {
    let Ok(text) = text(alloc) else {
        return None;
    };
    let Ok(description) = parse(alloc, &text) else {
        return None;
    };
    let (shape, inputs) = description.into_parts();
    match buffers_of(alloc, &shape, &inputs) {
        Ok(buffers) => Some(bytes_of(&buffers, STEPS + 1)),
        Err(_) => None,
    }
}

/// Prints how many there are.
pub fn print(rt: &HostRuntime) -> io::Result<()> {
    match bytes_of_meaning(rt.alloc()) {
        Some(bytes) => println!(rt; "{bytes} bytes"),
        None => println!(rt; "no memory"),
    }
}
