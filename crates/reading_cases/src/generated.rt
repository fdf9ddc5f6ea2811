//! The generated description, from outside.

ghost use Rattle.std.specs.Prelude.{◌<◌};

use crate::answers::{gives, holds};
use coll_lang::{Description, Inputs, generated, print};
use std::alloc::Global;

/// Whether the text begins and ends so.
fn has_ends(text: &[u8], head: &[u8], tail: &[u8]) -> bool {
    text.starts_with(head) && text.ends_with(tail)
}

/// Whether the description's text begins and ends so.
fn is_printed_with(alloc: Global, d: &Description, head: &[u8], tail: &[u8]) -> bool {
    match print(alloc, d) {
        Ok(text) => has_ends(text.as_slice(), head, tail),
        Err(_) => false,
    }
}

/// Whether the text of the description that is generated for k begins and ends so.
fn is_generated(alloc: Global, k: u32, head: &[u8], tail: &[u8]) -> bool
    requires { k < 65536 }
{
    match generated(alloc, k) {
        Ok(d) => is_printed_with(alloc, &d, head, tail),
        Err(_) => false,
    }
}

#[test]
fn first_and_last_lines(rt: HostRuntime) {
    let head = b"coll 1\nranks 64\ninput a u32 64\n1 2 3 4 5 6 7 8 9 10 11 12 13 14 15 16";
    let tail =
        b" 125 126 127\nallreduce sum a b\nscan max a c\nallgather a d\nalltoall a e\nbarrier\nprint a\nprint b\nprint c\nprint d\nprint e\nend\n";
    holds(&rt, "k", 1, is_generated(rt.alloc(), 1, head, tail));
    let head = b"coll 1\nranks 64\ninput a u32 64\n65535 0 1 2 3";
    let tail =
        b" 65533 65534 65535\nallreduce sum a b\nscan max a c\nallgather a d\nalltoall a e\nbarrier\nprint a\nprint b\nprint c\nprint d\nprint e\nend\n";
    holds(&rt, "k", 65535, is_generated(rt.alloc(), 65535, head, tail));
}

/// The sum of the values, each of four bytes, lowest first.
fn sum_of(list: &[u8]) -> u32 {
    let mut sum = 0u32;
    for value in list.chunks_exact(4) {
        if let [first, second, third, fourth] = value {
            sum = sum.wrapping_add(u32::from_le_bytes([*first, *second, *third, *fourth]));
        }
    }
    sum
}

/// The sum of all values of the lists.
fn sum_of_lists(inputs: &Inputs) -> u32 {
    let mut sum = 0u32;
    for list in inputs.lists() {
        sum = sum.wrapping_add(sum_of(list.as_slice()));
    }
    sum
}

#[test]
fn sum_of_all_values(rt: HostRuntime) {
    let Ok(d) = generated(rt.alloc(), 1) else {
        panic!(rt; "no memory")
    };
    gives!(rt; sum_of_lists(d.inputs()), 262_144);
}
