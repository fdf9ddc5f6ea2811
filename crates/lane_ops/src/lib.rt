//! The ten atomic operations on the eight integer types, with their laws, and on little-endian bytes in place
//! (Portals 4.3, atomic operations).
#![tactic(auto)]

mod bytes;
pub mod elements;
mod operations;

pub use bytes::{combine, start_values};
pub use operations::{
    BitwiseAnd, BitwiseOr, BitwiseXor, Combine, LogicalAnd, LogicalOr, LogicalXor, Maximum,
    Minimum, Product, Sum, combine_elements, start_value,
};
