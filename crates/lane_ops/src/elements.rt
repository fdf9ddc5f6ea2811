//! Elements of the eight integer types in lists of little-endian bytes: reading one and writing one, for text and interface
//! alike.

mod elements;

pub use elements::{
    Element, Signed8, Signed16, Signed32, Signed64, Unsigned8, Unsigned16, Unsigned32, Unsigned64,
    read_pattern, write_pattern,
};
