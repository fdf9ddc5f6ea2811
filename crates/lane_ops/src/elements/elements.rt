//! Elements of each type in a list of bytes, through `byteorder`.

ghost use Rattle.std.specs.Prelude.{◌≡◌, ◌<◌, ◌≤◌, ◌++◌, ◌^◌, length, take, drop};
ghost use Rattle.ptl_types.specs.Elements.{pattern, little_endian};
ghost use Rattle.ptl_types.specs.Operations.{bytes_of, span};
ghost use Rattle.ptl_types.specs.declared.elements.ElemType.{ElemType};
ghost use Rattle.ptl_types.specs.declared.elements.ElemType.TheVariants.{U8, I8, U16, I16, U32, I32, U64, I64};

use byteorder::{ByteOrder, LittleEndian};
use ptl_types::ElemType;

/// A type of element, known when the program is built, so that a loop over elements has no test of the type.
pub trait Element {
    ghost ty: { ElemType };

    /// The type.
    fn ty() -> ElemType
        ensures { result ≡ ty };

    /// How many bytes an element has.
    fn size() -> usize
        ensures { result ≡ bytes_of ty };

    /// The first element of the bytes, as its bit pattern.
    fn read(bytes: &[u8]) -> u64
        requires { bytes_of ty ≤ length bytes.now }
        ensures value { result ≡ pattern (take (bytes_of ty) bytes.now) }
        ensures pattern { result < span ty };

    /// Overwrites the first element with a bit pattern.
    fn write(bytes: &mut [u8], x: u64)
        requires room { bytes_of ty ≤ length bytes.old }
        requires pattern { x < span ty }
        ensures { bytes.new ≡ little_endian (bytes_of ty) x ++ drop (bytes_of ty) bytes.old };
}

fn read_one(bytes: &[u8]) -> u64
    requires { 1 ≤ length bytes.now }
    ensures value { result ≡ pattern (take 1 bytes.now) }
    ensures pattern { result < 2 ^ 8 }
{
    u64::from(bytes[0])
}

fn read_two(bytes: &[u8]) -> u64
    requires { 2 ≤ length bytes.now }
    ensures value { result ≡ pattern (take 2 bytes.now) }
    ensures pattern { result < 2 ^ 16 }
{
    // A byte that is read brings its bound to the proof.
    let _bytes = [bytes[0], bytes[1]];
    u64::from(LittleEndian::read_u16(bytes))
}

fn read_four(bytes: &[u8]) -> u64
    requires { 4 ≤ length bytes.now }
    ensures value { result ≡ pattern (take 4 bytes.now) }
    ensures pattern { result < 2 ^ 32 }
{
    let _bytes = [bytes[0], bytes[1], bytes[2], bytes[3]];
    u64::from(LittleEndian::read_u32(bytes))
}

fn read_eight(bytes: &[u8]) -> u64
    requires { 8 ≤ length bytes.now }
    ensures value { result ≡ pattern (take 8 bytes.now) }
    ensures pattern { result < 2 ^ 64 }
{
    let _low = [bytes[0], bytes[1], bytes[2], bytes[3]];
    let _high = [bytes[4], bytes[5], bytes[6], bytes[7]];
    LittleEndian::read_u64(bytes)
}

fn write_one(bytes: &mut [u8], x: u64)
    requires room { 1 ≤ length bytes.old }
    requires pattern { x < 2 ^ 8 }
    ensures { bytes.new ≡ little_endian 1 x ++ drop 1 bytes.old }
{
    bytes[0] = x as u8;
}

fn write_two(bytes: &mut [u8], x: u64)
    requires room { 2 ≤ length bytes.old }
    requires pattern { x < 2 ^ 16 }
    ensures { bytes.new ≡ little_endian 2 x ++ drop 2 bytes.old }
{
    LittleEndian::write_u16(bytes, x as u16);
}

fn write_four(bytes: &mut [u8], x: u64)
    requires room { 4 ≤ length bytes.old }
    requires pattern { x < 2 ^ 32 }
    ensures { bytes.new ≡ little_endian 4 x ++ drop 4 bytes.old }
{
    LittleEndian::write_u32(bytes, x as u32);
}

fn write_eight(bytes: &mut [u8], x: u64)
    requires room { 8 ≤ length bytes.old }
    requires pattern { x < 2 ^ 64 }
    ensures { bytes.new ≡ little_endian 8 x ++ drop 8 bytes.old }
{
    LittleEndian::write_u64(bytes, x);
}

/// The first element of the bytes, as its bit pattern; the bytes are little-endian.
pub fn read_pattern(ty: ElemType, bytes: &[u8]) -> u64
    requires room { bytes_of ty ≤ length bytes.now }
    ensures value { result ≡ pattern (take (bytes_of ty) bytes.now) }
    ensures pattern { result < span ty }
{
    match ty {
        ElemType::U8 | ElemType::I8 => read_one(bytes),
        ElemType::U16 | ElemType::I16 => read_two(bytes),
        ElemType::U32 | ElemType::I32 => read_four(bytes),
        ElemType::U64 | ElemType::I64 => read_eight(bytes),
    }
}

/// Overwrites the first element of the bytes with a bit pattern, little-endian.
pub fn write_pattern(ty: ElemType, bytes: &mut [u8], x: u64)
    requires room { bytes_of ty ≤ length bytes.old }
    requires pattern { x < span ty }
    ensures does { bytes.new ≡ little_endian (bytes_of ty) x ++ drop (bytes_of ty) bytes.old }
{
    match ty {
        ElemType::U8 | ElemType::I8 => write_one(bytes, x),
        ElemType::U16 | ElemType::I16 => write_two(bytes, x),
        ElemType::U32 | ElemType::I32 => write_four(bytes, x),
        ElemType::U64 | ElemType::I64 => write_eight(bytes, x),
    }
}

/// Elements of the type `U8`.
pub struct Unsigned8;

impl Element for Unsigned8 {
    ghost ty = { U8 };

    fn ty() -> ElemType {
        ElemType::U8
    }

    fn size() -> usize {
        1
    }

    fn read(bytes: &[u8]) -> u64 {
        read_one(bytes)
    }

    fn write(bytes: &mut [u8], x: u64) {
        write_one(bytes, x);
    }
}

/// Elements of the type `I8`.
pub struct Signed8;

impl Element for Signed8 {
    ghost ty = { I8 };

    fn ty() -> ElemType {
        ElemType::I8
    }

    fn size() -> usize {
        1
    }

    fn read(bytes: &[u8]) -> u64 {
        read_one(bytes)
    }

    fn write(bytes: &mut [u8], x: u64) {
        write_one(bytes, x);
    }
}

/// Elements of the type `U16`.
pub struct Unsigned16;

impl Element for Unsigned16 {
    ghost ty = { U16 };

    fn ty() -> ElemType {
        ElemType::U16
    }

    fn size() -> usize {
        2
    }

    fn read(bytes: &[u8]) -> u64 {
        read_two(bytes)
    }

    fn write(bytes: &mut [u8], x: u64) {
        write_two(bytes, x);
    }
}

/// Elements of the type `I16`.
pub struct Signed16;

impl Element for Signed16 {
    ghost ty = { I16 };

    fn ty() -> ElemType {
        ElemType::I16
    }

    fn size() -> usize {
        2
    }

    fn read(bytes: &[u8]) -> u64 {
        read_two(bytes)
    }

    fn write(bytes: &mut [u8], x: u64) {
        write_two(bytes, x);
    }
}

/// Elements of the type `U32`.
pub struct Unsigned32;

impl Element for Unsigned32 {
    ghost ty = { U32 };

    fn ty() -> ElemType {
        ElemType::U32
    }

    fn size() -> usize {
        4
    }

    fn read(bytes: &[u8]) -> u64 {
        read_four(bytes)
    }

    fn write(bytes: &mut [u8], x: u64) {
        write_four(bytes, x);
    }
}

/// Elements of the type `I32`.
pub struct Signed32;

impl Element for Signed32 {
    ghost ty = { I32 };

    fn ty() -> ElemType {
        ElemType::I32
    }

    fn size() -> usize {
        4
    }

    fn read(bytes: &[u8]) -> u64 {
        read_four(bytes)
    }

    fn write(bytes: &mut [u8], x: u64) {
        write_four(bytes, x);
    }
}

/// Elements of the type `U64`.
pub struct Unsigned64;

impl Element for Unsigned64 {
    ghost ty = { U64 };

    fn ty() -> ElemType {
        ElemType::U64
    }

    fn size() -> usize {
        8
    }

    fn read(bytes: &[u8]) -> u64 {
        read_eight(bytes)
    }

    fn write(bytes: &mut [u8], x: u64) {
        write_eight(bytes, x);
    }
}

/// Elements of the type `I64`.
pub struct Signed64;

impl Element for Signed64 {
    ghost ty = { I64 };

    fn ty() -> ElemType {
        ElemType::I64
    }

    fn size() -> usize {
        8
    }

    fn read(bytes: &[u8]) -> u64 {
        read_eight(bytes)
    }

    fn write(bytes: &mut [u8], x: u64) {
        write_eight(bytes, x);
    }
}
