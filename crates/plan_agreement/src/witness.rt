//! Inputs that may show a difference.

ghost use Rattle.std.specs.Prelude.{◌≡◌, ◌<◌, ◌*◌, ◌/◌, [], ℕ, All, IfOk, length, get_or};
ghost use Rattle.coll_shape.specs.Meaning.{AreInputs};
ghost use Rattle.coll_shape.specs.Outline.{buffer_at, list_bytes};
ghost use Rattle.plan_agreement.specs.Witness.{AreWitnesses, IsListOf};

use crate::sources::NO_LIST;
use coll_shape::{InputList, Inputs, Shape};
use ptl_types::NoMemory;
use std::alloc::{AllocError, Global};

/// A step of a generator of numbers.
fn stepped(state: u64) -> u64 {
    state
        .wrapping_mul(6_364_136_223_846_793_005)
        .wrapping_add(1_442_695_040_888_963_407)
}

/// How the bytes of a list are chosen.
#[derive(Clone, Copy)]
enum Bytes {
    /// All are this one.
    All(u8),
    /// Any.
    Any,
    /// Zeros and ones.
    Bits,
    /// From zero to two.
    Few,
}

/// How the bytes of list i are chosen in a try. In the first three the bytes of the list that only one of two plans reads show in any
/// fold, since all others together are what the fold would be without them, or is zero, or is greater. Where no such list is known all
/// bytes are alike, others in each of these tries.
fn bytes_in(kind: u32, i: u32, other: u32, state: u64) -> Bytes {
    let is_other = i == other;
    match kind {
        0 => Bytes::All(if is_other { 1 } else { 0 }),
        1 => Bytes::All(if is_other { 0 } else { 255 }),
        2 => Bytes::All(if is_other || other == NO_LIST { 128 } else { 0 }),
        3 | 6 => Bytes::Any,
        4 | 7 => Bytes::All(((state >> 33) % 2) as u8),
        5 => Bytes::Bits,
        _ => Bytes::Few,
    }
}

/// A byte that is chosen so.
fn byte_of(bytes: Bytes, state: u64) -> u8 {
    let any = ((state >> 33) % 256) as u8;
    match bytes {
        Bytes::All(byte) => byte,
        Bytes::Any => any,
        Bytes::Bits => any % 2,
        Bytes::Few => any % 3,
    }
}

/// So many bytes, by the generator from this state on.
fn witness_list(
    alloc: Global,
    chosen: Bytes,
    from: u64,
    count: u64,
) -> Result<InputList, AllocError>
    ensures { IfOk result (λ list. IsListOf count list) }
{
    let mut state = from;
    let mut bytes = Vec::with_capacity(alloc, count as usize)?;
    for k in 0..count {
        state = stepped(state ^ k);
        bytes.push(byte_of(chosen, state))?;
    }
    Ok(InputList::of(bytes))
}

/// How many lists the inputs of a shape have together.
pub(crate) fn list_count(shape: &Shape) -> u32
    ensures { result ≡ shape.now.inputs * shape.now.ranks }
{
    shape.recall_form();
    shape.input_count() * shape.ranks()
}

/// The bytes of one of these lists, of which each input has one a rank.
pub(crate) fn bytes_at(shape: &Shape, i: u32) -> u64
    requires { i < shape.now.inputs * shape.now.ranks }
    ensures { result ≡ list_bytes (buffer_at shape.now (i / shape.now.ranks)) }
{
    shape.recall_form();
    let buffers = shape.buffers();
    let input = i / shape.ranks();
    buffers[input as usize].list_bytes()
}

/// The lists of all inputs of a shape, rank by rank in each, for a try. The list of the number `other` is one that only one of two plans
/// reads; `NO_LIST` where none is known.
fn witness_lists(
    alloc: Global,
    shape: &Shape,
    kind: u32,
    other: u32,
) -> Result<Vec<InputList>, AllocError>
    ensures { IfOk result (λ lists. AreWitnesses shape.now lists.items) }
{
    let mut lists = Vec::new(alloc);
    for i in 0..list_count(shape) {
        let state = stepped(u64::from(i).wrapping_mul(0x9E37_79B9_7F4A_7C15) ^ u64::from(kind));
        let chosen = bytes_in(kind, i, other, state);
        let list = witness_list(alloc, chosen, state, bytes_at(shape, i))?;
        lists.push(list)?;
    }
    Ok(lists)
}

/// Inputs of a shape, others for each kind. The list of the number `other`, counted input by input and by rank in each, is one that only
/// one of two plans reads; `NO_LIST` where none is known.
pub(crate) fn witness(
    alloc: Global,
    shape: &Shape,
    kind: u32,
    other: u32,
) -> Result<Inputs, NoMemory>
    ensures { IfOk result (λ inputs. AreInputs shape.now inputs) }
{
    shape.recall_form();
    match witness_lists(alloc, shape, kind, other) {
        Ok(lists) => Ok(Inputs::of(shape.ranks(), shape.input_count(), lists)),
        Err(_) => Err(NoMemory),
    }
}
