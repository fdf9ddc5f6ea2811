//! The description with which large runs are made.

ghost use Rattle.std.specs.Prelude.{◌≡◌, ◌+◌, ◌*◌, ◌<◌, length, vec_len, IfOk, Ok};
ghost use Rattle.ptl_types.specs.declared.elements.ElemType.TheVariants.{U32};
ghost use Rattle.coll_text.specs.Elements.{bytes_of_list};
ghost use Rattle.coll_lang.specs.Language.{described, read};
ghost use Rattle.coll_lang.specs.Spelling.{text};
ghost use Rattle.coll_lang.specs.States.{past};
ghost use Rattle.coll_lang.specs.Generated.{value_at, rank_elements, even_words, everyone, generated_shape, generated_lists, generated};

use crate::description::Description;
use crate::reader::Reader;
use crate::stage::Stage;
use crate::take::all_ranks;
use coll_shape::{Buffer, CollStep, InputList, Name, RankList, Spread, Version};
use coll_text::push_value;
use ptl_types::{AtomicOp, ElemType, NoMemory};
use std::alloc::{AllocError, Global};

/// The elements that are printed, over all ranks: 64 of each of four buffers and 4096 of one at every rank.
const PRINTED: u64 = 278_528;

/// What rank r holds at place i.
fn value_at(k: u32, r: u32, i: u32) -> u32
    requires number { k < 65536 }
    requires rank { r < 64 }
    requires place { i < 64 }
    ensures { result ≡ value_at k r i }
{
    (k * (r + 1) + i) % 65536
}

/// The list of rank r.
#[tactic(auto, using(crate::proofs::GeneratedLists::one_value_more), unfolding(crate::specs::Generated::rank_elements))]
fn rank_list(alloc: Global, k: u32, r: u32) -> Result<InputList, AllocError>
    requires number { k < 65536 }
    requires rank { r < 64 }
    ensures { IfOk result (λ list. list ≡ bytes_of_list U32 (rank_elements k r)) }
{
    let mut bytes = Vec::new(alloc);
    for i in 0..64 {
        push_value(&mut bytes, ElemType::U32, u64::from(value_at(k, r, i)))?;
    }
    Ok(InputList::of(bytes))
}

/// The lists of all ranks.
#[tactic(auto, using(crate::proofs::GeneratedLists::one_list_more), unfolding(crate::specs::Generated::all_elements))]
fn all_lists(alloc: Global, k: u32) -> Result<Vec<InputList>, AllocError>
    requires { k < 65536 }
    ensures { IfOk result (λ lists. lists.items ≡ generated_lists k) }
{
    let mut lists = Vec::new(alloc);
    for r in 0..64 {
        lists.push(rank_list(alloc, k, r)?)?;
    }
    Ok(lists)
}

/// All 64 ranks.
#[tactic(auto, unfolding(crate::specs::Generated::everyone))]
fn everyone(alloc: Global) -> Result<RankList, AllocError>
    ensures { IfOk result (λ list. list ≡ everyone) }
{
    all_ranks(alloc, 64)
}

/// A buffer of u32, of which every rank holds as many.
fn even_words(alloc: Global, name: &[u8], length: u64) -> Result<Buffer, AllocError>
    ensures { IfOk result (λ buffer. buffer ≡ even_words name.now length) }
{
    Ok(Buffer {
        name: Name::copied(alloc, name)?,
        ty: ElemType::U32,
        spread: Spread {
            length,
            holders: everyone(alloc)?,
        },
    })
}

/// The input, and what the steps make.
fn buffers(alloc: Global) -> Result<Vec<Buffer>, AllocError>
    ensures value { IfOk result (λ buffers. buffers.items ≡ generated_shape.buffers) }
    ensures many { IfOk result (λ buffers. vec_len buffers ≡ 5) }
{
    let mut buffers = Vec::new(alloc);
    buffers.push(even_words(alloc, b"a", 64)?)?;
    buffers.push(even_words(alloc, b"b", 64)?)?;
    buffers.push(even_words(alloc, b"c", 64)?)?;
    buffers.push(even_words(alloc, b"d", 4096)?)?;
    buffers.push(even_words(alloc, b"e", 64)?)?;
    Ok(buffers)
}

/// The steps, all of the input.
fn steps(alloc: Global) -> Result<Vec<CollStep>, AllocError>
    ensures { IfOk result (λ steps. steps.items ≡ generated_shape.steps) }
{
    let sum = AtomicOp::Sum;
    let max = AtomicOp::Max;
    let steps = [
        CollStep::Allreduce {
            op: sum,
            a: 0,
            b: 1,
        },
        CollStep::Scan {
            op: max,
            a: 0,
            b: 2,
        },
        CollStep::Allgather { a: 0, b: 3 },
        CollStep::Alltoall { a: 0, b: 4 },
        CollStep::Barrier,
    ];
    Vec::from_slice(alloc, &steps)
}

/// What a reader holds after the last line of the description's text.
fn generated_reader(alloc: Global, k: u32) -> Result<Reader, AllocError>
    requires { k < 65536 }
    ensures value { IfOk result (λ reader. described (past reader) ≡ generated k) }
    ensures lists { IfOk result (λ reader. length reader.given.items ≡ reader.inputs * reader.ranks) }
{
    let given = all_lists(alloc, k)?;
    let everyone = all_ranks(alloc, 64)?;
    Ok(Reader {
        alloc,
        stage: Stage::Finished,
        version: Version::One,
        ranks: 64,
        everyone,
        remote: false,
        groups: Vec::new(alloc),
        buffers: buffers(alloc)?,
        inputs: 1,
        given,
        steps: steps(alloc)?,
        on: Vec::from_slice(alloc, &[None, None, None, None, None])?,
        choices: Vec::new(alloc),
        prints: Vec::from_slice(alloc, &[0, 1, 2, 3, 4])?,
        printed: PRINTED,
    })
}

/// The description with which large runs are made: 64 ranks with an input `a` of 64 u32, whose value at rank r and place
/// i is (k * (r + 1) + i) modulo 65,536; then `allreduce sum a b`, `scan max a c`, `allgather a d`, `alltoall a e` and
/// `barrier`; then prints of a, b, c, d and e in this order. The number k is below 65,536.
///
/// # Errors
///
/// There was no memory for the description.
pub fn generated(alloc: Global, k: u32) -> Result<Description, NoMemory>
    requires { k < 65536 }
    ensures value { IfOk result (λ d. d ≡ generated k) }
    // Its one spelling is read as it.
    ensures accepted { IfOk result (λ d. read (text d) ≡ Ok d) }
{
    match generated_reader(alloc, k) {
        Ok(reader) => Ok(Description::of(reader)),
        Err(_) => Err(NoMemory),
    }
}
