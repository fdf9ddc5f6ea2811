//! Data lines that many threads read.

ghost use Rattle.std.specs.Prelude.{◌≡◌, ◌<◌, ◌≤◌, ◌+◌, ◌^◌, ◌++◌, ℕ, List, IfOk, IfSome, length, map, slice_index_or};
ghost use Rattle.coll_text.specs.Text.{lines};
ghost use Rattle.coll_lang.specs.Answers.{Gives};
ghost use Rattle.coll_lang.specs.Blocks.{AreSaid, ReadsOn, TakesBlock, data_said};
ghost use Rattle.coll_lang.specs.Language.{judge};
ghost use Rattle.coll_lang.specs.States.{Takes, past};

use crate::fault::{LineFault, ParseFault, Refusal};
use crate::reader::Reader;
use crate::stage::Stage;
use crate::take::{are_allowed, take_line, take_values, values_of};
use crate::whole::fault_at;
use coll_shape::InputList;
use coll_text::cut;
use ptl_types::ElemType;
use std::alloc::{AllocError, Global};
use std::thread::Threads;
use work_sharing::map_indices;

/// Lines of fewer bytes aren't shared among threads.
const FEW: usize = 65_536;

/// At most so many lines that end, and what follows them.
fn cut_lines<'a>(
    alloc: Global,
    most: u32,
    bytes: &'a [u8],
) -> Result<(Vec<&'a [u8]>, &'a [u8]), AllocError>
    ensures at_most { IfOk result (λ r. length r.0.items ≤ most) }
    ensures short { IfOk result (λ r. length r.1.now + length r.0.items ≤ length bytes.now) }
    ensures lines { IfOk result (λ r. lines bytes.now ≡ map (λ line. line.now) r.0.items ++ lines r.1.now) }
{
    let mut found = Vec::with_capacity(alloc, most as usize)?;
    let mut rest = bytes;
    while found.len() < most as usize {
        let (line, Some(later)) = cut(rest, b'\n') else {
            break;
        };
        found.push(line)?;
        rest = later;
    }
    Ok((found, rest))
}

/// What a data line says by itself.
fn data_said(alloc: Global, ty: ElemType, count: u32, line: &[u8]) -> Result<InputList, LineFault>
    ensures { Gives (λ list. list) result (data_said ty count line.now) }
{
    if !are_allowed(line) {
        return Err(LineFault::Refused(Refusal::BadByte));
    }
    values_of(alloc, ty, count, line)
}

/// What each of the lines says, read by as many threads, of which each takes the next line that none has taken.
fn all_said<R: Threads + Sync>(
    rt: &R,
    alloc: Global,
    threads: u32,
    ty: ElemType,
    count: u32,
    lines: &[&[u8]],
) -> Result<Vec<Option<Result<InputList, LineFault>>>, AllocError>
    requires threads { 0 < threads }
    ensures count { IfOk result (λ v. length v.items ≡ length lines.now) }
    ensures said { IfOk result (λ v. AreSaid ty count lines.now v.items) }
{
    map_indices(
        rt,
        alloc,
        threads as usize,
        lines.len(),
        &|i: usize|
            requires { i < length lines.now }
            ensures { (e : _) → IfSome result (λ x. Gives (λ list. list) x (data_said ty count (slice_index_or lines.entry.now i e).now)) }
        { Some(data_said(alloc, ty, count, lines[i])) },
    )
}

/// Takes a data line. What it says may have been read before.
fn take_place(
    reader: &mut Reader,
    left: u32,
    ty: ElemType,
    count: u32,
    line: &[u8],
    place: Option<Result<InputList, LineFault>>,
) -> Result<(), LineFault>
    requires stage { reader.old.stage ≡ Stage.Data left ty count }
    requires said { IfSome place (λ x. Gives (λ list. list) x (data_said ty count line.now)) }
    ensures { Takes result reader.new (judge (past reader.old) line.now) }
{
    match place {
        Some(Ok(values)) => take_values(reader, left, ty, count, values),
        Some(Err(fault)) => Err(fault),
        None => take_line(reader, line),
    }
}

/// Data lines that are due.
#[derive(Clone, Copy)]
struct DataRun {
    /// How many.
    left: u32,
    /// The type of their values.
    ty: ElemType,
    /// How many values each has.
    count: u32,
}

/// Takes data lines of a run, the first of which has this number. What they say may have been read before.
fn take_block(
    reader: &mut Reader,
    run: DataRun,
    lines: &[&[u8]],
    places: &mut [Option<Result<InputList, LineFault>>],
    number: u32,
) -> Result<(), ParseFault>
    requires stage { reader.old.stage ≡ Stage.Data run.left run.ty run.count }
    requires due { length lines.now ≤ run.left }
    requires places { length places.old ≡ length lines.now }
    requires said { AreSaid run.ty run.count lines.now places.old }
    requires at_most { number + length lines.now < 2 ^ 32 }
    ensures { (bytes : List ℕ) → TakesBlock result number (map (λ line. line.now) lines.now) bytes (past reader.old) (past reader.new) }
{
    for i in 0..lines.len() {
        let due = run.left - i as u32;
        let place = places[i].take();
        if let Err(fault) = take_place(reader, due, run.ty, run.count, lines[i], place) {
            return Err(fault_at(number + i as u32, fault));
        }
    }
    Ok(())
}

/// Who takes long runs of data lines.
pub(crate) trait ReadAhead {
    /// What it asks.
    ghost ready: { Self → Type 0 } = { λ _. Unit {0} };

    /// Where a long run of data lines comes next, takes as many of them as are there, or none. Answers the number of the line after
    /// them, and what is left.
    fn read_ahead<'a>(
        &self,
        reader: &mut Reader,
        number: u32,
        bytes: &'a [u8],
    ) -> Result<(u32, &'a [u8]), ParseFault>
        requires ready { ready self.now }
        requires at_most { number + length bytes.now < 2 ^ 32 }
        ensures { ReadsOn result number bytes.now (past reader.old) (past reader.new) };
}

/// Takes none of them: each line is taken in its turn.
#[derive(Clone, Copy)]
pub(crate) struct InTurn;

impl ReadAhead for InTurn {
    #[inline]
    fn read_ahead<'a>(
        &self,
        _reader: &mut Reader,
        number: u32,
        bytes: &'a [u8],
    ) -> Result<(u32, &'a [u8]), ParseFault> {
        Ok((number, bytes))
    }
}

/// Threads that read them.
pub(crate) struct ByThreads<'a, R> {
    /// Who starts them.
    pub(crate) rt: &'a R,
    /// How many there are at most, the caller among them.
    pub(crate) threads: u32,
    ghost some: { 0 < threads },
}

impl<'a, R> Drop for ByThreads<'a, R> {
    fn drop(self) {
        let ByThreads { rt: _, threads: _ } = self;
    }
}

impl<'r, R: Threads + Sync> ByThreads<'r, R> {
    /// Takes the data lines that are due, as far as they are there, each read by one of as many threads.
    fn read_block<'a>(
        &self,
        reader: &mut Reader,
        run: DataRun,
        number: u32,
        bytes: &'a [u8],
    ) -> Result<(u32, &'a [u8]), ParseFault>
        requires stage { reader.old.stage ≡ Stage.Data run.left run.ty run.count }
        requires at_most { number + length bytes.now < 2 ^ 32 }
        ensures { ReadsOn result number bytes.now (past reader.old) (past reader.new) }
    {
        let alloc = reader.alloc;
        let (lines, rest) = cut_lines(alloc, run.left, bytes)?;
        let lines: &[&[u8]] = lines.as_slice();
        let threads = if bytes.len() - rest.len() < FEW {
            1
        } else {
            self.threads
        };
        let mut places = all_said(self.rt, alloc, threads, run.ty, run.count, lines)?;
        take_block(reader, run, lines, &mut places, number)?;
        Ok((number + lines.len() as u32, rest))
    }
}

impl<'r, R: Threads + Sync> ReadAhead for ByThreads<'r, R> {
    ghost use denote.Param.Send.{IsSync};

    // Threads share the runtime.
    ghost ready = { λ _. IsSync R.row };

    fn read_ahead<'a>(
        &self,
        reader: &mut Reader,
        number: u32,
        bytes: &'a [u8],
    ) -> Result<(u32, &'a [u8]), ParseFault> {
        match reader.stage {
            Stage::Data { left, ty, count } if FEW <= bytes.len() => {
                self.read_block(reader, DataRun { left, ty, count }, number, bytes)
            }
            _ => Ok((number, bytes)),
        }
    }
}
