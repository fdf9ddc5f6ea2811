//! Lines that come from a source.

ghost use Rattle.std.specs.Prelude.{◌≡◌, ◌≤◌, ◌<◌, [], true, false, IfOk, IfErr, length, drop};
ghost use Rattle.port_io.specs.Counts.{Rose};
ghost use Rattle.port_io.specs.Ends.{GivesFront, IsAtEnd};
ghost use Rattle.log_top.specs.Reading.{GoesOn, Looks, More, NoBreak, Reads, Skips};

use coll_text::cut;
use log_lines::LONGEST_LINE;
use port_io::Source;
use ptl_types::NoMemory;
use run_text::{PIECE, ReadError};
use std::alloc::Global;
use std::marker::Model;

/// What was read.
#[derive(Clone, Copy, Debug, PartialEq, Eq)]
pub enum Read {
    /// A line, which LF ended.
    Line,
    /// The beginning of a line that is too long. The others of its bytes are still to be read.
    Long,
    /// What stands behind the last LF, at the source's end.
    Last,
}

/// Reads a source line by line. It holds a piece of the source and a line, and asks the source for more only where the piece has no LF.
#[derive(Drop)]
pub struct LineReader {
    piece: Vec<u8>,
    held: Vec<u8>,
    from: usize,
    line: Vec<u8>,
}

impl Model for LineReader {
    ghost use Rattle.std.specs.Prelude.{◌<◌, ◌≤◌, drop, length, vec_len};
    ghost use Rattle.log_top.specs.Reading.{Reader};

    ghost Value = { Reader };

    ghost view = { λ r. record { held = drop r.from r.held.items; line = r.line.items } };

    ghost invariant = { λ r. (r.from ≤ length r.held.items) × (0 < length r.piece.items) };
}

/// Reads a piece of the source in place of what is held; whether there was one.
fn read_piece<S: Source>(
    source: &mut S,
    piece: &mut [u8],
    held: &mut Vec<u8>,
) -> Result<bool, ReadError>
    requires { 0 < length piece.old }
    ensures front { IfOk result (λ some. GivesFront (S.inflow source.old).left (S.inflow source.new).left held.new.items) }
    ensures end { IfOk result (λ some. some ≡ false → IsAtEnd (S.inflow source.new).left × (held.new.items ≡ [])) }
    ensures some { IfOk result (λ some. some ≡ true → 0 < length held.new.items) }
    ensures failed { IfErr result (λ e. e ≡ ReadError.Failed → Rose (S.inflow source.old).faults (S.inflow source.new).faults) }
    ensures faults { (S.inflow source.old).faults ≤ (S.inflow source.new).faults }
    ensures room { length piece.new ≡ length piece.old }
{
    let Ok(count) = source.read(piece) else {
        return Err(ReadError::Failed);
    };
    held.clear();
    match held.extend_from_slice(&piece[..count]) {
        Ok(()) => Ok(count > 0),
        Err(_) => Err(ReadError::NoMemory),
    }
}

/// Adds to a line what of these bytes is more of it; how many of them were used, and what the line is now, unless it may go on.
fn look(line: &mut Vec<u8>, held: &[u8]) -> Result<(usize, Option<Read>), NoMemory>
    requires { length line.old.items ≤ LONGEST_LINE }
    ensures used { IfOk result (λ used. used.0 ≤ length held.now) }
    ensures looks { IfOk result (λ used. Looks (record { held = held.now; line = line.old.items })
        (record { held = drop used.0 held.now; line = line.new.items }) used.1) }
{
    let (front, after) = cut(held, b'\n');
    let room = LONGEST_LINE + 1 - line.len();
    if front.len() >= room {
        line.extend_from_slice(&front[..room])?;
        return Ok((room, Some(Read::Long)));
    }
    line.extend_from_slice(front)?;
    match after {
        Some(_) => Ok((front.len() + 1, Some(Read::Line))),
        None => Ok((front.len(), None)),
    }
}

impl LineReader {
    /// Nothing was read yet.
    pub fn open(alloc: Global) -> Result<LineReader, NoMemory>
        ensures { IfOk result (λ r. r ≡ record { held = []; line = [] }) }
    {
        let piece = vec![in alloc; 0u8; PIECE]?;
        Ok(LineReader {
            piece,
            held: Vec::new(alloc),
            from: 0,
            line: Vec::new(alloc),
        })
    }

    /// The line that was read.
    pub fn line(&self) -> &[u8]
        ensures { result.now ≡ self.now.line }
    {
        self.line.as_slice()
    }

    /// Adds to the line what is held of it.
    fn look(&mut self) -> Result<Option<Read>, ReadError>
        requires { length self.old.line ≤ LONGEST_LINE }
        ensures looks { IfOk result (Looks self.old self.new) }
        ensures lacks { IfErr result (λ e. e ≡ ReadError.NoMemory) }
    {
        match look(&mut self.line, &self.held[self.from..]) {
            Ok((used, read)) => {
                self.from += used;
                Ok(read)
            }
            Err(_) => Err(ReadError::NoMemory),
        }
    }

    /// Reads on, where nothing is held; whether there was more.
    fn more<S: Source>(&mut self, source: &mut S) -> Result<bool, ReadError>
        ensures more { IfOk result (More self.old (S.inflow source.old) self.new (S.inflow source.new)) }
        ensures failed { IfErr result (λ e. e ≡ ReadError.Failed → Rose (S.inflow source.old).faults (S.inflow source.new).faults) }
        ensures faults { (S.inflow source.old).faults ≤ (S.inflow source.new).faults }
    {
        self.from = 0;
        read_piece(source, &mut self.piece, &mut self.held)
    }

    /// Reads on to the end of a line that has begun.
    fn go_on<S: Source>(&mut self, source: &mut S) -> Result<Read, ReadError>
        requires held { self.old.held ≡ [] }
        requires begun { NoBreak self.old.line }
        requires short { length self.old.line ≤ LONGEST_LINE }
        ensures reads { IfOk result (GoesOn self.old (S.inflow source.old) self.new (S.inflow source.new)) }
        ensures failed { IfErr result (λ e. e ≡ ReadError.Failed → Rose (S.inflow source.old).faults (S.inflow source.new).faults) }
    {
        'pieces: loop {
            let some = self.more(source)?;
            if !some {
                return Ok(Read::Last);
            }
            let looked = self.look()?;
            if let Some(read) = looked {
                return Ok(read);
            }
        }
    }

    /// Reads the next line, without its LF; or of one that is too long one byte more than a line may have. Where LF stands in what is
    /// held, the source isn't asked.
    ///
    /// # Errors
    ///
    /// The source failed, or there was no memory; nothing further is to be read then.
    pub fn next<S: Source>(&mut self, source: &mut S) -> Result<Read, ReadError>
        ensures reads { IfOk result (Reads self.old (S.inflow source.old) self.new (S.inflow source.new)) }
        ensures failed { IfErr result (λ e. e ≡ ReadError.Failed → Rose (S.inflow source.old).faults (S.inflow source.new).faults) }
    {
        self.line.clear();
        let looked = self.look()?;
        match looked {
            Some(read) => Ok(read),
            None => self.go_on(source),
        }
    }

    /// Passes over what is left of a line; whether LF ended it.
    pub fn skip<S: Source>(&mut self, source: &mut S) -> Result<bool, ReadError>
        ensures skips { IfOk result (Skips self.old (S.inflow source.old) self.new (S.inflow source.new)) }
        ensures failed { IfErr result (λ e. e ≡ ReadError.Failed → Rose (S.inflow source.old).faults (S.inflow source.new).faults) }
    {
        'parts: for _ in 0..u64::MAX {
            let read = self.next(source)?;
            match read {
                Read::Line => return Ok(true),
                Read::Last => return Ok(false),
                Read::Long => {}
            }
        }
        Err(ReadError::NoMemory)
    }
}
