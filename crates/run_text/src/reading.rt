//! Reading a text from a source.

ghost use Rattle.std.specs.Prelude.{◌≡◌, ◌≤◌, ◌<◌, ◌+◌, ◌^◌, ◌++◌, IfOk, IfErr, length, take, vec_len};
ghost use Rattle.port_io.specs.Counts.{Rose};
ghost use Rattle.port_io.specs.Ends.{GivesFront, IsAtEnd};
ghost use Rattle.run_text.specs.ReadText.{IsReadText};

use crate::pieces::PIECE;
use port_io::Source;
use std::alloc::Global;

/// Why a text wasn't read.
#[derive(Clone, Copy, Debug, PartialEq, Eq)]
pub enum ReadError {
    /// The source failed.
    Failed,
    /// There was no memory for the text.
    NoMemory,
}

/// Reads once, at most so many bytes by way of the piece, and adds what came to the text. The number of bytes is 0 only at
/// the source's end.
fn read_piece<S: Source>(
    source: &mut S,
    piece: &mut [u8],
    most: usize,
    text: &mut Vec<u8>,
) -> Result<usize, ReadError>
    requires nonempty { 0 < most }
    requires room { most ≤ length piece.old }
    ensures added { IfOk result (λ n. text.new.items ≡ text.old.items ++ take n piece.new) }
    ensures front { IfOk result (λ n. GivesFront (S.inflow source.old).left (S.inflow source.new).left (take n piece.new)) }
    ensures within { IfOk result (λ n. n ≤ most) }
    ensures len { IfOk result (λ n. vec_len text.new ≡ vec_len text.old + n) }
    ensures end { IfOk result (λ n. n ≡ 0 → IsAtEnd (S.inflow source.old).left) }
    ensures failed { IfErr result (λ e. e ≡ ReadError.Failed → Rose (S.inflow source.old).faults (S.inflow source.new).faults) }
    ensures faults { (S.inflow source.old).faults ≤ (S.inflow source.new).faults }
{
    let Ok(count) = source.read(&mut piece[..most]) else {
        return Err(ReadError::Failed);
    };
    match text.extend_from_slice(&piece[..count]) {
        Ok(()) => Ok(count),
        Err(_) => Err(ReadError::NoMemory),
    }
}

/// Reads until the source's end, or until it gave one byte more than the longest text has.
pub fn read_text<S: Source>(
    alloc: Global,
    longest: usize,
    source: &mut S,
) -> Result<Vec<u8>, ReadError>
    requires { longest < 2 ^ 32 }
    ensures text { IfOk result (λ text. IsReadText longest (S.inflow source.old) (S.inflow source.new) text.items) }
    ensures failed { IfErr result (λ e. e ≡ ReadError.Failed → Rose (S.inflow source.old).faults (S.inflow source.new).faults) }
{
    let mut text = Vec::new(alloc);
    let Ok(mut piece) = vec![in alloc; 0u8; PIECE] else {
        return Err(ReadError::NoMemory);
    };
    while text.len() <= longest {
        let most = PIECE.min(longest + 1 - text.len());
        match read_piece(source, &mut piece, most, &mut text) {
            Ok(0) => return Ok(text),
            Ok(_) => {}
            Err(error) => return Err(error),
        }
    }
    Ok(text)
}
