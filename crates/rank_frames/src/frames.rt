//! Frames of a source and of a sink.

ghost use Rattle.std.specs.Prelude.{ℕ, ◌≡◌, ◌<◌, ◌≤◌, ◌^◌, ◌++◌, [], IfOk, IfErr, OnOk, length, slice_index};
ghost use Rattle.std.specs.Int.{w32, to_le_bytes};
ghost use Rattle.port_io.specs.Ends.{GivesFront};
ghost use Rattle.run_text.specs.Putting.{Puts};
ghost use Rattle.rank_frames.specs.Frames.{Lacks, LacksRoom, frame, head};

use crate::fault::Stop;
use port_io::{Failed, Sink, Source};

/// The number in a frame's head that names no rank: the mark of the start, and of the end.
pub const NOBODY: u32 = 4_294_967_295;

/// Fills the slice. An end before it is full is a fault.
fn read_whole<S: Source>(source: &mut S, into: &mut [u8]) -> Result<(), Stop>
    ensures front { OnOk result (GivesFront (S.inflow source.old).left (S.inflow source.new).left into.new) }
    ensures stops { IfErr result (λ e. Lacks e (S.inflow source.old) (S.inflow source.new) (length into.old)) }
    ensures faults { (S.inflow source.old).faults ≤ (S.inflow source.new).faults }
    ensures kept { length into.new ≡ length into.old }
    ensures bytes { (i : ℕ) → slice_index into.new i < 256 }
{
    let most = into.len();
    let mut at = 0;
    while at < most {
        match source.read(&mut into[at..]) {
            Ok(0) => return Err(Stop::Read),
            Ok(count) => at += count,
            Err(_) => return Err(Stop::Read),
        }
    }
    Ok(())
}

/// The next number, of four bytes, lowest first.
pub fn read_number<S: Source>(source: &mut S) -> Result<u32, Stop>
    ensures front { IfOk result (λ n. GivesFront (S.inflow source.old).left (S.inflow source.new).left (to_le_bytes w32 n)) }
    ensures stops { IfErr result (λ e. Lacks e (S.inflow source.old) (S.inflow source.new) 4) }
    ensures faults { (S.inflow source.old).faults ≤ (S.inflow source.new).faults }
{
    let mut bytes = [0; 4];
    read_whole(source, &mut bytes)?;
    Ok(u32::from_le_bytes(bytes))
}

/// The head of the next frame: the number of a rank, and how many bytes follow.
pub fn read_head<S: Source>(source: &mut S) -> Result<(u32, u32), Stop>
    ensures front { IfOk result (λ p. GivesFront (S.inflow source.old).left (S.inflow source.new).left (head p.0 p.1)) }
    ensures stops { IfErr result (λ e. Lacks e (S.inflow source.old) (S.inflow source.new) 8) }
    ensures faults { (S.inflow source.old).faults ≤ (S.inflow source.new).faults }
{
    let rank = read_number(source)?;
    let count = read_number(source)?;
    Ok((rank, count))
}

/// Takes so many bytes of the source in place of what the buffer held.
pub fn read_bytes<S: Source>(source: &mut S, buffer: &mut Vec<u8>, count: u32) -> Result<(), Stop>
    ensures front { OnOk result (GivesFront (S.inflow source.old).left (S.inflow source.new).left buffer.new.items) }
    ensures stops { IfErr result (λ e. LacksRoom e (S.inflow source.old) (S.inflow source.new) count) }
    ensures faults { (S.inflow source.old).faults ≤ (S.inflow source.new).faults }
    ensures whole { OnOk result (length buffer.new.items ≡ count) }
{
    buffer.clear();
    if buffer.resize(count as usize, 0).is_err() {
        return Err(Stop::NoMemory);
    }
    read_whole(source, buffer.as_mut_slice())
}

/// Writes until the sink has taken all of the piece.
fn write_whole<K: Sink>(sink: &mut K, piece: &[u8]) -> Result<(), Failed>
    ensures { Puts (K.outflow sink.old) (K.outflow sink.new) [] [] piece.now result }
{
    let mut rest = piece;
    while !rest.is_empty() {
        let count = sink.write(rest)?;
        (_, rest) = rest.split_at(count);
    }
    Ok(())
}

fn head(rank: u32, count: u32) -> [u8; 8]
    ensures { result ≡ head rank count }
{
    let r = rank.to_le_bytes();
    let n = count.to_le_bytes();
    [r[0], r[1], r[2], r[3], n[0], n[1], n[2], n[3]]
}

/// Writes the frame of these bytes.
pub fn write_frame<K: Sink>(sink: &mut K, rank: u32, bytes: &[u8]) -> Result<(), Failed>
    requires { length bytes.now < 2 ^ 32 }
    ensures { Puts (K.outflow sink.old) (K.outflow sink.new) [] [] (frame rank bytes.now) result }
{
    write_whole(sink, &head(rank, bytes.len() as u32))?;
    write_whole(sink, bytes)
}
