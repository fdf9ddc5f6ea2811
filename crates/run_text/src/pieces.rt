//! A text in pieces.

ghost use Rattle.std.specs.Prelude.{◌≡◌, ◌+◌, ◌%◌, ◌≤◌, [], length, vec_len, vec_capacity, IfOk, OnOk};
ghost use Rattle.run_text.specs.Putting.{Puts, EndsWith};

use port_io::{Failed, Sink};
use ptl_types::NoMemory;
use std::alloc::Global;
use std::marker::Model;

/// How many bytes a piece of a text has that is handed to a sink or asked of a source. The last one may be shorter.
pub const PIECE: usize = 65_536;

/// Hands a text to a sink piece by piece. It means the bytes that it holds back, fewer than a piece.
///
/// Its buffer is taken when it is opened. No later call takes memory.
#[derive(Drop)]
pub struct Pieces {
    held: Vec<u8>,
}

impl Model for Pieces {
    ghost use Rattle.std.specs.Prelude.{◌<◌, ◌≤◌, List, ℕ, vec_len, vec_capacity};
    ghost use Rattle.run_text.specs.declared.pieces.TheConstants.{PIECE};

    ghost Value = { List ℕ };

    ghost view = { λ p. p.held.items };

    ghost invariant = { λ p. (vec_len p.held < PIECE) × (PIECE ≤ vec_capacity p.held) };
}

/// Writes until the sink has taken all of the piece.
fn write_all<K: Sink>(sink: &mut K, piece: &[u8]) -> Result<(), Failed>
    ensures { Puts (K.outflow sink.old) (K.outflow sink.new) [] [] piece.now result }
{
    let mut rest = piece;
    while !rest.is_empty() {
        let count = sink.write(rest)?;
        (_, rest) = rest.split_at(count);
    }
    Ok(())
}

/// Writes what is held back and the list, and holds nothing back.
fn write_piece<K: Sink>(held: &mut Vec<u8>, sink: &mut K, list: &[u8]) -> Result<(), Failed>
    requires { vec_len held.old + length list.now ≤ vec_capacity held.old }
    ensures written { Puts (K.outflow sink.old) (K.outflow sink.new) held.old.items [] list.now result }
    ensures nothing { held.new.items ≡ [] }
    ensures len { vec_len held.new ≡ 0 }
    ensures room { vec_capacity held.old ≤ vec_capacity held.new }
{
    let _ = held.extend_from_slice(list);
    let written = write_all(sink, held.as_slice());
    held.clear();
    written
}

/// Writes a text that fits one piece, and finishes the sink once. It takes no memory.
///
/// At `Failed` the count of the sink's faults rose, and a beginning of the text stands.
pub fn write_short<K: Sink>(sink: &mut K, text: &[u8]) -> Result<(), Failed>
    requires { length text.now ≤ PIECE }
    ensures { EndsWith (K.outflow sink.old) (K.outflow sink.new) text.now result }
{
    write_all(sink, text)?;
    sink.finish()
}

impl Pieces {
    /// Nothing held back, and room for a whole piece.
    pub fn open(alloc: Global) -> Result<Pieces, NoMemory>
        ensures { IfOk result (λ pieces. pieces ≡ []) }
    {
        match Vec::with_capacity(alloc, PIECE) {
            Ok(held) => Ok(Pieces { held }),
            Err(_) => Err(NoMemory),
        }
    }

    /// Adds a list by which a piece is filled at least.
    fn put_long<K: Sink>(&mut self, sink: &mut K, list: &[u8]) -> Result<(), Failed>
        ensures held { OnOk result (length self.new ≡ (length self.old + length list.now) % PIECE) }
        ensures puts { Puts (K.outflow sink.old) (K.outflow sink.new) self.old self.new list.now result }
    {
        let mut rest = list;
        while rest.len() >= PIECE - self.held.len() {
            let (now, later) = rest.split_at(PIECE - self.held.len());
            write_piece(&mut self.held, sink, now)?;
            rest = later;
        }
        let _ = self.held.extend_from_slice(rest);
        Ok(())
    }

    /// Adds the list to the text, and writes each piece that is full. At `Failed` the count of the sink's faults rose, and
    /// a beginning of the text stands.
    #[inline]
    pub fn put<K: Sink>(&mut self, sink: &mut K, list: &[u8]) -> Result<(), Failed>
        // What is held back is what fills no piece.
        ensures held { OnOk result (length self.new ≡ (length self.old + length list.now) % PIECE) }
        ensures puts { Puts (K.outflow sink.old) (K.outflow sink.new) self.old self.new list.now result }
    {
        if list.len() >= PIECE - self.held.len() {
            return self.put_long(sink, list);
        }
        let _ = self.held.extend_from_slice(list);
        Ok(())
    }

    /// Writes what is held back, and finishes the sink once. At `Failed` the count of the sink's faults rose, and a
    /// beginning of the text stands. Nothing is held back afterwards.
    pub fn end<K: Sink>(&mut self, sink: &mut K) -> Result<(), Failed>
        ensures ends { EndsWith (K.outflow sink.old) (K.outflow sink.new) self.old result }
        ensures nothing { self.new ≡ [] }
    {
        let written = write_short(sink, self.held.as_slice());
        self.held.clear();
        written
    }
}
