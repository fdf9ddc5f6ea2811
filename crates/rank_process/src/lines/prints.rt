//! What a rank prints.

ghost use Rattle.std.specs.Prelude.{◌≡◌, ◌<◌, IfOk, None, get_or, length};
ghost use Rattle.run_text.specs.Putting.{Puts};
ghost use Rattle.rank_process.specs.lines.Lines.{part_at, placed_line, placed_lines};
ghost use Rattle.rank_process.specs.lines.Places.{places_in};

use crate::lines::places::{part_of, places_of};
use coll_shape::Shape;
use port_io::{Failed, Sink};
use ptl_types::{NoMemory, Rank};
use run_text::{Pieces, Rows, put_listed, result_line};
use schedule_compiler::{Place, Schedule};
use std::alloc::Global;
use std::marker::Model;

/// What one rank prints of its memory. It keeps the shape, and for each buffer where the rank's list lies, and nothing of the plan.
#[derive(Drop)]
pub struct Prints {
    shape: Shape,
    rank: Rank,
    places: Vec<Option<Place>>,
}

impl Model for Prints {
    ghost use Rattle.std.specs.Prelude.{◌≡◌, length};
    ghost use Rattle.rank_process.specs.lines.Lines.{PrintsOf};

    ghost Value = { PrintsOf };

    ghost view = { λ p. record { shape = p.shape; rank = p.rank; places = p.places.items } };

    ghost invariant = { λ p. length p.places.items ≡ length p.shape.buffers };
}

/// What a rank prints, and its memory.
#[derive(Clone, Copy)]
struct OwnRows<'a> {
    prints: &'a Prints,
    memory: &'a [u8],
}

impl<'a> Rows for OwnRows<'a> {
    ghost use Rattle.std.specs.Prelude.{◌<◌, length};
    ghost use Rattle.rank_process.specs.lines.Lines.{placed_line};

    ghost has = { λ rows b. b < length rows.prints.now.shape.buffers };

    ghost line = { λ rows b. placed_line rows.prints.now rows.memory.now b };

    fn put<K: Sink>(&self, out: &mut Pieces, sink: &mut K, number: u32) -> Result<(), Failed> {
        self.prints.put_line(out, sink, number, self.memory)
    }
}

impl Prints {
    /// What a rank prints by a shape, where a schedule's cells hold its lists.
    ///
    /// # Errors
    ///
    /// There was no memory. The shape is then gone.
    pub fn of(
        alloc: Global,
        shape: Shape,
        schedule: &Schedule,
        rank: Rank,
    ) -> Result<Prints, NoMemory>
        requires buffers { schedule.now.held.buffers ≡ length shape.buffers }
        requires rank { rank < schedule.now.plan.ranks }
        ensures { IfOk result (λ p. p ≡ record { shape = shape; rank = rank; places = places_in schedule.now rank }) }
    {
        let places = places_of(alloc, schedule, rank)?;
        Ok(Prints {
            shape,
            rank,
            places,
        })
    }

    /// Its number.
    pub fn rank(&self) -> Rank
        ensures { result ≡ self.now.rank }
    {
        self.rank
    }

    /// The rank's list of a buffer in its memory.
    fn list<'a>(&self, buffer: u32, memory: &'a [u8]) -> &'a [u8]
        requires { buffer < length self.now.shape.buffers }
        ensures { result.now ≡ part_at (get_or self.now.places buffer None) memory.now }
    {
        match self.places[buffer as usize] {
            Some(place) => part_of(memory, place),
            None => &[],
        }
    }

    /// Adds the line of a buffer.
    fn put_line<K: Sink>(
        &self,
        out: &mut Pieces,
        sink: &mut K,
        buffer: u32,
        memory: &[u8],
    ) -> Result<(), Failed>
        requires { buffer < length self.now.shape.buffers }
        ensures { Puts (K.outflow sink.old) (K.outflow sink.new) out.old out.new
            (placed_line self.now memory.now buffer) result }
    {
        let about = &self.shape.buffers()[buffer as usize];
        let list = self.list(buffer, memory);
        result_line(out, sink, about.name.as_slice(), self.rank, about.ty, list)
    }

    /// Adds the rank's lines: its list of each buffer that is printed, in order, as they stand in this memory.
    ///
    /// At `Failed` the count of the sink's faults rose, and a beginning of the text stands. It takes no memory.
    pub fn put<K: Sink>(&self, out: &mut Pieces, sink: &mut K, memory: &[u8]) -> Result<(), Failed>
        ensures { Puts (K.outflow sink.old) (K.outflow sink.new) out.old out.new
            (placed_lines self.now memory.now) result }
    {
        self.shape.recall_form();
        let rows = OwnRows {
            prints: self,
            memory,
        };
        put_listed(out, sink, &rows, self.shape.prints())
    }
}
