//! A slot's past is its chronicle; its name the job, the rank and the wires; its note the interface and the ends' counts.

use crate::turn_rank::TurnRank;
use turn_table::Past;

impl Past for TurnRank {
    ghost use Rattle.rank_slots.specs.Chronicles.{Entry, chronicle};
    ghost use Rattle.rank_slots.specs.Names.{Note, Plate, note, plate};

    ghost Name = { Plate };

    ghost Item = { Entry };

    ghost Note = { Note };

    ghost name = { plate };

    ghost past = { chronicle };

    ghost note = { note };

    fn past_len(&self) -> u64 {
        self.node.history().len() as u64
    }
}
