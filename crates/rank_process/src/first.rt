//! The first frame.

ghost use Rattle.std.specs.Prelude.{◌≤◌, IfOk, IfErr};
ghost use Rattle.port_io.specs.Ends.{GivesFront};
ghost use Rattle.rank_frames.specs.Frames.{frame};
ghost use Rattle.rank_process.specs.Refused.{FailsFirst};

use crate::asking::refused;
use crate::status::{Status, status_of};
use coll_lang::Refusal;
use given_verdicts::LONGEST_GIVEN;
use port_io::Source;
use ptl_types::Rank;
use rank_frames::{read_bytes, read_head};
use std::alloc::Global;

/// What a rank is told first.
#[derive(Drop)]
pub(crate) struct First {
    /// Its number.
    pub(crate) rank: Rank,
    /// A description, or one with a plan after it.
    pub(crate) text: Vec<u8>,
}

/// Reads the first frame: the rank, and the text. Of a text that is longer than any that is run only the length is read.
pub(crate) fn read_first<S: Source>(alloc: Global, source: &mut S) -> Result<First, Status>
    ensures front { IfOk result (λ f. GivesFront (S.inflow source.old).left (S.inflow source.new).left (frame f.rank f.text.items)) }
    ensures faults { (S.inflow source.old).faults ≤ (S.inflow source.new).faults }
    ensures fails { IfErr result (λ e. FailsFirst e (S.inflow source.old) (S.inflow source.new)) }
{
    let (rank, count) = match read_head(source) {
        Ok(head) => head,
        Err(stop) => return Err(status_of(stop)),
    };
    if count as usize > LONGEST_GIVEN {
        return Err(Status::Answered(refused(0, Refusal::TooLong)));
    }
    let mut text = Vec::new(alloc);
    match read_bytes(source, &mut text, count) {
        Ok(()) => Ok(First { rank, text }),
        Err(stop) => Err(status_of(stop)),
    }
}
