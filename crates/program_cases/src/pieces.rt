//! The size of the pieces, which no contract says.

use crate::comparing::same;
use port_io::{Failed, Sink};
use run_text::{PIECE, Pieces};
use std::test::Fail;

/// A sink that notes how much each write was offered, and takes all of it. Its count of finishes stands at its end.
#[derive(Drop)]
struct Sizes {
    sizes: [usize; 4],
    writes: usize,
}

impl Sink for Sizes {
    ghost use Rattle.std.specs.Prelude.{None};

    ghost outflow = { λ s. record { taken = None; faults = 0; finishes = 18446744073709551615 } };

    fn write(&mut self, piece: &[u8]) -> Result<usize, Failed> {
        if self.writes < 4 {
            self.sizes[self.writes] = piece.len();
            self.writes += 1;
        }
        Ok(piece.len())
    }

    fn finish(&mut self) -> Result<(), Failed> {
        Ok(())
    }
}

#[test]
fn every_piece_but_the_last_is_full(rt: HostRuntime) -> Result<(), Fail> {
    let alloc = rt.alloc();
    let list = vec![in alloc; b'x'; PIECE - 1]?;
    let mut out = Pieces::open(alloc)?;
    let mut sink = Sizes {
        sizes: [0; 4],
        writes: 0,
    };
    for _ in 0..3 {
        same(&rt, &"a piece", out.put(&mut sink, list.as_slice()), Ok(()));
    }
    same(&rt, &"the end", out.end(&mut sink), Ok(()));
    same(&rt, &"the sizes", sink.sizes, [65_536, 65_536, 65_533, 0]);
    Ok(())
}
