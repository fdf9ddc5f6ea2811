//! The two traits.

ghost use Rattle.std.specs.Prelude.{◌≡◌, ◌<◌, ◌≤◌, [], length, take, IfOk, OnOk, OnErr};
ghost use Rattle.ptl_types.specs.Handles.{one_more};
ghost use Rattle.port_io.specs.Counts.{Rose};
ghost use Rattle.port_io.specs.Ends.{Inflow, Outflow, GivesFront, IsAtEnd, Appends};

use std::fmt;

/// A read, a write or a finish failed. The end that failed has raised its count of faults.
#[derive(Clone, Copy, Debug, PartialEq, Eq)]
pub struct Failed;

impl fmt::Display for Failed {
    fn fmt<W: fmt::Write>(&self, f: &mut fmt::Formatter<W>) -> fmt::Result {
        f.write_str("the source or the sink failed")
    }
}

impl std::error::Error for Failed {}

/// Something that bytes are read from.
///
/// It means the bytes that it has left, where it tells them, and a count of its faults, which never falls. A count
/// that stands at 2^64 - 1 after a call counts as one that rose.
pub trait Source {
    ghost inflow: { Self → Inflow };

    /// Takes the next bytes, at most as many as the slice has, and puts them at the slice's front.
    ///
    /// `Ok` has their number. It is 0 only at the end, if the slice isn't empty. `Failed` comes only where the count of
    /// faults rose; of the bytes left nothing is said then.
    fn read(&mut self, into: &mut [u8]) -> Result<usize, Failed>
        ensures within { IfOk result (λ n. n ≤ length into.old) }
        ensures front { IfOk result (λ n. GivesFront (inflow self.old).left (inflow self.new).left (take n into.new)) }
        ensures end { IfOk result (λ n. 0 < length into.old → n ≡ 0 → IsAtEnd (inflow self.old).left) }
        ensures failed { OnErr result (Rose (inflow self.old).faults (inflow self.new).faults) }
        ensures faults { (inflow self.old).faults ≤ (inflow self.new).faults };
}

/// Something that bytes are written to.
///
/// It means the bytes that it took, where it tells them, a count of its faults, which never falls, and a count of its
/// finishes. A count that stands at 2^64 - 1 after a call counts as one that rose.
pub trait Sink {
    ghost outflow: { Self → Outflow };

    /// Takes some bytes from the front of a piece.
    ///
    /// `Ok` has their number, at least 1 if the piece isn't empty. `Failed` comes only where the count of faults rose,
    /// and then nothing of the piece was taken.
    fn write(&mut self, piece: &[u8]) -> Result<usize, Failed>
        ensures within { IfOk result (λ n. n ≤ length piece.now) }
        ensures some { IfOk result (λ n. 0 < length piece.now → 0 < n) }
        ensures appended { IfOk result (λ n. Appends (outflow self.old).taken (outflow self.new).taken (take n piece.now)) }
        ensures nothing { OnErr result (Appends (outflow self.old).taken (outflow self.new).taken []) }
        ensures failed { OnErr result (Rose (outflow self.old).faults (outflow self.new).faults) }
        ensures faults { (outflow self.old).faults ≤ (outflow self.new).faults }
        ensures finishes { (outflow self.new).finishes ≡ (outflow self.old).finishes };

    /// Says that the text is whole. It changes nothing of what was taken.
    ///
    /// At `Ok` the count of finishes rose by one, and nothing else changes that count. `Failed` comes only where the
    /// count of faults rose.
    fn finish(&mut self) -> Result<(), Failed>
        ensures nothing { Appends (outflow self.old).taken (outflow self.new).taken [] }
        ensures finished { OnOk result ((outflow self.new).finishes ≡ one_more (outflow self.old).finishes) }
        ensures unfinished { OnErr result ((outflow self.new).finishes ≡ (outflow self.old).finishes) }
        ensures failed { OnErr result (Rose (outflow self.old).faults (outflow self.new).faults) }
        ensures faults { (outflow self.old).faults ≤ (outflow self.new).faults };
}
