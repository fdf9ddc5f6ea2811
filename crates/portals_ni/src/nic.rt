//! The interface, its opening and what it holds.

ghost use Rattle.std.specs.Prelude.{◌≡◌, ◌<◌, ◌≤◌, ◌+◌, ◌↔◌, IfOk, IsTrue, length};
ghost use Rattle.ni_model.specs.State.{opened};
ghost use Rattle.ni_model.specs.Calls.{write_memory};
ghost use Rattle.portals_ni.specs.Fit.{FitLimits};
ghost use Rattle.portals_ni.specs.Lasting.{HasLimits, Lasts};

use crate::triggers::Triggers;
use initiator_engine::Initiator;
use ni_objects::counters::Counter;
use ni_objects::descriptors::Region;
use ni_objects::handles::Store;
use ni_objects::queues::Queue;
use ptl_types::{Bytes, Limits, NoMemory, Rank};
use std::alloc::Global;
use std::marker::Model;
use target_engine::Target;

/// The most operations that may wait, and the most counting events.
const MOST: u32 = 1 << 27;

/// Whether an interface can be opened with these limits: those of entries and of headers don't pass 2^32 - 1 together, and neither
/// that of triggered operations nor that of counting events passes 2^27.
pub fn fit(limits: &Limits) -> bool
    ensures { IsTrue result ↔ FitLimits limits.now }
{
    limits.entries <= u32::MAX - limits.unexpected && limits.triggered <= MOST && limits.cts <= MOST
}

/// One network interface. Its value is the model's `State`.
pub struct Nic {
    pub(crate) alloc: Global,
    pub(crate) target: Target,
    pub(crate) initiator: Initiator,
    pub(crate) region: Region,
    pub(crate) cts: Store<Counter>,
    pub(crate) eqs: Store<Queue>,
    pub(crate) pending: Triggers,
    pub(crate) drops: u64,
    pub(crate) violations: u64,
}

impl Model for Nic {
    ghost use Rattle.ni_model.specs.State.{State};

    ghost Value = { State };

    ghost use Rattle.portals_ni.specs.Sound.{IsWhole, state_of};

    ghost view = { λ n. state_of n.target n.region n.cts n.eqs n.initiator n.pending n.drops n.violations };

    ghost invariant = { λ n. IsWhole n.target n.region n.cts n.eqs n.initiator n.pending n.drops n.violations };
}

// Written out, so that letting one go is one call: docs/DECISIONS.md, "Large types have a drop of their own".
impl Drop for Nic {
    fn drop(self) {
        let Nic {
            alloc: _,
            target: _,
            initiator: _,
            region: _,
            cts: _,
            eqs: _,
            pending: _,
            drops: _,
            violations: _,
        } = self;
    }
}

impl Nic {
    /// Opens an interface of this rank among so many, with these limits, over a region of memory (Portals 4.3, network
    /// interfaces). It has no portal table index, descriptor, entry, counting event, queue, header or pending operation, and
    /// both status registers are 0. The memory of its tables is taken here, so that a later call takes memory only where it
    /// says so. Conditions: the rank is one of them, and the limits fit, which `fit` tells.
    pub fn open(
        alloc: Global,
        rank: Rank,
        ranks: u32,
        limits: Limits,
        region: Bytes,
    ) -> Result<Nic, NoMemory>
        requires rank { rank < ranks }
        requires fit { FitLimits limits }
        ensures makes { IfOk result (λ nic. nic ≡ opened rank ranks limits region.list) }
    {
        let target = Target::open(alloc, rank, &limits)?;
        let initiator = Initiator::open(alloc, rank, ranks, &limits)?;
        let cts = Store::open(alloc, limits.cts)?;
        let eqs = Store::open(alloc, limits.eqs)?;
        let pending = Triggers::open(alloc, &limits)?;
        Ok(Nic {
            alloc,
            target,
            initiator,
            region: Region::new(region),
            cts,
            eqs,
            pending,
            drops: 0,
            violations: 0,
        })
    }

    /// Its rank, by which others address it.
    pub fn rank(&self) -> Rank
        ensures value { result ≡ self.now.rank }
    {
        self.initiator.rank()
    }

    /// How many ranks there are.
    pub fn ranks(&self) -> u32
        ensures value { result ≡ self.now.ranks }
    {
        self.initiator.ranks()
    }

    /// The actual limits, which are those that were asked for, and stand in each table.
    pub fn limits(&self) -> &Limits
        ensures value { result.now ≡ self.now.limits }
        ensures stand { HasLimits self.now }
    {
        self.initiator.limits()
    }

    /// All bytes of the region.
    pub fn memory(&self) -> &[u8]
        ensures value { result.now ≡ self.now.memory }
    {
        self.region.as_slice()
    }

    /// The host writes bytes from `start` on. Condition: they lie in the region. Nothing else changes.
    pub fn write_memory(&mut self, start: u64, bytes: &[u8])
        requires { start + length bytes.now ≤ length self.old.memory }
        ensures does { self.new ≡ write_memory start bytes.now self.old }
    {
        self.region.write(start, bytes);
    }

    /// The drop register (Portals 4.3, status registers): messages that no entry took, and answers that weren't awaited or
    /// didn't fit. It stops at 2^64 - 1.
    pub fn drops(&self) -> u64
        ensures value { result ≡ self.now.drops }
    {
        self.drops
    }

    /// The violation register: messages that their entry didn't allow. It stops at 2^64 - 1.
    pub fn violations(&self) -> u64
        ensures value { result ≡ self.now.violations }
    {
        self.violations
    }

    /// How many triggered operations are pending. `kept` is what holds of an interface whatever calls were made: a caller has it
    /// without following them.
    pub fn pending(&self) -> u32
        ensures value { result ≡ length self.now.pending.waiting }
        ensures kept { Lasts self.now }
    {
        self.pending.waiting().len()
    }
}
