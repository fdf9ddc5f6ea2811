//! What the rows of the collectives say, as code, and the kinds of steps.

ghost use Rattle.std.specs.Prelude.{◌≡◌, ◌≤◌, ◌*◌, ◌%◌, ◌==◌, ◌<◌, length, get_or, IfOk};
ghost use Rattle.std.specs.List.{list_all, list_any};
ghost use Rattle.coll_shape.specs.Collectives.{can_read, holding_places, is_in, made_holders, made_length, op_of, result_of, root_of};
ghost use Rattle.coll_shape.specs.Collectives.{source_of, spread_so};
ghost use Rattle.coll_shape.specs.Collectives.{kind_named, kind_need, kind_of, kind_since, kind_word, named_among, step_of, takes_buffers};
ghost use Rattle.coll_shape.specs.Collectives.{takes_op, takes_root};
ghost use Rattle.coll_shape.specs.declared.limits.TheConstants.{MOST_ELEMENTS, MOST_RANKS};

use crate::lists::RankList;
use crate::types::{CollStep, Version};
use coll_text::is;
use ptl_types::{AtomicOp, Rank};
use std::alloc::{AllocError, Global};

/// What a step does, apart from its root, its operation and its buffers.
#[derive(Clone, Copy, Debug, PartialEq, Eq)]
pub enum StepKind {
    /// `barrier`
    Barrier,
    /// `broadcast`
    Broadcast,
    /// `reduce`
    Reduce,
    /// `allreduce`
    Allreduce,
    /// `gather`
    Gather,
    /// `allgather`
    Allgather,
    /// `alltoall`
    Alltoall,
    /// `scan`
    Scan,
    /// `scatter`
    Scatter,
    /// `reducescatter`
    Reducescatter,
    /// `exscan`
    Exscan,
    /// `gatherv`
    Gatherv,
}

/// All kinds of steps.
pub const STEP_KINDS: [StepKind; 12] = [
    StepKind::Barrier,
    StepKind::Broadcast,
    StepKind::Reduce,
    StepKind::Allreduce,
    StepKind::Gather,
    StepKind::Allgather,
    StepKind::Alltoall,
    StepKind::Scan,
    StepKind::Scatter,
    StepKind::Reducescatter,
    StepKind::Exscan,
    StepKind::Gatherv,
];

/// Who has to hold the buffer that a step reads. In blocks: its length is a multiple of the number of members.
#[derive(Clone, Copy, Debug, PartialEq, Eq)]
pub enum Need {
    /// The root holds it.
    Root,
    /// The root holds it, in blocks for the members.
    RootInBlocks,
    /// Every member holds it.
    All,
    /// Every member holds it, in blocks for the members.
    AllInBlocks,
    /// Some member holds it.
    Some,
}

/// The kind of these that has that word.
fn named_among(word: &[u8], kinds: &[StepKind]) -> Option<StepKind>
    ensures { result ≡ named_among word.now kinds.now }
{
    match kinds {
        [] => None,
        [kind, others @ ..] => {
            if is(word, kind.word()) {
                Some(*kind)
            } else {
                named_among(word, others)
            }
        }
    }
}

impl StepKind {
    /// The kind that the first word of a step names.
    pub fn named(word: &[u8]) -> Option<StepKind>
        ensures { result ≡ kind_named word.now }
    {
        named_among(word, &STEP_KINDS)
    }

    /// The first word of a step of this kind.
    pub fn word(self) -> &'static [u8]
        ensures { result.now ≡ kind_word self }
    {
        match self {
            StepKind::Barrier => b"barrier",
            StepKind::Broadcast => b"broadcast",
            StepKind::Reduce => b"reduce",
            StepKind::Allreduce => b"allreduce",
            StepKind::Gather => b"gather",
            StepKind::Allgather => b"allgather",
            StepKind::Alltoall => b"alltoall",
            StepKind::Scan => b"scan",
            StepKind::Scatter => b"scatter",
            StepKind::Reducescatter => b"reducescatter",
            StepKind::Exscan => b"exscan",
            StepKind::Gatherv => b"gatherv",
        }
    }

    /// The version from which on it stands.
    pub fn since(self) -> Version
        ensures { result ≡ kind_since self }
    {
        match self {
            StepKind::Scatter | StepKind::Reducescatter | StepKind::Exscan | StepKind::Gatherv =>
                Version::Two,
            _ => Version::One,
        }
    }

    /// Whether it takes a root.
    pub fn takes_root(self) -> bool
        ensures { result ≡ takes_root self }
    {
        matches!(
            self,
            StepKind::Broadcast
                | StepKind::Reduce
                | StepKind::Gather
                | StepKind::Scatter
                | StepKind::Gatherv
        )
    }

    /// Whether it takes an operation.
    pub fn takes_op(self) -> bool
        ensures { result ≡ takes_op self }
    {
        matches!(
            self,
            StepKind::Reduce
                | StepKind::Allreduce
                | StepKind::Scan
                | StepKind::Reducescatter
                | StepKind::Exscan
        )
    }

    /// Whether it reads a buffer and makes one.
    pub fn takes_buffers(self) -> bool
        ensures { result ≡ takes_buffers self }
    {
        !matches!(self, StepKind::Barrier)
    }

    /// What it asks of the buffer that it reads. `None`: it reads none.
    pub fn need(self) -> Option<Need>
        ensures { result ≡ kind_need self }
    {
        match self {
            StepKind::Barrier => None,
            StepKind::Broadcast => Some(Need::Root),
            StepKind::Scatter => Some(Need::RootInBlocks),
            StepKind::Alltoall | StepKind::Reducescatter => Some(Need::AllInBlocks),
            StepKind::Gatherv => Some(Need::Some),
            StepKind::Reduce
            | StepKind::Allreduce
            | StepKind::Gather
            | StepKind::Allgather
            | StepKind::Scan
            | StepKind::Exscan => Some(Need::All),
        }
    }

    /// The step of this kind with the root, the operation and the buffers, as far as the kind takes them.
    pub fn step(self, root: Rank, op: AtomicOp, a: u32, b: u32) -> CollStep
        ensures { result ≡ step_of self root op a b }
    {
        match self {
            StepKind::Barrier => CollStep::Barrier,
            StepKind::Broadcast => CollStep::Broadcast { root, a, b },
            StepKind::Reduce => CollStep::Reduce { root, op, a, b },
            StepKind::Allreduce => CollStep::Allreduce { op, a, b },
            StepKind::Gather => CollStep::Gather { root, a, b },
            StepKind::Allgather => CollStep::Allgather { a, b },
            StepKind::Alltoall => CollStep::Alltoall { a, b },
            StepKind::Scan => CollStep::Scan { op, a, b },
            StepKind::Scatter => CollStep::Scatter { root, a, b },
            StepKind::Reducescatter => CollStep::Reducescatter { op, a, b },
            StepKind::Exscan => CollStep::Exscan { op, a, b },
            StepKind::Gatherv => CollStep::Gatherv { root, a, b },
        }
    }
}

impl CollStep {
    /// What the step does.
    pub fn kind(&self) -> StepKind
        ensures { result ≡ kind_of self.now }
    {
        match *self {
            CollStep::Barrier => StepKind::Barrier,
            CollStep::Broadcast { .. } => StepKind::Broadcast,
            CollStep::Reduce { .. } => StepKind::Reduce,
            CollStep::Allreduce { .. } => StepKind::Allreduce,
            CollStep::Gather { .. } => StepKind::Gather,
            CollStep::Allgather { .. } => StepKind::Allgather,
            CollStep::Alltoall { .. } => StepKind::Alltoall,
            CollStep::Scan { .. } => StepKind::Scan,
            CollStep::Scatter { .. } => StepKind::Scatter,
            CollStep::Reducescatter { .. } => StepKind::Reducescatter,
            CollStep::Exscan { .. } => StepKind::Exscan,
            CollStep::Gatherv { .. } => StepKind::Gatherv,
        }
    }

    /// The buffer that the step reads. `None`: a barrier reads none.
    pub fn source(&self) -> Option<u32>
        ensures { result ≡ source_of self.now }
    {
        match *self {
            CollStep::Barrier => None,
            CollStep::Broadcast { a, .. }
            | CollStep::Reduce { a, .. }
            | CollStep::Allreduce { a, .. }
            | CollStep::Gather { a, .. }
            | CollStep::Allgather { a, .. }
            | CollStep::Alltoall { a, .. }
            | CollStep::Scan { a, .. }
            | CollStep::Scatter { a, .. }
            | CollStep::Reducescatter { a, .. }
            | CollStep::Exscan { a, .. }
            | CollStep::Gatherv { a, .. } => Some(a),
        }
    }

    /// The buffer that the step makes. `None`: a barrier makes none.
    pub fn result(&self) -> Option<u32>
        ensures { result ≡ result_of self.now }
    {
        match *self {
            CollStep::Barrier => None,
            CollStep::Broadcast { b, .. }
            | CollStep::Reduce { b, .. }
            | CollStep::Allreduce { b, .. }
            | CollStep::Gather { b, .. }
            | CollStep::Allgather { b, .. }
            | CollStep::Alltoall { b, .. }
            | CollStep::Scan { b, .. }
            | CollStep::Scatter { b, .. }
            | CollStep::Reducescatter { b, .. }
            | CollStep::Exscan { b, .. }
            | CollStep::Gatherv { b, .. } => Some(b),
        }
    }

    /// The root, a place among the members. `None`: the step takes none.
    pub fn root(&self) -> Option<Rank>
        ensures { result ≡ root_of self.now }
    {
        match *self {
            CollStep::Broadcast { root, .. }
            | CollStep::Reduce { root, .. }
            | CollStep::Gather { root, .. }
            | CollStep::Scatter { root, .. }
            | CollStep::Gatherv { root, .. } => Some(root),
            CollStep::Barrier
            | CollStep::Allreduce { .. }
            | CollStep::Allgather { .. }
            | CollStep::Alltoall { .. }
            | CollStep::Scan { .. }
            | CollStep::Reducescatter { .. }
            | CollStep::Exscan { .. } => None,
        }
    }

    /// The operation. `None`: the step takes none.
    pub fn op(&self) -> Option<AtomicOp>
        ensures { result ≡ op_of self.now }
    {
        match *self {
            CollStep::Reduce { op, .. }
            | CollStep::Allreduce { op, .. }
            | CollStep::Scan { op, .. }
            | CollStep::Reducescatter { op, .. }
            | CollStep::Exscan { op, .. } => Some(op),
            CollStep::Barrier
            | CollStep::Broadcast { .. }
            | CollStep::Gather { .. }
            | CollStep::Allgather { .. }
            | CollStep::Alltoall { .. }
            | CollStep::Scatter { .. }
            | CollStep::Gatherv { .. } => None,
        }
    }
}

/// Whether a rank is one of these.
pub fn is_in(r: Rank, ranks: &[Rank]) -> bool
    ensures { result ≡ is_in r ranks.now }
{
    match ranks {
        [] => false,
        [first, others @ ..] => *first == r || is_in(r, others),
    }
}

/// The member at a place. Rank 0 where there is no such place.
fn member_at(members: &[Rank], place: Rank) -> Rank
    ensures { result ≡ get_or members.now place 0 }
{
    match members.get(place as usize) {
        Some(member) => *member,
        None => 0,
    }
}

/// Whether every member is one of the holders.
fn all_hold(members: &[Rank], holders: &[Rank]) -> bool
    ensures { result ≡ list_all (λ r. is_in r holders.now) members.now }
{
    members.iter().all(|r| is_in(*r, holders))
}

/// Whether some member is one of the holders.
fn some_hold(members: &[Rank], holders: &[Rank]) -> bool
    ensures { result ≡ list_any (λ r. is_in r holders.now) members.now }
{
    members.iter().any(|r| is_in(*r, holders))
}

/// How many members are among the holders.
#[tactic(auto, using(crate::proofs::Asking::places_counted))]
pub fn holders_among(members: &[Rank], holders: &[Rank]) -> u64
    ensures value { result ≡ length (holding_places members.now holders.now) }
    ensures at_most { result ≤ length members.now }
{
    members.iter().filter(|r| is_in(**r, holders)).count() as u64
}

/// Whether a step on these members can read a buffer of this length that these ranks hold.
pub fn can_read(step: CollStep, members: &[Rank], len: u64, holders: &[Rank]) -> bool
    requires { 0 < length members.now }
    ensures { result ≡ can_read members.now step (spread_so len holders.now) }
{
    let in_blocks = len % members.len() as u64 == 0;
    match step {
        CollStep::Barrier => true,
        CollStep::Broadcast { root, .. } => is_in(member_at(members, root), holders),
        CollStep::Scatter { root, .. } => is_in(member_at(members, root), holders) && in_blocks,
        CollStep::Alltoall { .. } | CollStep::Reducescatter { .. } => {
            all_hold(members, holders) && in_blocks
        }
        CollStep::Gatherv { .. } => some_hold(members, holders),
        CollStep::Reduce { .. }
        | CollStep::Allreduce { .. }
        | CollStep::Gather { .. }
        | CollStep::Allgather { .. }
        | CollStep::Scan { .. }
        | CollStep::Exscan { .. } => all_hold(members, holders),
    }
}

/// How long the buffer is that a step on these members makes of one of this length that these ranks hold.
pub fn made_length(step: CollStep, members: &[Rank], len: u64, holders: &[Rank]) -> u64
    requires nonempty { 0 < length members.now }
    requires at_most { length members.now ≤ MOST_RANKS }
    requires short { len ≤ MOST_ELEMENTS }
    ensures value { result ≡ made_length members.now step (spread_so len holders.now) }
    ensures most { result ≤ MOST_RANKS * MOST_ELEMENTS }
{
    let members_count = members.len() as u64;
    match step {
        CollStep::Barrier => 0,
        CollStep::Gather { .. } | CollStep::Allgather { .. } => members_count * len,
        CollStep::Gatherv { .. } => holders_among(members, holders) * len,
        CollStep::Scatter { .. } | CollStep::Reducescatter { .. } => len / members_count,
        CollStep::Broadcast { .. }
        | CollStep::Reduce { .. }
        | CollStep::Allreduce { .. }
        | CollStep::Alltoall { .. }
        | CollStep::Scan { .. }
        | CollStep::Exscan { .. } => len,
    }
}

/// Who holds the buffer that a step on these members makes.
pub fn made_holders(alloc: Global, step: CollStep, members: &[Rank]) -> Result<RankList, AllocError>
    ensures { IfOk result (λ holders. holders ≡ made_holders members.now step) }
{
    match step {
        CollStep::Barrier => RankList::copied(alloc, &[]),
        CollStep::Reduce { root, .. }
        | CollStep::Gather { root, .. }
        | CollStep::Gatherv { root, .. } => RankList::copied(alloc, &[member_at(members, root)]),
        CollStep::Exscan { .. } => match members.split_first() {
            Some((_, others)) => RankList::copied(alloc, others),
            None => RankList::copied(alloc, &[]),
        },
        CollStep::Broadcast { .. }
        | CollStep::Allreduce { .. }
        | CollStep::Allgather { .. }
        | CollStep::Alltoall { .. }
        | CollStep::Scan { .. }
        | CollStep::Scatter { .. }
        | CollStep::Reducescatter { .. } => RankList::copied(alloc, members),
    }
}
