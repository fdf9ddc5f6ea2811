//! One rank.

ghost use Rattle.std.specs.Prelude.{ℕ, ◌≡◌, ◌↔◌, ◌<◌, ◌≤◌, ◌+◌, ◌^◌, [], false, Some, IsTrue, IfOk, length, map, count_by, nat_lt};
ghost use Rattle.std.specs.Prelude.{replicate, slice_get};
ghost use Rattle.ni_model.specs.Answers.{is_awaited};
ghost use Rattle.ni_model.specs.Ready.{is_ready, target_at};
ghost use Rattle.ni_model.specs.Tables.{lookup};
ghost use Rattle.plan_core.specs.Plan.{Plan};
ghost use Rattle.plan_core.specs.Values.{Inputs};
ghost use Rattle.plan_core.specs.calls.RankOps.{done_threshold};
ghost use Rattle.cuts.specs.view.Slots.{Slots, done_ct};
ghost use Rattle.cuts.specs.histories.History.{IsDue, is_lane, is_start, made_by};
ghost use Rattle.cuts.specs.histories.History.Local.{Receive as Received, Fire as Fired};
ghost use Rattle.cuts.specs.histories.System.{Histories};
ghost use Rattle.cuts.specs.done.Done.{HasCounted};
ghost use Rattle.rank_node.specs.Copies.{listed};
ghost use Rattle.rank_node.specs.Done.{HasFinished, StandsAs};
ghost use Rattle.rank_node.specs.Gates.{may_go, open_numbers};
ghost use Rattle.rank_node.specs.Handles.{Agrees};
ghost use Rattle.rank_node.specs.Node.{IsCompiled, IsPrepared, IsNode, IsStarted, fired_node, gated_node, received_node, task_from};
ghost use Rattle.rank_node.specs.Node.{task_of};

use crate::choice::{may_fire, open_at, open_count};
use crate::compiled::Compiled;
use crate::gates::Gates;
use crate::history::History;
use crate::install::{counter_of, make_calls};
use crate::kept::NodeHandles;
use crate::start::{raise_go, start_cells};
use portals_ni::{Nic, SpareBuffers};
use ptl_types::{Bytes, Call, Count, Lane, LocalStep, Message, NoMemory, Rank};
use std::alloc::Global;
use std::marker::Model;
use std::mem;
use std::snapshot::Snapshot;

/// One rank: what is compiled for it, its interface with the handles that it gave, its history, and a buffer for what came before
/// the start. The interface has the region; the bytes that it began with, and the calls that prepared it, are known in clauses alone.
pub struct Node {
    compiled: Compiled,
    began: Snapshot<Bytes>,
    called: Snapshot<Vec<Call>>,
    nic: Nic,
    kept: NodeHandles,
    history: History,
    buffer: Vec<u8>,
    strays: u32,
    gates: Gates,
    // The rooms of the messages that it received.
    spares: SpareBuffers,
}

impl Model for Node {
    ghost use Rattle.std.specs.Prelude.{◌≤◌, vec_capacity};
    ghost use Rattle.rank_node.specs.Node.{NodeState, IsNode, task_from};

    ghost Value = { NodeState };

    ghost view = { λ n. record {
      task = task_from n.compiled n.began.value.list n.called.value.items;
      kept = n.kept;
      diary =
          n.history;
      nic = n.nic;
      strays = n.strays;
      closed = n.gates;
    } };

    ghost invariant = { λ n. IsNode (record {
      task = task_from n.compiled n.began.value.list n.called.value.items;
      kept = n.kept;
      diary =
          n.history;
      nic = n.nic;
      strays = n.strays;
      closed = n.gates;
    }) × (n.compiled.longest ≤ vec_capacity n.buffer) };
}

// Written out, so that letting one go is one call: docs/DECISIONS.md, "Large types have a drop of their own".
impl Drop for Node {
    fn drop(self) {
        let Node {
            compiled: _,
            began: _,
            called: _,
            nic: _,
            kept: _,
            history: _,
            buffer: _,
            strays: _,
            gates: _,
            spares: _,
        } = self;
    }
}

/// Makes the compiled calls on a new interface of this region. There is room for all handles before the first call.
fn prepare(
    alloc: Global,
    compiled: &Compiled,
    region: Bytes,
) -> Result<(Nic, NodeHandles), NoMemory>
    requires { IsCompiled (task_from compiled.now region.list compiled.now.calls.items) }
    ensures { IfOk result (λ p. IsPrepared (task_from compiled.now region.list compiled.now.calls.items) p.0 p.1) }
{
    let mut kept = NodeHandles::with_room(alloc, &compiled.limits)?;
    let mut nic = Nic::open(
        alloc,
        compiled.rank,
        compiled.ranks,
        compiled.limits,
        region,
    )?;
    make_calls(&mut nic, &mut kept, &compiled.cells, &compiled.calls)?;
    Ok((nic, kept))
}

/// A new history with room for a start, so many firings, the messages of the task and so many strays.
fn diary(alloc: Global, compiled: &Compiled, firings: u32, strays: u32) -> Result<History, NoMemory>
    ghost bounds: { ℕ × ℕ }
    requires { compiled.now.receipts < 2 ^ 33 }
    ensures { IfOk result (λ h. h ≡ record {
      locals = [];
      steps = [];
      room = 1 + (firings + (compiled.now.receipts + strays));
      receipts =
          bounds.0;
      bytes = bounds.1;
    }) }
{
    let receipts = compiled.receipts + u64::from(strays);
    History::with_room(alloc, 1 + (u64::from(firings) + receipts))
}

impl Node {
    /// Prepares the interface by the compiled calls, of which none is refused. The history is empty. The memory for the whole run
    /// is taken here: for the steps (those of the plan, and the receipts of `strays` further messages of at most 64 bytes), and for
    /// the handles of the entries that come with the start.
    pub fn install(alloc: Global, compiled: Compiled, strays: u32) -> Result<Node, NoMemory>
        requires { IsCompiled (task_of compiled) }
        ensures task { IfOk result (λ n. n.task ≡ task_of compiled) }
        ensures history { IfOk result (λ n. n.diary.locals ≡ []) }
        ensures steps { IfOk result (λ n. n.diary.steps ≡ []) }
        ensures strays { IfOk result (λ n. n.strays ≡ strays) }
        ensures gates { IfOk result (λ n. n.closed ≡ replicate compiled.ranks false) }
    {
        let mut compiled = compiled;
        let began = Snapshot::of(&compiled.region);
        let region = mem::replace(&mut compiled.region, Bytes::empty(alloc));
        let (nic, kept) = prepare(alloc, &compiled, region)?;
        // The calls were made, and their memory goes: the next rank's calls may lie there.
        let called = Snapshot::of(&compiled.calls);
        compiled.calls = Vec::new(alloc);
        let history = diary(alloc, &compiled, nic.pending(), strays)?;
        let buffer = Vec::with_capacity(alloc, compiled.longest as usize)?;
        let gates = Gates::all_open(alloc, compiled.ranks)?;
        let spares = SpareBuffers::with_capacity(alloc, compiled.receipts)?;
        Ok(Node {
            compiled,
            began,
            called,
            nic,
            kept,
            history,
            buffer,
            strays,
            gates,
            spares,
        })
    }

    /// The steps, oldest first. `kept` is what holds of a node whatever was done with it.
    pub fn history(&self) -> &[LocalStep]
        ensures value { result.now ≡ self.now.diary.steps }
        ensures listed { map listed self.now.diary.locals ≡ self.now.diary.steps }
        ensures kept { IsNode self.now }
    {
        self.history.steps()
    }

    /// Tells what holds of a node whatever was done with it. The call does nothing.
    pub fn recall_history(&self)
        ensures listed { map listed self.now.diary.locals ≡ self.now.diary.steps }
        ensures kept { IsNode self.now }
    {
        let _ = self.history();
    }

    /// Whether the rank has started.
    pub fn started(&self) -> bool
        ensures { result ≡ nat_lt 0 (count_by is_start self.now.diary.locals) }
    {
        self.history.started()
    }

    /// Its interface.
    pub fn nic(&self) -> &Nic
        ensures { result.now ≡ self.now.nic }
    {
        &self.nic
    }

    /// The counting event of what is done. Where it has counted as much as the plan says for this rank, the cells hold their final
    /// bytes, whatever the other ranks have still to do; the operations that are left are sends, and none where completion is remote.
    pub fn done(&self) -> Count
        ensures counter { (k : Slots) → Agrees k self.now.kept → lookup (done_ct k) self.now.nic.cts.live ≡ Some result }
        ensures finished { (plan : Plan) (inputs : Inputs) (slots : ℕ → Slots) (world : Histories) (r : ℕ) →
            StandsAs plan inputs slots world r self.now → HasCounted result (done_threshold plan r) →
            HasFinished plan inputs slots world r self.now }
    {
        self.counted()
    }

    /// What the done counter has counted.
    fn counted(&self) -> Count
        ensures value { (k : Slots) → Agrees k self.now.kept → lookup (done_ct k) self.now.nic.cts.live ≡ Some result }
        ensures kept { IsNode self.now }
    {
        match self.nic.ct_get(self.kept.counter(0)) {
            Ok(count) => count,
            Err(_) => unreachable!(),
        }
    }

    /// Whether an answer is awaited.
    pub fn awaits(&self) -> bool
        ensures { result ≡ is_awaited self.now.nic.mds.live }
    {
        self.nic.awaits_any()
    }

    /// Notes whether the request lane to a rank has no room now.
    pub fn set_closed(&mut self, d: Rank, closed: bool)
        requires { d < length self.old.closed }
        ensures { self.new ≡ gated_node d closed self.old }
    {
        self.gates.set(d, closed);
    }

    /// How many operations are ready and would find room for their message, if they have one.
    pub fn ready(&self) -> u32
        ensures { result ≡ length (open_numbers self.now.closed self.now.nic) }
    {
        open_count(&self.nic, &self.gates)
    }

    /// The number of the one at position `i` among these, by rising number, from 0.
    pub fn ready_at(&self, i: u32) -> u32
        requires { i < length (open_numbers self.now.closed self.now.nic) }
        ensures { slice_get (open_numbers self.now.closed self.now.nic) i ≡ Some result }
    {
        open_at(&self.nic, &self.gates, i)
    }

    /// Whether the operation of this number is one of them.
    pub fn may_fire(&self, number: u32) -> bool
        ensures { result ≡ may_go self.now.closed self.now.nic number }
    {
        may_fire(&self.nic, &self.gates, number)
    }

    /// Fires an operation that is ready, and gives its message; `None` exactly for one that names no rank, an increment or a set. It
    /// takes no memory. Its lane is the caller's to look at. The message may use the room of one that the rank received.
    pub fn fire(&mut self, number: u32) -> Option<Message>
        requires { IsTrue (is_ready self.old.nic number) }
        ensures message { result ≡ made_by self.old.nic (Fired number) }
        ensures none { (result ≡ None) ↔ (target_at self.old.nic number ≡ None) }
        ensures step { self.new ≡ fired_node number self.old }
    {
        self.history.note_fire(number);
        self.nic.fire_using(number, &mut self.spares)
    }

    /// Handles a message that arrived, and gives the answer to send back, if any. It takes no memory. Conditions: the message is
    /// of that source and lane and for this rank; on the answer lane an answer is awaited; and there is room for one receipt more
    /// and for the message's bytes.
    pub fn receive(&mut self, source: Rank, lane: Lane, message: Message) -> Option<Message>
        requires source { message.header.source ≡ source }
        requires target { message.header.target ≡ self.old.nic.rank }
        requires lane { IsTrue (is_lane lane message.header.kind) }
        requires due { IsDue self.old.nic lane message }
        requires receipts { 0 < self.old.diary.receipts }
        requires bytes { length message.bytes ≤ self.old.diary.bytes }
        ensures answer { result ≡ made_by self.old.nic (Received source lane message) }
        ensures step { self.new ≡ received_node source lane message self.old }
    {
        self.history.note_receipt(source, lane, &message);
        self.nic.deliver_keeping(message, &mut self.spares).answer
    }

    /// Starts the rank: what came early is brought into its cells, their entries are appended, and the host raises the counting
    /// event of its go cell. It takes no memory. Condition: it hasn't started.
    pub fn start(&mut self)
        requires { count_by is_start self.old.diary.locals ≡ 0 }
        ensures { IsStarted self.old self.new }
    {
        start_cells(
            &mut self.nic,
            &mut self.kept,
            &mut self.buffer,
            self.compiled.longest,
            &self.compiled.cells,
            &self.compiled.own,
        );
        let go = counter_of(&self.kept, &self.compiled.cells, self.compiled.go);
        raise_go(&mut self.nic, go);
        self.history.note_start();
    }
}
