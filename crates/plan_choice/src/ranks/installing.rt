//! The calls that install a choice text on one rank.

ghost use Rattle.std.specs.Prelude.{List, None, true, false, ◌≡◌, ◌<◌, ◌≤◌, ◌+◌, ◌*◌, ◌^◌, [], ◌∷◌, IfOk, OnOk, is_some, flat_map, length};
ghost use Rattle.std.specs.Prelude.{map, sum_by};
ghost use Rattle.ptl_types.specs.declared.headers.AckRequest.TheVariants.{NoAck};
ghost use Rattle.coll_lang.specs.declared.choices.ChoiceKind.{ChoiceKind};
ghost use Rattle.coll_lang.specs.declared.choices.ChoiceKind.TheVariants.{Elect, Tickets};
ghost use Rattle.plan_core.specs.Plan.{from_to};
ghost use Rattle.rank_node.specs.Handles.{AreAllOf, no_handles, room_under};
ghost use Rattle.plan_choice.specs.texts.machine.Choices.{choice_at};
ghost use Rattle.plan_choice.specs.texts.machine.Counted.{steps_due, told_requests, told_steps};
ghost use Rattle.plan_choice.specs.texts.view.Calls.{install_calls, step_calls, word_calls};
ghost use Rattle.plan_choice.specs.texts.view.Calls.Call.{MeAppend, Trigger};
ghost use Rattle.plan_choice.specs.texts.view.Install.{before, counters_in, limits_of, steps, things_in, word_entry, rank_ops, works_of};
ghost use Rattle.plan_choice.specs.ranks.Given.{AreMade, HasRoom, IsWide};
ghost use Rattle.plan_choice.specs.ranks.Seats.{IsInstalled};

use crate::ranks::choice_rank::ChoiceRank;
use crate::ranks::region::{NOBODY, region};
use coll_lang::ChoiceKind;
use portals_ni::Nic;
use ptl_types::{
    AckRequest, AtomicOp, Descriptor, ElemType, Entry, GetArgs, Handle, HiddenDescriptorEvents,
    HiddenEntryEvents, Limits, List as MatchList, NoMemory, PutArgs, Rank, SwapOp, TriggeredOp,
};
use rank_node::{
    History, NodeHandles, alloc_index, make_counter, make_descriptor, make_entry, one, post,
};
use std::alloc::Global;

/// What an interface is opened with for so many steps.
fn limits_for(steps: u32) -> Limits
    requires { steps ≤ 64 }
    ensures { (ks : List ChoiceKind) → length ks ≡ steps → result ≡ limits_of ks }
{
    Limits {
        entries: steps,
        unexpected: 0,
        mds: 3 * steps,
        cts: 2 * steps + 2,
        eqs: 0,
        pts: 1,
        triggered: 3 * steps,
        msg: 8,
        atomic: 8,
        fetch_atomic: 8,
    }
}

/// The descriptor of a word, whose answers count on a counting event, if there is one.
fn word_at(start: u64, ct: Option<Handle>) -> Descriptor
    ensures { result ≡ record {
      start = start;
      length = 8;
      eq = None;
      ct = ct;
      count_send = false;
      count_reply = is_some ct;
      count_ack = false;
      hidden = HiddenDescriptorEvents.NONE;
    } }
{
    Descriptor {
        start,
        length: 8,
        eq: None,
        ct,
        count_send: false,
        count_reply: ct.is_some(),
        count_ack: false,
        hidden: HiddenDescriptorEvents::NONE,
    }
}

/// The two counting events and three descriptors of an elect. `counter` is the number of the first.
fn make_elect(
    nic: &mut Nic,
    kept: &mut NodeHandles,
    step: u32,
    counter: usize,
) -> Result<(), NoMemory>
    requires at_most { step < 64 }
    requires next { counter ≡ length kept.old.counters }
    requires all { AreAllOf nic.old kept.old }
    requires small { counter ≤ 130 }
    requires counters { length kept.old.counters + 2 ≤ kept.old.room.counters }
    requires descriptors { length kept.old.descriptors + 3 ≤ kept.old.room.descriptors }
    ensures { OnOk result ((ks : List ChoiceKind) →
        choice_at ks step ≡ Elect → counter ≡ 2 + before counters_in ks step →
        AreMade ks (step_calls ks step) nic.old nic.new kept.old kept.new) }
{
    let start = 32 * u64::from(step);
    make_counter(nic, kept)?;
    make_counter(nic, kept)?;
    make_descriptor(nic, kept, word_at(start + 8, None))?;
    let old = word_at(start + 16, Some(kept.counter(counter)));
    make_descriptor(nic, kept, old)?;
    let result = word_at(start + 24, Some(kept.counter(counter + 1)));
    make_descriptor(nic, kept, result)?;
    Ok(())
}

/// The counting event and two descriptors of tickets. `counter` is the number of the first.
fn make_tickets(
    nic: &mut Nic,
    kept: &mut NodeHandles,
    step: u32,
    counter: usize,
) -> Result<(), NoMemory>
    requires at_most { step < 64 }
    requires next { counter ≡ length kept.old.counters }
    requires all { AreAllOf nic.old kept.old }
    requires counters { length kept.old.counters + 1 ≤ kept.old.room.counters }
    requires descriptors { length kept.old.descriptors + 2 ≤ kept.old.room.descriptors }
    ensures { OnOk result ((ks : List ChoiceKind) →
        choice_at ks step ≡ Tickets → counter ≡ 2 + before counters_in ks step →
        AreMade ks (step_calls ks step) nic.old nic.new kept.old kept.new) }
{
    let start = 32 * u64::from(step);
    make_counter(nic, kept)?;
    make_descriptor(nic, kept, word_at(start + 8, None))?;
    let result = word_at(start + 24, Some(kept.counter(counter)));
    make_descriptor(nic, kept, result)?;
    Ok(())
}

/// How many counting events a step has.
fn counters_of(kind: ChoiceKind) -> usize
    ensures value { result ≡ counters_in kind }
    ensures at_most { result ≤ 2 }
{
    match kind {
        ChoiceKind::Elect => 2,
        ChoiceKind::Tickets => 1,
    }
}

/// How many descriptors and how many operations it has.
fn things_of(kind: ChoiceKind) -> usize
    ensures value { result ≡ things_in kind }
    ensures at_most { result ≤ 3 }
{
    match kind {
        ChoiceKind::Elect => 3,
        ChoiceKind::Tickets => 2,
    }
}

/// The counting events and descriptors of a step. `counter` is the number of its first counting event.
fn make_step(
    nic: &mut Nic,
    kept: &mut NodeHandles,
    kind: ChoiceKind,
    step: u32,
    counter: usize,
) -> Result<(), NoMemory>
    requires at_most { step < 64 }
    requires next { counter ≡ length kept.old.counters }
    requires all { AreAllOf nic.old kept.old }
    requires small { counter ≤ 130 }
    requires counters { length kept.old.counters + counters_in kind ≤ kept.old.room.counters }
    requires descriptors { length kept.old.descriptors + things_in kind ≤ kept.old.room.descriptors }
    ensures { OnOk result ((ks : List ChoiceKind) →
        choice_at ks step ≡ kind → counter ≡ 2 + before counters_in ks step →
        AreMade ks (step_calls ks step) nic.old nic.new kept.old kept.new) }
{
    match kind {
        ChoiceKind::Elect => make_elect(nic, kept, step, counter),
        ChoiceKind::Tickets => make_tickets(nic, kept, step, counter),
    }
}

/// The counting events and descriptors of all steps, step by step.
fn make_steps(nic: &mut Nic, kept: &mut NodeHandles, kinds: &[ChoiceKind]) -> Result<(), NoMemory>
    requires at_most { length kinds.now ≤ 64 }
    requires two { length kept.old.counters ≡ 2 }
    requires none { length kept.old.descriptors ≡ 0 }
    requires all { AreAllOf nic.old kept.old }
    requires room { HasRoom (flat_map (step_calls kinds.now) (steps kinds.now)) kept.old }
    ensures { OnOk result (AreMade kinds.now (flat_map (step_calls kinds.now) (steps kinds.now)) nic.old nic.new kept.old kept.new) }
{
    let mut counter = 2;
    for step in 0..kinds.len() {
        let kind = kinds[step];
        make_step(nic, kept, kind, step as u32, counter)?;
        counter += counters_of(kind);
    }
    Ok(())
}

/// The entry of a step's word on rank 0, which the step's number matches.
fn entry_of(step: u64) -> Entry
    requires { step ≤ 64 }
    ensures { result ≡ word_entry step }
{
    Entry {
        start: 32 * step,
        length: 8,
        ct: None,
        match_id: None,
        match_bits: step,
        ignore_bits: 0,
        min_free: 0,
        allow_put: true,
        allow_get: true,
        use_once: false,
        manage_local: false,
        no_truncate: false,
        count_comm: false,
        count_overflow: false,
        hidden: HiddenEntryEvents::NONE,
    }
}

/// The words of rank 0, to which all ranks send.
fn make_words(nic: &mut Nic, kept: &mut NodeHandles, count: u32) -> Result<(), NoMemory>
    requires at_most { count ≤ 64 }
    requires all { AreAllOf nic.old kept.old }
    requires room { length kept.old.entries + count ≤ kept.old.room.entries }
    ensures { OnOk result ((ks : List ChoiceKind) → AreMade ks (map MeAppend (from_to 0 count)) nic.old nic.new kept.old kept.new) }
{
    for step in 0..count {
        make_entry(nic, kept, MatchList::Priority, entry_of(u64::from(step)))?;
    }
    Ok(())
}

/// Where the answer to a request of a step goes.
fn answer_to(md: Handle, step: u64) -> GetArgs
    ensures { result ≡ record { md = md; local_offset = 0; length = 8; target = 0; pt = 0; match_bits = step; remote_offset = 0 } }
{
    GetArgs {
        md,
        local_offset: 0,
        length: 8,
        target: 0,
        pt: 0,
        match_bits: step,
        remote_offset: 0,
    }
}

/// What a rank gives to a step.
fn giving(md: Handle, step: u64) -> PutArgs
    ensures { result ≡ record {
      md = md;
      local_offset = 0;
      length = 8;
      ack = NoAck;
      target = 0;
      pt = 0;
      match_bits = step;
      remote_offset =
          0;
      hdr_data = 0;
    } }
{
    PutArgs {
        md,
        local_offset: 0,
        length: 8,
        ack: AckRequest::NoAck,
        target: 0,
        pt: 0,
        match_bits: step,
        remote_offset: 0,
        hdr_data: 0,
    }
}

/// The operations of an elect, whose handles begin at these numbers: a swap that puts the rank in where nobody is, a get of who is
/// there then, and the telling.
fn post_elect(
    nic: &mut Nic,
    kept: &NodeHandles,
    step: u32,
    counter: usize,
    descriptor: usize,
) -> Result<(), NoMemory>
    requires at_most { step < 64 }
    requires wide { IsWide nic.old }
    requires all { AreAllOf nic.old kept.now }
    requires counters { counter + 1 < length kept.now.counters }
    requires first { 1 < length kept.now.counters }
    requires descriptors { descriptor + 2 < length kept.now.descriptors }
    requires small { (counter ≤ 130) × (descriptor ≤ 192) }
    ensures { OnOk result ((ks : List ChoiceKind) →
        choice_at ks step ≡ Elect → counter ≡ 2 + before counters_in ks step → descriptor ≡ before things_in ks step →
        AreMade ks (map Trigger (works_of Elect step)) nic.old nic.new kept.now kept.now) }
{
    let bits = u64::from(step);
    let gives = giving(kept.descriptor_at(descriptor), bits);
    let old = answer_to(kept.descriptor_at(descriptor + 1), bits);
    let who = answer_to(kept.descriptor_at(descriptor + 2), bits);
    let swap = TriggeredOp::Swap(old, gives, SwapOp::Cswap, ElemType::U64, NOBODY);
    post(nic, swap, kept.counter(0), 1)?;
    post(nic, TriggeredOp::Get(who), kept.counter(counter), 1)?;
    post(
        nic,
        TriggeredOp::Inc(kept.counter(1), one()),
        kept.counter(counter + 1),
        1,
    )
}

/// The operations of tickets, whose handles begin at these numbers: an addition that gives what was there, and the telling.
fn post_tickets(
    nic: &mut Nic,
    kept: &NodeHandles,
    step: u32,
    counter: usize,
    descriptor: usize,
) -> Result<(), NoMemory>
    requires at_most { step < 64 }
    requires wide { IsWide nic.old }
    requires all { AreAllOf nic.old kept.now }
    requires counters { counter < length kept.now.counters }
    requires first { 1 < length kept.now.counters }
    requires descriptors { descriptor + 1 < length kept.now.descriptors }
    requires small { descriptor ≤ 192 }
    ensures { OnOk result ((ks : List ChoiceKind) →
        choice_at ks step ≡ Tickets → counter ≡ 2 + before counters_in ks step → descriptor ≡ before things_in ks step →
        AreMade ks (map Trigger (works_of Tickets step)) nic.old nic.new kept.now kept.now) }
{
    let bits = u64::from(step);
    let gives = giving(kept.descriptor_at(descriptor), bits);
    let mine = answer_to(kept.descriptor_at(descriptor + 1), bits);
    let add = TriggeredOp::FetchAtomic(mine, gives, AtomicOp::Sum, ElemType::U64);
    post(nic, add, kept.counter(0), 1)?;
    post(
        nic,
        TriggeredOp::Inc(kept.counter(1), one()),
        kept.counter(counter),
        1,
    )
}

/// The operations of a step, whose handles begin at these numbers.
fn post_step(
    nic: &mut Nic,
    kept: &NodeHandles,
    kind: ChoiceKind,
    step: u32,
    counter: usize,
    descriptor: usize,
) -> Result<(), NoMemory>
    requires at_most { step < 64 }
    requires wide { IsWide nic.old }
    requires all { AreAllOf nic.old kept.now }
    requires counters { counter + counters_in kind ≤ length kept.now.counters }
    requires first { 1 < length kept.now.counters }
    requires descriptors { descriptor + things_in kind ≤ length kept.now.descriptors }
    requires small { (counter ≤ 130) × (descriptor ≤ 192) }
    ensures { OnOk result ((ks : List ChoiceKind) →
        choice_at ks step ≡ kind → counter ≡ 2 + before counters_in ks step → descriptor ≡ before things_in ks step →
        AreMade ks (map Trigger (works_of kind step)) nic.old nic.new kept.now kept.now) }
{
    match kind {
        ChoiceKind::Elect => post_elect(nic, kept, step, counter, descriptor),
        ChoiceKind::Tickets => post_tickets(nic, kept, step, counter, descriptor),
    }
}

/// The operations of all steps, step by step.
fn post_all(nic: &mut Nic, kept: &NodeHandles, kinds: &[ChoiceKind]) -> Result<(), NoMemory>
    requires at_most { length kinds.now ≤ 64 }
    requires wide { IsWide nic.old }
    requires all { AreAllOf nic.old kept.now }
    requires counters { length kept.now.counters ≡ 2 + before counters_in kinds.now (length kinds.now) }
    requires descriptors { length kept.now.descriptors ≡ before things_in kinds.now (length kinds.now) }
    ensures { OnOk result (AreMade kinds.now (map Trigger (rank_ops kinds.now)) nic.old nic.new kept.now kept.now) }
{
    let mut counter = 2;
    let mut descriptor = 0;
    for step in 0..kinds.len() {
        let kind = kinds[step];
        post_step(nic, kept, kind, step as u32, counter, descriptor)?;
        counter += counters_of(kind);
        descriptor += things_of(kind);
    }
    Ok(())
}

/// How many local steps a rank makes for a step of the text: firings and answers.
fn told(kind: ChoiceKind) -> u64
    ensures value { result ≡ told_steps kind }
    ensures at_most { result ≤ 5 }
{
    match kind {
        ChoiceKind::Elect => 5,
        ChoiceKind::Tickets => 3,
    }
}

/// How many requests it makes.
fn asked(kind: ChoiceKind) -> u64
    ensures value { result ≡ told_requests kind }
    ensures at_most { result ≤ 2 }
{
    match kind {
        ChoiceKind::Elect => 2,
        ChoiceKind::Tickets => 1,
    }
}

/// How many local steps a rank makes for all steps of the text.
fn told_in(kinds: &[ChoiceKind]) -> u64
    requires { length kinds.now ≤ 64 }
    ensures sum { result ≡ sum_by (λ s. told_steps (choice_at kinds.now s)) (steps kinds.now) }
    ensures at_most { result ≤ 320 }
{
    let mut sum = 0;
    for i in 0..kinds.len() {
        sum += told(kinds[i]);
    }
    sum
}

/// How many requests it makes for all of them.
fn asked_in(kinds: &[ChoiceKind]) -> u64
    requires { length kinds.now ≤ 64 }
    ensures sum { result ≡ sum_by (λ s. told_requests (choice_at kinds.now s)) (steps kinds.now) }
    ensures at_most { result ≤ 128 }
{
    let mut sum = 0;
    for i in 0..kinds.len() {
        sum += asked(kinds[i]);
    }
    sum
}

/// How many local steps a rank makes in all: its start, its firings and answers, and on rank 0 what it receives of all ranks.
fn steps_of(rank: Rank, ranks: u32, kinds: &[ChoiceKind]) -> u64
    requires { length kinds.now ≤ 64 }
    ensures due { result ≡ steps_due ranks kinds.now rank }
    ensures at_most { result ≤ 2 ^ 40 }
{
    let own = 1 + told_in(kinds);
    if rank == 0 {
        own + u64::from(ranks) * asked_in(kinds)
    } else {
        own
    }
}

/// The words of rank 0. Other ranks have none.
fn make_own_words(
    nic: &mut Nic,
    kept: &mut NodeHandles,
    rank: Rank,
    kinds: &[ChoiceKind],
) -> Result<(), NoMemory>
    requires at_most { length kinds.now ≤ 64 }
    requires all { AreAllOf nic.old kept.old }
    requires room { length kept.old.entries + length kinds.now ≤ kept.old.room.entries }
    ensures { OnOk result (AreMade kinds.now (word_calls kinds.now rank) nic.old nic.new kept.old kept.new) }
{
    if rank == 0 {
        make_words(nic, kept, kinds.len() as u32)?;
        Ok(())
    } else {
        Ok(())
    }
}

/// The calls of the text on a new interface, in their order.
fn make_all(
    nic: &mut Nic,
    kept: &mut NodeHandles,
    rank: Rank,
    kinds: &[ChoiceKind],
) -> Result<(), NoMemory>
    requires at_most { length kinds.now ≤ 64 }
    requires wide { IsWide nic.old }
    requires none { kept.old ≡ no_handles (room_under (limits_of kinds.now)) }
    requires all { AreAllOf nic.old kept.old }
    ensures { OnOk result (AreMade kinds.now (install_calls kinds.now rank) nic.old nic.new kept.old kept.new) }
{
    alloc_index(nic)?;
    make_counter(nic, kept)?;
    make_counter(nic, kept)?;
    make_steps(nic, kept, kinds)?;
    make_own_words(nic, kept, rank, kinds)?;
    post_all(nic, kept, kinds)?;
    Ok(())
}

/// The interface of a rank with the calls of the text made on it, none of which is refused, and room for its whole history.
///
/// # Errors
///
/// There was no memory for it.
pub fn install(
    alloc: Global,
    rank: Rank,
    ranks: u32,
    kinds: &[ChoiceKind],
) -> Result<ChoiceRank, NoMemory>
    requires at_most { length kinds.now ≤ 64 }
    requires rank { rank < ranks }
    ensures { IfOk result (λ s. IsInstalled ranks kinds.now rank s) }
{
    let bytes = region(alloc, rank, kinds)?;
    let limits = limits_for(kinds.len() as u32);
    let mut kept = NodeHandles::with_room(alloc, &limits)?;
    let mut nic = Nic::open(alloc, rank, ranks, limits, bytes)?;
    make_all(&mut nic, &mut kept, rank, kinds)?;
    let due = steps_of(rank, ranks, kinds);
    let history = History::with_room(alloc, due)?;
    Ok(ChoiceRank::of(nic, kept, history))
}
