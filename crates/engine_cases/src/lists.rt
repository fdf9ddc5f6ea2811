//! Two lists of one index, from a first append to the last unlink.

ghost use Rattle.std.specs.Prelude.{◌≡◌, ◌+◌, ◌<◌, [], IfOk};
ghost use Rattle.match_lists.specs.Lists.{both};
ghost use Rattle.engine_cases.specs.Few.{HadFew};

use crate::answers::gives;
use chain_list::Steps;
use match_lists::Lists;
use ptl_types::{Entry, Handle, Header, List, NoMemory};
use std::alloc::Global;
use std::marker::Brand;
use std::process::Abort;
use std::sync::ledger::{Blank, Ledger};
use std::test::Fail;

fn entry(match_bits: u64, length: u64) -> Entry {
    Entry {
        length,
        match_bits,
        manage_local: true,
        no_truncate: true,
        ..Entry::PLAIN
    }
}

fn header(match_bits: u64, length: u64) -> Header {
    Header {
        source: 1,
        match_bits,
        length,
        ..Header::PLAIN
    }
}

const FIRST: Handle = Handle { slot: 0, stamp: 0 };

const SECOND: Handle = Handle { slot: 1, stamp: 1 };

const THIRD: Handle = Handle { slot: 2, stamp: 2 };

const FOURTH: Handle = Handle { slot: 3, stamp: 3 };

/// Two lists of a test's own.
struct Own {
    lists: Lists,
}

// Written out, so that letting one go is one call: docs/DECISIONS.md, "Large types have a drop of their own".
impl Drop for Own {
    fn drop(self) {
        let Own { lists: _ } = self;
    }
}

/// Two empty lists.
fn opened(alloc: Global, limit: u32, slots: u32) -> Result<Own, NoMemory>
    ensures empty { IfOk result (λ o. o.lists ≡ both [] [] limit slots 0) }
    ensures few { IfOk result (λ o. HadFew 0 o.lists) }
{
    let lists = Lists::open(alloc, limit, slots)?;
    Ok(Own { lists })
}

/// Links an entry under the slot after those of the earlier ones. All that a test then knows of the lists is how many there were.
fn links<L: Ledger>(lists: &mut Lists, list: List, slot: u32, entry: Entry, steps: &mut Steps<L>)
    requires few { HadFew slot lists.old }
    requires limit { slot < lists.old.limit }
    requires slots { slot < lists.old.slots }
    ensures few { HadFew (slot + 1) lists.new }
    ensures limit { lists.new.limit ≡ lists.old.limit }
    ensures slots { lists.new.slots ≡ lists.old.slots }
{
    let stamp = slot as u64;
    lists.append(list, Handle { slot, stamp }, entry, steps);
}

/// Such two are found, and unlinked by handle.
fn found_and_unlinked<L: Ledger>(rt: &impl Abort, lists: &mut Lists, steps: &mut Steps<L>) {
    let found = lists.find(&header(5, 3), true, steps);
    gives!(rt; found, Some((List::Priority, FIRST)));
    let found = lists.find(&header(5, 5), true, steps);
    gives!(rt; found, Some((List::Overflow, SECOND)));
    gives!(rt; lists.find(&header(5, 5), false, steps), None);
    gives!(rt; lists.names_ct(FIRST, steps), false);
    gives!(rt; lists.unlink(FIRST, steps).is_some(), true);
    gives!(rt; lists.unlink(FIRST, steps).is_none(), true);
    gives!(rt; lists.get(FIRST, steps).is_none(), true);
    gives!(rt; lists.get(SECOND, steps).is_some(), true);
}

/// Two lists are empty at first.
fn begin_empty(rt: &impl Abort, alloc: Global) -> Result<(), Fail> {
    let own = opened(alloc, 2, 3)?;
    gives!(rt; own.lists.is_empty(), true);
    Ok(())
}

/// Two entries, one in each list.
fn one_in_each<L: Ledger>(rt: &impl Abort, lists: &mut Lists, steps: &mut Steps<L>)
    requires few { HadFew 0 lists.old }
    requires limit { lists.old.limit ≡ 2 }
    requires slots { lists.old.slots ≡ 3 }
{
    links(lists, List::Priority, 0, entry(5, 4), steps);
    links(lists, List::Overflow, 1, entry(5, 9), steps);
    found_and_unlinked(rt, lists, steps);
}

fn in_two_lists<L: Ledger>(
    rt: &impl Abort,
    alloc: Global,
    steps: &mut Steps<L>,
) -> Result<(), Fail> {
    begin_empty(rt, alloc)?;
    let mut own = opened(alloc, 2, 3)?;
    one_in_each(rt, &mut own.lists, steps);
    Ok(())
}

fn two_entries<L: Ledger>(rt: &impl Abort, alloc: Global, blank: Blank) -> Result<(), Fail>
    requires name { blank.name ≡ L.name }
    requires parts { blank.parts ≡ L.parts }
    requires one { blank.parts ≡ 1 }
{
    let mut steps = Steps::<L>::start(blank);
    in_two_lists(rt, alloc, &mut steps)
}

/// An entry of four bytes that ignores these bits.
fn ignoring(match_bits: u64, ignore_bits: u64) -> Entry {
    Entry {
        ignore_bits,
        ..entry(match_bits, 4)
    }
}

/// 2, those below 8, 5.
fn link_three<L: Ledger>(lists: &mut Lists, steps: &mut Steps<L>)
    requires few { HadFew 0 lists.old }
    requires limit { lists.old.limit ≡ 4 }
    requires slots { lists.old.slots ≡ 4 }
    ensures few { HadFew 3 lists.new }
    ensures limit { lists.new.limit ≡ 4 }
    ensures slots { lists.new.slots ≡ 4 }
{
    links(lists, List::Priority, 0, entry(2, 4), steps);
    links(lists, List::Priority, 1, ignoring(0, 7), steps);
    links(lists, List::Priority, 2, entry(5, 4), steps);
}

/// Without the second of three.
fn unlink_second<L: Ledger>(lists: &mut Lists, steps: &mut Steps<L>)
    requires few { HadFew 3 lists.old }
    ensures few { HadFew 3 lists.new }
    ensures limit { lists.new.limit ≡ lists.old.limit }
    ensures slots { lists.new.slots ≡ lists.old.slots }
{
    let _older = lists.unlink(SECOND, steps);
}

/// The same without those below 8, and then with them after the others.
fn link_turned<L: Ledger>(lists: &mut Lists, steps: &mut Steps<L>)
    requires few { HadFew 0 lists.old }
    requires limit { lists.old.limit ≡ 4 }
    requires slots { lists.old.slots ≡ 4 }
{
    link_three(lists, steps);
    unlink_second(lists, steps);
    links(lists, List::Priority, 3, ignoring(0, 7), steps);
}

/// Looks for a message of so many match bits.
fn gives_first<L: Ledger>(
    rt: &impl Abort,
    lists: &Lists,
    match_bits: u64,
    first: Option<Handle>,
    steps: &mut Steps<L>,
) {
    let wanted = match first {
        Some(handle) => Some((List::Priority, handle)),
        None => None,
    };
    let found = lists.find(&header(match_bits, 3), false, steps);
    gives!(rt; found, wanted);
}

/// Of 2, those below 8, 5 the first takes the message.
fn first_of_three<L: Ledger>(rt: &impl Abort, lists: &mut Lists, steps: &mut Steps<L>) {
    gives_first(rt, lists, 2, Some(FIRST), steps);
    gives_first(rt, lists, 5, Some(SECOND), steps);
    gives_first(rt, lists, 10, None, steps);
    gives!(rt; lists.unlink(SECOND, steps).is_some(), true);
}

fn in_three_lists<L: Ledger>(
    rt: &impl Abort,
    alloc: Global,
    steps: &mut Steps<L>,
) -> Result<(), Fail> {
    let mut own = opened(alloc, 4, 4)?;
    link_three(&mut own.lists, steps);
    first_of_three(rt, &mut own.lists, steps);
    Ok(())
}

/// So it does where those below 8 stand after the others, and then without 5.
fn first_of_turned<L: Ledger>(rt: &impl Abort, lists: &mut Lists, steps: &mut Steps<L>) {
    gives_first(rt, lists, 5, Some(THIRD), steps);
    gives_first(rt, lists, 6, Some(FOURTH), steps);
    gives!(rt; lists.unlink(THIRD, steps).is_some(), true);
    gives_first(rt, lists, 5, Some(FOURTH), steps);
}

fn in_turned_lists<L: Ledger>(
    rt: &impl Abort,
    alloc: Global,
    steps: &mut Steps<L>,
) -> Result<(), Fail> {
    let mut own = opened(alloc, 4, 4)?;
    link_turned(&mut own.lists, steps);
    first_of_turned(rt, &mut own.lists, steps);
    Ok(())
}

fn in_both<L: Ledger>(rt: &impl Abort, alloc: Global, steps: &mut Steps<L>) -> Result<(), Fail> {
    in_three_lists(rt, alloc, steps)?;
    in_turned_lists(rt, alloc, steps)
}

fn wild_entries<L: Ledger>(rt: &impl Abort, alloc: Global, blank: Blank) -> Result<(), Fail>
    requires name { blank.name ≡ L.name }
    requires parts { blank.parts ≡ L.parts }
    requires one { blank.parts ≡ 1 }
{
    let mut steps = Steps::<L>::start(blank);
    in_both(rt, alloc, &mut steps)
}

/// Four entries, one after the other.
fn link_four<L: Ledger>(lists: &mut Lists, entries: &[Entry; 4], steps: &mut Steps<L>)
    requires few { HadFew 0 lists.old }
    requires limit { lists.old.limit ≡ 4 }
    requires slots { lists.old.slots ≡ 4 }
{
    links(lists, List::Priority, 0, entries[0], steps);
    links(lists, List::Priority, 1, entries[1], steps);
    links(lists, List::Priority, 2, entries[2], steps);
    links(lists, List::Priority, 3, entries[3], steps);
}

/// Four entries, each of which takes the message: they take it in the order in which they were linked.
fn take_in_turn<L: Ledger>(
    rt: &impl Abort,
    lists: &mut Lists,
    header: &Header,
    steps: &mut Steps<L>,
) {
    for handle in [FIRST, SECOND, THIRD, FOURTH] {
        let found = lists.find(header, false, steps);
        gives!(rt; found, Some((List::Priority, handle)));
        gives!(rt; lists.unlink(handle, steps).is_some(), true);
    }
    gives!(rt; lists.find(header, false, steps).is_none(), true);
}

fn taken_in_turn<L: Ledger>(
    rt: &impl Abort,
    alloc: Global,
    entries: &[Entry; 4],
    header: &Header,
    steps: &mut Steps<L>,
) -> Result<(), Fail> {
    let mut own = opened(alloc, 4, 4)?;
    link_four(&mut own.lists, entries, steps);
    take_in_turn(rt, &mut own.lists, header, steps);
    Ok(())
}

const WHOLE: Entry = Entry {
    length: 4,
    match_bits: 0x0123_4567_89AB_CDEF,
    manage_local: true,
    no_truncate: true,
    ..Entry::PLAIN
};

const UPPER_48: Entry = Entry {
    match_bits: 0x0123_4567_89AB_0000,
    ignore_bits: 0xFFFF,
    ..WHOLE
};

const UPPER_24: Entry = Entry {
    match_bits: 0x0123_4500_0000_0000,
    ignore_bits: 0xFF_FFFF_FFFF,
    ..WHOLE
};

const OTHER: Entry = Entry {
    match_bits: 0x8123_4567_89AB_CDEF,
    ignore_bits: 1 << 63,
    ..WHOLE
};

/// One entry ignores no bits, one the lowest 16, one the lowest 40, one the highest.
static ORDERS: [[Entry; 4]; 4] = [
    [WHOLE, UPPER_48, UPPER_24, OTHER],
    [UPPER_48, UPPER_24, OTHER, WHOLE],
    [UPPER_24, OTHER, WHOLE, UPPER_48],
    [OTHER, WHOLE, UPPER_48, UPPER_24],
];

fn orders() -> &'static [[Entry; 4]] {
    &ORDERS
}

/// In each order the first takes the message.
fn in_each_order<L: Ledger>(
    rt: &impl Abort,
    alloc: Global,
    steps: &mut Steps<L>,
) -> Result<(), Fail> {
    let header = header(0x0123_4567_89AB_CDEF, 3);
    for entries in orders() {
        taken_in_turn(rt, alloc, entries, &header, steps)?;
    }
    Ok(())
}

fn kinds_of_ignored_bits<L: Ledger>(
    rt: &impl Abort,
    alloc: Global,
    blank: Blank,
) -> Result<(), Fail>
    requires name { blank.name ≡ L.name }
    requires parts { blank.parts ≡ L.parts }
    requires one { blank.parts ≡ 1 }
{
    let mut steps = Steps::<L>::start(blank);
    in_each_order(rt, alloc, &mut steps)
}

/// One entry comes and goes.
fn comes_and_goes<L: Ledger>(rt: &impl Abort, lists: &mut Lists, turn: u64, steps: &mut Steps<L>)
    requires empty { lists.old ≡ both [] [] 1 1 turn }
    requires turn { turn < 1000 }
    ensures empty { lists.new ≡ both [] [] 1 1 (turn + 1) }
{
    lists.append(List::Priority, FIRST, entry(turn, 4), steps);
    let header = header(turn, 3);
    let found = lists.find(&header, true, steps);
    gives!(rt; found, Some((List::Priority, FIRST)));
    gives!(rt; lists.unlink(FIRST, steps).is_some(), true);
    gives!(rt; lists.find(&header, true, steps).is_none(), true);
}

/// It does so a thousand times, each time with other match bits.
fn a_thousand_times<L: Ledger>(rt: &impl Abort, lists: &mut Lists, steps: &mut Steps<L>)
    requires empty { lists.old ≡ both [] [] 1 1 0 }
{
    for turn in 0..1000u64 {
        comes_and_goes(rt, lists, turn, steps);
    }
}

fn in_one_place<L: Ledger>(rt: &impl Abort, alloc: Global, blank: Blank) -> Result<(), Fail>
    requires name { blank.name ≡ L.name }
    requires parts { blank.parts ≡ L.parts }
    requires one { blank.parts ≡ 1 }
{
    let mut own = opened(alloc, 1, 1)?;
    let mut steps = Steps::<L>::start(blank);
    a_thousand_times(rt, &mut own.lists, &mut steps);
    Ok(())
}

#[test]
fn the_first_that_fits_takes_the_message(rt: HostRuntime) -> Result<(), Fail> {
    two_entries::<Brand>(&rt, rt.alloc(), Blank::new(1))
}

#[test]
fn entries_that_ignore_bits_stand_in_the_order_of_the_list(rt: HostRuntime) -> Result<(), Fail> {
    wild_entries::<Brand>(&rt, rt.alloc(), Blank::new(1))
}

#[test]
fn the_first_takes_the_message_whichever_bits_it_ignores(rt: HostRuntime) -> Result<(), Fail> {
    kinds_of_ignored_bits::<Brand>(&rt, rt.alloc(), Blank::new(1))
}

#[test]
fn an_entry_is_linked_and_unlinked_a_thousand_times(rt: HostRuntime) -> Result<(), Fail> {
    in_one_place::<Brand>(&rt, rt.alloc(), Blank::new(1))
}
