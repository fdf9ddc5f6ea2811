//! A row of places: what each place holds, and apart from that the links of what it holds.
ghost use Rattle.std.specs.Prelude.{◌≡◌, ◌+◌, ◌<◌, ◌^◌, Some, None, [], ◌++◌, length, replicate, get_or, slice_set, IsSome, IfOk, IfSome};
ghost use Rattle.std.specs.Prelude.{OnOk, OnErr};
ghost use Rattle.std.specs.Borrow.{sem};
ghost use Rattle.chain_list.specs.Joined.{no_links};

use crate::block::Block;
use crate::places::Places;
use ptl_types::NoMemory;
use std::alloc::Global;
use std::marker::Model;

/// The places of the neighbours of a node; `None` where there is none.
#[derive(Clone, Copy)]
pub struct Links {
    before: Option<u32>,
    after: Option<u32>,
}

/// No neighbours.
fn no_links() -> Links
    ensures { result ≡ no_links }
{
    Links {
        before: None,
        after: None,
    }
}

/// The row. The links lie apart from the values, so that a walk that looks at few bytes of each value waits for none of them to
/// find the next.
#[derive(Drop)]
pub struct Row<T> {
    values: Block<T>,
    links: Places<Links>,
}

impl<T> Model for Row<T> {
    ghost use Rattle.std.specs.Prelude.{◌≡◌, List, Option, length};
    ghost use Rattle.std.specs.Coded.{coded_list, coded_option};
    ghost use Rattle.chain_list.specs.NodeMap.{Node, node_code};
    ghost use Rattle.chain_list.specs.Joined.{joined};

    ghost Value = { List (Option (Node T)) };

    ghost coded = { coded_list (coded_option (node_code T.code)) };

    ghost view = { λ r. joined r.values r.links.items };

    ghost invariant = { λ r. length r.links.items ≡ length r.values };
}

impl<T> Row<T> {
    ghost use Rattle.chain_list.specs.NodeMap.{node};
    ghost use Rattle.chain_list.specs.RowLends.{lends_value_at};

    /// No places, which take no memory.
    pub(crate) fn new(alloc: Global) -> Row<T>
        ensures { result ≡ [] }
    {
        Row {
            values: Block::new(alloc),
            links: Places::new(alloc, no_links()),
        }
    }

    /// A row of `len` empty places.
    pub(crate) fn with_len(alloc: Global, len: usize) -> Result<Row<T>, NoMemory>
        ensures { IfOk result (λ r. r ≡ replicate len None) }
    {
        let links = Places::open(alloc, no_links(), len)?;
        let values = Block::with_len(alloc, len)?;
        Ok(Row { values, links })
    }

    /// How many places there are.
    pub(crate) fn len(&self) -> usize
        ensures { result ≡ length self.now }
    {
        self.values.len()
    }

    /// Adds empty places. Where there is no memory, all is as it was.
    pub(crate) fn grow(&mut self, more: usize) -> Result<(), NoMemory>
        requires { length self.old + more < 2 ^ 32 }
        ensures ok { OnOk result (self.new ≡ self.old ++ replicate more None) }
        ensures err { OnErr result (self.new ≡ self.old) }
    {
        self.links.reserve(more)?;
        self.values.grow(more)?;
        self.links.lengthen(more, no_links());
        Ok(())
    }

    /// Makes a node without neighbours at an empty place.
    pub(crate) fn put(&mut self, place: usize, value: T)
        requires within { place < length self.old }
        requires empty { get_or self.old place None ≡ None }
        ensures { self.new ≡ slice_set self.old place (Some (node value None None)) }
    {
        self.links.set(place, no_links());
        self.values.put(place, value);
    }

    /// Takes the node of a place away, and gives its value.
    pub(crate) fn take(&mut self, place: usize) -> T
        requires { IsSome (get_or self.old place None) }
        ensures value { IfSome (get_or self.old place None) (λ n. result ≡ n.value) }
        ensures places { self.new ≡ slice_set self.old place None }
    {
        self.values.take(place)
    }

    /// The value of the node of a place.
    pub(crate) fn value(&self, place: usize) -> &T
        requires { IsSome (get_or self.now place None) }
        ensures { IfSome (get_or self.now place None) (λ n. result.now ≡ n.value) }
    {
        self.values.get(place)
    }

    /// The value of the node of a place, to write to.
    pub(crate) fn value_mut(&mut self, place: usize) -> &mut T
        requires { IsSome (get_or self.old place None) }
        ensures* writes_back { sem 𝓛 (lends_value_at T.row self.entry place result) }
        ensures value { IfSome (get_or self.old place None) (λ n. result.now ≡ n.value) }
    {
        self.values.get_mut(place)
    }

    /// The places of the neighbours of the node of a place: before and after it.
    pub(crate) fn links(&self, place: usize) -> (Option<u32>, Option<u32>)
        requires { IsSome (get_or self.now place None) }
        ensures { IfSome (get_or self.now place None) (λ n. result ≡ (n.before, n.after)) }
    {
        let _size = self.values.len();
        let links = self.links.at(place);
        (links.before, links.after)
    }

    /// Sets which node lies before the node of a place.
    pub(crate) fn set_before(&mut self, place: usize, to: Option<u32>)
        requires { IsSome (get_or self.old place None) }
        ensures { IfSome (get_or self.old place None) (λ n. self.new ≡ slice_set self.old place (Some (node n.value to n.after))) }
    {
        let mut links = self.links.at(place);
        links.before = to;
        self.links.set(place, links);
    }

    /// Sets which node lies after the node of a place.
    pub(crate) fn set_after(&mut self, place: usize, to: Option<u32>)
        requires { IsSome (get_or self.old place None) }
        ensures { IfSome (get_or self.old place None) (λ n. self.new ≡ slice_set self.old place (Some (node n.value n.before to))) }
    {
        let mut links = self.links.at(place);
        links.after = to;
        self.links.set(place, links);
    }
}
