//! Portal table indices, match entries and memory descriptors (Portals 4.3, portal table, match list entries, memory
//! descriptors).

ghost use Rattle.std.specs.Prelude.{◌≡◌, option_copied, ◌<◌, IfOk, ◌+◌};
ghost use Rattle.target_engine.specs.Sides.{SlotBelow};
ghost use Rattle.match_lists.specs.unexpected.Places.{header_at};
ghost use Rattle.ni_model.specs.Answers.{is_awaited};
ghost use Rattle.ni_model.specs.Tables.{has_slot};
ghost use Rattle.ni_model.specs.Calls.{ends, Makes, entry_taken, pt_alloc, pt_free, me_append, me_unlink, me_search, md_bind, awaits};

use crate::nic::Nic;
use crate::posted_op::tell;
use ni_model::IndexedHeader;
use ptl_types::{Appended, Descriptor, Entry, Handle, List, NiFault, UnexpectedHeader};
use target_engine::AppendArgs;

impl Nic {
    /// Allocates a portal table index, with an event queue or none. `Stale` where the queue isn't allocated, `NoSpace` where
    /// the index is at or past the limit, `InUse` where it is allocated already.
    pub fn pt_alloc(&mut self, index: u32, eq: Option<Handle>) -> Result<(), NiFault>
        ensures does { ends self.new result ≡ pt_alloc index eq self.old }
    {
        self.target.pt_alloc(&self.eqs, index, eq)
    }

    /// Frees a portal table index. `Stale` where it isn't allocated, `InUse` where one of its lists holds an entry or a header
    /// of it waits.
    pub fn pt_free(&mut self, index: u32) -> Result<(), NiFault>
        ensures does { ends self.new result ≡ pt_free index self.old }
    {
        self.target.pt_free(index)
    }

    /// Appends a match entry to a list of an index (Portals 4.3, match list entries). To the priority list, a use-once entry
    /// takes the oldest unexpected header that it matches and allows, and isn't linked then; a persistent one takes all of them
    /// and is linked. To the overflow list it is linked. `Stale` where the index isn't allocated or the entry's counting event
    /// isn't, `NoSpace` where as many entries as the limit are linked or all 2^64 - 1 stamps were given, `OutOfRegion` where its
    /// part reaches past the region. An unlinked entry keeps its record, and so its slot, while a header lies in its memory: slots
    /// are below the limits of entries and of headers together.
    pub fn me_append(&mut self, pt: u32, list: List, entry: Entry) -> Result<Appended, NiFault>
        ensures makes { Makes (entry_taken self.old.indices self.new.headers.unexpected) (λ slot. me_append slot pt list entry self.old)
            (ends self.new result) }
        ensures slot { IfOk result (SlotBelow (self.old.limits.entries + self.old.limits.unexpected)) }
    {
        let args = AppendArgs { pt, list, entry };
        let (appended, counted) = self
            .target
            .append(&self.region, &mut self.cts, &mut self.eqs, args)?;
        tell(&mut self.pending, &self.cts, counted);
        Ok(appended)
    }

    /// Unlinks a match entry. `Stale` where it isn't linked, `InUse` where an unexpected header lies in its memory.
    pub fn me_unlink(&mut self, me: Handle) -> Result<(), NiFault>
        ensures does { ends self.new result ≡ me_unlink me self.old }
    {
        self.target.unlink(me)
    }

    /// Looks for the oldest unexpected header of an index that the entry matches and allows, whether the entry is use-once or
    /// not, and deletes it where asked (Portals 4.3, searching). `None` exactly where there is none, `Stale` exactly where the
    /// index isn't allocated.
    pub fn me_search(
        &mut self,
        pt: u32,
        entry: &Entry,
        delete: bool,
    ) -> Result<Option<UnexpectedHeader>, NiFault>
        ensures does { ends self.new result ≡ me_search pt entry.now delete self.old }
    {
        self.target.search(&mut self.eqs, pt, entry, delete)
    }

    /// The unexpected header number `i` of an index in the order of arrival, from 0; `None` exactly where there are no more
    /// than `i`. It goes through the headers before it: a walk over all takes `headers`.
    pub fn header(&self, pt: u32, i: u32) -> Option<&UnexpectedHeader>
        ensures value { option_copied result ≡ header_at pt i self.now.headers.unexpected }
    {
        self.target.header(pt, i)
    }

    /// The unexpected headers of all indices, in the order of arrival.
    pub fn headers(&self) -> &[IndexedHeader]
        ensures value { result.now ≡ self.now.headers.unexpected }
    {
        self.target.headers()
    }

    /// Binds a memory descriptor and answers its handle. `Stale` where its queue or its counting event isn't allocated,
    /// `NoSpace` where as many as the limit are bound or all 2^64 - 1 stamps were given, `OutOfRegion` where its part reaches
    /// past the region.
    pub fn md_bind(&mut self, md: Descriptor) -> Result<Handle, NiFault>
        ensures makes { Makes (λ slot. has_slot slot self.old.mds.live) (λ slot. md_bind slot md self.old) (ends self.new result) }
        ensures slot { IfOk result (λ h. h.slot < self.old.limits.mds) }
    {
        self.initiator.bind(&self.region, &self.cts, &self.eqs, md)
    }

    /// How many answers a descriptor awaits; `Stale` exactly where it isn't bound.
    pub fn awaits(&self, md: Handle) -> Result<u64, NiFault>
        ensures value { result ≡ awaits md self.now }
    {
        self.initiator.awaits(md)
    }

    /// Whether a descriptor awaits an answer.
    pub fn awaits_any(&self) -> bool
        ensures value { result ≡ is_awaited self.now.mds.live }
    {
        self.initiator.awaits_any()
    }
}
