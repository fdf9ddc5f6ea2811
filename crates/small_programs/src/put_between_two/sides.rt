//! The two interfaces, made ready for a put from rank 0 to rank 1.

use guarded_ni::{CallFault, eq_alloc, open, put};
use portals_ni::Nic;
use ptl_types::{
    AckRequest, Bytes, Descriptor, Entry, Handle, Limits, List, Message, NiFault, PutArgs,
};
use std::alloc::Global;

/// How many events a queue keeps.
pub const EVENTS: u32 = 8;

/// The match bits of the entry and of the put.
const MATCH_BITS: u64 = 5;

/// Rank 0, which puts.
#[derive(Drop)]
pub struct Initiator {
    /// Its interface.
    pub nic: Nic,
    /// The queue of its descriptor's events.
    pub eq: Handle,
    /// Counts acknowledgements.
    pub acknowledged: Handle,
    /// A descriptor over its whole region.
    md: Handle,
}

/// Rank 1, which waits.
#[derive(Drop)]
pub struct Target {
    /// Its interface.
    pub nic: Nic,
    /// The queue of its portal table index.
    pub eq: Handle,
}

/// An interface of one of two ranks over a region of these bytes.
fn side(alloc: Global, rank: u32, bytes: &[u8]) -> Result<Nic, CallFault> {
    match Bytes::of(alloc, bytes) {
        Ok(region) => open(alloc, rank, 2, Limits::SMALL, region),
        Err(_) => Err(CallFault::Refused(NiFault::NoMemory)),
    }
}

/// Waits at portal table index 0 with an entry over the whole region.
fn waiting(alloc: Global) -> Result<Target, CallFault> {
    let mut nic = side(alloc, 1, &[0; 4])?;
    let eq = eq_alloc(&mut nic, EVENTS)?;
    let entry = Entry {
        match_bits: MATCH_BITS,
        ..Entry::over(0, 4)
    };
    nic.pt_alloc(0, Some(eq))?;
    let _ = nic.me_append(0, List::Priority, entry)?;
    Ok(Target { nic, eq })
}

/// Binds the whole region, and counts acknowledgements.
fn ready(alloc: Global) -> Result<Initiator, CallFault> {
    let mut nic = side(alloc, 0, &[1, 2, 3, 4])?;
    let eq = eq_alloc(&mut nic, EVENTS)?;
    let acknowledged = nic.ct_alloc()?;
    let md = nic.md_bind(Descriptor {
        eq: Some(eq),
        ct: Some(acknowledged),
        count_ack: true,
        ..Descriptor::over(0, 4)
    })?;
    Ok(Initiator {
        nic,
        eq,
        acknowledged,
        md,
    })
}

/// Both interfaces.
pub fn open_both(alloc: Global) -> Result<(Initiator, Target), CallFault> {
    Ok((ready(alloc)?, waiting(alloc)?))
}

impl Initiator {
    /// Puts the last two bytes of its region to the start of the entry.
    pub fn put_two_bytes(&mut self) -> Result<Message, CallFault> {
        put(
            &mut self.nic,
            PutArgs {
                md: self.md,
                local_offset: 2,
                length: 2,
                ack: AckRequest::Ack,
                target: 1,
                pt: 0,
                match_bits: MATCH_BITS,
                remote_offset: 0,
                hdr_data: 7,
            },
        )
    }
}
