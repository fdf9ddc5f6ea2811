//! One network interface with the behaviour of Portals 4.3: portal table indices with match entries and unexpected headers,
//! counting events, event queues, memory descriptors, triggered operations, and the five operations with their answers.
//!
//! `Nic` stands on the two engines: `target_engine` for what arrives and `initiator_engine` for what starts and comes home. It
//! adds the tables that both share, the triggered operations, and the two status registers. Each call is the model's word for
//! it (`ni_model`), refusals included: the lowest fault that holds is answered, and a refused call changes nothing.
//!
//! A put with its acknowledgement, between two interfaces of four bytes each. A test of `interface_cases`,
//! `a_put_with_its_acknowledgement`, makes these calls with these values and compares these answers.
//!
//! ```rust
//! use portals_ni::{Delivered, Limits, Nic, Outcome, PutArgs};
//! use ptl_types::{AckRequest, Bytes, Count, Descriptor, Entry, List};
//!
//! fn a_put_with_its_acknowledgement(rt: HostRuntime) {
//!     let alloc = rt.alloc();
//!     let limits = Limits {
//!         entries: 4, unexpected: 2, mds: 2, cts: 2, eqs: 1, pts: 2, triggered: 4, msg: 16, atomic: 8, fetch_atomic: 8,
//!     };
//!     let ours = Bytes::of(alloc, &[1, 2, 3, 4]).expect(&rt, "a region");
//!     let theirs = Bytes::of(alloc, &[0, 0, 0, 0]).expect(&rt, "a region");
//!     let mut initiator = Nic::open(alloc, 0, 2, limits, ours).expect(&rt, "rank 0 of 2");
//!     let mut target = Nic::open(alloc, 1, 2, limits, theirs).expect(&rt, "rank 1 of 2");
//!
//!     // The target waits at portal table index 0 with an entry over its whole region, for match bits 5 from any rank.
//!     target.pt_alloc(0, None).expect(&rt, "an index without a queue");
//!     let entry = Entry {
//!         match_bits: 5,
//!         ..Entry::over(0, 4)
//!     };
//!     target.me_append(0, List::Priority, entry).expect(&rt, "its handle");
//!
//!     // The initiator binds its whole region, and counts acknowledgements.
//!     let acknowledged = initiator.ct_alloc().expect(&rt, "a counting event");
//!     let md = initiator.md_bind(Descriptor {
//!         ct: Some(acknowledged),
//!         count_ack: true,
//!         ..Descriptor::over(0, 4)
//!     }).expect(&rt, "a descriptor");
//!
//!     // It puts its last two bytes to the start of the entry. The descriptor then awaits one answer.
//!     let put = PutArgs {
//!         md, local_offset: 2, length: 2, ack: AckRequest::CtAck, target: 1, pt: 0, match_bits: 5, remote_offset: 0, hdr_data: 0,
//!     };
//!     let message = initiator.put(put).expect(&rt, "a message to carry to rank 1");
//!     assert_eq!(rt; initiator.awaits(md), Ok(1));
//!
//!     // The message arrives, and its two bytes with it.
//!     let Delivered { outcome, answer } = target.deliver(message);
//!     assert_eq!(rt; outcome, Outcome::Matched);
//!     assert_eq!(rt; target.memory(), [3u8, 4, 0, 0].as_slice());
//!
//!     // The answer is carried back to rank 0, comes home and is counted.
//!     let home = initiator.deliver(answer.expect(&rt, "an acknowledgement"));
//!     assert_eq!(rt; home.outcome, Outcome::Answered);
//!     assert_eq!(rt; initiator.ct_get(acknowledged), Ok(Count { success: 1, failure: 0 }));
//!     assert_eq!(rt; initiator.awaits(md), Ok(0));
//! }
//! ```
#![tactic(auto)]

mod arrivals;
mod counting;
mod entries;
mod fires;
mod named;
mod nic;
mod packed;
mod posted_op;
mod queues;
mod starts;
mod tables;
mod triggers;

pub use nic::{Nic, fit};
pub use ptl_types::{
    Appended, Delivered, EqGot, GetArgs, Limits, NiFault, Outcome, PutArgs, TriggeredOp,
};
pub use target_engine::SpareBuffers;
