//! Handles, counts, limits, descriptors, entries and events, in the form that C has them.

/// A handle of an interface. The one of stamp 2^64 - 1, which no table gives, stands for none.
#[repr(C)]
#[derive(Clone, Copy)]
pub struct CHandle {
    pub stamp: u64,
    pub slot: u32,
}

/// `ptl_ct_event_t`.
#[repr(C)]
#[derive(Clone, Copy)]
pub struct CCount {
    pub success: u64,
    pub failure: u64,
}

/// `ptl_ni_limits_t`.
#[repr(C)]
#[derive(Clone, Copy)]
pub struct CLimits {
    pub max_entries: u32,
    pub max_unexpected_headers: u32,
    pub max_mds: u32,
    pub max_cts: u32,
    pub max_eqs: u32,
    pub max_pt_index: u32,
    pub max_triggered_ops: u32,
    pub max_msg_size: u64,
    pub max_atomic_size: u64,
    pub max_fetch_atomic_size: u64,
}

/// `ptl_md_t`.
#[repr(C)]
#[derive(Clone, Copy)]
pub struct CDescriptor {
    pub start: u64,
    pub length: u64,
    pub options: u32,
    pub eq_handle: CHandle,
    pub ct_handle: CHandle,
}

/// `ptl_me_t`.
#[repr(C)]
#[derive(Clone, Copy)]
pub struct CEntry {
    pub start: u64,
    pub length: u64,
    pub ct_handle: CHandle,
    pub options: u32,
    pub match_id: u32,
    pub match_bits: u64,
    pub ignore_bits: u64,
    pub min_free: u64,
}

/// `ptl_event_t`.
#[repr(C)]
#[derive(Clone, Copy)]
pub struct CEvent {
    pub kind: u32,
    pub initiator: u32,
    pub pt_index: u32,
    pub ok: u32,
    pub match_bits: u64,
    pub hdr_data: u64,
    pub rlength: u64,
    pub mlength: u64,
    pub start: u64,
}
