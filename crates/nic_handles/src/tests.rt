//! An interface behind a handle: put there, taken out, put back, let go.

use crate::NiHandle;
use portals_ni::{Nic, fit};
use ptl_types::{Bytes, Limits};

#[test]
fn an_interface_is_put_behind_a_handle_and_taken_out(rt: HostRuntime) {
    let alloc = rt.alloc();
    let limits = Limits::SMALL;
    assert!(rt; fit(&limits));
    let region = Bytes::of(alloc, &[1, 2, 3]).expect(&rt, "a region");
    let nic = Nic::open(alloc, 1, 2, limits, region).expect(&rt, "an interface");
    let Ok(boxed) = Box::new(alloc, nic) else {
        panic!(rt; "a box");
    };
    let mut handle = NiHandle::of(boxed);
    assert!(rt; handle.is_open());
    let taken = handle.take(alloc).expect(&rt, "the interface");
    assert_eq!(rt; taken.as_ref().rank(), 1);
    assert_eq!(rt; taken.as_ref().memory(), [1u8, 2, 3].as_slice());
    assert!(rt; !handle.is_open());
    assert!(rt; handle.take(alloc).is_none());
    handle = NiHandle::of(taken);
    assert!(rt; handle.is_open());
    drop(handle.take(alloc));
}

#[test]
fn a_handle_of_none_gives_none(rt: HostRuntime) {
    let alloc = rt.alloc();
    let mut handle = NiHandle::none();
    assert!(rt; !handle.is_open());
    assert!(rt; handle.take(alloc).is_none());
}
