//! A slot is used again, a stamp never.

use crate::answers::gives;
use ni_objects::handles::Store;
use ptl_types::Handle;
use std::test::Fail;

#[test]
fn a_store_of_one_gives_its_slot_again_with_another_stamp(rt: HostRuntime) -> Result<(), Fail> {
    let mut store = Store::open(rt.alloc(), 1)?;
    let first = store.insert(7u8);
    gives!(rt; first, Ok(Handle { slot: 0, stamp: 0 }));
    gives!(rt; store.insert(8), Err(8));
    gives!(rt; store.is_full(), true);
    gives!(rt; store.len(), 1);
    let gone = Handle { slot: 0, stamp: 0 };
    if let Some(value) = store.get_mut(gone) {
        *value = 9;
    }
    gives!(rt; store.get(gone).copied(), Some(9));
    gives!(rt; store.at(0).is_some(), true);
    gives!(rt; store.at(1).is_none(), true);
    gives!(rt; store.remove(gone), Some(9));
    gives!(rt; store.remove(gone), None);
    gives!(rt; store.insert(5), Ok(Handle { slot: 0, stamp: 1 }));
    gives!(rt; store.is_live(gone), false);
    Ok(())
}
