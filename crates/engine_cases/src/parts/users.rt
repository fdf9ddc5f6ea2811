//! Users come and go.

use crate::answers::gives;
use ni_objects::users::Users;
use ptl_types::Handle;
use std::test::Fail;

#[test]
fn users_of_a_slot_come_and_go(rt: HostRuntime) -> Result<(), Fail> {
    let mut users = Users::open(rt.alloc(), 2)?;
    let named = Handle { slot: 1, stamp: 7 };
    gives!(rt; users.at(1), Some(0));
    users.add(Some(named));
    users.add(None);
    users.raise(1);
    users.raise(2);
    gives!(rt; users.at(0), Some(0));
    gives!(rt; users.at(1), Some(2));
    gives!(rt; users.at(2), None);
    users.remove(Some(named));
    users.lower(2);
    users.remove(None);
    gives!(rt; users.at(1), Some(1));
    users.lower(1);
    gives!(rt; users.at(1), Some(0));
    Ok(())
}
