//! Places are marked, counted and found.

use crate::answers::gives;
use std::test::Fail;
use triggered_ops::marks::Marks;

#[test]
fn marks_are_counted_and_found_in_order(rt: HostRuntime) -> Result<(), Fail> {
    let mut marks = Marks::open(rt.alloc(), 200)?;
    for place in 0..200 {
        marks.mark(place, place % 3 == 0);
    }
    gives!(rt; marks.total(), 67);
    for i in 0..67 {
        if i < marks.total() {
            gives!(rt; marks.find(i), 3 * i as usize);
        }
    }
    marks.mark(63, false);
    marks.mark(63, false);
    gives!(rt; marks.total(), 66);
    if marks.total() > 21 {
        gives!(rt; marks.find(21), 66);
    }
    Ok(())
}
