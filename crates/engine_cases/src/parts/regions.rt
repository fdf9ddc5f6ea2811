//! Parts at the edges of a region.

use crate::answers::gives;
use ni_objects::descriptors::Region;
use ptl_types::Bytes;
use std::test::Fail;

#[test]
fn parts_are_read_and_written_alone(rt: HostRuntime) -> Result<(), Fail> {
    let mut region = Region::new(Bytes::of(rt.alloc(), &[1, 2, 3, 4])?);
    gives!(rt; region.len(), 4);
    let fits = [
        (0, 4, true),
        (4, 0, true),
        (5, 0, false),
        (1, 4, false),
        (u64::MAX, u64::MAX, false),
        (1, u64::MAX, false),
    ];
    for (start, length, want) in fits {
        gives!(rt; region.fits(start, length), want);
    }
    region.write(1, &[9, 8]);
    gives!(rt; region.as_slice(), [1, 9, 8, 4].as_slice());
    let mut into = Bytes::with_room(rt.alloc(), 3)?;
    region.read_into(2, &mut into, 2);
    gives!(rt; into.as_slice(), [8, 4].as_slice());
    Ok(())
}
