//! First elements of lists of bytes.

use crate::answers::gives;
use lane_ops::elements::{read_pattern, write_pattern};
use ptl_types::ElemType;

#[test]
fn first_elements_are_read_and_written(rt: HostRuntime) {
    gives!(rt; read_pattern(ElemType::U8, &[7, 9]), 7);
    gives!(rt; read_pattern(ElemType::I16, &[0xff, 0x80, 9]), 0x80ff);
    gives!(rt; read_pattern(ElemType::U32, &[4, 3, 2, 1]), 0x0102_0304);
    gives!(rt; read_pattern(ElemType::I64, &[8, 7, 6, 5, 4, 3, 2, 1]), 0x0102_0304_0506_0708);
    let mut bytes = [9; 5];
    write_pattern(ElemType::U32, &mut bytes, 0x0102_0304);
    gives!(rt; bytes, [4, 3, 2, 1, 9]);
    write_pattern(ElemType::I8, &mut bytes, 0x80);
    gives!(rt; bytes, [0x80, 3, 2, 1, 9]);
}
