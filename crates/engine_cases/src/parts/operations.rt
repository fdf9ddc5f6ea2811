//! Worked bytes, and a table of edge values of every type whose results were computed outside the program: for each operation
//! and type the starting value, then each of least, greatest, 0, 1, all ones and one bit with the next of them, and with the
//! one three places on.

use crate::answers::gives;
use crate::parts::edges::{BAND, BOR, BXOR, LAND, LOR, LXOR, MAX, MIN, PROD, Row, SUM, edges};
use lane_ops::{combine, combine_elements, start_value, start_values};
use ptl_types::{AtomicOp, ElemType};

#[test]
fn bytes_are_combined_in_place(rt: HostRuntime) {
    let mut sum = [0x2c, 1, 0, 0];
    combine(AtomicOp::Sum, ElemType::U32, &mut sum, &[0xff; 4]);
    gives!(rt; sum, [0x2b, 1, 0, 0]);
    let mut least = [0x80, 0x7f];
    combine(AtomicOp::Min, ElemType::I8, &mut least, &[0x7f, 0x80]);
    gives!(rt; least, [0x80, 0x80]);
    let mut differ = [2, 0];
    combine(AtomicOp::Lxor, ElemType::U16, &mut differ, &[3, 0]);
    gives!(rt; differ, [0, 0]);
    let mut product = [0x2c, 1];
    combine(AtomicOp::Prod, ElemType::I16, &mut product, &[0x2c, 1]);
    gives!(rt; product, [0x90, 0x5f]);
    let mut start = [7, 7];
    start_values(AtomicOp::Max, ElemType::I16, &mut start);
    gives!(rt; start, [0, 0x80]);
}

#[test]
fn elements_are_combined(rt: HostRuntime) {
    gives!(rt; combine_elements(AtomicOp::Sum, ElemType::U8, 200, 100), 44);
    gives!(rt; combine_elements(AtomicOp::Min, ElemType::I8, 0x80, 0x7f), 0x80);
    gives!(rt; combine_elements(AtomicOp::Land, ElemType::U16, 2, 1), 1);
    gives!(rt; start_value(AtomicOp::Max, ElemType::I16), 0x8000);
    gives!(rt; start_value(AtomicOp::Prod, ElemType::U64), 1);
}

/// What the operation makes of two elements, through their bytes.
fn combined(op: AtomicOp, ty: ElemType, x: u64, y: u64) -> u64 {
    let mut into = x.to_le_bytes();
    let with = y.to_le_bytes();
    match ty.size() {
        1 => combine(op, ty, &mut into[..1], &with[..1]),
        2 => combine(op, ty, &mut into[..2], &with[..2]),
        4 => combine(op, ty, &mut into[..4], &with[..4]),
        _ => combine(op, ty, &mut into, &with),
    }
    u64::from_le_bytes(into)
}

fn started(op: AtomicOp, ty: ElemType) -> u64 {
    let mut into = [0; 8];
    match ty.size() {
        1 => start_values(op, ty, &mut into[..1]),
        2 => start_values(op, ty, &mut into[..2]),
        4 => start_values(op, ty, &mut into[..4]),
        _ => start_values(op, ty, &mut into),
    }
    u64::from_le_bytes(into)
}

fn rows_hold(rows: &[Row]) -> bool {
    for row in rows {
        let edges = edges(row.ty);
        if started(row.op, row.ty) != row.start {
            return false;
        }
        for i in 0..6 {
            let next = combined(row.op, row.ty, edges[i], edges[(i + 1) % 6]);
            let third = combined(row.op, row.ty, edges[i], edges[(i + 3) % 6]);
            if next != row.next[i] || third != row.third[i] {
                return false;
            }
        }
    }
    true
}

#[test]
fn edge_values_of_every_type(rt: HostRuntime) {
    gives!(rt; rows_hold(MIN), true);
    gives!(rt; rows_hold(MAX), true);
    gives!(rt; rows_hold(SUM), true);
    gives!(rt; rows_hold(PROD), true);
    gives!(rt; rows_hold(LOR), true);
    gives!(rt; rows_hold(LAND), true);
    gives!(rt; rows_hold(BOR), true);
    gives!(rt; rows_hold(BAND), true);
    gives!(rt; rows_hold(LXOR), true);
    gives!(rt; rows_hold(BXOR), true);
}
