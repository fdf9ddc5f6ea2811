use super::*;
use port_io::{SureSink, SureSource};
use ptl_types::{Bytes, Lane};
use std::test::*;

#[test]
fn a_frame_is_a_rank_a_length_and_bytes(rt: HostRuntime) -> Result<(), Fail> {
    let mut sink = SureSink::with_room(rt.alloc(), 64)?;
    assert!(rt; write_frame(&mut sink, 258, &[7, 8, 9]).is_ok());
    assert!(rt; write_frame(&mut sink, NOBODY, &[]).is_ok());
    let written = [
        2, 1, 0, 0, 3, 0, 0, 0, 7, 8, 9, 255, 255, 255, 255, 0, 0, 0, 0,
    ];
    assert_eq!(rt; sink.as_slice(), written.as_slice());
    let mut source = SureSource::new(Bytes::of(rt.alloc(), &written)?);
    let mut buffer = Vec::new(rt.alloc());
    assert!(rt; read_head(&mut source) == Ok((258, 3)));
    assert!(rt; read_bytes(&mut source, &mut buffer, 3).is_ok());
    assert_eq!(rt; buffer.as_slice(), [7, 8, 9].as_slice());
    assert!(rt; read_head(&mut source) == Ok((NOBODY, 0)));
    assert!(rt; read_number(&mut source) == Err(Stop::Read));
    Ok(())
}

#[test]
fn what_is_due_falls_message_by_message(rt: HostRuntime) -> Result<(), Fail> {
    let requests = vec![in rt.alloc(); 1, 0]?;
    let answers = vec![in rt.alloc(); 0, 1]?;
    let mut due = Due::of(requests, answers, 2, 24);
    assert!(rt; !due.has_come() && due.ranks() == 2 && due.bytes() == 24);
    assert!(rt; due.on(1, Lane::Request) == 0 && due.on(2, Lane::Answer) == 0);
    if due.on(0, Lane::Request) == 1 && due.bytes() == 24 {
        due.take(0, Lane::Request, 20);
    }
    assert!(rt; !due.has_come() && due.on(0, Lane::Request) == 0);
    assert!(rt; due.on(1, Lane::Answer) == 1 && due.bytes() == 4);
    Ok(())
}
