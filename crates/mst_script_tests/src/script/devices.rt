//! A sink over memory that is full. Other devices that fail, `tests/devices` shows.
use super::run_over;
use crate::confirming::confirm_at;
use mst_devices::{BytesSink, BytesSource, Device};
use mst_script::RunFault;
use mst_store::{Format, Memory, Shape};
use std::alloc::{AllocError, Global};
use std::process::Abort;

/// Five lines, of which one is a fault and one takes memory, and their answers.
const FIVE_LINES: &[u8] = b"1 put 61 31\n2 put 616263 78\n3 range - - 10\n1 frob\n4 get 61";

const FIVE_ANSWERS: &[u8] = b"none\nnone\npairs 2\npair 61 31\npair 616263 78\nfault L3\nsome 31\n";

const SHAPE: Shape = Shape {
    rows: 5,
    passes: 4,
    format: Format::One,
};

/// Whether the sink of a run over the script is full after these bytes.
fn is_full_behind(rt: &impl Abort, alloc: Global, written: &[u8]) -> bool {
    let mut source = BytesSource::new(FIVE_LINES);
    let mut sink = BytesSink::new(alloc, written.len()).expect(rt, "memory");
    let ran = run_over(rt, alloc, alloc, SHAPE, &mut source, &mut sink);
    ran == Err(RunFault::Device) && sink.bytes() == written
}

/// Whether it is if it has room for so many.
fn is_full_in(rt: &impl Abort, alloc: Global, room: usize) -> bool {
    match FIVE_ANSWERS.get(..room) {
        Some(written) => is_full_behind(rt, alloc, written),
        None => false,
    }
}

/// The room of a sink that is full at its first byte, and so on to one that is full at the end.
const ROOMS: &[usize] = &[0, 1, 5, 60];

#[test]
fn sinks_are_full(rt: HostRuntime) {
    for room in ROOMS {
        confirm_at(&rt, is_full_in(&rt, rt.alloc(), *room), *room);
    }
}

#[test]
fn a_run_that_ended_early_says_why(rt: HostRuntime) {
    let refused = RunFault::Memory(Memory::from(AllocError));
    let told = format!(in rt.alloc(); "{Device}, {}, {refused}", RunFault::Device);
    let told = told.expect(&rt, "memory");
    assert!(rt; told.as_str() == "a device failed, a device failed, no memory");
}
