//! Memory that is refused to a sink over memory.
use crate::confirming::{confirm, confirm_at};
use crate::heaps::heap_of;
use mst_devices::BytesSink;
use std::alloc::Global;
use std::process::Abort;

// Whether a sink is made in a heap of this many bytes, which keeps nothing of it.
fn is_made(rt: &impl Abort, alloc: Global, bytes: usize) -> bool {
    let heap = heap_of(rt, alloc, bytes);
    let made = BytesSink::new(&heap, 256).is_ok();
    confirm(rt, heap.used() == 0, "nothing is kept");
    made
}

// How many heaps, 16 bytes apart, are too small. Once a sink is made, each larger heap serves too.
fn refused_heaps(rt: &impl Abort, alloc: Global) -> usize {
    let mut refused = 0usize;
    for units in 1..64usize {
        if !is_made(rt, alloc, units * 16) {
            confirm_at(rt, refused == units - 1, units);
            refused = units;
        }
    }
    refused
}

#[test]
fn each_growth_of_a_sink_is_refused(rt: HostRuntime) {
    let refused = refused_heaps(&rt, rt.alloc());
    confirm_at(&rt, (15..63).contains(&refused), refused);
}
