//! Memory that is refused to the start of a run, which then leaves passes and devices as they were.
//! What else is refused memory, `tests/devices` shows.
ghost use Rattle.mst_script.specs.Serving.{AreAllOf};

use super::{dealt, opened};
use crate::confirming::confirm;
use crate::heaps::heap_of;
use linked_list_allocator::LocalHeap;
use mst_devices::{BytesSink, BytesSource};
use mst_script::{RunFault, run};
use mst_store::{Format, Pass, Shape, Store};
use std::alloc::Global;
use std::process::Abort;

// A pin and its end, for stores of any number of passes.
const PIN: &[u8] = b"1 pin\n1 get 61\n1 unpin\n1 put 61 31\n1 pin\n1 get 61\n";

const OF_PIN: &[u8] = b"pinned 0\nnone\nunpinned\nnone\npinned 1\nsome 31\n";

// Whether a run over these passes starts if this heap gives its memory. If not, nothing was read,
// written or changed: the same passes then serve the same devices. If so, pins take no more.
fn starts_over(
    rt: &impl Abort,
    alloc: Global,
    heap: &LocalHeap,
    store: &Store<Global>,
    passes: &mut Vec<Pass<'_, Global>>,
) -> bool
    requires whole { AreAllOf store.now passes.old.items }
{
    let mut source = BytesSource::new(PIN);
    let mut sink = BytesSink::new(alloc, 128).expect(rt, "memory");
    let first = run(heap, &mut source, &mut sink, store, passes);
    if matches!(first, Err(RunFault::Memory(_))) {
        confirm(rt, sink.bytes().is_empty() && heap.used() == 0, "as before");
        let ran = run(alloc, &mut source, &mut sink, store, passes);
        confirm(rt, ran.is_ok(), "the same passes serve");
    }
    confirm(rt, sink.bytes() == OF_PIN, "the answers");
    confirm(rt, first != Err(RunFault::Device), "no device fails");
    first.is_ok()
}

// Whether a run of this many passes starts if a heap of this many bytes gives its memory.
fn starts_in(rt: &impl Abort, alloc: Global, bytes: usize, passes: u32) -> bool {
    let heap = heap_of(rt, alloc, bytes);
    let shape = Shape {
        rows: 4,
        passes,
        format: Format::One,
    };
    let (store, seats) = opened(rt, alloc, shape);
    let mut passes = dealt(rt, alloc, &store, seats);
    starts_over(rt, alloc, &heap, &store, &mut passes)
}

// The least of some heaps in which a run of this many passes starts.
fn least_heap(rt: &impl Abort, alloc: Global, passes: u32) -> usize {
    for step in 0..512 {
        let bytes = 130_000 + 32 * step;
        if starts_in(rt, alloc, bytes, passes) {
            return bytes;
        }
    }
    0
}

// Whether a run of four passes starts in none of 64 smaller heaps.
fn starts_in_none(rt: &impl Abort, alloc: Global) -> bool {
    for step in 1..=64 {
        if starts_in(rt, alloc, 2_000 * step, 4) {
            return false;
        }
    }
    true
}

// The growths of the start, one after another: those for lines and answers, and the last for passes
// with a pin.
#[test]
fn growths_at_the_start_are_refused(rt: HostRuntime) {
    confirm(&rt, starts_in_none(&rt, rt.alloc()), "too small");
    let least = least_heap(&rt, rt.alloc(), 1);
    let more = least_heap(&rt, rt.alloc(), 32);
    let is_right = 0 < least && least < more;
    confirm(&rt, is_right, "room for each pass to pin a version");
}
