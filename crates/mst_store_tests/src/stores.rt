//! Stores with their passes, and the heaps that they stand in.
ghost use Rattle.std.specs.Prelude.{◌≡◌, length};
ghost use Rattle.mst_store.specs.Passes.{new_passes};

use linked_list_allocator::LocalHeap;
use mst_store::{Format, Pass, Seats, Shape, Store};
use std::alloc::Global;
use std::process::Abort;

pub(crate) const SMALL: Shape = Shape {
    rows: 8,
    passes: 2,
    format: Format::One,
};

/// A heap of this many bytes.
pub(crate) fn heap_of(rt: &(impl Abort + AllocGlobal), bytes: usize) -> LocalHeap {
    LocalHeap::new(rt.alloc(), bytes).expect(rt, "memory")
}

/// A store of this size.
pub(crate) fn opened(
    rt: &(impl Abort + AllocGlobal),
    shape: Shape,
) -> (Store<Global>, Seats<Global>)
    ensures own { result.1 ≡ result.0 }
{
    Store::open(rt.alloc(), shape).expect(rt, "memory")
}

/// The passes of a store.
pub(crate) fn dealt<'a>(
    rt: &(impl Abort + AllocGlobal),
    store: &'a Store<Global>,
    seats: Seats<Global>,
) -> Vec<Pass<'a, Global>>
    requires own { seats ≡ store.now }
    ensures passes { result.items ≡ new_passes store.now }
    ensures count { length result.items ≡ store.now.passes }
{
    let Ok(passes) = store.deal(rt.alloc(), seats) else {
        panic!(rt; "no memory")
    };
    passes
}

/// The passes of a store of two.
pub(crate) fn both_passes<'a>(
    rt: &(impl Abort + AllocGlobal),
    store: &'a Store<Global>,
    seats: Seats<Global>,
) -> (Pass<'a, Global>, Pass<'a, Global>)
    requires own { seats ≡ store.now }
{
    let mut passes = dealt(rt, store, seats);
    match (passes.pop(), passes.pop()) {
        (Some(second), Some(first)) => (first, second),
        _ => panic!(rt; "two passes"),
    }
}
