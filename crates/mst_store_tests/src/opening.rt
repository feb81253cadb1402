//! Passes are dealt, also if memory is refused: the seats of a refusal are dealt again.
ghost use Rattle.std.specs.Prelude.{◌≡◌, IfSome};

use crate::answers::{gets, puts};
use crate::confirming::{confirm, confirm_at};
use crate::stores::{heap_of, opened};
use mst_store::{Format, Pass, Seats, Shape, Store};
use std::alloc::Global;
use std::process::Abort;

// Whether each pass gets what the last one put.
fn all_get(passes: &mut [Pass<'_, Global>]) -> bool {
    for pass in passes.iter_mut() {
        if !gets(pass, b"abc", Some(b"x")) {
            return false;
        }
    }
    true
}

// Whether the passes share a map.
fn are_of_one_map(passes: &mut [Pass<'_, Global>]) -> bool {
    let put = match passes.last_mut() {
        Some(last) => puts(last, b"abc", b"x", None),
        None => false,
    };
    put && all_get(passes)
}

// Deals the seats in a heap of this many bytes. If memory is refused, nothing is kept, and the
// seats are given back.
fn deals(
    rt: &(impl Abort + AllocGlobal),
    store: &Store<Global>,
    seats: Seats<Global>,
    bytes: usize,
) -> Option<Seats<Global>>
    requires own { seats ≡ store.now }
    ensures own { IfSome result (λ again. again ≡ store.now) }
{
    let heap = heap_of(rt, bytes);
    match store.deal(&heap, seats) {
        Ok(mut passes) => {
            confirm(rt, are_of_one_map(&mut passes), "the passes share a map");
            None
        }
        Err((_, again)) => {
            confirm(rt, heap.used() == 0, "nothing is kept");
            Some(again)
        }
    }
}

// Deals the seats in heaps of ever more bytes, and returns how many heaps were too small. The seats
// of a refusal are dealt again, and at last serve.
fn refused_heaps(
    rt: &(impl Abort + AllocGlobal),
    store: &Store<Global>,
    seats: Seats<Global>,
) -> usize
    requires own { seats ≡ store.now }
{
    let mut seats = seats;
    for units in 1..1024usize {
        match deals(rt, store, seats, units * 16) {
            Some(again) => seats = again,
            None => return units - 1,
        }
    }
    panic!(rt; "refused with ample memory")
}

const OF_32_PASSES: Shape = Shape {
    rows: 4,
    passes: 32,
    format: Format::One,
};

#[test]
fn each_growth_of_deal_is_refused(rt: HostRuntime) {
    let (store, seats) = opened(&rt, OF_32_PASSES);
    let refused = refused_heaps(&rt, &store, seats);
    confirm_at(&rt, 16 <= refused, refused);
}
