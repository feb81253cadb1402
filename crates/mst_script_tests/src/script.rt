//! Scripts over the passes of a store: sinks and memory that fail, and what a run leaves.
mod devices;
mod ends;
mod memory;
mod shards;

ghost use Rattle.std.specs.Prelude.{◌≡◌, ◌<◌, ◌-◌, ◌^◌};
ghost use Rattle.mst_store.specs.Passes.{new_passes};

use mst_devices::{Sink, Source};
use mst_script::{RunFault, run};
use mst_store::{Pass, Seats, Shape, Store};
use std::alloc::{Allocator, Global};
use std::process::Abort;

/// A store of this size.
fn opened(rt: &impl Abort, alloc: Global, shape: Shape) -> (Store<Global>, Seats<Global>)
    ensures own { result.1 ≡ result.0 }
{
    let Ok(opened) = Store::open(alloc, shape) else {
        panic!(rt; "no memory")
    };
    opened
}

/// All passes of a store.
fn dealt<'a>(
    rt: &impl Abort,
    alloc: Global,
    store: &'a Store<Global>,
    seats: Seats<Global>,
) -> Vec<Pass<'a, Global>>
    requires own { seats ≡ store.now }
    ensures passes { result.items ≡ new_passes store.now }
{
    let Ok(passes) = store.deal(alloc, seats) else {
        panic!(rt; "no memory")
    };
    passes
}

/// Runs a script over the passes of a new store, in the memory of another allocator.
fn run_over<S: Source, W: Sink, A: Allocator + Copy>(
    rt: &impl Abort,
    global: Global,
    alloc: A,
    shape: Shape,
    source: &mut S,
    sink: &mut W,
) -> Result<(), RunFault>
    requires source { S.failures source.old < 2 ^ 64 - 1 }
    requires sink { W.failures sink.old < 2 ^ 64 - 1 }
{
    let (store, seats) = opened(rt, global, shape);
    let mut passes = dealt(rt, global, &store, seats);
    run(alloc, source, sink, &store, &mut passes)
}
