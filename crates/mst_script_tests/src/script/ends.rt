//! What a run leaves: all passes, and none of them pinned.
ghost use Rattle.std.specs.Prelude.{◌<◌, ◌-◌, ◌^◌};
ghost use Rattle.mst_script.specs.Serving.{AreAllOf};

use super::{dealt, opened};
use crate::confirming::confirm_at;
use crate::failing::{Reader, Writer};
use mst_devices::{BytesSink, BytesSource, Sink, Source, StdSink, StdSource};
use mst_script::{RunFault, run};
use mst_store::{Format, Pass, Shape, Store};
use std::alloc::Global;
use std::process::Abort;

// Three versions are pinned, and no pin is ended.
const PINS: &[u8] = b"1 pin\n2 put 61 30\n2 pin\n3 put 61 31\n1 get 61\n4 pin\n3 rows\n";

const PINNED: &[u8] = b"pinned 0\nnone\npinned 1\nsome 30\nnone\npinned 2\nheld\n";

// Each pass writes and counts, which no pinned pass does; a version that is live would leave too
// little room.
const AGAIN: &[u8] =
    b"1 put 61 31\n1 rows\n2 put 61 32\n2 rows\n3 put 61 33\n3 rows\n4 put 61 34\n4 rows\n";

// The answers after the first, which is the value of an earlier run.
const SERVED: &[u8] = b"rows 2\nsome 31\nrows 2\nsome 32\nrows 2\nsome 33\nrows 2\n";

/// How a run ended, and whether each pass serves again after it.
#[derive(Drop)]
struct Ending {
    ended: Result<(), RunFault>,
    all_serve: bool,
}

// Whether the pass with this number stands among these.
fn has_pass(passes: &[Pass<'_, Global>], number: u32) -> bool {
    for pass in passes {
        if pass.number() == number {
            return true;
        }
    }
    false
}

// Whether the four passes stand in the line, each of them once.
fn has_four(passes: &[Pass<'_, Global>]) -> bool {
    passes.len() == 4
        && has_pass(passes, 1)
        && has_pass(passes, 2)
        && has_pass(passes, 3)
        && has_pass(passes, 4)
}

// Whether all four passes stand there, and serve another script.
fn serve_again(global: Global, store: &Store<Global>, passes: &mut Vec<Pass<'_, Global>>) -> bool
    requires whole { AreAllOf store.now passes.old.items }
{
    let there = has_four(passes.as_slice());
    let mut again = BytesSource::new(AGAIN);
    let Ok(mut answers) = BytesSink::new(global, 128) else {
        return false;
    };
    let ran = run(global, &mut again, &mut answers, store, passes);
    ran.is_ok() && there && answers.bytes().ends_with(SERVED)
}

// Runs a script over a store of five rows, and another over the same passes.
fn ending_of<S: Source, W: Sink>(
    rt: &impl Abort,
    global: Global,
    source: &mut S,
    sink: &mut W,
) -> Ending
    requires source { S.failures source.old < 2 ^ 64 - 1 }
    requires sink { W.failures sink.old < 2 ^ 64 - 1 }
{
    let (store, seats) = opened(
        rt,
        global,
        Shape {
            rows: 5,
            passes: 4,
            format: Format::One,
        },
    );
    let mut passes = dealt(rt, global, &store, seats);
    let ended = run(global, source, sink, &store, &mut passes);
    let all_serve = serve_again(global, &store, &mut passes);
    Ending { ended, all_serve }
}

// Whether the run writes what the script is answered, and all passes serve again after it.
fn ends_with_the_script(rt: &impl Abort, alloc: Global) -> bool {
    let mut source = BytesSource::new(PINS);
    let mut sink = BytesSink::new(alloc, 128).expect(rt, "memory");
    let ending = ending_of(rt, alloc, &mut source, &mut sink);
    sink.bytes() == PINNED && ending.ended.is_ok() && ending.all_serve
}

#[test]
fn pins_end_with_the_script(rt: HostRuntime) {
    assert!(rt; ends_with_the_script(&rt, rt.alloc()));
}

// Whether the run between such devices ends by their fault, and all passes serve again after it.
fn ends_by_fault(rt: &impl Abort, alloc: Global, reader: Reader<'_>, mut out: Writer) -> bool {
    let mut source = StdSource::new(reader);
    let mut sink = StdSink::new(&mut out);
    let ending = ending_of(rt, alloc, &mut source, &mut sink);
    ending.all_serve && ending.ended == Err(RunFault::Device)
}

// Whether that is so where a read of one byte fails after this many.
fn ends_by_a_read(rt: &impl Abort, alloc: Global, reads: u64) -> bool {
    let reader = Reader {
        rest: PINS,
        most: 1,
        reads,
    };
    ends_by_fault(rt, alloc, reader, Writer::new(alloc, 64, u64::MAX, false))
}

#[test]
fn pins_end_where_a_read_fails(rt: HostRuntime) {
    for reads in 0..=PINS.len() {
        let ended = ends_by_a_read(&rt, rt.alloc(), reads as u64);
        confirm_at(&rt, ended, reads);
    }
}

// Whether that is so where a write of one byte fails after this many.
fn ends_by_a_write(rt: &impl Abort, alloc: Global, writes: u64) -> bool {
    let reader = Reader {
        rest: PINS,
        most: 7,
        reads: u64::MAX,
    };
    ends_by_fault(rt, alloc, reader, Writer::new(alloc, 1, writes, false))
}

#[test]
fn pins_end_where_a_write_fails(rt: HostRuntime) {
    for writes in 0..PINNED.len() {
        let ended = ends_by_a_write(&rt, rt.alloc(), writes as u64);
        confirm_at(&rt, ended, writes);
    }
}
