//! Scripts over maps of one shard and of two: whole, and between devices that fail. More shards and
//! the ends of all ranges `tests/transcripts` shows, and memory that is refused `tests/devices`.
ghost use Rattle.std.specs.Prelude.{◌≡◌, ◌<◌, ◌-◌, ◌^◌, true};
ghost use Rattle.mst_shards.specs.Sharding.{IsSplits};
ghost use Rattle.mst_sharded_script.specs.Opening.{IsScriptShape};

use crate::confirming::confirm;
use crate::failing::{Reader, Writer};
use mst_devices::{BytesSink, BytesSource, Sink, Source, StdSink, StdSource};
use mst_key::Key;
use mst_script::RunFault;
use mst_sharded_script::{Script, is_script_shape, run as run_sharded};
use mst_shards::are_splits;
use mst_store::{Format, Shape};
use std::alloc::Global;
use std::process::Abort;
use std::sync::Wait;

/// A shard of a script with three passes.
const SHAPE: Shape = Shape {
    rows: 1024,
    passes: 3,
    format: Format::One,
};

/// Splits into this many shards, each at a key of one byte.
fn splits_of(rt: &impl Abort, alloc: Global, shards: u8) -> Vec<Key>
    ensures splits { IsSplits result.items }
{
    let mut splits = Vec::new(alloc);
    for shard in 1..shards {
        let byte = shard.wrapping_mul(24) / shards.max(1) + 16;
        let split = Key::new(&[byte]).expect(rt, "1 to 32 bytes");
        splits.push(split).expect(rt, "memory");
    }
    assert!(rt; are_splits(&splits));
    splits
}

/// Runs a script over a new map of this many shards.
fn run_shards<R: Abort + Wait, S: Source, W: Sink>(
    rt: &R,
    alloc: Global,
    shards: u8,
    source: &mut S,
    sink: &mut W,
) -> Result<(), RunFault>
    requires source { S.failures source.old < 2 ^ 64 - 1 }
    requires sink { W.failures sink.old < 2 ^ 64 - 1 }
{
    assert!(rt; is_script_shape(SHAPE));
    let splits = splits_of(rt, alloc, shards);
    let script = Script::open(rt, alloc, splits, SHAPE).expect(rt, "memory");
    run_sharded(rt, alloc, source, sink, script)
}

/// Lines of all kinds, and their answers.
const SCRIPT: &str = "1 put 11 31
2 put 1f 32
3 put 1f00 -
1 next -
2 next 11
1 range - - 9
1 batch put 12 33 del 11 put 12 34
1 pin
2 del 1f
2 migrate 2
1 format
2 format
1 range 11 - 9
2 range 11 - 9
1 put 11 35
2 pin
3 migrate 1
1 get 1f
1 unpin
1 get 1f
1 format
1 rows
2 format
2 unpin
2 format
3 pin
";

const SCRIPT_ANSWERS: &str = "none
none
none
pair 11 31
pair 1f 32
pairs 3
pair 11 31
pair 1f 32
pair 1f00 -
done
pinned 4
some 32
was 1
format 1
format 2
pairs 3
pair 12 34
pair 1f 32
pair 1f00 -
pairs 2
pair 12 34
pair 1f00 -
fault L6
pinned 6
was 2
some 32
unpinned
none
format 1
fault L7
format 2
unpinned
format 1
pinned 7
";

/// Whether a map of this many shards answers them so.
fn is_answered<R: Abort + Wait>(rt: &R, alloc: Global, shards: u8) -> bool {
    let mut source = BytesSource::new(SCRIPT.as_bytes());
    let mut sink = BytesSink::new(alloc, 1_024).expect(rt, "memory");
    let ran = run_shards(rt, alloc, shards, &mut source, &mut sink);
    ran == Ok(()) && sink.bytes() == SCRIPT_ANSWERS.as_bytes()
}

// No words of the program name one shard.
#[test]
fn one_shard_answers_as_two(rt: HostRuntime) {
    confirm(&rt, is_answered(&rt, rt.alloc(), 1), "one shard");
    confirm(&rt, is_answered(&rt, rt.alloc(), 2), "two shards");
}

/// The passes that a script over shards may not have, and those at the ends of the range.
const PASSES: [(u32, bool); 6] = [
    (0, false),
    (1, true),
    (31, true),
    (32, false),
    (33, false),
    (u32::MAX, false),
];

/// The rows.
const ROWS: [(u32, bool); 4] = [(3, false), (4, true), (65_535, true), (65_536, false)];

/// Whether a shape of these numbers is told so.
fn is_told(rows: u32, passes: u32, fits: bool) -> bool {
    let format = Format::Two;
    let shape = Shape {
        rows,
        passes,
        format,
    };
    is_script_shape(shape) == fits
}

#[test]
fn a_pass_is_left_for_the_writer(rt: HostRuntime) {
    for (passes, fits) in PASSES {
        confirm(&rt, is_told(4, passes, fits), "passes");
    }
    for (rows, fits) in ROWS {
        confirm(&rt, is_told(rows, 31, fits), "rows");
    }
}

// ---- devices that fail

/// Lines over one shard or two, and their answers.
const LINES: &[u8] = b"1 put 11 31\n2 put 1f 32\n1 pin\n2 del 11\n1 range - - 9\n1 unpin\n3 get 1f";

const ANSWERS: &[u8] =
    b"none\nnone\npinned 2\nsome 31\npairs 2\npair 11 31\npair 1f 32\nunpinned\nsome 32\n";

/// How such a run ends that writes into these bytes, seven at a time, and reads so too, where the
/// reads fail after this many.
fn ran_into<R: Abort + Wait>(
    rt: &R,
    alloc: Global,
    shards: u8,
    reads: u64,
    out: &mut Writer,
) -> Result<(), RunFault> {
    let reader = Reader {
        rest: LINES,
        most: 7,
        reads,
    };
    let mut source = StdSource::new(reader);
    let mut sink = StdSink::new(out);
    run_shards(rt, alloc, shards, &mut source, &mut sink)
}

/// Whether a run between devices that fail after this many reads and this many writes, and so is
/// ended, has written a first part of the answers, and another all.
fn ends_so<R: Abort + Wait>(rt: &R, alloc: Global, shards: u8, reads: u64, writes: u64) -> bool {
    let mut out = Writer::new(alloc, 7, writes, false);
    let ran = ran_into(rt, alloc, shards, reads, &mut out);
    let written = out.bytes.as_slice();
    let is_whole = ran == Ok(()) && written.len() == ANSWERS.len();
    (ran == Err(RunFault::Device) || is_whole) && ANSWERS.starts_with(written)
}

/// Whether a run ends so that no device ends.
fn is_whole<R: Abort + Wait>(rt: &R, alloc: Global, shards: u8) -> bool {
    let mut out = Writer::new(alloc, 7, u64::MAX, false);
    let ran = ran_into(rt, alloc, shards, u64::MAX, &mut out);
    ran == Ok(()) && out.bytes.as_slice() == ANSWERS
}

/// Whether all runs over this many shards end so.
fn all_end<R: Abort + Wait>(rt: &R, alloc: Global, shards: u8) -> bool {
    for count in 0..24u64 {
        let by_reads = ends_so(rt, alloc, shards, count, u64::MAX);
        if !by_reads || !ends_so(rt, alloc, shards, u64::MAX, count) {
            return false;
        }
    }
    is_whole(rt, alloc, shards)
}

#[test]
fn devices_fail_over_shards(rt: HostRuntime) {
    confirm(&rt, all_end(&rt, rt.alloc(), 1), "one shard");
    confirm(&rt, all_end(&rt, rt.alloc(), 2), "two shards");
}
