//! A writer that makes blocks on a thread of its own, while a reader takes snapshots on another:
//! each snapshot is of one block, whole, and numbers never fall. Then the writer goes on in the
//! thread of the test. Three readers that look at root digests and proofs too are tested in C
//! (`tests/store/blocks_threads.c`).
use crate::confirming::confirm;
use crate::sharded::blocks::{is_whole, make_block};
use crate::sharded::maps::opened;
use mst_blocks::Writer;
use mst_key::Format;
use mst_snapshots::Reader;
use std::alloc::Global;
use std::process::Abort;
use std::sync::Wait;
use std::thread::{Threads, join};

/// How many blocks the writer makes.
const BLOCKS: u8 = 240;

/// The most snapshots that a reader takes. It ends with the last block.
const SNAPSHOTS: usize = 100_000;

/// Makes all blocks.
fn writes(rt: &impl Abort, alloc: Global, writer: Writer<Global>) -> Writer<Global> {
    let mut writer = writer;
    for number in 1..=BLOCKS {
        writer = make_block(rt, alloc, writer, number);
    }
    writer
}

/// The number of the next snapshot, which is whole.
fn sees<R: Wait + Abort>(rt: &R, reader: Reader<Global>) -> (Reader<Global>, u64) {
    let mut snapshot = reader.snapshot(rt);
    let number = snapshot.number();
    confirm(
        rt,
        is_whole(rt, &mut snapshot, number),
        "it is of one block",
    );
    (snapshot.release(), number)
}

/// Takes snapshots up to that of the last block. Returns its number.
fn reads<R: Wait + Abort>(rt: &R, reader: Reader<Global>) -> u64 {
    let (mut reader, mut last) = (reader, 0);
    for _ in 0..SNAPSHOTS {
        let (again, number) = sees(rt, reader);
        confirm(rt, last <= number, "numbers never fall");
        reader = again;
        last = number;
        if last == u64::from(BLOCKS) {
            break;
        }
    }
    last
}

/// Writes on one thread, and reads on another. Returns the number of the last snapshot.
fn write_and_read<R: Threads + Wait + Sync + Abort + AllocGlobal>(
    rt: &R,
    writer: Writer<Global>,
    reader: Reader<Global>,
) -> (Writer<Global>, u64) {
    let alloc = rt.alloc();
    join(
        rt,
        || -> Writer<Global> { writes(rt, alloc, writer) },
        || -> u64 { reads(rt, reader) },
    )
}

#[test]
fn snapshots_are_whole_while_blocks_are_made(rt: HostRuntime) {
    let (writer, reader) = opened(&rt, 64, Format::One);
    let (writer, last) = write_and_read(&rt, writer, reader);
    confirm(&rt, last == u64::from(BLOCKS), "the last block is seen");
    let _writer = make_block(&rt, rt.alloc(), writer, BLOCKS + 1);
}
