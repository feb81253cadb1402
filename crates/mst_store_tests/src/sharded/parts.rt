//! Blocks whose parts are prepared by threads. Parts that are prepared one by one, or not at all,
//! and blocks that are taken back are tested in C (`tests/store/blocks_parts.c`).
ghost use Rattle.std.specs.Prelude.{◌≡◌};

use crate::confirming::confirm;
use crate::sharded::maps::{found, opened, put, taken};
use mst_blocks::{BlockFault, PartFault, Writer};
use mst_key::{Edit, Format};
use mst_parts::{Block, BlockPart, prepare_in_threads};
use mst_snapshots::Reader;
use mst_store::ApplyFault;
use std::alloc::Global;
use std::process::Abort;

/// Begins a block of these edits.
fn begun(
    rt: &impl Abort,
    alloc: Global,
    writer: Writer<Global>,
    edits: &[Edit],
) -> (Block<Global>, Vec<BlockPart<Global>>)
    ensures own { result.1.items ≡ result.0.parts }
{
    match Block::begin(writer, alloc, edits) {
        Ok(begun) => begun,
        Err(_) => panic!(rt; "memory"),
    }
}

/// A put in each of the three shards.
fn three_puts(rt: &impl Abort, value: u8) -> [Edit; 3] {
    [
        put(rt, b"a", value),
        put(rt, b"m", value),
        put(rt, b"z", value),
    ]
}

/// The values of the three keys in the reader's snapshot.
fn values(rt: &impl Abort, reader: Reader<Global>) -> (Reader<Global>, [u8; 3]) {
    let mut snapshot = taken(rt, reader);
    let values = [
        found(rt, &mut snapshot, b"a"),
        found(rt, &mut snapshot, b"m"),
        found(rt, &mut snapshot, b"z"),
    ];
    (snapshot.release(), values)
}

/// A put in the first shard, and more in the last one than a small shard has room for.
fn too_many_puts(rt: &impl Abort, alloc: Global) -> Vec<Edit> {
    let mut edits: Vec<Edit> = Vec::new(alloc);
    edits.push(put(rt, b"a", 1)).expect(rt, "memory");
    for last in 0..8 {
        edits.push(put(rt, &[b'z', last], 1)).expect(rt, "memory");
    }
    edits
}

#[test]
fn parts_are_prepared_by_threads(rt: HostRuntime) {
    let (writer, reader) = opened(&rt, 64, Format::One);
    let (block, mut parts) = begun(&rt, rt.alloc(), writer, &three_puts(&rt, 7));
    prepare_in_threads(&rt, rt.alloc(), parts.as_mut_slice(), 3);
    let (reader, before) = values(&rt, reader);
    let (_writer, told) = block.commit(rt.alloc(), parts);
    let (_reader, after) = values(&rt, reader);
    confirm(&rt, told == Ok(1) && before == [0, 0, 0], "it is block 1");
    confirm(&rt, after == [7, 7, 7], "each shard has its edit");
}

#[test]
fn parts_that_threads_prepared_tell_who_was_refused(rt: HostRuntime) {
    let (writer, _reader) = opened(&rt, 4, Format::Two);
    let edits = too_many_puts(&rt, rt.alloc());
    let (block, mut parts) = begun(&rt, rt.alloc(), writer, &edits);
    prepare_in_threads(&rt, rt.alloc(), parts.as_mut_slice(), 0);
    let no_room = PartFault::Refused(ApplyFault::NoRoom);
    let told_by_last = parts.get(2).and_then(|part| part.refusal());
    let told_by_first = parts.get(0).and_then(|part| part.refusal());
    confirm(
        &rt,
        told_by_last == Some(no_room) && told_by_first == None,
        "the last part tells it",
    );
    let (writer, told) = block.commit(rt.alloc(), parts);
    confirm(
        &rt,
        told == Err(BlockFault::Shard(2, no_room)) && writer.number() == 0,
        "the block is refused",
    );
}
