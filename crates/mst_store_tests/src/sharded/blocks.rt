//! Blocks of one put in each shard, and snapshots of them. The value of each key is the number of
//! the block.
use crate::confirming::confirm;
use crate::sharded::maps::{found, put};
use mst_blocks::{BlockFault, Writer};
use mst_snapshots::Snapshot;
use std::alloc::Allocator;
use std::process::Abort;

/// Asks for the block of this number.
pub(crate) fn ask_block<A: Allocator + Copy>(
    rt: &impl Abort,
    alloc: A,
    writer: Writer<A>,
    number: u8,
) -> (Writer<A>, Result<u64, BlockFault>) {
    let edits = [
        put(rt, b"a", number),
        put(rt, b"m", number),
        put(rt, b"z", number),
    ];
    writer.apply(alloc, &edits)
}

/// Makes the block of this number, which is the next one.
pub(crate) fn make_block<A: Allocator + Copy>(
    rt: &impl Abort,
    alloc: A,
    writer: Writer<A>,
    number: u8,
) -> Writer<A> {
    let (writer, told) = ask_block(rt, alloc, writer, number);
    confirm(rt, told == Ok(u64::from(number)), "the block is made");
    writer
}

/// Whether each shard has the value of this block in a snapshot, and there is no other pair. Block
/// 0 is the empty map.
pub(crate) fn is_whole<A: Allocator + Copy>(
    rt: &impl Abort,
    snapshot: &mut Snapshot<A>,
    number: u64,
) -> bool {
    let values = [
        found(rt, snapshot, b"a"),
        found(rt, snapshot, b"m"),
        found(rt, snapshot, b"z"),
    ];
    let pairs = if number == 0 { 0 } else { 3 };
    snapshot.len() == pairs
        && snapshot.number() == number
        && values.iter().all(|value| u64::from(*value) == number)
}
