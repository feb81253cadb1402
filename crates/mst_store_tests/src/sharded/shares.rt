//! A snapshot that is dropped, and has its share of the map for good. In C a hand that is closed
//! releases its snapshot first: each order of that is tested there, with a map that outlives its
//! writer (`tests/store/blocks.c`).
use crate::confirming::confirm;
use crate::sharded::blocks::{ask_block, is_whole, make_block};
use crate::sharded::maps::{Users, opened, shape_of, taken, users_of};
use mst_blocks::{BlockFault, PartFault, Writer};
use mst_key::Format;
use mst_snapshots::Reader;
use mst_store::ApplyFault;
use std::alloc::Global;
use std::process::Abort;

/// The writer of a new map, and a reader. A snapshot of block 1 was dropped.
fn with_one_dropped(
    rt: &(impl Abort + AllocGlobal),
    rows: u32,
) -> (Writer<Global>, Reader<Global>) {
    let Users {
        writer,
        first,
        second,
    } = users_of(rt, rt.alloc(), shape_of(rows, Format::One));
    let writer = make_block(rt, rt.alloc(), writer, 1);
    let _dropped = taken(rt, first);
    (writer, second)
}

/// Confirms that the reader's snapshot is whole, and of this block.
fn confirm_last(rt: &impl Abort, reader: Reader<Global>, number: u64) -> Reader<Global> {
    let mut snapshot = taken(rt, reader);
    confirm(rt, is_whole(rt, &mut snapshot, number), "the last block");
    snapshot.release()
}

// One pair takes two rows of a shard: those that are held, those of the last block, and those of
// the next one.
#[test]
fn blocks_go_on_beside_a_snapshot_that_was_dropped(rt: HostRuntime) {
    let (mut writer, reader) = with_one_dropped(&rt, 6);
    for number in 2..22u8 {
        writer = make_block(&rt, rt.alloc(), writer, number);
    }
    let _reader = confirm_last(&rt, reader, 21);
}

#[test]
fn a_snapshot_that_was_dropped_holds_its_rows(rt: HostRuntime) {
    let (writer, reader) = with_one_dropped(&rt, 4);
    let writer = make_block(&rt, rt.alloc(), writer, 2);
    let (_writer, told) = ask_block(&rt, rt.alloc(), writer, 3);
    let no_room = BlockFault::Shard(0, PartFault::Refused(ApplyFault::NoRoom));
    confirm(&rt, told == Err(no_room), "no room for block 3");
    let _reader = confirm_last(&rt, reader, 2);
}
