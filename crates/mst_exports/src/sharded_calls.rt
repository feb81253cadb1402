//! The calls of sharded maps for C. Their numbers, and the order of their tests, are those of the
//! calls of a store.
ghost use Rattle.std.specs.Prelude.{◌≡◌, ◌≢◌, ◌↔◌, ◌⊎◌, ℕ, List, pos, length as count, None, IsSome};
ghost use Rattle.mst_c.specs.Codes.{unknown_format, memory, bad_shape, bad_splits};
ghost use Rattle.mst_c.specs.Formats.{format_named};
ghost use Rattle.mst_c.specs.Opened.{IsSize};
ghost use Rattle.mst_c_blocks.specs.Counting.{FreeRowsTold};
ghost use Rattle.mst_c_blocks.specs.Making.{ApplyTold};
ghost use Rattle.mst_c_blocks.specs.Opened.{BlocksOpened, NoneHeld};
ghost use Rattle.mst_c_blocks.specs.Parts.{BeginTold, PrepareTold, CommitTold, CancelTold};
ghost use Rattle.mst_c_blocks.specs.Proving.{ProveTold, DirectoryTold};
ghost use Rattle.mst_c_blocks.specs.Reading.{NextTold, RangeTold, LenTold, FormatTold};
ghost use Rattle.mst_c_blocks.specs.Splits.{PacksSplits};
ghost use Rattle.mst_c_blocks.specs.Told.{GetTold, ShardsTold, NumberTold, RootTold, TryTold, ReleaseTold, CloseTold};

use mst_c_blocks::hand::{BlocksHand, PaddedBlocksHand};
use mst_c_blocks::{counting, making, opening, parts, proving, reading, telling};
use std::alloc::Global;

/// Opens a sharded map of the empty map in format 1 or 2, each shard with `rows` rows, and makes
/// block 0. Puts its writer into the first hand of `handles`, and a reader into each of the others.
/// What a hand held before is closed. The splits stand in a buffer: each is a byte for its length,
/// and its bytes. Returns 0; exactly for another format -3; otherwise -26 exactly if the buffer has
/// bytes that are no keys, or keys that do not rise strictly from above that of one zero byte, or
/// more than 1,023 of them; otherwise -10 exactly if a store cannot have that many rows or passes;
/// otherwise -9 if a growth was refused; and no other number. If it does not return 0, all hands
/// are empty.
#[unsafe(no_mangle)]
pub extern "C" fn mst_sharded_open(
    alloc: Global,
    format: u32,
    rows: u32,
    splits: &[u8],
    handles: &mut [PaddedBlocksHand],
) -> i32
    ensures opened { result ≡ pos 0 → BlocksOpened format rows splits.now handles.new }
    ensures empty { result ≢ pos 0 → NoneHeld handles.new }
    ensures format { result ≡ unknown_format ↔ (format_named format ≡ None) }
    ensures splits { result ≡ bad_splits
        ↔ IsSome (format_named format) × ((ss : List (List ℕ)) → PacksSplits splits.now ss → ⊥) }
    ensures size { result ≡ bad_shape ↔ IsSome (format_named format)
        × ((ss : List (List ℕ)) × PacksSplits splits.now ss)
        × ¬ (IsSize rows (count handles.old)) }
    ensures range { (result ≡ pos 0) ⊎ (result ≡ unknown_format) ⊎ (result ≡ bad_splits)
        ⊎ (result ≡ bad_shape) ⊎ (result ≡ memory) }
{
    opening::open(alloc, format, rows, splits, handles)
}

/// Closes the writer, the reader or the snapshot, whose pins end first; or a block that was begun,
/// and its writer with it; or a part, of which the block has a share still. Returns 0 or -7. The
/// map is freed with the last hand that is closed.
#[unsafe(no_mangle)]
pub extern "C" fn mst_sharded_close(alloc: Global, hand: &mut BlocksHand) -> i32
    ensures told { CloseTold hand.old.held result hand.new.held }
{
    telling::close(alloc, hand)
}

/// Returns how many shards the map has, 1 to 1,024; or -7; -8 for a block that was begun or a part.
#[unsafe(no_mangle)]
pub extern "C" fn mst_sharded_shards(alloc: Global, hand: &mut BlocksHand) -> i32
    ensures told { ShardsTold hand.old.held result hand.new.held }
{
    telling::shards(alloc, hand)
}

/// Sets `rows` to the number of rows that are free to the next block in the shard with this number,
/// from 0, or in the directory, which has the number of the shards. Returns 0; or -7, -8 for what
/// is no writer, -1 if there is no such shard, -21, and then `rows` stays.
#[unsafe(no_mangle)]
pub extern "C" fn mst_sharded_free_rows(
    alloc: Global,
    writer: &mut BlocksHand,
    shard: usize,
    rows: &mut u32,
) -> i32
    ensures told { FreeRowsTold writer.old.held shard rows.old result rows.new writer.new.held }
{
    counting::free_rows(alloc, writer, shard, rows)
}

/// Makes the edits of a buffer, which is as that of `mst_try_apply`, of all shards as the writer's
/// next block: whole, or not at all. Returns 0, and `number` is the block's number.
///
/// Otherwise nothing is changed, and `number` stays. Returns -21, -22, -9, -23 if a shard was
/// refused its edits, or -29 if another has written to it: `shard` is the number of this shard,
/// from 0. The same for the directory, and -9 if a list was refused memory: `shard` is then the
/// number of the shards. Returns -7; -5, -6, -25 for what is no edit, and then `place` is the
/// number of the first such one, from 0; -8 for what is no writer: `shard` stays, as with 0.
/// `place` stays where no edit is refused.
#[unsafe(no_mangle)]
pub extern "C" fn mst_sharded_apply(
    alloc: Global,
    writer: &mut BlocksHand,
    edits: &[u8],
    place: &mut usize,
    shard: &mut usize,
    number: &mut u64,
) -> i32
    ensures told { ApplyTold writer.old.held edits.now place.old shard.old number.old result
        place.new shard.new number.new writer.new.held }
{
    making::apply_edits(alloc, writer, edits, place, shard, number)
}

/// Begins the writer's next block, of the edits of a buffer as that of `mst_sharded_apply`: the
/// writer's hand becomes that of the block, and each of the hands of `parts`, which are closed
/// first, gets the part of the shard with its number. Returns 0. Otherwise the writer is as it was:
/// returns -7, -8 for what is no writer, -10 if there are not as many hands as shards, and then the
/// hands of `parts` stay; -5, -6, -25 for what is no edit, with `place` as `mst_sharded_apply`
/// has it, and -9 if a growth was refused, and then the hands of `parts` are empty.
#[unsafe(no_mangle)]
pub extern "C" fn mst_sharded_begin(
    alloc: Global,
    writer: &mut BlocksHand,
    edits: &[u8],
    place: &mut usize,
    parts: &mut [PaddedBlocksHand],
) -> i32
    ensures told { BeginTold writer.old.held edits.now place.old parts.old result place.new
        writer.new.held parts.new }
{
    parts::begin(alloc, writer, edits, place, parts)
}

/// Prepares the part of a block: makes its edits in free rows and hashes them. Readers see nothing
/// of it. Returns 0, also where there is nothing to prepare; the number with which
/// `mst_sharded_commit` will refuse the block, unless a shard before it is refused its edits too:
/// -21, -22, -9, -23 or -29; -7; -8 for what is no part, or one of a block that was made or taken
/// back; -21 if another call has the part.
#[unsafe(no_mangle)]
pub extern "C" fn mst_sharded_prepare(alloc: Global, part: &mut BlocksHand) -> i32
    ensures told { PrepareTold part.old.held result part.new.held }
{
    parts::prepare(alloc, part)
}

/// Makes the block that was begun, of its parts, whether they are prepared or not: returns what
/// `mst_sharded_apply` returns of the same edits, and tells `shard` and `number` as that does. The
/// hand has the writer again. Returns -7; -8 for what is no block; -21 while a part is just being
/// prepared, and then `shard` is as it was, and the block may be made later.
#[unsafe(no_mangle)]
pub extern "C" fn mst_sharded_commit(
    alloc: Global,
    block: &mut BlocksHand,
    shard: &mut usize,
    number: &mut u64,
) -> i32
    ensures told { CommitTold block.old.held shard.old number.old result shard.new number.new
        block.new.held }
{
    parts::commit(alloc, block, shard, number)
}

/// Takes the block that was begun back: nothing has changed, and the hand has the writer again.
/// Returns 0; -7; -8 for what is no block; -21 while a part is just being prepared, and then the
/// block stays.
#[unsafe(no_mangle)]
pub extern "C" fn mst_sharded_cancel(alloc: Global, block: &mut BlocksHand) -> i32
    ensures told { CancelTold block.old.held result block.new.held }
{
    parts::cancel(alloc, block)
}

/// Sets `number` to the number of the writer's last block, or of the snapshot's block: 0 is the
/// empty map. Returns 0; or -7, -8 for what is neither, and then the number stays.
#[unsafe(no_mangle)]
pub extern "C" fn mst_sharded_number(alloc: Global, hand: &mut BlocksHand, number: &mut u64) -> i32
    ensures told { NumberTold hand.old.held number.old result number.new hand.new.held }
{
    telling::number(alloc, hand, number)
}

/// Turns the reader into a snapshot, which pins all shards and the directory as of one block: each
/// read is of it until `mst_sharded_release`. Returns 0; -7; -8 for what is no reader; -30 while a
/// block is published, and then the reader stays.
#[unsafe(no_mangle)]
pub extern "C" fn mst_sharded_try_snapshot(alloc: Global, reader: &mut BlocksHand) -> i32
    ensures told { TryTold reader.old.held result reader.new.held }
{
    telling::try_snapshot(alloc, reader)
}

/// Turns the snapshot into a reader: its pins end. Returns 0; -7; -8 for what is no
/// snapshot.
#[unsafe(no_mangle)]
pub extern "C" fn mst_sharded_release(alloc: Global, snapshot: &mut BlocksHand) -> i32
    ensures told { ReleaseTold snapshot.old.held result snapshot.new.held }
{
    telling::release(alloc, snapshot)
}

/// As `mst_get`: of the writer from its last block, of a snapshot from its block, of a reader from
/// the current version of the key's shard. Returns -7, -5, -1, -2, of the writer -29 if another has
/// written to that shard, and -8 for a block that was begun or a part.
#[unsafe(no_mangle)]
pub extern "C" fn mst_sharded_get(
    alloc: Global,
    hand: &mut BlocksHand,
    key: &[u8],
    room: &mut [u8],
) -> i32
    ensures told { GetTold hand.old.held key.now room.old result room.new hand.new.held }
{
    telling::get(alloc, hand, key, room)
}

/// As `mst_next`, in the map of a snapshot's block. Returns -7; -5 for a bound of more than 32
/// bytes; -8 for what is no snapshot; -1 if there is no such pair; -2 if one of the two rooms is
/// too short. With each of these both rooms and `next_length` stay.
#[unsafe(no_mangle)]
pub extern "C" fn mst_sharded_next(
    alloc: Global,
    snapshot: &mut BlocksHand,
    key: &[u8],
    key_room: &mut [u8],
    next_length: &mut usize,
    room: &mut [u8],
) -> i32
    ensures told { NextTold snapshot.old.held key.now key_room.old next_length.old room.old result
        key_room.new next_length.new room.new snapshot.new.held }
{
    reading::next(alloc, snapshot, key, key_room, next_length, room)
}

/// As `mst_range`, in the map of a snapshot's block. Returns 0 or -2. Returns -7, -5 for a bound of
/// more than 32 bytes, -8 for what is no snapshot, -9: room and both numbers stay.
#[unsafe(no_mangle)]
pub extern "C" fn mst_sharded_range(
    alloc: Global,
    snapshot: &mut BlocksHand,
    from: &[u8],
    to: &[u8],
    limit: u32,
    room: &mut [u8],
    count: &mut usize,
    length: &mut usize,
) -> i32
    ensures told { RangeTold snapshot.old.held from.now to.now limit room.old count.old length.old
        result room.new count.new length.new snapshot.new.held }
{
    reading::range(alloc, snapshot, from, to, limit, room, count, length)
}

/// Sets `count` to the number of the pairs of a snapshot's block, of all shards together. Returns
/// 0; or -7, -8 for what is no snapshot, and then the count stays.
#[unsafe(no_mangle)]
pub extern "C" fn mst_sharded_len(alloc: Global, snapshot: &mut BlocksHand, count: &mut u64) -> i32
    ensures told { LenTold snapshot.old.held count.old result count.new snapshot.new.held }
{
    reading::len(alloc, snapshot, count)
}

/// Returns the number of the format of a snapshot's block, 1 or 2; -7; -8 for what is no
/// snapshot.
#[unsafe(no_mangle)]
pub extern "C" fn mst_sharded_format(alloc: Global, snapshot: &mut BlocksHand) -> i32
    ensures told { FormatTold snapshot.old.held result snapshot.new.held }
{
    reading::format(alloc, snapshot)
}

/// Returns 32, the length of the root digest of the writer's last block, or of the snapshot's
/// block, and its bytes stand first in the room. Returns -7; -8 for what is neither; -2 for a
/// room of less than 32 bytes.
#[unsafe(no_mangle)]
pub extern "C" fn mst_sharded_root(alloc: Global, hand: &mut BlocksHand, root: &mut [u8]) -> i32
    ensures told { RootTold hand.old.held root.old result root.new hand.new.held }
{
    proving::root(alloc, hand, root)
}

/// Makes the proof of the key's answer against the root digest of the same snapshot. Returns 0: its
/// bytes stand first in the room, and their number in `length`. Returns -2: `length` is their
/// number, and the room stays. Returns -7, -5, -8 for what is no snapshot, -9: both stay.
#[unsafe(no_mangle)]
pub extern "C" fn mst_sharded_prove(
    alloc: Global,
    snapshot: &mut BlocksHand,
    key: &[u8],
    room: &mut [u8],
    length: &mut usize,
) -> i32
    ensures told { ProveTold snapshot.old.held key.now room.old length.old result room.new
        length.new snapshot.new.held }
{
    proving::prove(alloc, snapshot, key, room, length)
}

/// Lists the directory of a snapshot as `mst_range` lists pairs: of each shard its lower bound,
/// with its root digest and its upper bound as the value. Returns 0 or -2. Returns -7, -8 for what
/// is no snapshot, -9: room and both numbers stay.
#[unsafe(no_mangle)]
pub extern "C" fn mst_sharded_directory(
    alloc: Global,
    snapshot: &mut BlocksHand,
    room: &mut [u8],
    count: &mut usize,
    length: &mut usize,
) -> i32
    ensures told { DirectoryTold snapshot.old.held room.old count.old length.old result room.new
        count.new length.new snapshot.new.held }
{
    proving::directory(alloc, snapshot, room, count, length)
}
