//! Opening a sharded map for C: the first hand is its writer's, the others are its readers'.
ghost use Rattle.std.specs.Prelude.{◌≡◌, ◌≢◌, ◌↔◌, ◌⊎◌, ◌<◌, ◌≤◌, ◌+◌, ℕ, List, true, pos, length, get_or, vec_len, Some, None, IsSome};
ghost use Rattle.std.specs.Arc.{arc_value};
ghost use Rattle.mst_store.specs.Passes.{IsShape};
ghost use Rattle.mst_shards.specs.Opening.{Dealt, IsLot, seats_of};
ghost use Rattle.mst_shards.specs.Sharding.{IsSplits};
ghost use Rattle.mst_c.specs.Codes.{unknown_format, memory, bad_shape, bad_splits};
ghost use Rattle.mst_c.specs.Formats.{format_named as named};
ghost use Rattle.mst_c.specs.Opened.{IsSize};
ghost use Rattle.mst_c_blocks.specs.declared.hand.PaddedBlocksHand.{PaddedBlocksHand};
ghost use Rattle.mst_c_blocks.specs.declared.role_box.Role.TheVariants as role;
ghost use Rattle.mst_c_blocks.specs.Opened.{HoldsWriter, reader_of, new_reader, HandsOpened, BlocksOpened, NoneHeld};
ghost use Rattle.mst_c_blocks.specs.Splits.{splits_bytes, PacksSplits};

use crate::hand::PaddedBlocksHand;
use crate::role_box::{Role, hand_out_padded};
use crate::splits::{list_splits, pack_splits};
use crate::telling::close;
use mst_blocks::Writer;
use mst_c::codes::{BAD_SHAPE, BAD_SPLITS, MEMORY, UNKNOWN_FORMAT};
use mst_c::formats::format_named;
use mst_c::opening::MOST_PASSES;
use mst_key::{Format, Key};
use mst_shards::{AllSeats, Lot, Sharded, ShardsFault, WriterLot};
use mst_snapshots::Reader;
use mst_store::{Shape, is_shape};
use std::alloc::Global;
use std::sync::Arc;

// ---- the hands of one map

/// The writer of a map goes into its hand.
fn hand_writer(
    alloc: Global,
    map: &Arc<Sharded<Global>, Global>,
    lot: WriterLot<Global>,
    hand: &mut PaddedBlocksHand,
) -> bool
    requires lot { IsLot (arc_value map.now) lot }
    requires empty { hand.old.hand.held ≡ None }
    ensures held { result ≡ true → HoldsWriter (arc_value map.now) hand.new.hand.held }
{
    match Writer::new(map, alloc, lot) {
        Ok(writer) => hand_out_padded(alloc, Role::Writer(writer), hand),
        Err(_) => false,
    }
}

/// A reader of a map goes into its hand.
fn hand_reader(
    alloc: Global,
    map: &Arc<Sharded<Global>, Global>,
    lot: Lot<Global>,
    hand: &mut PaddedBlocksHand,
) -> bool
    requires lot { IsLot (arc_value map.now) lot }
    requires empty { hand.old.hand.held ≡ None }
    ensures held { result ≡ true
        → hand.new.hand.held ≡ Some (role.Reader (reader_of (arc_value map.now) lot)) }
{
    match Reader::new(map, alloc, lot) {
        Ok(reader) => hand_out_padded(alloc, Role::Reader(reader), hand),
        Err(_) => false,
    }
}

/// A reader goes into its hand, if all before it went into theirs.
fn hand_next(
    alloc: Global,
    map: &Arc<Sharded<Global>, Global>,
    lot: Lot<Global>,
    hand: &mut PaddedBlocksHand,
    all: bool,
) -> bool
    requires lot { IsLot (arc_value map.now) lot }
    requires empty { hand.old.hand.held ≡ None }
    ensures all { result ≡ true → all ≡ true }
    ensures held { result ≡ true
        → hand.new.hand.held ≡ Some (role.Reader (reader_of (arc_value map.now) lot)) }
{
    all && hand_reader(alloc, map, lot, hand)
}

/// A reader for each of the lots goes into the next hand behind the first one, which stays.
fn hand_readers(
    alloc: Global,
    map: &Arc<Sharded<Global>, Global>,
    lots: Vec<Lot<Global>, Global>,
    hands: &mut [PaddedBlocksHand],
) -> bool
    requires count { vec_len lots < length hands.old }
    requires own { (k : ℕ) (d : Dealt) → k < vec_len lots
        → IsLot (arc_value map.now) (get_or lots.items k d) }
    requires empty { (k : ℕ) (h : PaddedBlocksHand) → 0 < k → k < length hands.old
        → (get_or hands.old k h).hand.held ≡ None }
    ensures first { (h : PaddedBlocksHand)
        → (get_or hands.new 0 h).hand.held ≡ (get_or hands.old 0 h).hand.held }
    ensures all { result ≡ true → (k : ℕ) (d : Dealt) (h : PaddedBlocksHand) → k < vec_len lots
        → (get_or hands.new (k + 1) h).hand.held
        ≡ Some (role.Reader (reader_of (arc_value map.now) (get_or lots.items k d))) }
{
    let mut all = true;
    let mut at = 0;
    for lot in lots {
        at += 1;
        all = hand_next(alloc, map, lot, &mut hands[at], all);
    }
    all
}

/// The writer and the readers of a map go into their hands, if there is memory. All hands are empty
/// before.
fn hand_all(
    alloc: Global,
    map: &Arc<Sharded<Global>, Global>,
    lot: WriterLot<Global>,
    lots: Vec<Lot<Global>, Global>,
    hands: &mut [PaddedBlocksHand],
) -> bool
    requires count { length hands.old ≡ vec_len lots + 1 }
    requires lot { IsLot (arc_value map.now) lot }
    requires own { (k : ℕ) (d : Dealt) → k < vec_len lots
        → IsLot (arc_value map.now) (get_or lots.items k d) }
    requires empty { NoneHeld hands.old }
    ensures writer { result ≡ true → (h : PaddedBlocksHand)
        → HoldsWriter (arc_value map.now) (get_or hands.new 0 h).hand.held }
    ensures readers { result ≡ true → (k : ℕ) (d : Dealt) (h : PaddedBlocksHand)
        → k < vec_len lots → (get_or hands.new (k + 1) h).hand.held
        ≡ Some (role.Reader (reader_of (arc_value map.now) (get_or lots.items k d))) }
{
    if hand_writer(alloc, map, lot, &mut hands[0]) {
        hand_readers(alloc, map, lots, hands)
    } else {
        false
    }
}

/// Deals a map with these seats to the hands, if there is memory. All hands are empty before.
fn deal_all(
    alloc: Global,
    map: &Arc<Sharded<Global>, Global>,
    seats: AllSeats<Global>,
    hands: &mut [PaddedBlocksHand],
) -> bool
    requires own { seats ≡ seats_of (arc_value map.now) }
    requires count { (arc_value map.now).directory.passes ≡ length hands.old }
    requires some { 0 < length hands.old }
    requires empty { NoneHeld hands.old }
    ensures writer { result ≡ true → (h : PaddedBlocksHand)
        → HoldsWriter (arc_value map.now) (get_or hands.new 0 h).hand.held }
    ensures readers { result ≡ true → (k : ℕ) (h : PaddedBlocksHand) → 0 < k
        → k < length hands.new
        → (get_or hands.new k h).hand.held
        ≡ Some (role.Reader (new_reader (arc_value map.now) k)) }
{
    match map.deal(alloc, seats) {
        Ok((lot, lots)) => hand_all(alloc, map, lot, lots, hands),
        Err(_) => false,
    }
}

/// No hand holds anything then.
pub(crate) fn close_all(alloc: Global, hands: &mut [PaddedBlocksHand])
    ensures empty { NoneHeld hands.new }
{
    for padded in hands.iter_mut() {
        let _code = close(alloc, &mut padded.hand);
    }
}

// ---- the opening

/// The passes of a shard that has one for each hand. Of more hands than a store has passes it is
/// one more than that.
fn passes_for(hands: usize) -> u32
    ensures same { hands ≤ 32 → result ≡ hands }
    ensures fits { result ≤ 32 → result ≡ hands }
{
    if hands > MOST_PASSES {
        return MOST_PASSES as u32 + 1;
    }
    hands as u32
}

/// Hands the writer and the readers of a map out. If a growth is refused, all hands are empty.
fn hand_map(
    alloc: Global,
    map: Sharded<Global>,
    seats: AllSeats<Global>,
    hands: &mut [PaddedBlocksHand],
) -> i32
    requires own { seats ≡ seats_of map }
    requires count { map.directory.passes ≡ length hands.old }
    requires some { 0 < length hands.old }
    requires empty { NoneHeld hands.old }
    ensures writer { result ≡ pos 0 → (h : PaddedBlocksHand)
        → HoldsWriter map (get_or hands.new 0 h).hand.held }
    ensures readers { result ≡ pos 0 → (k : ℕ) (h : PaddedBlocksHand) → 0 < k
        → k < length hands.new
        → (get_or hands.new k h).hand.held ≡ Some (role.Reader (new_reader map k)) }
    ensures empty { result ≢ pos 0 → NoneHeld hands.new }
    ensures range { (result ≡ pos 0) ⊎ (result ≡ memory) }
{
    let Ok(map) = Arc::new(alloc, map) else {
        return MEMORY;
    };
    if deal_all(alloc, &map, seats, hands) {
        return 0;
    }
    close_all(alloc, hands);
    MEMORY
}

/// Opens a sharded map of these splits, and hands its writer and its readers out.
fn open_of(
    alloc: Global,
    splits: Vec<Key, Global>,
    shape: Shape,
    hands: &mut [PaddedBlocksHand],
) -> i32
    requires splits { IsSplits splits.items }
    requires shape { IsShape shape }
    requires passes { shape.passes ≡ length hands.old }
    requires empty { NoneHeld hands.old }
    ensures opened { result ≡ pos 0 → HandsOpened splits.items shape hands.new }
    ensures empty { result ≢ pos 0 → NoneHeld hands.new }
    ensures range { (result ≡ pos 0) ⊎ (result ≡ memory) }
{
    match Sharded::open(alloc, splits, shape) {
        Ok((map, seats)) => hand_map(alloc, map, seats, hands),
        Err(ShardsFault::Splits) => unreachable!(),
        Err(ShardsFault::Shape) => unreachable!(),
        Err(ShardsFault::Memory(_)) => MEMORY,
    }
}

/// Opens a sharded map of the splits that the bytes pack, and hands its writer and its readers out.
fn open_packed(alloc: Global, packed: &[u8], shape: Shape, hands: &mut [PaddedBlocksHand]) -> i32
    requires packs { (ss : List (List ℕ)) × PacksSplits packed.now ss }
    requires shape { IsShape shape }
    requires passes { shape.passes ≡ length hands.old }
    requires empty { NoneHeld hands.old }
    ensures opened { result ≡ pos 0 → (ss : List (List ℕ)) × (packed.now ≡ splits_bytes ss)
        × HandsOpened ss shape hands.new }
    ensures empty { result ≢ pos 0 → NoneHeld hands.new }
    ensures range { (result ≡ pos 0) ⊎ (result ≡ memory) }
{
    match list_splits(alloc, packed) {
        Ok(splits) => open_of(alloc, splits, shape, hands),
        Err(_) => MEMORY,
    }
}

/// Opens a sharded map of the splits that the bytes pack, if its shards may have this shape. No
/// memory is taken before that is known.
fn open_shaped(
    alloc: Global,
    format: Format,
    rows: u32,
    packed: &[u8],
    hands: &mut [PaddedBlocksHand],
) -> i32
    requires packs { (ss : List (List ℕ)) × PacksSplits packed.now ss }
    requires empty { NoneHeld hands.old }
    ensures opened { result ≡ pos 0 → (ss : List (List ℕ)) × (packed.now ≡ splits_bytes ss)
        × HandsOpened ss (record { rows = rows; passes = length hands.new; format = format })
        hands.new }
    ensures empty { result ≢ pos 0 → NoneHeld hands.new }
    ensures size { result ≡ bad_shape ↔ ¬ (IsSize rows (length hands.old)) }
    ensures range { (result ≡ pos 0) ⊎ (result ≡ bad_shape) ⊎ (result ≡ memory) }
{
    let passes = passes_for(hands.len());
    let shape = Shape {
        rows,
        passes,
        format,
    };
    if is_shape(shape) {
        open_packed(alloc, packed, shape, hands)
    } else {
        BAD_SHAPE
    }
}

/// Opens a sharded map in a format. All hands are empty before. The splits are tested before the
/// shape, and both before memory is taken.
fn open_in(
    alloc: Global,
    format: Format,
    rows: u32,
    packed: &[u8],
    hands: &mut [PaddedBlocksHand],
) -> i32
    requires empty { NoneHeld hands.old }
    ensures opened { result ≡ pos 0 → (ss : List (List ℕ)) × (packed.now ≡ splits_bytes ss)
        × HandsOpened ss (record { rows = rows; passes = length hands.new; format = format })
        hands.new }
    ensures empty { result ≢ pos 0 → NoneHeld hands.new }
    ensures splits { result ≡ bad_splits
        ↔ ((ss : List (List ℕ)) → PacksSplits packed.now ss → ⊥) }
    ensures size { result ≡ bad_shape ↔ ((ss : List (List ℕ)) × PacksSplits packed.now ss)
        × ¬ (IsSize rows (length hands.old)) }
    ensures range { (result ≡ pos 0) ⊎ (result ≡ bad_splits) ⊎ (result ≡ bad_shape)
        ⊎ (result ≡ memory) }
{
    if pack_splits(packed) {
        open_shaped(alloc, format, rows, packed, hands)
    } else {
        BAD_SPLITS
    }
}

/// As `mst_sharded_open` of `mst_exports` says.
pub fn open(
    alloc: Global,
    format: u32,
    rows: u32,
    packed: &[u8],
    hands: &mut [PaddedBlocksHand],
) -> i32
    ensures opened { result ≡ pos 0 → BlocksOpened format rows packed.now hands.new }
    ensures empty { result ≢ pos 0 → NoneHeld hands.new }
    ensures format { result ≡ unknown_format ↔ (named format ≡ None) }
    ensures splits { result ≡ bad_splits
        ↔ IsSome (named format) × ((ss : List (List ℕ)) → PacksSplits packed.now ss → ⊥) }
    ensures size { result ≡ bad_shape ↔ IsSome (named format)
        × ((ss : List (List ℕ)) × PacksSplits packed.now ss)
        × ¬ (IsSize rows (length hands.old)) }
    ensures range { (result ≡ pos 0) ⊎ (result ≡ unknown_format) ⊎ (result ≡ bad_splits)
        ⊎ (result ≡ bad_shape) ⊎ (result ≡ memory) }
{
    close_all(alloc, hands);
    match format_named(format) {
        Some(format) => open_in(alloc, format, rows, packed, hands),
        None => UNKNOWN_FORMAT,
    }
}
