//! Blocks that are made in parts, as C is told of them.
ghost use Rattle.std.specs.Prelude.{◌≡◌, true, length, vec_len, Some, None};
ghost use Rattle.mst_c.specs.Batches.{edits_in};
ghost use Rattle.mst_c_blocks.specs.Begun.{shards_to_begin};
ghost use Rattle.mst_c_blocks.specs.Opened.{NoneHeld};
ghost use Rattle.mst_c_blocks.specs.Parts.{WaitsIn, AllWait, AreHanded, BegunBy, SpeltBegin, begin_code as code_of_begin, prepare_code as code_of_prepare, commit_code, committed_shard, committed_number, cancel_code as code_of_cancel, BeginTold, PrepareTold, CommitTold, CancelTold};
ghost use Rattle.mst_c_blocks.specs.declared.role_box.Role.TheVariants as role;

use crate::begun::{CommitRefusal, PartRefusal, PartShare};
use crate::hand::{BlocksHand, BlocksTaken, PaddedBlocksHand, give, take};
use crate::making::{BlockRefusal, part_code, tell_made};
use crate::opening::close_all;
use crate::role_box::{Role, hand_out_padded};
use mst_c::batches::fault_code;
use mst_c::codes::{BAD_SHAPE, BUSY, CLOSED, MEMORY, WRONG_STATE};
use mst_c::packing::Packed;
use std::alloc::Global;

// ---- the hands of the parts

/// A hand waits for a part, if all before it do.
fn wait_next(alloc: Global, hand: &mut PaddedBlocksHand, all: bool) -> bool
    requires empty { hand.old.hand.held ≡ None }
    ensures all { result ≡ true → all ≡ true }
    ensures waits { result ≡ true → WaitsIn hand.new.hand.held }
{
    all && hand_out_padded(alloc, Role::Part(None), hand)
}

/// Each hand waits for a part, if there is memory. All hands are empty before.
fn wait_all(alloc: Global, hands: &mut [PaddedBlocksHand]) -> bool
    requires empty { NoneHeld hands.old }
    ensures waits { result ≡ true → AllWait hands.new }
{
    let mut all = true;
    for hand in hands.iter_mut() {
        all = wait_next(alloc, hand, all);
    }
    all
}

/// A part goes into the hand that waits for it.
fn hand_part(alloc: Global, part: PartShare, hand: &mut PaddedBlocksHand)
    requires waits { WaitsIn hand.old.hand.held }
    ensures held { hand.new.hand.held ≡ Some (role.Part (Some part)) }
{
    let Some(mut taken) = take(alloc, &mut hand.hand) else {
        unreachable!()
    };
    taken.held.settle(part);
    give(&mut hand.hand, taken);
}

/// Each part goes into its hand.
fn hand_parts(alloc: Global, parts: Vec<PartShare, Global>, hands: &mut [PaddedBlocksHand])
    requires count { vec_len parts ≡ length hands.old }
    requires waits { AllWait hands.old }
    ensures handed { AreHanded parts.items hands.new }
{
    let mut at = 0;
    for part in parts {
        hand_part(alloc, part, &mut hands[at]);
        at += 1;
    }
}

// ---- beginning

/// Begins a block of the edits of a buffer, and hands its parts out. Returns false if a growth was
/// refused: then the writer is as it was, and the hands are empty.
fn begin_of(
    alloc: Global,
    mut taken: BlocksTaken,
    packed: &Packed<'_>,
    hands: &mut [PaddedBlocksHand],
) -> (BlocksTaken, bool)
    requires count { shards_to_begin taken.held.value ≡ Some (length hands.old) }
    requires empty { NoneHeld hands.old }
    ensures begun { BegunBy result.1 packed.now taken.held.value result.0.held.value hands.new }
{
    if !wait_all(alloc, hands) {
        close_all(alloc, hands);
        return (taken, false);
    }
    match taken.held.begin(alloc, packed) {
        Some(parts) => {
            hand_parts(alloc, parts, hands);
            (taken, true)
        }
        None => {
            close_all(alloc, hands);
            (taken, false)
        }
    }
}

/// The code of a begin.
fn begin_code(begun: bool) -> i32
    ensures code { result ≡ code_of_begin begun }
{
    if begun { 0 } else { MEMORY }
}

/// Begins a block of the edits of a buffer, if there are as many hands as shards.
fn begin_spelt(
    alloc: Global,
    taken: BlocksTaken,
    edits: &[u8],
    place: &mut usize,
    hands: &mut [PaddedBlocksHand],
) -> (BlocksTaken, i32)
    requires count { shards_to_begin taken.held.value ≡ Some (length hands.old) }
    ensures told { SpeltBegin (edits_in edits.now) taken.held.value place.old result.1 place.new
        result.0.held.value hands.new }
{
    close_all(alloc, hands);
    match Packed::of(edits) {
        Ok(packed) => {
            let (taken, begun) = begin_of(alloc, taken, &packed, hands);
            (taken, begin_code(begun))
        }
        Err(bad) => {
            *place = bad.place;
            (taken, fault_code(bad.fault))
        }
    }
}

/// As `mst_sharded_begin` of `mst_exports` says.
pub fn begin(
    alloc: Global,
    hand: &mut BlocksHand,
    edits: &[u8],
    place: &mut usize,
    parts: &mut [PaddedBlocksHand],
) -> i32
    ensures told { BeginTold hand.old.held edits.now place.old parts.old result place.new
        hand.new.held parts.new }
{
    let Some(taken) = take(alloc, hand) else {
        return CLOSED;
    };
    let Some(shards) = taken.held.shards_to_begin() else {
        give(hand, taken);
        return WRONG_STATE;
    };
    if parts.len() != shards {
        give(hand, taken);
        return BAD_SHAPE;
    }
    let (taken, code) = begin_spelt(alloc, taken, edits, place, parts);
    give(hand, taken);
    code
}

// ---- preparing

/// The code of what came of a part.
fn prepare_code(prepared: Result<(), PartRefusal>) -> i32
    ensures code { result ≡ code_of_prepare prepared }
{
    match prepared {
        Ok(()) => 0,
        Err(PartRefusal::NoPart) => WRONG_STATE,
        Err(PartRefusal::Busy) => BUSY,
        Err(PartRefusal::Refused(fault)) => part_code(fault),
    }
}

/// As `mst_sharded_prepare` of `mst_exports` says.
pub fn prepare(alloc: Global, hand: &mut BlocksHand) -> i32
    ensures told { PrepareTold hand.old.held result hand.new.held }
{
    let Some(mut taken) = take(alloc, hand) else {
        return CLOSED;
    };
    let prepared = taken.held.prepare(alloc);
    give(hand, taken);
    prepare_code(prepared)
}

// ---- the end

/// The code of a block that was begun, of a map with so many shards. Its number is written if it is
/// made. If it is refused, the number of the shard that refused its part is, or that of the shards.
fn tell_committed(
    made: Result<u64, CommitRefusal>,
    shards: usize,
    shard: &mut usize,
    number: &mut u64,
) -> i32
    ensures code { result ≡ commit_code made }
    ensures shard { shard.new ≡ committed_shard shards shard.old made }
    ensures number { number.new ≡ committed_number number.old made }
{
    match made {
        Ok(block) => tell_made(Ok(block), shards, shard, number),
        Err(CommitRefusal::NoBlock) => WRONG_STATE,
        Err(CommitRefusal::Busy) => BUSY,
        Err(CommitRefusal::Block(fault)) => {
            tell_made(Err(BlockRefusal::Block(fault)), shards, shard, number)
        }
    }
}

/// As `mst_sharded_commit` of `mst_exports` says.
pub fn commit(alloc: Global, hand: &mut BlocksHand, shard: &mut usize, number: &mut u64) -> i32
    ensures told { CommitTold hand.old.held shard.old number.old result shard.new number.new
        hand.new.held }
{
    let Some(mut taken) = take(alloc, hand) else {
        return CLOSED;
    };
    let made = taken.held.commit(alloc);
    let shards = taken.held.shards();
    give(hand, taken);
    tell_committed(made, shards, shard, number)
}

/// The code of a block that is taken back.
fn cancel_code(done: Option<bool>) -> i32
    ensures code { result ≡ code_of_cancel done }
{
    match done {
        Some(true) => 0,
        Some(false) => BUSY,
        None => WRONG_STATE,
    }
}

/// As `mst_sharded_cancel` of `mst_exports` says.
pub fn cancel(alloc: Global, hand: &mut BlocksHand) -> i32
    ensures told { CancelTold hand.old.held result hand.new.held }
{
    let Some(mut taken) = take(alloc, hand) else {
        return CLOSED;
    };
    let done = taken.held.cancel();
    give(hand, taken);
    cancel_code(done)
}
