//! The calls of the writer, of readers and of snapshots, as C is told of them.
ghost use Rattle.std.specs.Prelude.{◌≡◌, ◌≤◌, length, None};
ghost use Rattle.mst_c_blocks.specs.Told.{shards_code, number_code, number_after, try_code as code_of_try, get_code, get_room, ShardsTold, NumberTold, TryTold, ReleaseTold, CloseTold, GetTold};

use crate::asking::GetRefusal;
use crate::codes::{MOVING, OVERTAKEN};
use crate::hand::{BlocksHand, give, take};
use mst_c::codes::{BAD_KEY, CLOSED, WRONG_STATE};
use mst_c::telling::{done_code, tell};
use mst_key::{Key, Value};
use std::alloc::Global;

/// The code of a number of shards: none is counted where it is not asked.
fn count_code(count: usize) -> i32
    requires most { count ≤ 1024 }
    ensures code { result ≡ shards_code count }
{
    if count == 0 {
        return WRONG_STATE;
    }
    count as i32
}

/// As `mst_sharded_shards` of `mst_exports` says.
pub fn shards(alloc: Global, hand: &mut BlocksHand) -> i32
    ensures told { ShardsTold hand.old.held result hand.new.held }
{
    let Some(taken) = take(alloc, hand) else {
        return CLOSED;
    };
    let count = taken.held.shards();
    give(hand, taken);
    count_code(count)
}

/// The code of a block's number, or of how many pairs it has. The number is written then, if there
/// is one.
pub(crate) fn tell_number(found: Option<u64>, number: &mut u64) -> i32
    ensures code { result ≡ number_code found }
    ensures number { number.new ≡ number_after number.old found }
{
    match found {
        Some(block) => {
            *number = block;
            0
        }
        None => WRONG_STATE,
    }
}

/// As `mst_sharded_number` of `mst_exports` says.
pub fn number(alloc: Global, hand: &mut BlocksHand, number: &mut u64) -> i32
    ensures told { NumberTold hand.old.held number.old result number.new hand.new.held }
{
    let Some(taken) = take(alloc, hand) else {
        return CLOSED;
    };
    let found = taken.held.number();
    give(hand, taken);
    tell_number(found, number)
}

/// The code of a try of a snapshot.
fn try_code(taken: Option<bool>) -> i32
    ensures code { result ≡ code_of_try taken }
{
    match taken {
        Some(true) => 0,
        Some(false) => MOVING,
        None => WRONG_STATE,
    }
}

/// As `mst_sharded_try_snapshot` of `mst_exports` says.
pub fn try_snapshot(alloc: Global, hand: &mut BlocksHand) -> i32
    ensures told { TryTold hand.old.held result hand.new.held }
{
    let Some(mut taken) = take(alloc, hand) else {
        return CLOSED;
    };
    let tried = taken.held.try_snapshot();
    give(hand, taken);
    try_code(tried)
}

/// As `mst_sharded_release` of `mst_exports` says.
pub fn release(alloc: Global, hand: &mut BlocksHand) -> i32
    ensures told { ReleaseTold hand.old.held result hand.new.held }
{
    let Some(mut taken) = take(alloc, hand) else {
        return CLOSED;
    };
    let released = taken.held.release();
    give(hand, taken);
    done_code(released)
}

/// As `mst_sharded_close` of `mst_exports` says.
pub fn close(alloc: Global, hand: &mut BlocksHand) -> i32
    ensures told { CloseTold hand.old.held result hand.new.held }
    ensures empty { hand.new.held ≡ None }
{
    let Some(mut taken) = take(alloc, hand) else {
        return CLOSED;
    };
    let _released = taken.held.release();
    taken.let_go();
    0
}

/// The code of a value. It stands first in the room then, if it fits. The writer has none if
/// another has written.
fn tell_value(found: Result<Option<Value>, GetRefusal>, room: &mut [u8]) -> i32
    ensures code { result ≡ get_code (length room.old) found }
    ensures room { room.new ≡ get_room room.old found }
{
    match found {
        Ok(value) => tell(&value, room),
        Err(GetRefusal::Overtaken) => OVERTAKEN,
        Err(GetRefusal::NoMap) => WRONG_STATE,
    }
}

/// As `mst_sharded_get` of `mst_exports` says.
pub fn get(alloc: Global, hand: &mut BlocksHand, key: &[u8], room: &mut [u8]) -> i32
    ensures told { GetTold hand.old.held key.now room.old result room.new hand.new.held }
{
    let Some(mut taken) = take(alloc, hand) else {
        return CLOSED;
    };
    let Ok(key) = Key::new(key) else {
        give(hand, taken);
        return BAD_KEY;
    };
    let found = taken.held.get(&key);
    give(hand, taken);
    tell_value(found, room)
}
