//! What only a snapshot reads, as C is told of it.
ghost use Rattle.std.specs.Prelude.{◌≡◌, ◌<◌, Some, length};
ghost use Rattle.mst_c.specs.Told.{key_room_after, value_room_after, key_size_after};
ghost use Rattle.mst_c_blocks.specs.Reading.{read_refusal_code as code_of_refusal, next_code, next_of, one_format_code, NextTold, RangeTold, LenTold, FormatTold};

use crate::asking::ReadRefusal;
use crate::hand::{BlocksHand, give, take};
use crate::telling::tell_number;
use mst_c::codes::{BAD_KEY, CLOSED, MEMORY, WRONG_STATE};
use mst_c::formats::number_of;
use mst_c::ranging::tell_pairs;
use mst_c::telling::{bound, tell_pair};
use mst_key::{Format, Key, Value};
use std::alloc::Global;

/// The code of an answer that was not made.
pub(crate) fn read_refusal_code(fault: ReadRefusal) -> i32
    ensures code { result ≡ code_of_refusal fault }
{
    match fault {
        ReadRefusal::NoSnapshot => WRONG_STATE,
        ReadRefusal::Memory(_) => MEMORY,
    }
}

/// The code of a snapshot's pair or of absence. Key and value stand first in their rooms then, if
/// both fit.
fn tell_next(
    found: Option<Option<(Key, Value)>>,
    key_room: &mut [u8],
    size: &mut usize,
    room: &mut [u8],
) -> i32
    ensures code { result ≡ next_code (length key_room.old) (length room.old) found }
    ensures key { key_room.new ≡ key_room_after key_room.old room.old (next_of found) }
    ensures size { size.new ≡ key_size_after key_room.old room.old size.old (next_of found) }
    ensures value { room.new ≡ value_room_after key_room.old room.old (next_of found) }
{
    match found {
        Some(pair) => tell_pair(pair, key_room, size, room),
        None => WRONG_STATE,
    }
}

/// As `mst_sharded_next` of `mst_exports` says.
pub fn next(
    alloc: Global,
    hand: &mut BlocksHand,
    key: &[u8],
    key_room: &mut [u8],
    size: &mut usize,
    room: &mut [u8],
) -> i32
    ensures told { NextTold hand.old.held key.now key_room.old size.old room.old result key_room.new
        size.new room.new hand.new.held }
{
    let Some(mut taken) = take(alloc, hand) else {
        return CLOSED;
    };
    let Ok(bound) = bound(key) else {
        give(hand, taken);
        return BAD_KEY;
    };
    let found = taken.held.next(bound.as_ref());
    give(hand, taken);
    tell_next(found, key_room, size, room)
}

/// As `mst_sharded_range` of `mst_exports` says.
pub fn range(
    alloc: Global,
    hand: &mut BlocksHand,
    from: &[u8],
    to: &[u8],
    limit: u32,
    room: &mut [u8],
    count: &mut usize,
    size: &mut usize,
) -> i32
    ensures told { RangeTold hand.old.held from.now to.now limit room.old count.old size.old result
        room.new count.new size.new hand.new.held }
{
    let Some(mut taken) = take(alloc, hand) else {
        return CLOSED;
    };
    let Ok(low) = bound(from) else {
        give(hand, taken);
        return BAD_KEY;
    };
    let Ok(high) = bound(to) else {
        give(hand, taken);
        return BAD_KEY;
    };
    let found = taken
        .held
        .range(alloc, low.as_ref(), high.as_ref(), limit as usize);
    give(hand, taken);
    match found {
        Ok(pairs) => tell_pairs(pairs.as_slice(), room, count, size),
        Err(fault) => read_refusal_code(fault),
    }
}

/// As `mst_sharded_len` of `mst_exports` says.
pub fn len(alloc: Global, hand: &mut BlocksHand, count: &mut u64) -> i32
    ensures told { LenTold hand.old.held count.old result count.new hand.new.held }
{
    let Some(mut taken) = take(alloc, hand) else {
        return CLOSED;
    };
    let found = taken.held.len();
    give(hand, taken);
    tell_number(found, count)
}

/// The code of a snapshot's format.
fn tell_format(found: Option<Format>) -> i32
    ensures code { result ≡ one_format_code found }
{
    match found {
        Some(format) => number_of(format),
        None => WRONG_STATE,
    }
}

/// As `mst_sharded_format` of `mst_exports` says.
pub fn format(alloc: Global, hand: &mut BlocksHand) -> i32
    ensures told { FormatTold hand.old.held result hand.new.held }
{
    let Some(mut taken) = take(alloc, hand) else {
        return CLOSED;
    };
    let found = taken.held.format();
    give(hand, taken);
    tell_format(found)
}
