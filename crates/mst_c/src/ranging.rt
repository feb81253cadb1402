//! Ranges as C is told of them.
ghost use Rattle.std.specs.Prelude.{◌≡◌, ◌≤◌, ◌<◌, ◌+◌, ◌^◌, ◌++◌, length, drop, Some};
ghost use Rattle.mst_c.specs.Told.{bytes_code, room_after};
ghost use Rattle.mst_c.specs.Ranges.{pair_bytes, pairs_bytes, written, RangeTold};

use crate::codes::{BAD_KEY, CLOSED, MEMORY, SHORT_ROOM};
use crate::hand::{Hand, give, take};
use crate::telling::bound;
use mst_key::{Key, Value};
use std::alloc::Global;

/// How many bytes a pair takes: its lengths, key and value.
fn pair_size(key: &Key, value: &Value) -> usize
    ensures size { result ≡ length (pair_bytes (key.now, value.now)) }
    ensures few { result ≤ 100 }
{
    4 + key.bytes().len() + value.bytes().len()
}

/// How many bytes the pairs take.
fn pairs_size(pairs: &[(Key, Value)]) -> usize
    requires few { length pairs.now < 2 ^ 32 }
    ensures size { result ≡ length (pairs_bytes pairs.now) }
{
    let mut size = 0;
    for (key, value) in pairs {
        size += pair_size(key, value);
    }
    size
}

/// Puts bytes into the room from this place on, and returns where they end.
fn put_at(room: &mut [u8], at: usize, bytes: &[u8]) -> usize
    requires fits { at + length bytes.now ≤ length room.old }
    ensures room { room.new ≡ written at bytes.now room.old }
    ensures end { result ≡ at + length bytes.now }
{
    let end = at + bytes.len();
    room[at..end].copy_from_slice(bytes);
    end
}

/// Puts bytes as [`put_at`] does. The compiler copies those of the common length without a call.
#[inline(always)]
fn put_mostly<const COMMON: usize>(room: &mut [u8], at: usize, bytes: &[u8]) -> usize
    requires fits { at + length bytes.now ≤ length room.old }
    ensures room { room.new ≡ written at bytes.now room.old }
    ensures end { result ≡ at + length bytes.now }
{
    if bytes.len() == COMMON {
        put_at(room, at, &bytes[..COMMON])
    } else {
        put_at(room, at, bytes)
    }
}

/// Puts a pair into the room from this place on, and returns where it ends.
fn put_pair(room: &mut [u8], at: usize, key: &Key, value: &Value) -> usize
    requires fits { at + length (pair_bytes (key.now, value.now)) ≤ length room.old }
    ensures room { room.new ≡ written at (pair_bytes (key.now, value.now)) room.old }
    ensures end { result ≡ at + length (pair_bytes (key.now, value.now)) }
{
    let key = key.bytes();
    let value = value.bytes();
    let behind_one = put_at(room, at, (key.len() as u16).to_be_bytes().as_slice());
    let behind_two = put_at(
        room,
        behind_one,
        (value.len() as u16).to_be_bytes().as_slice(),
    );
    let behind_key = put_mostly::<16>(room, behind_two, key);
    put_mostly::<32>(room, behind_key, value)
}

/// Puts the pairs first into the room, and keeps the bytes after them.
fn put_pairs(room: &mut [u8], pairs: &[(Key, Value)])
    requires fits { length (pairs_bytes pairs.now) ≤ length room.old }
    ensures room { room.new
        ≡ pairs_bytes pairs.now ++ drop (length (pairs_bytes pairs.now)) room.old }
{
    let mut at = 0;
    for (key, value) in pairs {
        at = put_pair(room, at, key, value);
    }
}

/// Sets `count` to the number of pairs and `size` to the number of their bytes. They then stand
/// first in the room, if they fit.
pub fn tell_pairs(
    pairs: &[(Key, Value)],
    room: &mut [u8],
    count: &mut usize,
    size: &mut usize,
) -> i32
    requires few { length pairs.now < 2 ^ 32 }
    ensures code { result ≡ bytes_code (length room.old) (Some (pairs_bytes pairs.now)) }
    ensures room { room.new ≡ room_after room.old (Some (pairs_bytes pairs.now)) }
    ensures count { count.new ≡ length pairs.now }
    ensures size { size.new ≡ length (pairs_bytes pairs.now) }
{
    let bytes = pairs_size(pairs);
    *count = pairs.len();
    *size = bytes;
    if room.len() < bytes {
        return SHORT_ROOM;
    }
    put_pairs(room, pairs);
    0
}

/// As `mst_range` of `mst_exports` says.
pub fn range(
    alloc: Global,
    hand: &mut Hand,
    from: &[u8],
    to: &[u8],
    limit: u32,
    room: &mut [u8],
    count: &mut usize,
    size: &mut usize,
) -> i32
    ensures told { RangeTold hand.old.held from.now to.now limit room.old count.old size.old result
        room.new count.new size.new hand.new.held }
{
    let Some(mut taken) = take(alloc, hand) else {
        return CLOSED;
    };
    let Ok(low) = bound(from) else {
        give(hand, taken);
        return BAD_KEY;
    };
    let Ok(high) = bound(to) else {
        give(hand, taken);
        return BAD_KEY;
    };
    let found = taken
        .held
        .range(alloc, low.as_ref(), high.as_ref(), limit as usize);
    give(hand, taken);
    match found {
        Ok(pairs) => tell_pairs(pairs.as_slice(), room, count, size),
        Err(_) => MEMORY,
    }
}
