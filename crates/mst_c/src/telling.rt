//! The calls as C is told of them.
ghost use Rattle.std.specs.Prelude.{◌≡◌, ◌≤◌, ◌++◌, length, drop, Some, None, ◌↔◌, IsOk, IfOk};
ghost use Rattle.mst_c.specs.Told.{value_code, room_after, write_refusal_code as code_of_refusal, done_code as code_of_done, bytes_code, GetTold, PutTold, RootTold, ProveTold, PinTold, UnpinTold, CloseTold, RemoveTold, VersionTold, LenTold, RowsTold, count_code, count_after, NextTold, IsBound, bound_of, pair_code, key_room_after, value_room_after, key_size_after};

use crate::codes::{
    ABSENT, BAD_KEY, BAD_VALUE, BUSY, CLOSED, MEMORY, NO_FREE_ROWS, ROWS_PINNED, SHORT_ROOM,
    VERSIONS_SPENT, WRONG_STATE,
};
use crate::hand::{Hand, give, take};
use crate::pass_box::{CountRefusal, WriteRefusal};
use mst_key::{Key, KeySize, Value};
use mst_store::WriteFault;
use std::alloc::Global;

/// How many bytes a root digest has.
pub const ROOT_LENGTH: usize = 32;

/// Writes bytes first into a room, and keeps those after them.
pub fn write_first(room: &mut [u8], bytes: &[u8])
    requires fits { length bytes.now ≤ length room.old }
    ensures room { room.new ≡ bytes.now ++ drop (length bytes.now) room.old }
{
    room[..bytes.len()].copy_from_slice(bytes);
}

/// The code of a value or of absence. The value stands first in the room then, if it fits.
pub fn tell(value: &Option<Value>, room: &mut [u8]) -> i32
    ensures code { result ≡ value_code (length room.old) value.now }
    ensures room { room.new ≡ room_after room.old value.now }
{
    match value {
        Some(value) => {
            let bytes = value.bytes();
            if room.len() < bytes.len() {
                return SHORT_ROOM;
            }
            write_first(room, bytes);
            bytes.len() as i32
        }
        None => ABSENT,
    }
}

/// Sets `size` to the length of the proof. The proof then stands first in the room, if it fits.
pub fn tell_proof(proof: &[u8], room: &mut [u8], size: &mut usize) -> i32
    ensures code { result ≡ bytes_code (length room.old) (Some proof.now) }
    ensures room { room.new ≡ room_after room.old (Some proof.now) }
    ensures size { size.new ≡ length proof.now }
{
    *size = proof.len();
    if room.len() < proof.len() {
        return SHORT_ROOM;
    }
    write_first(room, proof);
    0
}

/// The code of what was not written.
pub fn write_refusal_code(fault: WriteRefusal) -> i32
    ensures code { result ≡ code_of_refusal fault }
{
    match fault {
        WriteRefusal::Pins => WRONG_STATE,
        WriteRefusal::Store(WriteFault::Busy) => BUSY,
        WriteRefusal::Store(WriteFault::VersionsSpent) => VERSIONS_SPENT,
        WriteRefusal::Store(WriteFault::NoRoom) => NO_FREE_ROWS,
    }
}

/// The code of a count. The count is written then, if there is one.
fn tell_rows(rows: Result<Option<u32>, CountRefusal>, count: &mut u32) -> i32
    ensures code { result ≡ count_code rows }
    ensures count { count.new ≡ count_after count.old rows }
{
    match rows {
        Ok(Some(rows)) => {
            *count = rows;
            0
        }
        Ok(None) => ROWS_PINNED,
        Err(CountRefusal::Pins) => WRONG_STATE,
        Err(CountRefusal::Busy) => BUSY,
    }
}

/// The code of a pin or of its end: whether it was made.
pub fn done_code(done: bool) -> i32
    ensures code { result ≡ code_of_done done }
{
    if done { 0 } else { WRONG_STATE }
}

/// As `mst_get` of `mst_exports` says.
pub fn get(alloc: Global, hand: &mut Hand, key: &[u8], room: &mut [u8]) -> i32
    ensures told { GetTold hand.old.held key.now room.old result room.new hand.new.held }
{
    let Some(mut taken) = take(alloc, hand) else {
        return CLOSED;
    };
    let code = match Key::new(key) {
        Ok(key) => taken.held.get(&key, room),
        Err(_) => BAD_KEY,
    };
    give(hand, taken);
    code
}

/// As `mst_try_put` of `mst_exports` says.
pub fn try_put(alloc: Global, hand: &mut Hand, key: &[u8], value: &[u8], room: &mut [u8]) -> i32
    ensures told { PutTold hand.old.held key.now value.now room.old result room.new hand.new.held }
{
    let Some(mut taken) = take(alloc, hand) else {
        return CLOSED;
    };
    let Ok(key) = Key::new(key) else {
        give(hand, taken);
        return BAD_KEY;
    };
    let Ok(value) = Value::new(value) else {
        give(hand, taken);
        return BAD_VALUE;
    };
    let wrote = taken.held.try_put(&key, &value);
    give(hand, taken);
    match wrote {
        Ok(old) => tell(&old, room),
        Err(fault) => write_refusal_code(fault),
    }
}

/// As `mst_root` of `mst_exports` says.
pub fn root(alloc: Global, hand: &mut Hand, room: &mut [u8]) -> i32
    ensures told { RootTold hand.old.held room.old result room.new hand.new.held }
{
    let Some(mut taken) = take(alloc, hand) else {
        return CLOSED;
    };
    if room.len() < ROOT_LENGTH {
        give(hand, taken);
        return SHORT_ROOM;
    }
    let root = taken.held.root();
    give(hand, taken);
    write_first(room, &root);
    ROOT_LENGTH as i32
}

/// As `mst_prove` of `mst_exports` says.
pub fn prove(alloc: Global, hand: &mut Hand, key: &[u8], room: &mut [u8], size: &mut usize) -> i32
    ensures told { ProveTold hand.old.held key.now room.old size.old result room.new
        size.new hand.new.held }
{
    let Some(mut taken) = take(alloc, hand) else {
        return CLOSED;
    };
    let Ok(key) = Key::new(key) else {
        give(hand, taken);
        return BAD_KEY;
    };
    let found = taken.held.prove(alloc, &key);
    give(hand, taken);
    match found {
        Ok(proof) => tell_proof(proof.as_slice(), room, size),
        Err(_) => MEMORY,
    }
}

/// As `mst_pin` of `mst_exports` says.
pub fn pin(alloc: Global, hand: &mut Hand) -> i32
    ensures told { PinTold hand.old.held result hand.new.held }
{
    let Some(mut taken) = take(alloc, hand) else {
        return CLOSED;
    };
    let pinned = taken.held.pin();
    give(hand, taken);
    done_code(pinned)
}

/// As `mst_unpin` of `mst_exports` says.
pub fn unpin(alloc: Global, hand: &mut Hand) -> i32
    ensures told { UnpinTold hand.old.held result hand.new.held }
{
    let Some(mut taken) = take(alloc, hand) else {
        return CLOSED;
    };
    let unpinned = taken.held.unpin();
    give(hand, taken);
    done_code(unpinned)
}

/// As `mst_close` of `mst_exports` says.
pub fn close(alloc: Global, hand: &mut Hand) -> i32
    ensures told { CloseTold hand.old.held result hand.new.held }
    ensures empty { hand.new.held ≡ None }
{
    let Some(mut taken) = take(alloc, hand) else {
        return CLOSED;
    };
    let _pinned = taken.held.unpin();
    taken.let_go();
    0
}

/// As `mst_try_remove` of `mst_exports` says.
pub fn try_remove(alloc: Global, hand: &mut Hand, key: &[u8], room: &mut [u8]) -> i32
    ensures told { RemoveTold hand.old.held key.now room.old result room.new hand.new.held }
{
    let Some(mut taken) = take(alloc, hand) else {
        return CLOSED;
    };
    let Ok(key) = Key::new(key) else {
        give(hand, taken);
        return BAD_KEY;
    };
    let wrote = taken.held.try_remove(&key);
    give(hand, taken);
    match wrote {
        Ok(old) => tell(&old, room),
        Err(fault) => write_refusal_code(fault),
    }
}

/// As `mst_version` of `mst_exports` says.
pub fn version(alloc: Global, hand: &mut Hand, number: &mut u64) -> i32
    ensures told { VersionTold hand.old.held number.old result number.new hand.new.held }
{
    let Some(mut taken) = take(alloc, hand) else {
        return CLOSED;
    };
    *number = taken.held.version();
    give(hand, taken);
    0
}

/// As `mst_len` of `mst_exports` says.
pub fn len(alloc: Global, hand: &mut Hand, count: &mut u64) -> i32
    ensures told { LenTold hand.old.held count.old result count.new hand.new.held }
{
    let Some(mut taken) = take(alloc, hand) else {
        return CLOSED;
    };
    *count = taken.held.len();
    give(hand, taken);
    0
}

/// As `mst_rows` of `mst_exports` says.
pub fn rows(alloc: Global, hand: &mut Hand, count: &mut u32) -> i32
    ensures told { RowsTold hand.old.held count.old result count.new hand.new.held }
{
    let Some(mut taken) = take(alloc, hand) else {
        return CLOSED;
    };
    let rows = taken.held.rows();
    give(hand, taken);
    tell_rows(rows, count)
}

/// The bound that these bytes are. No bytes bind nothing.
pub fn bound(bytes: &[u8]) -> Result<Option<Key>, KeySize>
    ensures ok { IfOk result (λ bound. bound ≡ bound_of bytes.now) }
    ensures when { IsOk result ↔ IsBound bytes.now }
{
    if bytes.is_empty() {
        return Ok(None);
    }
    match Key::new(bytes) {
        Ok(key) => Ok(Some(key)),
        Err(fault) => Err(fault),
    }
}

/// The code of a pair or of absence. Key and value stand first in their rooms then, if both fit.
pub fn tell_pair(
    pair: Option<(Key, Value)>,
    key_room: &mut [u8],
    size: &mut usize,
    room: &mut [u8],
) -> i32
    ensures code { result ≡ pair_code (length key_room.old) (length room.old) pair }
    ensures key { key_room.new ≡ key_room_after key_room.old room.old pair }
    ensures size { size.new ≡ key_size_after key_room.old room.old size.old pair }
    ensures value { room.new ≡ value_room_after key_room.old room.old pair }
{
    let Some((key, value)) = pair else {
        return ABSENT;
    };
    let key = key.bytes();
    let value = value.bytes();
    if key_room.len() < key.len() || room.len() < value.len() {
        return SHORT_ROOM;
    }
    write_first(key_room, key);
    write_first(room, value);
    *size = key.len();
    value.len() as i32
}

/// As `mst_next` of `mst_exports` says.
pub fn next(
    alloc: Global,
    hand: &mut Hand,
    key: &[u8],
    key_room: &mut [u8],
    size: &mut usize,
    room: &mut [u8],
) -> i32
    ensures told { NextTold hand.old.held key.now key_room.old size.old room.old result key_room.new
        size.new room.new hand.new.held }
{
    let Some(mut taken) = take(alloc, hand) else {
        return CLOSED;
    };
    let Ok(bound) = bound(key) else {
        give(hand, taken);
        return BAD_KEY;
    };
    let pair = taken.held.next(bound.as_ref());
    give(hand, taken);
    tell_pair(pair, key_room, size, room)
}
