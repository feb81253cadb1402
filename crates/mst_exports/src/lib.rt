//! The store for C, and for every language that calls C: a static library.
//!
//! Each export is a call of `mst_c`, which lists the numbers that calls return, or of
//! `mst_c_blocks`, and repeats its contract. `include/mst_store.h` declares them with the same
//! names of arguments; a slice is there a pointer and a length.
#![tactic(auto)]

ghost use Rattle.std.specs.Prelude.{◌≡◌, ◌≢◌, ◌↔◌, ◌⊎◌, pos, length as count, None, IsSome};
ghost use Rattle.mst_c.specs.Codes.{unknown_format, memory, bad_shape};
ghost use Rattle.mst_c.specs.Batches.{ApplyTold};
ghost use Rattle.mst_c.specs.Formats.{format_named, FormatTold, MigrateTold};
ghost use Rattle.mst_c.specs.Knowing.{FreeRowsTold, PinnedVersionsTold, MadeTold};
ghost use Rattle.mst_c.specs.Opened.{Opened, IsSize, AllEmpty};
ghost use Rattle.mst_c.specs.Ranges.{RangeTold};
ghost use Rattle.mst_c.specs.Told.{GetTold, PutTold, RootTold, ProveTold, PinTold, UnpinTold, CloseTold, RemoveTold, VersionTold, LenTold, RowsTold, NextTold};

mod sharded_calls;

use mst_c::hand::{Hand, PaddedHand};
use mst_c::{batches, formats, knowing, opening, ranging, telling};
use std::alloc::Global;

/// Opens a store of the empty map in format 1 or 2, with `rows` rows, and puts a pass into each
/// hand of `passes`. What a hand held before is closed. Returns 0; -3 for another format; -10 if a
/// store cannot have that many rows or passes; -9 if a growth was refused; and no other number. If
/// it does not return 0, all hands are empty.
#[unsafe(no_mangle)]
pub extern "C" fn mst_open(alloc: Global, format: u32, rows: u32, passes: &mut [PaddedHand]) -> i32
    ensures opened { result ≡ pos 0 → Opened format rows passes.new }
    ensures empty { result ≢ pos 0 → AllEmpty passes.new }
    ensures size { result ≡ bad_shape
        ↔ IsSome (format_named format) × (¬ (IsSize rows (count passes.old))) }
    ensures format { result ≡ unknown_format ↔ (format_named format ≡ None) }
    ensures range { (result ≡ pos 0) ⊎ (result ≡ unknown_format) ⊎ (result ≡ bad_shape)
        ⊎ (result ≡ memory) }
{
    opening::open(alloc, format, rows, passes)
}

/// Returns the length of the key's value, 0 to 64, and its bytes stand first in the room. Returns
/// -1 if the key is absent; -7, -5, -2. With each of these the room stays as it was.
#[unsafe(no_mangle)]
pub extern "C" fn mst_get(alloc: Global, pass: &mut Hand, key: &[u8], room: &mut [u8]) -> i32
    ensures told { GetTold pass.old.held key.now room.old result room.new pass.new.held }
{
    telling::get(alloc, pass, key, room)
}

/// Gives the key the value. Returns what `mst_get` would have returned before the write; with -2
/// the old value did not fit into the room, and the key has its new value all the same. Returns -7,
/// -5, -6, -8, -21, -22, -23: then nothing is written.
#[unsafe(no_mangle)]
pub extern "C" fn mst_try_put(
    alloc: Global,
    pass: &mut Hand,
    key: &[u8],
    value: &[u8],
    room: &mut [u8],
) -> i32
    ensures told { PutTold pass.old.held key.now value.now room.old result room.new pass.new.held }
{
    telling::try_put(alloc, pass, key, value, room)
}

/// Returns 32, the length of the root digest, and its bytes stand first in the room. Returns -7; -2
/// for a room of less than 32 bytes.
#[unsafe(no_mangle)]
pub extern "C" fn mst_root(alloc: Global, pass: &mut Hand, root: &mut [u8]) -> i32
    ensures told { RootTold pass.old.held root.old result root.new pass.new.held }
{
    telling::root(alloc, pass, root)
}

/// Makes the proof of the key's answer against the root digest of the same version. Returns 0: its
/// bytes stand first in the room, and their number in `length`. Returns -2: `length` is their
/// number, and the room stays. Returns -7, -5, -9: both stay.
#[unsafe(no_mangle)]
pub extern "C" fn mst_prove(
    alloc: Global,
    pass: &mut Hand,
    key: &[u8],
    room: &mut [u8],
    length: &mut usize,
) -> i32
    ensures told { ProveTold pass.old.held key.now room.old length.old result room.new
        length.new pass.new.held }
{
    telling::prove(alloc, pass, key, room, length)
}

/// Pins the current version: each read is of it until `mst_unpin`. Returns 0; -7; -8 if the pass is
/// pinned already.
#[unsafe(no_mangle)]
pub extern "C" fn mst_pin(alloc: Global, pass: &mut Hand) -> i32
    ensures told { PinTold pass.old.held result pass.new.held }
{
    telling::pin(alloc, pass)
}

/// Ends the pin. Returns 0; -7; -8 if the pass is not pinned.
#[unsafe(no_mangle)]
pub extern "C" fn mst_unpin(alloc: Global, pass: &mut Hand) -> i32
    ensures told { UnpinTold pass.old.held result pass.new.held }
{
    telling::unpin(alloc, pass)
}

/// Closes the pass, after ending its pin if it has one. Returns 0 or -7. The store is freed with
/// its last pass.
#[unsafe(no_mangle)]
pub extern "C" fn mst_close(alloc: Global, pass: &mut Hand) -> i32
    ensures told { CloseTold pass.old.held result pass.new.held }
{
    telling::close(alloc, pass)
}

/// Takes the key out of the map. Returns what `mst_try_put` returns, without -6.
#[unsafe(no_mangle)]
pub extern "C" fn mst_try_remove(alloc: Global, pass: &mut Hand, key: &[u8], room: &mut [u8]) -> i32
    ensures told { RemoveTold pass.old.held key.now room.old result room.new pass.new.held }
{
    telling::try_remove(alloc, pass, key, room)
}

/// Sets `version` to the number of the version, which is the number of writes and migrations before
/// it. Returns 0; or -7, and then `version` stays.
#[unsafe(no_mangle)]
pub extern "C" fn mst_version(alloc: Global, pass: &mut Hand, version: &mut u64) -> i32
    ensures told { VersionTold pass.old.held version.old result version.new pass.new.held }
{
    telling::version(alloc, pass, version)
}

/// Sets `count` to the number of the version's pairs. Returns 0; or -7, and then the count stays.
#[unsafe(no_mangle)]
pub extern "C" fn mst_len(alloc: Global, pass: &mut Hand, count: &mut u64) -> i32
    ensures told { LenTold pass.old.held count.old result count.new pass.new.held }
{
    telling::len(alloc, pass, count)
}

/// Returns the number of the version's format, 1 or 2; or -7.
#[unsafe(no_mangle)]
pub extern "C" fn mst_format(alloc: Global, pass: &mut Hand) -> i32
    ensures told { FormatTold pass.old.held result pass.new.held }
{
    formats::format(alloc, pass)
}

/// Turns the tree of the map to format 1 or 2; the map stays as it is. Returns the number of the
/// format that it had, 1 or 2. Returns -7, -3 for another number, -8, -9, -21, -22, -23: then
/// nothing is changed. A migration to the current format takes no memory and no row.
#[unsafe(no_mangle)]
pub extern "C" fn mst_try_migrate(alloc: Global, pass: &mut Hand, format: u32) -> i32
    ensures told { MigrateTold pass.old.held format result pass.new.held }
{
    formats::try_migrate(alloc, pass, format)
}

/// Makes the edits of a buffer, one after another, as one version. An edit is a byte 1 for a put or
/// 2 for a remove, the length of its key in two bytes, the high one first, that of its value in
/// two, the key, the value; a remove has no value. Returns 0. Returns -5, -6 for the length of a
/// key or a value, -25 for what is no edit otherwise: `place` is then the number of the first such
/// edit, from 0. Returns -7, -8, -9, -21, -22, -23, and `place` stays, as with 0. If it does not
/// return 0, nothing is changed.
#[unsafe(no_mangle)]
pub extern "C" fn mst_try_apply(
    alloc: Global,
    pass: &mut Hand,
    edits: &[u8],
    place: &mut usize,
) -> i32
    ensures told { ApplyTold pass.old.held edits.now place.old result place.new pass.new.held }
{
    batches::try_apply(alloc, pass, edits, place)
}

/// Sets `rows` to the number of rows that the map of the current version takes. Returns 0; or -7,
/// -8 for a pinned pass, -21, -24, and then `rows` stays.
#[unsafe(no_mangle)]
pub extern "C" fn mst_rows(alloc: Global, pass: &mut Hand, rows: &mut u32) -> i32
    ensures told { RowsTold pass.old.held rows.old result rows.new pass.new.held }
{
    telling::rows(alloc, pass, rows)
}

/// Sets `rows` to the number of rows that are free to the next write, with pinned versions too.
/// Returns 0; or -7, -8 for a pinned pass, -21, and then `rows` stays.
#[unsafe(no_mangle)]
pub extern "C" fn mst_free_rows(alloc: Global, pass: &mut Hand, rows: &mut u32) -> i32
    ensures told { FreeRowsTold pass.old.held rows.old result rows.new pass.new.held }
{
    knowing::free_rows(alloc, pass, rows)
}

/// Finds the versions that are pinned, which are as many as the store has passes at most. Returns
/// 0: their numbers stand first in `versions`, in ascending order, each once, and `count` is how
/// many they are. Returns -2: `count` is set so, and `versions` stays. Returns -7, -8 for a pinned
/// pass, -21: both stay.
#[unsafe(no_mangle)]
pub extern "C" fn mst_pinned_versions(
    alloc: Global,
    pass: &mut Hand,
    versions: &mut [u64],
    count: &mut usize,
) -> i32
    ensures told { PinnedVersionsTold pass.old.held versions.old count.old result versions.new
        count.new pass.new.held }
{
    knowing::pinned_versions(alloc, pass, versions, count)
}

/// Sets `version` to the one that the pass's last write made, whatever other passes wrote since.
/// Returns 0; or -7, -1 if the pass has made none, and then `version` stays.
#[unsafe(no_mangle)]
pub extern "C" fn mst_made(alloc: Global, pass: &mut Hand, version: &mut u64) -> i32
    ensures told { MadeTold pass.old.held version.old result version.new pass.new.held }
{
    knowing::made(alloc, pass, version)
}

/// Finds the pair of the least key above the bound, or of the least key if the bound has no bytes.
/// Returns the length of the value: its bytes stand first in the room, those of the key first in
/// `key_room`, and `next_length` is the key's. Returns -7; -5 for a bound of more than 32 bytes; -1
/// if there is no such pair; -2 if one of the two rooms is too short. With each of these both rooms
/// and `next_length` stay.
#[unsafe(no_mangle)]
pub extern "C" fn mst_next(
    alloc: Global,
    pass: &mut Hand,
    key: &[u8],
    key_room: &mut [u8],
    next_length: &mut usize,
    room: &mut [u8],
) -> i32
    ensures told { NextTold pass.old.held key.now key_room.old next_length.old room.old result
        key_room.new next_length.new room.new pass.new.held }
{
    telling::next(alloc, pass, key, key_room, next_length, room)
}

/// Finds the first pairs, at most `limit`, whose keys are at least `from` and below `to`; a bound
/// of no bytes does not bind. Returns 0: `count` is the number of the pairs and `length` that of
/// their bytes, which stand first in the room: for each pair the length of its key in two bytes,
/// the high one first, that of its value in two, the key, the value. Returns -2: both numbers are
/// set so, and the room stays. Returns -7, -5 for a bound of more than 32 bytes, -9: all stay.
#[unsafe(no_mangle)]
pub extern "C" fn mst_range(
    alloc: Global,
    pass: &mut Hand,
    from: &[u8],
    to: &[u8],
    limit: u32,
    room: &mut [u8],
    count: &mut usize,
    length: &mut usize,
) -> i32
    ensures told { RangeTold pass.old.held from.now to.now limit room.old count.old length.old
        result room.new count.new length.new pass.new.held }
{
    ranging::range(alloc, pass, from, to, limit, room, count, length)
}
