//! How many rows are free, which versions are pinned, and which one a pass made, as C is told of
//! them.
ghost use Rattle.std.specs.Prelude.{◌≡◌, ◌≤◌, ◌++◌, length, drop, Ok};
ghost use Rattle.mst_c.specs.Knowing.{free_code, free_after, unlisted_code as code_of_unlisted, versions_code, versions_room, made_code, made_after, FreeRowsTold, PinnedVersionsTold, MadeTold};

use crate::codes::{ABSENT, BUSY, CLOSED, SHORT_ROOM, WRONG_STATE};
use crate::hand::{Hand, give, take};
use crate::pass_box::CountRefusal;
use std::alloc::Global;

/// The code of a count of the free rows. The count is written then, if there is one.
fn tell_free(free: Result<u32, CountRefusal>, count: &mut u32) -> i32
    ensures code { result ≡ free_code free }
    ensures count { count.new ≡ free_after count.old free }
{
    match free {
        Ok(free) => {
            *count = free;
            0
        }
        Err(CountRefusal::Pins) => WRONG_STATE,
        Err(CountRefusal::Busy) => BUSY,
    }
}

/// As `mst_free_rows` of `mst_exports` says.
pub fn free_rows(alloc: Global, hand: &mut Hand, count: &mut u32) -> i32
    ensures told { FreeRowsTold hand.old.held count.old result count.new hand.new.held }
{
    let Some(mut taken) = take(alloc, hand) else {
        return CLOSED;
    };
    let free = taken.held.free_rows();
    give(hand, taken);
    tell_free(free, count)
}

/// Writes versions first into a room, and keeps what stands after them.
fn write_versions(room: &mut [u64], versions: &[u64])
    requires fits { length versions.now ≤ length room.old }
    ensures room { room.new ≡ versions.now ++ drop (length versions.now) room.old }
{
    room[..versions.len()].copy_from_slice(versions);
}

/// Sets `count` to the number of the versions. They then stand first in the room, if they fit.
fn tell_versions(versions: &[u64], room: &mut [u64], count: &mut usize) -> i32
    ensures code { result ≡ versions_code (length room.old) (Ok versions.now) }
    ensures room { room.new ≡ versions_room room.old (Ok versions.now) }
    ensures count { count.new ≡ length versions.now }
{
    *count = versions.len();
    if room.len() < versions.len() {
        return SHORT_ROOM;
    }
    write_versions(room, versions);
    0
}

/// The code of what was not listed.
fn unlisted_code(fault: CountRefusal) -> i32
    ensures code { result ≡ code_of_unlisted fault }
{
    match fault {
        CountRefusal::Pins => WRONG_STATE,
        CountRefusal::Busy => BUSY,
    }
}

/// As `mst_pinned_versions` of `mst_exports` says.
pub fn pinned_versions(alloc: Global, hand: &mut Hand, room: &mut [u64], count: &mut usize) -> i32
    ensures told { PinnedVersionsTold hand.old.held room.old count.old result room.new count.new
        hand.new.held }
{
    let Some(mut taken) = take(alloc, hand) else {
        return CLOSED;
    };
    let found = taken.held.pinned_versions();
    give(hand, taken);
    match found {
        Ok(versions) => tell_versions(versions.as_slice(), room, count),
        Err(fault) => unlisted_code(fault),
    }
}

/// The code of the version that a pass made, or of none. The number is written then, if there is
/// one.
fn tell_made(made: Option<u64>, number: &mut u64) -> i32
    ensures code { result ≡ made_code made }
    ensures number { number.new ≡ made_after number.old made }
{
    match made {
        Some(made) => {
            *number = made;
            0
        }
        None => ABSENT,
    }
}

/// As `mst_made` of `mst_exports` says.
pub fn made(alloc: Global, hand: &mut Hand, number: &mut u64) -> i32
    ensures told { MadeTold hand.old.held number.old result number.new hand.new.held }
{
    let Some(mut taken) = take(alloc, hand) else {
        return CLOSED;
    };
    let made = taken.held.made();
    give(hand, taken);
    tell_made(made, number)
}
