//! The turn: from taking it with the desk to giving both back.
ghost use Rattle.std.specs.Prelude.{◌≡◌, ◌<◌, ◌≤◌, ◌+◌, ◌∷◌, ◌++◌, [], length, drop, IfSome, IfNone, IfOk, IfErr, OnOk, Some, None, false};
ghost use Rattle.mst_words.specs.Access.{IsSameSeat};
ghost use Rattle.mst_arena.specs.Lives.{last_version, IsSettled};
ghost use Rattle.mst_words.specs.Steps.{IsFree, IsHolder, IsGiving, Misses, found_now};
ghost use Rattle.mst_words.specs.Stored.{stored, desk_state};
ghost use Rattle.mst_versions.specs.Asking.{KnowsRecords, HasAsked, AsksOnly, AsksEach};
ghost use Rattle.mst_words.specs.Layout.{most_passes};
ghost use Rattle.mst_versions.specs.Known.{most_rows};
ghost use Rattle.mst_versions.specs.Listing.{AsksAll};
ghost use Rattle.mst_versions.specs.Resting.{IsResting};
ghost use Rattle.mst_versions.specs.Turns.{SeatState, TakesDesk, HoldsDesk, HasTurn, Begun, FailsToBegin};

use crate::parameters::PassParameters;
use crate::roots::{read_format, read_root};
use arrayvec::ArrayVec;
use mst_arena::{Desk, Root};
use mst_key::Format;
use mst_words::PassSeat;
use mst_words::layout::{MASKS, MOST_RECORDS};
use std::alloc::Allocator;

/// What the holder of the turn has at hand.
#[derive(Drop)]
pub struct Turn<A: Allocator> {
    /// Births and deaths of the rows. The rows that no version reaches any more are free.
    pub desk: Desk<A>,
    /// Where the map of the current version stands.
    pub root: Root,
    /// The format of the current version.
    pub format: Format,
    /// A record that nobody pins, for the version to come.
    pub into: u32,
    /// How many versions are live: the current one, and those of the records that were found
    /// pinned.
    pub live: u32,
}

/// Why no write was begun.
#[derive(Clone, Copy)]
pub enum BeginFault {
    /// Another pass has the turn.
    Busy,
    /// The current version has the last number, 2^63 - 1.
    VersionsSpent,
}

/// What the holder of the turn has learnt of the records.
#[derive(Drop)]
struct Asked {
    /// The current version, and the version of each record that was found pinned.
    live: ArrayVec<u64, MOST_RECORDS>,
    /// The record that was found drained last; before one was found, the current one.
    into: u32,
}

impl Asked {
    // Asks the next record; the current one is passed over.
    fn ask<A: Allocator + Copy>(&mut self, seat: &mut PassSeat<'_, A>, desk: &Desk<A>, which: u32)
        requires asked { HasAsked which desk.now self.old seat.old.me }
        requires there { which < seat.old.me.0.passes + 2 }
        ensures same { IsSameSeat seat.old seat.new }
        ensures kept { AsksOnly seat.old.me seat.new.me }
        ensures counted { AsksEach seat.old.me seat.new.me }
        ensures asked { HasAsked (which + 1) desk.now self.new seat.new.me }
    {
        let (current, _) = desk.current();
        if which == current {
            return;
        }
        if seat.ask(which) {
            self.into = which;
        } else {
            self.live.push(desk.version_of(which));
        }
    }
}

// Asks each record but the current one: one load each.
fn ask_others<A: Allocator + Copy>(seat: &mut PassSeat<'_, A>, desk: &Desk<A>, passes: u32) -> Asked
    requires knows { KnowsRecords desk.now seat.old.me }
    requires passes { passes ≡ seat.old.me.0.passes }
    requires none { (seat.old.me.0.drained ≡ []) × (seat.old.me.0.blocked ≡ [])
        × (seat.old.me.0.found ≡ []) }
    ensures same { IsSameSeat seat.old seat.new }
    ensures kept { AsksOnly seat.old.me seat.new.me }
    ensures counted { AsksEach seat.old.me seat.new.me }
    ensures asked { HasAsked (passes + 2) desk.now result seat.new.me }
{
    let (current, version) = desk.current();
    let mut live = ArrayVec::new();
    live.push(version);
    let mut asked = Asked {
        live,
        into: current,
    };
    for which in 0..passes + 2 {
        asked.ask(seat, desk, which);
    }
    asked
}

// Takes the turn, and the desk out of the slot. Returns `None` if another pass has the turn.
pub(crate) fn take<A: Allocator + Copy>(seat: &mut PassSeat<'_, A>, number: u32) -> Option<Desk<A>>
    requires free { IsFree number seat.old.me }
    ensures same { IsSameSeat seat.old seat.new }
    ensures missed { IfNone result (Misses seat.old.me seat.new.me) }
    ensures taken { IfSome result (λ desk. TakesDesk seat.old.me desk seat.new.me) }
    ensures holder { IfSome result (λ _. IsHolder seat.new.me) }
{
    if seat.take_turn(number) {
        Some(seat.take_desk())
    } else {
        None
    }
}

// Gives the turn back, and the desk: one exchange and one store.
fn lay_back<A: Allocator + Copy>(seat: &mut PassSeat<'_, A>, desk: Desk<A>)
    requires out { seat.old.me.1 ≡ (0, None) ∷ [] }
    requires giving { IsGiving (stored seat.old.me.0.format) (Some desk) (desk_state desk)
        (seat.old.me.0, (0, Some desk) ∷ []) }
    ensures same { IsSameSeat seat.old seat.new }
    ensures gave { seat.new.me ≡ (record seat.old.me.0 { turn = false }, []) }
{
    seat.return_desk(desk);
    seat.give_turn();
}

// Makes the holder of the turn ready for a write: a record is found for the version to come, and
// the rows that no version reaches are freed.
fn ready_turn<A: Allocator + Copy>(
    seat: &mut PassSeat<'_, A>,
    mut desk: Desk<A>,
    passes: u32,
) -> Turn<A>
    requires taken { (before : SeatState) × TakesDesk before desk seat.old.me }
    requires holder { IsHolder seat.old.me }
    requires passes { passes ≡ seat.old.me.0.passes }
    requires few { passes ≤ most_passes }
    requires few_rows { seat.old.me.0.rows ≤ most_rows }
    ensures same { IsSameSeat seat.old seat.new }
    ensures kept { AsksOnly seat.old.me seat.new.me }
    ensures asked { seat.new.me.0.asked ≡ seat.old.me.0.asked + passes + 1 }
    ensures has { HasTurn result seat.new.me }
{
    let asked = ask_others(seat, &desk, passes);
    let (current, _) = desk.current();
    let (_, root) = read_root(seat, current);
    let format = read_format(seat, current);
    desk.sweep(&asked.live);
    Turn {
        desk,
        root,
        format,
        into: asked.into,
        live: asked.live.len() as u32,
    }
}

// The versions of the list but the first, which is the current one; and that one behind them, if
// the mask of the pins that ended is not the one that was noted, so that some pass pins it.
fn found_in(
    mut live: ArrayVec<u64, MOST_RECORDS>,
    version: u64,
    noted: u64,
    done: u64,
) -> ArrayVec<u64, MOST_RECORDS>
    requires some { 0 < length live.items }
    requires few { length live.items ≤ most_passes }
    ensures found { result.items ≡ drop 1 live.items ++ found_now (Some noted) done version }
{
    live.remove(0);
    if noted % MASKS != done {
        live.push(version);
    }
    live
}

/// Asks each record who pins it, and gives the turn back. It returns the versions that were found
/// pinned, in the order in which they were found: one load for each record but the current one, and
/// two for that.
pub(crate) fn ask_all<A: Allocator + Copy>(
    seat: &mut PassSeat<'_, A>,
    desk: Desk<A>,
    passes: u32,
) -> ArrayVec<u64, MOST_RECORDS>
    requires taken { (before : SeatState) × TakesDesk before desk seat.old.me }
    requires holder { IsHolder seat.old.me }
    requires passes { passes ≡ seat.old.me.0.passes }
    requires few { passes ≤ most_passes }
    ensures same { IsSameSeat seat.old seat.new }
    ensures found { result.items ≡ seat.new.me.0.found }
    ensures all { AsksAll seat.old.me seat.new.me }
{
    let others = ask_others(seat, &desk, passes);
    let (current, version) = desk.current();
    let noted = seat.note_current();
    let done = seat.ask_current(current);
    lay_back(seat, desk);
    found_in(others.live, version, noted, done)
}

/// Takes the turn, finds a record for a version to come, and frees the rows that no version
/// reaches: one compare-exchange, one exchange, one load for each record but the current one, and
/// seven loads more. Returns `None` if another pass has the turn.
pub fn begin<A: Allocator + Copy>(
    seat: &mut PassSeat<'_, A>,
    parameters: PassParameters,
) -> Option<Turn<A>>
    requires rest { IsResting parameters seat.old.me }
    ensures same { IsSameSeat seat.old seat.new }
    ensures missed { IfNone result (Misses seat.old.me seat.new.me) }
    ensures begun { IfSome result (λ t. Begun seat.old.me t seat.new.me) }
{
    let Some(desk) = take(seat, parameters.number) else {
        return None;
    };
    Some(ready_turn(seat, desk, parameters.passes))
}

/// Begins a write as [`begin`] does. But if the current version has the last number, the turn is
/// given back before any record is asked.
pub fn begin_write<A: Allocator + Copy>(
    seat: &mut PassSeat<'_, A>,
    parameters: PassParameters,
) -> Result<Turn<A>, BeginFault>
    requires rest { IsResting parameters seat.old.me }
    ensures same { IsSameSeat seat.old seat.new }
    ensures refused { IfErr result (λ why. FailsToBegin why seat.old.me seat.new.me) }
    ensures begun { IfOk result (λ t. Begun seat.old.me t seat.new.me) }
    ensures room { OnOk result (length seat.new.me.0.seen < last_version) }
{
    let Some(desk) = take(seat, parameters.number) else {
        return Err(BeginFault::Busy);
    };
    if let Err(_) = desk.next_version() {
        lay_back(seat, desk);
        return Err(BeginFault::VersionsSpent);
    }
    Ok(ready_turn(seat, desk, parameters.passes))
}

/// Gives the turn back with the history as it was: one exchange and one store.
pub fn give_back<A: Allocator + Copy>(seat: &mut PassSeat<'_, A>, turn: Turn<A>)
    requires holds { HoldsDesk turn seat.old.me }
    requires settled { IsSettled turn.desk }
    ensures same { IsSameSeat seat.old seat.new }
    ensures gave { seat.new.me ≡ (record seat.old.me.0 { turn = false }, []) }
{
    lay_back(seat, turn.desk)
}
