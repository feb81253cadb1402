//! The last steps of a write: the record of the next version is filled, the version is published,
//! and the turn is given back.
ghost use Rattle.std.specs.Prelude.{◌≡◌, ◌+◌, ◌<◌, length};
ghost use Rattle.mst_arena.specs.Lives.{last_version};
ghost use Rattle.mst_words.specs.Access.{IsSameSeat, with_words};
ghost use Rattle.mst_versions.specs.Turns.{HoldsDesk, HasMade, StaysMade, IsFilled, CanPublish, Added};
ghost use Rattle.mst_versions.specs.Revealing.{IsRevealed, closed};

use crate::roots::write_root;
use crate::turn::Turn;
use mst_arena::{Desk, Root};
use mst_key::{Event, Format};
use mst_words::PassSeat;
use mst_words::layout::MASKS;
use std::alloc::Allocator;
use std::marker::Brand;

/// Fills the record of the version to come, whose map stands at the root in the format: a store for
/// each of its seven words. Readers see nothing of it before [`finish`].
pub fn fill<A: Allocator + Copy>(
    seat: &mut PassSeat<'_, A>,
    turn: &Turn<A>,
    root: &Root,
    format: Format,
)
    requires holds { HoldsDesk turn.now seat.old.me }
    requires open { length seat.old.me.0.seen < last_version }
    ensures kept { seat.new ≡ with_words seat.new.me.0.known_words seat.old }
    ensures filled { IsFilled turn.now root.now format seat.new.me }
    ensures made { StaysMade turn.now root.now format seat.old.me seat.new.me }
{
    let (_, version) = turn.desk.current();
    let made = version + 1;
    write_root(seat, turn.into, made, root, format);
}

/// A turn whose version is published: readers find it. What is left is to move the mask of the pins
/// of the version before, and to give desk and turn back.
#[derive(Drop)]
pub struct PublishedTurn<A: Allocator> {
    /// The number of the version.
    pub version: u64,
    desk: Desk<A>,
    /// The record of the version before.
    old: u32,
    /// The mask of its pins.
    mask: u64,
}

/// Publishes the version to come with its event: the filled record becomes the current one by one
/// swap. The turn is kept until [`close`].
#[inline(always)]
pub fn reveal<A: Allocator + Copy>(
    seat: &mut PassSeat<'_, A>,
    turn: Turn<A>,
    event: &Event,
) -> PublishedTurn<A>
    requires ready { CanPublish turn event.now seat.old.me }
    ensures same { IsSameSeat seat.old seat.new }
    ensures revealed { IsRevealed result seat.new.me }
    ensures added { Added event.now seat.old.me (closed seat.new.me) }
    ensures version { result.version ≡ length seat.new.me.0.seen }
{
    let Turn { mut desk, into, .. } = turn;
    let (old, version) = desk.current();
    let made = version + 1;
    desk.advance(into);
    let found = seat.publish::<Brand>(into, event, &desk);
    PublishedTurn {
        version: made,
        desk,
        old,
        mask: found % MASKS,
    }
}

/// Gives the turn back once its version is published: the mask of the pins of the version before is
/// moved by one xor, and desk and turn go back, by one exchange and one store.
#[inline(always)]
pub fn close<A: Allocator + Copy>(seat: &mut PassSeat<'_, A>, revealed: PublishedTurn<A>)
    requires revealed { IsRevealed revealed seat.old.me }
    ensures same { IsSameSeat seat.old seat.new }
    ensures closed { seat.new.me ≡ closed seat.old.me }
{
    let PublishedTurn {
        desk,
        old,
        mask,
        ..
    } = revealed;
    seat.transfer(old, mask);
    seat.return_desk(desk);
    seat.give_turn();
}

/// Publishes the version to come with its event, and gives the turn back: [`reveal`] and [`close`].
/// Returns the number of the version.
pub fn finish<A: Allocator + Copy>(seat: &mut PassSeat<'_, A>, turn: Turn<A>, event: &Event) -> u64
    requires ready { CanPublish turn event.now seat.old.me }
    ensures same { IsSameSeat seat.old seat.new }
    ensures added { Added event.now seat.old.me seat.new.me }
    ensures version { result ≡ length seat.new.me.0.seen }
{
    let revealed = reveal(seat, turn, event);
    let version = revealed.version;
    close(seat, revealed);
    version
}

/// Fills the record of the version to come, and publishes that version. Returns its number.
pub fn publish<A: Allocator + Copy>(
    seat: &mut PassSeat<'_, A>,
    turn: Turn<A>,
    root: &Root,
    format: Format,
    event: &Event,
) -> u64
    requires made { HasMade turn root.now format event.now seat.old.me }
    ensures same { IsSameSeat seat.old seat.new }
    ensures added { Added event.now seat.old.me seat.new.me }
    ensures version { result ≡ length seat.new.me.0.seen }
{
    fill(seat, &turn, root, format);
    finish(seat, turn, event)
}
