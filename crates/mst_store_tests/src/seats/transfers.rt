//! Who pins a record, by what the words say, while another pass publishes.
ghost use Rattle.std.specs.Prelude.{◌≡◌};
ghost use Rattle.mst_key.specs.History.{IsMigration, IsBatch};
ghost use Rattle.mst_versions.specs.Turns.{HasMade};

use crate::confirming::confirm;
use crate::seats::seated::Free;
use crate::seats::tables::{opened, parameters, putting};
use mst_arena::Root;
use mst_key::Event;
use mst_versions::reading::pin;
use mst_versions::roots::write_root;
use mst_versions::turn::{Turn, begin_write};
use mst_versions::writing::make;
use mst_words::PassSeat;
use mst_words::layout::MASKS;
use std::alloc::Global;
use std::marker::Brand;

// Publishes as `publish` does, up to the transfer. It returns who pins the record that was current,
// before the transfer and after it.
fn publish_by_steps(
    seat: &mut PassSeat<'_, Global>,
    turn: Turn<Global>,
    root: &Root,
    event: &Event,
) -> (u32, u32)
    requires made { HasMade turn root.now turn.format event.now seat.old.me }
{
    let Turn {
        mut desk,
        into,
        format,
        ..
    } = turn;
    let (old, version) = desk.current();
    write_root(seat, into, version + 1, root, format);
    desk.advance(into);
    let found = seat.publish::<Brand>(into, event, &desk);
    let published = seat.pins(old);
    seat.transfer(old, found % MASKS);
    (published, seat.pins(old))
}

// The same of a put by a pass; `None` if the turn is taken, or if there is no room.
fn publishes(pass: Free<'_>, event: &Event) -> Option<(u32, u32)>
    requires mine { event.now.pass ≡ pass.me.0.number }
    requires keyed { IsMigration event.now.change → ⊥ }
    requires single { IsBatch event.now.change → ⊥ }
{
    let Free {
        mut seat,
        parameters,
    } = pass;
    let Ok(mut turn) = begin_write(&mut seat, parameters) else {
        return None;
    };
    let Ok((root, _)) = make(&mut seat, &mut turn, &event.change) else {
        return None;
    };
    Some(publish_by_steps(&mut seat, turn, &root, event))
}

#[test]
fn a_publication_leaves_the_pins_to_its_transfer(rt: HostRuntime) {
    let (board, mut dealer) = opened(rt.alloc(), 4, 2).expect(&rt, "memory");
    let first = Free {
        seat: board.deal(&mut dealer),
        parameters: parameters(1, 2, 4),
    };
    let mut second = board.deal(&mut dealer);
    let event = putting(&rt, 1, b"1");
    let at = pin(&mut second, parameters(2, 2, 4));
    let before = second.pins(at.pinned);
    // between the two steps the mask is with the first pass alone
    let steps = publishes(first, &event);
    second.unpin(2, at.pinned);
    let right = before == 2 && steps == Some((0, 2)) && second.pins(at.pinned) == 0;
    confirm(&rt, right, "who pins the record");
}
