//! What C is told of a key's value. The result is made where the value was read, so that the value
//! is not moved.
ghost use Rattle.std.specs.Prelude.{◌≡◌};
ghost use Rattle.mst_c.specs.declared.pass_box.State.TheVariants as state;
ghost use Rattle.mst_c.specs.Told.{ValueTold};

use crate::telling::tell;
use mst_key::Key;
use mst_store::{Laid, LaidPinned, Store};
use std::alloc::Global;

/// Gives C the value of the key that a free pass finds now.
pub(crate) fn tell_now(
    store: &Store<Global>,
    laid: Laid<Global>,
    key: &Key,
    room: &mut [u8],
) -> (Laid<Global>, i32)
    requires own { laid.store ≡ store.now }
    ensures told { ValueTold key.now (state.Free laid) room.old result.1 room.new
        (state.Free result.0) }
    ensures own { result.0.store ≡ store.now }
{
    let mut pass = store.lift(laid);
    let code = tell(&pass.get(key), room);
    (pass.lay(), code)
}

/// Gives C the value of the key in the version that a pass pins.
pub(crate) fn tell_pinned(
    store: &Store<Global>,
    laid: LaidPinned<Global>,
    key: &Key,
    room: &mut [u8],
) -> (LaidPinned<Global>, i32)
    requires own { laid.store ≡ store.now }
    ensures told { ValueTold key.now (state.Pinned laid) room.old result.1 room.new
        (state.Pinned result.0) }
    ensures own { result.0.store ≡ store.now }
{
    let mut pinned = store.lift_pinned(laid);
    let code = tell(&pinned.get(key), room);
    (pinned.lay(), code)
}
