//! Passes that are laid down next to the stores of the shards, and lifted again: one at a place, or
//! all of a list. Lists keep their room, so that none of it takes memory: one that is emptied from
//! its front is a deque meanwhile, in the room that it has.
ghost use Rattle.std.specs.Prelude.{◌≡◌, ◌<◌, ◌≤◌, ◌+◌, ◌++◌, ◌∷◌, [], slice_index_or, vec_len, vec_capacity};
ghost use Rattle.std.specs.List.{swap_remove, SwappedAt};
ghost use Rattle.mst_shards.specs.Laid.{AreOf};

use mst_store::{Laid, LaidPinned, Pass, Pinned, Store};
use std::alloc::Allocator;
use std::collections::VecDeque;

// ---- one pass at a place

/// Takes the pass at a place out of the list, and lifts it. Until `lay_at` another one may stand
/// there.
pub fn lift_at<'a, A: Allocator + Copy>(
    stores: &'a [Store<A>],
    laid: &mut Vec<Laid<A>, A>,
    place: usize,
) -> Pass<'a, A>
    requires there { place < vec_len laid.old }
    requires own { AreOf stores.now laid.old.items }
    ensures pass { result ≡ slice_index_or laid.old.items place result }
    ensures left { laid.new.items ≡ swap_remove laid.old.items place result }
    ensures len { vec_len laid.new + 1 ≡ vec_len laid.old }
    ensures room { vec_capacity laid.new ≡ vec_capacity laid.old }
{
    let pass = laid.swap_remove(place);
    stores[place].lift(pass)
}

/// Lays a pass down where it was taken from.
pub fn lay_at<A: Allocator + Copy>(laid: &mut Vec<Laid<A>, A>, place: usize, pass: Pass<'_, A>)
    requires there { place ≤ vec_len laid.old }
    requires room { vec_len laid.old < vec_capacity laid.old }
    ensures back { SwappedAt (laid.old.items ++ pass.entry ∷ []) laid.new.items place
        (vec_len laid.old) }
    ensures len { vec_len laid.new ≡ vec_len laid.old + 1 }
    ensures room { vec_capacity laid.new ≡ vec_capacity laid.old }
{
    let last = laid.len();
    laid.push_reserved(pass.lay());
    laid.as_mut_slice().swap(place, last);
}

/// Takes the pinned pass at a place out of the list, and lifts it, as `lift_at` does.
pub fn lift_pin_at<'a, A: Allocator + Copy>(
    stores: &'a [Store<A>],
    laid: &mut Vec<LaidPinned<A>, A>,
    place: usize,
) -> Pinned<'a, A>
    requires there { place < vec_len laid.old }
    requires own { AreOf stores.now laid.old.items }
    ensures pass { result ≡ slice_index_or laid.old.items place result }
    ensures left { laid.new.items ≡ swap_remove laid.old.items place result }
    ensures len { vec_len laid.new + 1 ≡ vec_len laid.old }
    ensures room { vec_capacity laid.new ≡ vec_capacity laid.old }
{
    let pinned = laid.swap_remove(place);
    stores[place].lift_pinned(pinned)
}

/// Lays a pinned pass down where it was taken from.
pub fn lay_pin_at<A: Allocator + Copy>(
    laid: &mut Vec<LaidPinned<A>, A>,
    place: usize,
    pinned: Pinned<'_, A>,
)
    requires there { place ≤ vec_len laid.old }
    requires room { vec_len laid.old < vec_capacity laid.old }
    ensures back { SwappedAt (laid.old.items ++ pinned.entry ∷ []) laid.new.items place
        (vec_len laid.old) }
    ensures len { vec_len laid.new ≡ vec_len laid.old + 1 }
    ensures room { vec_capacity laid.new ≡ vec_capacity laid.old }
{
    let last = laid.len();
    laid.push_reserved(pinned.lay());
    laid.as_mut_slice().swap(place, last);
}

// ---- all passes of a list

/// Lifts each pass. Returns their list too, which is now empty.
pub fn lift_all<'a, A: Allocator + Copy>(
    stores: &'a [Store<A>],
    laid: Vec<Laid<A>, A>,
    room: Vec<Pass<'a, A>, A>,
) -> (Vec<Pass<'a, A>, A>, Vec<Laid<A>, A>)
    requires own { AreOf stores.now laid.items }
    requires empty { room.items ≡ [] }
    requires fits { vec_len laid ≤ vec_capacity room }
    ensures same { result.0.items ≡ laid.items }
    ensures empty { result.1.items ≡ [] }
    ensures room { vec_len result.0 ≤ vec_capacity result.1 }
{
    let mut left = VecDeque::from_vec(laid);
    let mut passes = room;
    let mut place = 0;
    while let Some(pass) = left.pop_front() {
        passes.push_reserved(stores[place].lift(pass));
        place += 1;
    }
    (passes, left.into_vec())
}

/// Lays each pass down.
pub fn lay_all<A: Allocator + Copy>(
    passes: Vec<Pass<'_, A>, A>,
    room: Vec<Laid<A>, A>,
) -> Vec<Laid<A>, A>
    requires empty { room.items ≡ [] }
    requires fits { vec_len passes ≤ vec_capacity room }
    ensures same { result.items ≡ passes.entry.items }
    ensures room { vec_capacity result ≡ vec_capacity room }
{
    let mut left = VecDeque::from_vec(passes);
    let mut laid = room;
    while let Some(pass) = left.pop_front() {
        laid.push_reserved(pass.lay());
    }
    laid
}

// ---- pins

/// Ends the pin of each shard, by pinned passes that are laid down again at once. Returns the list
/// of the pinned passes too, which is now empty.
pub fn unpin_laid<A: Allocator + Copy>(
    stores: &[Store<A>],
    pinned: Vec<LaidPinned<A>, A>,
    room: Vec<Laid<A>, A>,
) -> (Vec<Laid<A>, A>, Vec<LaidPinned<A>, A>)
    requires own { AreOf stores.now pinned.items }
    requires empty { room.items ≡ [] }
    requires fits { vec_len pinned ≤ vec_capacity room }
    ensures same { result.0.items ≡ pinned.items }
    ensures empty { result.1.items ≡ [] }
    ensures room { vec_len result.0 ≤ vec_capacity result.1 }
{
    let mut left = VecDeque::from_vec(pinned);
    let mut passes = room;
    let mut place = 0;
    while let Some(laid) = left.pop_front() {
        let pin = stores[place].lift_pinned(laid);
        passes.push_reserved(pin.unpin().lay());
        place += 1;
    }
    (passes, left.into_vec())
}
