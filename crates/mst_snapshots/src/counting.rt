//! How many pairs pinned shards have. A pin is lifted at its place and laid down again, as for
//! other reads.
ghost use Rattle.std.specs.Prelude.{◌≡◌, ◌<◌, ◌≤◌, length, sum_by, vec_len};
ghost use Rattle.mst_key.specs.History.{after};
ghost use Rattle.mst_shards.specs.Laid.{AreOf};
ghost use Rattle.mst_shards.specs.Sharding.{HaveFewPairs};
ghost use Rattle.mst_snapshots.specs.Reading.{pass_at};

use mst_shards::{lay_pin_at, lift_pin_at};
use mst_store::{LaidPinned, Store};
use std::alloc::Allocator;

// How many pairs the shard at a place has.
fn len_at<A: Allocator + Copy>(
    stores: &[Store<A>],
    pins: &mut Vec<LaidPinned<A>, A>,
    place: usize,
) -> u64
    requires there { place < vec_len pins.old }
    requires own { AreOf stores.now pins.old.items }
    ensures found { result ≡ length (after (pass_at pins.old.items place).seen) }
    ensures same { pins.new.items ≡ pins.old.items }
{
    let mut pinned = lift_pin_at(stores, pins, place);
    let len = pinned.len();
    lay_pin_at(pins, place, pinned);
    len
}

/// How many pairs the shards have together.
pub(crate) fn len_among<A: Allocator + Copy>(
    stores: &[Store<A>],
    pins: &mut Vec<LaidPinned<A>, A>,
) -> u64
    requires own { AreOf stores.now pins.old.items }
    requires few { HaveFewPairs pins.old.items }
    requires most { vec_len pins.old ≤ 1024 }
    ensures sum { result ≡ sum_by (λ p. length (after p.seen)) pins.old.items }
    ensures same { pins.new.items ≡ pins.old.items }
{
    let mut len: u64 = 0;
    for place in 0..pins.len() {
        len += len_at(stores, pins, place);
    }
    len
}
