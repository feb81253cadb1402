//! Reads of pinned shards: of one shard, and in the order of keys across all of them. A pin is
//! lifted at its place for a call, and laid down again, so that no read takes memory for the pins.
ghost use Rattle.std.specs.Prelude.{◌≡◌, ◌+◌, ◌-◌, ◌<◌, ◌≤◌, ◌&&◌, ◌++◌, length, find, slice_get, vec_len, IfOk, OnOk};
ghost use Rattle.std.specs.List.{AllByRecursion};
ghost use Rattle.std.specs.Option.{option_copied};
ghost use Rattle.mst_key.specs.History.{after as after_events};
ghost use Rattle.mst_key.specs.Map.{above, from_on, below, map_get, map_next, map_range, IsMap};
ghost use Rattle.mst_shards.specs.Laid.{AreOf};
ghost use Rattle.mst_shards.specs.Sharding.{sharding, IsSharding, map_of};
ghost use Rattle.mst_shards.specs.Ranging.{union_from};
ghost use Rattle.mst_snapshots.specs.Reading.{pass_at};

use crate::bounds::{
    first_place, first_within, greater, last_place, lesser, next_within, split_before,
};
use mst_key::{Key, Memory, Value};
use mst_shards::{high_key, lay_pin_at, lift_pin_at};
use mst_store::{LaidPinned, Pinned, Store};
use std::alloc::Allocator;

// ---- one shard

/// The value of the key in the shard at a place.
pub(crate) fn get_at<A: Allocator + Copy>(
    stores: &[Store<A>],
    pins: &mut Vec<LaidPinned<A>, A>,
    place: usize,
    key: &Key,
) -> Option<Value>
    requires there { place < vec_len pins.old }
    requires own { AreOf stores.now pins.old.items }
    ensures found { result ≡ map_get (after_events (pass_at pins.old.items place).seen) key.now }
    ensures same { pins.new.items ≡ pins.old.items }
{
    let mut pinned = lift_pin_at(stores, pins, place);
    let found = pinned.get(key);
    lay_pin_at(pins, place, pinned);
    found
}

// The first pair of the shard at a place from a key on and below a bound.
fn first_within_at<A: Allocator + Copy>(
    stores: &[Store<A>],
    pins: &mut Vec<LaidPinned<A>, A>,
    place: usize,
    low: &Key,
    end: Option<&Key>,
) -> Option<(Key, Value)>
    requires there { place < vec_len pins.old }
    requires own { AreOf stores.now pins.old.items }
    ensures found { result
        ≡ find (λ p. from_on (Some low.now) p.0 && below (option_copied end.entry) p.0)
        (after_events (pass_at pins.old.items place).seen) }
    ensures same { pins.new.items ≡ pins.old.items }
{
    let mut pinned = lift_pin_at(stores, pins, place);
    let found = first_within(&mut pinned, low, end);
    lay_pin_at(pins, place, pinned);
    found
}

// The first pair of the shard at a place above one bound and below the other.
fn next_within_at<A: Allocator + Copy>(
    stores: &[Store<A>],
    pins: &mut Vec<LaidPinned<A>, A>,
    place: usize,
    bound: Option<&Key>,
    end: Option<&Key>,
) -> Option<(Key, Value)>
    requires there { place < vec_len pins.old }
    requires own { AreOf stores.now pins.old.items }
    ensures found { result
        ≡ find (λ p. above (option_copied bound.entry) p.0 && below (option_copied end.entry) p.0)
        (after_events (pass_at pins.old.items place).seen) }
    ensures same { pins.new.items ≡ pins.old.items }
{
    let mut pinned = lift_pin_at(stores, pins, place);
    let found = next_within(&mut pinned, bound, end);
    lay_pin_at(pins, place, pinned);
    found
}

// Appends the pairs of a version between two bounds, as many as are left to the limit.
fn append_between<A: Allocator + Copy, B: Allocator + Copy>(
    found: &mut Vec<(Key, Value), B>,
    alloc: B,
    pinned: &mut Pinned<'_, A>,
    from: Option<&Key>,
    to: Option<&Key>,
    limit: usize,
) -> Result<(), Memory>
    requires few { length found.old.items ≤ limit }
    ensures appended { OnOk result (found.new.items ≡ found.old.items
        ++ map_range (after_events pinned.old.seen) (option_copied from.entry)
        (option_copied to.entry) (limit - length found.old.items)) }
    ensures same { pinned.new ≡ pinned.old }
{
    let mut part = pinned.range(alloc, from, to, limit - found.len())?;
    found.append(&mut part)?;
    Ok(())
}

// The same of the shard at a place.
fn append_between_at<A: Allocator + Copy, B: Allocator + Copy>(
    found: &mut Vec<(Key, Value), B>,
    alloc: B,
    stores: &[Store<A>],
    pins: &mut Vec<LaidPinned<A>, A>,
    place: usize,
    from: Option<&Key>,
    to: Option<&Key>,
    limit: usize,
) -> Result<(), Memory>
    requires few { length found.old.items ≤ limit }
    requires there { place < vec_len pins.old }
    requires own { AreOf stores.now pins.old.items }
    ensures appended { OnOk result (found.new.items ≡ found.old.items
        ++ map_range (after_events (pass_at pins.old.items place).seen) (option_copied from.entry)
        (option_copied to.entry) (limit - length found.old.items)) }
    ensures same { pins.new.items ≡ pins.old.items }
{
    let mut pinned = lift_pin_at(stores, pins, place);
    let appended = append_between(found, alloc, &mut pinned, from, to, limit);
    lay_pin_at(pins, place, pinned);
    appended
}

// ---- all shards

// The first pair of the shards behind a place.
fn first_behind<A: Allocator + Copy>(
    stores: &[Store<A>],
    pins: &mut Vec<LaidPinned<A>, A>,
    splits: &[Key],
    place: usize,
) -> Option<(Key, Value)>
    requires sharding { IsSharding (sharding splits.now pins.old.items) }
    requires own { AreOf stores.now pins.old.items }
    requires there { place ≤ length splits.now }
    ensures found { result ≡ slice_get (union_from (place + 1) splits.now pins.old.items) 0 }
    ensures same { pins.new.items ≡ pins.old.items }
{
    let mut next = place + 1;
    while next <= splits.len() {
        let low = &splits[next - 1];
        let found = first_within_at(stores, pins, next, low, high_key(splits, next));
        if let Some(pair) = found {
            return Some(pair);
        }
        next += 1;
    }
    None
}

/// The pair of the least key above the bound.
pub(crate) fn next_among<A: Allocator + Copy>(
    stores: &[Store<A>],
    pins: &mut Vec<LaidPinned<A>, A>,
    splits: &[Key],
    bound: Option<&Key>,
) -> Option<(Key, Value)>
    requires sharding { IsSharding (sharding splits.now pins.old.items) }
    requires maps { AllByRecursion (λ p. IsMap (after_events p.seen)) pins.old.items }
    requires own { AreOf stores.now pins.old.items }
    ensures found { result
        ≡ map_next (map_of (sharding splits.now pins.old.items)) (option_copied bound.entry) }
    ensures same { pins.new.items ≡ pins.old.items }
{
    let place = first_place(splits, bound);
    match next_within_at(stores, pins, place, bound, high_key(splits, place)) {
        Some(pair) => Some(pair),
        None => first_behind(stores, pins, splits, place),
    }
}

/// The first pairs between two bounds, at most `limit`.
pub(crate) fn range_among<A: Allocator + Copy, B: Allocator + Copy>(
    stores: &[Store<A>],
    pins: &mut Vec<LaidPinned<A>, A>,
    splits: &[Key],
    alloc: B,
    from: Option<&Key>,
    to: Option<&Key>,
    limit: usize,
) -> Result<Vec<(Key, Value), B>, Memory>
    requires sharding { IsSharding (sharding splits.now pins.old.items) }
    requires maps { AllByRecursion (λ p. IsMap (after_events p.seen)) pins.old.items }
    requires own { AreOf stores.now pins.old.items }
    ensures found { IfOk result
        (λ found. found.items ≡ map_range (map_of (sharding splits.now pins.old.items))
        (option_copied from.entry) (option_copied to.entry) limit) }
    ensures same { pins.new.items ≡ pins.old.items }
{
    let mut found = Vec::new(alloc);
    let mut place = first_place(splits, from);
    let last = last_place(splits, to);
    while place <= last {
        let low = greater(from, split_before(splits, place));
        let high = lesser(to, high_key(splits, place));
        append_between_at(&mut found, alloc, stores, pins, place, low, high, limit)?;
        place += 1;
    }
    Ok(found)
}
