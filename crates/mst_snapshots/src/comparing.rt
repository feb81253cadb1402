//! Whether pinned shards and a pinned directory are of one block. No test takes memory.
ghost use Rattle.std.specs.Prelude.{◌≡◌, ◌≢◌, ◌<◌, ◌≤◌, ◌+◌, true, false, length, slice_get, vec_len};
ghost use Rattle.std.specs.List.{AllByRecursion};
ghost use Rattle.std.specs.Option.{option_copied};
ghost use Rattle.mst_key.specs.History.{after};
ghost use Rattle.mst_key.specs.Map.{from_on, below, map_next, IsMap};
ghost use Rattle.mst_store.specs.Passes.{format_seen};
ghost use Rattle.mst_shards.specs.BlockHistory.{whole, IsOneBlock};
ghost use Rattle.mst_shards.specs.Entries.{shard_at, KeepsTo};
ghost use Rattle.mst_shards.specs.Laid.{AreOf};
ghost use Rattle.mst_shards.specs.Sharding.{sharding, IsSharding, HaveFewPairs};
ghost use Rattle.mst_snapshots.specs.Agreeing.{listed_pair, Agrees, AreClean, low_before};
ghost use Rattle.mst_snapshots.specs.Reading.{pass_at};

use crate::bounds::{first_from, is_below};
use mst_key::{Format, Key, Value};
use mst_shards::{high_key, lay_pin_at, lift_pin_at, listing, low_key};
use mst_store::{LaidPinned, Pinned, Store};
use std::alloc::Allocator;

// ---- the keys of one shard

// Whether no key of the version is below the bound.
fn has_none_below<A: Allocator + Copy>(pinned: &mut Pinned<'_, A>, low: &Key) -> bool
    ensures yes { result ≡ true
        → AllByRecursion (λ p. from_on (Some low.now) p.0 ≡ true) (after pinned.old.seen) }
    ensures no { result ≡ false
        → AllByRecursion (λ p. from_on (Some low.now) p.0 ≡ true) (after pinned.old.seen) → ⊥ }
    ensures same { pinned.new ≡ pinned.old }
{
    match pinned.next(None) {
        None => true,
        Some((first, _value)) => !is_below(&first, Some(low)),
    }
}

// Whether each key of the version is below the bound, if there is one.
fn has_none_from<A: Allocator + Copy>(pinned: &mut Pinned<'_, A>, high: Option<&Key>) -> bool
    ensures yes { result ≡ true
        → AllByRecursion (λ p. below (option_copied high.entry) p.0 ≡ true)
        (after pinned.old.seen) }
    ensures no { result ≡ false
        → AllByRecursion (λ p. below (option_copied high.entry) p.0 ≡ true)
        (after pinned.old.seen) → ⊥ }
    ensures same { pinned.new ≡ pinned.old }
{
    let Some(key) = high else {
        return true;
    };
    match first_from(pinned, key) {
        None => true,
        Some(_) => false,
    }
}

// Whether the version has keys of the shard at a place alone.
fn keeps_to<A: Allocator + Copy>(pinned: &mut Pinned<'_, A>, splits: &[Key], place: usize) -> bool
    requires there { place ≤ length splits.now }
    ensures yes { result ≡ true → KeepsTo (shard_at splits.now place) pinned.old }
    ensures no { result ≡ false → KeepsTo (shard_at splits.now place) pinned.old → ⊥ }
    ensures same { pinned.new ≡ pinned.old }
{
    let low = low_key(splits, place);
    let above = has_none_below(pinned, &low);
    let under = has_none_from(pinned, high_key(splits, place));
    above && under
}

// Whether the number is the one at the place.
fn is_at(versions: &[u64], place: usize, version: u64) -> bool
    ensures is { result ≡ true → slice_get versions.now place ≡ Some version }
{
    match versions.get(place) {
        Some(found) => *found == version,
        None => false,
    }
}

// Whether the version has keys of the shard at a place alone. It is not looked at if its number is
// that of a version that has.
fn is_clean<A: Allocator + Copy>(
    pinned: &mut Pinned<'_, A>,
    splits: &[Key],
    place: usize,
    clean: &[u64],
) -> bool
    requires there { place ≤ length splits.now }
    requires clean { slice_get clean.now place ≡ Some (length pinned.old.seen)
        → KeepsTo (shard_at splits.now place) pinned.old }
    ensures yes { result ≡ true → KeepsTo (shard_at splits.now place) pinned.old }
    ensures no { result ≡ false → KeepsTo (shard_at splits.now place) pinned.old → ⊥ }
    ensures same { pinned.new ≡ pinned.old }
{
    if is_at(clean, place, pinned.version()) {
        true
    } else {
        keeps_to(pinned, splits, place)
    }
}

// ---- one shard and its entry

// Whether two keys are the same.
fn is_key(one: &Key, other: &Key) -> bool
    ensures yes { result ≡ true → one.now ≡ other.now }
    ensures no { result ≡ false → one.now ≢ other.now }
{
    one == other
}

// Whether two values are the same.
fn is_value(one: &Value, other: &Value) -> bool
    ensures yes { result ≡ true → one.now ≡ other.now }
    ensures no { result ≡ false → one.now ≢ other.now }
{
    one == other
}

// Whether what was found in the directory is the entry of the shard at a place, as it is pinned.
fn is_entry<A: Allocator + Copy>(
    pinned: &mut Pinned<'_, A>,
    splits: &[Key],
    place: usize,
    found: &Option<(Key, Value)>,
) -> bool
    requires there { place ≤ length splits.now }
    ensures yes { result ≡ true
        → found.now ≡ Some (listed_pair (shard_at splits.now place) pinned.old) }
    ensures no { result ≡ false
        → found.now ≢ Some (listed_pair (shard_at splits.now place) pinned.old) }
    ensures same { pinned.new ≡ pinned.old }
{
    let Some((key, value)) = found else {
        return false;
    };
    let digest = pinned.root();
    let low = low_key(splits, place);
    let held = listing(&digest, high_key(splits, place));
    let same = is_key(key, &low);
    let holds = is_value(value, &held);
    same && holds
}

// Whether a pinned shard is as the directory lists it, in the directory's format.
fn agrees<A: Allocator + Copy>(
    pinned: &mut Pinned<'_, A>,
    splits: &[Key],
    place: usize,
    clean: &[u64],
    format: Format,
    found: &Option<(Key, Value)>,
) -> bool
    requires there { place ≤ length splits.now }
    requires clean { slice_get clean.now place ≡ Some (length pinned.old.seen)
        → KeepsTo (shard_at splits.now place) pinned.old }
    ensures yes { result ≡ true → Agrees format (shard_at splits.now place) pinned.old found.now }
    ensures no { result ≡ false → Agrees format (shard_at splits.now place) pinned.old found.now
        → ⊥ }
    ensures same { pinned.new ≡ pinned.old }
{
    let its = pinned.format();
    if its != format {
        return false;
    }
    let listed = is_entry(pinned, splits, place, found);
    if listed {
        is_clean(pinned, splits, place, clean)
    } else {
        false
    }
}

// The same of the shard at a place.
fn agrees_at<A: Allocator + Copy>(
    stores: &[Store<A>],
    pins: &mut Vec<LaidPinned<A>, A>,
    splits: &[Key],
    place: usize,
    clean: &[u64],
    format: Format,
    found: &Option<(Key, Value)>,
) -> bool
    requires there { place < vec_len pins.old }
    requires sharding { IsSharding (sharding splits.now pins.old.items) }
    requires own { AreOf stores.now pins.old.items }
    requires clean { AreClean splits.now clean.now pins.old.items }
    ensures yes { result ≡ true → Agrees format (shard_at splits.now place)
        (pass_at pins.old.items place) found.now }
    ensures no { result ≡ false → Agrees format (shard_at splits.now place)
        (pass_at pins.old.items place) found.now → ⊥ }
    ensures same { pins.new.items ≡ pins.old.items }
{
    let mut pinned = lift_pin_at(stores, pins, place);
    let agrees_here = agrees(&mut pinned, splits, place, clean, format, found);
    lay_pin_at(pins, place, pinned);
    agrees_here
}

// ---- all shards

// The first pair of the directory above the lower bound of the shard before a place, or the first
// pair of all.
fn entry_at<A: Allocator + Copy>(
    directory: &mut Pinned<'_, A>,
    splits: &[Key],
    place: usize,
) -> Option<(Key, Value)>
    requires there { place ≤ length splits.now + 1 }
    ensures found { result ≡ map_next (after directory.old.seen) (low_before splits.now place) }
    ensures same { directory.new ≡ directory.old }
{
    if place == 0 {
        return directory.next(None);
    }
    let low = low_key(splits, place - 1);
    directory.next(Some(&low))
}

/// Whether pinned shards are what a pinned directory lists, and it lists no others. Of versions
/// with the numbers in `clean`, at the places of their shards, it is known that they have keys of
/// their shard alone.
pub(crate) fn lists_all<A: Allocator + Copy>(
    stores: &[Store<A>],
    pins: &mut Vec<LaidPinned<A>, A>,
    splits: &[Key],
    clean: &[u64],
    directory: &mut Pinned<'_, A>,
) -> bool
    requires sharding { IsSharding (sharding splits.now pins.old.items) }
    requires maps { AllByRecursion (λ p. IsMap (after p.seen)) pins.old.items }
    requires few { HaveFewPairs pins.old.items }
    requires own { AreOf stores.now pins.old.items }
    requires clean { AreClean splits.now clean.now pins.old.items }
    ensures yes { result ≡ true → IsOneBlock (whole splits.now pins.old.items directory.old) }
    ensures no { result ≡ false → IsOneBlock (whole splits.now pins.old.items directory.old) → ⊥ }
    ensures same { pins.new.items ≡ pins.old.items }
    ensures still { directory.new ≡ directory.old }
{
    let format = directory.format();
    let mut place = 0;
    while place <= splits.len() {
        let found = entry_at(directory, splits, place);
        let agree = agrees_at(stores, pins, splits, place, clean, format, &found);
        if !agree {
            return false;
        }
        place += 1;
    }
    match entry_at(directory, splits, splits.len() + 1) {
        None => true,
        Some(_) => false,
    }
}
