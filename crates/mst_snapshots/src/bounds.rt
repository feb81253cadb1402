//! Bounds of keys, and the first pair of a pinned version between two of them.
ghost use Rattle.std.specs.Prelude.{◌≡◌, ◌≤◌, ◌&&◌, length, find, option_to_list};
ghost use Rattle.std.specs.Option.{option_copied};
ghost use Rattle.mst_key.specs.History.{after as after_events};
ghost use Rattle.mst_key.specs.Map.{above, from_on, below};
ghost use Rattle.mst_shards.specs.Sharding.{IsSplits};
ghost use Rattle.mst_shards.specs.Ranging.{greater, lesser, split_before, first_place, last_place};

use mst_key::{Key, Value};
use mst_shards::place_of;
use mst_store::Pinned;
use std::alloc::Allocator;

// ---- bounds

/// The greater of two lower bounds.
pub(crate) fn greater<'b>(one: Option<&'b Key>, other: Option<&'b Key>) -> Option<&'b Key>
    ensures bound { option_copied result
        ≡ greater (option_copied one.entry) (option_copied other.entry) }
{
    match one {
        None => other,
        Some(a) => match other {
            None => one,
            Some(b) => { if a < b { other } else { one } }
        },
    }
}

/// The lesser of two upper bounds.
pub(crate) fn lesser<'b>(one: Option<&'b Key>, other: Option<&'b Key>) -> Option<&'b Key>
    ensures bound { option_copied result
        ≡ lesser (option_copied one.entry) (option_copied other.entry) }
{
    match one {
        None => other,
        Some(a) => match other {
            None => one,
            Some(b) => { if a < b { one } else { other } }
        },
    }
}

/// Whether the key is below the bound.
pub(crate) fn is_below(key: &Key, end: Option<&Key>) -> bool
    ensures below { result ≡ below (option_copied end.entry) key.now }
{
    match end {
        None => true,
        Some(bound) => key < bound,
    }
}

/// The split before a shard, if there is one.
pub(crate) fn split_before(splits: &[Key], place: usize) -> Option<&Key>
    ensures bound { option_copied result ≡ split_before splits.now place }
{
    if place == 0 {
        return None;
    }
    splits.get(place - 1)
}

/// The first shard that may have a key from the bound on.
pub(crate) fn first_place(splits: &[Key], from: Option<&Key>) -> usize
    requires sharding { IsSplits splits.now }
    ensures place { result ≡ first_place splits.now (option_copied from.entry) }
    ensures within { result ≤ length splits.now }
{
    match from {
        None => 0,
        Some(key) => place_of(splits, key),
    }
}

/// The last shard that may have a key below the bound.
pub(crate) fn last_place(splits: &[Key], to: Option<&Key>) -> usize
    requires sharding { IsSplits splits.now }
    ensures place { result ≡ last_place splits.now (option_copied to.entry) }
    ensures within { result ≤ length splits.now }
{
    match to {
        None => splits.len(),
        Some(key) => place_of(splits, key),
    }
}

// ---- the first pair of a version

// The pair, if its key is below the bound.
fn below_end(found: Option<(Key, Value)>, end: Option<&Key>) -> Option<(Key, Value)>
    ensures cut { result
        ≡ find (λ p. below (option_copied end.entry) p.0) (option_to_list found) }
{
    match found {
        None => None,
        Some((key, value)) => {
            if is_below(&key, end) {
                Some((key, value))
            } else {
                None
            }
        }
    }
}

/// The first pair of a version from a key on.
#[tactic(auto, using(mst_shards::proofs::Spans::found_at, mst_shards::proofs::Spans::found_above))]
pub(crate) fn first_from<A: Allocator + Copy>(
    pinned: &mut Pinned<'_, A>,
    low: &Key,
) -> Option<(Key, Value)>
    ensures found { result
        ≡ find (λ p. from_on (Some low.now) p.0) (after_events pinned.old.seen) }
    ensures same { pinned.new ≡ pinned.old }
{
    match pinned.get(low) {
        Some(value) => Some((low.copy(), value)),
        None => pinned.next(Some(low)),
    }
}

/// The first pair of a version from a key on and below a bound.
pub(crate) fn first_within<A: Allocator + Copy>(
    pinned: &mut Pinned<'_, A>,
    low: &Key,
    end: Option<&Key>,
) -> Option<(Key, Value)>
    ensures found { result
        ≡ find (λ p. from_on (Some low.now) p.0 && below (option_copied end.entry) p.0)
        (after_events pinned.old.seen) }
    ensures same { pinned.new ≡ pinned.old }
{
    below_end(first_from(pinned, low), end)
}

/// The first pair of a version above one bound and below the other.
pub(crate) fn next_within<A: Allocator + Copy>(
    pinned: &mut Pinned<'_, A>,
    bound: Option<&Key>,
    end: Option<&Key>,
) -> Option<(Key, Value)>
    ensures found { result
        ≡ find (λ p. above (option_copied bound.entry) p.0 && below (option_copied end.entry) p.0)
        (after_events pinned.old.seen) }
    ensures same { pinned.new ≡ pinned.old }
{
    below_end(pinned.next(bound), end)
}
