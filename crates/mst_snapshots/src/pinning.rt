//! The pins of a snapshot, with the numbers of their versions.
ghost use Rattle.std.specs.Prelude.{◌≡◌, ◌≤◌, [], length, vec_len, vec_capacity};
ghost use Rattle.std.specs.List.{AllByRecursion};
ghost use Rattle.mst_key.specs.History.{after};
ghost use Rattle.mst_key.specs.Map.{IsMap};
ghost use Rattle.mst_shards.specs.Laid.{AreOf};
ghost use Rattle.mst_shards.specs.Sharding.{AllStep, PinsNow, HaveFewPairs};
ghost use Rattle.mst_snapshots.specs.Reading.{versions_of};

use mst_store::{Laid, LaidPinned, Store};
use std::alloc::Allocator;
use std::collections::VecDeque;

/// Pins the current version of the directory. Returns its number too.
pub(crate) fn pin_directory<A: Allocator + Copy>(
    store: &Store<A>,
    directory: Laid<A>,
) -> (LaidPinned<A>, u64)
    requires own { directory.store ≡ store.now }
    ensures pin { PinsNow directory result.0 }
    ensures version { result.1 ≡ length result.0.seen }
{
    let pinned = store.lift(directory).pin();
    let version = pinned.version();
    (pinned.lay(), version)
}

/// Ends the pin of the directory.
pub(crate) fn unpin_directory<A: Allocator + Copy>(
    store: &Store<A>,
    directory: LaidPinned<A>,
) -> Laid<A>
    requires own { directory.store ≡ store.now }
    ensures same { result ≡ directory }
{
    store.lift_pinned(directory).unpin().lay()
}

/// Pins the current version of each shard, by passes that are laid down again at once, and lists
/// the numbers of these versions. Returns the list of the passes too, which is now empty.
pub(crate) fn pin_shards<A: Allocator + Copy>(
    stores: &[Store<A>],
    passes: Vec<Laid<A>, A>,
    room: Vec<LaidPinned<A>, A>,
    versions: &mut Vec<u64, A>,
) -> (Vec<LaidPinned<A>, A>, Vec<Laid<A>, A>)
    requires own { AreOf stores.now passes.items }
    requires empty { room.items ≡ [] }
    requires fits { vec_len passes ≤ vec_capacity room }
    requires none { versions.old.items ≡ [] }
    requires fits_versions { vec_len passes ≤ vec_capacity versions.old }
    ensures pins { AllStep PinsNow passes.items result.0.items }
    ensures maps { AllByRecursion (λ p. IsMap (after p.seen)) result.0.items }
    ensures few { HaveFewPairs result.0.items }
    ensures versions { versions.new.items ≡ versions_of result.0.items }
    ensures empty { result.1.items ≡ [] }
    ensures room { vec_len result.0 ≤ vec_capacity result.1 }
    ensures kept { vec_capacity versions.new ≡ vec_capacity versions.old }
{
    let mut left = VecDeque::from_vec(passes);
    let mut pins = room;
    let mut place = 0;
    while let Some(laid) = left.pop_front() {
        let pass = stores[place].lift(laid);
        let pin = pass.pin();
        versions.push_reserved(pin.version());
        pins.push_reserved(pin.lay());
        place += 1;
    }
    (pins, left.into_vec())
}
