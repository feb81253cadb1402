//! A try of a snapshot.
ghost use Rattle.std.specs.Prelude.{◌≡◌, true, false, IfOk, IfErr};
ghost use Rattle.std.specs.List.{AllByRecursion};
ghost use Rattle.mst_key.specs.History.{after};
ghost use Rattle.mst_key.specs.Map.{IsMap};
ghost use Rattle.mst_shards.specs.BlockHistory.{whole, IsOneBlock};
ghost use Rattle.mst_shards.specs.Sharding.{HaveFewPairs};
ghost use Rattle.mst_snapshots.specs.Reading.{IsReader, HasVersions, PinsWhole};

use crate::comparing::lists_all;
use crate::directory_pin::DirectoryPin;
use crate::pinning::{pin_directory, pin_shards, unpin_directory};
use crate::reader::{Checks, Reader};
use crate::snapshot::Snapshot;
use mst_shards::{Sharded, unpin_laid};
use mst_store::LaidPinned;
use std::alloc::Allocator;

// Whether the versions of a try are those of the last snapshot.
fn is_last(found: &[u64], number: u64, versions: &[u64], last: u64) -> bool
    ensures number { result ≡ true → number ≡ last }
    ensures versions { result ≡ true → found.now ≡ versions.now }
{
    number == last && found == versions
}

// Whether all that is pinned is of one block. If the versions are those of the last snapshot, that
// is known; otherwise each shard is compared with what the directory lists.
fn is_one_block<A: Allocator + Copy>(
    map: &Sharded<A>,
    pins: &mut Vec<LaidPinned<A>, A>,
    directory: LaidPinned<A>,
    number: u64,
    checks: &Checks<A>,
) -> (LaidPinned<A>, bool)
    requires reader { IsReader map.now checks.now.versions.items checks.now.number
        (whole map.now.splits pins.old.items directory) }
    requires versions { HasVersions checks.now.found.items number
        (whole map.now.splits pins.old.items directory) }
    requires maps { AllByRecursion (λ p. IsMap (after p.seen)) pins.old.items }
    requires few { HaveFewPairs pins.old.items }
    ensures yes { result.1 ≡ true → IsOneBlock (whole map.now.splits pins.old.items directory) }
    ensures no { result.1 ≡ false → IsOneBlock (whole map.now.splits pins.old.items directory) → ⊥ }
    ensures same { result.0 ≡ directory }
    ensures pins { pins.new.items ≡ pins.old.items }
{
    let clean = checks.versions.as_slice();
    if is_last(checks.found.as_slice(), number, clean, checks.number) {
        return (directory, true);
    }
    let mut listing = map.directory().lift_pinned(directory);
    let one = lists_all(map.stores(), pins, map.splits(), clean, &mut listing);
    (listing.lay(), one)
}

impl<A: Allocator + Copy> Reader<A> {
    /// Pins the current version of the directory, and then of each shard. Returns the snapshot if
    /// all of it is of one block; otherwise, while a block was just being published, it ends the
    /// pins and returns the reader. It takes no memory.
    ///
    /// If no version has changed since the reader's last snapshot, nothing is compared; otherwise
    /// each shard is, and those that have changed are looked at.
    pub fn try_snapshot(self) -> Result<Snapshot<A>, Reader<A>>
        ensures ok { IfOk result (λ s. PinsWhole self s) }
        ensures one { IfOk result IsOneBlock }
        ensures err { IfErr result (λ r. PinsWhole self r) }
        ensures moving { IfErr result (λ r. IsOneBlock r → ⊥) }
    {
        let Reader {
            map,
            passes,
            directory,
            room,
            mut checks,
        } = self;
        checks.found.clear();
        let (listing, number) = pin_directory(map.directory(), directory);
        let (mut pins, room) = pin_shards(map.stores(), passes, room, &mut checks.found);
        let (listing, one) = is_one_block(&map, &mut pins, listing, number, &checks);
        if one {
            Ok(Snapshot {
                map,
                pins,
                directory: DirectoryPin::of(listing),
                room,
                checks: checks.noted(number),
            })
        } else {
            let (passes, room) = unpin_laid(map.stores(), pins, room);
            let directory = unpin_directory(map.directory(), listing);
            Err(Reader {
                map,
                passes,
                directory,
                room,
                checks,
            })
        }
    }
}
