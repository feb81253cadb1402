//! What a snapshot shows of itself to others: proofs against its root digest, and its directory.
ghost use Rattle.std.specs.Prelude.{◌≡◌, ◌≤◌, ◌<◌, ◌^◌, length, vec_len, IfOk};
ghost use Rattle.mst_key.specs.History.{after};
ghost use Rattle.mst_node.specs.Trail.{proof_text};
ghost use Rattle.mst_store.specs.Passes.{format_seen};
ghost use Rattle.mst_sharded_proof.specs.Frame.{framing, sharded_proof};
ghost use Rattle.mst_sharded_proof.specs.Shards.{directory as directory_of};
ghost use Rattle.mst_shards.specs.BlockHistory.{whole, IsOneBlock};
ghost use Rattle.mst_shards.specs.Directory.{OfClean};
ghost use Rattle.mst_shards.specs.Laid.{AreOf};
ghost use Rattle.mst_shards.specs.Sharding.{sharding};
ghost use Rattle.mst_snapshots.specs.Reading.{pass_at};

use crate::directory_pin::DirectoryPin;
use crate::snapshot::Snapshot;
use mst_key::{Key, Memory, Value};
use mst_sharded_proof::join;
use mst_shards::{Sharded, lay_pin_at, lift_pin_at, low_key, place_of};
use mst_store::{LaidPinned, Store};
use std::alloc::Allocator;

// The proof of the answer for a key of the shard at a place.
fn prove_at<A: Allocator + Copy, B: Allocator + Copy>(
    stores: &[Store<A>],
    pins: &mut Vec<LaidPinned<A>, A>,
    place: usize,
    alloc: B,
    key: &Key,
) -> Result<Vec<u8, B>, Memory>
    requires there { place < vec_len pins.old }
    requires own { AreOf stores.now pins.old.items }
    ensures found { IfOk result (λ found. found.items
        ≡ proof_text (format_seen (pass_at pins.old.items place))
        (after (pass_at pins.old.items place).seen) key.now) }
    ensures same { pins.new.items ≡ pins.old.items }
{
    let mut pinned = lift_pin_at(stores, pins, place);
    let text = pinned.prove(alloc, key);
    lay_pin_at(pins, place, pinned);
    text
}

// The directory's proof for the lower bound of the key's shard, and below it the shard's for the
// key.
fn prove_in<A: Allocator + Copy, B: Allocator + Copy>(
    map: &Sharded<A>,
    directory: &mut DirectoryPin<A>,
    pins: &mut Vec<LaidPinned<A>, A>,
    alloc: B,
    key: &Key,
) -> Result<Vec<u8, B>, Memory>
    requires one { IsOneBlock (whole map.now.splits pins.old.items directory.old) }
    requires own { AreOf map.now.stores pins.old.items }
    requires own_directory { directory.old.store ≡ map.now.directory }
    ensures bytes { IfOk result (λ bytes. OfClean
        (λ format m. bytes.items ≡ sharded_proof format m map.now.splits key.now)
        (sharding map.now.splits pins.old.items)) }
    ensures same { pins.new.items ≡ pins.old.items }
    ensures still { directory.new ≡ directory.old }
{
    let format = directory.format(map.directory());
    let place = place_of(map.splits(), key);
    let low = low_key(map.splits(), place);
    let over = directory.prove(map.directory(), alloc, &low)?;
    let under = prove_at(map.stores(), pins, place, alloc, key)?;
    join(alloc, format, &low, over.as_slice(), under.as_slice())
}

impl<A: Allocator + Copy> Snapshot<A> {
    /// The proof of the map's answer for the key, value or absence, against the root digest, as
    /// `verify_sharded` of `mst_sharded_proof` takes it.
    ///
    /// Returns `Memory` if a growth was refused.
    pub fn prove<B: Allocator + Copy>(&mut self, alloc: B, key: &Key) -> Result<Vec<u8, B>, Memory>
        ensures bytes { IfOk result (λ bytes. OfClean (λ format m. bytes.items
            ≡ sharded_proof format m self.old.sharding.splits key.now) self.old.sharding) }
        ensures same { self.new ≡ self.old }
    {
        prove_in(&self.map, &mut self.directory, &mut self.pins, alloc, key)
    }

    /// The pairs of the directory: of each shard the lower bound of its keys, and its root digest
    /// with the upper bound.
    ///
    /// Returns `Memory` if a growth was refused.
    pub fn directory<B: Allocator>(&mut self, alloc: B) -> Result<Vec<(Key, Value), B>, Memory>
        ensures pairs { IfOk result (λ pairs. OfClean (λ format m. pairs.items
            ≡ directory_of format m self.old.sharding.splits) self.old.sharding) }
        ensures few { IfOk result (λ pairs. length pairs.items ≤ 1024) }
        ensures same { self.new ≡ self.old }
    {
        let shards = self.pins.len();
        self.directory.pairs(self.map.directory(), alloc, shards)
    }
}
