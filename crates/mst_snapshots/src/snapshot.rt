//! A snapshot of a sharded map: each shard and the directory pinned, all of one block.
ghost use Rattle.std.specs.Prelude.{◌≡◌, ◌≤◌, length, IfOk};
ghost use Rattle.std.specs.Option.{option_copied};
ghost use Rattle.mst_key.specs.Map.{map_get, map_next, map_range};
ghost use Rattle.mst_sharded_proof.specs.Theorem.{HasShardedRoot};
ghost use Rattle.mst_shards.specs.BlockHistory.{IsNumber, IsOneBlock};
ghost use Rattle.mst_shards.specs.Directory.{AllIn, OfClean};
ghost use Rattle.mst_shards.specs.Sharding.{map_of};

use crate::counting::len_among;
use crate::directory_pin::DirectoryPin;
use crate::pinning::unpin_directory;
use crate::ranging::{get_at, next_among, range_among};
use crate::reader::{Checks, Reader};
use mst_key::{Format, Key, Memory, Value};
use mst_shards::{Sharded, place_of, unpin_laid};
use mst_store::{Laid, LaidPinned};
use std::alloc::Allocator;
use std::marker::Model;
use std::sync::Arc;

/// A snapshot of a sharded map, with a share of it: the whole map as of one block. It may be moved
/// to another thread. One that is dropped holds the rows of its versions for good:
/// [`Snapshot::release`] ends the pins.
#[derive(Drop)]
pub struct Snapshot<A: Allocator + Copy> {
    pub(crate) map: Arc<Sharded<A>, A>,
    pub(crate) pins: Vec<LaidPinned<A>, A>,
    pub(crate) directory: DirectoryPin<A>,
    // empty, with room for the passes
    pub(crate) room: Vec<Laid<A>, A>,
    pub(crate) checks: Checks<A>,
}

/// Contracts see the splits, what is known of the pinned version of each shard, and of that of the
/// directory: all of it is of one block.
impl<A: Allocator + Copy> Model for Snapshot<A> {
    ghost use Rattle.std.specs.Prelude.{◌≡◌, ◌≤◌, [], vec_len, vec_capacity};
    ghost use Rattle.std.specs.Arc.{arc_value};
    ghost use Rattle.mst_shards.specs.BlockHistory.{Whole, whole};
    ghost use Rattle.mst_snapshots.specs.Reading.{IsSnapshot};

    ghost Value = { Whole };

    ghost view = { λ s. whole (arc_value s.map).splits s.pins.items s.directory };

    ghost invariant = { λ s. IsSnapshot (arc_value s.map) s.checks.versions.items s.checks.number
        (whole (arc_value s.map).splits s.pins.items s.directory)
        × (s.room.items ≡ []) × (vec_len s.pins ≤ vec_capacity s.room)
        × (vec_len s.pins ≤ vec_capacity s.checks.versions)
        × (vec_len s.pins ≤ vec_capacity s.checks.found) };
}

impl<A: Allocator + Copy> Snapshot<A> {
    /// How many shards there are.
    pub fn shards(&self) -> usize
        ensures count { result ≡ length self.now.sharding.shards }
        ensures most { result ≤ 1024 }
    {
        self.pins.len()
    }

    /// The number of the block: how many blocks of the writer led to this map. 0 is the empty map.
    pub fn number(&self) -> u64
        ensures number { IsNumber result self.now }
        ensures one { IsOneBlock self.now }
    {
        self.checks.number - 1
    }

    /// The root digest of the whole map: that of the directory, which has of each shard the root
    /// digest and the bounds of its keys. It depends on nothing but the format, the splits and the
    /// pairs of the map. It takes no memory.
    pub fn root(&mut self) -> [u8; 32]
        ensures root { OfClean (λ format m. HasShardedRoot format m self.old.sharding.splits
            result) self.old.sharding }
        ensures same { self.new ≡ self.old }
    {
        self.directory.root(self.map.directory())
    }

    /// The format of all shards and of the directory. It takes no memory.
    pub fn format(&mut self) -> Format
        ensures format { AllIn result self.old.sharding }
        ensures same { self.new ≡ self.old }
    {
        self.directory.format(self.map.directory())
    }

    /// Returns how many pairs the map of all shards has. It takes no memory.
    pub fn len(&mut self) -> u64
        ensures found { result ≡ length (map_of self.old.sharding) }
        ensures same { self.new ≡ self.old }
    {
        len_among(self.map.stores(), &mut self.pins)
    }

    /// Returns the value of the key in the map of all shards, or `None` if the key has no value. It
    /// takes no memory.
    pub fn get(&mut self, key: &Key) -> Option<Value>
        ensures found { result ≡ map_get (map_of self.old.sharding) key.now }
        ensures same { self.new ≡ self.old }
    {
        let place = place_of(self.map.splits(), key);
        get_at(self.map.stores(), &mut self.pins, place, key)
    }

    /// Returns the pair of the least key above `after` in the map of all shards, or the pair of the
    /// least key if `after` is `None`. Returns `None` if there is no such pair. It takes no memory.
    pub fn next(&mut self, after: Option<&Key>) -> Option<(Key, Value)>
        ensures found { result ≡ map_next (map_of self.old.sharding) (option_copied after.entry) }
        ensures same { self.new ≡ self.old }
    {
        next_among(self.map.stores(), &mut self.pins, self.map.splits(), after)
    }

    /// Returns the first pairs of the map of all shards, at most `limit`, whose keys are at least
    /// `from` and below `to`, in the order of their keys. A bound that is `None` does not bind.
    ///
    /// Returns `Memory` if the growth of a list was refused.
    pub fn range<B: Allocator + Copy>(
        &mut self,
        alloc: B,
        from: Option<&Key>,
        to: Option<&Key>,
        limit: usize,
    ) -> Result<Vec<(Key, Value), B>, Memory>
        ensures found { IfOk result
            (λ found. found.items ≡ map_range (map_of self.old.sharding)
            (option_copied from.entry) (option_copied to.entry) limit) }
        ensures same { self.new ≡ self.old }
    {
        range_among(
            self.map.stores(),
            &mut self.pins,
            self.map.splits(),
            alloc,
            from,
            to,
            limit,
        )
    }

    /// Ends all pins, and returns the reader. Its passes have then seen what the snapshot pinned.
    /// It takes no memory.
    pub fn release(self) -> Reader<A>
        ensures same { result ≡ self }
    {
        let Snapshot {
            map,
            pins,
            directory,
            room,
            checks,
        } = self;
        let (passes, room) = unpin_laid(map.stores(), pins, room);
        let directory = unpin_directory(map.directory(), directory.into_laid());
        Reader {
            map,
            passes,
            directory,
            room,
            checks,
        }
    }
}
