//! A reader of a sharded map.
ghost use Rattle.std.specs.Prelude.{◌≡◌, ◌≤◌, ◌+◌, length, IfOk};
ghost use Rattle.std.specs.Arc.{arc_value};
ghost use Rattle.mst_key.specs.Map.{map_get};
ghost use Rattle.mst_store.specs.Passes.{Answers};
ghost use Rattle.mst_shards.specs.BlockHistory.{whole};
ghost use Rattle.mst_shards.specs.Opening.{IsLot};
ghost use Rattle.mst_shards.specs.Sharding.{Routes};

use mst_key::{Key, Memory, Value};
use mst_shards::{Lot, Sharded, lay_at, lift_at, list_with_room, place_of};
use mst_store::{Laid, LaidPinned};
use std::alloc::Allocator;
use std::marker::Model;
use std::sync::Arc;

/// The numbers of versions by which a reader knows a block again.
#[derive(Drop)]
pub(crate) struct Checks<A: Allocator> {
    // those of the shards in the last snapshot; none before the first
    pub(crate) versions: Vec<u64, A>,
    // that of the directory; 0 before the first
    pub(crate) number: u64,
    // those of the shards in a try, with room for them
    pub(crate) found: Vec<u64, A>,
}

impl<A: Allocator> Checks<A> {
    /// Notes the versions of a try, which was of one block.
    pub(crate) fn noted(self, number: u64) -> Checks<A>
        ensures versions { result.versions ≡ self.found }
        ensures number { result.number ≡ number }
        ensures found { result.found ≡ self.versions }
    {
        Checks {
            versions: self.found,
            number,
            found: self.versions,
        }
    }
}

/// A reader of a sharded map, with a share of it: a pass of each shard and one of the directory,
/// laid down between calls. It may be moved to another thread, and each of its calls runs in one
/// thread.
///
/// It takes snapshots, each of exactly one block: by [`Reader::snapshot`], or by
/// [`Reader::try_snapshot`], which does not wait. Its own [`Reader::get`] reads one shard alone.
#[derive(Drop)]
pub struct Reader<A: Allocator + Copy> {
    pub(crate) map: Arc<Sharded<A>, A>,
    pub(crate) passes: Vec<Laid<A>, A>,
    pub(crate) directory: Laid<A>,
    // empty, with room for the pins of a snapshot
    pub(crate) room: Vec<LaidPinned<A>, A>,
    pub(crate) checks: Checks<A>,
}

/// Contracts see the splits, what is known of the pass of each shard, and of that of the directory.
impl<A: Allocator + Copy> Model for Reader<A> {
    ghost use Rattle.std.specs.Prelude.{◌≡◌, ◌≤◌, [], vec_len, vec_capacity};
    ghost use Rattle.std.specs.Arc.{arc_value};
    ghost use Rattle.mst_shards.specs.BlockHistory.{Whole, whole};
    ghost use Rattle.mst_snapshots.specs.Reading.{IsReader};

    ghost Value = { Whole };

    ghost view = { λ r. whole (arc_value r.map).splits r.passes.items r.directory };

    ghost invariant = { λ r. IsReader (arc_value r.map) r.checks.versions.items r.checks.number
        (whole (arc_value r.map).splits r.passes.items r.directory)
        × (r.room.items ≡ []) × (vec_len r.passes ≤ vec_capacity r.room)
        × (vec_len r.passes ≤ vec_capacity r.checks.versions)
        × (vec_len r.passes ≤ vec_capacity r.checks.found) };
}

impl<A: Allocator + Copy> Reader<A> {
    /// Makes a reader of a map of what was dealt to it.
    ///
    /// Returns `Memory` if a growth was refused, or if there are more shares of the map than can be
    /// counted. What was dealt is gone then.
    pub fn new(map: &Arc<Sharded<A>, A>, alloc: A, lot: Lot<A>) -> Result<Reader<A>, Memory>
        requires own { IsLot (arc_value map.now) lot }
        ensures reader { IfOk result
            (λ r. r ≡ whole (arc_value map.now).splits lot.passes lot.directory) }
    {
        let shards = map.shards();
        let room = list_with_room(alloc, shards)?;
        let versions = list_with_room(alloc, shards)?;
        let found = list_with_room(alloc, shards)?;
        let share = Arc::try_clone(map)?;
        let Lot { passes, directory } = lot;
        Ok(Reader {
            map: share,
            passes,
            directory,
            room,
            checks: Checks {
                versions,
                number: 0,
                found,
            },
        })
    }

    /// How many shards there are.
    pub fn shards(&self) -> usize
        ensures count { result ≡ length self.now.sharding.shards }
        ensures most { result ≤ 1024 }
    {
        self.passes.len()
    }

    /// Returns the current value of the key, or `None` if the key has no value: that of the current
    /// version of the key's shard. It takes no memory. Two such calls need not be of one block, as
    /// those of a snapshot are.
    pub fn get(&mut self, key: &Key) -> Option<Value>
        ensures answers { Routes key.now (λ p q. Answers (λ _ m. map_get m key.now) p result q)
            self.old.sharding self.new.sharding }
        ensures once { Routes key.now (λ p q. q.asked ≡ p.asked + 1) self.old.sharding
            self.new.sharding }
        ensures directory { self.new.directory ≡ self.old.directory }
    {
        let place = place_of(self.map.splits(), key);
        let mut pass = lift_at(self.map.stores(), &mut self.passes, place);
        let found = pass.get(key);
        lay_at(&mut self.passes, place, pass);
        found
    }
}
