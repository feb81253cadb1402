//! The writer of a sharded map: it alone makes its blocks.
ghost use Rattle.std.specs.Prelude.{◌≡◌, ◌≢◌, ◌≤◌, ◌+◌, ◌++◌, [], ◌∷◌, length, IfOk, IfErr, IsErr, OnOk, OnErr};
ghost use Rattle.std.specs.Arc.{arc_value};
ghost use Rattle.mst_key.specs.History.{after};
ghost use Rattle.mst_node.specs.Text.{root as root_of};
ghost use Rattle.mst_key.specs.Map.{map_get};
ghost use Rattle.mst_store.specs.Passes.{Looks, format_seen};
ghost use Rattle.mst_sharded_proof.specs.Shards.{shards as shards_at};
ghost use Rattle.mst_sharded_proof.specs.Theorem.{HasShardedRoot};
ghost use Rattle.mst_shards.specs.BlockHistory.{Blocks, IsNumber};
ghost use Rattle.mst_shards.specs.Opening.{IsLot};
ghost use Rattle.mst_shards.specs.Sharding.{IsSplits, Routes};
ghost use Rattle.mst_blocks.specs.Blocks.{last_made, AddsBatch, LeavesAll};
ghost use Rattle.mst_blocks.specs.Writing.{last_block, block_map, IsWriter, IsWriterOf, AddsBlock, RefusesBlock, RefusesFirst, HasMade, empty_listings};

use crate::beginning::list_all_empty;
use crate::blocks::{last_version, prepare_next};
use crate::faults::{BlockFault, Overtaken};
use crate::held::last_root;
use crate::making::make_block;
use mst_key::{Edit, Key, Memory, Value};
use mst_shards::{
    Lot, Sharded, WriterLot, lay_all, lay_at, lift_all, lift_at, list_with_room, place_of,
};
use mst_store::{Laid, Pass};
use std::alloc::Allocator;
use std::marker::Model;
use std::sync::Arc;

/// The one writer of a sharded map, with a share of it: a pass of each shard and one of the
/// directory, laid down between calls. It may be moved to another thread, and each of its calls
/// runs in one thread.
///
/// What it makes are blocks: edits of all shards as one change, made whole or not at all. Block n
/// is version n + 1 of the directory, which lists the root digest of each shard after it. Each
/// block is made on the block before: should another have written to a shard, a block with edits
/// of that shard is refused.
#[derive(Drop)]
pub struct Writer<A: Allocator + Copy> {
    pub(crate) map: Arc<Sharded<A>, A>,
    pub(crate) passes: Vec<Laid<A>, A>,
    pub(crate) directory: Laid<A>,
    // the root digest of the last block
    pub(crate) root: [u8; 32],
}

/// Contracts see the splits, what is known of the pass of each shard, and of that of the directory.
impl<A: Allocator + Copy> Model for Writer<A> {
    ghost use Rattle.std.specs.Arc.{arc_value};
    ghost use Rattle.mst_shards.specs.BlockHistory.{Whole, whole};
    ghost use Rattle.mst_blocks.specs.Writing.{IsWriterOf, IsLastRoot};

    ghost Value = { Whole };

    ghost view = { λ w. whole (arc_value w.map).splits w.passes.items w.directory };

    ghost invariant = { λ w. IsWriterOf (arc_value w.map)
        (whole (arc_value w.map).splits w.passes.items w.directory)
        × IsLastRoot w.root w.directory };
}

// Lists the empty map in the directory: block 0. Returns the pass of the directory, and its root
// digest.
fn list_block_0<'a, A: Allocator + Copy>(
    alloc: A,
    map: &'a Sharded<A>,
    directory: Laid<A>,
) -> Result<(Pass<'a, A>, [u8; 32]), BlockFault>
    requires own { directory.store ≡ map.now.directory }
    ensures splits { OnOk result (IsSplits map.now.splits) }
    ensures count { OnOk result (length map.now.stores ≡ length map.now.splits + 1) }
    ensures made { IfOk result (λ listed. AddsBatch
        (empty_listings map.now.directory.format (shards_at map.now.splits)) directory listed.0) }
    ensures root { IfOk result
        (λ listed. listed.1 ≡ root_of (format_seen listed.0) (after listed.0.seen)) }
    ensures why { IfErr result (λ fault. RefusesFirst fault map.now.directory.format map.now.splits
        directory) }
{
    let edits = match list_all_empty(alloc, map.splits(), map.format()) {
        Ok(edits) => edits,
        Err(refused) => return Err(BlockFault::Memory(refused)),
    };
    match prepare_next(alloc, map.directory().lift(directory), edits) {
        Ok(listing) => {
            let digest = listing.root();
            Ok((listing.publish(), digest))
        }
        Err((fault, _)) => Err(BlockFault::Directory(fault)),
    }
}

// The value of a key in the version that a pass made last, if that is the current one.
fn get_last<'a, A: Allocator + Copy>(
    pass: Pass<'a, A>,
    key: &Key,
) -> (Pass<'a, A>, Result<Option<Value>, Overtaken>)
    ensures looks { Looks pass.entry result.0 }
    ensures once { result.0.asked ≡ pass.entry.asked + 1 }
    ensures found { IfOk result.1 (λ found. (length result.0.seen ≡ last_made pass.entry)
        × (found ≡ map_get (after result.0.seen) key.now)) }
    ensures other { IsErr result.1 → length result.0.seen ≢ last_made pass.entry }
{
    let last = last_version(&pass);
    let mut pinned = pass.pin();
    let found = if pinned.version() == last {
        Ok(pinned.get(key))
    } else {
        Err(Overtaken)
    };
    (pinned.unpin(), found)
}

impl<A: Allocator + Copy> Writer<A> {
    /// Makes the writer of a map of what was dealt to it. The directory's first version lists the
    /// empty map: this is block 0.
    ///
    /// Returns a fault if a growth was refused, or the directory its edits. What was dealt is gone
    /// then, and since the map is still empty, it is opened again.
    pub fn new(
        map: &Arc<Sharded<A>, A>,
        alloc: A,
        lot: WriterLot<A>,
    ) -> Result<Writer<A>, BlockFault>
        requires lot { IsLot (arc_value map.now) lot }
        ensures number { IfOk result (λ w. IsNumber 0 (last_block w)) }
        ensures none { IfOk result (λ w. HasMade [] w) }
        // it is the writer of this map
        ensures own { IfOk result (λ w. IsWriterOf (arc_value map.now) w) }
        ensures splits { IfOk result (λ w. w.sharding.splits ≡ (arc_value map.now).splits) }
        ensures why { IfErr result (λ fault. RefusesFirst fault (arc_value map.now).directory.format
            (arc_value map.now).splits lot.directory) }
    {
        let share = match Arc::try_clone(map) {
            Ok(share) => share,
            Err(refused) => return Err(BlockFault::Memory(Memory::from(refused))),
        };
        let Lot { passes, directory } = lot.into_lot();
        let (listed, root) = list_block_0(alloc, &share, directory)?;
        let directory = listed.lay();
        Ok(Writer {
            map: share,
            passes,
            directory,
            root,
        })
    }

    /// How many shards there are.
    pub fn shards(&self) -> usize
        ensures count { result ≡ length self.now.sharding.shards }
        ensures most { result ≤ 1024 }
    {
        self.passes.len()
    }

    /// The number of the last block: how many there were before it, and it. Its directory lists the
    /// root digest of each shard, all in one format, and each shard has keys of its interval alone.
    pub fn number(&self) -> u64
        ensures number { IsNumber result (last_block self.now) }
        ensures one { IsWriter self.now }
    {
        match self.directory.made() {
            Some(version) => version - 1,
            None => 0,
        }
    }

    /// The root digest of the last block: that of the whole map. It depends on nothing but the
    /// format, the splits and the pairs of the map.
    pub fn root(&self) -> [u8; 32]
        ensures root { HasShardedRoot (format_seen (last_block self.now).directory)
            (block_map self.now) self.now.sharding.splits result }
    {
        self.root
    }

    /// The value of a key in the last block, or `None` if the key has no value there. So a block
    /// can depend on what the map has. It takes no memory.
    ///
    /// Returns `Overtaken` if another has written to the key's shard: the version that was found
    /// is not the writer's last.
    pub fn get(&mut self, key: &Key) -> Result<Option<Value>, Overtaken>
        ensures found { IfOk result (λ found. found ≡ map_get (block_map self.old) key.now) }
        ensures overtaken { IsErr result → Routes key.now
            (λ p q. Looks p q × (length q.seen ≢ last_made p)) self.old.sharding
            self.new.sharding }
        ensures once { Routes key.now (λ p q. q.asked ≡ p.asked + 1) self.old.sharding
            self.new.sharding }
        ensures directory { self.new.directory ≡ self.old.directory }
        ensures map { block_map self.new ≡ block_map self.old }
        ensures left { LeavesAll self.old.sharding.shards self.new.sharding.shards
            self.old.directory self.new.directory }
        // the blocks that it has made are those that it had made
        ensures same { (blocks : Blocks) → HasMade blocks self.old → HasMade blocks self.new }
    {
        let place = place_of(self.map.splits(), key);
        let pass = lift_at(self.map.stores(), &mut self.passes, place);
        let (pass, found) = get_last(pass, key);
        lay_at(&mut self.passes, place, pass);
        found
    }

    /// Makes the edits of all shards, one after another, as the next block, and returns its
    /// number. Readers see none of them before all are made and hashed. A shard with no edits makes
    /// no step.
    ///
    /// Returns a fault if a growth of the lists was refused, or a shard or the directory was
    /// refused its edits, or had a version that is not the writer's last; it names the shard.
    /// Nothing has changed then: the map is that of the block before.
    pub fn apply(self, alloc: A, edits: &[Edit]) -> (Writer<A>, Result<u64, BlockFault>)
        ensures ok { OnOk result.1 (AddsBlock edits.now self result.0) }
        ensures number { IfOk result.1 (λ n. IsNumber n (last_block result.0)) }
        ensures err { IfErr result.1
            (λ fault. RefusesBlock fault edits.now self result.0) }
        // if the writer has made these blocks so far, it has now made these and this one, or these
        ensures more { OnOk result.1 ((blocks : Blocks) → HasMade blocks self
            → HasMade (blocks ++ edits.now ∷ []) result.0) }
        ensures same { OnErr result.1 ((blocks : Blocks) → HasMade blocks self
            → HasMade blocks result.0) }
    {
        let room = match list_with_room(alloc, self.passes.len()) {
            Ok(room) => room,
            Err(refused) => return (self, Err(BlockFault::Memory(refused))),
        };
        let Writer {
            map,
            passes,
            directory,
            root: last,
        } = self;
        let (lifted, space) = lift_all(map.stores(), passes, room);
        let listing = map.directory().lift(directory);
        let (done, listed, made) = make_block(alloc, map.splits(), lifted, listing, edits);
        let passes = lay_all(done, space);
        let directory = listed.lay();
        let root = last_root(&made, last);
        let writer = Writer {
            map,
            passes,
            directory,
            root,
        };
        match made {
            Ok(_root) => {
                let number = writer.number();
                (writer, Ok(number))
            }
            Err(fault) => (writer, Err(fault)),
        }
    }
}
