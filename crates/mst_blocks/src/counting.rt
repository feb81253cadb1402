//! How many rows are free in each shard and in the directory.
ghost use Rattle.std.specs.Prelude.{◌≡◌, ◌<◌, length};
ghost use Rattle.mst_shards.specs.BlockHistory.{Blocks};
ghost use Rattle.mst_blocks.specs.Blocks.{LeavesAll};
ghost use Rattle.mst_blocks.specs.Counting.{Counts, CountsAt};
ghost use Rattle.mst_blocks.specs.Writing.{block_map, HasMade};

use crate::writer::Writer;
use core::mem::replace_with;
use mst_shards::{lay_at, lift_at};
use mst_store::{Busy, Laid, Pass, Store};
use std::alloc::Allocator;

// How many rows are free in the store of a pass.
fn count_free<'a, A: Allocator + Copy>(pass: Pass<'a, A>) -> (Pass<'a, A>, Result<u32, Busy>)
    ensures counts { Counts result.1 pass.entry result.0 }
{
    let mut pass = pass;
    match pass.free_rows() {
        Ok(free) => (pass, Ok(free)),
        Err(busy) => (pass, Err(busy)),
    }
}

// The same of a pass that is laid down.
fn count_laid<A: Allocator + Copy>(laid: Laid<A>, store: &Store<A>) -> (Laid<A>, Result<u32, Busy>)
    requires own { laid.store ≡ store.now }
    ensures counts { Counts result.1 laid result.0 }
{
    let (pass, free) = count_free(store.lift(laid));
    (pass.lay(), free)
}

impl<A: Allocator + Copy> Writer<A> {
    /// Returns how many rows of a shard are free to the next block: what
    /// [`Pass::free_rows`](mst_store::Pass::free_rows) of its store returns. It takes no memory.
    ///
    /// Returns `Busy` only if another pass of that store has the turn.
    pub fn free_rows(&mut self, shard: usize) -> Result<u32, Busy>
        requires there { shard < length self.old.sharding.shards }
        ensures counts { CountsAt shard result self.old.sharding self.new.sharding }
        ensures directory { self.new.directory ≡ self.old.directory }
        ensures map { block_map self.new ≡ block_map self.old }
        ensures left { LeavesAll self.old.sharding.shards self.new.sharding.shards
            self.old.directory self.new.directory }
        // the blocks that it has made are those that it had made
        ensures same { (blocks : Blocks) → HasMade blocks self.old → HasMade blocks self.new }
    {
        let pass = lift_at(self.map.stores(), &mut self.passes, shard);
        let (pass, free) = count_free(pass);
        lay_at(&mut self.passes, shard, pass);
        free
    }

    /// Returns how many rows of the directory are free to the next block, which lists there the
    /// root digests of its shards. Otherwise it is as [`Writer::free_rows`].
    pub fn directory_free_rows(&mut self) -> Result<u32, Busy>
        ensures counts { Counts result self.old.directory self.new.directory }
        ensures shards { self.new.sharding ≡ self.old.sharding }
        ensures map { block_map self.new ≡ block_map self.old }
        ensures left { LeavesAll self.old.sharding.shards self.new.sharding.shards
            self.old.directory self.new.directory }
        ensures same { (blocks : Blocks) → HasMade blocks self.old → HasMade blocks self.new }
    {
        replace_with(&mut self.directory, self.map.directory(), count_laid)
    }
}
