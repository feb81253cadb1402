//! Laws of blocks, each proved as the contract of a function that does nothing.
ghost use Rattle.std.specs.Prelude.{◌≡◌, ◌⊎◌, ◌+◌, ◌≤◌, ◌<◌, ℕ, List, [], ◌∷◌, ◌++◌, length, take};
ghost use Rattle.mst_key.specs.declared.history.Edit.{Edit};
ghost use Rattle.mst_key.specs.declared.history.Event.{Event};
ghost use Rattle.mst_key.specs.History.{History, IsPrefix, after, batched};
ghost use Rattle.mst_key.specs.declared.format.Format.{Format};
ghost use Rattle.mst_node.specs.Text.{root as root_of};
ghost use Rattle.mst_store.specs.Passes.{format_seen};
ghost use Rattle.mst_sharded_proof.specs.Shards.{directory};
ghost use Rattle.mst_sharded_proof.specs.Theorem.{IsSharded, HasShardedRoot, HasBytes, CollideForKey};
ghost use Rattle.mst_shards.specs.BlockHistory.{Blocks, map_made, Records, Whole, IsNumber, IsOneBlock};
ghost use Rattle.mst_shards.specs.Sharding.{map_of};
ghost use Rattle.mst_blocks.specs.Writing.{at_last, IsWriter, AddsBlock, RefusesBlock, HasMade};
ghost use Rattle.mst_blocks.specs.declared.faults.BlockFault.{BlockFault};

/// A snapshot whose directory lists each of its shards is of one block. The root digest of the
/// directory's version is that of its map. And its map is the one that the blocks leave which the
/// directory records, or there is a collision among the texts that are named for some key.
pub fn block_laws()
    ensures root { (w : Whole) (o : IsOneBlock w) → HasShardedRoot o.format (map_of w.sharding)
        w.sharding.splits (root_of o.format (after w.directory.seen)) }
    ensures map { (w : Whole) (o : IsOneBlock w) (blocks : Blocks)
        → Records o.format w.sharding.splits w.directory.seen blocks
        → HasBytes o.format (map_of w.sharding) w.sharding.splits
        → (map_of w.sharding ≡ map_made blocks)
        ⊎ CollideForKey o.format (map_of w.sharding) w.sharding.splits (map_made blocks)
        w.sharding.splits }
    // a block more is a version more
    ensures more { (format : Format) (splits : List (List ℕ)) (log : History) (blocks : Blocks)
        (e : Event) (edits : List Edit) → Records format splits log blocks
        → after (log ++ e ∷ []) ≡ directory format (batched (map_made blocks) edits) splits
        → IsSharded (batched (map_made blocks) edits) splits
        → Records format splits (log ++ e ∷ []) (blocks ++ edits ∷ []) }
    // whoever has seen the beginning of what is recorded has seen the beginning of the blocks
    ensures fewer { (format : Format) (splits : List (List ℕ)) (log rest : History)
        (blocks : Blocks) (n : ℕ) → Records format splits (log ++ rest) blocks
        → length log ≡ n + 1 → Records format splits log (take n blocks) }
{}

/// Blocks of a writer chain: if it has made some blocks, then after one more it has made these and
/// that one, and after one that was refused it has made these. It has made blocks if its map is the
/// one that they leave and the directory's history records them.
pub fn writer_laws()
    ensures more { (edits : List Edit) (blocks : Blocks) (w v : Whole) → IsWriter w → IsWriter v
        → AddsBlock edits w v → HasMade blocks w → HasMade (blocks ++ edits ∷ []) v }
    ensures same { (fault : BlockFault) (edits : List Edit) (blocks : Blocks) (w v : Whole)
        → IsWriter w → RefusesBlock fault edits w v → HasMade blocks w → HasMade blocks v }
{}

/// The order of blocks is that of snapshots: if a writer has made some blocks, and a reader of its
/// directory has one block with a number, then what it has is the map that the blocks up to that
/// number leave, or there is a collision among the texts that are named for some key.
pub fn snapshot_laws()
    ensures map { (blocks : Blocks) (w v : Whole) (o : IsOneBlock v) (n : ℕ) → HasMade blocks w
        → v.sharding.splits ≡ w.sharding.splits
        → IsPrefix v.directory.seen (at_last w.directory).seen → IsNumber n v
        → format_seen (at_last w.directory) ≡ o.format
        → HasBytes o.format (map_of v.sharding) v.sharding.splits
        → (map_of v.sharding ≡ map_made (take n blocks))
        ⊎ CollideForKey o.format (map_of v.sharding) v.sharding.splits (map_made (take n blocks))
        v.sharding.splits }
{}
