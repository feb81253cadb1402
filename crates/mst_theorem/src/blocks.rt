//! The theorem of a sharded map that is written in blocks.
ghost use Rattle.std.specs.Prelude.{◌≡◌, ◌⊎◌, ℕ, ◌≤◌, length, take};
ghost use Rattle.mst_key.specs.History.{History, IsPrefix, after};
ghost use Rattle.mst_node.specs.Text.{root as root_of};
ghost use Rattle.mst_sharded_proof.specs.Theorem.{HasShardedRoot, HasBytes, CollideForKey};
ghost use Rattle.mst_shards.specs.BlockHistory.{Blocks, map_made, Whole, IsNumber};
ghost use Rattle.mst_shards.specs.Sharding.{map_of};
ghost use Rattle.mst_snapshots.specs.Numbers.{HaveOneDirectory};
ghost use Rattle.mst_theorem.specs.InBlocks.{HasWritten, IsSnapshotOf};

/// Whatever the threads do with a sharded map that is written in blocks, its blocks have one order,
/// which is that of the versions of its directory. Each snapshot is of one block, and has what the
/// blocks up to it leave.
///
/// The history of the directory's store is the one of `headline`: it begins with what each pass has
/// seen, and only grows. Where a map is found by its root digest, two different texts among those
/// that are named may have one SHA-256 digest instead.
pub fn sharded_headline()
    // the root digest of a snapshot is that of the map that the blocks up to its number leave
    ensures root { (blocks : Blocks) (w v : Whole) (log : History) (n : ℕ)
        → HasWritten blocks w log → (s : IsSnapshotOf n v w log) → n ≤ length blocks
        → HasShardedRoot s.one.format (map_made (take n blocks)) w.sharding.splits
        (root_of s.one.format (after v.directory.seen)) }
    // and its map is that one
    ensures map { (blocks : Blocks) (w v : Whole) (log : History) (n : ℕ)
        → HasWritten blocks w log → (s : IsSnapshotOf n v w log) → n ≤ length blocks
        → HasBytes s.one.format (map_of v.sharding) v.sharding.splits
        → (map_of v.sharding ≡ map_made (take n blocks))
        ⊎ CollideForKey s.one.format (map_of v.sharding) v.sharding.splits
        (map_made (take n blocks)) v.sharding.splits }
    // of two snapshots, by whatever readers, the one with the lower number is of the earlier block
    ensures order { (w v u : Whole) (log : History) (n m : ℕ) → IsSnapshotOf n v w log
        → IsSnapshotOf m u w log → n ≤ m → IsPrefix v.directory.seen u.directory.seen }
    // and with one number they have one directory, and so one root digest
    ensures same { (w v u : Whole) (log : History) (n : ℕ) → IsSnapshotOf n v w log
        → IsSnapshotOf n u w log → HaveOneDirectory v u }
{}
