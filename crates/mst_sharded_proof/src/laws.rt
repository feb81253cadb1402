//! Laws of the definitions, each proved as the contract of a function that does nothing.
ghost use Rattle.std.specs.Prelude.{◌≡◌, ◌↔◌, ◌⊎◌, List, ℕ, true, Some};
ghost use Rattle.mst_key.specs.Bytes.{IsKey, IsBytes};
ghost use Rattle.mst_key.specs.Map.{Pair, IsMap, map_get};
ghost use Rattle.mst_key.specs.declared.format.Format.{Format};
ghost use Rattle.mst_node.specs.Trail.{proof_text};
ghost use Rattle.mst_proof.specs.Faults.{IsShort};
ghost use Rattle.mst_proof.specs.Theorem.{HasRoot};
ghost use Rattle.std.specs.declared.result.Result.TheVariants.{Err};
ghost use Rattle.mst_sharded_proof.specs.Faults.{ShardedFails};
ghost use Rattle.mst_sharded_proof.specs.Verdict.{sharded_verdict};
ghost use Rattle.mst_sharded_proof.specs.declared.fault.ShardedFault.{ShardedFault};
ghost use Rattle.mst_sharded_proof.specs.Shards.{least, AreSplits, shard_of, is_in, part_of, listing, directory, sharded_root};
ghost use Rattle.mst_sharded_proof.specs.Theorem.{IsSharded, HasShardedRoot, HasBytes, CollideForKey};

/// Each key lies in its shard, whose part of the map has the map's answer for it; and the directory
/// is a map that lists this shard by its lower bound.
pub fn shards_of_keys()
    ensures inside { (splits : List (List ℕ)) (k : List ℕ) → AreSplits least splits → IsKey k
        → is_in (shard_of splits k) k ≡ true }
    ensures part { (m : List Pair) (splits : List (List ℕ)) (k : List ℕ) → AreSplits least splits
        → IsKey k → map_get (part_of m (shard_of splits k)) k ≡ map_get m k }
    ensures map { (format : Format) (m : List Pair) (splits : List (List ℕ))
        → AreSplits least splits → IsMap (directory format m splits) }
    ensures listed { (format : Format) (m : List Pair) (splits : List (List ℕ)) (k : List ℕ)
        → AreSplits least splits → IsKey k
        → map_get (directory format m splits) (shard_of splits k).low
        ≡ Some (listing format m (shard_of splits k)) }
{}

/// Each map with splits has its root digest, and no other digest. So what `verify_sharded` says of
/// a map that has the root holds of each such map.
pub fn each_sharded_map_has_its_root()
    ensures has { (format : Format) (m : List Pair) (splits : List (List ℕ)) → IsSharded m splits
        → HasShardedRoot format m splits (sharded_root format m splits) }
    ensures only { (format : Format) (m : List Pair) (splits : List (List ℕ)) (d : List ℕ)
        → HasShardedRoot format m splits d → d ≡ sharded_root format m splits }
{}

/// The proof that a map gives has fewer than 2^32 bytes, as `join` asks of the directory's.
pub fn proofs_are_short()
    ensures short { (format : Format) (m : List Pair) (d k : List ℕ) → HasRoot format m d
        → IsBytes (proof_text format m k) → IsShort (proof_text format m k) }
{}

/// What a proof has passed when its verdict is a fault: the frame before anything is looked into,
/// the directory's proof before the bounds, and these before the shard's proof.
pub fn faults_in_order()
    ensures fails { (format : Format) (root k proof : List ℕ) (fault : ShardedFault)
        → IsBytes proof → (sharded_verdict format root k proof ≡ Err fault)
        ↔ ShardedFails format root k proof fault }
{}

/// Two sharded maps with one root digest in a format are one map with one list of splits, or there
/// is a collision among the texts that are named for some key. The proofs of the first one are
/// bytes.
pub fn one_root()
    ensures same { (format : Format) (m n : List Pair) (splits others : List (List ℕ))
        (root : List ℕ) → HasShardedRoot format m splits root
        → HasShardedRoot format n others root → HasBytes format m splits
        → ((m ≡ n) × (splits ≡ others)) ⊎ CollideForKey format m splits n others }
{}
