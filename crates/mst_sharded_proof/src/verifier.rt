//! The verifier.
ghost use Rattle.std.specs.Prelude.{◌≡◌, ◌≢◌, ◌↔◌, List, ℕ, Option, IfOk, IfErr};
ghost use Rattle.std.specs.declared.result.Result.TheVariants.{Ok, Err};
ghost use Rattle.mst_key.specs.Map.{Pair, map_get};
ghost use Rattle.mst_node.specs.Collision.{HasCollision};
ghost use Rattle.mst_sharded_proof.specs.Accepted.{ShardedAccepted};
ghost use Rattle.mst_sharded_proof.specs.Frame.{sharded_proof};
ghost use Rattle.mst_sharded_proof.specs.Theorem.{HasShardedRoot, directory_tree, shard_tree, sharded_texts};
ghost use Rattle.mst_sharded_proof.specs.Verdict.{is_below as below, placed, listed as listed_by, answered as answered_by, sharded_verdict};

use crate::fault::ShardedFault;
use crate::frame::Parts;
use mst_key::{Format, Key, Value};
use mst_proof::{ProofFault, verify_in};
use std::cmp::Ordering;

/// Whether the key lies below an upper bound. No bytes do not bind.
fn is_below(high: &[u8], key: &Key) -> bool
    ensures below { result ≡ below high.now key.now }
{
    match high {
        [] => true,
        [_, ..] => key.bytes().cmp(high) == Ordering::Less,
    }
}

/// What the directory holds of the shard, by the verdict on the directory's proof.
fn listed(verdict: Result<Option<Value>, ProofFault>) -> Result<Value, ShardedFault>
    ensures listed { result ≡ listed_by verdict }
{
    match verdict {
        Ok(Some(held)) => Ok(held),
        Ok(None) => Err(ShardedFault::NotListed),
        Err(fault) => Err(ShardedFault::Directory(fault)),
    }
}

/// The shard's root digest, if the key lies within the bounds.
fn place<'a>(key: &Key, low: &Key, held: &'a Value) -> Result<&'a [u8; 32], ShardedFault>
    ensures ok { IfOk result (λ digest. placed key.now low.now held.now ≡ Ok digest.now) }
    ensures fault { IfErr result (λ fault. placed key.now low.now held.now ≡ Err fault) }
{
    let Some((digest, high)) = held.bytes().split_first_chunk::<32>() else {
        return Err(ShardedFault::NoListing);
    };
    if key < low {
        Err(ShardedFault::KeyBelow)
    } else if is_below(high, key) {
        Ok(digest)
    } else {
        Err(ShardedFault::KeyNotBelow)
    }
}

/// The answer, by the verdict on the shard's proof.
fn answered(verdict: Result<Option<Value>, ProofFault>) -> Result<Option<Value>, ShardedFault>
    ensures answered { result ≡ answered_by verdict }
{
    match verdict {
        Ok(answer) => Ok(answer),
        Err(fault) => Err(ShardedFault::Shard(fault)),
    }
}

/// The verdict on a proof.
fn judge(
    format: Format,
    root: &[u8; 32],
    key: &Key,
    proof: &[u8],
) -> Result<Option<Value>, ShardedFault>
    ensures verdict { result ≡ sharded_verdict format root.now key.now proof.now }
{
    let parts = Parts::of(format, proof)?;
    let held = listed(verify_in(format, root, &parts.low, parts.directory))?;
    let digest = place(key, &parts.low, &held)?;
    answered(verify_in(format, digest, key, parts.shard))
}

/// What the proof shows of the key in the sharded map with this root digest: its value, or `None`
/// for its absence. If the proof fails a test, returns the first test that it fails.
///
/// A proof is the format's byte, 03 in format 1 and 04 in format 2; the length of a shard's lower
/// bound in one byte, and the bound; the length of the directory's proof in four bytes, the high
/// one first, and that proof; and the shard's proof to the end. The call takes no memory.
pub fn verify_sharded(
    format: Format,
    root: &[u8; 32],
    key: &Key,
    proof: &[u8],
) -> Result<Option<Value>, ShardedFault>
    ensures verdict { result ≡ sharded_verdict format root.now key.now proof.now }
    // An answer is returned exactly if the proof is accepted with it.
    ensures accepted { (answer : Option (List ℕ)) → (result ≡ Ok answer)
        ↔ ShardedAccepted format root.now key.now proof.now answer }
    // The proof that a map gives shows the map's answer, whatever its splits.
    ensures complete { (m : List Pair) (splits : List (List ℕ))
        → HasShardedRoot format m splits root.now
        → proof.now ≡ sharded_proof format m splits key.now → result ≡ Ok (map_get m key.now) }
    // If a proof shows another answer for the root of a map with some splits, two different texts
    // have one SHA-256: two of those of the proof's parts, those of the nodes of the directory's
    // tree and of the key's shard's, and the empty text.
    ensures sound { (m : List Pair) (splits : List (List ℕ)) (answer : Option (List ℕ))
        → HasShardedRoot format m splits root.now → result ≡ Ok answer → answer ≢ map_get m key.now
        → HasCollision (sharded_texts format proof.now (directory_tree format m splits)
        (shard_tree format m splits key.now)) }
{
    key.key_limits();
    judge(format, root, key, proof)
}
