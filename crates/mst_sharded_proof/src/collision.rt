//! The collision behind a false answer.
ghost use Rattle.std.specs.Prelude.{◌≡◌, ◌⊎◌, List, [], ℕ, None, Contains, IsOk, IfOk, IfSome, IfNone, OnErr};
ghost use Rattle.std.specs.Option.{option_copied};
ghost use Rattle.mst_key.specs.Map.{Pair as KeyValue};
ghost use Rattle.mst_proof.specs.Beside.{top_of, CollidesAmong};
ghost use Rattle.mst_node.specs.Collision.{Collision};
ghost use Rattle.mst_proof.specs.Frame.{frame_at};
ghost use Rattle.mst_proof.specs.Theorem.{texts_of};
ghost use Rattle.mst_sharded_proof.specs.Frame.{parts_at};
ghost use Rattle.mst_sharded_proof.specs.Theorem.{IsSharded, directory_tree, shard_tree, ShowsNoOtherSharded, sharded_texts};

use crate::frame::Parts;
use mst_key::{Format, Key, Memory};
use mst_node::Node;
use mst_proof::{Pair, collide_in};
use std::alloc::Allocator;

/// The collision behind a false answer: two different texts with one SHA-256. The trees are those
/// of the directory of a map with some splits, and of the shard of the key.
///
/// If `verify_sharded` returns another answer than the map's for the key and the directory's
/// digest, there is such a pair, and it is found: first with the directory's tree, then with
/// the shard's. `None` is returned only if the proof shows no other answer. Returns `Memory` only
/// if a growth was refused, and never if the frame of the proof or those of both parts are broken.
pub fn collide_sharded<A: Allocator + Copy>(
    alloc: A,
    format: Format,
    key: &Key,
    proof: &[u8],
    directory: Option<&Node<A>>,
    shard: Option<&Node<A>>,
) -> Result<Option<Pair<A>>, Memory>
    requires map { (m : List KeyValue) × (splits : List (List ℕ)) × IsSharded m splits
        × (top_of format (option_copied directory) ≡ directory_tree format m splits)
        × (top_of format (option_copied shard) ≡ shard_tree format m splits key.now) }
    ensures none { IfOk result (λ pair. IfNone pair (ShowsNoOtherSharded format
        (top_of format (option_copied directory.entry)) (top_of format (option_copied shard.entry))
        key.now proof.now)) }
    ensures some { IfOk result (λ pair. IfSome pair (λ p. CollidesAmong (sharded_texts format
        proof.now (top_of format (option_copied directory.entry))
        (top_of format (option_copied shard.entry))) p.one.items p.other.items)) }
    ensures memory { OnErr result (IsOk (parts_at format proof.now)) }
    // Memory is refused to the search with the directory, and then the frame of its proof is
    // whole; or to that with the shard, and then the frame of its proof is, and only the pair
    // itself takes memory if the shard has no tree.
    ensures memory_of_pair { OnErr result (IfOk (parts_at format proof.now) (λ p.
        IsOk (frame_at format p.directory) ⊎ (IsOk (frame_at format p.shard)
        × (shard.entry ≡ None → (text : List ℕ) × Contains (texts_of format p.shard) text
        × Collision text [])))) }
{
    let Ok(parts) = Parts::of(format, proof) else {
        return Ok(None);
    };
    if let Some(pair) = collide_in(alloc, format, &parts.low, parts.directory, directory)? {
        return Ok(Some(pair));
    }
    collide_in(alloc, format, key, parts.shard, shard)
}
