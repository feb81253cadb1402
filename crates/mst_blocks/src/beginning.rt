//! The first version of the directory: it lists the empty map.
ghost use Rattle.std.specs.Prelude.{◌≡◌, ◌≤◌, ◌<◌, ◌+◌, ◌++◌, [], ◌∷◌, length, slice_get, vec_len, vec_capacity, IfOk};
ghost use Rattle.mst_key.specs.declared.history.Edit.TheVariants.{Put};
ghost use Rattle.mst_sharded_proof.specs.Shards.{bound_text, shards as shards_at};
ghost use Rattle.mst_shards.specs.Entries.{low_at};
ghost use Rattle.mst_blocks.specs.Writing.{empty_listings};

use mst_key::{Edit, Format, Key, Memory};
use mst_node::root_of_in;
use mst_shards::{high_key, list_with_room, listing, low_key};
use std::alloc::Allocator;

// Adds the edit by which a directory lists an empty shard.
fn list_empty<B: Allocator>(
    edits: &mut Vec<Edit, B>,
    splits: &[Key],
    digest: &[u8; 32],
    place: usize,
)
    requires there { place ≤ length splits.now }
    requires room { vec_len edits.old < vec_capacity edits.old }
    ensures listed { edits.new.items ≡ edits.old.items ++ Put (low_at splits.now place)
        (digest.now ++ bound_text (slice_get splits.now place)) ∷ [] }
    ensures len { vec_len edits.new ≡ vec_len edits.old + 1 }
    ensures room { vec_capacity edits.new ≡ vec_capacity edits.old }
{
    let low = low_key(splits, place);
    let held = listing(digest, high_key(splits, place));
    edits.push_reserved(Edit::Put(low, held));
}

// The edits by which a directory lists the empty map.
pub(crate) fn list_all_empty<B: Allocator + Copy>(
    alloc: B,
    splits: &[Key],
    format: Format,
) -> Result<Vec<Edit, B>, Memory>
    requires few { length splits.now ≤ 1023 }
    ensures listed { IfOk result
        (λ edits. edits.items ≡ empty_listings format (shards_at splits.now)) }
{
    let digest = root_of_in(format, &[]);
    let shards = splits.len() + 1;
    let mut edits = list_with_room(alloc, shards)?;
    for place in 0..shards {
        list_empty(&mut edits, splits, &digest, place);
    }
    Ok(edits)
}
