//! Edits, and which shard each is of.
ghost use Rattle.std.specs.Prelude.{◌≡◌, map, IfOk};
ghost use Rattle.mst_key.specs.History.{key_of};
ghost use Rattle.mst_sharded_proof.specs.Shards.{least, AreSplits};
ghost use Rattle.mst_shards.specs.Sharding.{place as place_in};

use crate::place::place_of;
use mst_key::{Edit, Key, Memory};
use std::alloc::Allocator;

/// A copy of an edit. It takes no memory.
pub fn copied(edit: &Edit) -> Edit
    ensures same { result ≡ edit.now }
{
    match edit {
        Edit::Put(key, value) => Edit::Put(key.copy(), value.copy()),
        Edit::Remove(key) => Edit::Remove(key.copy()),
    }
}

/// The place of each edit's shard.
pub fn places_of<C: Allocator>(
    alloc: C,
    splits: &[Key],
    edits: &[Edit],
) -> Result<Vec<usize, C>, Memory>
    requires rising { AreSplits least splits.now }
    ensures places { IfOk result
        (λ places. places.items ≡ map (λ e. place_in splits.now (key_of e)) edits.now) }
{
    let mut places = Vec::with_capacity(alloc, edits.len())?;
    for edit in edits {
        places.push_reserved(place_of(splits, edit.key()));
    }
    Ok(places)
}
