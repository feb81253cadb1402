//! The edits of a block, dealt to the shards.
ghost use Rattle.std.specs.Prelude.{◌≡◌, ◌==◌, ◌≤◌, ◌<◌, ◌+◌, ◌++◌, suc, if◌then◌else◌, [], ◌∷◌, map, length, vec_len, vec_capacity, IfOk, OnOk};
ghost use Rattle.mst_sharded_proof.specs.Shards.{least, AreSplits};
ghost use Rattle.mst_shards.specs.Sharding.{place as place_in};
ghost use Rattle.mst_shards.specs.Parts.{picked};
ghost use Rattle.mst_blocks.specs.Blocks.{parts_of};

use crate::blocks::Part;
use mst_key::{Edit, Key, Memory};
use mst_shards::{copied, list_with_room, places_of};
use std::alloc::Allocator;

// Adds a copy of an edit to those of a shard, if the edit's place is that of the shard.
fn take_one<C: Allocator>(
    part: &mut Vec<Edit, C>,
    edit: &Edit,
    place: usize,
    shard: usize,
) -> Result<(), Memory>
    ensures taken { OnOk result (part.new.items
        ≡ part.old.items ++ (if place == shard then edit.now ∷ [] else [])) }
{
    if place == shard {
        part.push(copied(edit))?;
    }
    Ok(())
}

// Copies of the edits whose place is that of a shard, in their order. It takes no memory if there
// are none.
fn edits_of<C: Allocator>(
    alloc: C,
    places: &[usize],
    edits: &[Edit],
    shard: usize,
) -> Result<Vec<Edit, C>, Memory>
    requires count { length places.now ≡ length edits.now }
    ensures picked { IfOk result (λ part. part.items ≡ picked places.now edits.now shard) }
{
    let mut part = Vec::new(alloc);
    for (i, edit) in edits.iter().enumerate() {
        take_one(&mut part, edit, places[i], shard)?;
    }
    Ok(part)
}

/// The edits of each shard, in their order.
pub fn deal_edits<C: Allocator + Copy>(
    alloc: C,
    splits: &[Key],
    edits: &[Edit],
) -> Result<Vec<Part<C>, C>, Memory>
    requires rising { AreSplits least splits.now }
    requires few { length splits.now ≤ 1023 }
    ensures parts { IfOk result (λ parts. parts.items ≡ parts_of splits.now edits.now) }
    ensures count { IfOk result (λ parts. vec_len parts ≡ length splits.now + 1) }
{
    let places = places_of(alloc, splits, edits)?;
    let shards = splits.len() + 1;
    let mut parts = list_with_room(alloc, shards)?;
    for shard in 0..shards {
        let part = edits_of(alloc, places.as_slice(), edits, shard)?;
        parts.push_reserved(Part { edits: part });
    }
    Ok(parts)
}
