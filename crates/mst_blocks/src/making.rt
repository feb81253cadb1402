//! A block, from its edits to what is published.
ghost use Rattle.std.specs.Prelude.{◌≡◌, ◌≤◌, ◌+◌, [], length, vec_len, vec_capacity, IfOk, IfErr, OnOk};
ghost use Rattle.mst_key.specs.History.{after};
ghost use Rattle.mst_node.specs.Text.{root as root_of};
ghost use Rattle.mst_store.specs.Passes.{format_seen};
ghost use Rattle.mst_sharded_proof.specs.Shards.{least, AreSplits};
ghost use Rattle.mst_shards.specs.BlockHistory.{whole};
ghost use Rattle.mst_blocks.specs.Blocks.{parts_of};
ghost use Rattle.mst_blocks.specs.Writing.{IsWriter, AddsBlock, RefusesBlock, KeepStores};

use crate::blocks::{Part, Stage, commit};
use crate::faults::BlockFault;
use crate::parting::deal_edits;
use mst_edits::are_within_limits;
use mst_key::{Edit, Key, Memory};
use mst_shards::list_with_room;
use mst_store::Pass;
use std::alloc::Allocator;

// The edits of each shard, and a list with room for all shards.
fn lists_for<'a, A: Allocator + Copy, B: Allocator + Copy>(
    alloc: B,
    splits: &[Key],
    edits: &[Edit],
) -> Result<(Vec<Part<B>, B>, Vec<Stage<'a, A, B>, B>), Memory>
    requires rising { AreSplits least splits.now }
    requires few { length splits.now ≤ 1023 }
    ensures parts { IfOk result (λ lists. lists.0.items ≡ parts_of splits.now edits.now) }
    ensures count { IfOk result (λ lists. vec_len lists.0 ≡ length splits.now + 1) }
    ensures empty { IfOk result (λ lists. lists.1.items ≡ []) }
    ensures room { IfOk result (λ lists. length splits.now + 1 ≤ vec_capacity lists.1) }
{
    let parts = deal_edits(alloc, splits, edits)?;
    let room = list_with_room(alloc, splits.len() + 1)?;
    Ok((parts, room))
}

/// Makes the edits of all shards as one block, or nothing. Returns the root digest of the block.
pub(crate) fn make_block<'a, A: Allocator + Copy, B: Allocator + Copy>(
    alloc: B,
    splits: &[Key],
    passes: Vec<Pass<'a, A>, B>,
    directory: Pass<'a, A>,
    edits: &[Edit],
) -> (
    Vec<Pass<'a, A>, B>,
    Pass<'a, A>,
    Result<[u8; 32], BlockFault>,
)
    requires writer { IsWriter (whole splits.now passes.items directory) }
    ensures ok { OnOk result.2 (AddsBlock edits.now
        (whole splits.now passes.entry.items directory.entry)
        (whole splits.now result.0.items result.1)) }
    ensures err { IfErr result.2 (λ fault. RefusesBlock fault edits.now
        (whole splits.now passes.entry.items directory.entry)
        (whole splits.now result.0.items result.1)) }
    ensures root { IfOk result.2
        (λ digest. digest ≡ root_of (format_seen result.1) (after result.1.seen)) }
    ensures writer { IsWriter (whole splits.now result.0.items result.1) }
    ensures own { KeepStores passes.entry.items result.0.items directory.entry result.1 }
{
    are_within_limits(edits);
    match lists_for(alloc, splits, edits) {
        Ok((parts, room)) => commit(alloc, splits, passes, parts, directory, room),
        Err(refused) => (passes, directory, Err(BlockFault::Memory(refused))),
    }
}
