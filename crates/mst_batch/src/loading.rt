//! A batch in the empty map: its tree is built in memory and planted.
ghost use Rattle.std.specs.Prelude.{◌≡◌, ◌<◌, ◌≤◌, [], length, IfOk, IfErr};
ghost use Rattle.mst_key.specs.History.{batched};
ghost use Rattle.mst_node.specs.Text.{highest_count};
ghost use Rattle.mst_node.specs.Shape.{tree_of_child};
ghost use Rattle.mst_path.specs.Takes.{FreeIsBlank, StaysBeside};
ghost use Rattle.mst_path.specs.Planting.{IsTreeOf};
ghost use Rattle.mst_path.specs.Changing.{MapStands};
ghost use Rattle.mst_path.specs.AfterChange.{AfterChange};
ghost use Rattle.mst_batch.specs.Applying.{LacksBatch, LacksPairs};

use crate::faults::BatchRefusal;
use mst_arena::{Desk, Root, Rows};
use mst_edits::{are_within_limits, edited_pairs};
use mst_key::{Edit, Format};
use mst_node::{Node, build_in, release};
use mst_path::{NoRoom, plant};
use std::alloc::Allocator;

/// The tree of the map that edits make of the empty one. Returns `NoRoom` only if that has more
/// pairs than `most`, and `Memory` only if a growth was refused.
fn tree_after<B: Allocator + Copy>(
    alloc: B,
    edits: &[Edit],
    format: Format,
    most: u32,
) -> Result<Option<Box<Node<B>, B>>, BatchRefusal>
    requires few { most ≤ highest_count }
    ensures tree { IfOk result
        (λ tree. IsTreeOf format (tree_of_child format tree) (batched [] edits.now)) }
    ensures lacks { IfErr result (λ why. LacksPairs why most (batched [] edits.now)) }
{
    let pairs = match edited_pairs(alloc, &[], edits) {
        Ok(pairs) => pairs,
        Err(refused) => return Err(BatchRefusal::Memory(refused)),
    };
    if pairs.len() > most as usize {
        return Err(BatchRefusal::NoRoom);
    }
    match build_in(alloc, format, pairs.as_slice()) {
        Ok(tree) => Ok(tree),
        Err(refused) => Err(BatchRefusal::Memory(refused)),
    }
}

/// Makes a batch of more than one edit in the empty map that stands at a root, as `apply` does.
///
/// The pairs after the edits are listed, and their tree is built in memory and planted without a
/// plan: it takes a row for each pair and each node. A batch that leaves no pair leaves the root.
pub(crate) fn load<R: Rows, A: Allocator, B: Allocator + Copy>(
    rows: &mut R,
    desk: &mut Desk<A>,
    root: &Root,
    alloc: B,
    edits: &[Edit],
    format: Format,
) -> Result<Root, BatchRefusal>
    requires stands { MapStands format (R.content rows.old) desk.old root.now }
    requires empty { root.now.link ≡ 0 }
    requires some { 1 < length edits.now }
    requires free { FreeIsBlank desk.old.lives (R.blank rows.old) }
    ensures changed { IfOk result (λ done. AfterChange format (R.content rows.old)
        (R.content rows.new) desk.old desk.new root.now done (λ m. batched m edits.now)) }
    ensures beside { StaysBeside R.blank R.kept rows.old rows.new }
    ensures lacks { IfErr result (λ why. LacksBatch why format (R.content rows.old) desk.old
        root.now edits.now) }
    ensures untouched { IfErr result (λ _. (desk.new ≡ desk.old) × (rows.new ≡ rows.old)) }
{
    are_within_limits(edits);
    let free = desk.free();
    let tree = match tree_after(alloc, edits, format, free) {
        Ok(tree) => tree,
        Err(why) => return Err(why),
    };
    let Some(node) = tree else {
        return Ok(*root);
    };
    let planted = plant(rows, desk, Some(&*node), format);
    release(Some(node));
    match planted {
        Ok(done) => Ok(done),
        Err(NoRoom) => Err(BatchRefusal::NoRoom),
    }
}
