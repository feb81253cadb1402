//! The plan of a batch of edits.
ghost use Rattle.std.specs.Prelude.{◌≡◌, List, IfOk};
ghost use Rattle.mst_key.specs.Edits.{AreRising};
ghost use Rattle.mst_key.specs.History.{batched};
ghost use Rattle.mst_key.specs.Map.{Pair};
ghost use Rattle.mst_node.specs.Tree.{tree};
ghost use Rattle.mst_arena.specs.Standing.{Stands};
ghost use Rattle.mst_batch.specs.Beside.{plan_beside};
ghost use Rattle.mst_batch.specs.Known.{AreKnown, known_of};
ghost use Rattle.mst_batch.specs.Plans.{plan_of};
ghost use Rattle.mst_edits.specs.Listed.{listed};

use crate::building::build;
use crate::opening::open;
use crate::plan::{Plan, PlanNode};
use crate::updating::{are_updates, updated};
use mst_arena::{Root, Rows};
use mst_edits::normal_edits;
use mst_key::{Edit, Format, Memory};
use std::alloc::Allocator;

/// The plan of the map that stands at a root as a tree of a format after edits whose keys rise,
/// next to that tree: built of the items that it has then.
fn plan_of_items<R: Rows, B: Allocator + Copy>(
    rows: &mut R,
    alloc: B,
    root: &Root,
    edits: &[&Edit],
    format: Format,
) -> Result<Plan<Box<PlanNode<B>, B>>, Memory>
    requires stands { (m : List Pair) × Stands format (R.content rows.old) root.now m }
    requires rising { AreRising (listed edits.now) }
    ensures plan { IfOk result (λ plan. (m : List Pair)
        (stands : Stands format (R.content rows.old) root.now m)
        → plan_of plan ≡ plan_beside format stands.tree.placed
        (tree format (batched m (listed edits.now)))) }
    ensures known { IfOk result (λ plan. (m : List Pair)
        (stands : Stands format (R.content rows.old) root.now m)
        → AreKnown format stands.tree.placed (known_of plan)) }
    ensures same { rows.new ≡ rows.old }
{
    let mut items = Vec::new(alloc);
    open(rows, format, root.link, edits, &mut items)?;
    build(rows, alloc, root, items.as_slice())
}

/// The plan of the map that stands at a root as a tree of a format after a batch of edits, next to
/// that tree.
pub(crate) fn find_plan<R: Rows, B: Allocator + Copy>(
    rows: &mut R,
    alloc: B,
    root: &Root,
    edits: &[Edit],
    format: Format,
) -> Result<Plan<Box<PlanNode<B>, B>>, Memory>
    requires stands { (m : List Pair) × Stands format (R.content rows.old) root.now m }
    ensures plan { IfOk result (λ plan. (m : List Pair)
        (stands : Stands format (R.content rows.old) root.now m)
        → plan_of plan ≡ plan_beside format stands.tree.placed
        (tree format (batched m edits.now))) }
    ensures known { IfOk result (λ plan. (m : List Pair)
        (stands : Stands format (R.content rows.old) root.now m)
        → AreKnown format stands.tree.placed (known_of plan)) }
    ensures same { rows.new ≡ rows.old }
{
    let normal = normal_edits(alloc, edits)?;
    let normal = normal.as_slice();
    if are_updates(rows, root, normal) {
        updated(rows, alloc, format, root, root.link, normal)
    } else {
        plan_of_items(rows, alloc, root, normal, format)
    }
}
