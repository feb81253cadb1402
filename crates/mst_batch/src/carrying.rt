//! A change of the map that stands, by its plan.
ghost use Rattle.std.specs.Prelude.{◌≡◌, ◌<◌, List, IfOk, IfErr};
ghost use Rattle.mst_key.specs.Map.{Pair};
ghost use Rattle.mst_node.specs.Cost.{cost};
ghost use Rattle.mst_arena.specs.Lives.{free_count};
ghost use Rattle.mst_arena.specs.Standing.{Stands};
ghost use Rattle.mst_path.specs.Takes.{FreeIsBlank, StaysBeside};
ghost use Rattle.mst_path.specs.Changing.{MapStands};
ghost use Rattle.mst_path.specs.AfterChange.{AfterChange};
ghost use Rattle.mst_batch.specs.Known.{HasKnown, known_of};
ghost use Rattle.mst_batch.specs.Plans.{plan_of};
ghost use Rattle.mst_batch.specs.Carrying.{IsPlanOf};

use crate::plan::{Plan, PlanNode};
use crate::replacing::replace;
use crate::sowing::rows_of;
use mst_arena::{Desk, Root, Rows};
use mst_key::Format;
use mst_path::NoRoom;
use std::alloc::Allocator;

/// Changes the map that stands at a root as a tree of a format, by the plan of the change. Returns
/// the root at which the new map stands, in this format.
///
/// The rows that stand at the root were born with the current version or an earlier one and are not
/// dead, and the desk's free rows may be written. The rows that the plan names have its pairs, and
/// are copied. `kept` has a mark at the row of the head of each node that the plan keeps, and no
/// other mark at a row of the tree. The nodes that the new tree has and the old one has not are
/// written into rows that are born with the version to come; the rows that only the old tree uses
/// die with that version. Everything else is shared.
///
/// It takes exactly one row for each entry and one for each node that is made anew. Returns
/// `NoRoom` exactly if fewer rows are free; then rows and desk are as before.
///
/// No memory is taken, and calls nest no deeper than the layers, at most 65 in format 1 and 129 in
/// format 2. Each new node is hashed once.
pub(crate) fn carry_out<R: Rows, A: Allocator, B: Allocator>(
    rows: &mut R,
    desk: &mut Desk<A>,
    root: &Root,
    plan: &Plan<Box<PlanNode<B>, B>>,
    kept: &[bool],
    format: Format,
) -> Result<Root, NoRoom>
    requires stands { MapStands format (R.content rows.old) desk.old root.now }
    requires plan { (change : List Pair → List Pair) × IsPlanOf format (R.content rows.old)
        desk.old root.now kept.now (plan_of plan.now) change }
    requires free { FreeIsBlank desk.old.lives (R.blank rows.old) }
    requires known { HasKnown (R.content rows.old) desk.old (known_of plan.now) }
    ensures changed { IfOk result (λ done. (change : List Pair → List Pair)
        → IsPlanOf format (R.content rows.old) desk.old root.now kept.now (plan_of plan.now) change
        → AfterChange format (R.content rows.old) (R.content rows.new) desk.old desk.new root.now
        done change) }
    ensures beside { StaysBeside R.blank R.kept rows.old rows.new }
    ensures no_room { IfErr result (λ _. (change : List Pair → List Pair)
        → IsPlanOf format (R.content rows.old) desk.old root.now kept.now (plan_of plan.now) change
        → (m : List Pair) → Stands format (R.content rows.old) root.now m
        → free_count desk.old.lives < cost format m (change m)) }
    ensures untouched { IfErr result (λ _. (desk.new ≡ desk.old) × (rows.new ≡ rows.old)) }
{
    let free = desk.free();
    if rows_of(plan) > free {
        return Err(NoRoom);
    }
    Ok(replace(rows, desk, root, plan, kept, format))
}
