//! A plan, carried out in place of the tree that stands.
ghost use Rattle.std.specs.Prelude.{◌≡◌, ◌≤◌, ℕ};
ghost use Rattle.mst_arena.specs.Lists.{times};
ghost use Rattle.mst_arena.specs.Lives.{free_count};
ghost use Rattle.mst_arena.specs.Standing.{Placed, used};
ghost use Rattle.mst_path.specs.Felling.{ToFell};
ghost use Rattle.mst_path.specs.Making.{Grown};
ghost use Rattle.mst_path.specs.Takes.{RowsAreWritable, StaysBeside};
ghost use Rattle.mst_batch.specs.Known.{HasKnown, known_of};
ghost use Rattle.mst_batch.specs.Plans.{plan_of, rows_planned, tree_planned, IsPlan};
ghost use Rattle.mst_batch.specs.Replacing.{Keeps};

use crate::felling::fell_at;
use crate::plan::{Plan, PlanNode};
use crate::sowing::sow_plan;
use mst_arena::{Desk, Root, Rows};
use mst_key::Format;
use std::alloc::Allocator;

/// Carries a plan out in place of the tree that stands at a root: the nodes of the plan are written
/// into free rows, and of the tree that stood all rows die but those of the nodes that the plan
/// keeps. Returns the new root.
///
/// `kept` has a mark at the row of the head of each node that the plan keeps, and no other mark at
/// a row of the tree that stands. The rows that the plan names have its pairs, and are copied. The
/// plan takes the rows that `rows_of` counts, which are free. No memory is taken.
pub(crate) fn replace<R: Rows, A: Allocator, B: Allocator>(
    rows: &mut R,
    desk: &mut Desk<A>,
    root: &Root,
    plan: &Plan<Box<PlanNode<B>, B>>,
    kept: &[bool],
    format: Format,
) -> Root
    requires change { (at : ℕ → Placed)
        × (old : ToFell (R.content rows.old) desk.old root.now.link)
        × IsPlan format at (R.content rows.old) desk.old (plan_of plan.now)
        × Keeps at kept.now old.placed (plan_of plan.now) }
    requires room { rows_planned (plan_of plan.now) ≤ free_count desk.old.lives }
    requires ready { RowsAreWritable desk.old.lives (R.blank rows.old) }
    requires known { HasKnown (R.content rows.old) desk.old (known_of plan.now) }
    ensures grown { (at : ℕ → Placed) (old : ToFell (R.content rows.old) desk.old root.now.link)
        → IsPlan format at (R.content rows.old) desk.old (plan_of plan.now)
        → Keeps at kept.now old.placed (plan_of plan.now)
        → Grown format (R.content rows.old) (R.content rows.new) desk.old desk.new
        (tree_planned format at (plan_of plan.now)) result (λ x. times x (used old.placed))
        (rows_planned (plan_of plan.now)) }
    ensures beside { StaysBeside R.blank R.kept rows.old rows.new }
{
    let new = sow_plan(rows, desk, plan, format);
    fell_at(rows, desk, root.link, kept);
    new
}
