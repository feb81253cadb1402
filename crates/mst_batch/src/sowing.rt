//! A plan, carried out in free rows.
ghost use Rattle.std.specs.Prelude.{◌≡◌, ◌≤◌, ◌<◌, ◌+◌, ◌^◌, ◌-◌, ℕ, List, [], ◌∷◌, ◌++◌, Some, min};
ghost use Rattle.mst_key.specs.Map.{Pair};
ghost use Rattle.mst_key.specs.declared.format.Format.{Format};
ghost use Rattle.mst_arena.specs.Content.{Content};
ghost use Rattle.mst_arena.specs.Limits.{highest_link};
ghost use Rattle.mst_arena.specs.Lives.{free_count};
ghost use Rattle.mst_arena.specs.Standing.{Placed, rows_of, used, HasRows};
ghost use Rattle.mst_path.specs.Takes.{Takes, IsOut, KeepsBut, FewRows, RowsAreWritable, StaysBeside};
ghost use Rattle.mst_path.specs.Writing.{PlacedEntry, entries_used, IsRootOf, ahead, IsNextBlank, IsWriter, IsWritten};
ghost use Rattle.mst_batch.specs.Known.{HasKnown, IsThere, known_of, known_of_node};
ghost use Rattle.mst_batch.specs.Plans.{plan_of, plan_of_node, rows_planned, rows_kept, tree_planned, IsPlan};
ghost use Rattle.mst_batch.specs.Sowing.{Sown};

use crate::plan::{Origin, Plan, PlanEntry, PlanNode};
use mst_arena::{Desk, Root, Rows};
use mst_key::{Format, Key, Value};
use mst_path::{NodeWriter, root_at};
use std::alloc::Allocator;

/// How many rows a plan takes: one for each entry and each node to be made; the greatest `u32` if
/// it takes more.
#[cycle(count)]
#[inline(always)]
pub fn rows_of<B: Allocator>(plan: &Plan<Box<PlanNode<B>, B>>) -> u32
    ensures rows { result ≡ min (rows_planned (plan_of plan.now)) (2 ^ 32 - 1) }
{
    match plan {
        Plan::Kept(_) => 0,
        Plan::Made(node) => rows_of_node(node),
    }
}

/// How many rows a node to be made takes, with all below it.
#[cycle(count)]
#[inline(never)]
fn rows_of_node<B: Allocator>(node: &PlanNode<B>) -> u32
    ensures rows { result ≡ min (rows_planned (plan_of_node node.now)) (2 ^ 32 - 1) }
{
    let mut rows: u32 = 1;
    for entry in &node.entries {
        rows = rows.saturating_add(rows_of(&entry.child)).saturating_add(1);
    }
    rows.saturating_add(rows_of(&node.tail))
}

/// Carries a plan out: its nodes are written into free rows, and the trees that it keeps stay where
/// they stand. Returns the root at which the rows then stand for the whole tree.
///
/// It takes exactly the rows that `rows_of` counts, and writes no other. The rows are born with the
/// version to come. The rows that the plan names have its pairs, and are copied. Of a tree that is
/// kept it reads the digest, one row. No memory is taken, and calls nest no deeper than the layers
/// of the nodes to be made.
#[cycle(sow)]
#[inline(always)]
pub(crate) fn sow_plan<R: Rows, A: Allocator, B: Allocator>(
    rows: &mut R,
    desk: &mut Desk<A>,
    plan: &Plan<Box<PlanNode<B>, B>>,
    format: Format,
) -> Root
    requires plan { (at : ℕ → Placed)
        × IsPlan format at (R.content rows.old) desk.old (plan_of plan.now) }
    requires room { rows_planned (plan_of plan.now) ≤ free_count desk.old.lives }
    requires ready { RowsAreWritable desk.old.lives (R.blank rows.old) }
    requires known { HasKnown (R.content rows.old) desk.old (known_of plan.now) }
    ensures sown { (at : ℕ → Placed)
        → IsPlan format at (R.content rows.old) desk.old (plan_of plan.now)
        → Sown format (R.content rows.old) (R.content rows.new) desk.old desk.new
        (tree_planned format at (plan_of plan.now)) result (rows_kept at (plan_of plan.now))
        (rows_planned (plan_of plan.now)) }
    ensures beside { StaysBeside R.blank R.kept rows.old rows.new }
{
    match plan {
        Plan::Kept(link) => root_at(rows, *link),
        Plan::Made(node) => sow_node(rows, desk, node, format),
    }
}

/// Whether an entry is as it was before, with the tree before it. It has no clause, as
/// [`begins_as_before`] has none.
fn is_as_before<B: Allocator>(entry: &PlanEntry<B>) -> bool {
    matches!(entry.origin, Origin::Kept(_)) && matches!(entry.child, Plan::Kept(_))
}

/// Whether a node begins with entries as they were before, so that what is kept of its text may be
/// of use. It has no clause: a wrong answer costs time alone.
fn begins_as_before<B: Allocator>(entries: &[PlanEntry<B>]) -> bool {
    match entries.first() {
        Some(entry) => is_as_before(entry),
        None => false,
    }
}

/// Writes the next entry of a node, after the tree at `child`: as a copy, if it stands already.
fn write_entry<R: Rows, A: Allocator>(
    rows: &mut R,
    desk: &mut Desk<A>,
    writer: &mut NodeWriter<A>,
    origin: Origin,
    child: &Root,
    key: &Key,
    value: &Value,
)
    requires writer { IsWriter writer.old }
    requires some { 0 < writer.old.left }
    requires room { 1 < writer.old.left → 0 < free_count desk.old.lives }
    requires few { FewRows desk.old.lives }
    requires blank { IsNextBlank writer.old.next (R.blank rows.old) }
    requires child { child.now.link ≤ highest_link }
    requires there { IsThere (R.content rows.old) (key.now, value.now) origin }
    ensures writer { IsWriter writer.new }
    ensures written { (format : Format) (es : List PlacedEntry) (p : Placed) (r : ℕ)
        → writer.old.next ≡ Some r
        → IsWritten format writer.old (R.content rows.old) es → IsRootOf format p child.now
        → HasRows (R.content rows.old) (rows_of format p) → IsOut r (entries_used es ++ used p)
        → IsWritten format writer.new (R.content rows.new)
        (es ++ record { at = r; child = p; key = key.now; value = value.now } ∷ []) }
    ensures node { (writer.new.layer ≡ writer.old.layer) × (writer.new.count ≡ writer.old.count)
        × (writer.new.left + 1 ≡ writer.old.left) × (writer.new.head ≡ writer.old.head) }
    ensures takes { Takes desk.old desk.new (ahead writer.new.next) }
    ensures keeps { KeepsBut (ahead writer.old.next) (R.content rows.old) (R.content rows.new) }
    ensures beside { StaysBeside R.blank R.kept rows.old rows.new }
{
    match origin {
        Origin::Kept(row) => writer.copy(rows, desk, child, row),
        Origin::Changed(row) => writer.entry(rows, desk, Some(row), child, key, value),
        Origin::Unknown => writer.entry(rows, desk, None, child, key, value),
    }
}

/// Writes a node with all that is to be made below it. Returns where it stands.
#[cycle(sow)]
#[inline(never)]
fn sow_node<R: Rows, A: Allocator, B: Allocator>(
    rows: &mut R,
    desk: &mut Desk<A>,
    node: &PlanNode<B>,
    format: Format,
) -> Root
    requires plan { (at : ℕ → Placed)
        × IsPlan format at (R.content rows.old) desk.old (plan_of_node node.now) }
    requires room { rows_planned (plan_of_node node.now) ≤ free_count desk.old.lives }
    requires ready { RowsAreWritable desk.old.lives (R.blank rows.old) }
    requires known { HasKnown (R.content rows.old) desk.old (known_of_node node.now) }
    ensures sown { (at : ℕ → Placed)
        → IsPlan format at (R.content rows.old) desk.old (plan_of_node node.now)
        → Sown format (R.content rows.old) (R.content rows.new) desk.old desk.new
        (tree_planned format at (plan_of_node node.now)) result
        (rows_kept at (plan_of_node node.now)) (rows_planned (plan_of_node node.now)) }
    ensures beside { StaysBeside R.blank R.kept rows.old rows.new }
{
    let is_copy = begins_as_before(node.entries.as_slice());
    let mut writer = NodeWriter::begin(
        desk,
        None,
        node.layer,
        node.entries.len() as u32,
        format,
        is_copy,
    );
    for entry in &node.entries {
        let child = sow_plan(rows, desk, &entry.child, format);
        write_entry(
            rows,
            desk,
            &mut writer,
            entry.origin,
            &child,
            &entry.key,
            &entry.value,
        );
    }
    let tail = sow_plan(rows, desk, &node.tail, format);
    writer.finish(rows, desk, &tail)
}
