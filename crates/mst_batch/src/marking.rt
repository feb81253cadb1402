//! Marks at the rows of the nodes that a plan keeps.
ghost use Rattle.std.specs.Prelude.{◌≡◌, ◌<◌, ◌-◌, ◌∷◌, ◌++◌, [], false, length, replicate, IfOk, OnOk};
ghost use Rattle.mst_arena.specs.Lists.{In};
ghost use Rattle.mst_batch.specs.Beside.{links_kept, AreMarks};
ghost use Rattle.mst_batch.specs.Kept.{AddsMarks};
ghost use Rattle.mst_batch.specs.Plans.{plan_of, plan_of_node};

use crate::plan::{Plan, PlanNode};
use mst_key::Memory;
use std::alloc::Allocator;
use std::iter::repeat_n;

/// A mark at the row of the head of each tree that the plan keeps, and no other. The list reaches
/// to the last mark. Returns `Memory` only if a growth was refused.
pub(crate) fn marks_of<A: Allocator, B: Allocator>(
    alloc: A,
    plan: &Plan<Box<PlanNode<B>, B>>,
) -> Result<Vec<bool, A>, Memory>
    ensures marks { IfOk result (λ marks. AreMarks marks.items (plan_of plan.now)) }
{
    let mut marks = Vec::with_capacity(alloc, last_link(plan) as usize)?;
    mark(&mut marks, plan)?;
    Ok(marks)
}

/// The greatest link that a plan keeps, 0 if it keeps none: with so much room the marks never move.
#[cycle(last)]
#[inline(always)]
fn last_link<B: Allocator>(plan: &Plan<Box<PlanNode<B>, B>>) -> u32
    ensures kept { 0 < result → In result (links_kept (plan_of plan.now)) }
{
    match plan {
        Plan::Kept(link) => *link,
        Plan::Made(node) => last_link_below(node),
    }
}

/// The greatest link that is kept in the gaps of a node to be made.
#[cycle(last)]
#[inline(never)]
fn last_link_below<B: Allocator>(node: &PlanNode<B>) -> u32
    ensures kept { 0 < result → In result (links_kept (plan_of_node node.now)) }
{
    let mut last = last_link(&node.tail);
    for entry in &node.entries {
        last = last.max(last_link(&entry.child));
    }
    last
}

/// Lengthens a list of marks, without a mark more, until it has so many rows.
fn lengthen<A: Allocator>(marks: &mut Vec<bool, A>, rows: usize) -> Result<(), Memory>
    ensures items { OnOk result (marks.new.items
        ≡ marks.old.items ++ replicate (rows - length marks.old.items) false) }
{
    let missing = rows.saturating_sub(marks.len());
    Ok(marks.extend(repeat_n(false, missing))?)
}

/// Adds a mark at the row of a link, unless it is 0.
fn mark_link<A: Allocator>(marks: &mut Vec<bool, A>, link: u32) -> Result<(), Memory>
    ensures marks { OnOk result (AddsMarks marks.old.items marks.new.items (link ∷ [])) }
{
    let reached = link as usize;
    if reached == 0 {
        return Ok(());
    }
    lengthen(marks, reached)?;
    marks[reached - 1] = true;
    Ok(())
}

/// Adds the marks of a plan.
#[cycle(mark)]
#[inline(always)]
fn mark<A: Allocator, B: Allocator>(
    marks: &mut Vec<bool, A>,
    plan: &Plan<Box<PlanNode<B>, B>>,
) -> Result<(), Memory>
    ensures marks { OnOk result (AddsMarks marks.old.items marks.new.items
        (links_kept (plan_of plan.now))) }
{
    match plan {
        Plan::Kept(link) => mark_link(marks, *link),
        Plan::Made(node) => mark_node(marks, node),
    }
}

/// Adds the marks of the plans in the gaps of a node to be made.
#[cycle(mark)]
#[inline(never)]
fn mark_node<A: Allocator, B: Allocator>(
    marks: &mut Vec<bool, A>,
    node: &PlanNode<B>,
) -> Result<(), Memory>
    ensures marks { OnOk result (AddsMarks marks.old.items marks.new.items
        (links_kept (plan_of_node node.now))) }
{
    for entry in &node.entries {
        mark(marks, &entry.child)?;
    }
    mark(marks, &node.tail)
}
