//! The plan of edits that put values at keys that the map has.
ghost use Rattle.std.specs.Prelude.{◌≡◌, ◌<◌, ℕ, length, List, ◌∷◌, [], true, IfOk};
ghost use Rattle.mst_key.specs.Edits.{AreRising};
ghost use Rattle.mst_key.specs.History.{batched, key_of};
ghost use Rattle.mst_key.specs.Map.{Pair};
ghost use Rattle.mst_key.specs.declared.format.Format.{Format};
ghost use Rattle.mst_node.specs.Tree.{pairs, tree};
ghost use Rattle.mst_arena.specs.Standing.{Placed, Stands, tree_of};
ghost use Rattle.mst_read.specs.Search.{MapStands};
ghost use Rattle.mst_edits.specs.Listed.{listed, put_of};
ghost use Rattle.mst_batch.specs.Beside.{plan_beside};
ghost use Rattle.mst_batch.specs.Known.{IsEntryOf, AreKnown, known_of, known_of_entry};
ghost use Rattle.mst_batch.specs.Opening.{AreOf};
ghost use Rattle.mst_batch.specs.Plans.{plan_of, planned_entry};
ghost use Rattle.mst_batch.specs.Updating.{IsUpdate, AreUpdates, Updates};

use crate::building::{entry_of, node_of};
use crate::opening::range_of;
use crate::plan::{Origin, Plan, PlanEntry, PlanNode};
use crate::sharing::shared;
use mst_arena::{Root, Rows};
use mst_key::{Edit, Format, Key, Memory, Value};
use mst_read::get;
use std::alloc::Allocator;

/// Up to how many edits are looked up one by one. In a small map more of them touch most nodes, and
/// to look each up costs more than it saves.
const MOST_UPDATES: usize = 256;

/// Whether an edit puts a value at a key that the map has.
fn is_update<R: Rows>(rows: &mut R, root: &Root, edit: &Edit) -> bool
    requires stands { MapStands (R.content rows.old) root.now }
    ensures update { result ≡ true → (f : Format) (m : List Pair)
        → Stands f (R.content rows.old) root.now m → IsUpdate m edit.now }
    ensures same { rows.new ≡ rows.old }
{
    match edit {
        Edit::Put(key, _) => get(rows, root, key).is_some(),
        Edit::Remove(_) => false,
    }
}

/// Whether the edits are few, and each puts a value at a key that the map has. Edits of which that
/// is not told are planned in another way, which takes more time.
pub(crate) fn are_updates<R: Rows>(rows: &mut R, root: &Root, edits: &[&Edit]) -> bool
    requires stands { MapStands (R.content rows.old) root.now }
    ensures updates { result ≡ true → (f : Format) (m : List Pair)
        → Stands f (R.content rows.old) root.now m → AreUpdates m (listed edits.now) }
    ensures same { rows.new ≡ rows.old }
{
    if edits.len() > MOST_UPDATES {
        return false;
    }
    for edit in edits {
        if !is_update(rows, root, edit) {
            return false;
        }
    }
    true
}

/// The value that an edit puts, if it is a put, and otherwise the one that is there.
fn value_put(edit: &Edit, value: Value) -> Value
    ensures put { (m : List Pair) (key : List ℕ) → IsUpdate m edit.now → key_of edit.now ≡ key
        → put_of edit.now ≡ (key, result) ∷ [] }
{
    match edit {
        Edit::Put(_, new) => new.copy(),
        Edit::Remove(_) => value,
    }
}

/// The entry of a pair that stands in a row, after the plan of the gap before it, with the value
/// that the edit of its key puts, if there is one.
fn updated_entry<B: Allocator>(
    child: Plan<Box<PlanNode<B>, B>>,
    row: u32,
    key: Key,
    value: Value,
    own: &[&Edit],
) -> PlanEntry<B>
    requires rising { AreRising (listed own.now) }
    ensures child { (planned_entry result).child ≡ plan_of child }
    ensures key { (planned_entry result).key ≡ key }
    ensures pair { (m : List Pair) → AreUpdates m (listed own.now) → AreOf (listed own.now) key
        → batched ((key, value) ∷ []) (listed own.now)
        ≡ ((planned_entry result).key, (planned_entry result).value) ∷ [] }
    ensures known { (format : Format) (whole : Placed) → IsEntryOf format whole row (key, value)
        → AreKnown format whole (known_of child)
        → AreKnown format whole (known_of_entry result) }
{
    match own {
        [] => entry_of(child, key, value, Origin::Kept(row)),
        [edit, ..] => {
            let new = value_put(edit, value);
            entry_of(child, key, new, Origin::Changed(row))
        }
    }
}

/// The plan of the tree at a link after edits whose keys rise, each of which puts a value at a key
/// of this tree. The tree has the same keys afterwards, so that each of its nodes has the entries
/// and gaps that it had: the nodes that an edit falls into are planned entry by entry.
///
/// Calls nest no deeper than the layers. Returns `Memory` only if a growth was refused.
#[cycle(update)]
#[inline(always)]
pub(crate) fn updated<R: Rows, B: Allocator + Copy>(
    rows: &mut R,
    alloc: B,
    format: Format,
    root: &Root,
    link: u32,
    edits: &[&Edit],
) -> Result<Plan<Box<PlanNode<B>, B>>, Memory>
    requires updates { (m : List Pair)
        × Updates format (R.content rows.old) root.now m link (listed edits.now) }
    requires rising { AreRising (listed edits.now) }
    ensures plan { IfOk result (λ plan. (m : List Pair)
        (u : Updates format (R.content rows.old) root.now m link (listed edits.now))
        → plan_of plan ≡ plan_beside format u.stands.tree.placed
        (tree format (batched (pairs (tree_of format u.part.placed)) (listed edits.now)))) }
    ensures known { IfOk result (λ plan. (m : List Pair)
        (u : Updates format (R.content rows.old) root.now m link (listed edits.now))
        → AreKnown format u.stands.tree.placed (known_of plan)) }
    ensures same { rows.new ≡ rows.old }
{
    if edits.is_empty() {
        return Ok(Plan::Kept(link));
    }
    update_node(rows, alloc, format, root, link, edits)
}

/// The same plan where there is an edit, so that a node stands at the link. It is a function of its
/// own, since most trees below a node have no edit, and it has many locals.
#[cycle(update)]
#[inline(never)]
fn update_node<R: Rows, B: Allocator + Copy>(
    rows: &mut R,
    alloc: B,
    format: Format,
    root: &Root,
    link: u32,
    edits: &[&Edit],
) -> Result<Plan<Box<PlanNode<B>, B>>, Memory>
    requires updates { (m : List Pair)
        × Updates format (R.content rows.old) root.now m link (listed edits.now) }
    requires rising { AreRising (listed edits.now) }
    requires some { 0 < length edits.now }
    ensures plan { IfOk result (λ plan. (m : List Pair)
        (u : Updates format (R.content rows.old) root.now m link (listed edits.now))
        → plan_of plan ≡ plan_beside format u.stands.tree.placed
        (tree format (batched (pairs (tree_of format u.part.placed)) (listed edits.now)))) }
    ensures known { IfOk result (λ plan. (m : List Pair)
        (u : Updates format (R.content rows.old) root.now m link (listed edits.now))
        → AreKnown format u.stands.tree.placed (known_of plan)) }
    ensures same { rows.new ≡ rows.old }
{
    let head = rows.head(link - 1);
    let mut entries = Vec::with_capacity(alloc, head.count as usize)?;
    let mut next = head.first;
    let mut left = edits;
    for _ in 0..head.count {
        let row = next - 1;
        let links = rows.links(row);
        let (key, value) = rows.pair(row);
        let (start, end) = range_of(left, &key);
        let child = updated(rows, alloc, format, root, links.child, &left[..start])?;
        entries.push(updated_entry(child, row, key, value, &left[start..end]))?;
        left = &left[end..];
        next = links.next;
    }
    let tail = updated(rows, alloc, format, root, head.tail, left)?;
    shared(rows, alloc, root, node_of(head.layer, entries, tail))
}
