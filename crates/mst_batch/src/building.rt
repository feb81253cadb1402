//! The plan of the tree that items are built into.
ghost use Rattle.std.specs.Prelude.{◌≡◌, [], ◌∷◌, ◌++◌, List, Contains, count_by, map, true, false, Some, IfOk, IfSome, MatchOption};
ghost use Rattle.std.specs.List.{AllByRecursion};
ghost use Rattle.mst_key.specs.declared.format.Format.{Format};
ghost use Rattle.mst_key.specs.Map.{Pair};
ghost use Rattle.mst_node.specs.Tree.{tree};
ghost use Rattle.mst_arena.specs.Standing.{Placed, Stands};
ghost use Rattle.mst_batch.specs.Beside.{plan_beside};
ghost use Rattle.mst_batch.specs.Items.{AreItems, items_pairs, IsItem, IsPair, IsUpTo, IsPairOf};
ghost use Rattle.mst_batch.specs.Known.{AreKnown, all_known, known_of, known_of_entry, known_of_node, own_known};
ghost use Rattle.mst_batch.specs.Plans.{made, last, with_planned, plan_of, plan_of_node, planned_entry};
ghost use Rattle.mst_batch.specs.Tops.{IsStanding, lone, is_pair};
ghost use Rattle.mst_batch.specs.declared.items.Item.{Item};

use crate::items::Item;
use crate::plan::{Origin, Plan, PlanEntry, PlanNode};
use crate::sharing::shared;
use crate::top::{opened_at, top_of};
use mst_arena::{Root, Rows};
use mst_key::{Key, Memory, Value};
use std::alloc::Allocator;

/// The plan of the tree of items whose keys rise, next to the tree that stands at a root.
///
/// A tree that stands is looked into only where its layer is the greatest of the items around it:
/// its pairs are then entries of the same node as theirs. Calls nest no deeper than the layers.
/// Returns `Memory` only if a growth was refused.
#[cycle(build)]
pub(crate) fn build<R: Rows, B: Allocator + Copy>(
    rows: &mut R,
    alloc: B,
    root: &Root,
    items: &[Item<'_>],
) -> Result<Plan<Box<PlanNode<B>, B>>, Memory>
    requires items { (format : Format) × (m : List Pair)
        × (stands : Stands format (R.content rows.old) root.now m)
        × AreItems format stands.tree.placed items.now }
    ensures plan { IfOk result (λ plan. (format : Format) (m : List Pair)
        (stands : Stands format (R.content rows.old) root.now m)
        → AreItems format stands.tree.placed items.now
        → plan_of plan ≡ plan_beside format stands.tree.placed
        (tree format (items_pairs format stands.tree.placed items.now))) }
    ensures known { IfOk result (λ plan. (format : Format) (m : List Pair)
        (stands : Stands format (R.content rows.old) root.now m)
        → AreItems format stands.tree.placed items.now
        → AreKnown format stands.tree.placed (known_of plan)) }
    ensures same { rows.new ≡ rows.old }
{
    if let Some(link) = lone_tree(items) {
        return Ok(Plan::Kept(link));
    }
    let top = top_of(items);
    if top.has_tree {
        let opened = opened_at(rows, alloc, items, top.layer)?;
        let inner = opened.as_slice();
        let room = count_of(inner, top.layer);
        build_node(rows, alloc, root, inner, top.layer, room)
    } else {
        build_node(rows, alloc, root, items, top.layer, top.pairs)
    }
}

/// The link of an item that is a tree.
fn tree_of_item(item: &Item<'_>) -> Option<u32>
    ensures link { result ≡ lone (item.now ∷ []) }
{
    match item {
        Item::Put { .. } => None,
        Item::Kept { .. } => None,
        Item::Subtree { link, .. } => Some(*link),
    }
}

/// The link of the tree of items that stands already: one tree alone, or none.
#[inline(never)]
fn lone_tree(items: &[Item<'_>]) -> Option<u32>
    ensures link { result ≡ lone items.now }
{
    match items {
        [] => Some(0),
        [item] => tree_of_item(item),
        _ => None,
    }
}

/// The plan of items of which a pair is of the layer, no pair is above it, and each tree is below
/// it. The list of the node's entries begins with room for so many.
#[cycle(build)]
#[inline(always)]
fn build_node<R: Rows, B: Allocator + Copy>(
    rows: &mut R,
    alloc: B,
    root: &Root,
    items: &[Item<'_>],
    layer: u8,
    room: usize,
) -> Result<Plan<Box<PlanNode<B>, B>>, Memory>
    requires items { (format : Format) × (m : List Pair)
        × (stands : Stands format (R.content rows.old) root.now m)
        × AreItems format stands.tree.placed items.now }
    requires layers { AllByRecursion (IsUpTo layer) items.now }
    requires some { (x : Item) × Contains items.now x × IsPairOf layer x }
    ensures plan { IfOk result (λ plan. (format : Format) (m : List Pair)
        (stands : Stands format (R.content rows.old) root.now m)
        → AreItems format stands.tree.placed items.now
        → plan_of plan ≡ plan_beside format stands.tree.placed
        (tree format (items_pairs format stands.tree.placed items.now))) }
    ensures known { IfOk result (λ plan. (format : Format) (m : List Pair)
        (stands : Stands format (R.content rows.old) root.now m)
        → AreItems format stands.tree.placed items.now
        → AreKnown format stands.tree.placed (known_of plan)) }
    ensures same { rows.new ≡ rows.old }
{
    let mut entries = Vec::with_capacity(alloc, room)?;
    let mut start = 0;
    for (i, item) in items.iter().enumerate() {
        if let Some((key, value, origin)) = pair_of(rows, item, layer) {
            let child = build(rows, alloc, root, &items[start..i])?;
            entries.push(entry_of(child, key, value, origin))?;
            start = i + 1;
        }
    }
    let tail = build(rows, alloc, root, &items[start..])?;
    shared(rows, alloc, root, node_of(layer, entries, tail))
}

/// Whether an item is a pair of the layer.
fn is_pair_of(item: &Item<'_>, layer: u8) -> bool
    ensures pair { result ≡ is_pair layer item.now }
{
    match item {
        Item::Put { layer: own, .. } => *own == layer,
        Item::Kept { layer: own, .. } => *own == layer,
        Item::Subtree { .. } => false,
    }
}

/// How many of the items are pairs of the layer: their node has this many entries.
#[inline(never)]
fn count_of(items: &[Item<'_>], layer: u8) -> usize
    ensures count { result ≡ count_by (is_pair layer) items.now }
{
    items.iter().filter(|item| is_pair_of(item, layer)).count()
}

/// The pair of an item that is one of the layer, with what is known of its entry.
#[inline(never)]
fn pair_of<R: Rows>(rows: &mut R, item: &Item<'_>, layer: u8) -> Option<(Key, Value, Origin)>
    requires item { (format : Format) × (whole : Placed)
        × IsStanding format (R.content rows.old) whole × IsItem format whole item.now }
    ensures pair { MatchOption result (is_pair layer item.now ≡ false)
        (λ found. is_pair layer item.now ≡ true) }
    ensures found { IfSome result (λ found. (format : Format) (whole : Placed)
        → IsStanding format (R.content rows.old) whole → IsItem format whole item.now
        → IsPair format whole layer item.now (found.0, found.1) found.2) }
    ensures same { rows.new ≡ rows.old }
{
    match item {
        Item::Put {
            key,
            value,
            layer: own,
            origin,
        } if *own == layer => Some((key.copy(), value.copy(), *origin)),
        Item::Kept { row, layer: own } if *own == layer => {
            let (key, value) = rows.pair(*row);
            Some((key, value, Origin::Kept(*row)))
        }
        _ => None,
    }
}

/// The entry of a pair, after the plan of the gap before it.
pub(crate) fn entry_of<B: Allocator>(
    child: Plan<Box<PlanNode<B>, B>>,
    key: Key,
    value: Value,
    origin: Origin,
) -> PlanEntry<B>
    ensures entry { planned_entry result
        ≡ record { child = plan_of child; key = key; value = value } }
    ensures known { known_of_entry result ≡ known_of child ++ own_known origin (key, value) }
{
    PlanEntry {
        child,
        key,
        value,
        origin,
    }
}

/// The node of these parts.
pub(crate) fn node_of<B: Allocator>(
    layer: u8,
    entries: Vec<PlanEntry<B>, B>,
    tail: Plan<Box<PlanNode<B>, B>>,
) -> PlanNode<B>
    ensures plan { plan_of_node result
        ≡ made layer (with_planned (map planned_entry entries.items) (last (plan_of tail))) }
    ensures known { known_of_node result
        ≡ all_known (map known_of_entry entries.items) ++ known_of tail }
{
    PlanNode {
        layer,
        entries,
        tail,
    }
}
