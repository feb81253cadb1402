//! Which nodes of the tree after a batch stand already.
ghost use Rattle.std.specs.Prelude.{◌≡◌, ◌↔◌, ℕ, List, true, map, Some, IsSome, IfOk};
ghost use Rattle.mst_key.specs.declared.format.Format.{Format};
ghost use Rattle.mst_key.specs.Map.{Pair};
ghost use Rattle.mst_node.specs.Tree.{Entries, node as tree_node, IsMst};
ghost use Rattle.mst_arena.specs.Content.{Content, part_at};
ghost use Rattle.mst_arena.specs.Row.{entry_pair, entry_value, keyed_links};
ghost use Rattle.mst_arena.specs.Standing.{Placed, Chain, Stands};
ghost use Rattle.mst_read.specs.Search.{Lies, LiesBehind, TreeLies, ChainLies, MapStands};
ghost use Rattle.mst_batch.specs.Beside.{plan_beside, entries_beside, link_of_key, kept_entry, kept_entries, kept_node};
ghost use Rattle.mst_batch.specs.Known.{AreKnown, AreThere, all_known, known_of, known_of_entry, known_of_node};
ghost use Rattle.mst_batch.specs.Plans.{plan_of, plan_of_node, planned_entry, with_planned, kept, made, last};

use crate::plan::{Origin, Plan, PlanEntry, PlanNode};
use mst_arena::{HeadLinks, KeyedLinks, Root, Rows, Sought};
use mst_key::Memory;
use mst_read::{RowPlace, head_at, seek};
use std::alloc::Allocator;

/// The link of the node of which the key is that of an entry, 0 if there is none. It reads along
/// the path to the key.
fn link_of<R: Rows>(rows: &mut R, root: &Root, key: &Sought) -> u32
    requires stands { MapStands (R.content rows.old) root.now }
    ensures link { (f : Format) (m : List Pair) (stands : Stands f (R.content rows.old) root.now m)
        → result ≡ link_of_key key.now stands.tree.placed }
    ensures same { rows.new ≡ rows.old }
{
    let mut at = root.link;
    let mut top = head_at(rows, at);
    while let Some(head) = top {
        match seek(rows, &head, key) {
            RowPlace::Found(_) => return at,
            RowPlace::Gap(below) => {
                at = below;
                top = head_at(rows, below);
            }
        }
    }
    0
}

/// Whether a plan keeps the tree at a link.
fn keeps<B: Allocator>(plan: &Plan<Box<PlanNode<B>, B>>, link: u32) -> bool
    ensures keeps { (result ≡ true) ↔ (plan_of plan.now ≡ kept link) }
{
    match plan {
        Plan::Kept(own) => *own == link,
        Plan::Made(_) => false,
    }
}

/// Whether an entry to be made is known to be the one in a row.
fn stands_in<B: Allocator>(entry: &PlanEntry<B>, row: u32) -> bool
    ensures stands { result ≡ true → (content : Content)
        → AreThere content (known_of_entry entry.now) → part_at entry_pair content row
        ≡ Some ((planned_entry entry.now).key, (planned_entry entry.now).value) }
{
    match entry.origin {
        Origin::Kept(own) => own == row,
        Origin::Changed(_) | Origin::Unknown => false,
    }
}

/// Whether an entry has the pair of the one to be made. Its links were read at the row.
fn has_pair<R: Rows, B: Allocator>(
    rows: &mut R,
    row: u32,
    links: &KeyedLinks,
    entry: &PlanEntry<B>,
) -> bool
    requires there { IsSome (part_at entry_value (R.content rows.old) row) }
    requires links { part_at keyed_links (R.content rows.old) row ≡ Some links.now }
    requires known { AreThere (R.content rows.old) (known_of_entry entry.now) }
    ensures pair { (value : List ℕ) → part_at entry_value (R.content rows.old) row ≡ Some value
        → (result ≡ true) ↔ ((planned_entry entry.now).key ≡ links.now.key)
        × ((planned_entry entry.now).value ≡ value) }
    ensures same { rows.new ≡ rows.old }
{
    if stands_in(entry, row) {
        return true;
    }
    entry.key == links.key && entry.value == rows.value(row)
}

/// Whether an entry is the one to be made, with the tree before it kept. Its links were read at the
/// row.
fn is_entry<R: Rows, B: Allocator>(
    rows: &mut R,
    row: u32,
    links: &KeyedLinks,
    entry: &PlanEntry<B>,
) -> bool
    requires there { IsSome (part_at entry_value (R.content rows.old) row) }
    requires links { part_at keyed_links (R.content rows.old) row ≡ Some links.now }
    requires known { AreThere (R.content rows.old) (known_of_entry entry.now) }
    ensures entry { (value : List ℕ) → part_at entry_value (R.content rows.old) row ≡ Some value
        → (result ≡ true) ↔ (planned_entry entry.now ≡ kept_entry links.now value) }
    ensures same { rows.new ≡ rows.old }
{
    keeps(&entry.child, links.child) && has_pair(rows, row, links, entry)
}

/// Whether the entries of a node of which the head was read are those to be made, with each tree
/// before and after them kept.
fn has_entries<R: Rows, B: Allocator>(
    rows: &mut R,
    head: &HeadLinks,
    entries: &[PlanEntry<B>],
    tail: &Plan<Box<PlanNode<B>, B>>,
) -> bool
    requires lies { ChainLies (R.content rows.old) head.now }
    requires known { AreThere (R.content rows.old) (all_known (map known_of_entry entries.now)) }
    ensures entries { (f : Format) (c : Chain) → LiesBehind f (R.content rows.old) head.now c
        → (result ≡ true) ↔ (with_planned (map planned_entry entries.now)
        (last (plan_of tail.now)) ≡ kept_entries c) }
    ensures same { rows.new ≡ rows.old }
{
    if entries.len() != head.count as usize {
        return false;
    }
    let mut next = head.first;
    for entry in entries {
        let row = next - 1;
        let links = rows.entry(row);
        if !is_entry(rows, row, &links, entry) {
            return false;
        }
        next = links.next;
    }
    keeps(tail, head.tail)
}

/// Whether the node that stands at a link is the one to be made, with each tree below it kept. At
/// link 0 is none.
fn matches<R: Rows, B: Allocator>(rows: &mut R, link: u32, node: &PlanNode<B>) -> bool
    requires lies { TreeLies (R.content rows.old) link }
    requires known { AreThere (R.content rows.old) (known_of_node node.now) }
    ensures node { (f : Format) (p : Placed) → Lies f (R.content rows.old) link p
        → (result ≡ true) ↔ (plan_of_node node.now ≡ kept_node p) }
    ensures same { rows.new ≡ rows.old }
{
    let Some(head) = head_at(rows, link) else {
        return false;
    };
    node.layer == head.layer && has_entries(rows, &head, node.entries.as_slice(), &node.tail)
}

/// Whether a plan makes a node.
fn is_made<B: Allocator>(plan: &Plan<Box<PlanNode<B>, B>>) -> bool
    ensures made { result ≡ true → (link : ℕ) → plan_of plan.now ≡ kept link → ⊥ }
{
    match plan {
        Plan::Kept(_) => false,
        Plan::Made(_) => true,
    }
}

/// Whether the tree in a gap of a node is to be made: then no node that stands is this one, so that
/// none has to be looked for.
fn has_new_gap<B: Allocator>(node: &PlanNode<B>) -> bool
    ensures new { result ≡ true → (p : Placed) → plan_of_node node.now ≡ kept_node p → ⊥ }
{
    for entry in &node.entries {
        if is_made(&entry.child) {
            return true;
        }
    }
    is_made(&node.tail)
}

/// The plan of a node to be made, with the plans below it found: the node that stands, if one is
/// this node; otherwise it is made. `Memory` only if a growth was refused.
#[inline(never)]
pub(crate) fn shared<R: Rows, B: Allocator>(
    rows: &mut R,
    alloc: B,
    root: &Root,
    node: PlanNode<B>,
) -> Result<Plan<Box<PlanNode<B>, B>>, Memory>
    requires node { (format : Format) × (m : List Pair)
        × (stands : Stands format (R.content rows.old) root.now m) × (l : ℕ) × (es : Entries)
        × IsMst format (tree_node format l es)
        × (plan_of_node node ≡ made l (entries_beside format stands.tree.placed es)) }
    requires known { AreThere (R.content rows.old) (known_of_node node) }
    ensures plan { IfOk result (λ plan. (format : Format) (m : List Pair)
        (stands : Stands format (R.content rows.old) root.now m) (l : ℕ) (es : Entries)
        → IsMst format (tree_node format l es)
        → plan_of_node node ≡ made l (entries_beside format stands.tree.placed es)
        → plan_of plan ≡ plan_beside format stands.tree.placed (tree_node format l es)) }
    ensures known { IfOk result (λ plan. (format : Format) (whole : Placed)
        → AreKnown format whole (known_of_node node)
        → AreKnown format whole (known_of plan)) }
    ensures same { rows.new ≡ rows.old }
{
    if has_new_gap(&node) {
        return Ok(Plan::Made(Box::new(alloc, node)?));
    }
    let Some(first) = node.entries.first() else {
        unreachable!()
    };
    let link = link_of(rows, root, &Sought::new(&first.key));
    if matches(rows, link, &node) {
        return Ok(Plan::Kept(link));
    }
    Ok(Plan::Made(Box::new(alloc, node)?))
}
