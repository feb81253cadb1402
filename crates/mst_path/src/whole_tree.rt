//! A whole tree, written into free rows.
ghost use Rattle.std.specs.Prelude.{◌≡◌, ◌≤◌, ◌<◌, ◌+◌, List, length, IfOk, IfErr, option_copied};
ghost use Rattle.mst_key.specs.Map.{Pair, IsMap};
ghost use Rattle.mst_key.specs.declared.format.Format.{Format};
ghost use Rattle.mst_node.specs.Tree.{pairs, tree as tree_of_map, IsMst};
ghost use Rattle.mst_node.specs.Text.{highest_count};
ghost use Rattle.mst_node.specs.Shape.{tree_of, tree_of_child};
ghost use Rattle.mst_arena.specs.Lives.{free_count};
ghost use Rattle.mst_arena.specs.Standing.{Stands, numbers};
ghost use Rattle.mst_path.specs.Takes.{Takes, KeepsBut, FreeIsBlank, RowsAreWritable, StaysBeside};
ghost use Rattle.mst_path.specs.Planting.{rows_needed, node_count, tree_at, IsTreeOf, Planted};

use crate::faults::NoRoom;
use crate::node_writer::NodeWriter;
use mst_arena::{Desk, Root, Rows};
use mst_key::Format;
use mst_node::{Node, empty_digest};
use std::alloc::Allocator;

/// How many rows a child takes.
#[cycle(count)]
fn rows_of_child<B: Allocator>(child: &Option<Box<Node<B>, B>>) -> u32
    requires tree { (format : Format) × IsMst format (tree_of_child format child.now)
        × (length (pairs (tree_of_child format child.now)) ≤ highest_count) }
    ensures rows { (format : Format) → result ≡ rows_needed (tree_of_child format child.now) }
{
    match child {
        None => 0,
        Some(node) => rows_of_node(node),
    }
}

/// How many rows a node takes with all below it: one for each entry and each node.
#[cycle(count)]
fn rows_of_node<B: Allocator>(node: &Node<B>) -> u32
    requires tree { (format : Format) × IsMst format (tree_of format node.now)
        × (length (pairs (tree_of format node.now)) ≤ highest_count) }
    ensures rows { (format : Format) → result ≡ rows_needed (tree_of format node.now) }
{
    let mut rows = 1;
    for entry in &node.entries {
        rows += rows_of_child(&entry.child) + 1;
    }
    rows + rows_of_child(&node.tail)
}

/// Writes the tree of a gap. Returns where it stands.
#[cycle(plant)]
fn plant_child<R: Rows, A: Allocator, B: Allocator>(
    rows: &mut R,
    desk: &mut Desk<A>,
    child: &Option<Box<Node<B>, B>>,
    format: Format,
) -> Root
    requires tree { IsMst format (tree_of_child format child.now) }
    requires room { rows_needed (tree_of_child format child.now) ≤ free_count desk.old.lives }
    requires ready { RowsAreWritable desk.old.lives (R.blank rows.old) }
    ensures planted { Planted format desk.old desk.new (R.content rows.old) (R.content rows.new)
        (tree_of_child format child.now) result }
    ensures beside { StaysBeside R.blank R.kept rows.old rows.new }
{
    match child {
        None => Root {
            link: 0,
            digest: empty_digest(),
        },
        Some(node) => plant_node(rows, desk, node, format),
    }
}

/// Writes a node with all below it. Returns where it stands.
#[cycle(plant)]
fn plant_node<R: Rows, A: Allocator, B: Allocator>(
    rows: &mut R,
    desk: &mut Desk<A>,
    node: &Node<B>,
    format: Format,
) -> Root
    requires tree { IsMst format (tree_of format node.now) }
    requires room { rows_needed (tree_of format node.now) ≤ free_count desk.old.lives }
    requires ready { RowsAreWritable desk.old.lives (R.blank rows.old) }
    ensures planted { Planted format desk.old desk.new (R.content rows.old) (R.content rows.new)
        (tree_of format node.now) result }
    ensures beside { StaysBeside R.blank R.kept rows.old rows.new }
{
    let mut writer = NodeWriter::begin(
        desk,
        None,
        node.layer,
        node.entries.len() as u32,
        format,
        false,
    );
    for entry in &node.entries {
        let child = plant_child(rows, desk, &entry.child, format);
        writer.entry(rows, desk, None, &child, &entry.key, &entry.value);
    }
    let tail = plant_child(rows, desk, &node.tail, format);
    writer.finish(rows, desk, &tail)
}

/// Writes a whole tree into free rows. It takes exactly one row for each entry and each node, and
/// writes no other row. Returns the root at which the rows then stand for the tree; its link is 0
/// for the empty tree.
///
/// The tree is one that `build_in` gave in this format of at most 65,535 pairs, and the desk's free
/// rows may be written. The rows are born with the version to come.
///
/// Returns `NoRoom` exactly if fewer rows are free than the tree takes. Then nothing was taken or
/// written.
///
/// No memory is taken. Each text is fed to the hash while its node is written, and nothing is read.
/// Calls nest no deeper than the layers, at most 65 in format 1 and 129 in format 2.
pub fn plant<R: Rows, A: Allocator, B: Allocator>(
    rows: &mut R,
    desk: &mut Desk<A>,
    tree: Option<&Node<B>>,
    format: Format,
) -> Result<Root, NoRoom>
    requires tree { (m : List Pair) × IsTreeOf format (tree_at format (option_copied tree)) m }
    requires free { FreeIsBlank desk.old.lives (R.blank rows.old) }
    ensures stands { IfOk result (λ root. (m : List Pair) → IsMap m
        → IsTreeOf format (tree_at format (option_copied tree.entry)) m
        → Stands format (R.content rows.new) root m) }
    // the rows that stand are those that were taken, and no other was written
    ensures takes { IfOk result (λ root. (m : List Pair)
        (s : Stands format (R.content rows.new) root m) → Takes desk.old desk.new (numbers s)) }
    ensures keeps { IfOk result (λ root. (m : List Pair)
        (s : Stands format (R.content rows.new) root m)
        → KeepsBut (numbers s) (R.content rows.old) (R.content rows.new)) }
    // a row for each pair and each node of the tree
    ensures count { IfOk result (λ _. (m : List Pair)
        → IsTreeOf format (tree_at format (option_copied tree.entry)) m
        → free_count desk.new.lives + (length m + node_count (tree_of_map format m))
        ≡ free_count desk.old.lives) }
    ensures beside { StaysBeside R.blank R.kept rows.old rows.new }
    ensures no_room { IfErr result (λ _. (m : List Pair)
        → IsTreeOf format (tree_at format (option_copied tree.entry)) m
        → free_count desk.old.lives < length m + node_count (tree_of_map format m)) }
    ensures untouched { IfErr result (λ _. (desk.new ≡ desk.old) × (rows.new ≡ rows.old)) }
{
    let Some(node) = tree else {
        return Ok(Root {
            link: 0,
            digest: empty_digest(),
        });
    };
    if rows_of_node(node) > desk.free() {
        return Err(NoRoom);
    }
    Ok(plant_node(rows, desk, node, format))
}
