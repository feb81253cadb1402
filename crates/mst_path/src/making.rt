//! A new node, made of parts of nodes that stand.
ghost use Rattle.std.specs.Prelude.{◌≡◌, ◌≤◌, ◌<◌, ◌+◌, ℕ, IsTrue};
ghost use Rattle.mst_key.specs.declared.format.Format.{Format};
ghost use Rattle.mst_node.specs.Tree.{node, entry};
ghost use Rattle.mst_node.specs.Shape.{with_entries};
ghost use Rattle.mst_arena.specs.Lives.{free_count};
ghost use Rattle.mst_arena.specs.Lists.{times};
ghost use Rattle.mst_arena.specs.Standing.{Placed, tree_of, used};
ghost use Rattle.mst_arena.specs.Limits.{highest_layer};
ghost use Rattle.mst_change.specs.Parts.{with_first};
ghost use Rattle.mst_path.specs.Takes.{RowsAreWritable, StaysBeside};
ghost use Rattle.mst_path.specs.Runs.{Piece};
ghost use Rattle.mst_path.specs.Writing.{IsRootOf, IsNextBlank, IsWriter};
ghost use Rattle.mst_path.specs.Making.{PartsStand, in_parts, cells_of, entries_to, Grown, Rest, Finished, tail_behind};

use crate::copying::{move_entry, move_run, root_at};
use crate::node_writer::NodeWriter;
use mst_arena::{Desk, Root, Rows};
use mst_key::{Format, Key, Value};
use std::alloc::Allocator;

/// Entries of a node, one after another.
#[derive(Clone, Copy)]
pub(crate) struct EntryRun {
    /// The link of the first of them.
    pub(crate) first: u32,
    pub(crate) count: u32,
}

/// No entries.
pub(crate) fn no_run() -> EntryRun
    ensures none { result ≡ record { first = 0; count = 0 } }
{
    EntryRun { first: 0, count: 0 }
}

/// The link of the last tree that is kept after so many entries: none if there are no entries.
pub(crate) fn kept_tail(count: u32, tail: u32) -> u32
    ensures tail { result ≡ tail_behind count tail }
{
    if count == 0 { 0 } else { tail }
}

/// What a new node is made of. The entries die where they stand, and are written anew.
#[derive(Clone, Copy)]
pub(crate) struct NodeParts {
    pub(crate) layer: u8,
    /// The entries in front.
    pub(crate) front: EntryRun,
    /// The tree in the gap after them.
    pub(crate) seam: Root,
    /// The entries at the back, up to the end of their node.
    pub(crate) back: EntryRun,
    /// The link of the tree in the last gap if there are entries at the back, otherwise 0.
    pub(crate) tail: u32,
}

/// Makes the node of the parts. It takes the place of the node whose head is in the row `head`, if
/// there is one.
pub(crate) fn make_node<R: Rows, A: Allocator>(
    rows: &mut R,
    desk: &mut Desk<A>,
    head: Option<u32>,
    parts: &NodeParts,
    format: Format,
) -> Root
    requires parts { PartsStand format (R.content rows.old) desk.old parts.now }
    requires some { 0 < parts.now.front.count + parts.now.back.count }
    requires low { parts.now.layer ≤ highest_layer }
    requires room { parts.now.front.count + parts.now.back.count + 1 ≤ free_count desk.old.lives }
    requires ready { RowsAreWritable desk.old.lives (R.blank rows.old) }
    ensures made { (p : PartsStand format (R.content rows.old) desk.old parts.now)
        → Grown format (R.content rows.old) (R.content rows.new) desk.old desk.new
        (node format parts.now.layer
        (with_entries (cells_of format p.front)
        (with_first (tree_of format p.seam) (entries_to format p.back p.tail)))) result
        (in_parts format p)
        (parts.now.front.count + parts.now.back.count + 1) }
    ensures beside { StaysBeside R.blank R.kept rows.old rows.new }
{
    let count = parts.front.count + parts.back.count;
    let mut writer = NodeWriter::begin(desk, head, parts.layer, count, format, true);
    move_run(
        rows,
        desk,
        &mut writer,
        parts.front.first,
        parts.front.count,
    );
    finish_node(rows, desk, writer, parts)
}

/// Makes the node of the parts, with a new entry between the front and the seam, and a tree in the
/// gap before it. It takes the place of the node whose head is in the row `head`, and the new entry
/// that of the one in the row `replaced`, if there are such.
pub(crate) fn make_node_with<R: Rows, A: Allocator>(
    rows: &mut R,
    desk: &mut Desk<A>,
    head: Option<u32>,
    parts: &NodeParts,
    replaced: Option<u32>,
    child: &Root,
    key: &Key,
    value: &Value,
    format: Format,
) -> Root
    requires parts { (p : PartsStand format (R.content rows.old) desk.old parts.now) × (c : Placed)
        × IsRootOf format c child.now × Piece format (R.content rows.old) desk.old c
        × ((x : ℕ) → in_parts format p x + times x (used c) ≤ 1) }
    requires low { parts.now.layer ≤ highest_layer }
    requires room { parts.now.front.count + parts.now.back.count + 2 ≤ free_count desk.old.lives }
    requires ready { RowsAreWritable desk.old.lives (R.blank rows.old) }
    ensures made { (p : PartsStand format (R.content rows.old) desk.old parts.now) (c : Placed)
        → IsRootOf format c child.now → Piece format (R.content rows.old) desk.old c
        → ((x : ℕ) → in_parts format p x + times x (used c) ≤ 1)
        → Grown format (R.content rows.old) (R.content rows.new) desk.old desk.new
        (node format parts.now.layer
        (with_entries (cells_of format p.front)
        (entry (tree_of format c) key.now value.now
        (with_first (tree_of format p.seam) (entries_to format p.back p.tail))))) result
        (λ x. in_parts format p x + times x (used c))
        (parts.now.front.count + parts.now.back.count + 2) }
    ensures beside { StaysBeside R.blank R.kept rows.old rows.new }
{
    let count = parts.front.count + parts.back.count + 1;
    let mut writer = NodeWriter::begin(desk, head, parts.layer, count, format, true);
    move_run(
        rows,
        desk,
        &mut writer,
        parts.front.first,
        parts.front.count,
    );
    writer.entry(rows, desk, replaced, child, key, value);
    finish_node(rows, desk, writer, parts)
}

/// Writes what is after the front of the node, and returns where the node stands.
fn finish_node<R: Rows, A: Allocator>(
    rows: &mut R,
    desk: &mut Desk<A>,
    writer: NodeWriter<A>,
    parts: &NodeParts,
) -> Root
    requires rest { (format : Format) × Rest format writer (R.content rows.old) desk.old parts.now }
    requires writer { IsWriter writer }
    requires left { writer.left ≡ parts.now.back.count }
    requires room { writer.left ≤ free_count desk.old.lives + 1 }
    requires ready { RowsAreWritable desk.old.lives (R.blank rows.old) }
    requires blank { IsNextBlank writer.next (R.blank rows.old) }
    requires head { IsTrue (R.blank rows.old writer.head) }
    ensures finished { (format : Format) (r : Rest format writer
        (R.content rows.old) desk.old parts.now)
        → Finished format writer (R.content rows.old)
        (R.content rows.new) desk.old desk.new parts.now r result }
    ensures beside { StaysBeside R.blank R.kept rows.old rows.new }
{
    if parts.back.count == 0 {
        return writer.finish(rows, desk, &parts.seam);
    }
    finish_with_back(rows, desk, writer, parts)
}

/// Moves the entries at the back into the node, the first with the seam before it, and writes the
/// head.
fn finish_with_back<R: Rows, A: Allocator>(
    rows: &mut R,
    desk: &mut Desk<A>,
    mut writer: NodeWriter<A>,
    parts: &NodeParts,
) -> Root
    requires rest { (format : Format) × Rest format writer (R.content rows.old) desk.old parts.now }
    requires some { 0 < parts.now.back.count }
    requires writer { IsWriter writer }
    requires left { writer.left ≡ parts.now.back.count }
    requires room { writer.left ≤ free_count desk.old.lives + 1 }
    requires ready { RowsAreWritable desk.old.lives (R.blank rows.old) }
    requires blank { IsNextBlank writer.next (R.blank rows.old) }
    requires head { IsTrue (R.blank rows.old writer.head) }
    ensures finished { (format : Format) (r : Rest format writer
        (R.content rows.old) desk.old parts.now)
        → Finished format writer (R.content rows.old)
        (R.content rows.new) desk.old desk.new parts.now r result }
    ensures beside { StaysBeside R.blank R.kept rows.old rows.new }
{
    let row = parts.back.first - 1;
    let links = rows.links(row);
    move_entry(rows, desk, &mut writer, row, &parts.seam);
    move_run(rows, desk, &mut writer, links.next, parts.back.count - 1);
    let tail = root_at(rows, parts.tail);
    writer.finish(rows, desk, &tail)
}
