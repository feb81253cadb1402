//! A tree, split at a key.
ghost use Rattle.std.specs.Prelude.{◌≡◌, ◌≤◌, ◌+◌, true, false, ◌==◌, ◌&&◌};
ghost use Rattle.mst_key.specs.declared.format.Format.{Format};
ghost use Rattle.mst_arena.specs.Lives.{free_count};
ghost use Rattle.mst_arena.specs.Lists.{times};
ghost use Rattle.mst_arena.specs.Standing.{none, tree_of, used};
ghost use Rattle.mst_arena.specs.Limits.{highest_layer};
ghost use Rattle.mst_change.specs.Split.{below, above};
ghost use Rattle.mst_change.specs.Parts.{is_empty};
ghost use Rattle.mst_change.specs.Cost.{side_rows, split_rows};
ghost use Rattle.mst_path.specs.Takes.{RowsAreWritable, StaysBeside};
ghost use Rattle.mst_path.specs.Writing.{IsRootOf};
ghost use Rattle.mst_path.specs.Making.{PartsStand, in_parts, Grown, Split, tail_behind};
ghost use Rattle.mst_path.specs.Splitting.{ToSplit, BothStand, side_of, in_both};

use crate::copying::root_at;
use crate::cut::{Cut, cut_at};
use crate::making::{EntryRun, NodeParts, kept_tail, make_node, no_run};
use mst_arena::{Desk, HeadLinks, Root, Rows, Sought};
use mst_key::Format;
use mst_node::empty_digest;
use std::alloc::Allocator;

/// Where the empty tree stands.
pub(crate) fn nothing() -> Root
    ensures root { (format : Format) → IsRootOf format none result }
{
    Root {
        link: 0,
        digest: empty_digest(),
    }
}

/// Whether there are no entries and no tree beside them.
fn is_none(run: &EntryRun, beside: &Root) -> bool
    ensures none { result ≡ ((run.now.count == 0) && (beside.now.link == 0)) }
{
    run.count == 0 && beside.link == 0
}

/// The node of the parts; if they have no entries, the tree in the seam alone.
pub(crate) fn side<R: Rows, A: Allocator>(
    rows: &mut R,
    desk: &mut Desk<A>,
    parts: &NodeParts,
    format: Format,
) -> Root
    requires parts { PartsStand format (R.content rows.old) desk.old parts.now }
    requires low { parts.now.layer ≤ highest_layer }
    requires room { side_rows (parts.now.front.count + parts.now.back.count) false
        ≤ free_count desk.old.lives }
    requires ready { RowsAreWritable desk.old.lives (R.blank rows.old) }
    ensures made { (p : PartsStand format (R.content rows.old) desk.old parts.now)
        → Grown format (R.content rows.old) (R.content rows.new) desk.old desk.new
        (side_of format p) result
        (in_parts format p) (side_rows (parts.now.front.count + parts.now.back.count) false) }
    ensures beside { StaysBeside R.blank R.kept rows.old rows.new }
{
    if parts.front.count + parts.back.count == 0 {
        return parts.seam;
    }
    make_node(rows, desk, None, parts, format)
}

/// Makes both sides of a node, whose head dies.
pub(crate) fn both_sides<R: Rows, A: Allocator>(
    rows: &mut R,
    desk: &mut Desk<A>,
    row: u32,
    left: &NodeParts,
    right: &NodeParts,
    format: Format,
) -> (Root, Root)
    requires parts { BothStand format (R.content rows.old) desk.old row left.now right.now }
    requires low { (left.now.layer ≤ highest_layer) × (right.now.layer ≤ highest_layer) }
    requires room { side_rows (left.now.front.count + left.now.back.count) false + side_rows
        (right.now.front.count + right.now.back.count) false ≤ free_count desk.old.lives }
    requires ready { RowsAreWritable desk.old.lives (R.blank rows.old) }
    ensures made { (b : BothStand format (R.content rows.old) desk.old row left.now right.now)
        → Split format (R.content rows.old) (R.content rows.new) desk.old desk.new
        (side_of format b.lower)
        (side_of format b.upper) result.0 result.1 (in_both format b)
        (side_rows (left.now.front.count + left.now.back.count) false + side_rows
        (right.now.front.count + right.now.back.count) false) }
    ensures beside { StaysBeside R.blank R.kept rows.old rows.new }
{
    let lower = side(rows, desk, left, format);
    let upper = side(rows, desk, right, format);
    desk.kill(row);
    (lower, upper)
}

/// The part of a node in front of a gap, with a tree after it.
fn front_part(layer: u8, front: EntryRun, seam: Root) -> NodeParts
    ensures part { result ≡ record {
      layer = layer;
      front = front;
      seam = seam;
      back = record { first = 0; count = 0 };
      tail = 0;
    } }
{
    NodeParts {
        layer,
        front,
        seam,
        back: no_run(),
        tail: 0,
    }
}

/// The part of a node after a gap, with a tree in front of it.
fn back_part(head: &HeadLinks, back: EntryRun, seam: Root) -> NodeParts
    ensures part { result ≡ record {
      layer = head.now.layer;
      front = record { first = 0; count = 0 };
      seam = seam;
      back = back;
      tail = tail_behind back.count head.now.tail;
    } }
{
    NodeParts {
        layer: head.layer,
        front: no_run(),
        seam,
        back,
        tail: kept_tail(back.count, head.tail),
    }
}

/// The two sides of a tree at a key that is of a higher layer than all its keys. Along the path to
/// the key each node is made anew, in at most two parts; everything beside the path is shared, and
/// so is a tree that is all on one side of the key.
pub(crate) fn split<R: Rows, A: Allocator>(
    rows: &mut R,
    desk: &mut Desk<A>,
    link: u32,
    key: &Sought,
    format: Format,
) -> (Root, Root)
    requires tree { (t : ToSplit format (R.content rows.old) desk.old link key.now)
        × (split_rows key.now (tree_of format t.tree.placed) ≤ free_count desk.old.lives) }
    requires ready { RowsAreWritable desk.old.lives (R.blank rows.old) }
    ensures split { (t : ToSplit format (R.content rows.old) desk.old link key.now)
        → Split format (R.content rows.old) (R.content rows.new) desk.old desk.new
        (below key.now (tree_of format t.tree.placed))
        (above key.now (tree_of format t.tree.placed)) result.0 result.1
        (λ x. times x (used t.tree.placed)) (split_rows key.now (tree_of format t.tree.placed)) }
    ensures shared_below { (t : ToSplit format (R.content rows.old) desk.old link key.now)
        → is_empty (above key.now (tree_of format t.tree.placed)) ≡ true → (rows.new ≡ rows.old)
        × (desk.new ≡ desk.old) }
    ensures shared_above { (t : ToSplit format (R.content rows.old) desk.old link key.now)
        → is_empty (below key.now (tree_of format t.tree.placed)) ≡ true → (rows.new ≡ rows.old)
        × (desk.new ≡ desk.old) }
    ensures beside { StaysBeside R.blank R.kept rows.old rows.new }
{
    if link == 0 {
        return (nothing(), nothing());
    }
    let head = rows.head(link - 1);
    let Cut::Gap { front, child, back } = cut_at(rows, &head, key) else {
        unreachable!()
    };
    let (lower, upper) = split(rows, desk, child, key, format);
    if is_none(&back, &upper) {
        return (root_at(rows, link), nothing());
    }
    if is_none(&front, &lower) {
        return (nothing(), root_at(rows, link));
    }
    let left = front_part(head.layer, front, lower);
    let right = back_part(&head, back, upper);
    both_sides(rows, desk, link - 1, &left, &right, format)
}
