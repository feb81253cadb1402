//! Two trees that stand, joined: from the top down, the node of the greater layer is made anew
//! round the gap in which it meets the other tree.
ghost use Rattle.std.specs.Prelude.{◌≡◌, ◌≤◌, ◌<◌, ◌+◌};
ghost use Rattle.mst_key.specs.declared.format.Format.{Format};
ghost use Rattle.mst_arena.specs.Limits.{most_rows};
ghost use Rattle.mst_arena.specs.Lives.{State, free_count};
ghost use Rattle.mst_path.specs.Takes.{RowsAreWritable, StaysBeside};
ghost use Rattle.mst_path.specs.Making.{Grown};
ghost use Rattle.mst_path.specs.Joining.{TwoTrees, in_both, both_joined, both_rows, Met, above_right, below_right, beside_right};

use crate::copying::root_at;
use crate::frames::{Frame, close};
use crate::making::{EntryRun, no_run};
use mst_arena::{Desk, HeadLinks, Root, Rows};
use mst_key::Format;
use std::alloc::Allocator;

/// Where two trees meet that are to be joined.
#[derive(Clone, Copy)]
pub(crate) struct Meeting {
    /// The links of the trees that are to be joined in the gap.
    pub(crate) left: u32,
    pub(crate) right: u32,
    /// What is left of the two round the gap.
    pub(crate) frame: Frame,
}

/// Joins two trees, all keys of the left one below those of the right one. The nodes along the path
/// where they meet are made anew, their rows die, and everything beside that path is shared.
pub(crate) fn join<R: Rows, A: Allocator>(
    rows: &mut R,
    desk: &mut Desk<A>,
    left: u32,
    right: u32,
    format: Format,
) -> Root
    requires trees { (t : TwoTrees format (R.content rows.old) desk.old left right)
        × (both_rows format t ≤ free_count desk.old.lives) }
    requires ready { RowsAreWritable desk.old.lives (R.blank rows.old) }
    ensures joined { (t : TwoTrees format (R.content rows.old) desk.old left right)
        → Grown format (R.content rows.old) (R.content rows.new) desk.old desk.new
        (both_joined format t) result
        (in_both format t) (both_rows format t) }
    ensures beside { StaysBeside R.blank R.kept rows.old rows.new }
{
    if left == 0 {
        return root_at(rows, right);
    }
    if right == 0 {
        return root_at(rows, left);
    }
    let meeting = meet(rows, left, right);
    let seam = join(rows, desk, meeting.left, meeting.right, format);
    close(rows, desk, &meeting.frame, &seam, format)
}

/// How many rows [`join`] takes. It reads the heads along the path where the trees meet, and the
/// first entry of each right one whose node is made anew.
pub(crate) fn join_cost<R: Rows>(rows: &mut R, left: u32, right: u32) -> u32
    requires trees { (format : Format) × (s : State) × (t : TwoTrees format
        (R.content rows.old) s left right)
        × (both_rows format t ≤ most_rows) }
    ensures cost { (format : Format) (s : State) (t : TwoTrees format
        (R.content rows.old) s left right)
        → result ≡ both_rows format t }
    ensures same { rows.new ≡ rows.old }
{
    if left == 0 || right == 0 {
        return 0;
    }
    let meeting = meet(rows, left, right);
    let inner = join_cost(rows, meeting.left, meeting.right);
    inner + meeting.frame.rows()
}

/// Where two trees meet, neither of them empty. It reads their heads, and the first entry of the
/// right one if its node is made anew.
fn meet<R: Rows>(rows: &mut R, left: u32, right: u32) -> Meeting
    requires trees { (format : Format) × (s : State) × TwoTrees format
        (R.content rows.old) s left right }
    requires left { 0 < left }
    requires right { 0 < right }
    ensures met { (format : Format) (s : State) (t : TwoTrees format
        (R.content rows.old) s left right)
        → Met format (R.content rows.old) s left right t result }
    ensures same { rows.new ≡ rows.old }
{
    let left_head = rows.head(left - 1);
    let right_head = rows.head(right - 1);
    if right_head.layer < left_head.layer {
        return above_right(left, &left_head, right);
    }
    let first = rows.entry(right_head.first - 1);
    if left_head.layer < right_head.layer {
        return below_right(left, right, &right_head, first.child);
    }
    beside_right(left, &left_head, right, &right_head, first.child)
}

/// The left node is the higher one: its last tree meets the right tree.
fn above_right(left: u32, left_head: &HeadLinks, right: u32) -> Meeting
    requires left { 0 < left }
    ensures is { result ≡ above_right left right left_head.now }
{
    Meeting {
        left: left_head.tail,
        right,
        frame: Frame {
            layer: left_head.layer,
            front: EntryRun {
                first: left_head.first,
                count: left_head.count,
            },
            back: no_run(),
            tail: 0,
            head: left - 1,
            other: None,
        },
    }
}

/// The left node is the lower one: it meets the first tree of the right node.
fn below_right(left: u32, right: u32, right_head: &HeadLinks, child: u32) -> Meeting
    requires right { 0 < right }
    ensures is { result ≡ below_right left right right_head.now child }
{
    Meeting {
        left,
        right: child,
        frame: Frame {
            layer: right_head.layer,
            front: no_run(),
            back: EntryRun {
                first: right_head.first,
                count: right_head.count,
            },
            tail: right_head.tail,
            head: right - 1,
            other: None,
        },
    }
}

/// The nodes are of one layer and become one: the last tree of the left one meets the first of the
/// right one.
fn beside_right(
    left: u32,
    left_head: &HeadLinks,
    right: u32,
    right_head: &HeadLinks,
    child: u32,
) -> Meeting
    requires left { 0 < left }
    requires right { 0 < right }
    ensures is { result ≡ beside_right left right left_head.now right_head.now child }
{
    Meeting {
        left: left_head.tail,
        right: child,
        frame: Frame {
            layer: left_head.layer,
            front: EntryRun {
                first: left_head.first,
                count: left_head.count,
            },
            back: EntryRun {
                first: right_head.first,
                count: right_head.count,
            },
            tail: right_head.tail,
            head: left - 1,
            other: Some(right - 1),
        },
    }
}
