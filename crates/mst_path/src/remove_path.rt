//! A key removed from a tree that stands: along the path to its entry each node is made anew, and
//! the trees beside the entry are joined.
ghost use Rattle.std.specs.Prelude.{◌≡◌, ◌≤◌, ◌<◌, ◌+◌, List, length};
ghost use Rattle.std.specs.Bool.{MatchBool};
ghost use Rattle.mst_key.specs.declared.format.Format.{Format};
ghost use Rattle.mst_arena.specs.Limits.{highest_layer, most_rows};
ghost use Rattle.mst_arena.specs.Lives.{State, free_count};
ghost use Rattle.mst_arena.specs.Standing.{Placed, link_of, HasRows};
ghost use Rattle.mst_path.specs.Cutting.{IsRunOf, gap_before};
ghost use Rattle.mst_path.specs.Runs.{own_rows};
ghost use Rattle.mst_path.specs.Writing.{PlacedEntry};
ghost use Rattle.mst_path.specs.Takes.{FewRows, RowsAreWritable, StaysBeside};
ghost use Rattle.mst_path.specs.Making.{Grown};
ghost use Rattle.mst_path.specs.Frames.{Framed, in_frame, tree_round, frame_rows};
ghost use Rattle.mst_path.specs.Joining.{MetTrees, in_both, both_joined, both_rows};
ghost use Rattle.mst_path.specs.RemovePath.{SearchTree, in_tree, without, without_rows};
ghost use Rattle.mst_path.specs.Gaps.{IsOpened};

use crate::copying::root_at;
use crate::cut::{Cut, cut_at};
use crate::frames::{Frame, close};
use crate::joining::{Meeting, join, join_cost};
use crate::making::{EntryRun, kept_tail};
use mst_arena::{Desk, Root, Rows, Sought};
use mst_key::Format;
use std::alloc::Allocator;

/// Where a key falls in the top node of a tree.
#[derive(Clone, Copy)]
pub(crate) enum TopStep {
    /// The key falls into a gap: the tree there, and what is left of the node round it.
    Down { child: u32, frame: Frame },
    /// The node has the key's entry: the trees beside it, and what is left of the node round it.
    Here { meeting: Meeting },
}

/// The link of the tree in front of these entries, the last ones of their node; its last tree if
/// there are none.
fn first_tree<R: Rows>(rows: &mut R, back: EntryRun, tail: u32) -> u32
    requires run { (es : List PlacedEntry) × IsRunOf back 0 es
        × HasRows (R.content rows.old) (own_rows 0 es) }
    ensures tree { (es : List PlacedEntry) (p : Placed) → IsRunOf back 0 es
        → HasRows (R.content rows.old) (own_rows 0 es) → link_of p ≡ tail
        → link_of (gap_before es p) ≡ result }
    ensures same { rows.new ≡ rows.old }
{
    if back.count == 0 {
        return tail;
    }
    rows.entry(back.first - 1).child
}

/// The top node of a tree that is not empty, opened where the key falls.
pub(crate) fn top_step<R: Rows>(rows: &mut R, link: u32, key: &Sought) -> TopStep
    requires tree { (format : Format) × (s : State) × SearchTree format
        (R.content rows.old) s link }
    requires some { 0 < link }
    ensures opened { (format : Format) (s : State) (t : SearchTree format
        (R.content rows.old) s link)
        → IsOpened format (R.content rows.old) s link t key.now result }
    ensures same { rows.new ≡ rows.old }
{
    let head = rows.head(link - 1);
    match cut_at(rows, &head, key) {
        Cut::Gap { front, child, back } => TopStep::Down {
            child,
            frame: Frame {
                layer: head.layer,
                front,
                back,
                tail: kept_tail(back.count, head.tail),
                head: link - 1,
                other: None,
            },
        },
        Cut::Found {
            front,
            row,
            child,
            back,
        } => {
            let right = first_tree(rows, back, head.tail);
            let frame = Frame {
                layer: head.layer,
                front,
                back,
                tail: kept_tail(back.count, head.tail),
                head: link - 1,
                other: Some(row),
            };
            TopStep::Here {
                meeting: Meeting {
                    left: child,
                    right,
                    frame,
                },
            }
        }
    }
}

/// Joins the trees that meet, and makes the node round them.
fn join_round<R: Rows, A: Allocator>(
    rows: &mut R,
    desk: &mut Desk<A>,
    meeting: &Meeting,
    format: Format,
) -> Root
    requires met { (t : MetTrees format (R.content rows.old) desk.old meeting.now)
        × Framed format (R.content rows.old) desk.old meeting.now.frame (in_both format t)
        × (both_rows format t + frame_rows meeting.now.frame ≤ free_count desk.old.lives) }
    requires low { meeting.now.frame.layer ≤ highest_layer }
    requires ready { RowsAreWritable desk.old.lives (R.blank rows.old) }
    ensures made { (t : MetTrees format (R.content rows.old) desk.old meeting.now)
        (f : Framed format (R.content rows.old) desk.old meeting.now.frame (in_both format t))
        → Grown format (R.content rows.old) (R.content rows.new) desk.old desk.new
        (tree_round format f (both_joined format t)) result
        (λ x. in_both format t x + in_frame format f x)
        (both_rows format t + frame_rows meeting.now.frame) }
    ensures beside { StaysBeside R.blank R.kept rows.old rows.new }
{
    let seam = join(rows, desk, meeting.left, meeting.right, format);
    close(rows, desk, &meeting.frame, &seam, format)
}

/// Removes a key from the tree at a link. The nodes along the path to its entry, and where the
/// trees beside it meet, are made anew; their rows die, and everything beside that path is shared.
pub(crate) fn remove_at<R: Rows, A: Allocator>(
    rows: &mut R,
    desk: &mut Desk<A>,
    link: u32,
    key: &Sought,
    format: Format,
) -> Root
    requires tree { (t : SearchTree format (R.content rows.old) desk.old link)
        × (without_rows format t key.now ≤ free_count desk.old.lives) }
    requires ready { RowsAreWritable desk.old.lives (R.blank rows.old) }
    ensures removed { (t : SearchTree format (R.content rows.old) desk.old link)
        → Grown format (R.content rows.old) (R.content rows.new) desk.old desk.new
        (without format t key.now) result (in_tree format t) (without_rows format t key.now) }
    ensures beside { StaysBeside R.blank R.kept rows.old rows.new }
{
    if link == 0 {
        return root_at(rows, link);
    }
    match top_step(rows, link, key) {
        TopStep::Down { child, frame } => {
            let seam = remove_at(rows, desk, child, key, format);
            close(rows, desk, &frame, &seam, format)
        }
        TopStep::Here { meeting } => join_round(rows, desk, &meeting, format),
    }
}

/// How many rows [`remove_at`] takes. It reads only along the path.
pub(crate) fn remove_cost<R: Rows>(rows: &mut R, link: u32, key: &Sought) -> u32
    requires tree { (format : Format) × (s : State) × (t : SearchTree format
        (R.content rows.old) s link)
        × (without_rows format t key.now ≤ most_rows) }
    ensures cost { (format : Format) (s : State) (t : SearchTree format (R.content rows.old) s link)
        → result ≡ without_rows format t key.now }
    ensures same { rows.new ≡ rows.old }
{
    if link == 0 {
        return 0;
    }
    match top_step(rows, link, key) {
        TopStep::Down { child, frame } => {
            let inner = remove_cost(rows, child, key);
            inner + frame.rows()
        }
        TopStep::Here { meeting } => {
            let joined = join_cost(rows, meeting.left, meeting.right);
            joined + meeting.frame.rows()
        }
    }
}

/// Whether as many rows are free as [`remove_at`] takes.
///
/// It takes no more than the tree has, of which none is free. So if the others are few enough, they
/// are not counted.
pub(crate) fn remove_fits<R: Rows, A: Allocator>(
    rows: &mut R,
    desk: &Desk<A>,
    link: u32,
    key: &Sought,
) -> bool
    requires tree { (format : Format) × (s : State) × (t : SearchTree format
        (R.content rows.old) s link)
        × (without_rows format t key.now ≤ length desk.now.lives) }
    ensures fits { (format : Format) (s : State) (t : SearchTree format (R.content rows.old) s link)
        → without_rows format t key.now + free_count desk.now.lives ≤ length desk.now.lives
        → MatchBool result (without_rows format t key.now ≤ free_count desk.now.lives)
        (free_count desk.now.lives < without_rows format t key.now) }
    ensures few { FewRows desk.now.lives }
    ensures same { rows.new ≡ rows.old }
{
    let free = desk.free();
    let others = desk.rows().saturating_sub(free);
    if others <= free {
        true
    } else {
        remove_cost(rows, link, key) <= free
    }
}
