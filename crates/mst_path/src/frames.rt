//! What is left of nodes round a gap, once the tree in the gap is made anew.
ghost use Rattle.std.specs.Prelude.{◌≡◌, ◌≤◌, ◌<◌, ◌+◌, ℕ, [], ◌∷◌, ◌^◌};
ghost use Rattle.mst_key.specs.declared.format.Format.{Format};
ghost use Rattle.mst_arena.specs.Lives.{free_count};
ghost use Rattle.mst_arena.specs.Lists.{In, times};
ghost use Rattle.mst_arena.specs.Standing.{Placed, tree_of, used};
ghost use Rattle.mst_arena.specs.Limits.{highest_layer};
ghost use Rattle.mst_path.specs.Takes.{RowsAreWritable, StaysBeside};
ghost use Rattle.mst_path.specs.Moves.{IsOld, Moves};
ghost use Rattle.mst_path.specs.Runs.{Piece};
ghost use Rattle.mst_path.specs.Writing.{IsRootOf, ahead};
ghost use Rattle.mst_path.specs.Making.{Grown};
ghost use Rattle.mst_path.specs.Frames.{Framed, in_entries, in_frame, tree_round, frame_rows};

use crate::making::{EntryRun, NodeParts, make_node};
use mst_arena::{Desk, Root, Rows};
use mst_key::Format;
use std::alloc::Allocator;

/// What is left of a node, or of two that become one, round the gap whose tree is made anew.
#[derive(Clone, Copy)]
pub(crate) struct Frame {
    pub(crate) layer: u8,
    /// The entries in front of the gap.
    pub(crate) front: EntryRun,
    /// The entries after it, up to the end of their node.
    pub(crate) back: EntryRun,
    /// The link of the tree in the last gap if there are entries at the back, otherwise 0.
    pub(crate) tail: u32,
    /// The row of the head, which goes.
    pub(crate) head: u32,
    /// The row that goes with it: the head of the second node, or an entry.
    pub(crate) other: Option<u32>,
}

impl Frame {
    /// How many rows its node takes: none if it has no entry.
    pub(crate) fn rows(&self) -> u32
        requires few { frame_rows self.now < 2 ^ 32 }
        ensures rows { result ≡ frame_rows self.now }
    {
        let count = self.front.count + self.back.count;
        if count == 0 { 0 } else { count + 1 }
    }
}

/// Lets a row die, and another one.
pub(crate) fn kill_both<A: Allocator>(desk: &mut Desk<A>, row: u32, other: Option<u32>)
    requires old { (r : ℕ) → In r (row ∷ ahead other) → IsOld desk.old r }
    requires once { (r : ℕ) → times r (row ∷ ahead other) ≤ 1 }
    ensures moves { Moves desk.old desk.new [] (row ∷ ahead other) }
{
    desk.kill(row);
    if let Some(row) = other {
        desk.kill(row);
    }
}

/// The node of the frame with the tree in its gap, or that tree alone if the frame has no entry.
fn fill<R: Rows, A: Allocator>(
    rows: &mut R,
    desk: &mut Desk<A>,
    frame: &Frame,
    seam: &Root,
    format: Format,
) -> Root
    requires frame { (p : Placed) × IsRootOf format p seam.now
        × Piece format (R.content rows.old) desk.old p
        × Framed format (R.content rows.old) desk.old frame.now (λ x. times x (used p)) }
    requires low { frame.now.layer ≤ highest_layer }
    requires room { frame_rows frame.now ≤ free_count desk.old.lives }
    requires ready { RowsAreWritable desk.old.lives (R.blank rows.old) }
    ensures made { (p : Placed) → IsRootOf format p seam.now
        → Piece format (R.content rows.old) desk.old p
        → (f : Framed format (R.content rows.old) desk.old frame.now (λ x. times x (used p)))
        → Grown format (R.content rows.old) (R.content rows.new) desk.old desk.new
        (tree_round format f (tree_of format p)) result (λ x. times x
        (used p) + in_entries format f x)
        (frame_rows frame.now) }
    ensures beside { StaysBeside R.blank R.kept rows.old rows.new }
{
    if frame.front.count + frame.back.count == 0 {
        return *seam;
    }
    let parts = NodeParts {
        layer: frame.layer,
        front: frame.front,
        seam: *seam,
        back: frame.back,
        tail: frame.tail,
    };
    make_node(rows, desk, Some(frame.head), &parts, format)
}

/// Makes the node of the frame with the tree in its gap, or returns that tree as it is if the frame
/// has no entry. The rows that the frame names die.
pub(crate) fn close<R: Rows, A: Allocator>(
    rows: &mut R,
    desk: &mut Desk<A>,
    frame: &Frame,
    seam: &Root,
    format: Format,
) -> Root
    requires frame { (p : Placed) × IsRootOf format p seam.now
        × Piece format (R.content rows.old) desk.old p
        × Framed format (R.content rows.old) desk.old frame.now (λ x. times x (used p)) }
    requires low { frame.now.layer ≤ highest_layer }
    requires room { frame_rows frame.now ≤ free_count desk.old.lives }
    requires ready { RowsAreWritable desk.old.lives (R.blank rows.old) }
    ensures made { (p : Placed) → IsRootOf format p seam.now
        → Piece format (R.content rows.old) desk.old p
        → (f : Framed format (R.content rows.old) desk.old frame.now (λ x. times x (used p)))
        → Grown format (R.content rows.old) (R.content rows.new) desk.old desk.new
        (tree_round format f (tree_of format p)) result (λ x. times x
        (used p) + in_frame format f x)
        (frame_rows frame.now) }
    ensures beside { StaysBeside R.blank R.kept rows.old rows.new }
{
    let root = fill(rows, desk, frame, seam, format);
    kill_both(desk, frame.head, frame.other);
    root
}
