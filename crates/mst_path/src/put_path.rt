//! The tree after a put: along the path to the key's place each node is made anew, and the tree
//! below the pair's place is split.
ghost use Rattle.std.specs.Prelude.{◌≡◌, ◌≤◌, ◌<◌, ◌+◌, true, false};
ghost use Rattle.mst_key.specs.declared.format.Format.{Format};
ghost use Rattle.mst_key.specs.Layer.{layer_in};
ghost use Rattle.mst_node.specs.Tree.{node, entry, last};
ghost use Rattle.mst_arena.specs.Lives.{State, free_count};
ghost use Rattle.mst_arena.specs.Lists.{times};
ghost use Rattle.mst_arena.specs.Standing.{tree_of, used};
ghost use Rattle.mst_arena.specs.Limits.{highest_layer};
ghost use Rattle.mst_change.specs.Split.{below, above};
ghost use Rattle.mst_change.specs.Cost.{split_rows};
ghost use Rattle.mst_path.specs.Takes.{RowsAreWritable, StaysBeside};
ghost use Rattle.mst_path.specs.Making.{Grown};
ghost use Rattle.mst_path.specs.Frames.{Framed, in_frame};
ghost use Rattle.mst_path.specs.Joining.{MetTrees, in_both, height};
ghost use Rattle.mst_path.specs.RemovePath.{SearchTree};
ghost use Rattle.mst_path.specs.Splitting.{ToSplit};
ghost use Rattle.mst_path.specs.PutPath.{TwoStand, in_two, tree_with, with_rows, RisingTree, in_rising, with_pair, pair_rows, IsPutStep};

use crate::copying::root_at;
use crate::frames::{Frame, close, kill_both};
use crate::joining::Meeting;
use crate::making::{NodeParts, make_node_with, no_run};
use crate::remove_path::{TopStep, top_step};
use crate::split::split;
use mst_arena::{Desk, Root, Rows, Sought};
use mst_key::{Format, Key, Value};
use std::alloc::Allocator;

/// What becomes of a node into whose tree a pair is put.
#[derive(Clone, Copy)]
pub(crate) enum PutStep {
    /// All keys of the tree are of lower layers than the new one: it is split.
    OnTop,
    /// The key falls into a gap of a node of a higher layer: the pair is put into the tree there.
    Down { child: u32, frame: Frame },
    /// The key falls into a gap of a node of its layer: the tree there is split.
    Between { child: u32, frame: Frame },
    /// The node has the key's entry: it is written anew.
    Anew { meeting: Meeting },
}

/// Whether all keys of a tree are of lower layers than this one.
fn is_lower<R: Rows>(rows: &mut R, link: u32, layer: u8) -> bool
    requires tree { (format : Format) × (s : State) × SearchTree format
        (R.content rows.old) s link }
    ensures lower { result ≡ true → (format : Format) (s : State)
        (t : SearchTree format (R.content rows.old) s link)
        → height (tree_of format t.placed) ≤ layer }
    ensures higher { result ≡ false → (format : Format) (s : State)
        (t : SearchTree format (R.content rows.old) s link)
        → layer < height (tree_of format t.placed) }
    ensures same { rows.new ≡ rows.old }
{
    if link == 0 {
        return true;
    }
    rows.head(link - 1).layer < layer
}

/// What becomes of the top node of a tree into which a key of this layer is put.
pub(crate) fn put_step<R: Rows>(rows: &mut R, link: u32, layer: u8, key: &Sought) -> PutStep
    requires tree { (format : Format) × (s : State) × RisingTree format (R.content rows.old) s link
        × (layer ≡ layer_in format key.now) }
    ensures step { (format : Format) (s : State) (t : RisingTree format (R.content rows.old) s link)
        → layer ≡ layer_in format key.now
        → IsPutStep format (R.content rows.old) s link t layer key.now result }
    ensures same { rows.new ≡ rows.old }
{
    if is_lower(rows, link, layer) {
        return PutStep::OnTop;
    }
    match top_step(rows, link, key) {
        TopStep::Down { child, frame } => {
            if frame.layer == layer {
                PutStep::Between { child, frame }
            } else {
                PutStep::Down { child, frame }
            }
        }
        TopStep::Here { meeting } => PutStep::Anew { meeting },
    }
}

/// Makes a node of one entry between two trees.
fn put_between<R: Rows, A: Allocator>(
    rows: &mut R,
    desk: &mut Desk<A>,
    layer: u8,
    lower: &Root,
    upper: &Root,
    key: &Key,
    value: &Value,
    format: Format,
) -> Root
    requires trees { TwoStand format (R.content rows.old) desk.old lower.now upper.now }
    requires low { layer ≤ highest_layer }
    requires room { 2 ≤ free_count desk.old.lives }
    requires ready { RowsAreWritable desk.old.lives (R.blank rows.old) }
    ensures made { (t : TwoStand format (R.content rows.old) desk.old lower.now upper.now)
        → Grown format (R.content rows.old) (R.content rows.new) desk.old desk.new
        (node format layer
        (entry (tree_of format t.lower) key.now value.now (last (tree_of format t.upper)))) result
        (in_two format t) 2 }
    ensures beside { StaysBeside R.blank R.kept rows.old rows.new }
{
    let parts = NodeParts {
        layer,
        front: no_run(),
        seam: *upper,
        back: no_run(),
        tail: 0,
    };
    make_node_with(rows, desk, None, &parts, None, lower, key, value, format)
}

/// Puts a new pair on top of a tree whose keys are all of lower layers: the tree is split, and the
/// pair stands between its sides.
fn put_on_top<R: Rows, A: Allocator>(
    rows: &mut R,
    desk: &mut Desk<A>,
    link: u32,
    layer: u8,
    key: &Sought,
    value: &Value,
    format: Format,
) -> Root
    requires tree { (t : ToSplit format (R.content rows.old) desk.old link key.now)
        × (2 + split_rows key.now (tree_of format t.tree.placed) ≤ free_count desk.old.lives) }
    requires low { layer ≤ highest_layer }
    requires ready { RowsAreWritable desk.old.lives (R.blank rows.old) }
    ensures made { (t : ToSplit format (R.content rows.old) desk.old link key.now)
        → Grown format (R.content rows.old) (R.content rows.new) desk.old desk.new
        (node format layer
        (entry (below key.now (tree_of format t.tree.placed)) key.now value.now
        (last (above key.now (tree_of format t.tree.placed))))) result
        (λ x. times x (used t.tree.placed)) (2 + split_rows key.now
        (tree_of format t.tree.placed)) }
    ensures beside { StaysBeside R.blank R.kept rows.old rows.new }
{
    let (lower, upper) = split(rows, desk, link, key, format);
    put_between(rows, desk, layer, &lower, &upper, key.key(), value, format)
}

/// Makes the node of the frame with a new entry in its gap, between two trees. The rows that the
/// frame names die.
fn close_with<R: Rows, A: Allocator>(
    rows: &mut R,
    desk: &mut Desk<A>,
    frame: &Frame,
    lower: &Root,
    upper: &Root,
    key: &Key,
    value: &Value,
    format: Format,
) -> Root
    requires frame { (t : TwoStand format (R.content rows.old) desk.old lower.now upper.now)
        × Framed format (R.content rows.old) desk.old frame.now (in_two format t) }
    requires low { frame.now.layer ≤ highest_layer }
    requires room { with_rows frame.now ≤ free_count desk.old.lives }
    requires ready { RowsAreWritable desk.old.lives (R.blank rows.old) }
    ensures made { (t : TwoStand format (R.content rows.old) desk.old lower.now upper.now)
        (f : Framed format (R.content rows.old) desk.old frame.now (in_two format t))
        → Grown format (R.content rows.old) (R.content rows.new) desk.old desk.new
        (tree_with format f key.now value.now (tree_of format t.lower)
        (tree_of format t.upper)) result
        (λ x. in_two format t x + in_frame format f x) (with_rows frame.now) }
    ensures beside { StaysBeside R.blank R.kept rows.old rows.new }
{
    let parts = NodeParts {
        layer: frame.layer,
        front: frame.front,
        seam: *upper,
        back: frame.back,
        tail: frame.tail,
    };
    let root = make_node_with(
        rows,
        desk,
        Some(frame.head),
        &parts,
        frame.other,
        lower,
        key,
        value,
        format,
    );
    kill_both(desk, frame.head, frame.other);
    root
}

/// Puts a new pair into a gap of a node of its layer: the tree there is split, and the pair stands
/// between its sides.
fn put_level<R: Rows, A: Allocator>(
    rows: &mut R,
    desk: &mut Desk<A>,
    child: u32,
    frame: &Frame,
    key: &Sought,
    value: &Value,
    format: Format,
) -> Root
    requires gap { (t : ToSplit format (R.content rows.old) desk.old child key.now)
        × Framed format (R.content rows.old) desk.old frame.now (λ x. times x (used t.tree.placed))
        × (split_rows key.now (tree_of format t.tree.placed) + with_rows frame.now
        ≤ free_count desk.old.lives) }
    requires low { frame.now.layer ≤ highest_layer }
    requires ready { RowsAreWritable desk.old.lives (R.blank rows.old) }
    ensures made { (t : ToSplit format (R.content rows.old) desk.old child key.now)
        (f : Framed format (R.content rows.old) desk.old frame.now (λ x. times x
        (used t.tree.placed)))
        → Grown format (R.content rows.old) (R.content rows.new) desk.old desk.new
        (tree_with format f key.now value.now (below key.now (tree_of format t.tree.placed))
        (above key.now (tree_of format t.tree.placed))) result
        (λ x. times x (used t.tree.placed) + in_frame format f x)
        (split_rows key.now (tree_of format t.tree.placed) + with_rows frame.now) }
    ensures beside { StaysBeside R.blank R.kept rows.old rows.new }
{
    let (lower, upper) = split(rows, desk, child, key, format);
    close_with(rows, desk, frame, &lower, &upper, key.key(), value, format)
}

/// Writes the entry of a key anew, with another value.
fn put_value<R: Rows, A: Allocator>(
    rows: &mut R,
    desk: &mut Desk<A>,
    meeting: &Meeting,
    key: &Key,
    value: &Value,
    format: Format,
) -> Root
    requires met { (t : MetTrees format (R.content rows.old) desk.old meeting.now)
        × Framed format (R.content rows.old) desk.old meeting.now.frame (in_both format t) }
    requires room { with_rows meeting.now.frame ≤ free_count desk.old.lives }
    requires low { meeting.now.frame.layer ≤ highest_layer }
    requires ready { RowsAreWritable desk.old.lives (R.blank rows.old) }
    ensures made { (t : MetTrees format (R.content rows.old) desk.old meeting.now)
        (f : Framed format (R.content rows.old) desk.old meeting.now.frame (in_both format t))
        → Grown format (R.content rows.old) (R.content rows.new) desk.old desk.new
        (tree_with format f key.now value.now (tree_of format t.a) (tree_of format t.b)) result
        (λ x. in_both format t x + in_frame format f x) (with_rows meeting.now.frame) }
    ensures beside { StaysBeside R.blank R.kept rows.old rows.new }
{
    let lower = root_at(rows, meeting.left);
    let upper = root_at(rows, meeting.right);
    close_with(
        rows,
        desk,
        &meeting.frame,
        &lower,
        &upper,
        key,
        value,
        format,
    )
}

/// Puts a pair, whose key is of this layer, into the tree at a link. The nodes along the path to
/// its place, and along the path of the split below it, are made anew; their rows die, and
/// everything beside that path is shared.
pub(crate) fn put_at<R: Rows, A: Allocator>(
    rows: &mut R,
    desk: &mut Desk<A>,
    link: u32,
    layer: u8,
    key: &Sought,
    value: &Value,
    format: Format,
) -> Root
    requires tree { (t : RisingTree format (R.content rows.old) desk.old link)
        × (pair_rows format t layer key.now value.now ≤ free_count desk.old.lives) }
    requires layer { layer ≡ layer_in format key.now }
    requires low { layer ≤ highest_layer }
    requires ready { RowsAreWritable desk.old.lives (R.blank rows.old) }
    ensures put { (t : RisingTree format (R.content rows.old) desk.old link)
        → Grown format (R.content rows.old) (R.content rows.new) desk.old desk.new
        (with_pair format t layer key.now value.now) result (in_rising format t)
        (pair_rows format t layer key.now value.now) }
    ensures beside { StaysBeside R.blank R.kept rows.old rows.new }
{
    match put_step(rows, link, layer, key) {
        PutStep::OnTop => put_on_top(rows, desk, link, layer, key, value, format),
        PutStep::Down { child, frame } => {
            let seam = put_at(rows, desk, child, layer, key, value, format);
            close(rows, desk, &frame, &seam, format)
        }
        PutStep::Between { child, frame } => put_level(
            rows, desk, child, &frame, key, value, format,
        ),
        PutStep::Anew { meeting } => put_value(rows, desk, &meeting, key.key(), value, format),
    }
}
