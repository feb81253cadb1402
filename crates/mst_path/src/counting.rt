//! How many rows a put takes, counted along its path before anything is written.
ghost use Rattle.std.specs.Prelude.{◌≡◌, ◌≤◌, ◌<◌, ◌+◌, ◌*◌, ◌==◌, ◌&&◌, ◌||◌, ℕ, List, length, ◌^◌};
ghost use Rattle.std.specs.Bool.{MatchBool};
ghost use Rattle.mst_key.specs.declared.format.Format.{Format};
ghost use Rattle.mst_key.specs.Layer.{layer_in};
ghost use Rattle.mst_arena.specs.Lives.{State, free_count};
ghost use Rattle.mst_arena.specs.Standing.{tree_of};
ghost use Rattle.mst_change.specs.Split.{below, above};
ghost use Rattle.mst_change.specs.Parts.{is_empty};
ghost use Rattle.mst_change.specs.Cost.{side_rows, split_rows};
ghost use Rattle.mst_path.specs.Splitting.{ToSplit};
ghost use Rattle.mst_path.specs.Takes.{FewRows};
ghost use Rattle.mst_path.specs.PutPath.{RisingTree, pair_rows, with_rows};

use crate::frames::Frame;
use crate::put_path::{PutStep, put_step};
use crate::remove_path::{TopStep, top_step};
use mst_arena::{Desk, Rows, Sought};
use std::alloc::Allocator;

/// What a split of a tree makes.
#[derive(Clone, Copy)]
pub(crate) struct SplitCost {
    /// How many rows it takes.
    pub(crate) rows: u32,
    /// Whether nothing is below the key.
    pub(crate) none_below: bool,
    /// Whether nothing is above the key.
    pub(crate) none_above: bool,
}

/// Whether one side of a node that is split is no tree: it has no entry, and no tree in the gap.
fn is_no_side(count: u32, none_inside: bool) -> bool
    ensures none { result ≡ ((count == 0) && none_inside) }
{
    count == 0 && none_inside
}

/// Whether one side of a node that is split is no new node: it has no entry, or is the whole node.
fn is_no_node(count: u32, whole: bool) -> bool
    ensures none { result ≡ ((count == 0) || whole) }
{
    count == 0 || whole
}

/// How many rows one side of a node that is split takes.
fn side_cost(count: u32, whole: bool) -> u32
    requires few { side_rows count whole < 2 ^ 32 }
    ensures rows { result ≡ side_rows count whole }
{
    if is_no_node(count, whole) {
        0
    } else {
        count + 1
    }
}

/// How many rows a node of the frame with a new entry takes.
fn rows_with_entry(frame: &Frame) -> u32
    requires few { with_rows frame.now < 2 ^ 32 }
    ensures rows { result ≡ with_rows frame.now }
{
    frame.front.count + frame.back.count + 2
}

/// How many rows a split takes. It reads only along its path.
pub(crate) fn split_cost<R: Rows>(rows: &mut R, link: u32, key: &Sought) -> SplitCost
    requires tree { (format : Format) × (s : State)
        × (t : ToSplit format (R.content rows.old) s link key.now)
        × (split_rows key.now (tree_of format t.tree.placed) < 2 ^ 32) }
    ensures rows { (format : Format) (s : State) (t : ToSplit format
        (R.content rows.old) s link key.now)
        → result.rows ≡ split_rows key.now (tree_of format t.tree.placed) }
    ensures below { (format : Format) (s : State) (t : ToSplit format
        (R.content rows.old) s link key.now)
        → result.none_below ≡ is_empty (below key.now (tree_of format t.tree.placed)) }
    ensures above { (format : Format) (s : State) (t : ToSplit format
        (R.content rows.old) s link key.now)
        → result.none_above ≡ is_empty (above key.now (tree_of format t.tree.placed)) }
    ensures same { rows.new ≡ rows.old }
{
    if link == 0 {
        return SplitCost {
            rows: 0,
            none_below: true,
            none_above: true,
        };
    }
    let TopStep::Down { child, frame } = top_step(rows, link, key) else {
        unreachable!()
    };
    let inner = split_cost(rows, child, key);
    let none_below = is_no_side(frame.front.count, inner.none_below);
    let none_above = is_no_side(frame.back.count, inner.none_above);
    let lower = side_cost(frame.front.count, none_above);
    let upper = side_cost(frame.back.count, none_below);
    SplitCost {
        rows: lower + upper + inner.rows,
        none_below,
        none_above,
    }
}

/// How many rows a put of a key that has this layer takes, if the value is not the one that the key
/// has. It reads only along its path.
pub(crate) fn put_cost<R: Rows>(rows: &mut R, link: u32, layer: u8, key: &Sought) -> u32
    requires tree { (format : Format) × (s : State)
        × (t : RisingTree format (R.content rows.old) s link) × (v : List ℕ)
        × (pair_rows format t layer key.now v < 2 ^ 32) × (layer ≡ layer_in format key.now) }
    ensures cost { (format : Format) (s : State) (t : RisingTree format (R.content rows.old) s link)
        (v : List ℕ) → layer ≡ layer_in format key.now
        → result ≡ pair_rows format t layer key.now v }
    ensures same { rows.new ≡ rows.old }
{
    match put_step(rows, link, layer, key) {
        PutStep::OnTop => split_cost(rows, link, key).rows + 2,
        PutStep::Down { child, frame } => {
            let inner = put_cost(rows, child, layer, key);
            inner + frame.rows()
        }
        PutStep::Between { child, frame } => {
            let split = split_cost(rows, child, key);
            split.rows + rows_with_entry(&frame)
        }
        PutStep::Anew { meeting } => rows_with_entry(&meeting.frame),
    }
}

/// Whether as many rows are free as a put takes of a key that has this layer, if the value is not
/// the one that the key has.
///
/// A put takes at most two rows, and twice those of the tree, of which none is free. So if the
/// others are few enough, its rows are not counted.
pub(crate) fn put_fits<R: Rows, A: Allocator>(
    rows: &mut R,
    desk: &Desk<A>,
    link: u32,
    layer: u8,
    key: &Sought,
) -> bool
    requires tree { (format : Format) × (s : State)
        × (t : RisingTree format (R.content rows.old) s link) × (v : List ℕ)
        × (pair_rows format t layer key.now v ≤ 2 * length desk.now.lives + 2)
        × (layer ≡ layer_in format key.now) }
    ensures fits { (format : Format) (s : State) (t : RisingTree format (R.content rows.old) s link)
        (v : List ℕ) → layer ≡ layer_in format key.now
        → pair_rows format t layer key.now v + 2 * free_count desk.now.lives
        ≤ 2 * length desk.now.lives + 2
        → MatchBool result (pair_rows format t layer key.now v ≤ free_count desk.now.lives)
        (free_count desk.now.lives < pair_rows format t layer key.now v) }
    ensures few { FewRows desk.now.lives }
    ensures same { rows.new ≡ rows.old }
{
    let free = desk.free();
    let others = desk.rows().saturating_sub(free);
    if 2 * others + 2 <= free {
        true
    } else {
        put_cost(rows, link, layer, key) <= free
    }
}
