//! The value of a key in a tree that stands.
ghost use Rattle.std.specs.Prelude.{◌≡◌, ◌<◌};
ghost use Rattle.mst_key.specs.Map.{IsAscending, map_get};
ghost use Rattle.mst_key.specs.declared.format.Format.{Format};
ghost use Rattle.mst_node.specs.Tree.{pairs};
ghost use Rattle.mst_arena.specs.Lives.{State};
ghost use Rattle.mst_arena.specs.Standing.{tree_of};
ghost use Rattle.mst_path.specs.RemovePath.{SearchTree};

use crate::cut::{Cut, cut_at};
use mst_arena::{Rows, Sought};
use mst_key::Value;

/// The value of a key in the tree at a link. It reads only along the path to the key.
pub(crate) fn find<R: Rows>(rows: &mut R, link: u32, key: &Sought) -> Option<Value>
    requires tree { (format : Format) × (s : State) × (t : SearchTree format
        (R.content rows.old) s link)
        × IsAscending (pairs (tree_of format t.placed)) }
    ensures found { (format : Format) (s : State) (t : SearchTree format
        (R.content rows.old) s link)
        → IsAscending (pairs (tree_of format t.placed))
        → result ≡ map_get (pairs (tree_of format t.placed)) key.now }
    ensures same { rows.new ≡ rows.old }
{
    if link == 0 {
        return None;
    }
    let head = rows.head(link - 1);
    match cut_at(rows, &head, key) {
        Cut::Gap { child, .. } => find(rows, child, key),
        Cut::Found { row, .. } => Some(rows.value(row)),
    }
}
