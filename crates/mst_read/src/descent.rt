//! One step down a tree.
ghost use Rattle.std.specs.Prelude.{◌≡◌, IfSome};
ghost use Rattle.mst_key.specs.declared.format.Format.{Format};
ghost use Rattle.mst_arena.specs.Row.{IsHead};
ghost use Rattle.mst_arena.specs.Standing.{Placed};
ghost use Rattle.mst_read.specs.Search.{Lies, TreeLies, head_of};

use mst_arena::{HeadLinks, Rows};

/// The head of the tree at the link, or `None` for the empty tree, for which no row is read.
pub fn head_at<R: Rows>(rows: &mut R, link: u32) -> Option<HeadLinks>
    requires lies { TreeLies (R.content rows.old) link }
    ensures head { (f : Format) (p : Placed) → Lies f (R.content rows.old) link p
        → result ≡ head_of p }
    ensures limits { IfSome result IsHead }
    ensures same { rows.new ≡ rows.old }
{
    if link == 0 {
        return None;
    }
    Some(rows.head(link - 1))
}
