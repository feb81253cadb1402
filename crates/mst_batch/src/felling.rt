//! A tree that stands, given up but for the nodes of it that are kept.
ghost use Rattle.std.specs.Prelude.{◌≡◌, []};
ghost use Rattle.mst_path.specs.Felling.{ToFell};
ghost use Rattle.mst_path.specs.Moves.{Moves};
ghost use Rattle.mst_batch.specs.Kept.{stays, fallen};

use mst_arena::{Desk, Rows};
use std::alloc::Allocator;

/// Whether nothing falls at a link: it is none, or the node there is kept.
fn is_left(kept: &[bool], link: u32) -> bool
    ensures left { result ≡ stays kept.now link }
{
    if link == 0 {
        return true;
    }
    kept.get(link as usize - 1).copied().unwrap_or(false)
}

/// Lets the rows of the tree at a link die, but for those of kept nodes and of all below them:
/// exactly the rows that stand for its other nodes die with the version to come.
///
/// A node is kept, with all below it, if `kept` has a mark at the row of its head; a row past the
/// end of `kept` has none. The rows were born with the current version or an earlier one, and are
/// not dead. Nothing is written, no memory is taken, and calls nest no deeper than the layers. Each
/// row that dies is read once, and no other.
pub(crate) fn fell_at<R: Rows, A: Allocator>(
    rows: &mut R,
    desk: &mut Desk<A>,
    link: u32,
    kept: &[bool],
)
    requires tree { ToFell (R.content rows.old) desk.old link }
    ensures fells { (t : ToFell (R.content rows.old) desk.old link)
        → Moves desk.old desk.new [] (fallen kept.now t.placed) }
    ensures same { rows.new ≡ rows.old }
{
    if is_left(kept, link) {
        return;
    }
    let head = rows.head(link - 1);
    desk.kill(link - 1);
    let mut next = head.first;
    for _ in 0..head.count {
        let links = rows.links(next - 1);
        desk.kill(next - 1);
        fell_at(rows, desk, links.child, kept);
        next = links.next;
    }
    fell_at(rows, desk, head.tail, kept);
}
