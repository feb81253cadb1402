//! A tree that stands, given up as a whole: all its rows die.
ghost use Rattle.std.specs.Prelude.{◌≡◌, List, []};
ghost use Rattle.mst_key.specs.Map.{Pair};
ghost use Rattle.mst_key.specs.declared.format.Format.{Format};
ghost use Rattle.mst_arena.specs.Standing.{Stands, used, numbers};
ghost use Rattle.mst_path.specs.Felling.{ToFell, MayFall};
ghost use Rattle.mst_path.specs.Moves.{Moves};

use mst_arena::{Desk, Root, Rows};
use std::alloc::Allocator;

/// Lets the rows of the tree at a link die: each head, then each entry before the tree that follows
/// it.
fn fell_at<R: Rows, A: Allocator>(rows: &mut R, desk: &mut Desk<A>, link: u32)
    requires tree { ToFell (R.content rows.old) desk.old link }
    ensures fells { (t : ToFell (R.content rows.old) desk.old link)
        → Moves desk.old desk.new [] (used t.placed) }
    ensures same { rows.new ≡ rows.old }
{
    if link == 0 {
        return;
    }
    let head = rows.head(link - 1);
    desk.kill(link - 1);
    let mut next = head.first;
    for _ in 0..head.count {
        let entry = rows.entry(next - 1);
        desk.kill(next - 1);
        fell_at(rows, desk, entry.child);
        next = entry.next;
    }
    fell_at(rows, desk, head.tail);
}

/// Lets the tree at a root die: exactly the rows that stand for it die with the version to come.
///
/// They were born with the current version or an earlier one, and are not dead. Nothing is written,
/// no memory is taken, and calls nest no deeper than the layers. Each row is read once.
pub fn fell<R: Rows, A: Allocator>(rows: &mut R, desk: &mut Desk<A>, root: &Root)
    requires stands { MayFall (R.content rows.old) desk.old root.now }
    ensures fells { (f : Format) (m : List Pair) (stands : Stands f (R.content rows.old) root.now m)
        → Moves desk.old desk.new [] (numbers stands) }
    ensures same { rows.new ≡ rows.old }
{
    fell_at(rows, desk, root.link);
}
