//! Entries of a node, copied into a node that is being written.
ghost use Rattle.std.specs.Prelude.{◌≡◌, ◌≤◌, ◌<◌, ◌+◌, ℕ, List, [], ◌∷◌, ◌++◌, Some, IsSome};
ghost use Rattle.mst_key.specs.Map.{Pair};
ghost use Rattle.mst_key.specs.declared.format.Format.{Format};
ghost use Rattle.mst_arena.specs.Limits.{highest_link};
ghost use Rattle.mst_arena.specs.Lives.{free_count};
ghost use Rattle.mst_arena.specs.Content.{part_at};
ghost use Rattle.mst_arena.specs.Row.{keyed_links, entry_pair};
ghost use Rattle.mst_arena.specs.Standing.{Placed, link_of, rows_of, used, HasRows};
ghost use Rattle.mst_path.specs.Takes.{IsOut, KeepsBut, FewRows, RowsAreWritable, StaysBeside};
ghost use Rattle.mst_path.specs.Writing.{PlacedEntry, entries_used, IsRootOf, ahead, IsNextBlank, IsWriter, IsWritten};
ghost use Rattle.mst_path.specs.Moves.{IsOld, Moves};
ghost use Rattle.mst_path.specs.Copying.{Copying, Copied};

use crate::node_writer::NodeWriter;
use mst_arena::{Desk, Root, Rows};
use mst_node::empty_digest;
use std::alloc::Allocator;

/// Where the tree at a link stands, and its digest. It reads one row.
pub fn root_at<R: Rows>(rows: &mut R, link: u32) -> Root
    requires stands { (format : Format) × (p : Placed) × (link_of p ≡ link)
        × HasRows (R.content rows.old) (rows_of format p) }
    ensures root { (format : Format) (p : Placed) → link_of p ≡ link
        → HasRows (R.content rows.old) (rows_of format p) → IsRootOf format p result }
    ensures same { rows.new ≡ rows.old }
{
    if link == 0 {
        return Root {
            link,
            digest: empty_digest(),
        };
    }
    Root {
        link,
        digest: rows.digest(link - 1),
    }
}

/// Moves the entry in a row into the node, with a tree in the gap before it: it is copied, and the
/// row dies.
#[inline(always)]
pub(crate) fn move_entry<R: Rows, A: Allocator>(
    rows: &mut R,
    desk: &mut Desk<A>,
    writer: &mut NodeWriter<A>,
    row: u32,
    child: &Root,
)
    requires writer { IsWriter writer.old }
    requires some { 0 < writer.old.left }
    requires room { 1 < writer.old.left → 0 < free_count desk.old.lives }
    requires few { FewRows desk.old.lives }
    requires blank { IsNextBlank writer.old.next (R.blank rows.old) }
    requires child { child.now.link ≤ highest_link }
    requires entry { IsSome (part_at keyed_links (R.content rows.old) row) }
    requires old { IsOld desk.old row }
    ensures writer { IsWriter writer.new }
    ensures written { (format : Format) (es : List PlacedEntry) (p : Placed) (r : ℕ) (pair : Pair)
        → writer.old.next ≡ Some r → part_at entry_pair (R.content rows.old) row ≡ Some pair
        → IsWritten format writer.old (R.content rows.old) es → IsRootOf format p child.now
        → HasRows (R.content rows.old) (rows_of format p) → IsOut r (entries_used es ++ used p)
        → IsWritten format writer.new (R.content rows.new)
        (es ++ record { at = r; child = p; key = pair.0; value = pair.1 } ∷ []) }
    ensures node { (writer.new.layer ≡ writer.old.layer) × (writer.new.count ≡ writer.old.count)
        × (writer.new.left + 1 ≡ writer.old.left) × (writer.new.head ≡ writer.old.head) }
    ensures moves { Moves desk.old desk.new (ahead writer.new.next) (row ∷ []) }
    ensures keeps { KeepsBut (ahead writer.old.next) (R.content rows.old) (R.content rows.new) }
    ensures beside { StaysBeside R.blank R.kept rows.old rows.new }
{
    writer.copy(rows, desk, child, row);
    desk.kill(row);
}

/// Moves so many entries from a link on into the node, each with the tree in the gap before it.
/// Returns the link after them.
pub(crate) fn move_run<R: Rows, A: Allocator>(
    rows: &mut R,
    desk: &mut Desk<A>,
    writer: &mut NodeWriter<A>,
    from: u32,
    count: u32,
) -> u32
    requires copying { (format : Format)
        × Copying format writer.old (R.content rows.old) desk.old from count }
    requires writer { IsWriter writer.old }
    requires left { count ≤ writer.old.left }
    requires room { writer.old.left ≤ free_count desk.old.lives + 1 }
    requires ready { RowsAreWritable desk.old.lives (R.blank rows.old) }
    requires blank { IsNextBlank writer.old.next (R.blank rows.old) }
    ensures writer { IsWriter writer.new }
    ensures copied { (format : Format)
        (k : Copying format writer.old (R.content rows.old) desk.old from count)
        → (result ≡ k.behind)
        × Copied format writer.old writer.new (R.content rows.old)
        (R.content rows.new) desk.old desk.new k.ws k.es }
    ensures node { (writer.new.layer ≡ writer.old.layer) × (writer.new.count ≡ writer.old.count)
        × (writer.new.left + count ≡ writer.old.left) × (writer.new.head ≡ writer.old.head) }
    ensures beside { StaysBeside R.blank R.kept rows.old rows.new }
    ensures next { IsNextBlank writer.new.next (R.blank rows.new) }
{
    let mut link = from;
    for _ in 0..count {
        let row = link - 1;
        let links = rows.links(row);
        let child = root_at(rows, links.child);
        move_entry(rows, desk, writer, row, &child);
        link = links.next;
    }
    link
}
