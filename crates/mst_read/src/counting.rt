//! How many pairs a map has.
ghost use Rattle.std.specs.Prelude.{◌≡◌, ◌<◌, ◌^◌, List, length};
ghost use Rattle.mst_key.specs.declared.format.Format.{Format};
ghost use Rattle.mst_key.specs.Map.{Pair};
ghost use Rattle.mst_node.specs.Tree.{entries_pairs};
ghost use Rattle.mst_arena.specs.Standing.{Chain, Stands, entries_of};
ghost use Rattle.mst_read.specs.Search.{LinkStands, MapStands, StandsBelow};
ghost use Rattle.mst_read.specs.Span.{PartStands};

use crate::descent::head_at;
use mst_arena::{HeadLinks, Root, Rows};

/// How many pairs a node has, with those of the trees in its gaps, if they are fewer than 2^64. No
/// gap of a node of layer 0 has a tree: of such a node no entry is read.
fn len_of_node<R: Rows>(rows: &mut R, node: &HeadLinks) -> u64
    requires stands { (f : Format) × (c : Chain) × PartStands f (R.content rows.old) node.now c }
    ensures len { (f : Format) (c : Chain) → PartStands f (R.content rows.old) node.now c
        → length (entries_pairs (entries_of f c)) < 2 ^ 64
        → result ≡ length (entries_pairs (entries_of f c)) }
    ensures same { rows.new ≡ rows.old }
{
    if node.layer == 0 {
        return u64::from(node.count);
    }
    let mut len: u64 = 0;
    let mut link = node.first;
    for _ in 0..node.count {
        let links = rows.links(link - 1);
        if let Some(gap) = head_at(rows, links.child) {
            len = len.wrapping_add(len_of_node(rows, &gap));
        }
        len = len.wrapping_add(1);
        link = links.next;
    }
    match head_at(rows, node.tail) {
        Some(gap) => len.wrapping_add(len_of_node(rows, &gap)),
        None => len,
    }
}

/// How many pairs the map that stands at the link has, if they are fewer than 2^64.
///
/// It reads the head of each node, and the links of the entries above the lowest layer.
pub fn len_below<R: Rows>(rows: &mut R, link: u32) -> u64
    requires stands { LinkStands (R.content rows.old) link }
    ensures len { (f : Format) (m : List Pair) → StandsBelow f (R.content rows.old) link m
        → length m < 2 ^ 64 → result ≡ length m }
    ensures same { rows.new ≡ rows.old }
{
    match head_at(rows, link) {
        Some(top) => len_of_node(rows, &top),
        None => 0,
    }
}

/// How many pairs the map that stands at the root has, as [`len_below`] has it at a link.
pub fn len<R: Rows>(rows: &mut R, root: &Root) -> u64
    requires stands { MapStands (R.content rows.old) root.now }
    ensures len { (f : Format) (m : List Pair) → Stands f (R.content rows.old) root.now m
        → length m < 2 ^ 64 → result ≡ length m }
    ensures same { rows.new ≡ rows.old }
{
    len_below(rows, root.link)
}
