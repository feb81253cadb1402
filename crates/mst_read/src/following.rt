//! The pair of the least key above a bound.
ghost use Rattle.std.specs.Prelude.{◌≡◌, List, Some};
ghost use Rattle.std.specs.Option.{option_copied};
ghost use Rattle.mst_key.specs.declared.format.Format.{Format};
ghost use Rattle.mst_key.specs.Map.{Pair, map_next};
ghost use Rattle.mst_arena.specs.Row.{IsHead};
ghost use Rattle.mst_arena.specs.Standing.{Chain, Stands};
ghost use Rattle.mst_read.specs.Search.{ChainLies, LiesBehind, LinkStands, MapStands, StandsBelow, entry_above};

use crate::descent::head_at;
use mst_arena::{HeadLinks, Root, Rows, Sought, Stop};
use mst_key::{Key, Value};

/// The bound to be sought.
pub(crate) fn sought(bound: Option<&Key>) -> Option<Sought>
    ensures { result ≡ option_copied bound.entry }
{
    match bound {
        Some(bound) => Some(Sought::new(bound)),
        None => None,
    }
}

/// The row of the first entry of a node whose key is above the bound, and the link of its child. A
/// key that is passed by is not made into bytes.
fn first_above<R: Rows>(rows: &mut R, head: &HeadLinks, bound: &Sought) -> Option<(u32, u32)>
    requires lies { ChainLies (R.content rows.old) head.now }
    ensures first { (f : Format) (c : Chain) → LiesBehind f (R.content rows.old) head.now c
        → result ≡ entry_above (Some bound.now) c }
    ensures same { rows.new ≡ rows.old }
{
    let mut first = head.first;
    let mut count = head.count;
    while count > 0 {
        match rows.search(first, count, bound) {
            Stop::Gap { link, child, .. } => return Some((link - 1, child)),
            Stop::Found { link, left } => {
                first = rows.links(link - 1).next;
                count = left - 1;
            }
            Stop::End => return None,
        }
    }
    None
}

/// The same by an optional bound; `None` does not bind.
fn first_entry<R: Rows>(
    rows: &mut R,
    head: &HeadLinks,
    bound: &Option<Sought>,
) -> Option<(u32, u32)>
    requires lies { ChainLies (R.content rows.old) head.now }
    requires limits { IsHead head.now }
    ensures first { (f : Format) (c : Chain) → LiesBehind f (R.content rows.old) head.now c
        → result ≡ entry_above bound.now c }
    ensures same { rows.new ≡ rows.old }
{
    match bound {
        Some(bound) => first_above(rows, head, bound),
        None => {
            let row = head.first - 1;
            Some((row, rows.links(row).child))
        }
    }
}

/// The pair of the least key above the bound, in the map that stands at the link; without a bound,
/// the pair of the least key. Returns `None` if no key is above the bound.
///
/// It reads the head of each node on the way to the place just above the bound, at most 129, and of
/// the entries of these nodes those with keys up to the first that is above the bound; and at the
/// end the key and the value of the pair, once.
pub fn next_below<R: Rows>(rows: &mut R, link: u32, after: Option<&Key>) -> Option<(Key, Value)>
    requires stands { LinkStands (R.content rows.old) link }
    ensures found { (f : Format) (m : List Pair) → StandsBelow f (R.content rows.old) link m
        → result ≡ map_next m (option_copied after.entry) }
    ensures same { rows.new ≡ rows.old }
{
    let bound = sought(after);
    // the row of the answer, if the tree at hand has none: that of the entry right of its gap
    let mut right = None;
    let mut top = head_at(rows, link);
    while let Some(head) = top {
        match first_entry(rows, &head, &bound) {
            Some((row, child)) => {
                top = head_at(rows, child);
                right = Some(row);
            }
            None => top = head_at(rows, head.tail),
        }
    }
    let row = right?;
    Some(rows.pair(row))
}

/// The pair of the least key above the bound, in the map that stands at the root, as [`next_below`]
/// has it at a link.
pub fn next<R: Rows>(rows: &mut R, root: &Root, after: Option<&Key>) -> Option<(Key, Value)>
    requires stands { MapStands (R.content rows.old) root.now }
    ensures found { (f : Format) (m : List Pair) → Stands f (R.content rows.old) root.now m
        → result ≡ map_next m (option_copied after.entry) }
    ensures same { rows.new ≡ rows.old }
{
    next_below(rows, root.link, after)
}
