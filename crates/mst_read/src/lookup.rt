//! The value of a key.
ghost use Rattle.std.specs.Prelude.{◌≡◌, List};
ghost use Rattle.mst_key.specs.declared.format.Format.{Format};
ghost use Rattle.mst_key.specs.Map.{Pair, map_get};
ghost use Rattle.mst_arena.specs.Standing.{Chain, Stands};
ghost use Rattle.mst_read.specs.Search.{ChainLies, LiesBehind, LinkStands, MapStands, StandsBelow, place};

use crate::descent::head_at;
use mst_arena::{HeadLinks, Root, Rows, Sought, Stop};
use mst_key::{Key, Value};

/// Where a search in a node ends.
#[derive(Clone, Copy)]
pub enum RowPlace {
    /// The row of the entry that has the key.
    Found(u32),
    /// The link of the tree in the gap in which the key would lie.
    Gap(u32),
}

/// Searches the entries of a node, from the least key on.
#[inline(always)]
pub fn seek<R: Rows>(rows: &mut R, head: &HeadLinks, key: &Sought) -> RowPlace
    requires lies { ChainLies (R.content rows.old) head.now }
    ensures place { (f : Format) (c : Chain) → LiesBehind f (R.content rows.old) head.now c
        → result ≡ place key.now c }
    ensures same { rows.new ≡ rows.old }
{
    match rows.search(head.first, head.count, key) {
        Stop::Gap { child, .. } => RowPlace::Gap(child),
        Stop::Found { link, .. } => RowPlace::Found(link - 1),
        Stop::End => RowPlace::Gap(head.tail),
    }
}

/// The value of the key in the map that stands at the link, or `None` if the map does not have the
/// key.
///
/// It reads the head of each node on the way to the key, at most 129, and of the entries of these
/// nodes those with keys up to the first that is not below the key; and at the end the key's value,
/// once.
pub fn get_below<R: Rows>(rows: &mut R, link: u32, key: &Key) -> Option<Value>
    requires stands { LinkStands (R.content rows.old) link }
    ensures found { (f : Format) (m : List Pair) → StandsBelow f (R.content rows.old) link m
        → result ≡ map_get m key.now }
    ensures same { rows.new ≡ rows.old }
{
    let sought = Sought::new(key);
    let mut top = head_at(rows, link);
    while let Some(head) = top {
        match seek(rows, &head, &sought) {
            RowPlace::Found(row) => return Some(rows.value(row)),
            RowPlace::Gap(link) => top = head_at(rows, link),
        }
    }
    None
}

/// The value of the key in the map that stands at the root, as [`get_below`] has it at a link.
pub fn get<R: Rows>(rows: &mut R, root: &Root, key: &Key) -> Option<Value>
    requires stands { MapStands (R.content rows.old) root.now }
    ensures found { (f : Format) (m : List Pair) → Stands f (R.content rows.old) root.now m
        → result ≡ map_get m key.now }
    ensures same { rows.new ≡ rows.old }
{
    get_below(rows, root.link, key)
}
