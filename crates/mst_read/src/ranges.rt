//! The pairs between two bounds.
ghost use Rattle.std.specs.Prelude.{◌≡◌, ◌≤◌, ◌<◌, ◌⊎◌, true, false, List, None, Some, length, vec_capacity, OnOk, IfOk, IsSome};
ghost use Rattle.std.specs.Option.{option_copied};
ghost use Rattle.mst_key.specs.declared.format.Format.{Format};
ghost use Rattle.mst_key.specs.Map.{Pair, below, map_range};
ghost use Rattle.mst_node.specs.Tree.{pairs, entries_pairs};
ghost use Rattle.mst_arena.specs.Content.{part_at};
ghost use Rattle.mst_arena.specs.Row.{keyed_links};
ghost use Rattle.mst_arena.specs.declared.row.KeyedLinks.{KeyedLinks};
ghost use Rattle.mst_arena.specs.Standing.{Placed, Chain, Stands, tree_of, entries_of, link_of};
ghost use Rattle.mst_read.specs.Search.{ChainLies, LiesBehind, LinkStands, MapStands, StandsBelow, chain_links, gap_placed};
ghost use Rattle.mst_read.specs.Span.{HeadStands, PartStands, filled, past_gap, rest_from};

use crate::descent::head_at;
use crate::following::sought;
use mst_arena::{HeadLinks, Root, Rows, Sought, Stop, Way};
use mst_key::{Key, Memory, Value};
use std::alloc::Allocator;

/// The greatest limit for which a range asks for room all at once.
const MOST_AT_ONCE: usize = 128;

/// Whether the key of the entry at a row is below the bound. `None` as a bound does not bind. The
/// key is not made into bytes.
fn is_below<R: Rows>(rows: &mut R, row: u32, bound: &Option<Sought>) -> bool
    requires there { IsSome (part_at keyed_links (R.content rows.old) row) }
    ensures below { (e : KeyedLinks) → part_at keyed_links (R.content rows.old) row ≡ Some e
        → result ≡ below bound.now e.key }
    ensures same { rows.new ≡ rows.old }
{
    match bound {
        Some(bound) => match rows.way(row, bound) {
            Way::Child(_) => false,
            Way::Here => false,
            Way::Next(_) => true,
        },
        None => true,
    }
}

/// The link of the tree in the gap in which a key would lie, or 0 if an entry of the node has the
/// key; and the part of the node from the first entry on whose key is not below it. A key that is
/// passed by is not made into bytes.
fn part_from<R: Rows>(rows: &mut R, head: &HeadLinks, from: &Sought) -> (u32, HeadLinks)
    requires lies { ChainLies (R.content rows.old) head.now }
    ensures part { (f : Format) (c : Chain) → LiesBehind f (R.content rows.old) head.now c
        → result ≡ (
          link_of (gap_placed from.now c),
          chain_links head.now.layer (rest_from from.now c),
        ) }
    ensures same { rows.new ≡ rows.old }
{
    match rows.search(head.first, head.count, from) {
        Stop::Gap { link, child, left } => (child, part_of(head, link, left)),
        Stop::Found { link, left } => (0, part_of(head, link, left)),
        Stop::End => (head.tail, part_of(head, 0, 0)),
    }
}

/// The part of a node of so many entries from the link on.
fn part_of(head: &HeadLinks, first: u32, count: u32) -> HeadLinks
    ensures { result ≡ record head.now { first = first; count = count } }
{
    HeadLinks {
        layer: head.layer,
        count,
        first,
        tail: head.tail,
    }
}

/// Whether the pair of the entry at a row is to be added after those that were found: they are
/// fewer than the limit, and its key is below the upper bound.
fn is_wanted<R: Rows, A: Allocator>(
    rows: &mut R,
    row: u32,
    to: &Option<Sought>,
    limit: usize,
    found: &Vec<(Key, Value), A>,
) -> bool
    requires there { IsSome (part_at keyed_links (R.content rows.old) row) }
    ensures wanted { (e : KeyedLinks) → part_at keyed_links (R.content rows.old) row ≡ Some e
        → result ≡ true
        → (length found.now.items < limit) × (below to.now e.key ≡ true) }
    ensures ends { (e : KeyedLinks) → part_at keyed_links (R.content rows.old) row ≡ Some e
        → result ≡ false
        → (limit ≤ length found.now.items) ⊎ (below to.now e.key ≡ false) }
    ensures same { rows.new ≡ rows.old }
{
    if found.len() < limit {
        is_below(rows, row, to)
    } else {
        false
    }
}

/// How many pairs a range asks room for where it has none left. A limit of at most 128 is taken for
/// the number that will be found, so that room is made once. A greater one says less: then room
/// grows with the pairs, to twice as many each time.
fn room_for(limit: usize) -> usize
    requires some { 0 < limit }
    ensures some { 0 < result }
    ensures most { result ≤ 128 }
    ensures all { limit ≤ 128 → result ≡ limit }
{
    if limit <= MOST_AT_ONCE { limit } else { 1 }
}

/// Makes room for another pair.
fn make_room<A: Allocator>(found: &mut Vec<(Key, Value), A>, limit: usize) -> Result<(), Memory>
    requires some { 0 < limit }
    ensures ok { OnOk result (length found.new.items < vec_capacity found.new) }
    ensures same { found.new.items ≡ found.old.items }
{
    if found.len() == found.capacity() {
        found.reserve(room_for(limit))?;
    }
    Ok(())
}

/// Adds the pairs of a part of a node, with the tree in the gap before each entry, that are below
/// the upper bound, in the order of their keys, until there are as many as the limit.
fn gather_part<R: Rows, A: Allocator>(
    rows: &mut R,
    part: &HeadLinks,
    to: &Option<Sought>,
    limit: usize,
    found: &mut Vec<(Key, Value), A>,
) -> Result<(), Memory>
    requires stands { (f : Format) × (c : Chain) × PartStands f (R.content rows.old) part.now c }
    ensures found { (f : Format) (c : Chain) → PartStands f (R.content rows.old) part.now c
        → OnOk result
        (found.new.items ≡ filled None to.now limit found.old.items
        (entries_pairs (entries_of f c))) }
    ensures same { rows.new ≡ rows.old }
{
    let mut link = part.first;
    for _ in 0..part.count {
        let row = link - 1;
        let links = rows.links(row);
        if let Some(gap) = head_at(rows, links.child) {
            gather_part(rows, &gap, to, limit, found)?;
        }
        link = links.next;
        if !is_wanted(rows, row, to, limit, found) {
            return Ok(());
        }
        make_room(found, limit)?;
        rows.push_pair(row, found);
        if found.len() >= limit {
            return Ok(());
        }
    }
    match head_at(rows, part.tail) {
        Some(gap) => gather_part(rows, &gap, to, limit, found),
        None => Ok(()),
    }
}

/// Adds the pairs of a part of a node as [`gather_part`] does, but none of the tree in its first
/// gap.
fn gather_behind<R: Rows, A: Allocator>(
    rows: &mut R,
    part: &HeadLinks,
    to: &Option<Sought>,
    limit: usize,
    found: &mut Vec<(Key, Value), A>,
) -> Result<(), Memory>
    requires stands { (f : Format) × (c : Chain) × PartStands f (R.content rows.old) part.now c }
    ensures found { (f : Format) (c : Chain) → PartStands f (R.content rows.old) part.now c
        → OnOk result
        (found.new.items ≡ filled None to.now limit found.old.items (past_gap f c)) }
    ensures same { rows.new ≡ rows.old }
{
    if part.count == 0 {
        return Ok(());
    }
    if found.len() >= limit {
        return Ok(());
    }
    let row = part.first - 1;
    let links = rows.links(row);
    let rest = part_of(part, links.next, part.count - 1);
    if !is_wanted(rows, row, to, limit, found) {
        return Ok(());
    }
    make_room(found, limit)?;
    rows.push_pair(row, found);
    if found.len() >= limit {
        return Ok(());
    }
    gather_part(rows, &rest, to, limit, found)
}

/// Adds the pairs of a tree, by its head, that are at least the lower bound and below the upper, in
/// the order of their keys, until there are as many as the limit. It compares keys with the lower
/// bound only on the way to the first that is not below it.
fn gather_from<R: Rows, A: Allocator>(
    rows: &mut R,
    top: Option<HeadLinks>,
    from: &Sought,
    to: &Option<Sought>,
    limit: usize,
    found: &mut Vec<(Key, Value), A>,
) -> Result<(), Memory>
    requires stands { (f : Format) × (p : Placed) × HeadStands f (R.content rows.old) top p }
    ensures found { (f : Format) (p : Placed) → HeadStands f (R.content rows.old) top p
        → OnOk result
        (found.new.items ≡ filled (Some from.now) to.now limit found.old.items
        (pairs (tree_of f p))) }
    ensures same { rows.new ≡ rows.old }
{
    let Some(head) = top else { return Ok(()) };
    let (link, part) = part_from(rows, &head, from);
    let gap = head_at(rows, link);
    gather_from(rows, gap, from, to, limit, found)?;
    gather_behind(rows, &part, to, limit, found)
}

/// Adds the pairs of a tree, by its head, that are within the bounds, in the order of their keys,
/// until there are as many as the limit.
fn gather<R: Rows, A: Allocator>(
    rows: &mut R,
    top: Option<HeadLinks>,
    from: &Option<Sought>,
    to: &Option<Sought>,
    limit: usize,
    found: &mut Vec<(Key, Value), A>,
) -> Result<(), Memory>
    requires stands { (f : Format) × (p : Placed) × HeadStands f (R.content rows.old) top p }
    ensures found { (f : Format) (p : Placed) → HeadStands f (R.content rows.old) top p
        → OnOk result
        (found.new.items ≡ filled from.now to.now limit found.old.items (pairs (tree_of f p))) }
    ensures same { rows.new ≡ rows.old }
{
    match from {
        Some(from) => gather_from(rows, top, from, to, limit, found),
        None => match top {
            Some(head) => gather_part(rows, &head, to, limit, found),
            None => Ok(()),
        },
    }
}

/// The first pairs, at most `limit`, of the keys that are at least `from` and below `to`, in the
/// map that stands at the link, in the order of their keys. `None` as a bound does not bind.
///
/// Returns `Memory` only if a growth of the list was refused, and then changes nothing.
///
/// It visits the nodes on the way to the two bounds, at most 129 each, and of the nodes between
/// them only those that hold a pair of the answer; it reads the head of each node once and of its
/// entries those up to the upper bound, and the value of each pair of the answer once. It stops at
/// the limit, and reads nothing if that is 0.
pub fn range_below<R: Rows, A: Allocator>(
    alloc: A,
    rows: &mut R,
    link: u32,
    from: Option<&Key>,
    to: Option<&Key>,
    limit: usize,
) -> Result<Vec<(Key, Value), A>, Memory>
    requires stands { LinkStands (R.content rows.old) link }
    ensures found { (f : Format) (m : List Pair) → StandsBelow f (R.content rows.old) link m
        → IfOk result
        (λ found. found.items ≡ map_range m (option_copied from.entry)
        (option_copied to.entry) limit) }
    ensures same { rows.new ≡ rows.old }
{
    let mut found = Vec::new(alloc);
    if limit == 0 {
        return Ok(found);
    }
    let (from, to) = (sought(from), sought(to));
    let top = head_at(rows, link);
    gather(rows, top, &from, &to, limit, &mut found)?;
    Ok(found)
}

/// The first pairs between two bounds in the map that stands at the root, as [`range_below`] has
/// them at a link.
///
/// Returns `Memory` only if a growth of the list was refused, and then changes nothing.
pub fn range<R: Rows, A: Allocator>(
    alloc: A,
    rows: &mut R,
    root: &Root,
    from: Option<&Key>,
    to: Option<&Key>,
    limit: usize,
) -> Result<Vec<(Key, Value), A>, Memory>
    requires stands { MapStands (R.content rows.old) root.now }
    ensures found { (f : Format) (m : List Pair) → Stands f (R.content rows.old) root.now m
        → IfOk result
        (λ found. found.items ≡ map_range m (option_copied from.entry)
        (option_copied to.entry) limit) }
    ensures same { rows.new ≡ rows.old }
{
    range_below(alloc, rows, root.link, from, to, limit)
}
