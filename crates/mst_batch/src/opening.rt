//! The items of the tree after a batch: the nodes that an edit touches are opened.
ghost use Rattle.std.specs.Prelude.{◌≡◌, true, ◌++◌, ◌≤◌, length, take, drop, [], ◌∷◌, OnOk};
ghost use Rattle.std.specs.List.{AllByRecursion, slice_range};
ghost use Rattle.mst_key.specs.declared.format.Format.{Format};
ghost use Rattle.mst_key.specs.Edits.{AreAbove, AreRising};
ghost use Rattle.mst_key.specs.History.{batched, key_of};
ghost use Rattle.mst_key.specs.Layer.{layer_in};
ghost use Rattle.mst_key.specs.Map.{Pair, key_cmp};
ghost use Rattle.std.specs.declared.cmp.Ordering.TheVariants.{Less};
ghost use Rattle.mst_node.specs.Tree.{pairs};
ghost use Rattle.mst_arena.specs.Standing.{Placed, rows_of, tree_of};
ghost use Rattle.mst_batch.specs.Items.{items_pairs, pair_among, IsItem, IsTold};
ghost use Rattle.mst_batch.specs.Known.{IsEntryOf};
ghost use Rattle.mst_edits.specs.Listed.{listed, put_of};
ghost use Rattle.mst_batch.specs.Opening.{PartOf, Adds, AreBelow, AreOf};

use crate::items::Item;
use crate::plan::Origin;
use crate::standing::push_tree;
use mst_arena::Rows;
use mst_key::{Edit, Format, Key, Memory};
use std::alloc::Allocator;

/// What is known of a pair that is put, by the row of the entry that had its key, if there is one.
fn changed(row: Option<u32>) -> Origin
    ensures known { (format : Format) (whole : Placed) (pair : Pair)
        → IsTold format whole pair result }
{
    match row {
        Some(row) => Origin::Changed(row),
        None => Origin::Unknown,
    }
}

/// Adds the pair that an edit puts, if it is a put. The layer is that of its key, and the row that
/// of the entry that had it before, if there is one.
fn push_put<'b, A: Allocator>(
    edit: &'b Edit,
    layer: u8,
    row: Option<u32>,
    items: &mut Vec<Item<'b>, A>,
) -> Result<(), Memory>
    ensures adds { OnOk result ((format : Format) (whole : Placed)
        → layer_in format (key_of edit.now) ≡ layer
        → Adds format whole items.old.items items.new.items (put_of edit.now)) }
{
    if let Edit::Put(key, value) = edit {
        items.push(Item::Put {
            key,
            value,
            layer,
            origin: changed(row),
        })?;
    }
    Ok(())
}

/// Adds the pairs that edits whose keys rise put where there is no pair.
fn push_puts<'b, A: Allocator>(
    format: Format,
    edits: &[&'b Edit],
    items: &mut Vec<Item<'b>, A>,
) -> Result<(), Memory>
    requires rising { AreRising (listed edits.now) }
    ensures adds { OnOk result ((whole : Placed)
        → Adds format whole items.old.items items.new.items (batched [] (listed edits.now))) }
{
    for edit in edits {
        let layer = edit.key().layer_in(format);
        push_put(edit, layer, None, items)?;
    }
    Ok(())
}

/// Where a key lies among edits whose keys rise, by two searches.
fn searched_range_of(edits: &[&Edit], key: &Key) -> (usize, usize)
    requires rising { AreRising (listed edits.now) }
    ensures order { result.0 ≤ result.1 }
    ensures within { result.1 ≤ length edits.now }
    ensures before { AreBelow (listed (take result.0 edits.now)) key.now }
    ensures own { AreOf (listed (slice_range edits.now result.0 result.1)) key.now }
    ensures after { AreAbove (listed (drop result.1 edits.now)) key.now }
{
    let start = edits.partition_point(|edit| edit.key().cmp(key).is_lt());
    let end = edits.partition_point(|edit| edit.key().cmp(key).is_le());
    (start, end)
}

/// Whether the first eight bytes tell that a key comes before another.
fn begins_before(one: &[u8], other: &[u8]) -> bool
    ensures less { result ≡ true → key_cmp one.now other.now ≡ Less }
{
    match one.first_chunk::<8>() {
        None => false,
        Some(first) => match other.first_chunk::<8>() {
            None => false,
            Some(second) => u64::from_be_bytes(*first) < u64::from_be_bytes(*second),
        },
    }
}

/// Whether a key comes before another. Most keys differ in their first eight bytes, which are
/// compared as one number.
fn is_before(key: &Key, other: &Key) -> bool
    ensures less { result ≡ true → key_cmp key.now other.now ≡ Less }
{
    begins_before(key.bytes(), other.bytes()) || key.precedes(other)
}

/// Whether an edit is of a key.
fn is_of(edit: &Edit, key: &Key) -> bool
    ensures same { result ≡ true → key_of edit.now ≡ key.now }
{
    edit.key() == key
}

/// Where a key lies among edits whose keys rise: behind those of lesser keys, and before those of
/// greater ones. In between is the edit of the key, if there is one.
pub(crate) fn range_of(edits: &[&Edit], key: &Key) -> (usize, usize)
    requires rising { AreRising (listed edits.now) }
    ensures order { result.0 ≤ result.1 }
    ensures within { result.1 ≤ length edits.now }
    ensures before { AreBelow (listed (take result.0 edits.now)) key.now }
    ensures own { AreOf (listed (slice_range edits.now result.0 result.1)) key.now }
    ensures after { AreAbove (listed (drop result.1 edits.now)) key.now }
{
    // most entries of a node that is opened lie before the first edit that is left
    match edits {
        [] => (0, 0),
        [first, ..] if is_before(key, first.key()) => (0, 0),
        [first, ..] if is_of(first, key) => (0, 1),
        _ => searched_range_of(edits, key),
    }
}

/// Adds the pair of the entry in a row, or what the edit of its key puts, if there is one.
fn push_entry<'b, A: Allocator>(
    row: u32,
    layer: u8,
    own: &[&'b Edit],
    items: &mut Vec<Item<'b>, A>,
) -> Result<(), Memory>
    requires rising { AreRising (listed own.now) }
    ensures adds { OnOk result ((format : Format) (whole : Placed) (pair : Pair)
        → layer_in format pair.0 ≡ layer → AreOf (listed own.now) pair.0
        → IsEntryOf format whole row pair
        → pair_among (rows_of format whole) row ≡ pair ∷ []
        → Adds format whole items.old.items items.new.items
        (batched (pair ∷ []) (listed own.now))) }
{
    if let [edit, ..] = own {
        return push_put(edit, layer, Some(row), items);
    }
    items.push(Item::Kept { row, layer })?;
    Ok(())
}

/// Adds the items of the tree at a link after edits whose keys rise. A tree that no edit falls into
/// stays as it stands; of each other its node is opened.
#[cycle(open)]
pub(crate) fn open<'b, R: Rows, A: Allocator>(
    rows: &mut R,
    format: Format,
    link: u32,
    edits: &[&'b Edit],
    items: &mut Vec<Item<'b>, A>,
) -> Result<(), Memory>
    requires part { (whole : Placed) × PartOf format (R.content rows.old) whole link }
    requires rising { AreRising (listed edits.now) }
    ensures items { OnOk result ((whole : Placed)
        (part : PartOf format (R.content rows.old) whole link)
        → items_pairs format whole items.new.items ≡ items_pairs format whole items.old.items
        ++ batched (pairs (tree_of format part.placed)) (listed edits.now)) }
    ensures each { OnOk result ((whole : Placed) → PartOf format (R.content rows.old) whole link
        → AllByRecursion (IsItem format whole) items.old.items
        → AllByRecursion (IsItem format whole) items.new.items) }
    ensures same { rows.new ≡ rows.old }
{
    if edits.is_empty() {
        return push_tree(rows, link, items);
    }
    if link == 0 {
        return push_puts(format, edits, items);
    }
    let head = rows.head(link - 1);
    let mut next = head.first;
    let mut left = edits;
    for _ in 0..head.count {
        let entry = rows.entry(next - 1);
        let (start, end) = range_of(left, &entry.key);
        open(rows, format, entry.child, &left[..start], items)?;
        push_entry(next - 1, head.layer, &left[start..end], items)?;
        left = &left[end..];
        next = entry.next;
    }
    open(rows, format, head.tail, left, items)
}
