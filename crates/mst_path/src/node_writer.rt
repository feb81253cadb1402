//! One node, written into rows entry by entry.
ghost use Rattle.std.specs.Prelude.{◌≡◌, ◌≤◌, ◌<◌, ◌+◌, ℕ, List, [], ◌∷◌, ◌++◌, Some, IsSome, IsTrue};
ghost use Rattle.mst_node.specs.Text.{child_digest};
ghost use Rattle.mst_key.specs.Map.{Pair};
ghost use Rattle.mst_key.specs.declared.format.Format.{Format};
ghost use Rattle.mst_prefix.specs.Kept.{HasTaken};
ghost use Rattle.mst_arena.specs.Limits.{highest_layer, highest_link, most_entries};
ghost use Rattle.mst_arena.specs.Lives.{free_count};
ghost use Rattle.mst_arena.specs.Content.{Content, part_at};
ghost use Rattle.mst_arena.specs.Row.{keyed_links, entry_pair};
ghost use Rattle.mst_arena.specs.Standing.{Placed, head, tree_of, rows_of, used, HasRows};
ghost use Rattle.mst_path.specs.Takes.{Takes, IsOut, KeepsBut, FewRows, StaysBeside};
ghost use Rattle.mst_path.specs.Writing.{PlacedEntry, chain_of, entries_used, IsRootOf, ahead, IsNextBlank, IsAhead, IsWriter, IsWritten};

use mst_arena::{BareLinks, Desk, Root, Row, Rows};
use mst_key::{Format, Key, Value};
use mst_node::TextSink;
use mst_prefix::TextHasher;
use std::alloc::Allocator;

/// Takes a free row: the one behind this, if that is free. There is one.
#[inline(always)]
fn take_behind<A: Allocator>(desk: &mut Desk<A>, row: u32) -> u32
    requires room { 0 < free_count desk.old.lives }
    ensures takes { Takes desk.old desk.new (result ∷ []) }
{
    match desk.take_near(row.wrapping_add(1)) {
        Some(row) => row,
        None => unreachable!(),
    }
}

/// Takes a free row for the head of a node of so many rows, which takes the place of the one whose
/// head is in the row `replaced`, if there is one. A row is free.
fn take_head<A: Allocator>(desk: &mut Desk<A>, replaced: Option<u32>, count: u32) -> u32
    requires room { 0 < free_count desk.old.lives }
    ensures takes { Takes desk.old desk.new (result ∷ []) }
{
    match desk.take_head(replaced, count) {
        Some(row) => row,
        None => unreachable!(),
    }
}

/// Takes a free row for the entry behind the one in this row, if some are left.
#[inline(always)]
fn take_next<A: Allocator>(desk: &mut Desk<A>, left: u32, row: u32) -> Option<u32>
    requires room { 0 < left → 0 < free_count desk.old.lives }
    ensures takes { Takes desk.old desk.new (ahead result) }
    ensures ahead { IsAhead result left }
{
    if left == 0 {
        None
    } else {
        Some(take_behind(desk, row))
    }
}

/// The digest of the tree at a root, as it stands in the text of the node above; `None` for the
/// empty tree.
fn digest_at(root: &Root) -> Option<[u8; 32]>
    ensures digest { (format : Format) (p : Placed) → IsRootOf format p root.now
        → result ≡ child_digest (tree_of format p) }
{
    if root.link == 0 {
        None
    } else {
        Some(root.digest)
    }
}

/// A hasher for the text of a node of this layer: with what the desk keeps of such texts if the
/// entries are copied from a node, otherwise without, since nothing is kept of them.
fn hasher_for<A: Allocator>(desk: &mut Desk<A>, layer: u8, is_copy: bool) -> TextHasher<A>
    ensures empty { HasTaken result [] }
    ensures same { desk.new ≡ desk.old }
{
    if is_copy {
        desk.hasher(layer)
    } else {
        TextHasher::alone()
    }
}

/// A node that is being written. Its rows are taken on the way: that of the head and that of the
/// first entry at the beginning, and that of each further entry before the one in front of it is
/// written, since that one links to it. If it is a copy of another node but for some entries, what
/// the desk keeps of texts of its layer is lent to the writer until it is finished.
#[derive(Drop)]
pub struct NodeWriter<A: Allocator> {
    /// The text up to the entries that are written.
    hasher: TextHasher<A>,
    /// The format of the node.
    format: Format,
    layer: u8,
    /// How many entries the node has.
    count: u32,
    /// How many of them are left to be written.
    left: u32,
    /// The row of the head.
    head: u32,
    /// The row of the first entry.
    first: u32,
    /// The row of the next entry, if some are left.
    next: Option<u32>,
}

impl<A: Allocator> NodeWriter<A> {
    /// A node of this layer and format with so many entries, none of them written yet, which is a
    /// copy of another but for some entries, or all new. It takes two rows: if it takes the place
    /// of a node whose head is in the row `replaced`, where that one stood before, if that is free.
    pub fn begin(
        desk: &mut Desk<A>,
        replaced: Option<u32>,
        layer: u8,
        count: u32,
        format: Format,
        is_copy: bool,
    ) -> NodeWriter<A>
        requires low { layer ≤ highest_layer }
        requires some { 0 < count }
        requires few { count ≤ most_entries }
        requires room { 2 ≤ free_count desk.old.lives }
        requires rows { FewRows desk.old.lives }
        ensures writer { IsWriter result }
        ensures written { (c : Content) → IsWritten format result c [] }
        ensures node { (result.layer ≡ layer) × (result.count ≡ count) × (result.left ≡ count) }
        ensures takes { Takes desk.old desk.new (result.head ∷ ahead result.next) }
    {
        let head = take_head(desk, replaced, count + 1);
        let first = take_behind(desk, head);
        let mut hasher = hasher_for(desk, layer, is_copy);
        hasher.heading(format, layer, count as u16);
        NodeWriter {
            hasher,
            format,
            layer,
            count,
            left: count,
            head,
            first,
            next: Some(first),
        }
    }

    /// Writes the next entry, after the tree at `child`. It takes a row if a further entry is left.
    /// If the entry takes the place of another, `replaced` is the row of that one: what is kept of
    /// texts for that row makes room for what is kept for the new one.
    pub fn entry<R: Rows>(
        &mut self,
        rows: &mut R,
        desk: &mut Desk<A>,
        replaced: Option<u32>,
        child: &Root,
        key: &Key,
        value: &Value,
    )
        requires writer { IsWriter self.old }
        requires some { 0 < self.old.left }
        requires room { 1 < self.old.left → 0 < free_count desk.old.lives }
        requires few { FewRows desk.old.lives }
        requires blank { IsNextBlank self.old.next (R.blank rows.old) }
        requires child { child.now.link ≤ highest_link }
        ensures writer { IsWriter self.new }
        // after the entries that are written stands the new one, if the row that was taken for it
        // is none of theirs and none of its child's
        ensures written { (format : Format) (es : List PlacedEntry) (p : Placed) (r : ℕ)
            → self.old.next ≡ Some r
            → IsWritten format self.old (R.content rows.old) es → IsRootOf format p child.now
            → HasRows (R.content rows.old) (rows_of format p) → IsOut r (entries_used es ++ used p)
            → IsWritten format self.new (R.content rows.new)
            (es ++ record { at = r; child = p; key = key.now; value = value.now } ∷ []) }
        ensures node { (self.new.layer ≡ self.old.layer) × (self.new.count ≡ self.old.count)
            × (self.new.left + 1 ≡ self.old.left) × (self.new.head ≡ self.old.head) }
        ensures takes { Takes desk.old desk.new (ahead self.new.next) }
        ensures keeps { KeepsBut (ahead self.old.next) (R.content rows.old) (R.content rows.new) }
        ensures beside { StaysBeside R.blank R.kept rows.old rows.new }
    {
        let Some(row) = self.next else { unreachable!() };
        let from = replaced.unwrap_or(row);
        self.hasher.move_kept(from, row, self.format);
        self.left -= 1;
        self.next = take_next(desk, self.left, row);
        let next = match self.next {
            Some(row) => row + 1,
            None => 0,
        };
        let entry = Row::Entry {
            child: child.link,
            next,
            key: key.copy(),
            value: value.copy(),
        };
        rows.write(row, &entry);
        let (key, value) = (key.bytes(), value.bytes());
        self.hasher
            .copied_entry(self.format, digest_at(child), key, value);
    }

    /// Writes the next entry, after the tree at `child`, as a copy of the entry in a row. It takes
    /// a row if a further entry is left.
    pub fn copy<R: Rows>(&mut self, rows: &mut R, desk: &mut Desk<A>, child: &Root, from: u32)
        requires writer { IsWriter self.old }
        requires some { 0 < self.old.left }
        requires room { 1 < self.old.left → 0 < free_count desk.old.lives }
        requires few { FewRows desk.old.lives }
        requires blank { IsNextBlank self.old.next (R.blank rows.old) }
        requires child { child.now.link ≤ highest_link }
        requires entry { IsSome (part_at keyed_links (R.content rows.old) from) }
        ensures writer { IsWriter self.new }
        ensures written { (format : Format) (es : List PlacedEntry) (p : Placed) (r : ℕ)
            (pair : Pair) → self.old.next ≡ Some r
            → part_at entry_pair (R.content rows.old) from ≡ Some pair
            → IsWritten format self.old (R.content rows.old) es → IsRootOf format p child.now
            → HasRows (R.content rows.old) (rows_of format p) → IsOut r (entries_used es ++ used p)
            → IsWritten format self.new (R.content rows.new)
            (es ++ record { at = r; child = p; key = pair.0; value = pair.1 } ∷ []) }
        ensures node { (self.new.layer ≡ self.old.layer) × (self.new.count ≡ self.old.count)
            × (self.new.left + 1 ≡ self.old.left) × (self.new.head ≡ self.old.head) }
        ensures takes { Takes desk.old desk.new (ahead self.new.next) }
        ensures keeps { KeepsBut (ahead self.old.next) (R.content rows.old) (R.content rows.new) }
        ensures beside { StaysBeside R.blank R.kept rows.old rows.new }
    {
        let Some(to) = self.next else { unreachable!() };
        self.hasher.move_kept(from, to, self.format);
        self.left -= 1;
        self.next = take_next(desk, self.left, to);
        let next = match self.next {
            Some(row) => row + 1,
            None => 0,
        };
        let links = BareLinks {
            child: child.link,
            next,
        };
        let digest = digest_at(child);
        rows.copy_entry(from, to, links, self.format, digest, &mut self.hasher);
    }

    /// Writes the head, once all entries are written, with the tree at `tail` in the last gap.
    /// Returns where the node stands.
    pub fn finish<R: Rows>(mut self, rows: &mut R, desk: &mut Desk<A>, tail: &Root) -> Root
        requires writer { IsWriter self }
        requires all { self.left ≡ 0 }
        requires blank { IsTrue (R.blank rows.old self.head) }
        requires tail { tail.now.link ≤ highest_link }
        ensures root { (format : Format) (es : List PlacedEntry) (p : Placed)
            → IsWritten format self (R.content rows.old) es → IsRootOf format p tail.now
            → IsRootOf format (head self.head self.layer (chain_of es p)) result }
        // the node stands, if the row of its head is none of its entries' and none of the last
        // tree's
        ensures stands { (format : Format) (es : List PlacedEntry) (p : Placed)
            → IsWritten format self (R.content rows.old) es → IsRootOf format p tail.now
            → HasRows (R.content rows.old) (rows_of format p)
            → IsOut self.head (entries_used es ++ used p)
            → HasRows (R.content rows.new)
            (rows_of format (head self.head self.layer (chain_of es p))) }
        ensures keeps { KeepsBut (self.head ∷ []) (R.content rows.old) (R.content rows.new) }
        ensures desk { desk.new ≡ desk.old }
        ensures beside { StaysBeside R.blank R.kept rows.old rows.new }
    {
        self.hasher.child(digest_at(tail));
        let digest = desk.digest(self.layer, self.hasher);
        let head = Row::Head {
            layer: self.layer,
            count: self.count,
            first: self.first + 1,
            tail: tail.link,
            digest,
        };
        rows.write(self.head, &head);
        Root {
            link: self.head + 1,
            digest,
        }
    }
}
