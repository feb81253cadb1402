//! Rows that a holder may read and write.
ghost use Rattle.std.specs.Prelude.{◌≡◌, ◌≤◌, ◌<◌, ◌++◌, ◌∷◌, [], IsTrue, IsSome, IfSome, Some, length, List, vec_capacity};
ghost use Rattle.mst_key.specs.Bytes.{IsKey, IsValue};
ghost use Rattle.mst_key.specs.Map.{Pair};
ghost use Rattle.mst_node.specs.Text.{child_text, counted, held_of, held_text};
ghost use Rattle.mst_prefix.specs.Kept.{HasTaken};
ghost use Rattle.mst_arena.specs.Limits.{highest_link};
ghost use Rattle.mst_arena.specs.Row.{IsRow, IsHead, head_links, head_digest, keyed_links, bare_links, entry_pair, entry_value};
ghost use Rattle.mst_arena.specs.Content.{part_at, Writes, relinked};
ghost use Rattle.mst_arena.specs.Ways.{entry_way, stop_from};

use crate::entry_text::take_whole;
use crate::row::{BareLinks, HeadLinks, KeyedLinks, Row};
use crate::sought::{Sought, Stop, Way};
use mst_key::{Format, Key, Value};
use mst_node::TextSink;
use mst_prefix::TextHasher;
use std::alloc::Allocator;

/// Rows that the holder may read, and blank rows that it may write.
///
/// The content has a row at each number that the holder may read. Reading changes nothing; a write
/// changes the content only at the row that is written, and keeps what the holder has beside its
/// rows. Parts of a row can be read too, so that an implementation loads no more words than a
/// search needs: the default bodies read the whole row.
pub trait Rows {
    ghost use Rattle.std.specs.Prelude.{ℕ, Bool};
    ghost use Rattle.mst_arena.specs.Content.{Content};

    // The row at each number that the holder may read.
    ghost content: { Self → Content };

    // Whether a row is blank: the holder may write it.
    ghost blank: { Self → ℕ → Bool };

    // What the holder has beside its rows: a write leaves it as it is.
    ghost Kept: { Type 0 } = { Unit {0} };

    ghost kept: { Self → Self.Kept };

    /// The row at this number.
    fn read(&mut self, row: u32) -> Row
        requires there { IsSome (content self.old row) }
        ensures value { content self.old row ≡ Some result }
        ensures limits { IsRow result }
        ensures same { self.new ≡ self.old };

    /// Writes the row at this number, which is blank.
    fn write(&mut self, row: u32, value: &Row)
        requires blank { IsTrue (blank self.old row) }
        requires limits { IsRow value.now }
        ensures writes { Writes (content self.old) (content self.new) row value.now }
        ensures blank { blank self.new ≡ blank self.old }
        ensures kept { kept self.new ≡ kept self.old };

    /// Copies the entry at a number into a blank row, with other links, and hands it over, after a
    /// child, to the hash of its new node's text. It is one call, so that an implementation that
    /// sees the entry's lengths first loads its words once, and tests them no more.
    fn copy_entry<B: Allocator>(
        &mut self,
        from: u32,
        to: u32,
        links: BareLinks,
        format: Format,
        child: Option<[u8; 32]>,
        hasher: &mut TextHasher<B>,
    )
        requires there { IsSome (part_at keyed_links (content self.old) from) }
        requires blank { IsTrue (blank self.old to) }
        requires child { links.child ≤ highest_link }
        requires next { links.next ≤ highest_link }
        ensures writes { IfSome (content self.old from) (λ entry.
            Writes (content self.old) (content self.new) to
            (relinked links.child links.next entry)) }
        ensures entry { (pair : Pair) → part_at entry_pair (content self.old) from ≡ Some pair
            → (m : List ℕ) → HasTaken hasher.old m
            → HasTaken hasher.new (m ++ child_text child ++ counted pair.0
            ++ held_text format (held_of format pair.1)) }
        ensures blank { blank self.new ≡ blank self.old }
        ensures kept { kept self.new ≡ kept self.old }
    {
        let (key, value) = self.pair(from);
        hasher.copied_entry(format, child, key.bytes(), value.bytes());
        let entry = Row::Entry {
            child: links.child,
            next: links.next,
            key,
            value,
        };
        self.write(to, &entry);
    }

    /// The layer, the count and the links of the head at this number.
    fn head(&mut self, row: u32) -> HeadLinks
        requires there { IsSome (part_at head_links (content self.old) row) }
        ensures value { part_at head_links (content self.old) row ≡ Some result }
        ensures limits { IsHead result }
        ensures same { self.new ≡ self.old }
    {
        match self.read(row) {
            Row::Head {
                layer,
                count,
                first,
                tail,
                ..
            } => HeadLinks {
                layer,
                count,
                first,
                tail,
            },
            Row::Entry { .. } => unreachable!(),
        }
    }

    /// The digest of the head at this number.
    fn digest(&mut self, row: u32) -> [u8; 32]
        requires there { IsSome (part_at head_digest (content self.old) row) }
        ensures value { part_at head_digest (content self.old) row ≡ Some result }
        ensures same { self.new ≡ self.old }
    {
        match self.read(row) {
            Row::Head { digest, .. } => digest,
            Row::Entry { .. } => unreachable!(),
        }
    }

    /// The links and the key of the entry at this number.
    fn entry(&mut self, row: u32) -> KeyedLinks
        requires there { IsSome (part_at keyed_links (content self.old) row) }
        ensures value { part_at keyed_links (content self.old) row ≡ Some result }
        ensures same { self.new ≡ self.old }
    {
        match self.read(row) {
            Row::Entry {
                child,
                next,
                key,
                ..
            } => KeyedLinks { child, next, key },
            Row::Head { .. } => unreachable!(),
        }
    }

    /// The links of the entry at this number, for a walk that does not read its key.
    fn links(&mut self, row: u32) -> BareLinks
        requires there { IsSome (part_at keyed_links (content self.old) row) }
        ensures value { part_at bare_links (content self.old) row ≡ Some result }
        ensures same { self.new ≡ self.old }
    {
        let entry = self.entry(row);
        BareLinks {
            child: entry.child,
            next: entry.next,
        }
    }

    /// The key and the value of the entry at this number.
    fn pair(&mut self, row: u32) -> (Key, Value)
        requires there { IsSome (part_at keyed_links (content self.old) row) }
        ensures value { part_at entry_pair (content self.old) row ≡ Some result }
        ensures same { self.new ≡ self.old }
    {
        let entry = self.entry(row);
        (entry.key, self.value(row))
    }

    /// Adds the key and the value of the entry at this number to a list that has room for a pair.
    fn push_pair<A: Allocator>(&mut self, row: u32, list: &mut Vec<(Key, Value), A>)
        requires there { IsSome (part_at keyed_links (content self.old) row) }
        requires room { length list.old.items < vec_capacity list.old }
        ensures pushed { (pair : Pair) → part_at entry_pair (content self.old) row ≡ Some pair
            → list.new.items ≡ list.old.items ++ pair ∷ [] }
        ensures same { self.new ≡ self.old }
    {
        list.push_reserved(self.pair(row));
    }

    /// Hands over the entry at this number, after a child, to what takes the text of its node. It
    /// is one call, so that an implementation that sees the entry's lengths first makes no pair.
    fn spell<S: TextSink>(
        &mut self,
        row: u32,
        format: Format,
        child: Option<[u8; 32]>,
        sink: &mut S,
    )
        requires there { IsSome (part_at keyed_links (content self.old) row) }
        ensures entry { (pair : Pair) → part_at entry_pair (content self.old) row ≡ Some pair
            → (m : List ℕ) → S.took sink.old m
            → S.took sink.new (m ++ child_text child ++ counted pair.0
            ++ held_text format (held_of format pair.1)) }
        ensures limits { (pair : Pair) → part_at entry_pair (content self.old) row ≡ Some pair
            → IsKey pair.0 × IsValue pair.1 }
        ensures same { self.new ≡ self.old }
    {
        let (key, value) = self.pair(row);
        take_whole(sink, format, child, key.bytes(), value.bytes());
    }

    /// Where a search for the key goes on from the entry at this number.
    fn way(&mut self, row: u32, key: &Sought) -> Way
        requires there { IsSome (part_at keyed_links (content self.old) row) }
        ensures way { part_at (entry_way key.now) (content self.old) row ≡ Some result }
        ensures same { self.new ≡ self.old }
    {
        let entry = self.entry(row);
        key.way(entry.child, entry.next, &entry.key)
    }

    /// Where a search for the key ends among so many entries, each linked to by the one before it
    /// and the first by this link. It is one call, so that an implementation searches a node in one
    /// loop.
    fn search(&mut self, first: u32, count: u32, key: &Sought) -> Stop
        requires there { IsSome (stop_from key.now (content self.old) count first) }
        ensures stop { stop_from key.now (content self.old) count first ≡ Some result }
        ensures same { self.new ≡ self.old }
    {
        let mut link = first;
        for passed in 0..count {
            let left = count - passed;
            match self.way(link - 1, key) {
                Way::Child(child) => return Stop::Gap { link, child, left },
                Way::Here => return Stop::Found { link, left },
                Way::Next(next) => link = next,
            }
        }
        Stop::End
    }

    /// The value of the entry at this number.
    fn value(&mut self, row: u32) -> Value
        requires there { IsSome (part_at entry_value (content self.old) row) }
        ensures value { part_at entry_value (content self.old) row ≡ Some result }
        ensures same { self.new ≡ self.old }
    {
        match self.read(row) {
            Row::Entry { value, .. } => value,
            Row::Head { .. } => unreachable!(),
        }
    }
}
