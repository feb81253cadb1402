//! An entry, copied into another row and into the hash of a text by one call.
ghost use Rattle.std.specs.Prelude.{◌≡◌, ◌++◌, ℕ, List, IsTrue, IsSome, Some};
ghost use Rattle.mst_key.specs.Map.{Pair};
ghost use Rattle.mst_node.specs.Text.{child_text, counted, held_of, held_text};
ghost use Rattle.mst_prefix.specs.Kept.{HasTaken};
ghost use Rattle.mst_arena.specs.Content.{part_at};
ghost use Rattle.mst_arena.specs.Row.{keyed_links, entry_pair};
ghost use Rattle.mst_arena.specs.Words.{lengths_word};
ghost use Rattle.mst_words.specs.Layout.{row_words};
ghost use Rattle.mst_words.specs.Records as records;
ghost use Rattle.mst_words.specs.Access.{IsAt, content_of, may_write, RowStored, relinked_list, IsSameButWords};

use crate::board::{Board, Token};
use crate::layout::LENGTHS_WORD;
use crate::row_words::COMMON_LENGTHS;
use mst_arena::{BareLinks, hash_copied};
use mst_key::Format;
use mst_prefix::TextHasher;
use std::alloc::Allocator;

impl<A: Allocator + Copy> Board<A> {
    // Copies an entry of these lengths as `copy_entry` does. What it makes of the words is made
    // here, in the arm that runs, and not where the arms begin.
    #[inline(always)]
    fn copy_by<B: Allocator>(
        &self,
        seat: &mut Token<A>,
        from: u32,
        to: u32,
        links: BareLinks,
        lengths: u64,
        format: Format,
        child: Option<[u8; 32]>,
        hasher: &mut TextHasher<B>,
    )
        requires own { IsAt self.now seat.old.table_id seat.old.me.0.rows }
        requires there { IsSome (part_at keyed_links (content_of seat.old.me.0) from) }
        requires blank { IsTrue (may_write seat.old.me.0 to) }
        requires lengths { lengths ≡ records.known_row seat.old.me.0 from lengths_word }
        ensures entry { (pair : Pair)
            → part_at entry_pair (content_of seat.old.me.0) from ≡ Some pair
            → (m : List ℕ) → HasTaken hasher.old m
            → HasTaken hasher.new (m ++ child_text child ++ counted pair.0
            ++ held_text format (held_of format pair.1)) }
        ensures same { IsSameButWords seat.old seat.new }
        ensures stored { RowStored seat.old.me.0.rows to row_words
            (relinked_list (records.known_row seat.old.me.0 from) links.child links.next)
            seat.old.me.0.known_words seat.new.me.0.known_words }
    {
        let (key, value) = self.copy_words(seat, from, to, links, lengths);
        hash_copied(hasher, format, child, lengths, &key, &value);
    }

    /// Copies an entry into a blank row, with other links, and hands it over, after a child, to the
    /// hash of its new node's text. One of a key of 16 bytes and a value of 32 has an arm of its
    /// own, as in [`Board::pair`]: there the compiled code knows how many bytes it compares.
    #[inline(always)]
    pub(crate) fn copy_entry<B: Allocator>(
        &self,
        seat: &mut Token<A>,
        from: u32,
        to: u32,
        links: BareLinks,
        format: Format,
        child: Option<[u8; 32]>,
        hasher: &mut TextHasher<B>,
    )
        requires own { IsAt self.now seat.old.table_id seat.old.me.0.rows }
        requires there { IsSome (part_at keyed_links (content_of seat.old.me.0) from) }
        requires blank { IsTrue (may_write seat.old.me.0 to) }
        ensures entry { (pair : Pair)
            → part_at entry_pair (content_of seat.old.me.0) from ≡ Some pair
            → (m : List ℕ) → HasTaken hasher.old m
            → HasTaken hasher.new (m ++ child_text child ++ counted pair.0
            ++ held_text format (held_of format pair.1)) }
        ensures same { IsSameButWords seat.old seat.new }
        ensures stored { RowStored seat.old.me.0.rows to row_words
            (relinked_list (records.known_row seat.old.me.0 from) links.child links.next)
            seat.old.me.0.known_words seat.new.me.0.known_words }
    {
        let lengths = self.word(seat, from, LENGTHS_WORD);
        if lengths == COMMON_LENGTHS {
            self.copy_by(seat, from, to, links, COMMON_LENGTHS, format, child, hasher);
        } else {
            self.copy_by(seat, from, to, links, lengths, format, child, hasher);
        }
    }
}
