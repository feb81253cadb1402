//! The way of a search for a key from an entry of a node, by the entry's words, and the search
//! among the entries of a node, each named by its link.
//!
//! The loads are the board's and not the seat's, as in `row_words`: so the compiled code has the
//! board's place in a register for all loads of one entry.
ghost use Rattle.std.specs.Prelude.{◌≡◌, ◌-◌, ◌%◌, ◌^◌, ◌<◌, ◌≤◌, true, IsSome, Some};
ghost use Rattle.std.specs.Ordering.{nat_cmp, ordering_then};
ghost use Rattle.std.specs.declared.cmp.Ordering.TheVariants.{Equal};
ghost use Rattle.mst_key.specs.Bytes.{IsKey, IsBytes};
ghost use Rattle.mst_arena.specs.Content.{part_at};
ghost use Rattle.mst_arena.specs.Row.{keyed_links};
ghost use Rattle.mst_arena.specs.Ways.{entry_way, stop_from, words_order};
ghost use Rattle.mst_arena.specs.Words.{lengths_word, length_radix, first_key_word, word_from};
ghost use Rattle.mst_words.specs.Layout.{row_words};
ghost use Rattle.mst_words.specs.Records as records;
ghost use Rattle.mst_words.specs.Access.{IsAt, may_read, content_of, IsUnchangedToken};

use crate::board::{Board, Token};
use crate::layout::{CHILD_WORD, FIRST_KEY_WORD, LENGTHS_WORD, NEXT_WORD};
use mst_arena::{LENGTH_RADIX, Sought, Stop, Way};
use std::alloc::Allocator;
use std::cmp::Ordering;

impl<A: Allocator + Copy> Board<A> {
    // The order of what was compared before, and if that is equal, the order of a number and word k
    // of a row: one load at most.
    fn next_order(
        &self,
        seat: &mut Token<A>,
        before: Ordering,
        number: u64,
        link: usize,
        k: usize,
    ) -> Ordering
        requires own { IsAt self.now seat.old.table_id seat.old.me.0.rows }
        requires some { 0 < link }
        requires narrow { link ≤ 2 ^ 32 }
        requires readable { may_read seat.old.me.0 (link - 1) ≡ true }
        requires there { k < row_words }
        ensures order { result ≡ ordering_then before
            (nat_cmp number (records.known_row seat.old.me.0 (link - 1) k)) }
        ensures same { IsUnchangedToken seat.old seat.new }
    {
        match before {
            Ordering::Less => Ordering::Less,
            Ordering::Equal => number.cmp(&self.word(seat, (link - 1) as u32, k)),
            Ordering::Greater => Ordering::Greater,
        }
    }

    // The order of what was compared before, and if that is equal, the order of a length and that
    // of the key of a row.
    fn length_order(&self, seat: &mut Token<A>, before: Ordering, len: u64, link: usize) -> Ordering
        requires own { IsAt self.now seat.old.table_id seat.old.me.0.rows }
        requires some { 0 < link }
        requires narrow { link ≤ 2 ^ 32 }
        requires readable { may_read seat.old.me.0 (link - 1) ≡ true }
        ensures order { result ≡ ordering_then before
            (nat_cmp len (records.known_row seat.old.me.0 (link - 1) lengths_word
            % length_radix)) }
        ensures same { IsUnchangedToken seat.old seat.new }
    {
        match before {
            Ordering::Less => Ordering::Less,
            Ordering::Equal => len.cmp(
                &(self.linked_word(seat, link, LENGTHS_WORD) % LENGTH_RADIX),
            ),
            Ordering::Greater => Ordering::Greater,
        }
    }

    // The order of a key and that of an entry whose first words are the same: words are loaded
    // until two differ.
    fn order_behind(&self, seat: &mut Token<A>, link: usize, key: &Sought) -> Ordering
        requires own { IsAt self.now seat.old.table_id seat.old.me.0.rows }
        requires some { 0 < link }
        requires narrow { link ≤ 2 ^ 32 }
        requires readable { may_read seat.old.me.0 (link - 1) ≡ true }
        ensures order { nat_cmp (word_from key.now 0)
            (records.known_row seat.old.me.0 (link - 1) first_key_word) ≡ Equal
            → result ≡ words_order key.now (records.known_row seat.old.me.0 (link - 1)) }
        ensures same { IsUnchangedToken seat.old seat.new }
    {
        let [_, second, third, last] = key.words();
        let order = second.cmp(&self.word(seat, (link - 1) as u32, FIRST_KEY_WORD + 1));
        let order = self.next_order(seat, order, third, link, FIRST_KEY_WORD + 2);
        let order = self.next_order(seat, order, last, link, FIRST_KEY_WORD + 3);
        self.length_order(seat, order, key.len(), link)
    }

    // The order of a key and that of an entry: mostly the first word decides, by one load.
    #[inline(always)]
    fn order(&self, seat: &mut Token<A>, link: usize, key: &Sought) -> Ordering
        requires own { IsAt self.now seat.old.table_id seat.old.me.0.rows }
        requires some { 0 < link }
        requires narrow { link ≤ 2 ^ 32 }
        requires readable { may_read seat.old.me.0 (link - 1) ≡ true }
        ensures order { result
            ≡ words_order key.now (records.known_row seat.old.me.0 (link - 1)) }
        ensures limits { IsKey key.now }
        ensures range { IsBytes key.now }
        ensures same { IsUnchangedToken seat.old seat.new }
    {
        let [first, ..] = key.words();
        let stored = self.linked_word(seat, link, FIRST_KEY_WORD);
        if stored < first {
            Ordering::Greater
        } else if first < stored {
            Ordering::Less
        } else {
            self.order_behind(seat, link, key)
        }
    }

    /// Where a search for the key goes on from the entry at this number.
    pub(crate) fn way(&self, seat: &mut Token<A>, row: u32, key: &Sought) -> Way
        requires own { IsAt self.now seat.old.table_id seat.old.me.0.rows }
        requires there { IsSome (part_at keyed_links (content_of seat.old.me.0) row) }
        ensures way { part_at (entry_way key.now) (content_of seat.old.me.0) row ≡ Some result }
        ensures same { IsUnchangedToken seat.old seat.new }
    {
        match self.order(seat, row as usize + 1, key) {
            Ordering::Less => Way::Child(self.word(seat, row, CHILD_WORD) as u32),
            Ordering::Equal => Way::Here,
            Ordering::Greater => Way::Next(self.word(seat, row, NEXT_WORD) as u32),
        }
    }

    /// Where a search for the key ends among so many entries of which the first has this link. The
    /// board's place stays in a register from entry to entry.
    #[inline(always)]
    pub(crate) fn search(&self, seat: &mut Token<A>, first: u32, count: u32, key: &Sought) -> Stop
        requires own { IsAt self.now seat.old.table_id seat.old.me.0.rows }
        requires there { IsSome (stop_from key.now (content_of seat.old.me.0) count first) }
        ensures stop { stop_from key.now (content_of seat.old.me.0) count first ≡ Some result }
        ensures same { IsUnchangedToken seat.old seat.new }
    {
        let mut link = first as usize;
        for passed in 0..count {
            match self.order(seat, link, key) {
                Ordering::Less => {
                    return Stop::Gap {
                        link: link as u32,
                        child: self.linked_word(seat, link, CHILD_WORD) as u32,
                        left: count - passed,
                    };
                }
                Ordering::Equal => {
                    return Stop::Found {
                        link: link as u32,
                        left: count - passed,
                    };
                }
                Ordering::Greater => link = self.linked_word(seat, link, NEXT_WORD) as usize,
            }
        }
        Stop::End
    }
}
