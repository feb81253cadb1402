//! The words of the rows, as the board loads and stores them.
//!
//! The loops are the board's and not the seat's: so the compiled code has the board's place in a
//! register, and does not load it from the seat again for each word.
ghost use Rattle.std.specs.Prelude.{◌≡◌, ◌+◌, ◌-◌, ◌^◌, ◌<◌, ◌≤◌, ◌++◌, ◌∷◌, [], ℕ, length, map, slice_set, true, IsTrue, IsSome, Some, vec_capacity};
ghost use Rattle.mst_key.specs.Map.{Pair};
ghost use Rattle.std.specs.List.{range_with_len};
ghost use Rattle.mst_words.specs.Layout.{row_words, row_word, table_words};
ghost use Rattle.mst_words.specs.Records as records;
ghost use Rattle.mst_words.specs.Access.{IsAt, may_read, content_of, may_write, RowStored, PartStored, IsPadded, relinked_list, IsSameToken, IsUnchangedToken, IsSameButWords};
ghost use Rattle.mst_arena.specs.Content.{part_at};
ghost use Rattle.mst_arena.specs.Row.{keyed_links, bare_links, entry_pair, entry_value};
ghost use Rattle.mst_arena.specs.Words.{entry_tag, lengths_word, first_key_word, first_value_word};

use crate::board::{Board, Token};
use crate::layout::{
    CHILD_WORD, ENTRY_TAG, FIRST_KEY_WORD, FIRST_ROW, FIRST_VALUE_WORD, LENGTHS_WORD, NEXT_WORD,
    row_word,
};
use mst_arena::{BareLinks, LENGTH_RADIX, Row};
use mst_key::{Key, Value};
use std::alloc::Allocator;

/// The length of most keys.
pub(crate) const COMMON_KEY_LENGTH: u64 = 16;

/// The length of most values.
const COMMON_VALUE_LENGTH: u64 = 32;

/// The word of the lengths of a key of 16 bytes and a value of 32.
pub(crate) const COMMON_LENGTHS: u64 = COMMON_KEY_LENGTH + LENGTH_RADIX * COMMON_VALUE_LENGTH;

impl<A: Allocator + Copy> Board<A> {
    /// How many rows the table has.
    #[inline(always)]
    pub(crate) fn row_count(&self) -> u32
        ensures wide { self.now.words ≡ table_words result }
    {
        self.rows
    }

    // Word k of a row of a table of so many rows: one load. Where several words are loaded or
    // stored, the number of rows is then read once.
    #[inline(always)]
    fn word_of(&self, seat: &mut Token<A>, rows: u32, row: u32, k: usize) -> u64
        requires own { IsAt self.now seat.old.table_id seat.old.me.0.rows }
        requires wide { self.now.words ≡ table_words rows }
        requires readable { may_read seat.old.me.0 row ≡ true }
        requires there { k < row_words }
        ensures word { result ≡ records.known_row seat.old.me.0 row k }
        ensures same { IsUnchangedToken seat.old seat.new }
    {
        self.load(seat, row_word(rows, row, k))
    }

    /// Word k of a row: one load.
    pub(crate) fn word(&self, seat: &mut Token<A>, row: u32, k: usize) -> u64
        requires own { IsAt self.now seat.old.table_id seat.old.me.0.rows }
        requires readable { may_read seat.old.me.0 row ≡ true }
        requires there { k < row_words }
        ensures word { result ≡ records.known_row seat.old.me.0 row k }
        ensures same { IsUnchangedToken seat.old seat.new }
    {
        let rows = self.row_count();
        self.word_of(seat, rows, row, k)
    }

    /// Word k of the row that a link leads to, one of words 1 to 4: one load. It adds to the link
    /// no more than a constant, so that a search which goes from link to link reckons neither the
    /// number of each row nor where other words lie.
    pub(crate) fn linked_word(&self, seat: &mut Token<A>, link: usize, k: usize) -> u64
        requires own { IsAt self.now seat.old.table_id seat.old.me.0.rows }
        requires some { 0 < link }
        requires narrow { link ≤ 2 ^ 32 }
        requires readable { may_read seat.old.me.0 (link - 1) ≡ true }
        requires some_word { 0 < k }
        requires there { k < 5 }
        ensures word { result ≡ records.known_row seat.old.me.0 (link - 1) k }
        ensures same { IsUnchangedToken seat.old seat.new }
    {
        self.load(seat, link * 4 + k + (FIRST_ROW - 5))
    }

    // The words of a row from one on, in a table of so many rows: a load for each.
    #[inline(always)]
    fn words_of<const N: usize>(
        &self,
        seat: &mut Token<A>,
        rows: u32,
        row: u32,
        from: usize,
    ) -> [u64; N]
        requires own { IsAt self.now seat.old.table_id seat.old.me.0.rows }
        requires wide { self.now.words ≡ table_words rows }
        requires readable { may_read seat.old.me.0 row ≡ true }
        requires there { from + N ≤ row_words }
        ensures words { result
            ≡ map (records.known_row seat.old.me.0 row) (range_with_len from N) }
        ensures same { IsUnchangedToken seat.old seat.new }
    {
        let mut words = [0; N];
        for k in 0..N {
            words[k] = self.word_of(seat, rows, row, from + k);
        }
        words
    }

    /// The words of a row from one on: a load for each.
    pub(crate) fn words<const N: usize>(
        &self,
        seat: &mut Token<A>,
        row: u32,
        from: usize,
    ) -> [u64; N]
        requires own { IsAt self.now seat.old.table_id seat.old.me.0.rows }
        requires readable { may_read seat.old.me.0 row ≡ true }
        requires there { from + N ≤ row_words }
        ensures words { result
            ≡ map (records.known_row seat.old.me.0 row) (range_with_len from N) }
        ensures same { IsUnchangedToken seat.old seat.new }
    {
        let rows = self.row_count();
        self.words_of::<N>(seat, rows, row, from)
    }

    /// The links of an entry: two loads.
    #[inline(always)]
    pub(crate) fn links(&self, seat: &mut Token<A>, row: u32) -> BareLinks
        requires own { IsAt self.now seat.old.table_id seat.old.me.0.rows }
        requires there { IsSome (part_at keyed_links (content_of seat.old.me.0) row) }
        ensures value { part_at bare_links (content_of seat.old.me.0) row ≡ Some result }
        ensures same { IsUnchangedToken seat.old seat.new }
    {
        let child = self.word(seat, row, CHILD_WORD);
        let next = self.word(seat, row, NEXT_WORD);
        BareLinks {
            child: child as u32,
            next: next as u32,
        }
    }

    // The words of an entry's key, in a table of so many rows. Behind a key of 16 bytes they are 0,
    // and not loaded.
    #[inline(always)]
    fn key_words(&self, seat: &mut Token<A>, rows: u32, row: u32, lengths: u64) -> [u64; 4]
        requires own { IsAt self.now seat.old.table_id seat.old.me.0.rows }
        requires wide { self.now.words ≡ table_words rows }
        requires there { IsSome (part_at keyed_links (content_of seat.old.me.0) row) }
        requires lengths { lengths ≡ records.known_row seat.old.me.0 row lengths_word }
        ensures words { result
            ≡ map (records.known_row seat.old.me.0 row) (range_with_len first_key_word 4) }
        ensures same { IsUnchangedToken seat.old seat.new }
    {
        if lengths % LENGTH_RADIX == COMMON_KEY_LENGTH {
            let [a, b] = self.words_of::<2>(seat, rows, row, FIRST_KEY_WORD);
            [a, b, 0, 0]
        } else {
            self.words_of::<4>(seat, rows, row, FIRST_KEY_WORD)
        }
    }

    /// The words of an entry's value, in a table of so many rows. Behind a value of 32 bytes they
    /// are 0, and not loaded.
    #[inline(always)]
    pub(crate) fn value_words(
        &self,
        seat: &mut Token<A>,
        rows: u32,
        row: u32,
        lengths: u64,
    ) -> [u64; 8]
        requires own { IsAt self.now seat.old.table_id seat.old.me.0.rows }
        requires wide { self.now.words ≡ table_words rows }
        requires there { IsSome (part_at entry_value (content_of seat.old.me.0) row) }
        requires lengths { lengths ≡ records.known_row seat.old.me.0 row lengths_word }
        ensures words { result
            ≡ map (records.known_row seat.old.me.0 row) (range_with_len first_value_word 8) }
        ensures same { IsUnchangedToken seat.old seat.new }
    {
        if lengths / LENGTH_RADIX == COMMON_VALUE_LENGTH {
            let [a, b, c, d] = self.words_of::<4>(seat, rows, row, FIRST_VALUE_WORD);
            [a, b, c, d, 0, 0, 0, 0]
        } else {
            self.words_of::<8>(seat, rows, row, FIRST_VALUE_WORD)
        }
    }

    /// The pair of an entry of these lengths, in a table of so many rows.
    #[inline(always)]
    pub(crate) fn pair_by(
        &self,
        seat: &mut Token<A>,
        rows: u32,
        row: u32,
        lengths: u64,
    ) -> (Key, Value)
        requires own { IsAt self.now seat.old.table_id seat.old.me.0.rows }
        requires wide { self.now.words ≡ table_words rows }
        requires there { IsSome (part_at keyed_links (content_of seat.old.me.0) row) }
        requires lengths { lengths ≡ records.known_row seat.old.me.0 row lengths_word }
        ensures pair { part_at entry_pair (content_of seat.old.me.0) row ≡ Some result }
        ensures same { IsUnchangedToken seat.old seat.new }
    {
        let key = self.key_words(seat, rows, row, lengths);
        let value = self.value_words(seat, rows, row, lengths);
        match Row::read_pair(lengths, &key, &value) {
            Some(pair) => pair,
            None => unreachable!(),
        }
    }

    /// The key and the value of an entry. One of a key of 16 bytes and a value of 32 has an arm of
    /// its own: there the compiled code knows the lengths, and makes both with no further test.
    #[inline(always)]
    pub(crate) fn pair(&self, seat: &mut Token<A>, row: u32) -> (Key, Value)
        requires own { IsAt self.now seat.old.table_id seat.old.me.0.rows }
        requires there { IsSome (part_at keyed_links (content_of seat.old.me.0) row) }
        ensures pair { part_at entry_pair (content_of seat.old.me.0) row ≡ Some result }
        ensures same { IsUnchangedToken seat.old seat.new }
    {
        let rows = self.row_count();
        let lengths = self.word(seat, row, LENGTHS_WORD);
        if lengths == COMMON_LENGTHS {
            self.pair_by(seat, rows, row, COMMON_LENGTHS)
        } else {
            self.pair_by(seat, rows, row, lengths)
        }
    }

    /// Adds the pair of an entry, as [`Board::pair`] returns it, to a list that has room for one.
    /// Each arm makes it where the list has its room.
    #[inline(always)]
    pub(crate) fn push_pair<B: Allocator>(
        &self,
        seat: &mut Token<A>,
        row: u32,
        list: &mut Vec<(Key, Value), B>,
    )
        requires own { IsAt self.now seat.old.table_id seat.old.me.0.rows }
        requires there { IsSome (part_at keyed_links (content_of seat.old.me.0) row) }
        requires room { length list.old.items < vec_capacity list.old }
        ensures pushed { (pair : Pair)
            → part_at entry_pair (content_of seat.old.me.0) row ≡ Some pair
            → list.new.items ≡ list.old.items ++ pair ∷ [] }
        ensures same { IsUnchangedToken seat.old seat.new }
    {
        let rows = self.row_count();
        let lengths = self.word(seat, row, LENGTHS_WORD);
        if lengths == COMMON_LENGTHS {
            list.push_reserved(self.pair_by(seat, rows, row, COMMON_LENGTHS));
        } else {
            list.push_reserved(self.pair_by(seat, rows, row, lengths));
        }
    }

    /// Sets word k of a blank row to `value`. A store costs some twenty times as much as a load,
    /// and a node that is written anew stands mostly where an earlier version of it stood: so the
    /// word there is loaded first, and stored only if it is to be another.
    #[inline(always)]
    fn store_word(&self, seat: &mut Token<A>, rows: u32, row: u32, k: usize, value: u64)
        requires own { IsAt self.now seat.old.table_id seat.old.me.0.rows }
        requires wide { self.now.words ≡ table_words rows }
        requires blank { IsTrue (may_write seat.old.me.0 row) }
        requires there { k < row_words }
        ensures same { IsSameToken seat.old seat.new }
        ensures stored { seat.new.me ≡ (
          record seat.old.me.0 {
            known_words =
                slice_set seat.old.me.0.known_words (row_word seat.old.me.0.rows row k) value;
          },
          seat.old.me.1,
        ) }
        ensures room { (row < seat.old.me.0.rows)
            × (length seat.old.me.0.known_words ≡ table_words seat.old.me.0.rows) }
    {
        if self.word_of(seat, rows, row, k) != value {
            self.store(seat, row_word(rows, row, k), value);
        }
    }

    /// Makes the first words of a blank row these.
    pub(crate) fn store_words<const N: usize>(
        &self,
        seat: &mut Token<A>,
        row: u32,
        words: &[u64; N],
    )
        requires own { IsAt self.now seat.old.table_id seat.old.me.0.rows }
        requires blank { IsTrue (may_write seat.old.me.0 row) }
        requires there { N ≤ row_words }
        ensures same { IsSameButWords seat.old seat.new }
        ensures stored { RowStored seat.old.me.0.rows row N words.now
            seat.old.me.0.known_words seat.new.me.0.known_words }
    {
        let rows = self.row_count();
        for k in 0..N {
            self.store_word(seat, rows, row, k, words[k]);
        }
    }

    /// Copies so many words of a row, from one on, into a blank row, and makes so many words behind
    /// them 0, as they are in the row that is copied. It returns the words that it copied.
    ///
    /// Each word is stored as soon as it is loaded, so no list of them is filled first and read
    /// again. The loops have a fixed number of turns and no choice in them: so the compiler lays
    /// them out without a loop.
    #[inline(always)]
    fn copy_part<const N: usize, const M: usize>(
        &self,
        seat: &mut Token<A>,
        from: u32,
        to: u32,
        at: usize,
    ) -> [u64; N]
        requires own { IsAt self.now seat.old.table_id seat.old.me.0.rows }
        requires readable { may_read seat.old.me.0 from ≡ true }
        requires blank { IsTrue (may_write seat.old.me.0 to) }
        requires there { at + (N + M) ≤ row_words }
        requires zeros { (k : ℕ) → k < M
            → records.known_row seat.old.me.0 from (at + (N + k)) ≡ 0 }
        ensures words { result
            ≡ map (records.known_row seat.old.me.0 from) (range_with_len at N) }
        ensures same { IsSameButWords seat.old seat.new }
        ensures stored { PartStored seat.old.me.0.rows to at (N + M)
            (records.known_row seat.old.me.0 from)
            seat.old.me.0.known_words seat.new.me.0.known_words }
    {
        let rows = self.row_count();
        let mut words = [0; N];
        for k in 0..N {
            let word = self.word_of(seat, rows, from, at + k);
            words[k] = word;
            self.store_word(seat, rows, to, at + k, word);
        }
        for k in 0..M {
            self.store_word(seat, rows, to, at + (N + k), 0);
        }
        words
    }

    /// Copies the words of an entry's key and value into a blank row, and returns them. In an entry
    /// with a key of 16 bytes and a value of 32, six of them are 0, and not loaded.
    #[inline(always)]
    fn copy_bytes(
        &self,
        seat: &mut Token<A>,
        from: u32,
        to: u32,
        lengths: u64,
    ) -> ([u64; 4], [u64; 8])
        requires own { IsAt self.now seat.old.table_id seat.old.me.0.rows }
        requires readable { may_read seat.old.me.0 from ≡ true }
        requires blank { IsTrue (may_write seat.old.me.0 to) }
        requires ends { IsPadded lengths (records.known_row seat.old.me.0 from) }
        ensures key { result.0
            ≡ map (records.known_row seat.old.me.0 from) (range_with_len first_key_word 4) }
        ensures value { result.1
            ≡ map (records.known_row seat.old.me.0 from) (range_with_len first_value_word 8) }
        ensures same { IsSameButWords seat.old seat.new }
        ensures stored { PartStored seat.old.me.0.rows to first_key_word 12
            (records.known_row seat.old.me.0 from)
            seat.old.me.0.known_words seat.new.me.0.known_words }
    {
        if lengths == COMMON_LENGTHS {
            let [a, b] = self.copy_part::<2, 2>(seat, from, to, FIRST_KEY_WORD);
            let [c, d, e, f] = self.copy_part::<4, 4>(seat, from, to, FIRST_VALUE_WORD);
            ([a, b, 0, 0], [c, d, e, f, 0, 0, 0, 0])
        } else {
            let [a, b, c, d, e, f, g, h, i, j, k, l] = self.copy_part::<12, 0>(
                seat,
                from,
                to,
                FIRST_KEY_WORD,
            );
            ([a, b, c, d], [e, f, g, h, i, j, k, l])
        }
    }

    /// Copies the words of an entry of these lengths into a blank row, with other links. It returns
    /// those of its key and its value.
    #[inline(always)]
    pub(crate) fn copy_words(
        &self,
        seat: &mut Token<A>,
        from: u32,
        to: u32,
        links: BareLinks,
        lengths: u64,
    ) -> ([u64; 4], [u64; 8])
        requires own { IsAt self.now seat.old.table_id seat.old.me.0.rows }
        requires readable { may_read seat.old.me.0 from ≡ true }
        requires blank { IsTrue (may_write seat.old.me.0 to) }
        requires kind { records.known_row seat.old.me.0 from 0 ≡ entry_tag }
        requires ends { IsPadded lengths (records.known_row seat.old.me.0 from) }
        requires lengths { lengths ≡ records.known_row seat.old.me.0 from lengths_word }
        ensures key { result.0
            ≡ map (records.known_row seat.old.me.0 from) (range_with_len first_key_word 4) }
        ensures value { result.1
            ≡ map (records.known_row seat.old.me.0 from) (range_with_len first_value_word 8) }
        ensures same { IsSameButWords seat.old seat.new }
        ensures stored { RowStored seat.old.me.0.rows to row_words
            (relinked_list (records.known_row seat.old.me.0 from) links.child links.next)
            seat.old.me.0.known_words seat.new.me.0.known_words }
    {
        let front = [
            ENTRY_TAG,
            u64::from(links.child),
            u64::from(links.next),
            lengths,
        ];
        self.store_words(seat, to, &front);
        self.copy_bytes(seat, from, to, lengths)
    }
}
