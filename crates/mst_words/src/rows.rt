//! The rows of the table, as a pass reads and writes them.
ghost use Rattle.std.specs.Prelude.{◌≡◌, ◌+◌, ◌<◌, ◌≤◌, map, true, IsTrue, IsSome, Some};
ghost use Rattle.std.specs.List.{range_with_len};
ghost use Rattle.mst_arena.specs.Content.{Writes, part_at};
ghost use Rattle.mst_arena.specs.Row.{keyed_links};
ghost use Rattle.mst_arena.specs.Words.{row_in};
ghost use Rattle.mst_arena.specs.declared.row.Row.{Row};
ghost use Rattle.mst_words.specs.Layout.{row_words};
ghost use Rattle.mst_words.specs.Records as records;
ghost use Rattle.mst_words.specs.Access.{may_read, may_write, content_of, beside};

use crate::layout::{
    CHILD_WORD, FIRST_DIGEST_WORD, FIRST_KEY_WORD, LAYER_WORD, LENGTHS_WORD, ROW_WORDS,
};
use crate::row_words::COMMON_KEY_LENGTH;
use crate::seat::PassSeat;
use mst_arena::{BareLinks, HeadLinks, KeyedLinks, LENGTH_RADIX, Row, Rows, Sought, Stop, Way};
use mst_key::{Format, Key, Value};
use mst_node::TextSink;
use mst_prefix::TextHasher;
use std::alloc::Allocator;

impl<'a, A: Allocator + Copy> PassSeat<'a, A> {
    // Word k of a row: one load.
    fn word(&mut self, row: u32, k: usize) -> u64
        requires readable { may_read self.old.me.0 row ≡ true }
        requires there { k < row_words }
        ensures word { result ≡ records.known_row self.old.me.0 row k }
        ensures same { self.new ≡ self.old }
    {
        self.board.word(&mut self.token, row, k)
    }

    // The words of a row from one on: a load for each.
    fn words<const N: usize>(&mut self, row: u32, from: usize) -> [u64; N]
        requires readable { may_read self.old.me.0 row ≡ true }
        requires there { from + N ≤ row_words }
        ensures words { result
            ≡ map (records.known_row self.old.me.0 row) (range_with_len from N) }
        ensures same { self.new ≡ self.old }
    {
        self.board.words(&mut self.token, row, from)
    }

    // Words 1 to 7 of an entry's row. Behind a key of 16 bytes they are 0, and not loaded.
    #[inline(always)]
    fn entry_words(&mut self, row: u32) -> [u64; 7]
        requires there { IsSome (part_at keyed_links (content_of self.old.me.0) row) }
        ensures words { result
            ≡ map (records.known_row self.old.me.0 row) (range_with_len 1 7) }
        ensures same { self.new ≡ self.old }
    {
        let [child, next, lengths] = self.words::<3>(row, CHILD_WORD);
        if lengths % LENGTH_RADIX == COMMON_KEY_LENGTH {
            let [a, b] = self.words::<2>(row, FIRST_KEY_WORD);
            [child, next, lengths, a, b, 0, 0]
        } else {
            let [a, b, c, d] = self.words::<4>(row, FIRST_KEY_WORD);
            [child, next, lengths, a, b, c, d]
        }
    }

    // Makes the words of a blank row these.
    fn store_words(&mut self, row: u32, words: &[u64; ROW_WORDS])
        requires blank { IsTrue (may_write self.old.me.0 row) }
        ensures writes { (value : Row) → row_in words.now ≡ Some value
            → Writes (content_of self.old.me.0) (content_of self.new.me.0) row value }
        ensures blank { may_write self.new.me.0 ≡ may_write self.old.me.0 }
        ensures kept { beside self.new ≡ beside self.old }
    {
        self.board.store_words(&mut self.token, row, words);
    }
}

impl<'a, A: Allocator + Copy> Rows for PassSeat<'a, A> {
    ghost use Rattle.mst_words.specs.Access.{content_of, may_write, Beside, beside};

    ghost content = { λ c. content_of c.me.0 };

    ghost blank = { λ c. may_write c.me.0 };

    ghost Kept = { Beside };

    ghost kept = { beside };

    fn read(&mut self, row: u32) -> Row {
        match Row::read(&self.words(row, 0)) {
            Some(row) => row,
            None => unreachable!(),
        }
    }

    fn write(&mut self, row: u32, value: &Row) {
        let words = value.words();
        self.store_words(row, &words);
    }

    #[inline(always)]
    fn copy_entry<B: Allocator>(
        &mut self,
        from: u32,
        to: u32,
        links: BareLinks,
        format: Format,
        child: Option<[u8; 32]>,
        hasher: &mut TextHasher<B>,
    ) {
        self.board
            .copy_entry(&mut self.token, from, to, links, format, child, hasher);
    }

    fn head(&mut self, row: u32) -> HeadLinks {
        match HeadLinks::read(&self.words(row, LAYER_WORD)) {
            Some(links) => links,
            None => unreachable!(),
        }
    }

    fn digest(&mut self, row: u32) -> [u8; 32] {
        Row::read_digest(&self.words(row, FIRST_DIGEST_WORD))
    }

    #[inline(always)]
    fn entry(&mut self, row: u32) -> KeyedLinks {
        match KeyedLinks::read(&self.entry_words(row)) {
            Some(links) => links,
            None => unreachable!(),
        }
    }

    #[inline(always)]
    fn links(&mut self, row: u32) -> BareLinks {
        self.board.links(&mut self.token, row)
    }

    #[inline(always)]
    fn pair(&mut self, row: u32) -> (Key, Value) {
        self.board.pair(&mut self.token, row)
    }

    #[inline(always)]
    fn push_pair<B: Allocator>(&mut self, row: u32, list: &mut Vec<(Key, Value), B>) {
        self.board.push_pair(&mut self.token, row, list);
    }

    #[inline(always)]
    fn spell<S: TextSink>(
        &mut self,
        row: u32,
        format: Format,
        child: Option<[u8; 32]>,
        sink: &mut S,
    ) {
        self.board.spell(&mut self.token, row, format, child, sink);
    }

    fn way(&mut self, row: u32, key: &Sought) -> Way {
        self.board.way(&mut self.token, row, key)
    }

    #[inline(always)]
    fn search(&mut self, first: u32, count: u32, key: &Sought) -> Stop {
        self.board.search(&mut self.token, first, count, key)
    }

    #[inline(always)]
    fn value(&mut self, row: u32) -> Value {
        let lengths = self.word(row, LENGTHS_WORD);
        let rows = self.board.row_count();
        let words = self.board.value_words(&mut self.token, rows, row, lengths);
        match Row::read_value(lengths, &words) {
            Some(value) => value,
            None => unreachable!(),
        }
    }
}
