//! The text of an entry, spelled from the words of its row.
ghost use Rattle.std.specs.Prelude.{IsSome};
ghost use Rattle.mst_key.specs.declared.format.Format.TheVariants.{One};
ghost use Rattle.mst_arena.specs.Content.{part_at};
ghost use Rattle.mst_arena.specs.Row.{keyed_links};
ghost use Rattle.mst_words.specs.Access.{IsAt, content_of, IsUnchangedToken};
ghost use Rattle.mst_words.specs.Spelling.{SpellsEntry, IsEntryInLimits};

use crate::board::{Board, Token};
use crate::layout::{FIRST_KEY_WORD, FIRST_VALUE_WORD, LENGTHS_WORD};
use crate::row_words::COMMON_LENGTHS;
use mst_arena::{take_common, take_words};
use mst_key::Format;
use mst_node::{TextSink, take_entry};
use std::alloc::Allocator;

impl<A: Allocator + Copy> Board<A> {
    // Hands over an entry of format 1, made of its words: no key and no value lie in memory.
    #[inline(always)]
    fn spell_words<S: TextSink>(
        &self,
        seat: &mut Token<A>,
        row: u32,
        child: Option<[u8; 32]>,
        sink: &mut S,
    )
        requires own { IsAt self.now seat.old.table_id seat.old.me.0.rows }
        requires there { IsSome (part_at keyed_links (content_of seat.old.me.0) row) }
        ensures entry { SpellsEntry seat.old.me.0 row One child (S.took sink.old)
            (S.took sink.new) }
        ensures limits { IsEntryInLimits seat.old.me.0 row }
        ensures same { IsUnchangedToken seat.old seat.new }
    {
        let lengths = self.word(seat, row, LENGTHS_WORD);
        let key = self.words::<4>(seat, row, FIRST_KEY_WORD);
        let value = self.words::<8>(seat, row, FIRST_VALUE_WORD);
        take_words(sink, child, lengths, &key, &value);
    }

    // Hands over an entry piece by piece.
    #[inline(always)]
    fn spell_pieces<S: TextSink>(
        &self,
        seat: &mut Token<A>,
        row: u32,
        format: Format,
        child: Option<[u8; 32]>,
        sink: &mut S,
    )
        requires own { IsAt self.now seat.old.table_id seat.old.me.0.rows }
        requires there { IsSome (part_at keyed_links (content_of seat.old.me.0) row) }
        ensures entry { SpellsEntry seat.old.me.0 row format child (S.took sink.old)
            (S.took sink.new) }
        ensures limits { IsEntryInLimits seat.old.me.0 row }
        ensures same { IsUnchangedToken seat.old seat.new }
    {
        let pair = self.pair(seat, row);
        take_entry(sink, format, child, pair.0.bytes(), pair.1.bytes());
    }

    // Hands over an entry of any format and lengths. It is never laid out where it is called, so
    // that what most entries take there keeps its registers.
    #[inline(never)]
    fn spell_any<S: TextSink>(
        &self,
        seat: &mut Token<A>,
        row: u32,
        format: Format,
        child: Option<[u8; 32]>,
        sink: &mut S,
    )
        requires own { IsAt self.now seat.old.table_id seat.old.me.0.rows }
        requires there { IsSome (part_at keyed_links (content_of seat.old.me.0) row) }
        ensures entry { SpellsEntry seat.old.me.0 row format child (S.took sink.old)
            (S.took sink.new) }
        ensures limits { IsEntryInLimits seat.old.me.0 row }
        ensures same { IsUnchangedToken seat.old seat.new }
    {
        match format {
            Format::One => self.spell_words(seat, row, child, sink),
            Format::Two => self.spell_pieces(seat, row, format, child, sink),
        }
    }

    /// Hands over an entry, after a child, to what takes the text of its node. One of format 1 with
    /// a key of 16 bytes and a value of 32 has an arm of its own: there the compiled code knows the
    /// lengths.
    #[inline(always)]
    pub(crate) fn spell<S: TextSink>(
        &self,
        seat: &mut Token<A>,
        row: u32,
        format: Format,
        child: Option<[u8; 32]>,
        sink: &mut S,
    )
        requires own { IsAt self.now seat.old.table_id seat.old.me.0.rows }
        requires there { IsSome (part_at keyed_links (content_of seat.old.me.0) row) }
        ensures entry { SpellsEntry seat.old.me.0 row format child (S.took sink.old)
            (S.took sink.new) }
        ensures limits { IsEntryInLimits seat.old.me.0 row }
        ensures same { IsUnchangedToken seat.old seat.new }
    {
        if format == Format::One && self.word(seat, row, LENGTHS_WORD) == COMMON_LENGTHS {
            let rows = self.row_count();
            let (key, value) = self.pair_by(seat, rows, row, COMMON_LENGTHS);
            if take_common(sink, format, child, key.bytes(), value.bytes()) {
                return;
            }
        }
        self.spell_any(seat, row, format, child, sink);
    }
}
