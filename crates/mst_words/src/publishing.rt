//! The steps of the holder of the turn between taking it and giving it back.
ghost use Rattle.std.specs.Prelude.{◌≡◌, ◌≢◌, ◌+◌, ◌<◌, ℕ, List, true, false, slice_set, IsSome, Some};
ghost use Rattle.mst_arena.specs.Lists.{In};
ghost use Rattle.mst_words.specs.Access.{IsSameSeat, IsSameToken};
ghost use Rattle.mst_words.specs.Stored.{stored, desk_state};
ghost use Rattle.mst_words.specs.Layout.{most_records, table_words};
ghost use Rattle.mst_words.specs.Steps.{IsHolder, IsWritable, IsReady, Publishes, Transfers, Drained, Blocked, NotesCurrent, AsksCurrent};

use crate::board::{Board, Token};
use crate::layout::{CURRENT, FIRST_DONE, MASKS};
use crate::plays::{Ask, AskCurrent, Naming, NoteCurrent, Publish, Transfer, Write};
use crate::seat::PassSeat;
use mst_arena::Desk;
use mst_key::Event;
use std::alloc::Allocator;

impl<'a, A: Allocator + Copy> PassSeat<'a, A> {
    /// Stores a word of a blank row or of a drained record: one store.
    pub fn store(&mut self, word: usize, value: u64)
        requires there { word < table_words self.old.me.0.rows }
        requires holder { IsHolder self.old.me }
        requires writable { IsWritable (stored self.old.me.0.format) self.old.me.0 word }
        ensures written { self.new ≡ record self.old {
          me = (
            record self.old.me.0 { known_words = slice_set self.old.me.0.known_words word value },
            self.old.me.1,
          );
        } }
    {
        self.board.store(&mut self.token, word, value)
    }

    /// Asks whether a record other than the current one is drained: one load of its word DONE.
    pub fn ask(&mut self, which: u32) -> bool
        requires holder { IsHolder self.old.me }
        requires there { which < self.old.me.0.passes + 2 }
        requires few { which < most_records }
        requires other { which ≢ self.old.me.0.desk.current }
        requires new { In which self.old.me.0.blocked → ⊥ }
        ensures same { IsSameSeat self.old self.new }
        ensures drained { result ≡ true → Drained which self.old.me self.new.me }
        ensures blocked { result ≡ false → Blocked (stored self.old.me.0.format) which self.old.me
            self.new.me }
    {
        let done = which as usize + FIRST_DONE;
        self.board.load_by::<Ask>(&mut self.token, done) == 0
    }

    /// Publishes a drained record: one swap of the word of the current record, with an empty mask.
    /// It returns the word that was there: the record that was current, and the mask of its pins.
    pub fn publish<J: Naming>(&mut self, into: u32, event: &Event, desk: &Desk<A>) -> u64
        requires named { (J.event ≡ event.now) × (J.desk ≡ desk_state desk.now) }
        requires ready { (used : List ℕ)
            × IsReady (stored self.old.me.0.format) into event.now (desk_state desk.now)
            used self.old.me.0 }
        ensures same { IsSameSeat self.old self.new }
        ensures published { Publishes event.now
            (desk_state desk.now) self.old.me result self.new.me }
    {
        let board = self.board;
        let word = u64::from(into) * MASKS;
        board
            .table
            .shared
            .swap::<Publish<J>>(&mut self.token, CURRENT, word)
    }

    /// Moves the mask that a publication brought back into the old record's word DONE: one xor.
    pub fn transfer(&mut self, old: u32, mask: u64)
        requires there { old < most_records }
        requires due { (self.old.me.0.turn ≡ true) × (self.old.me.0.due ≡ Some old)
            × (mask ≡ self.old.me.0.mask) }
        ensures same { IsSameSeat self.old self.new }
        ensures settled { Transfers self.old.me self.new.me }
    {
        let done = old as usize + FIRST_DONE;
        self.board.xor_by::<Transfer>(&mut self.token, done, mask);
    }

    /// Notes the word of the current record: one load. It returns the word.
    pub fn note_current(&mut self) -> u64
        requires holder { IsHolder self.old.me }
        ensures same { IsSameSeat self.old self.new }
        ensures noted { NotesCurrent self.old.me result self.new.me }
    {
        self.board.load_by::<NoteCurrent>(&mut self.token, CURRENT)
    }

    /// Loads the current record's own word DONE: one load, after the word of the current record was
    /// noted. In a store of one pass it is the mask that was noted. In a larger store nothing is
    /// said of it, since others may pin the record and end their pins between the two loads.
    pub fn ask_current(&mut self, current: u32) -> u64
        requires holder { IsHolder self.old.me }
        requires noted { IsSome self.old.me.0.noted }
        requires there { current < most_records }
        requires current { current ≡ self.old.me.0.desk.current }
        ensures same { IsSameSeat self.old self.new }
        ensures asked { AsksCurrent self.old.me result self.new.me }
    {
        let done = current as usize + FIRST_DONE;
        self.board.load_by::<AskCurrent>(&mut self.token, done)
    }
}

impl<A: Allocator + Copy> Board<A> {
    /// Stores a word of a blank row or of a drained record: one store.
    pub(crate) fn store(&self, seat: &mut Token<A>, word: usize, value: u64)
        requires own { seat.old.table_id ≡ self.now }
        requires there { word < self.now.words }
        requires holder { IsHolder seat.old.me }
        requires writable { IsWritable (stored seat.old.me.0.format) seat.old.me.0 word }
        ensures same { IsSameToken seat.old seat.new }
        ensures written { seat.new.me ≡ (
          record seat.old.me.0 { known_words = slice_set seat.old.me.0.known_words word value },
          seat.old.me.1,
        ) }
    {
        self.store_by::<Write>(seat, word, value);
    }
}
