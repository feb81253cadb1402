//! The steps of a pass that pins: the pin, the loads of words, and the end of the pin.
ghost use Rattle.std.specs.Prelude.{◌≡◌, ◌+◌, ◌%◌, ◌^◌, ◌<◌, ◌≤◌, ◌-◌, ℕ, slice_index};
ghost use Rattle.mst_words.specs.Access.{IsSameSeat, IsUnchangedToken};
ghost use Rattle.mst_words.specs.Layout.{most_passes, most_records, table_words};
ghost use Rattle.mst_words.specs.Stored.{stored};
ghost use Rattle.mst_words.specs.Steps.{IsFree, IsPinned, PinsNow, Unpins, Forgets, IsReadable, IsMaskWord, Glances};

use crate::board::{Board, Token};
use crate::layout::{CURRENT, FIRST_DONE, MASKS};
use crate::plays::{Forget, Glance, Pin, Read, Unpin};
use crate::seat::PassSeat;
use std::alloc::Allocator;

/// The bit of a pass in the masks: pass p has bit p - 1.
fn bit_of(number: u32) -> u64
    requires some { 0 < number }
    requires few { number ≤ most_passes }
    ensures bit { result ≡ 2 ^ (number - 1) }
{
    1 << (number - 1)
}

impl<'a, A: Allocator + Copy> PassSeat<'a, A> {
    /// Pins the current record: one xor of the pass's bit into the word of the current record. It
    /// returns the record.
    pub fn pin(&mut self, number: u32) -> u32
        requires free { IsFree number self.old.me }
        requires few { number ≤ most_passes }
        ensures same { IsSameSeat self.old self.new }
        ensures pinned { (found : ℕ)
            × (p : PinsNow (stored self.old.me.0.format) self.old.me found self.new.me)
            × (p.cur ≡ result) }
    {
        let bit = bit_of(number);
        let found = self.board.xor_by::<Pin>(&mut self.token, CURRENT, bit);
        (found >> 32) as u32
    }

    /// Ends the pin: one xor of the pass's bit into the record's word DONE. The pass has then seen
    /// the history at its pin.
    pub fn unpin(&mut self, number: u32, which: u32)
        requires pinned { IsPinned number which self.old.me }
        requires some { 0 < number }
        requires few { number ≤ most_passes }
        requires there { which < most_records }
        ensures same { IsSameSeat self.old self.new }
        ensures free { Unpins self.old.me self.new.me }
    {
        let done = which as usize + FIRST_DONE;
        let bit = bit_of(number);
        self.board.xor_by::<Unpin>(&mut self.token, done, bit);
    }

    /// Ends the pin as [`PassSeat::unpin`] does, but the pass has seen no more than before its pin.
    pub fn forget(&mut self, number: u32, which: u32)
        requires pinned { IsPinned number which self.old.me }
        requires some { 0 < number }
        requires few { number ≤ most_passes }
        requires there { which < most_records }
        ensures same { IsSameSeat self.old self.new }
        ensures free { Forgets self.old.me self.new.me }
    {
        let done = which as usize + FIRST_DONE;
        let bit = bit_of(number);
        self.board.xor_by::<Forget>(&mut self.token, done, bit);
    }

    /// Loads a word of a record or of a row: one load.
    pub fn load(&mut self, word: usize) -> u64
        requires there { word < table_words self.old.me.0.rows }
        requires readable { IsReadable self.old.me.0 word }
        ensures same { self.new ≡ self.old }
        ensures value { result ≡ slice_index self.old.me.0.known_words word }
    {
        self.board.load(&mut self.token, word)
    }
}

impl<A: Allocator + Copy> Board<A> {
    /// Loads a word of a record or of a row: one load.
    pub(crate) fn load(&self, seat: &mut Token<A>, word: usize) -> u64
        requires own { seat.old.table_id ≡ self.now }
        requires there { word < self.now.words }
        requires readable { IsReadable seat.old.me.0 word }
        ensures same { IsUnchangedToken seat.old seat.new }
        ensures value { result ≡ slice_index seat.old.me.0.known_words word }
    {
        self.load_by::<Read>(seat, word)
    }
}

// The low half of a word: a mask of passes.
fn low_half(word: u64) -> u32
    ensures half { result ≡ word % MASKS }
{
    (word % MASKS) as u32
}

impl<'a, A: Allocator + Copy> PassSeat<'a, A> {
    // For tests: loads a word of pins, of which nothing is said: one load.
    fn glance(&mut self, word: usize) -> u64
        requires there { word < table_words self.old.me.0.rows }
        requires mask { IsMaskWord word }
        ensures same { IsSameSeat self.old self.new }
        ensures counted { Glances self.old.me self.new.me }
    {
        self.board.load_by::<Glance>(&mut self.token, word)
    }

    /// For tests: the passes that pin a record, by what the words say; pass p has bit p - 1.
    /// Nothing is proved of its result.
    ///
    /// It loads two words, one after the other, so its result is right for one moment only while no
    /// pass makes a step. Between a publication and its transfer the mask of the old record stands
    /// in no word, and the result for that record lacks it.
    pub fn pins(&mut self, which: u32) -> u32
        requires there { which < most_records }
        ensures same { IsSameSeat self.old self.new }
        ensures counted { self.new.me
            ≡ (record self.old.me.0 { asked = self.old.me.0.asked + 1 + 1 }, self.old.me.1) }
    {
        let current = self.glance(CURRENT);
        let done = low_half(self.glance(which as usize + FIRST_DONE));
        if current >> 32 == u64::from(which) {
            low_half(current) ^ done
        } else {
            done
        }
    }
}
