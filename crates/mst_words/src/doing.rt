//! The steps of a seat by their deeds: each is one call of the table on one word.
//!
//! A seat makes every step but a publication through one of these calls. What they require and say
//! is said of deeds alone (`specs/Deeds.antt`), so `path_laws`, which speaks of each deed, speaks
//! of each such step.
ghost use Rattle.std.specs.Prelude.{◌≡◌, ◌<◌, ◌==◌, ℕ, bit_xor, if◌then◌else◌, Option};
ghost use mathlib.Core.Option.{none};
ghost use Rattle.atomic_table.specs.Table.{Me, step};
ghost use Rattle.mst_arena.specs.Lives as lives;
ghost use Rattle.mst_words.specs.declared.view.View.{View};
ghost use Rattle.mst_words.specs.Access.{IsSameToken};
ghost use Rattle.mst_words.specs.Deeds.{told_by, MayDo, word_after};

use crate::board::{Board, Token};
use crate::plays::{Doing, HasDeed};
use std::alloc::Allocator;

impl<A: Allocator + Copy> Board<A> {
    /// Loads a word, by a deed that leaves it as it is.
    pub(crate) fn load_by<D: HasDeed>(&self, seat: &mut Token<A>, word: usize) -> u64
        requires own { seat.old.table_id ≡ self.now }
        requires there { word < self.now.words }
        requires may { MayDo D.deed word seat.old.me }
        requires leaves { (n : ℕ)
            → word_after D.deed (step self.now.slots word 0 0 none) seat.old.me.0 n ≡ n }
        ensures same { IsSameToken seat.old seat.new }
        ensures tells { told_by D.deed (step self.now.slots word 0 0 none) seat.old.me result
            seat.new.me }
    {
        self.table.shared.load::<Doing<D>>(seat, word)
    }

    /// Stores a word, by a deed that tells nothing of the one that was there.
    pub(crate) fn store_by<D: HasDeed>(&self, seat: &mut Token<A>, word: usize, value: u64)
        requires own { seat.old.table_id ≡ self.now }
        requires there { word < self.now.words }
        requires may { MayDo D.deed word seat.old.me }
        requires stores { (n : ℕ)
            → word_after D.deed (step self.now.slots word value 0 none) seat.old.me.0 n ≡ value }
        requires blind { (n : ℕ) (m : Me (Option lives.State) View)
            → told_by D.deed (step self.now.slots word value 0 none) seat.old.me n m
            → told_by D.deed (step self.now.slots word value 0 none) seat.old.me value m }
        ensures same { IsSameToken seat.old seat.new }
        ensures tells { told_by D.deed (step self.now.slots word value 0 none) seat.old.me value
            seat.new.me }
    {
        self.table.shared.store::<Doing<D>>(seat, word, value);
    }

    /// Turns bits of a word, by a deed that turns these.
    pub(crate) fn xor_by<D: HasDeed>(&self, seat: &mut Token<A>, word: usize, bits: u64) -> u64
        requires own { seat.old.table_id ≡ self.now }
        requires there { word < self.now.words }
        requires may { MayDo D.deed word seat.old.me }
        requires turns { (n : ℕ)
            → word_after D.deed (step self.now.slots word bits 0 none) seat.old.me.0 n
            ≡ bit_xor n bits }
        ensures same { IsSameToken seat.old seat.new }
        ensures tells { told_by D.deed (step self.now.slots word bits 0 none) seat.old.me result
            seat.new.me }
    {
        self.table.shared.fetch_xor::<Doing<D>>(seat, word, bits)
    }

    /// Writes a word where it is 0, by a deed that does so. Returns the word that was there.
    pub(crate) fn claim_by<D: HasDeed>(&self, seat: &mut Token<A>, word: usize, value: u64) -> u64
        requires own { seat.old.table_id ≡ self.now }
        requires there { word < self.now.words }
        requires may { MayDo D.deed word seat.old.me }
        requires claims { (n : ℕ)
            → word_after D.deed (step self.now.slots word 0 value none) seat.old.me.0 n
            ≡ (if n == 0 then value else n) }
        ensures same { IsSameToken seat.old seat.new }
        ensures tells { told_by D.deed (step self.now.slots word 0 value none) seat.old.me result
            seat.new.me }
    {
        self.table
            .shared
            .compare_exchange::<Doing<D>>(seat, word, 0, value)
    }
}
