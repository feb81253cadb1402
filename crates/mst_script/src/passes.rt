//! The passes of a store while they serve a script: some pin a version, the others are free.
ghost use Rattle.std.specs.Prelude.{◌≡◌, ◌<◌, ◌+◌, ◌≤◌, [], length, false, vec_len, vec_capacity};
ghost use Rattle.std.specs.List.{Contains};
ghost use Rattle.mst_store.specs.Settling.{numbers, AreAllPasses, Settled};
ghost use Rattle.mst_requests.specs.Answers.{text_of};
ghost use Rattle.mst_script.specs.Serving.{everyone, IsFound, is_pin, is_unpin, AsksFree, AsksPinned, Pins, Unpins, AllFreed, Released};

use crate::asking::ask;
use crate::recalling::recall;
use mst_requests::{Answer, Command};
use mst_store::{Pass, Pinned, settle};
use std::alloc::Allocator;
use std::marker::Model;

/// Where a pass is, among the free passes or among those that pin a version.
#[derive(Clone, Copy)]
pub enum PassPlace {
    /// At this place of the free passes.
    Free(usize),
    /// At this place of those that pin a version.
    Pinned(usize),
}

/// The passes of a store, each of them free or with a pin.
///
/// There is room for each of them on either side, so that a pin takes no memory.
#[derive(Drop)]
pub struct Passes<'a, A: Allocator, B: Allocator + Copy> {
    free: Vec<Pass<'a, B>, B>,
    pinned: Vec<Pinned<'a, B>, A>,
}

/// Contracts see what is known of the passes on either side.
impl<'a, A: Allocator, B: Allocator + Copy> Model for Passes<'a, A, B> {
    ghost use Rattle.std.specs.Prelude.{◌+◌, ◌≤◌, vec_len, vec_capacity};
    ghost use Rattle.mst_script.specs.Serving.{Roster, roster};

    ghost Value = { Roster };

    ghost view = { λ p. roster p.free.items p.pinned.items };

    ghost invariant = { λ p. (vec_len p.free + vec_len p.pinned ≤ vec_capacity p.free)
        × (vec_len p.free + vec_len p.pinned ≤ vec_capacity p.pinned) };
}

impl<'a, A: Allocator, B: Allocator + Copy> Passes<'a, A, B> {
    /// Free passes, and an empty list with room for as many that pin a version.
    pub fn new(free: Vec<Pass<'a, B>, B>, pinned: Vec<Pinned<'a, B>, A>) -> Self
        requires empty { pinned.items ≡ [] }
        requires room { vec_len free ≤ vec_capacity pinned }
        ensures free { result.free ≡ free.entry.items }
        ensures none { result.pinned ≡ [] }
    {
        Passes { free, pinned }
    }

    /// Returns the free passes, if no pass has a pin.
    pub fn into_free(self) -> Vec<Pass<'a, B>, B>
        ensures free { result.items ≡ self.entry.free }
    {
        let Passes { free, pinned: _ } = self;
        free
    }

    /// Lets all passes settle.
    pub fn settle(&mut self)
        requires whole { AreAllPasses (everyone self.old) }
        ensures settled { Settled self.old.free self.old.pinned self.new.free self.new.pinned }
    {
        settle(self.free.as_mut_slice(), self.pinned.as_mut_slice());
    }

    /// Where the pass with this number is.
    pub fn find(&self, number: u32) -> PassPlace
        requires there { Contains (numbers (everyone self.now)) number }
        ensures found { IsFound self.now number result }
    {
        for (place, pinned) in self.pinned.as_slice().iter().enumerate() {
            if pinned.number() == number {
                return PassPlace::Pinned(place);
            }
        }
        for (place, pass) in self.free.as_slice().iter().enumerate() {
            if pass.number() == number {
                return PassPlace::Free(place);
            }
        }
        unreachable!()
    }

    /// Lets the free pass at this place do what it is asked for.
    pub fn ask<C: Allocator + Copy>(
        &mut self,
        alloc: C,
        place: usize,
        command: &Command<'_>,
    ) -> Answer<C>
        requires place { place < length self.old.free }
        requires other { is_pin command.now ≡ false }
        ensures asked { AsksFree command.now self.old place (text_of result) self.new }
    {
        ask(alloc, &mut self.free[place], command)
    }

    /// Lets the pass at this place read the version that it pins, as it is asked to.
    pub fn recall<C: Allocator + Copy>(
        &mut self,
        alloc: C,
        place: usize,
        command: &Command<'_>,
    ) -> Answer<C>
        requires place { place < length self.old.pinned }
        requires other { is_unpin command.now ≡ false }
        ensures asked { AsksPinned command.now self.old place (text_of result) self.new }
    {
        recall(alloc, &mut self.pinned[place], command)
    }

    /// Pins the current version by the free pass at this place, and returns the version's number.
    pub fn pin(&mut self, place: usize) -> u64
        requires place { place < length self.old.free }
        ensures pins { Pins self.old place result self.new }
    {
        let pinned = self.free.swap_remove(place).pin();
        let version = pinned.version();
        self.pinned.push_reserved(pinned);
        version
    }

    /// Ends the pin of the pass at this place.
    pub fn unpin(&mut self, place: usize)
        requires place { place < length self.old.pinned }
        ensures unpins { Unpins self.old place self.new }
    {
        let pass = self.pinned.swap_remove(place).unpin();
        self.free.push_reserved(pass);
    }

    // Ends all pins.
    fn unpin_all(&mut self)
        ensures freed { AllFreed self.old self.new }
    {
        while let Some(pinned) = self.pinned.pop() {
            self.free.push_reserved(pinned.unpin());
        }
    }

    /// Ends all pins, and lets all passes settle.
    pub fn release_all(&mut self)
        requires whole { AreAllPasses (everyone self.old) }
        ensures released { Released self.old self.new }
    {
        self.unpin_all();
        self.settle();
    }
}
