//! A pass that pins a version: it reads that version as long as it likes, whatever other passes
//! write.
ghost use Rattle.std.specs.Prelude.{◌≡◌, ◌+◌, ◌<◌, ◌≤◌, ◌^◌, length, IfOk};
ghost use Rattle.mst_key.specs.Map.{map_get, map_next, map_range, IsMap};
ghost use Rattle.mst_node.specs.Text as text;
ghost use Rattle.mst_node.specs.Trail.{proof_text};
ghost use Rattle.std.specs.Option.{option_copied};
ghost use Rattle.mst_store.specs.Passes.{Looks, most_rows, format_seen};
ghost use Rattle.mst_key.specs.History.{after as after_events};

use crate::pass::Pass;
use mst_key::{Format, Key, Memory, Value};
use mst_versions::PassParameters;
use mst_versions::reading::{self, PinnedVersion};
use mst_words::PassSeat;
use std::alloc::Allocator;
use std::marker::Model;

/// A pass that pins a version. It may be moved to another thread, as a pass may.
///
/// Each of its calls reads the version at the pin, and makes no step whose answer depends on other
/// passes. The rows of its version are not used again before [`Pinned::unpin`]; a pinned pass that
/// is dropped holds them for good.
#[derive(Drop)]
pub struct Pinned<'a, A: Allocator + Copy> {
    pub(crate) seat: PassSeat<'a, A>,
    pub(crate) at: PinnedVersion,
    pub(crate) parameters: PassParameters,
    pub(crate) made: Option<u64>,
}

/// Contracts see which store it is of, its number, the history at its pin, and its own events.
impl<'a, A: Allocator + Copy> Model for Pinned<'a, A> {
    ghost use Rattle.mst_store.specs.Passes.{Known, known_at_pin, IsPinning};

    ghost Value = { Known };

    ghost view = { λ p. known_at_pin p.parameters.number p.made p.seat };

    ghost invariant = { λ p. IsPinning p.parameters p.at p.seat };
}

impl<'a, A: Allocator + Copy> Pass<'a, A> {
    /// Pins the current version, in one step. The history at the pin begins with all that the pass
    /// had seen.
    ///
    /// What is pinned is a map of at most 65,535 pairs: its keys rise strictly, and keys and values
    /// are within their limits. So its root digest is one that the verifier of proofs speaks of.
    pub fn pin(self) -> Pinned<'a, A>
        ensures looks { Looks self.entry result }
        ensures once { result.asked ≡ self.entry.asked + 1 }
        ensures map { IsMap (after_events result.seen) }
        ensures few { length (after_events result.seen) ≤ most_rows }
    {
        let Pass {
            mut seat,
            parameters,
            made,
        } = self;
        let at = reading::pin(&mut seat, parameters);
        Pinned {
            seat,
            at,
            parameters,
            made,
        }
    }
}

impl<'a, A: Allocator + Copy> Pinned<'a, A> {
    /// The number of the pass, from 1 to the number of the store's passes.
    pub fn number(&self) -> u32
        ensures number { result ≡ self.now.number }
    {
        self.parameters.number
    }

    /// Returns the version that the last write of the pass made, as [`Pass::made`] does.
    pub fn made(&self) -> Option<u64>
        ensures made { result ≡ self.now.made }
    {
        self.made
    }

    /// Returns the number of the pinned version: how many events led to it.
    pub fn version(&self) -> u64
        ensures version { result ≡ length self.now.seen }
    {
        self.at.version
    }

    /// Returns the value of the key in the pinned version, or `None` if the key has no value there.
    /// It takes no memory.
    pub fn get(&mut self, key: &Key) -> Option<Value>
        ensures found { result ≡ map_get (after_events self.old.seen) key.now }
        ensures same { self.new ≡ self.old }
    {
        reading::get(&mut self.seat, &self.at, key)
    }

    /// Returns the pair of the least key above `after` in the pinned version, or the pair of the
    /// least key if `after` is `None`. Returns `None` if there is no such pair. It takes no memory.
    pub fn next(&mut self, after: Option<&Key>) -> Option<(Key, Value)>
        ensures found { result ≡ map_next (after_events self.old.seen) (option_copied after.entry) }
        ensures same { self.new ≡ self.old }
    {
        reading::next(&mut self.seat, &self.at, after)
    }

    /// Returns the first pairs of the pinned version, at most `limit`, whose keys are at least
    /// `from` and below `to`, in the order of their keys. A bound that is `None` does not bind.
    ///
    /// Returns `Memory` if the growth of the list was refused.
    pub fn range<B: Allocator>(
        &mut self,
        alloc: B,
        from: Option<&Key>,
        to: Option<&Key>,
        limit: usize,
    ) -> Result<Vec<(Key, Value), B>, Memory>
        ensures found { IfOk result
            (λ found. found.items ≡ map_range (after_events self.old.seen)
            (option_copied from.entry) (option_copied to.entry) limit) }
        ensures same { self.new ≡ self.old }
    {
        reading::range(&mut self.seat, alloc, &self.at, from, to, limit)
    }

    /// Returns how many pairs the pinned version has. It takes no memory.
    pub fn len(&mut self) -> u64
        ensures found { result ≡ length (after_events self.old.seen) }
        ensures same { self.new ≡ self.old }
    {
        reading::len(&mut self.seat, &self.at)
    }

    /// Returns the format of the pinned version, whatever migrations were made since the pin. It
    /// takes no memory.
    pub fn format(&mut self) -> Format
        ensures found { result ≡ format_seen self.old }
        ensures same { self.new ≡ self.old }
    {
        reading::format(&mut self.seat, &self.at)
    }

    /// Returns the root digest of the pinned version, as [`Pass::root`] does of the current one. It
    /// takes no memory.
    pub fn root(&mut self) -> [u8; 32]
        ensures found { result ≡ text.root (format_seen self.old) (after_events self.old.seen) }
        ensures same { self.new ≡ self.old }
    {
        reading::root(&mut self.seat, &self.at)
    }

    /// Returns the proof of the pinned version's answer for the key against its root digest, in the
    /// form that [`Pass::prove`] describes and in fewer than 2^32 bytes.
    ///
    /// Returns `Memory` if a growth was refused.
    pub fn prove<B: Allocator + Copy>(&mut self, alloc: B, key: &Key) -> Result<Vec<u8, B>, Memory>
        ensures found { IfOk result
            (λ found. found.items
            ≡ proof_text (format_seen self.old) (after_events self.old.seen) key.now) }
        ensures short { IfOk result (λ found. length found.items < 2 ^ 32) }
        ensures same { self.new ≡ self.old }
    {
        reading::prove(&mut self.seat, alloc, &self.at, key)
    }

    /// Ends the pin, in one step, and returns the pass. It has then seen the history at the pin.
    pub fn unpin(self) -> Pass<'a, A>
        ensures same { result ≡ self.entry }
    {
        let Pinned {
            mut seat,
            at,
            parameters,
            made,
        } = self;
        seat.unpin(parameters.number, at.pinned);
        Pass {
            seat,
            parameters,
            made,
        }
    }
}
