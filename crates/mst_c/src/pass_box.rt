//! What a hand holds: a pass, free or pinned, that is laid down together with a share of its store.
ghost use Rattle.std.specs.Prelude.{◌≡◌, ◌≤◌, true, length, Some, None, IfOk, OnErr};
ghost use Rattle.std.specs.Arc.{arc_value};
ghost use Rattle.mst_key.specs.Map.{map_next, map_range};
ghost use Rattle.std.specs.Option.{option_copied};
ghost use Rattle.mst_node.specs.Text.{root as root_digest};
ghost use Rattle.mst_node.specs.Trail.{proof_text};
ghost use Rattle.mst_c.specs.declared.pass_box.State.TheVariants as state;
ghost use Rattle.mst_c.specs.States.{PinsNone};
ghost use Rattle.mst_c.specs.Told.{ValueTold};
ghost use Rattle.mst_c.specs.Holding.{Reads, Forgets, PinsNow, Unpins, Versions, Counts};

mod knowing;
mod writing;

use crate::answering::{tell_now, tell_pinned};
use crate::hand::{Hand, PaddedHand, Taken, give};
use mst_key::{Format, Key, Memory, Value};
use mst_store::{ApplyFault, Busy, Laid, LaidPinned, MigrateFault, Pass, Store, WriteFault};
use std::alloc::Global;
use std::marker::Model;
use std::mem::replace;
use std::sync::Arc;

/// A pass that is laid down, free or pinned, or none while it is in use.
#[derive(Drop)]
pub enum State {
    Away,
    Free(Laid<Global>),
    Pinned(LaidPinned<Global>),
}

/// What no call writes at the end of a box.
const PADDING: [u64; 16] = [0; 16];

/// A pass together with a share of its store. Each call moves the pass out and back, so the box
/// ends with padding: then no other box has its pass in these cache lines.
#[derive(Drop)]
pub struct PassBox {
    store: Arc<Store<Global>, Global>,
    state: State,
    padding: [u64; 16],
}

/// Contracts see the pass.
impl Model for PassBox {
    ghost use Rattle.std.specs.Prelude.{◌≡◌};
    ghost use Rattle.std.specs.Arc.{arc_value};
    ghost use Rattle.mst_c.specs.declared.pass_box.State.{State};
    ghost use Rattle.mst_c.specs.States.{IsOf};

    ghost Value = { State };

    ghost view = { λ h. h.state };

    ghost invariant = { λ h. IsOf (arc_value h.store) h.state };
}

/// Why nothing was written.
pub enum WriteRefusal {
    /// The pass pins a version.
    Pins,
    /// The store refused it.
    Store(WriteFault),
}

/// Why the tree was not turned to a format.
pub(crate) enum MigrateRefusal {
    /// The pass pins a version.
    Pins,
    /// The store refused it.
    Store(MigrateFault),
}

/// Why no edit was made.
pub(crate) enum ApplyRefusal {
    /// The pass pins a version.
    Pins,
    /// A growth of the list of the edits was refused.
    Memory(Memory),
    /// The store refused it.
    Store(ApplyFault),
}

/// Why the rows were not counted.
pub(crate) enum CountRefusal {
    /// The pass pins a version.
    Pins,
    /// Another pass has the turn.
    Busy,
}

/// A pass of the store, together with a share of it, goes into an empty hand. Nothing else makes a
/// `PassBox`, so no other body has one to put in the place of a pass that it took out of a hand.
pub(crate) fn hand_out(
    alloc: Global,
    store: &Arc<Store<Global>, Global>,
    pass: Pass<'_, Global>,
    hand: &mut Hand,
) -> bool
    requires own { pass.store ≡ arc_value store.now }
    requires empty { hand.old.held ≡ None }
    ensures held { result ≡ true → hand.new.held ≡ Some (state.Free pass.entry) }
{
    let Ok(store) = Arc::try_clone(store) else {
        drop(pass);
        return false;
    };
    let state = State::Free(pass.lay());
    let held = PassBox {
        store,
        state,
        padding: PADDING,
    };
    match Box::new(alloc, held) {
        Ok(held) => {
            give(hand, Taken::of(held));
            true
        }
        Err(refused) => {
            drop(refused);
            false
        }
    }
}

/// The same for a hand of an array.
pub(crate) fn hand_out_padded(
    alloc: Global,
    store: &Arc<Store<Global>, Global>,
    pass: Pass<'_, Global>,
    hand: &mut PaddedHand,
) -> bool
    requires own { pass.store ≡ arc_value store.now }
    requires empty { hand.old.hand.held ≡ None }
    ensures held { result ≡ true → hand.new.hand.held ≡ Some (state.Free pass.entry) }
{
    hand_out(alloc, store, pass, &mut hand.hand)
}

/// Puts a state where none is. What was there is dropped by a generic function: an assignment would
/// unfold in its proof all that a state may own.
fn put_back(place: &mut State, state: State)
    ensures put { place.new ≡ state }
{
    drop(replace(place, state));
}

impl PassBox {
    /// Returns the code of the key's value. It is made where the value was read, so that the value
    /// is not moved.
    pub(crate) fn get(&mut self, key: &Key, room: &mut [u8]) -> i32
        ensures told { ValueTold key.now self.old room.old result room.new self.new }
    {
        match replace(&mut self.state, State::Away) {
            State::Away => unreachable!(),
            State::Free(laid) => {
                let (laid, code) = tell_now(&self.store, laid, key, room);
                put_back(&mut self.state, State::Free(laid));
                code
            }
            State::Pinned(laid) => {
                let (laid, code) = tell_pinned(&self.store, laid, key, room);
                put_back(&mut self.state, State::Pinned(laid));
                code
            }
        }
    }

    /// The pair of the least key above the bound.
    pub(crate) fn next(&mut self, after: Option<&Key>) -> Option<(Key, Value)>
        ensures reads { Reads (λ _ m. map_next m (option_copied after.entry)) self.old result
            self.new }
    {
        match replace(&mut self.state, State::Away) {
            State::Away => unreachable!(),
            State::Free(laid) => {
                let mut pass = self.store.lift(laid);
                let pair = pass.next(after);
                put_back(&mut self.state, State::Free(pass.lay()));
                pair
            }
            State::Pinned(laid) => {
                let mut pinned = self.store.lift_pinned(laid);
                let pair = pinned.next(after);
                put_back(&mut self.state, State::Pinned(pinned.lay()));
                pair
            }
        }
    }

    /// The first pairs, at most `limit`, of the keys that are at least `from` and below `to`.
    pub(crate) fn range(
        &mut self,
        alloc: Global,
        from: Option<&Key>,
        to: Option<&Key>,
        limit: usize,
    ) -> Result<Vec<(Key, Value), Global>, Memory>
        ensures reads { IfOk result
            (λ found. Reads
            (λ _ m. map_range m (option_copied from.entry) (option_copied to.entry) limit) self.old
            found.items self.new) }
        ensures few { IfOk result (λ found. length found.items ≤ limit) }
        ensures memory { OnErr result (Forgets self.old self.new) }
    {
        match replace(&mut self.state, State::Away) {
            State::Away => unreachable!(),
            State::Free(laid) => {
                let mut pass = self.store.lift(laid);
                let found = pass.range(alloc, from, to, limit);
                put_back(&mut self.state, State::Free(pass.lay()));
                found
            }
            State::Pinned(laid) => {
                let mut pinned = self.store.lift_pinned(laid);
                let found = pinned.range(alloc, from, to, limit);
                put_back(&mut self.state, State::Pinned(pinned.lay()));
                found
            }
        }
    }

    /// The root digest.
    pub(crate) fn root(&mut self) -> [u8; 32]
        ensures reads { Reads root_digest self.old result self.new }
    {
        match replace(&mut self.state, State::Away) {
            State::Away => unreachable!(),
            State::Free(laid) => {
                let mut pass = self.store.lift(laid);
                let root = pass.root();
                put_back(&mut self.state, State::Free(pass.lay()));
                root
            }
            State::Pinned(laid) => {
                let mut pinned = self.store.lift_pinned(laid);
                let root = pinned.root();
                put_back(&mut self.state, State::Pinned(pinned.lay()));
                root
            }
        }
    }

    /// The proof of the key's answer.
    pub(crate) fn prove(&mut self, alloc: Global, key: &Key) -> Result<Vec<u8, Global>, Memory>
        ensures reads { IfOk result
            (λ found. Reads (λ f m. proof_text f m key.now) self.old found.items self.new) }
        ensures memory { OnErr result (Forgets self.old self.new) }
    {
        match replace(&mut self.state, State::Away) {
            State::Away => unreachable!(),
            State::Free(laid) => {
                let mut pass = self.store.lift(laid);
                let proof = pass.prove(alloc, key);
                put_back(&mut self.state, State::Free(pass.lay()));
                proof
            }
            State::Pinned(laid) => {
                let mut pinned = self.store.lift_pinned(laid);
                let proof = pinned.prove(alloc, key);
                put_back(&mut self.state, State::Pinned(pinned.lay()));
                proof
            }
        }
    }

    /// Pins the current version, if the pass is free.
    pub(crate) fn pin(&mut self) -> bool
        ensures pins { PinsNow self.old result self.new }
    {
        match replace(&mut self.state, State::Away) {
            State::Free(laid) => {
                let pass = self.store.lift(laid);
                put_back(&mut self.state, State::Pinned(pass.pin().lay()));
                true
            }
            other => {
                put_back(&mut self.state, other);
                false
            }
        }
    }

    /// Ends the pin, if there is one.
    pub(crate) fn unpin(&mut self) -> bool
        ensures unpins { Unpins self.old result self.new }
        ensures free { PinsNone self.new }
    {
        match replace(&mut self.state, State::Away) {
            State::Pinned(laid) => {
                let pinned = self.store.lift_pinned(laid);
                put_back(&mut self.state, State::Free(pinned.unpin().lay()));
                true
            }
            other => {
                put_back(&mut self.state, other);
                false
            }
        }
    }

    /// The number of the version.
    pub(crate) fn version(&mut self) -> u64
        ensures versions { Versions self.old result self.new }
    {
        match replace(&mut self.state, State::Away) {
            State::Away => unreachable!(),
            State::Free(laid) => {
                let mut pass = self.store.lift(laid);
                let version = pass.version();
                put_back(&mut self.state, State::Free(pass.lay()));
                version
            }
            State::Pinned(laid) => {
                let pinned = self.store.lift_pinned(laid);
                let version = pinned.version();
                put_back(&mut self.state, State::Pinned(pinned.lay()));
                version
            }
        }
    }

    /// How many pairs the version has.
    pub(crate) fn len(&mut self) -> u64
        ensures reads { Reads (λ _ m. length m) self.old result self.new }
    {
        match replace(&mut self.state, State::Away) {
            State::Away => unreachable!(),
            State::Free(laid) => {
                let mut pass = self.store.lift(laid);
                let len = pass.len();
                put_back(&mut self.state, State::Free(pass.lay()));
                len
            }
            State::Pinned(laid) => {
                let mut pinned = self.store.lift_pinned(laid);
                let len = pinned.len();
                put_back(&mut self.state, State::Pinned(pinned.lay()));
                len
            }
        }
    }

    /// How many rows the map takes, if the pass is free; none if a pin was found.
    pub(crate) fn rows(&mut self) -> Result<Option<u32>, CountRefusal>
        ensures counts { Counts self.old result self.new }
    {
        match replace(&mut self.state, State::Away) {
            State::Free(laid) => {
                let mut pass = self.store.lift(laid);
                let rows = pass.rows();
                put_back(&mut self.state, State::Free(pass.lay()));
                match rows {
                    Ok(found) => Ok(found),
                    Err(Busy) => Err(CountRefusal::Busy),
                }
            }
            other => {
                put_back(&mut self.state, other);
                Err(CountRefusal::Pins)
            }
        }
    }

    /// The format of the version.
    pub(crate) fn format(&mut self) -> Format
        ensures reads { Reads (λ f _. f) self.old result self.new }
    {
        match replace(&mut self.state, State::Away) {
            State::Away => unreachable!(),
            State::Free(laid) => {
                let mut pass = self.store.lift(laid);
                let format = pass.format();
                put_back(&mut self.state, State::Free(pass.lay()));
                format
            }
            State::Pinned(laid) => {
                let mut pinned = self.store.lift_pinned(laid);
                let format = pinned.format();
                put_back(&mut self.state, State::Pinned(pinned.lay()));
                format
            }
        }
    }
}
