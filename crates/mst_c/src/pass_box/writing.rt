//! What writes by a hand's pass: a put, a remove, a migration and a batch.
ghost use Rattle.mst_key.specs.declared.history.Change.TheVariants.{Put, Remove};
ghost use Rattle.mst_c.specs.declared.pass_box.State.TheVariants as state;
ghost use Rattle.mst_c.specs.Batches.{Applies};
ghost use Rattle.mst_c.specs.Formats.{Moves};
ghost use Rattle.mst_c.specs.Holding.{Writes};

use crate::packing::Packed;
use crate::pass_box::{ApplyRefusal, MigrateRefusal, PassBox, State, WriteRefusal, put_back};
use mst_key::{Format, Key, Value};
use mst_store::Pass;
use std::alloc::Global;
use std::mem::replace;

/// Makes the edits of a buffer as one change.
fn apply(
    pass: &mut Pass<'_, Global>,
    alloc: Global,
    packed: &Packed<'_>,
) -> Result<(), ApplyRefusal>
    ensures applies { Applies packed.now (state.Free pass.old) result (state.Free pass.new) }
{
    let edits = match packed.edits(alloc) {
        Ok(edits) => edits,
        Err(refused) => return Err(ApplyRefusal::Memory(refused)),
    };
    match pass.try_apply(alloc, edits.as_slice()) {
        Ok(()) => Ok(()),
        Err(fault) => Err(ApplyRefusal::Store(fault)),
    }
}

impl PassBox {
    /// Gives the key the value, if the pass is free.
    pub(crate) fn try_put(
        &mut self,
        key: &Key,
        value: &Value,
    ) -> Result<Option<Value>, WriteRefusal>
        ensures writes { Writes (Put key.now value.now) self.old result self.new }
    {
        match replace(&mut self.state, State::Away) {
            State::Free(laid) => {
                let mut pass = self.store.lift(laid);
                let put = pass.try_put(key, value);
                put_back(&mut self.state, State::Free(pass.lay()));
                match put {
                    Ok(old) => Ok(old),
                    Err(fault) => Err(WriteRefusal::Store(fault)),
                }
            }
            other => {
                put_back(&mut self.state, other);
                Err(WriteRefusal::Pins)
            }
        }
    }

    /// Takes the key out of the map, if the pass is free.
    pub(crate) fn try_remove(&mut self, key: &Key) -> Result<Option<Value>, WriteRefusal>
        ensures writes { Writes (Remove key.now) self.old result self.new }
    {
        match replace(&mut self.state, State::Away) {
            State::Free(laid) => {
                let mut pass = self.store.lift(laid);
                let removed = pass.try_remove(key);
                put_back(&mut self.state, State::Free(pass.lay()));
                match removed {
                    Ok(old) => Ok(old),
                    Err(fault) => Err(WriteRefusal::Store(fault)),
                }
            }
            other => {
                put_back(&mut self.state, other);
                Err(WriteRefusal::Pins)
            }
        }
    }

    /// Turns the tree to a format, if the pass is free.
    pub(crate) fn try_migrate(
        &mut self,
        alloc: Global,
        to: Format,
    ) -> Result<Format, MigrateRefusal>
        ensures moves { Moves to self.old result self.new }
    {
        match replace(&mut self.state, State::Away) {
            State::Free(laid) => {
                let mut pass = self.store.lift(laid);
                let moved = pass.try_migrate(alloc, to);
                put_back(&mut self.state, State::Free(pass.lay()));
                match moved {
                    Ok(was) => Ok(was),
                    Err(fault) => Err(MigrateRefusal::Store(fault)),
                }
            }
            other => {
                put_back(&mut self.state, other);
                Err(MigrateRefusal::Pins)
            }
        }
    }

    /// Makes the edits of a buffer as one change, if the pass is free.
    pub(crate) fn try_apply(
        &mut self,
        alloc: Global,
        packed: &Packed<'_>,
    ) -> Result<(), ApplyRefusal>
        ensures applies { Applies packed.now self.old result self.new }
    {
        match replace(&mut self.state, State::Away) {
            State::Free(laid) => {
                let mut pass = self.store.lift(laid);
                let applied = apply(&mut pass, alloc, packed);
                put_back(&mut self.state, State::Free(pass.lay()));
                applied
            }
            other => {
                put_back(&mut self.state, other);
                Err(ApplyRefusal::Pins)
            }
        }
    }
}
