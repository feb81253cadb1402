//! A write: the turn, the change in rows that are free, and the next version.
ghost use Rattle.std.specs.Prelude.{◌≡◌, ◌<◌, length, IfOk, IfErr, OnErr, IsErrOf};
ghost use Rattle.mst_key.specs.History.{had, IsMigration, IsBatch};
ghost use Rattle.mst_key.specs.declared.history.Change.TheVariants.{Put, Remove};
ghost use Rattle.mst_arena.specs.Lives.{last_version};
ghost use Rattle.mst_words.specs.Access.{IsSameSeat};
ghost use Rattle.mst_words.specs.Steps.{IsFree, Misses};
ghost use Rattle.mst_versions.specs.Resting.{IsResting};
ghost use Rattle.mst_versions.specs.Known.{AtSeat};
ghost use Rattle.mst_versions.specs.Turns.{HasTurn, Spent};
ghost use Rattle.mst_versions.specs.Writes.{Made, LacksRows, KeepsPass, WroteAtSeat, Refuses};

use crate::faults::WriteFault;
use crate::finishing::publish;
use crate::parameters::PassParameters;
use crate::turn::{BeginFault, Turn, begin_write, give_back};
use mst_arena::Root;
use mst_key::{Change, Event, Key, Value};
use mst_path::NoRoom;
use mst_words::PassSeat;
use std::alloc::Allocator;

// Puts a pair into the map of the current version. It returns where the new map stands, and the
// value that the key had.
fn make_put<A: Allocator + Copy>(
    seat: &mut PassSeat<'_, A>,
    turn: &mut Turn<A>,
    key: &Key,
    value: &Value,
) -> Result<(Root, Option<Value>), NoRoom>
    requires turn { HasTurn turn.old seat.old.me }
    requires open { length seat.old.me.0.seen < last_version }
    ensures same { IsSameSeat seat.old seat.new }
    ensures made { IfOk result (λ done. Made (Put key.now value.now)
        turn.old seat.old.me done.0 (had done.1) turn.new seat.new.me) }
    ensures kept { turn.new.format ≡ turn.old.format }
    ensures lacks { OnErr result (LacksRows (Put key.now value.now) turn.old seat.old.me) }
    ensures untouched { OnErr result ((turn.new ≡ turn.old) × (seat.new ≡ seat.old)) }
{
    let format = turn.format;
    let Ok((root, old)) = mst_path::put(seat, &mut turn.desk, &turn.root, key, value, format) else {
        return Err(NoRoom);
    };
    Ok((root, old))
}

// Takes a key out of the map of the current version. It returns where the new map stands, and the
// value that the key had.
fn make_remove<A: Allocator + Copy>(
    seat: &mut PassSeat<'_, A>,
    turn: &mut Turn<A>,
    key: &Key,
) -> Result<(Root, Option<Value>), NoRoom>
    requires turn { HasTurn turn.old seat.old.me }
    requires open { length seat.old.me.0.seen < last_version }
    ensures same { IsSameSeat seat.old seat.new }
    ensures made { IfOk result
        (λ done. Made (Remove key.now)
        turn.old seat.old.me done.0 (had done.1) turn.new seat.new.me) }
    ensures kept { turn.new.format ≡ turn.old.format }
    ensures lacks { OnErr result (LacksRows (Remove key.now) turn.old seat.old.me) }
    ensures untouched { OnErr result ((turn.new ≡ turn.old) × (seat.new ≡ seat.old)) }
{
    let format = turn.format;
    let Ok((root, old)) = mst_path::remove(seat, &mut turn.desk, &turn.root, key, format) else {
        return Err(NoRoom);
    };
    Ok((root, old))
}

/// Makes the change of a key in rows that are free.
pub fn make<A: Allocator + Copy>(
    seat: &mut PassSeat<'_, A>,
    turn: &mut Turn<A>,
    change: &Change,
) -> Result<(Root, Option<Value>), NoRoom>
    requires keyed { IsMigration change.now → ⊥ }
    requires single { IsBatch change.now → ⊥ }
    requires turn { HasTurn turn.old seat.old.me }
    requires open { length seat.old.me.0.seen < last_version }
    ensures same { IsSameSeat seat.old seat.new }
    ensures made { IfOk result
        (λ done. Made change.now
        turn.old seat.old.me done.0 (had done.1) turn.new seat.new.me) }
    ensures kept { turn.new.format ≡ turn.old.format }
    ensures lacks { OnErr result (LacksRows change.now turn.old seat.old.me) }
    ensures untouched { OnErr result ((turn.new ≡ turn.old) × (seat.new ≡ seat.old)) }
{
    match change {
        Change::Put(key, value) => make_put(seat, turn, key, value),
        Change::Remove(key) => make_remove(seat, turn, key),
        Change::Migrate(_) => unreachable!(),
        Change::Batch(_) => unreachable!(),
    }
}

/// Makes the change of the event, which is the pass's own, and publishes the version that it leads
/// to. It returns the value that the change's key had, and the number of the version.
///
/// The steps, in this order: the turn is taken, the desk is taken, each record but the current one
/// is asked, and the dead rows are freed that no live version reaches; the nodes along the
/// change's path are copied into free rows; then the version is published, the mask of the old
/// record's pins is moved, and desk and turn go back. It takes no memory.
///
/// Returns `Busy` only if another pass has the turn; otherwise `VersionsSpent` exactly if the
/// current version has the last number; otherwise `NoRoom` exactly if fewer rows are free than the
/// change takes: a row for each entry and one for each node that it makes new. All rows are free
/// then but those that the live versions hold: the current one and those that other passes pin. In
/// a store of one pass these are the rows of the map.
pub fn write<A: Allocator + Copy>(
    seat: &mut PassSeat<'_, A>,
    parameters: PassParameters,
    event: &Event,
) -> Result<(Option<Value>, u64), WriteFault>
    requires rest { IsResting parameters seat.old.me }
    requires keyed { IsMigration event.now.change → ⊥ }
    requires single { IsBatch event.now.change → ⊥ }
    requires mine { event.now.pass ≡ parameters.number }
    ensures same { IsSameSeat seat.old seat.new }
    ensures pass { KeepsPass seat.old.me seat.new.me }
    ensures free { IsFree parameters.number seat.new.me }
    ensures wrote { IfOk result (λ done. WroteAtSeat parameters.number event.now.change seat.old
        (had done.0) done.1 seat.new) }
    ensures version { IfOk result (λ done. done.1 ≡ length seat.new.me.0.seen) }
    ensures refused { IfErr result
        (λ fault. AtSeat (Refuses fault event.now.change) parameters.number seat.old seat.new) }
    ensures missed { IsErrOf result WriteFault.Busy → Misses seat.old.me seat.new.me }
    ensures spent { IsErrOf result WriteFault.VersionsSpent → Spent seat.old.me seat.new.me }
{
    let mut turn = match begin_write(seat, parameters) {
        Ok(turn) => turn,
        Err(BeginFault::Busy) => return Err(WriteFault::Busy),
        Err(BeginFault::VersionsSpent) => return Err(WriteFault::VersionsSpent),
    };
    let format = turn.format;
    match make(seat, &mut turn, &event.change) {
        Ok((root, old)) => {
            let version = publish(seat, turn, &root, format, event);
            Ok((old, version))
        }
        Err(NoRoom) => {
            give_back(seat, turn);
            Err(WriteFault::NoRoom)
        }
    }
}
