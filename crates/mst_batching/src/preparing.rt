//! A batch in two steps: its edits are made in free rows, and then it is published, or all is taken
//! back. In between the pass has the turn.
ghost use Rattle.std.specs.Prelude.{◌≡◌, ◌<◌, ℕ, [], false, Option, Some, length, IfOk, IfErr, OnOk, OnErr, IsErrOf};
ghost use Rattle.mst_key.specs.declared.history.Change.TheVariants as change;
ghost use Rattle.mst_key.specs.History.{done, events_of};
ghost use Rattle.mst_arena.specs.Lives.{last_version};
ghost use Rattle.mst_words.specs.Access.{IsSameSeat};
ghost use Rattle.mst_words.specs.Steps.{IsFree, Misses};
ghost use Rattle.mst_versions.specs.Resting.{IsResting};
ghost use Rattle.mst_versions.specs.Known.{known, AtSeat};
ghost use Rattle.mst_versions.specs.Turns.{HasTurn, Spent};
ghost use Rattle.mst_versions.specs.Revealing.{IsRevealed, closed};
ghost use Rattle.mst_versions.specs.Writes.{Made, KeepsPass};
ghost use Rattle.mst_batching.specs.Applying.{LacksEdits, RefusesBatch};
ghost use Rattle.mst_batching.specs.Preparing.{IsPrepared, Prepares, published};

use crate::faults::ApplyFault;
use mst_arena::Root;
use mst_batch::BatchRefusal;
use mst_key::{Batch, Change, Edit, Event};
use mst_versions::finishing::PublishedTurn;
use mst_versions::turn::{BeginFault, Turn, begin_write, give_back};
use mst_versions::{PassParameters, finishing};
use mst_words::PassSeat;
use std::alloc::Allocator;

/// A batch that is made in free rows, and not yet published.
#[derive(Drop)]
pub struct Preparation<A: Allocator> {
    /// The turn, whose desk says which rows the version to come takes.
    pub turn: Turn<A>,
    /// Where the map after the edits stands.
    pub root: Root,
}

// Makes the edits in the map of the current version. It returns where the new map stands.
fn make_batch<A: Allocator + Copy, B: Allocator + Copy>(
    seat: &mut PassSeat<'_, A>,
    alloc: B,
    turn: &mut Turn<A>,
    edits: &[Edit],
) -> Result<Root, BatchRefusal>
    requires turn { HasTurn turn.old seat.old.me }
    requires open { length seat.old.me.0.seen < last_version }
    ensures same { IsSameSeat seat.old seat.new }
    ensures made { IfOk result (λ root. Made (change.Batch edits.now)
        turn.old seat.old.me root done turn.new seat.new.me) }
    ensures kept { turn.new.format ≡ turn.old.format }
    ensures lacks { IfErr result (λ why. LacksEdits why edits.now turn.old seat.old.me) }
    ensures untouched { OnErr result ((turn.new ≡ turn.old) × (seat.new ≡ seat.old)) }
{
    let format = turn.format;
    mst_batch::apply(seat, &mut turn.desk, &turn.root, alloc, edits, format)
}

/// Takes the turn, makes the edits, one after another, in rows that are free, and fills the record
/// of the version to come. Readers see nothing of it before [`publish`]; [`cancel`] takes all of it
/// back.
///
/// The plan of the batch is made in memory, which is given back before the call returns; each node
/// that the new tree has and the old one has not takes a row for each of its entries and one for
/// itself, and is hashed.
///
/// Returns `Busy` only if another pass has the turn; otherwise `VersionsSpent` exactly if the
/// current version has the last number; otherwise `Memory` only if a growth was refused, and never
/// for at most one edit; otherwise `NoRoom` exactly if fewer rows are free than the batch takes.
/// After an error the pass has not the turn.
pub fn prepare<A: Allocator + Copy, B: Allocator + Copy>(
    seat: &mut PassSeat<'_, A>,
    alloc: B,
    parameters: PassParameters,
    edits: &[Edit],
) -> Result<Preparation<A>, ApplyFault>
    requires rest { IsResting parameters seat.old.me }
    ensures same { IsSameSeat seat.old seat.new }
    ensures pass { KeepsPass seat.old.me seat.new.me }
    ensures prepared { IfOk result
        (λ p. IsPrepared parameters.number edits.now p seat.new.me) }
    ensures told { OnOk result
        (AtSeat (Prepares edits.now) parameters.number seat.old seat.new) }
    ensures free { OnErr result (IsFree parameters.number seat.new.me) }
    ensures refused { IfErr result
        (λ fault. AtSeat (RefusesBatch fault edits.now) parameters.number seat.old seat.new) }
    ensures missed { IsErrOf result ApplyFault.Busy → Misses seat.old.me seat.new.me }
    ensures spent { IsErrOf result ApplyFault.VersionsSpent → Spent seat.old.me seat.new.me }
{
    let mut turn = match begin_write(seat, parameters) {
        Ok(turn) => turn,
        Err(BeginFault::Busy) => return Err(ApplyFault::Busy),
        Err(BeginFault::VersionsSpent) => return Err(ApplyFault::VersionsSpent),
    };
    match make_batch(seat, alloc, &mut turn, edits) {
        Ok(root) => {
            let format = turn.format;
            finishing::fill(seat, &turn, &root, format);
            Ok(Preparation { turn, root })
        }
        Err(BatchRefusal::Memory(refused)) => {
            give_back(seat, turn);
            Err(ApplyFault::Memory(refused))
        }
        Err(BatchRefusal::NoRoom) => {
            give_back(seat, turn);
            Err(ApplyFault::NoRoom)
        }
    }
}

/// Publishes what was prepared as the next version, by one swap: readers find it. The turn is kept
/// until [`finishing::close`]. It takes no memory, and nothing can refuse it.
#[inline(always)]
pub fn reveal<A: Allocator + Copy>(
    seat: &mut PassSeat<'_, A>,
    parameters: PassParameters,
    prepared: Preparation<A>,
    edits: &[Edit],
) -> PublishedTurn<A>
    requires prepared { IsPrepared parameters.number edits.now prepared seat.old.me }
    ensures same { IsSameSeat seat.old seat.new }
    ensures pass { KeepsPass seat.old.me seat.new.me }
    ensures revealed { IsRevealed result seat.new.me }
    ensures free { IsFree parameters.number (closed seat.new.me) }
    ensures published { (made : Option ℕ) → known parameters.number (Some result.version) seat.new
        ≡ published edits.now (known parameters.number made seat.old) }
    ensures own { events_of parameters.number seat.new.me.0.seen ≡ seat.new.me.0.mine }
    ensures version { result.version ≡ length seat.new.me.0.seen }
{
    let Preparation { turn, root: _ } = prepared;
    let event = Event {
        pass: parameters.number,
        change: Change::Batch(Batch::new(edits)),
    };
    finishing::reveal(seat, turn, &event)
}

/// Publishes what was prepared as the next version, and gives the turn back: [`reveal`] and
/// [`finishing::close`]. Returns the number of the version. It takes no memory, and nothing can
/// refuse it.
pub fn publish<A: Allocator + Copy>(
    seat: &mut PassSeat<'_, A>,
    parameters: PassParameters,
    prepared: Preparation<A>,
    edits: &[Edit],
) -> u64
    requires prepared { IsPrepared parameters.number edits.now prepared seat.old.me }
    ensures same { IsSameSeat seat.old seat.new }
    ensures pass { KeepsPass seat.old.me seat.new.me }
    ensures free { IsFree parameters.number seat.new.me }
    ensures published { (made : Option ℕ) → known parameters.number (Some result) seat.new
        ≡ published edits.now (known parameters.number made seat.old) }
    ensures own { events_of parameters.number seat.new.me.0.seen ≡ seat.new.me.0.mine }
    ensures version { result ≡ length seat.new.me.0.seen }
{
    let revealed = reveal(seat, parameters, prepared, edits);
    let version = revealed.version;
    finishing::close(seat, revealed);
    version
}

/// Takes back what was prepared, and gives the turn back with the history as it was: one exchange
/// and one store. Each row that was taken is free again. It takes no memory, and looks at each row.
pub fn cancel<A: Allocator + Copy>(
    seat: &mut PassSeat<'_, A>,
    parameters: PassParameters,
    prepared: Preparation<A>,
    edits: &[Edit],
)
    requires prepared { IsPrepared parameters.number edits.now prepared seat.old.me }
    ensures same { IsSameSeat seat.old seat.new }
    ensures pass { KeepsPass seat.old.me seat.new.me }
    ensures free { IsFree parameters.number seat.new.me }
    ensures gave { seat.new.me ≡ (record seat.old.me.0 { turn = false }, []) }
{
    let _ = edits;
    let Preparation { mut turn, root: _ } = prepared;
    turn.desk.undo();
    give_back(seat, turn)
}
