//! A batch of edits: all of them are made in free rows in one turn, and one version is published.
ghost use Rattle.std.specs.Prelude.{◌≡◌, length, IfOk, IfErr, IsErrOf};
ghost use Rattle.mst_key.specs.declared.history.Change.TheVariants as change;
ghost use Rattle.mst_key.specs.History.{done};
ghost use Rattle.mst_words.specs.Access.{IsSameSeat};
ghost use Rattle.mst_words.specs.Steps.{IsFree, Misses};
ghost use Rattle.mst_versions.specs.Resting.{IsResting};
ghost use Rattle.mst_versions.specs.Known.{AtSeat};
ghost use Rattle.mst_versions.specs.Turns.{Spent};
ghost use Rattle.mst_versions.specs.Writes.{KeepsPass, WroteAtSeat};
ghost use Rattle.mst_batching.specs.Applying.{RefusesBatch};

use crate::faults::ApplyFault;
use crate::preparing::{prepare, publish};
use mst_key::Edit;
use mst_versions::PassParameters;
use mst_words::PassSeat;
use std::alloc::Allocator;

/// Publishes the map after the edits, made one after another, as the next version, and returns its
/// number.
///
/// The steps are those of a write. The plan of the batch is made in memory, which is given back
/// before the version is published; each node that the new tree has and the old one has not takes a
/// row for each of its entries and one for itself.
///
/// Returns `Busy` only if another pass has the turn; otherwise `VersionsSpent` exactly if the
/// current version has the last number; otherwise `Memory` only if a growth was refused, and never
/// for at most one edit; otherwise `NoRoom` exactly if fewer rows are free than the batch takes.
pub fn apply<A: Allocator + Copy, B: Allocator + Copy>(
    seat: &mut PassSeat<'_, A>,
    alloc: B,
    parameters: PassParameters,
    edits: &[Edit],
) -> Result<u64, ApplyFault>
    requires rest { IsResting parameters seat.old.me }
    ensures same { IsSameSeat seat.old seat.new }
    ensures pass { KeepsPass seat.old.me seat.new.me }
    ensures free { IsFree parameters.number seat.new.me }
    ensures wrote { IfOk result
        (λ version. WroteAtSeat parameters.number (change.Batch edits.now) seat.old done version
        seat.new) }
    ensures version { IfOk result (λ version. version ≡ length seat.new.me.0.seen) }
    ensures refused { IfErr result
        (λ fault. AtSeat (RefusesBatch fault edits.now) parameters.number seat.old seat.new) }
    ensures missed { IsErrOf result ApplyFault.Busy → Misses seat.old.me seat.new.me }
    ensures spent { IsErrOf result ApplyFault.VersionsSpent → Spent seat.old.me seat.new.me }
{
    match prepare(seat, alloc, parameters, edits) {
        Ok(prepared) => Ok(publish(seat, parameters, prepared, edits)),
        Err(fault) => Err(fault),
    }
}
