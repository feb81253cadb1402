//! A batch of edits, made by its plan.
ghost use Rattle.std.specs.Prelude.{◌≡◌, ◌<◌, length, IfOk, IfErr};
ghost use Rattle.mst_key.specs.History.{batched};
ghost use Rattle.mst_path.specs.Takes.{FreeIsBlank, StaysBeside};
ghost use Rattle.mst_path.specs.Changing.{MapStands};
ghost use Rattle.mst_path.specs.AfterChange.{AfterChange};
ghost use Rattle.mst_batch.specs.Applying.{LacksBatch};
ghost use Rattle.mst_batch.specs.declared.faults.BatchRefusal.TheVariants as lacking;

use crate::carrying::carry_out;
use crate::faults::BatchRefusal;
use crate::marking::marks_of;
use crate::planning::find_plan;
use crate::releasing::release;
use mst_arena::{Desk, Root, Rows};
use mst_edits::are_within_limits;
use mst_key::{Edit, Format};
use mst_path::NoRoom;
use std::alloc::Allocator;

/// Why a batch was refused whose plan was made: it lacks nothing but rows.
fn lack_of(_refused: NoRoom) -> BatchRefusal
    ensures no_room { result ≡ lacking.NoRoom }
{
    BatchRefusal::NoRoom
}

/// Makes a batch of some edits, more than one, in the map that stands at a root, as `apply` does.
///
/// The plan of the batch is found and its nodes are marked that stay; then it is carried out. All
/// memory is taken before the first row is written.
pub(crate) fn apply_by_plan<R: Rows, A: Allocator, B: Allocator + Copy>(
    rows: &mut R,
    desk: &mut Desk<A>,
    root: &Root,
    alloc: B,
    edits: &[Edit],
    format: Format,
) -> Result<Root, BatchRefusal>
    requires stands { MapStands format (R.content rows.old) desk.old root.now }
    requires some { 1 < length edits.now }
    requires free { FreeIsBlank desk.old.lives (R.blank rows.old) }
    ensures changed { IfOk result (λ done. AfterChange format (R.content rows.old)
        (R.content rows.new) desk.old desk.new root.now done (λ m. batched m edits.now)) }
    ensures beside { StaysBeside R.blank R.kept rows.old rows.new }
    ensures lacks { IfErr result (λ why. LacksBatch why format (R.content rows.old) desk.old
        root.now edits.now) }
    ensures untouched { IfErr result (λ _. (desk.new ≡ desk.old) × (rows.new ≡ rows.old)) }
{
    are_within_limits(edits);
    let plan = match find_plan(rows, alloc, root, edits, format) {
        Ok(plan) => plan,
        Err(refused) => return Err(BatchRefusal::Memory(refused)),
    };
    let kept = match marks_of(alloc, &plan) {
        Ok(kept) => kept,
        Err(refused) => return Err(BatchRefusal::Memory(refused)),
    };
    let carried = carry_out(rows, desk, root, &plan, kept.as_slice(), format);
    release(plan);
    match carried {
        Ok(done) => Ok(done),
        Err(refused) => Err(lack_of(refused)),
    }
}
