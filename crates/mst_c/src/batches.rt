//! Batches of edits, as C is told of them.
ghost use Rattle.std.specs.Prelude.{◌≡◌};
ghost use Rattle.mst_c.specs.Batches.{fault_code as code_of_fault, apply_fault_code as code_of_refused, apply_code as code_of_applied, ApplyTold};

use crate::codes::{
    BAD_BATCH, BAD_KEY, BAD_VALUE, BUSY, CLOSED, MEMORY, NO_FREE_ROWS, VERSIONS_SPENT, WRONG_STATE,
};
use crate::hand::{Hand, give, take};
use crate::packing::{EditFault, Packed};
use crate::pass_box::ApplyRefusal;
use mst_store::ApplyFault;
use std::alloc::Global;

/// The code of what stands in a buffer and is no edit.
pub fn fault_code(fault: EditFault) -> i32
    ensures code { result ≡ code_of_fault fault }
{
    match fault {
        EditFault::KeySize => BAD_KEY,
        EditFault::ValueSize => BAD_VALUE,
        EditFault::Form => BAD_BATCH,
    }
}

/// The code of a batch that a store was refused.
pub fn apply_fault_code(fault: ApplyFault) -> i32
    ensures code { result ≡ code_of_refused fault }
{
    match fault {
        ApplyFault::Busy => BUSY,
        ApplyFault::VersionsSpent => VERSIONS_SPENT,
        ApplyFault::Memory(_) => MEMORY,
        ApplyFault::NoRoom => NO_FREE_ROWS,
    }
}

/// The code of a batch.
fn apply_code(applied: Result<(), ApplyRefusal>) -> i32
    ensures code { result ≡ code_of_applied applied }
{
    match applied {
        Ok(()) => 0,
        Err(ApplyRefusal::Pins) => WRONG_STATE,
        Err(ApplyRefusal::Memory(_)) => MEMORY,
        Err(ApplyRefusal::Store(fault)) => apply_fault_code(fault),
    }
}

/// As `mst_try_apply` of `mst_exports` says.
pub fn try_apply(alloc: Global, hand: &mut Hand, edits: &[u8], place: &mut usize) -> i32
    ensures told { ApplyTold hand.old.held edits.now place.old result place.new hand.new.held }
{
    let Some(mut taken) = take(alloc, hand) else {
        return CLOSED;
    };
    let packed = match Packed::of(edits) {
        Ok(packed) => packed,
        Err(bad) => {
            give(hand, taken);
            *place = bad.place;
            return fault_code(bad.fault);
        }
    };
    let applied = taken.held.try_apply(alloc, &packed);
    give(hand, taken);
    apply_code(applied)
}
