//! How many rows the map of the current version takes, and how many are free to the next write.
ghost use Rattle.std.specs.Prelude.{◌≡◌, ◌%◌, Some, IfSome, IfOk, OnErr};
ghost use Rattle.mst_words.specs.Access.{IsSameSeat};
ghost use Rattle.mst_words.specs.Steps.{IsFree, Misses};
ghost use Rattle.mst_versions.specs.Resting.{IsResting};
ghost use Rattle.mst_versions.specs.Counting.{Counts, CountsFree};
ghost use Rattle.mst_versions.specs.Known.{AtSeat};
ghost use Rattle.mst_versions.specs.Writes.{KeepsPass};

use crate::faults::Busy;
use crate::parameters::PassParameters;
use crate::turn::{begin, give_back};
use mst_words::PassSeat;
use mst_words::layout::MASKS;
use std::alloc::Allocator;

// The number, if one version is live and no pass was found to pin it: the mask of the current
// record, as it was noted, is then what its own word says.
fn where_alone(used: u32, live: u32, noted: u64, done: u64) -> Option<u32>
    ensures alone { live ≡ 1 → noted % MASKS ≡ done → result ≡ Some used }
    ensures only { IfSome result
        (λ n. (n ≡ used) × (live ≡ 1) × (noted % MASKS ≡ done)) }
{
    if live == 1 && noted % MASKS == done {
        Some(used)
    } else {
        None
    }
}

/// Returns how many rows the map of the current version takes: all rows but those that are free
/// once no other version is live. It returns `None` exactly if a version was found pinned; in a
/// store of one pass it never does.
///
/// The turn is taken, each record is asked, the rows that no version reaches are freed, and the
/// turn is given back. Returns `Busy` only if another pass has the turn. It takes no memory.
pub fn rows<A: Allocator + Copy>(
    seat: &mut PassSeat<'_, A>,
    parameters: PassParameters,
) -> Result<Option<u32>, Busy>
    requires rest { IsResting parameters seat.old.me }
    ensures same { IsSameSeat seat.old seat.new }
    ensures pass { KeepsPass seat.old.me seat.new.me }
    ensures free { IsFree parameters.number seat.new.me }
    ensures counted { IfOk result
        (λ found. AtSeat (Counts found) parameters.number seat.old seat.new) }
    ensures busy { OnErr result (Misses seat.old.me seat.new.me) }
{
    let Some(turn) = begin(seat, parameters) else {
        return Err(Busy);
    };
    let (current, _) = turn.desk.current();
    let noted = seat.note_current();
    let done = seat.ask_current(current);
    let (live, used) = (turn.live, parameters.rows - turn.desk.free());
    give_back(seat, turn);
    Ok(where_alone(used, live, noted, done))
}

/// Returns how many rows are free to the next write: all rows but those that the current version
/// and the versions that were found pinned hold together.
///
/// The turn is taken, each record but the current one is asked, the rows that no version reaches
/// are freed, and the turn is given back. Returns `Busy` only if another pass has the turn. It
/// takes no memory.
pub fn free_rows<A: Allocator + Copy>(
    seat: &mut PassSeat<'_, A>,
    parameters: PassParameters,
) -> Result<u32, Busy>
    requires rest { IsResting parameters seat.old.me }
    ensures same { IsSameSeat seat.old seat.new }
    ensures pass { KeepsPass seat.old.me seat.new.me }
    ensures free { IsFree parameters.number seat.new.me }
    ensures counted { IfOk result
        (λ rows. AtSeat (CountsFree rows) parameters.number seat.old seat.new) }
    ensures busy { OnErr result (Misses seat.old.me seat.new.me) }
{
    let Some(turn) = begin(seat, parameters) else {
        return Err(Busy);
    };
    let free = turn.desk.free();
    give_back(seat, turn);
    Ok(free)
}
