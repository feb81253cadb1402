//! A batch of edits, made as one change of the map that stands.
ghost use Rattle.std.specs.Prelude.{◌≡◌, ◌+◌, List, IfOk, IfErr};
ghost use Rattle.mst_key.specs.History.{batched};
ghost use Rattle.mst_key.specs.Map.{Pair};
ghost use Rattle.mst_node.specs.Cost.{cost};
ghost use Rattle.mst_arena.specs.Lives.{free_count};
ghost use Rattle.mst_arena.specs.Standing.{Stands, numbers};
ghost use Rattle.mst_path.specs.Takes.{FreeIsBlank, StaysBeside};
ghost use Rattle.mst_path.specs.Made.{IsMade};
ghost use Rattle.mst_path.specs.Changing.{MapStands, OnlyFreeWritten, SameVersions};
ghost use Rattle.mst_path.specs.Reached.{Changes};
ghost use Rattle.mst_batch.specs.Applying.{LacksBatch};

use crate::by_plan::apply_by_plan;
use crate::faults::BatchRefusal;
use crate::loading::load;
use crate::single::apply_one;
use mst_arena::{Desk, Root, Rows};
use mst_key::{Edit, Format};
use mst_path::NoRoom;
use std::alloc::Allocator;

/// Makes a batch of edits in the map that stands at a root as a tree of a format, all or none.
/// Returns the root at which the map after them stands.
///
/// The edits are made one after another, so that of two edits of one key the last one decides. They
/// may come in any order, and remove keys that the map does not have.
///
/// The rows that stand at the root were born with the current version or an earlier one and are not
/// dead, and the desk's free rows may be written. The nodes that the new tree has and the old one
/// has not are written into rows that are born with the version to come; the rows that only the old
/// tree uses die with that version. Everything else is shared, and each new node is hashed once.
///
/// Only nodes that an edit touches are read. All memory is taken before the first row is written,
/// and given back before the call returns: for the edits' order, for the pairs of the nodes that
/// are read, and for the nodes to be made. A batch of at most one edit takes no memory. Calls
/// nest no deeper than the layers and the halvings of the list of edits.
///
/// Returns `Memory` only if a growth was refused; otherwise `NoRoom` exactly if fewer rows are free
/// than the batch takes: one for each entry and one for each node that is made anew. After an error
/// rows and desk are as before.
pub fn apply<R: Rows, A: Allocator, B: Allocator + Copy>(
    rows: &mut R,
    desk: &mut Desk<A>,
    root: &Root,
    alloc: B,
    edits: &[Edit],
    format: Format,
) -> Result<Root, BatchRefusal>
    requires stands { MapStands format (R.content rows.old) desk.old root.now }
    requires free { FreeIsBlank desk.old.lives (R.blank rows.old) }
    ensures stands { IfOk result (λ done. (m : List Pair)
        → Stands format (R.content rows.old) root.now m
        → Stands format (R.content rows.new) done (batched m edits.now)) }
    ensures written { OnlyFreeWritten desk.old (R.content rows.old) (R.content rows.new) }
    // as many rows as the nodes that are new have entries and heads
    ensures cost { IfOk result (λ _. (m : List Pair)
        → Stands format (R.content rows.old) root.now m
        → free_count desk.new.lives + cost format m (batched m edits.now)
        ≡ free_count desk.old.lives) }
    ensures changes { IfOk result (λ done. (m n : List Pair)
        (before : Stands format (R.content rows.old) root.now m)
        (after : Stands format (R.content rows.new) done n)
        → Changes desk.old desk.new (numbers before) (numbers after)) }
    ensures versions { SameVersions desk.old desk.new }
    // the rows of a node are of one age: with all below it they were there before, or they are all
    // new
    ensures made { IfOk result (λ done. (n : List Pair)
        (after : Stands format (R.content rows.new) done n) → IsMade desk.new after.tree.placed) }
    ensures beside { StaysBeside R.blank R.kept rows.old rows.new }
    ensures lacks { IfErr result (λ why. LacksBatch why format (R.content rows.old) desk.old
        root.now edits.now) }
    ensures untouched { IfErr result (λ _. (desk.new ≡ desk.old) × (rows.new ≡ rows.old)) }
{
    match edits {
        [] => Ok(*root),
        [edit] => match apply_one(rows, desk, root, edit, format) {
            Ok(done) => Ok(done),
            Err(NoRoom) => Err(BatchRefusal::NoRoom),
        },
        _ if root.link == 0 => load(rows, desk, root, alloc, edits, format),
        _ => apply_by_plan(rows, desk, root, alloc, edits, format),
    }
}
