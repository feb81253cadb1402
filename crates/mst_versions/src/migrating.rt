//! A migration: the tree of the map in another format is planted in rows of its own, and the one
//! that stood is felled, so that its rows are free as soon as no pass pins its version.
ghost use Rattle.std.specs.Prelude.{◌≡◌, ◌≢◌, ◌<◌, ◌≤◌, length, IfOk, IfErr, OnErr, IsErrOf};
ghost use Rattle.std.specs.Option.{option_copied};
ghost use Rattle.mst_key.specs.declared.history.Change.TheVariants.{Migrate};
ghost use Rattle.mst_key.specs.History.{after, was};
ghost use Rattle.mst_node.specs.Shape.{tree_of_child};
ghost use Rattle.mst_node.specs.Tree.{tree};
ghost use Rattle.mst_path.specs.Planting.{tree_at, IsTreeOf};
ghost use Rattle.mst_arena.specs.Lives.{last_version};
ghost use Rattle.mst_words.specs.Access.{IsSameSeat};
ghost use Rattle.mst_words.specs.Steps.{IsFree, Misses};
ghost use Rattle.mst_versions.specs.Known.{most_rows};
ghost use Rattle.mst_versions.specs.Resting.{IsResting};
ghost use Rattle.mst_versions.specs.Known.{AtSeat};
ghost use Rattle.mst_versions.specs.Turns.{HasTurn, Spent};
ghost use Rattle.mst_versions.specs.Writes.{Made, LacksRows, KeepsPass, WroteAtSeat};
ghost use Rattle.mst_versions.specs.Migrating.{LacksTree, RefusesMigration};

use crate::faults::MigrateFault;
use crate::finishing::publish;
use crate::parameters::PassParameters;
use crate::turn::{BeginFault, Turn, begin_write, give_back};
use mst_arena::{MOST_ROWS, Root};
use mst_key::{Change, Event, Format, Memory};
use mst_node::{Node, build_in, release};
use mst_path::NoRoom;
use mst_words::PassSeat;
use std::alloc::Allocator;

/// Why no tree of the other format was made.
#[derive(Clone, Copy)]
pub(crate) enum TreeFault {
    /// A growth of the list of the pairs or of their tree was refused.
    Memory(Memory),
    /// Fewer rows are free than the tree takes.
    NoRoom,
}

// The tree of the current version's map in a format, in memory.
fn tree_in<A: Allocator + Copy, B: Allocator + Copy>(
    seat: &mut PassSeat<'_, A>,
    alloc: B,
    turn: &Turn<A>,
    to: Format,
) -> Result<Option<Box<Node<B>, B>>, Memory>
    requires turn { HasTurn turn.now seat.old.me }
    requires few_rows { seat.old.me.0.rows ≤ most_rows }
    ensures tree { IfOk result
        (λ t. tree_of_child to t ≡ tree to (after seat.old.me.0.seen)) }
    ensures few { length (after seat.old.me.0.seen) ≤ most_rows }
    ensures same { seat.new ≡ seat.old }
{
    let pairs = mst_read::range(alloc, seat, &turn.root, None, None, MOST_ROWS as usize)?;
    build_in(alloc, to, pairs.as_slice())
}

// Plants the tree of the map in another format, and lets the current one die.
fn move_tree<A: Allocator + Copy, B: Allocator>(
    seat: &mut PassSeat<'_, A>,
    turn: &mut Turn<A>,
    tree: Option<&Node<B>>,
    to: Format,
) -> Result<Root, NoRoom>
    requires turn { HasTurn turn.old seat.old.me }
    requires open { length seat.old.me.0.seen < last_version }
    requires other { turn.old.format ≢ to }
    requires tree { IsTreeOf to (tree_at to (option_copied tree)) (after seat.old.me.0.seen) }
    ensures same { IsSameSeat seat.old seat.new }
    ensures made { IfOk result (λ root. Made (Migrate to)
        turn.old seat.old.me root (was turn.old.format) turn.new seat.new.me) }
    ensures lacks { OnErr result (LacksRows (Migrate to) turn.old seat.old.me) }
    ensures untouched { OnErr result ((turn.new ≡ turn.old) × (seat.new ≡ seat.old)) }
{
    let Ok(root) = mst_path::plant(seat, &mut turn.desk, tree, to) else {
        return Err(NoRoom);
    };
    mst_path::fell(seat, &mut turn.desk, &turn.root);
    Ok(root)
}

// Makes the tree of the current version's map in a format. In the current format it is the tree of
// the current version, which takes no row and no memory.
fn make_move<A: Allocator + Copy, B: Allocator + Copy>(
    seat: &mut PassSeat<'_, A>,
    alloc: B,
    turn: &mut Turn<A>,
    to: Format,
) -> Result<Root, TreeFault>
    requires turn { HasTurn turn.old seat.old.me }
    requires open { length seat.old.me.0.seen < last_version }
    requires few_rows { seat.old.me.0.rows ≤ most_rows }
    ensures same { IsSameSeat seat.old seat.new }
    ensures made { IfOk result (λ root. Made (Migrate to)
        turn.old seat.old.me root (was turn.old.format) turn.new seat.new.me) }
    ensures lacks { IfErr result (λ why. LacksTree why to turn.old seat.old.me) }
    ensures untouched { OnErr result ((turn.new ≡ turn.old) × (seat.new ≡ seat.old)) }
{
    if turn.format == to {
        return Ok(turn.root);
    }
    let tree = match tree_in(seat, alloc, turn, to) {
        Ok(tree) => tree,
        Err(refused) => return Err(TreeFault::Memory(refused)),
    };
    let moved = move_tree(seat, turn, tree.as_deref(), to);
    release(tree);
    match moved {
        Ok(root) => Ok(root),
        Err(NoRoom) => Err(TreeFault::NoRoom),
    }
}

/// Publishes the map that stands in a format as the next version, and returns the format that it
/// had, and the number of the version.
///
/// The steps are those of a write. The pairs are listed and their tree is built in memory, which is
/// given back before the version is published; the new tree takes a row for each pair and each
/// node, and only then do the rows of the old one die.
///
/// Returns `Busy` only if another pass has the turn; otherwise `VersionsSpent` exactly if the
/// current version has the last number; otherwise `Memory` if a growth was refused; otherwise
/// `NoRoom` exactly if fewer rows are free than the tree takes.
pub fn migrate<A: Allocator + Copy, B: Allocator + Copy>(
    seat: &mut PassSeat<'_, A>,
    alloc: B,
    parameters: PassParameters,
    to: Format,
) -> Result<(Format, u64), MigrateFault>
    requires rest { IsResting parameters seat.old.me }
    ensures same { IsSameSeat seat.old seat.new }
    ensures pass { KeepsPass seat.old.me seat.new.me }
    ensures free { IsFree parameters.number seat.new.me }
    ensures wrote { IfOk result (λ done. WroteAtSeat parameters.number (Migrate to) seat.old
        (was done.0) done.1 seat.new) }
    ensures version { IfOk result (λ done. done.1 ≡ length seat.new.me.0.seen) }
    ensures refused { IfErr result
        (λ fault. AtSeat (RefusesMigration fault to) parameters.number seat.old seat.new) }
    ensures missed { IsErrOf result MigrateFault.Busy → Misses seat.old.me seat.new.me }
    ensures spent { IsErrOf result MigrateFault.VersionsSpent → Spent seat.old.me seat.new.me }
{
    let mut turn = match begin_write(seat, parameters) {
        Ok(turn) => turn,
        Err(BeginFault::Busy) => return Err(MigrateFault::Busy),
        Err(BeginFault::VersionsSpent) => return Err(MigrateFault::VersionsSpent),
    };
    let format = turn.format;
    match make_move(seat, alloc, &mut turn, to) {
        Ok(root) => {
            let event = Event {
                pass: parameters.number,
                change: Change::Migrate(to),
            };
            let version = publish(seat, turn, &root, to, &event);
            Ok((format, version))
        }
        Err(TreeFault::Memory(refused)) => {
            give_back(seat, turn);
            Err(MigrateFault::Memory(refused))
        }
        Err(TreeFault::NoRoom) => {
            give_back(seat, turn);
            Err(MigrateFault::NoRoom)
        }
    }
}
