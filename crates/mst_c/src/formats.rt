//! The format of a version, and migrations, as C is told of them.
ghost use Rattle.std.specs.Prelude.{◌≡◌};
ghost use Rattle.mst_c.specs.Formats.{format_named as named, format_code, migrate_fault_code as code_of_refused, move_code as code_of_move, FormatTold, MigrateTold};

use crate::codes::{
    BUSY, CLOSED, MEMORY, NO_FREE_ROWS, UNKNOWN_FORMAT, VERSIONS_SPENT, WRONG_STATE,
};
use crate::hand::{Hand, give, take};
use crate::pass_box::MigrateRefusal;
use mst_key::Format;
use mst_store::MigrateFault;
use std::alloc::Global;

/// The format that has this number.
pub fn format_named(number: u32) -> Option<Format>
    ensures format { result ≡ named number }
{
    match number {
        1 => Some(Format::One),
        2 => Some(Format::Two),
        _ => None,
    }
}

/// The number of a format.
pub fn number_of(format: Format) -> i32
    ensures number { result ≡ format_code format }
{
    match format {
        Format::One => 1,
        Format::Two => 2,
    }
}

/// The code of a migration that a store was refused.
pub fn migrate_fault_code(fault: MigrateFault) -> i32
    ensures code { result ≡ code_of_refused fault }
{
    match fault {
        MigrateFault::Busy => BUSY,
        MigrateFault::VersionsSpent => VERSIONS_SPENT,
        MigrateFault::Memory(_) => MEMORY,
        MigrateFault::NoRoom => NO_FREE_ROWS,
    }
}

/// The code of a migration.
fn move_code(moved: Result<Format, MigrateRefusal>) -> i32
    ensures code { result ≡ code_of_move moved }
{
    match moved {
        Ok(was) => number_of(was),
        Err(MigrateRefusal::Pins) => WRONG_STATE,
        Err(MigrateRefusal::Store(fault)) => migrate_fault_code(fault),
    }
}

/// As `mst_format` of `mst_exports` says.
pub fn format(alloc: Global, hand: &mut Hand) -> i32
    ensures told { FormatTold hand.old.held result hand.new.held }
{
    let Some(mut taken) = take(alloc, hand) else {
        return CLOSED;
    };
    let format = taken.held.format();
    give(hand, taken);
    number_of(format)
}

/// As `mst_try_migrate` of `mst_exports` says.
pub fn try_migrate(alloc: Global, hand: &mut Hand, number: u32) -> i32
    ensures told { MigrateTold hand.old.held number result hand.new.held }
{
    let Some(mut taken) = take(alloc, hand) else {
        return CLOSED;
    };
    let Some(to) = format_named(number) else {
        give(hand, taken);
        return UNKNOWN_FORMAT;
    };
    let moved = taken.held.try_migrate(alloc, to);
    give(hand, taken);
    move_code(moved)
}
