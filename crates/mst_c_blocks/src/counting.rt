//! How many rows are free in a shard or in the directory, as C is told of them.
ghost use Rattle.std.specs.Prelude.{◌≡◌, ◌<◌, length};
ghost use Rattle.mst_c_blocks.specs.Counting.{CountsRows, free_code, free_after, FreeRowsTold};
ghost use Rattle.mst_c_blocks.specs.declared.role_box.Role.TheVariants as role;

use crate::hand::{BlocksHand, give, take};
use mst_blocks::Writer;
use mst_c::codes::{ABSENT, BUSY, CLOSED, WRONG_STATE};
use std::alloc::Global;

/// Why the rows were not counted.
pub(crate) enum RowsRefusal {
    /// The hand does not hold the writer.
    NoWriter,
    /// There is no such shard.
    NoShard,
    /// Another pass has the turn.
    Busy,
}

/// How many rows are free in a shard.
fn free_in_shard(writer: &mut Writer<Global>, shard: usize) -> Result<u32, RowsRefusal>
    requires there { shard < length writer.old.sharding.shards }
    ensures counts { CountsRows shard (role.Writer writer.old) result (role.Writer writer.new) }
{
    match writer.free_rows(shard) {
        Ok(free) => Ok(free),
        Err(_busy) => Err(RowsRefusal::Busy),
    }
}

/// How many rows are free in the directory, which has the number of the shards.
fn free_in_directory(writer: &mut Writer<Global>) -> Result<u32, RowsRefusal>
    ensures counts { CountsRows (length writer.old.sharding.shards) (role.Writer writer.old) result
        (role.Writer writer.new) }
{
    match writer.directory_free_rows() {
        Ok(free) => Ok(free),
        Err(_busy) => Err(RowsRefusal::Busy),
    }
}

/// How many rows are free in the shard with this number, or in the directory.
pub(crate) fn free_in(writer: &mut Writer<Global>, shard: usize) -> Result<u32, RowsRefusal>
    ensures counts { CountsRows shard (role.Writer writer.old) result (role.Writer writer.new) }
{
    let shards = writer.shards();
    if shard < shards {
        free_in_shard(writer, shard)
    } else if shard == shards {
        free_in_directory(writer)
    } else {
        Err(RowsRefusal::NoShard)
    }
}

/// The code of a count of free rows. The count is written then, if there is one.
fn tell_free(counted: Result<u32, RowsRefusal>, count: &mut u32) -> i32
    ensures code { result ≡ free_code counted }
    ensures count { count.new ≡ free_after count.old counted }
{
    match counted {
        Ok(free) => {
            *count = free;
            0
        }
        Err(RowsRefusal::NoWriter) => WRONG_STATE,
        Err(RowsRefusal::NoShard) => ABSENT,
        Err(RowsRefusal::Busy) => BUSY,
    }
}

/// As `mst_sharded_free_rows` of `mst_exports` says.
pub fn free_rows(alloc: Global, hand: &mut BlocksHand, shard: usize, count: &mut u32) -> i32
    ensures told { FreeRowsTold hand.old.held shard count.old result count.new hand.new.held }
{
    let Some(mut taken) = take(alloc, hand) else {
        return CLOSED;
    };
    let counted = taken.held.free_rows(shard);
    give(hand, taken);
    tell_free(counted, count)
}
