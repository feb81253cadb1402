//! Blocks of a sharded map, as C is told of them.
ghost use Rattle.std.specs.Prelude.{◌≡◌};
ghost use Rattle.mst_c_blocks.specs.declared.role_box.Role.TheVariants as role;
ghost use Rattle.mst_c_blocks.specs.Making.{part_code as code_of_part, made_code, made_number, refused_shard, Makes, ApplyTold};
ghost use Rattle.mst_c_blocks.specs.States.{IsThere};

use crate::codes::OVERTAKEN;
use crate::hand::{BlocksHand, give, take};
use crate::role_box::Role;
use mst_blocks::{BlockFault, PartFault, Writer};
use mst_c::batches::{apply_fault_code, fault_code};
use mst_c::codes::{CLOSED, MEMORY, WRONG_STATE};
use mst_c::packing::Packed;
use mst_key::Memory;
use std::alloc::Global;

/// Why a block was not made.
pub(crate) enum BlockRefusal {
    /// The hand does not hold the writer.
    NoWriter,
    /// The growth of the list of the edits was refused.
    Memory(Memory),
    /// The block was refused.
    Block(BlockFault),
}

/// Makes the edits of a buffer as the writer's next block.
fn make_block(
    writer: Writer<Global>,
    alloc: Global,
    packed: &Packed<'_>,
) -> (Writer<Global>, Result<u64, BlockRefusal>)
    ensures makes { Makes packed.now (role.Writer writer) result.1 (role.Writer result.0) }
{
    let edits = match packed.edits(alloc) {
        Ok(edits) => edits,
        Err(refused) => return (writer, Err(BlockRefusal::Memory(refused))),
    };
    let (writer, made) = writer.apply(alloc, edits.as_slice());
    match made {
        Ok(number) => (writer, Ok(number)),
        Err(fault) => (writer, Err(BlockRefusal::Block(fault))),
    }
}

/// Makes the edits of a buffer as the next block, if this is the writer.
pub(crate) fn apply(
    held: Role,
    alloc: Global,
    packed: &Packed<'_>,
) -> (Role, Result<u64, BlockRefusal>)
    requires there { IsThere held }
    ensures makes { Makes packed.now held result.1 result.0 }
    ensures there { IsThere result.0 }
{
    match held {
        Role::Writer(writer) => {
            let (writer, made) = make_block(writer, alloc, packed);
            (Role::Writer(writer), made)
        }
        other => (other, Err(BlockRefusal::NoWriter)),
    }
}

/// The code of a part of a block that was refused.
pub(crate) fn part_code(fault: PartFault) -> i32
    ensures code { result ≡ code_of_part fault }
{
    match fault {
        PartFault::Refused(why) => apply_fault_code(why),
        PartFault::Overtaken => OVERTAKEN,
    }
}

/// The code of a block of a map with so many shards. Its number is written if it is made. If it is
/// refused, the number of the shard that refused its part is, or that of the shards.
pub(crate) fn tell_made(
    made: Result<u64, BlockRefusal>,
    shards: usize,
    shard: &mut usize,
    number: &mut u64,
) -> i32
    ensures code { result ≡ made_code made }
    ensures shard { shard.new ≡ refused_shard shards shard.old made }
    ensures number { number.new ≡ made_number number.old made }
{
    match made {
        Ok(block) => {
            *number = block;
            0
        }
        Err(BlockRefusal::NoWriter) => WRONG_STATE,
        Err(BlockRefusal::Memory(_)) => {
            *shard = shards;
            MEMORY
        }
        Err(BlockRefusal::Block(BlockFault::Memory(_))) => {
            *shard = shards;
            MEMORY
        }
        Err(BlockRefusal::Block(BlockFault::Shard(stop, fault))) => {
            *shard = stop;
            part_code(fault)
        }
        Err(BlockRefusal::Block(BlockFault::Directory(fault))) => {
            *shard = shards;
            part_code(fault)
        }
    }
}

/// As `mst_sharded_apply` of `mst_exports` says.
pub fn apply_edits(
    alloc: Global,
    hand: &mut BlocksHand,
    edits: &[u8],
    place: &mut usize,
    shard: &mut usize,
    number: &mut u64,
) -> i32
    ensures told { ApplyTold hand.old.held edits.now place.old shard.old number.old result
        place.new shard.new number.new hand.new.held }
{
    let Some(mut taken) = take(alloc, hand) else {
        return CLOSED;
    };
    let packed = match Packed::of(edits) {
        Ok(packed) => packed,
        Err(bad) => {
            give(hand, taken);
            *place = bad.place;
            return fault_code(bad.fault);
        }
    };
    let shards = taken.held.shards();
    let made = taken.held.apply(alloc, &packed);
    give(hand, taken);
    tell_made(made, shards, shard, number)
}
