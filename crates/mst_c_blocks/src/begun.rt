//! A block that the writer has begun, with a share of each of its parts. The other share of each
//! stands in a hand of its own, and may be prepared from there, in any thread.
ghost use Rattle.std.specs.Prelude.{◌≡◌, length, vec_len, Some, None, IfOk, IfErr, IfSome, IsSome, IsNone};
ghost use Rattle.mst_c_blocks.specs.Begun.{IsBegun, shards_to_begin, Begins, Prepares, Commits, Cancels};
ghost use Rattle.mst_c_blocks.specs.States.{IsThere};
ghost use Rattle.mst_c_blocks.specs.declared.role_box.Role.TheVariants as role;

use crate::role_box::Role;
use mst_blocks::{BlockFault, PartFault, Writer};
use mst_c::packing::Packed;
use mst_parts::{Block, BlockPart};
use mst_slot::{Places, Share, Shares, Unavailable};
use std::alloc::Global;
use std::marker::Model;

/// A share of a part.
pub type PartShare = Share<BlockPart<Global>, Global>;

/// A block that was begun, and a share of each of its parts.
#[derive(Drop)]
pub struct BegunBlock {
    block: Block<Global>,
    shares: Shares<BlockPart<Global>, Global>,
}

/// Contracts see the block. The shares are of its own parts, in their order.
impl Model for BegunBlock {
    ghost use Rattle.std.specs.Prelude.{◌≡◌};
    ghost use Rattle.mst_parts.specs.Origins.{Begun};

    ghost Value = { Begun };

    ghost view = { λ b. b.block };

    ghost invariant = { λ b. b.shares ≡ b.block.parts };
}

/// Why a part was not prepared.
pub(crate) enum PartRefusal {
    /// It is no part, or its block was made or taken back.
    NoPart,
    /// Another call has the part.
    Busy,
    /// Its shard was refused its edits.
    Refused(PartFault),
}

/// Why a block was not made.
pub(crate) enum CommitRefusal {
    /// The hand does not hold a block that was begun.
    NoBlock,
    /// A part is just being prepared.
    Busy,
    /// The block was refused.
    Block(BlockFault),
}

// ---- beginning

/// Begins a block of the edits of a buffer, with two shares of each part. All memory is taken
/// before, except for the block's own.
fn begin_block(
    writer: Writer<Global>,
    alloc: Global,
    packed: &Packed<'_>,
) -> Result<(BegunBlock, Vec<PartShare, Global>), Writer<Global>>
    ensures begun { IfOk result (λ begun. IsBegun packed.now writer begun.0) }
    ensures shares { IfOk result (λ begun. begun.1.items ≡ begun.0.parts) }
    ensures count { IfOk result (λ begun. vec_len begun.1 ≡ length writer.sharding.shards) }
    ensures same { IfErr result (λ left. left ≡ writer) }
{
    let Ok(edits) = packed.edits(alloc) else {
        return Err(writer);
    };
    let Ok(places) = Places::new(alloc, writer.shards()) else {
        return Err(writer);
    };
    // its contract says that the writer has a pass for each shard
    let _last = writer.number();
    match Block::begin(writer, alloc, edits.as_slice()) {
        Ok((block, parts)) => {
            let (shares, others) = places.fill(parts);
            Ok((BegunBlock { block, shares }, others))
        }
        Err((writer, _)) => {
            drop(places);
            Err(writer)
        }
    }
}

/// Begins a block of the edits of a buffer. Returns a share of each part of it, unless a growth was
/// refused.
pub(crate) fn begin(
    held: Role,
    alloc: Global,
    packed: &Packed<'_>,
) -> (Role, Option<Vec<PartShare, Global>>)
    requires writer { IsSome (shards_to_begin held) }
    ensures begun { IfSome result.1 (λ shares. Begins packed.now held shares.items result.0) }
    ensures count { IfSome result.1 (λ shares. shards_to_begin held ≡ Some (vec_len shares)) }
    ensures same { IsNone result.1 → result.0 ≡ held }
    ensures there { IsThere result.0 }
{
    let Role::Writer(writer) = held else {
        unreachable!()
    };
    match begin_block(writer, alloc, packed) {
        Ok((begun, shares)) => (Role::Block(begun), Some(shares)),
        Err(writer) => (Role::Writer(writer), None),
    }
}

// ---- preparing

/// Prepares the part, if it is at home.
fn prepare_share(share: PartShare, alloc: Global) -> (PartShare, Result<(), PartRefusal>)
    ensures prepares { Prepares (role.Part (Some share)) result.1 (role.Part (Some result.0)) }
{
    match share.borrow() {
        Ok((lent, mut part)) => {
            part.prepare(alloc);
            let refusal = part.refusal();
            let share = lent.give_back(part);
            match refusal {
                Some(fault) => (share, Err(PartRefusal::Refused(fault))),
                None => (share, Ok(())),
            }
        }
        Err((share, Unavailable::Lent)) => (share, Err(PartRefusal::Busy)),
        Err((share, Unavailable::Spent)) => (share, Err(PartRefusal::NoPart)),
    }
}

/// Prepares the part, if this is one.
pub(crate) fn prepare(held: Role, alloc: Global) -> (Role, Result<(), PartRefusal>)
    requires there { IsThere held }
    ensures prepares { Prepares held result.1 result.0 }
    ensures there { IsThere result.0 }
{
    match held {
        Role::Part(Some(share)) => {
            let (share, prepared) = prepare_share(share, alloc);
            (Role::Part(Some(share)), prepared)
        }
        other => (other, Err(PartRefusal::NoPart)),
    }
}

// ---- the end

/// Makes the block of its parts, if all are at home.
fn commit_block(begun: BegunBlock, alloc: Global) -> (Role, Result<u64, CommitRefusal>)
    ensures commits { Commits (role.Block begun) result.1 result.0 }
    ensures there { IsThere result.0 }
{
    let BegunBlock { block, shares } = begun;
    match shares.take() {
        Ok(parts) => {
            let (writer, made) = block.commit(alloc, parts);
            match made {
                Ok(number) => (Role::Writer(writer), Ok(number)),
                Err(fault) => (Role::Writer(writer), Err(CommitRefusal::Block(fault))),
            }
        }
        Err(shares) => (
            Role::Block(BegunBlock { block, shares }),
            Err(CommitRefusal::Busy),
        ),
    }
}

/// Makes the block, if this is one that was begun.
pub(crate) fn commit(held: Role, alloc: Global) -> (Role, Result<u64, CommitRefusal>)
    requires there { IsThere held }
    ensures commits { Commits held result.1 result.0 }
    ensures there { IsThere result.0 }
{
    match held {
        Role::Block(begun) => commit_block(begun, alloc),
        other => (other, Err(CommitRefusal::NoBlock)),
    }
}

/// Takes the block back, if all of its parts are at home.
fn cancel_block(begun: BegunBlock) -> (Role, Option<bool>)
    ensures cancels { Cancels (role.Block begun) result.1 result.0 }
    ensures there { IsThere result.0 }
{
    let BegunBlock { block, shares } = begun;
    match shares.take() {
        Ok(parts) => (Role::Writer(block.cancel(parts)), Some(true)),
        Err(shares) => (Role::Block(BegunBlock { block, shares }), Some(false)),
    }
}

/// Takes the block back, if this is one that was begun. There is no answer of what is none.
pub(crate) fn cancel(held: Role) -> (Role, Option<bool>)
    requires there { IsThere held }
    ensures cancels { Cancels held result.1 result.0 }
    ensures there { IsThere result.0 }
{
    match held {
        Role::Block(begun) => cancel_block(begun),
        other => (other, None),
    }
}
