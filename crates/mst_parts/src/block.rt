//! A block that was begun: its parts are prepared one by one, and then it is made of them, or
//! taken back.
ghost use Rattle.std.specs.Prelude.{◌≡◌, ◌≤◌, ◌++◌, List, [], ◌∷◌, vec_capacity, IfOk, IfErr, OnOk, OnErr};
ghost use Rattle.mst_key.specs.declared.history.Edit.{Edit};
ghost use Rattle.mst_shards.specs.BlockHistory.{Blocks, IsNumber};
ghost use Rattle.mst_blocks.specs.Blocks.{LeavesAll};
ghost use Rattle.mst_blocks.specs.Writing.{last_block, block_map, AddsBlock, RefusesBlock, HasMade};
ghost use Rattle.mst_parts.specs.Origins.{IsOf};

use crate::dealing::{begin_all, lists_to_begin};
use crate::finishing::{cancel_parts, finish_all};
use crate::part::BlockPart;
use mst_blocks::{BlockFault, Held, Stage, Writer, conclude, last_root};
use mst_edits::are_within_limits;
use mst_key::{Edit, Memory};
use mst_shards::{lay_all, list_with_room};
use mst_store::Pass;
use std::alloc::Allocator;
use std::marker::Model;
use std::snapshot::Snapshot;

/// A block that was begun. It has its writer until it is committed or cancelled with its parts.
///
/// One that is dropped takes the writer with it.
#[derive(Drop)]
pub struct Block<A: Allocator + Copy> {
    // what the writer had; its list of passes is empty now
    held: Held<A>,
    // the parts that were begun, for contracts alone
    parts: Snapshot<Vec<BlockPart<A>, A>>,
}

/// Contracts see the writer as it was, and the parts.
impl<A: Allocator + Copy> Model for Block<A> {
    ghost use Rattle.std.specs.Prelude.{◌≡◌, ◌≤◌, [], length, vec_capacity};
    ghost use Rattle.std.specs.Arc.{arc_value};
    ghost use Rattle.mst_blocks.specs.Writing.{IsLastRoot};
    ghost use Rattle.mst_parts.specs.Origins.{Begun, begun, IsBlockOf};

    ghost Value = { Begun };

    ghost view = { λ b. begun (arc_value b.held.map).splits b.parts.value.items b.held.directory };

    ghost invariant = { λ b. IsBlockOf (arc_value b.held.map)
        (begun (arc_value b.held.map).splits b.parts.value.items b.held.directory)
        × IsLastRoot b.held.root b.held.directory × (b.held.passes.items ≡ [])
        × (length b.parts.value.items ≤ vec_capacity b.held.passes) };
}

// Lists with room for what is prepared of so many shards, and for their passes.
fn rooms_for<'a, A: Allocator + Copy>(
    alloc: A,
    count: usize,
) -> Result<(Vec<Stage<'a, A, A>, A>, Vec<Pass<'a, A>, A>), Memory>
    ensures stages { IfOk result (λ rooms. rooms.0.items ≡ []) }
    ensures stages_room { IfOk result (λ rooms. count ≤ vec_capacity rooms.0) }
    ensures passes { IfOk result (λ rooms. rooms.1.items ≡ []) }
    ensures passes_room { IfOk result (λ rooms. count ≤ vec_capacity rooms.1) }
{
    let stages = list_with_room(alloc, count)?;
    let passes = list_with_room(alloc, count)?;
    Ok((stages, passes))
}

impl<A: Allocator + Copy> Block<A> {
    /// Begins the writer's next block, of these edits: deals them to the shards, a part for each
    /// shard, in the order of their keys. Each part may be prepared by itself
    /// ([`BlockPart::prepare`]), and [`Block::commit`] makes the block. Until then the writer is
    /// the block's.
    ///
    /// Returns the writer as it was if a growth of the lists was refused.
    pub fn begin(
        writer: Writer<A>,
        alloc: A,
        edits: &[Edit],
    ) -> Result<(Block<A>, Vec<BlockPart<A>, A>), (Writer<A>, Memory)>
        ensures writer { IfOk result (λ begun. begun.0.writer ≡ writer) }
        ensures edits { IfOk result (λ begun. IsOf edits.now begun.0) }
        ensures parts { IfOk result (λ begun. begun.1.items ≡ begun.0.parts) }
        ensures err { IfErr result (λ refused. refused.0 ≡ writer) }
    {
        are_within_limits(edits);
        let held = writer.into_held();
        let (dealt, shares, room) = match lists_to_begin(alloc, &held.map, edits) {
            Ok(lists) => lists,
            Err(refused) => return Err((Writer::from_held(held), refused)),
        };
        let Held {
            map,
            passes,
            directory,
            root,
        } = held;
        let (parts, room) = begin_all(&map, passes, dealt, shares, room);
        let begun = Snapshot::of(&parts);
        let held = Held {
            map,
            passes: room,
            directory,
            root,
        };
        let block = Block { held, parts: begun };
        Ok((block, parts))
    }

    /// Makes the block of its parts, as [`Writer::apply`] makes one of the same edits, and returns
    /// the writer and the block's number. What is prepared is published, and what waits is prepared
    /// first. Readers see none of it before all is prepared.
    ///
    /// The parts are those that were begun with this block, in their order: each of them, whether
    /// prepared or not. Returns the faults of [`Writer::apply`], each under the same condition.
    /// Nothing has changed then.
    pub fn commit(
        self,
        alloc: A,
        parts: Vec<BlockPart<A>, A>,
    ) -> (Writer<A>, Result<u64, BlockFault>)
        requires own { parts.items ≡ self.parts }
        ensures ok { (edits : List Edit) → IsOf edits self
            → OnOk result.1 (AddsBlock edits self.writer result.0) }
        ensures number { IfOk result.1 (λ n. IsNumber n (last_block result.0)) }
        ensures err { (edits : List Edit) → IsOf edits self
            → IfErr result.1 (λ fault. RefusesBlock fault edits self.writer result.0) }
        // if the writer has made these blocks so far, it has now made these and this one, or these
        ensures more { (edits : List Edit) → IsOf edits self
            → OnOk result.1 ((blocks : Blocks) → HasMade blocks self.writer
            → HasMade (blocks ++ edits ∷ []) result.0) }
        ensures same { OnErr result.1 ((blocks : Blocks) → HasMade blocks self.writer
            → HasMade blocks result.0) }
    {
        let (stages, passes) = match rooms_for(alloc, parts.len()) {
            Ok(rooms) => rooms,
            Err(refused) => return (self.cancel(parts), Err(BlockFault::Memory(refused))),
        };
        let Block {
            held,
            parts: _noted,
        } = self;
        let Held {
            map,
            passes: room,
            directory,
            root: last,
        } = held;
        let (staged, stopped) = finish_all(alloc, map.stores(), parts, stages);
        let listing = map.directory().lift(directory);
        let (done, listed, made) = conclude(alloc, map.splits(), staged, stopped, listing, passes);
        let passes = lay_all(done, room);
        let directory = listed.lay();
        let root = last_root(&made, last);
        let writer = Writer::from_held(Held {
            map,
            passes,
            directory,
            root,
        });
        match made {
            Ok(_root) => {
                let number = writer.number();
                (writer, Ok(number))
            }
            Err(fault) => (writer, Err(fault)),
        }
    }

    /// Takes all back and returns the writer: nothing has changed. It takes no memory. The parts
    /// are those that were begun with this block, in their order.
    pub fn cancel(self, parts: Vec<BlockPart<A>, A>) -> Writer<A>
        requires own { parts.items ≡ self.parts }
        ensures splits { result.sharding.splits ≡ self.writer.sharding.splits }
        ensures left { LeavesAll self.writer.sharding.shards result.sharding.shards
            self.writer.directory result.directory }
        ensures map { block_map result ≡ block_map self.writer }
        // the blocks that it has made are those that it had made
        ensures same { (blocks : Blocks) → HasMade blocks self.writer → HasMade blocks result }
    {
        let Block {
            held,
            parts: _noted,
        } = self;
        let Held {
            map,
            passes: room,
            directory,
            root,
        } = held;
        let passes = cancel_parts(map.stores(), parts, room);
        Writer::from_held(Held {
            map,
            passes,
            directory,
            root,
        })
    }
}
