//! The parts of a block that come back: what waits is prepared, one shard after the other; or all
//! is taken back.
ghost use Rattle.std.specs.Prelude.{◌≡◌, ◌≤◌, ◌<◌, [], length, vec_len, vec_capacity, IfSome, IsNone, IsSome};
ghost use Rattle.mst_shards.specs.Laid.{AreOf};
ghost use Rattle.mst_shards.specs.Sharding.{AllStep};
ghost use Rattle.mst_blocks.specs.Blocks.{MakesNothing, RefusesPart};
ghost use Rattle.mst_blocks.specs.Staging.{Staged, IsStaged, canceled_stage};
ghost use Rattle.mst_parts.specs.Origins.{edits_of, passes_of};

use crate::part::{BlockPart, LaidStage};
use mst_blocks::{PartFault, Stage, stage_next};
use mst_store::{Laid, Store};
use std::alloc::Allocator;
use std::collections::VecDeque;

// Notes that the shard at a place was refused, unless one before it was.
fn note_refusal(stopped: &mut Option<(usize, PartFault)>, place: usize, fault: PartFault)
    ensures some { IsSome stopped.new }
    ensures kept { IsSome stopped.old → stopped.new ≡ stopped.old }
    ensures noted { IsNone stopped.old
        → IfSome stopped.new (λ s. (s.0 ≡ place) × (s.1 ≡ fault)) }
{
    if stopped.is_none() {
        *stopped = Some((place, fault));
    }
}

// Lifts the next part. Its edits are prepared now if they wait, unless a shard before it was
// refused.
fn finish_next<'a, A: Allocator + Copy>(
    alloc: A,
    store: &'a Store<A>,
    part: BlockPart<A>,
    stopped: &mut Option<(usize, PartFault)>,
    place: usize,
) -> Stage<'a, A, A>
    requires own { part.pass.store ≡ store.now }
    ensures none { IsNone stopped.new → IsNone stopped.old }
    ensures staged { IsNone stopped.new → Staged part.edits part.pass result }
    ensures kept { IsSome stopped.old → stopped.new ≡ stopped.old }
    ensures refused { IsNone stopped.old → IfSome stopped.new (λ s. (s.0 ≡ place)
        × (0 < length part.edits) × RefusesPart s.1 part.edits part.pass (canceled_stage result)) }
    ensures left { MakesNothing part.pass (canceled_stage result) }
{
    match part.into_stage() {
        LaidStage::Away => unreachable!(),
        LaidStage::Waits(laid, edits) => {
            stage_next(alloc, store.lift(laid), edits, stopped, place)
        }
        LaidStage::Ready(prepared) => Stage::Ready(store.lift_prepared(prepared)),
        LaidStage::Stopped(fault, laid) => {
            note_refusal(stopped, place, fault);
            Stage::Idle(store.lift(laid))
        }
    }
}

// Lifts all parts, one after the other, and prepares what waits up to the first refusal.
pub(crate) fn finish_all<'a, A: Allocator + Copy>(
    alloc: A,
    stores: &'a [Store<A>],
    parts: Vec<BlockPart<A>, A>,
    room: Vec<Stage<'a, A, A>, A>,
) -> (Vec<Stage<'a, A, A>, A>, Option<(usize, PartFault)>)
    requires own { AreOf stores.now (passes_of parts.items) }
    requires empty { room.items ≡ [] }
    requires fits { vec_len parts ≤ vec_capacity room }
    ensures staged { IsStaged result.1 (edits_of parts.items) (passes_of parts.items)
        result.0.items }
{
    let mut left = VecDeque::from_vec(parts);
    let mut stages = room;
    let mut stopped = None;
    while let Some(part) = left.pop_front() {
        let place = stages.len();
        stages.push_reserved(finish_next(alloc, &stores[place], part, &mut stopped, place));
    }
    (stages, stopped)
}

// Takes back what is prepared of a part.
fn cancel_part<A: Allocator + Copy>(store: &Store<A>, part: BlockPart<A>) -> Laid<A>
    requires own { part.pass.store ≡ store.now }
    ensures nothing { MakesNothing part.pass result }
{
    match part.into_stage() {
        LaidStage::Away => unreachable!(),
        LaidStage::Waits(laid, _) => laid,
        LaidStage::Ready(prepared) => store.lift_prepared(prepared).cancel().lay(),
        LaidStage::Stopped(_, laid) => laid,
    }
}

// Takes back what is prepared of all parts.
pub(crate) fn cancel_parts<A: Allocator + Copy>(
    stores: &[Store<A>],
    parts: Vec<BlockPart<A>, A>,
    room: Vec<Laid<A>, A>,
) -> Vec<Laid<A>, A>
    requires own { AreOf stores.now (passes_of parts.items) }
    requires empty { room.items ≡ [] }
    requires fits { vec_len parts ≤ vec_capacity room }
    ensures nothing { AllStep MakesNothing (passes_of parts.items) result.items }
{
    let mut left = VecDeque::from_vec(parts);
    let mut passes = room;
    while let Some(part) = left.pop_front() {
        let place = passes.len();
        passes.push_reserved(cancel_part(&stores[place], part));
    }
    passes
}
