//! The part that one shard has in a block, which may be prepared by itself.
ghost use Rattle.std.specs.Prelude.{◌≡◌, ◌==◌, ◌<◌, length, IfSome};
ghost use Rattle.std.specs.Arc.{arc_value};
ghost use Rattle.mst_store.specs.Passes.{Known};
ghost use Rattle.mst_blocks.specs.Blocks.{RefusesPart};
ghost use Rattle.mst_parts.specs.Origins.{Origin, ComesFrom, HasPassOf, IsStoreAt};

use mst_blocks::{Part, PartFault, prepare_next};
use mst_shards::Sharded;
use mst_store::{Laid, LaidPrepared, Store};
use std::alloc::Allocator;
use std::marker::Model;
use std::mem::replace;
use std::snapshot::Snapshot;
use std::sync::Arc;

/// How far the part of a shard is. Its pass is laid down.
#[derive(Drop)]
pub enum LaidStage<A: Allocator + Copy> {
    /// It is just being prepared.
    Away,
    /// Its edits wait.
    Waits(Laid<A>, Part<A>),
    /// They are prepared.
    Ready(LaidPrepared<A, A>),
    /// The shard was refused them.
    Stopped(PartFault, Laid<A>),
}

/// The shard of a part, and how far it is.
#[derive(Drop)]
pub struct Work<A: Allocator + Copy> {
    map: Arc<Sharded<A>, A>,
    place: usize,
    stage: LaidStage<A>,
}

/// What one shard has to do for a block that was begun: a pass of it, laid down, and the edits of
/// its keys. It may be prepared while others wait.
///
/// One that is dropped takes the pass with it: no block can be made of this map any more.
#[derive(Drop)]
pub struct BlockPart<A: Allocator + Copy> {
    work: Work<A>,
    // what it was begun with, for contracts alone
    pass: Snapshot<Laid<A>>,
    edits: Snapshot<Part<A>>,
}

/// Contracts see what it was begun with. So they see the same part before it is prepared and after.
impl<A: Allocator + Copy> Model for BlockPart<A> {
    ghost use Rattle.std.specs.Arc.{arc_value};
    ghost use Rattle.mst_parts.specs.Origins.{Origin, ComesFrom, IsStoreAt};

    ghost Value = { Origin };

    ghost view = { λ p. record { pass = p.pass.value; edits = p.edits.value } };

    ghost invariant = { λ p. IsStoreAt (arc_value p.work.map).stores p.work.place p.pass.value.store
        × ComesFrom (record { pass = p.pass.value; edits = p.edits.value }) p.work.stage };
}

// Prepares edits that wait, if there are any.
fn prepare_waiting<A: Allocator + Copy>(
    alloc: A,
    store: &Store<A>,
    laid: Laid<A>,
    part: Part<A>,
) -> LaidStage<A>
    requires own { laid.store ≡ store.now }
    ensures comes { ComesFrom (record { pass = laid; edits = part }) result }
{
    if part.edits.is_empty() {
        return LaidStage::Waits(laid, part);
    }
    let Part { edits } = part;
    match prepare_next(alloc, store.lift(laid), edits) {
        Ok(prepared) => LaidStage::Ready(prepared.lay()),
        Err((fault, pass)) => LaidStage::Stopped(fault, pass.lay()),
    }
}

// Prepares a part whose edits wait.
fn prepare_stage<A: Allocator + Copy>(
    alloc: A,
    store: &Store<A>,
    stage: LaidStage<A>,
) -> LaidStage<A>
    requires own { HasPassOf store.now stage }
    ensures comes { (o : Origin) → ComesFrom o stage → ComesFrom o result }
{
    match stage {
        LaidStage::Away => unreachable!(),
        LaidStage::Waits(laid, part) => prepare_waiting(alloc, store, laid, part),
        LaidStage::Ready(prepared) => LaidStage::Ready(prepared),
        LaidStage::Stopped(fault, laid) => LaidStage::Stopped(fault, laid),
    }
}

impl<A: Allocator + Copy> BlockPart<A> {
    // Begins the part of the shard at a place.
    pub(crate) fn begin(
        map: Arc<Sharded<A>, A>,
        place: usize,
        pass: Laid<A>,
        part: Part<A>,
    ) -> BlockPart<A>
        requires own { IsStoreAt (arc_value map).stores place pass.store }
        ensures begun { result ≡ record { pass = pass; edits = part } }
    {
        let known = Snapshot::of(&pass);
        let edits = Snapshot::of(&part);
        let stage = LaidStage::Waits(pass, part);
        BlockPart {
            work: Work { map, place, stage },
            pass: known,
            edits,
        }
    }

    /// Whether its shard has no edits in this block. Then there is nothing to prepare.
    pub fn is_empty(&self) -> bool
        ensures empty { result ≡ (length self.now.edits == 0) }
    {
        match &self.work.stage {
            LaidStage::Away => unreachable!(),
            LaidStage::Waits(_, part) => part.edits.is_empty(),
            LaidStage::Ready(_) => false,
            LaidStage::Stopped(_, _) => false,
        }
    }

    /// Makes its edits in free rows and hashes them. Nothing is published. It remembers a refusal.
    /// If it is prepared or was refused already, it stays so. What is not prepared by then
    /// [`Block::commit`](crate::Block::commit) prepares.
    pub fn prepare(&mut self, alloc: A)
        ensures same { self.new ≡ self.old }
    {
        let stage = replace(&mut self.work.stage, LaidStage::Away);
        let store = &self.work.map.stores()[self.work.place];
        self.work.stage = prepare_stage(alloc, store, stage);
    }

    /// Why its shard was refused its edits, if it was. The block will be refused with this fault,
    /// or with that of a shard before it.
    pub fn refusal(&self) -> Option<PartFault>
        ensures why { IfSome result (λ fault. (0 < length self.now.edits)
            × ((q : Known) × RefusesPart fault self.now.edits self.now.pass q)) }
    {
        match &self.work.stage {
            LaidStage::Away => unreachable!(),
            LaidStage::Waits(_, _) => None,
            LaidStage::Ready(_) => None,
            LaidStage::Stopped(fault, _) => Some(*fault),
        }
    }

    // How far it is.
    pub(crate) fn into_stage(self) -> LaidStage<A>
        ensures comes { ComesFrom self result }
    {
        self.work.stage
    }
}
