//! A block: the edits of all shards, made as one change of the whole map, or not at all.
//!
//! Each shard makes its part in free rows and hashes it (`Pass::prepare`). If one of them, or the
//! directory, is refused, all is taken back. Otherwise all are published.
ghost use Rattle.std.specs.Prelude.{◌≡◌, ◌≢◌, ◌≤◌, ◌<◌, ◌+◌, ◌++◌, List, [], map, length, vec_len, vec_capacity, Some, IfOk, IfErr, OnOk, OnErr, IfNone, IfSome, IsNone, IsSome};
ghost use Rattle.mst_key.specs.declared.history.Edit.{Edit};
ghost use Rattle.mst_key.specs.History.{after};
ghost use Rattle.mst_node.specs.Text.{root as root_of};
ghost use Rattle.mst_store.specs.Passes.{Known, format_seen};
ghost use Rattle.mst_sharded_proof.specs.Shards.{shards as shards_at};
ghost use Rattle.mst_shards.specs.Sharding.{AllStep};
ghost use Rattle.mst_shards.specs.Entries.{shard_at};
ghost use Rattle.mst_blocks.specs.Blocks.{last_made, MakesBlock, MakesNothing, LeavesAll, RefusesPart, RefusedAt, RefusesParts};
ghost use Rattle.mst_blocks.specs.Staging.{PreparesNext, Staged, AllStaged, IsStaged, Concludes, canceled_stage, listed_stage, listed_stages};

use crate::faults::{BlockFault, PartFault};
use crate::publishing::publish_all;
use mst_key::{Edit, Key, Memory};
use mst_shards::{high_key, listing, low_key};
use mst_store::{Pass, Prepared, Revealed};
use std::alloc::Allocator;
use std::collections::VecDeque;
use std::marker::Model;

/// A shard while a block is made.
#[derive(Drop)]
pub enum Stage<'a, A: Allocator + Copy, B: Allocator> {
    /// Nothing is prepared.
    Idle(Pass<'a, A>),
    /// Its part is prepared.
    Ready(Prepared<'a, A, B>),
    /// Its part is published, and it has the turn.
    Revealed(Revealed<'a, A, B>),
}

/// The edits of one shard.
#[derive(Drop)]
pub struct Part<B: Allocator> {
    /// In their order.
    pub edits: Vec<Edit, B>,
}

/// Contracts see the edits.
impl<B: Allocator> Model for Part<B> {
    ghost use Rattle.std.specs.Prelude.{List};
    ghost use Rattle.mst_key.specs.declared.history.Edit.{Edit};

    ghost Value = { List Edit };

    ghost view = { λ p. p.edits.items };
}

// The version that a pass made last, or 0 if it made none.
pub(crate) fn last_version<A: Allocator + Copy>(pass: &Pass<'_, A>) -> u64
    ensures last { result ≡ last_made pass.now }
{
    match pass.made() {
        Some(version) => version,
        None => 0,
    }
}

// Keeps what is prepared if it was made on this version, and takes it back otherwise.
fn keep_on<'a, A: Allocator + Copy, B: Allocator>(
    prepared: Prepared<'a, A, B>,
    last: u64,
) -> Result<Prepared<'a, A, B>, Pass<'a, A>>
    ensures ok { IfOk result
        (λ p. (p ≡ prepared.entry) × (length prepared.entry.known.seen ≡ last)) }
    ensures err { IfErr result
        (λ pass. (pass ≡ prepared.entry.known) × (length prepared.entry.known.seen ≢ last)) }
{
    if prepared.found() == last {
        Ok(prepared)
    } else {
        Err(prepared.cancel())
    }
}

/// Prepares edits on the version that the pass made last. If another is found, it takes them back.
pub fn prepare_next<'a, A: Allocator + Copy, B: Allocator, C: Allocator + Copy>(
    alloc: C,
    pass: Pass<'a, A>,
    edits: Vec<Edit, B>,
) -> Result<Prepared<'a, A, B>, (PartFault, Pass<'a, A>)>
    ensures ok { IfOk result (λ p. PreparesNext edits.items pass.entry p) }
    ensures err { IfErr result
        (λ refused. RefusesPart refused.0 edits.items pass.entry refused.1) }
{
    let last = last_version(&pass);
    match pass.prepare(alloc, edits) {
        Ok(prepared) => match keep_on(prepared, last) {
            Ok(next) => Ok(next),
            Err(found) => Err((PartFault::Overtaken, found)),
        },
        Err((fault, pass)) => Err((PartFault::Refused(fault), pass)),
    }
}

// Prepares the part of one shard, which has edits. It is a function of its own, so that no shard
// without edits pays for filling with zeros what is held here.
fn stage_one<'a, A: Allocator + Copy, B: Allocator, C: Allocator + Copy>(
    alloc: C,
    pass: Pass<'a, A>,
    part: Part<B>,
) -> (Stage<'a, A, B>, Option<PartFault>)
    requires some { 0 < length part }
    ensures staged { IfNone result.1 (Staged part pass.entry result.0) }
    ensures refused { IfSome result.1 (λ fault. (0 < length part)
        × RefusesPart fault part pass.entry (canceled_stage result.0)) }
    ensures left { MakesNothing pass.entry (canceled_stage result.0) }
{
    match prepare_next(alloc, pass, part.edits) {
        Ok(prepared) => (Stage::Ready(prepared), None),
        Err((fault, pass)) => (Stage::Idle(pass), Some(fault)),
    }
}

/// Prepares the part of the next shard, if it has edits, and unless one before it was refused.
pub fn stage_next<'a, A: Allocator + Copy, B: Allocator, C: Allocator + Copy>(
    alloc: C,
    pass: Pass<'a, A>,
    part: Part<B>,
    stopped: &mut Option<(usize, PartFault)>,
    place: usize,
) -> Stage<'a, A, B>
    ensures none { IsNone stopped.new → IsNone stopped.old }
    ensures staged { IsNone stopped.new → Staged part pass.entry result }
    ensures kept { IsSome stopped.old → stopped.new ≡ stopped.old }
    ensures refused { IsNone stopped.old → IfSome stopped.new (λ s. (s.0 ≡ place)
        × (0 < length part) × RefusesPart s.1 part pass.entry (canceled_stage result)) }
    ensures left { MakesNothing pass.entry (canceled_stage result) }
{
    if stopped.is_some() {
        return Stage::Idle(pass);
    }
    if part.edits.is_empty() {
        return Stage::Idle(pass);
    }
    let (stage, fault) = stage_one(alloc, pass, part);
    if let Some(fault) = fault {
        *stopped = Some((place, fault));
    }
    stage
}

// Prepares the part of each shard, one after the other. At the first refusal it stops, and the
// shards behind it stay idle. Returns the list of the passes too, which is now empty.
fn prepare_all<'a, A: Allocator + Copy, B: Allocator, C: Allocator, D: Allocator + Copy>(
    alloc: D,
    passes: Vec<Pass<'a, A>, C>,
    parts: Vec<Part<B>, C>,
    room: Vec<Stage<'a, A, B>, C>,
) -> (
    Vec<Stage<'a, A, B>, C>,
    Vec<Pass<'a, A>, C>,
    Option<(usize, PartFault)>,
)
    requires empty { room.items ≡ [] }
    requires fits { vec_len passes ≤ vec_capacity room }
    requires count { vec_len parts ≡ vec_len passes }
    ensures all { IsNone result.2
        → AllStaged parts.items passes.entry.items result.0.items }
    ensures refused { IfSome result.2 (λ s. RefusedAt s.0 s.1 parts.items passes.entry.items
        (map canceled_stage result.0.items)) }
    ensures left { AllStep MakesNothing passes.entry.items
        (map canceled_stage result.0.items) }
    ensures empty { result.1.items ≡ [] }
    ensures room { vec_len result.0 ≤ vec_capacity result.1 }
{
    let mut left = VecDeque::from_vec(passes);
    let mut waiting = VecDeque::from_vec(parts);
    let mut stages = room;
    let mut stopped = None;
    while let Some(pass) = left.pop_front() {
        let Some(part) = waiting.pop_front() else {
            unreachable!()
        };
        let place = stages.len();
        stages.push_reserved(stage_next(alloc, pass, part, &mut stopped, place));
    }
    (stages, left.into_vec(), stopped)
}

// Takes back what is prepared of one shard.
fn cancel_one<'a, A: Allocator + Copy, B: Allocator>(stage: Stage<'a, A, B>) -> Pass<'a, A>
    ensures canceled { result ≡ canceled_stage stage.entry }
{
    match stage {
        Stage::Idle(pass) => pass,
        Stage::Ready(prepared) => prepared.cancel(),
        Stage::Revealed(revealed) => revealed.close(),
    }
}

// Takes back what is prepared.
fn cancel_all<'a, A: Allocator + Copy, B: Allocator, C: Allocator>(
    stages: Vec<Stage<'a, A, B>, C>,
    room: Vec<Pass<'a, A>, C>,
) -> Vec<Pass<'a, A>, C>
    requires empty { room.items ≡ [] }
    requires fits { vec_len stages ≤ vec_capacity room }
    ensures canceled { result.items ≡ map canceled_stage stages.entry.items }
{
    let mut left = VecDeque::from_vec(stages);
    let mut passes = room;
    while let Some(stage) = left.pop_front() {
        passes.push_reserved(cancel_one(stage));
    }
    passes
}

// Adds the edit by which the directory lists the map that waits at a shard, if one does.
fn list_one<'a, A: Allocator + Copy, B: Allocator, C: Allocator>(
    edits: &mut Vec<Edit, C>,
    splits: &[Key],
    stage: &Stage<'a, A, B>,
    place: usize,
) -> Result<(), Memory>
    requires there { place ≤ length splits.now }
    ensures listed { OnOk result (edits.new.items
        ≡ edits.old.items ++ listed_stage (shard_at splits.now place) stage.now) }
{
    let Stage::Ready(prepared) = stage else {
        return Ok(());
    };
    let digest = prepared.root();
    let edit = Edit::Put(
        low_key(splits, place),
        listing(&digest, high_key(splits, place)),
    );
    edits.push(edit)?;
    Ok(())
}

// The edits by which the directory lists the maps that wait at the shards.
fn list_stages<'a, A: Allocator + Copy, B: Allocator, C: Allocator>(
    alloc: C,
    splits: &[Key],
    stages: &[Stage<'a, A, B>],
) -> Result<Vec<Edit, C>, Memory>
    requires count { length stages.now ≡ length splits.now + 1 }
    ensures listed { IfOk result
        (λ edits. edits.items ≡ listed_stages (shards_at splits.now) stages.now) }
{
    let mut edits = Vec::new(alloc);
    for place in 0..stages.len() {
        list_one(&mut edits, splits, &stages[place], place)?;
    }
    Ok(edits)
}

/// Makes a block of what its shards have prepared: the directory lists their new root digests, and
/// all are published ([`publish_all`]). If a shard was refused its part, or the directory is
/// refused these edits, all is taken back. Returns the directory's new root digest.
pub fn conclude<'a, A: Allocator + Copy, B: Allocator, C: Allocator, D: Allocator + Copy>(
    alloc: D,
    splits: &[Key],
    stages: Vec<Stage<'a, A, B>, C>,
    stopped: Option<(usize, PartFault)>,
    directory: Pass<'a, A>,
    room: Vec<Pass<'a, A>, C>,
) -> (
    Vec<Pass<'a, A>, C>,
    Pass<'a, A>,
    Result<[u8; 32], BlockFault>,
)
    requires shards { vec_len stages ≡ length splits.now + 1 }
    requires empty { room.items ≡ [] }
    requires fits { vec_len stages ≤ vec_capacity room }
    // whatever the parts were, and what the passes knew before
    ensures concludes { (parts : List (List Edit)) (ps : List Known)
        → IsStaged stopped parts ps stages.entry.items
        → Concludes splits.now parts ps result.0.items directory.entry result.1 result.2 }
    ensures root { IfOk result.2
        (λ digest. digest ≡ root_of (format_seen result.1) (after result.1.seen)) }
{
    if let Some((place, fault)) = stopped {
        let passes = cancel_all(stages, room);
        return (passes, directory, Err(BlockFault::Shard(place, fault)));
    }
    let edits = match list_stages(alloc, splits, stages.as_slice()) {
        Ok(edits) => edits,
        Err(refused) => {
            let passes = cancel_all(stages, room);
            return (passes, directory, Err(BlockFault::Memory(refused)));
        }
    };
    match prepare_next(alloc, directory, edits) {
        Ok(listing) => {
            let digest = listing.root();
            let (passes, directory) = publish_all(stages, listing, room);
            (passes, directory, Ok(digest))
        }
        Err((fault, directory)) => {
            let passes = cancel_all(stages, room);
            (passes, directory, Err(BlockFault::Directory(fault)))
        }
    }
}

/// Makes a block: each shard its part, and the directory lists the new root digests. If a shard or
/// the directory is refused, or was written by another since its pass wrote last, nothing at all is
/// made. A shard without edits makes no step.
///
/// No shard is published before all have made and hashed their parts, and the directory too.
/// Returns the directory's new root digest.
pub(crate) fn commit<'a, A: Allocator + Copy, B: Allocator, C: Allocator, D: Allocator + Copy>(
    alloc: D,
    splits: &[Key],
    passes: Vec<Pass<'a, A>, C>,
    parts: Vec<Part<B>, C>,
    directory: Pass<'a, A>,
    room: Vec<Stage<'a, A, B>, C>,
) -> (
    Vec<Pass<'a, A>, C>,
    Pass<'a, A>,
    Result<[u8; 32], BlockFault>,
)
    requires shards { vec_len passes ≡ length splits.now + 1 }
    requires parts { vec_len parts ≡ vec_len passes }
    requires empty { room.items ≡ [] }
    requires fits { vec_len passes ≤ vec_capacity room }
    ensures ok { OnOk result.2 (MakesBlock splits.now parts.items passes.entry.items
        result.0.items directory.entry result.1) }
    ensures root { IfOk result.2
        (λ digest. digest ≡ root_of (format_seen result.1) (after result.1.seen)) }
    ensures err { OnErr result.2 (LeavesAll passes.entry.items result.0.items directory.entry
        result.1) }
    ensures why { IfErr result.2 (λ fault. RefusesParts fault splits.now parts.items
        passes.entry.items result.0.items directory.entry result.1) }
{
    let (stages, room, stopped) = prepare_all(alloc, passes, parts, room);
    conclude(alloc, splits, stages, stopped, directory, room)
}
