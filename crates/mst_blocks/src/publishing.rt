//! The publication of a block. All swaps come first, the directory's last, and then each shard
//! gives its turn back: so a reader that comes between the first swap and the last waits for no
//! turn to be given back. What a shard has prepared is some 400 bytes. It is published where it
//! stands in the list, and a shard without edits is not moved: so little memory is touched between
//! the first swap and the last.
ghost use Rattle.std.specs.Prelude.{◌≡◌, ◌≤◌, [], map, vec_len, vec_capacity};
ghost use Rattle.std.specs.List.{AllByRecursion};
ghost use Rattle.mst_store.specs.Preparing.{published};
ghost use Rattle.mst_blocks.specs.Staging.{IsShown, published_stage, revealed_stage, canceled_stage};

use crate::blocks::Stage;
use core::mem::replace_with;
use mst_store::{Pass, Prepared};
use std::alloc::Allocator;
use std::collections::VecDeque;

// Publishes what is prepared of one shard. The second argument and result are those that
// `replace_with` hands through.
#[inline(always)]
fn reveal_one<'a, A: Allocator + Copy, B: Allocator>(
    stage: Stage<'a, A, B>,
    _nothing: (),
) -> (Stage<'a, A, B>, ())
    ensures revealed { result.0 ≡ revealed_stage stage.entry }
{
    match stage {
        Stage::Idle(pass) => (Stage::Idle(pass), ()),
        Stage::Ready(prepared) => (Stage::Revealed(prepared.reveal()), ()),
        Stage::Revealed(revealed) => (Stage::Revealed(revealed), ()),
    }
}

// Publishes what is prepared of one shard, where it stands.
#[inline(always)]
fn reveal_in<'a, A: Allocator + Copy, B: Allocator>(stage: &mut Stage<'a, A, B>)
    ensures revealed { stage.new ≡ revealed_stage stage.old }
{
    if let Stage::Ready(_) = stage {
        replace_with(stage, (), reveal_one);
    }
}

// Publishes what is prepared, one swap after the other.
fn reveal_all<'a, A: Allocator + Copy, B: Allocator>(stages: &mut [Stage<'a, A, B>])
    ensures revealed { stages.new ≡ map revealed_stage stages.old }
{
    for stage in stages.iter_mut() {
        reveal_in(stage);
    }
}

// Has one shard give its turn back.
#[inline(always)]
fn close_one<'a, A: Allocator + Copy, B: Allocator>(stage: Stage<'a, A, B>) -> Pass<'a, A>
    requires shown { IsShown stage }
    ensures same { result ≡ canceled_stage stage.entry }
{
    match stage {
        Stage::Idle(pass) => pass,
        Stage::Ready(_) => unreachable!(),
        Stage::Revealed(revealed) => revealed.close(),
    }
}

// Has each shard give its turn back.
fn close_all<'a, A: Allocator + Copy, B: Allocator, C: Allocator>(
    stages: Vec<Stage<'a, A, B>, C>,
    room: Vec<Pass<'a, A>, C>,
) -> Vec<Pass<'a, A>, C>
    requires shown { AllByRecursion IsShown stages.items }
    requires empty { room.items ≡ [] }
    requires fits { vec_len stages ≤ vec_capacity room }
    ensures same { result.items ≡ map canceled_stage stages.entry.items }
{
    let mut left = VecDeque::from_vec(stages);
    let mut passes = room;
    while let Some(stage) = left.pop_front() {
        passes.push_reserved(close_one(stage));
    }
    passes
}

/// Publishes what the shards have prepared, and then what the directory has: one swap each. Then
/// all give their turns back.
pub fn publish_all<'a, A: Allocator + Copy, B: Allocator, C: Allocator, D: Allocator>(
    stages: Vec<Stage<'a, A, B>, C>,
    directory: Prepared<'a, A, D>,
    room: Vec<Pass<'a, A>, C>,
) -> (Vec<Pass<'a, A>, C>, Pass<'a, A>)
    requires empty { room.items ≡ [] }
    requires fits { vec_len stages ≤ vec_capacity room }
    ensures shards { result.0.items ≡ map published_stage stages.entry.items }
    ensures directory { result.1 ≡ published directory.entry.edits directory.entry.known }
{
    let mut stages = stages;
    reveal_all(stages.as_mut_slice());
    let directory = directory.reveal();
    let passes = close_all(stages, room);
    (passes, directory.close())
}
