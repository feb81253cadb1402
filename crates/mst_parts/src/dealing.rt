//! The parts of a block, begun: each has the pass of its shard, its edits and a share of the map.
ghost use Rattle.std.specs.Prelude.{◌≡◌, ◌≤◌, ◌+◌, [], length, vec_len, vec_capacity, IfOk};
ghost use Rattle.std.specs.Arc.{arc_value};
ghost use Rattle.std.specs.List.{AllByRecursion};
ghost use Rattle.mst_shards.specs.Laid.{AreOf};
ghost use Rattle.mst_blocks.specs.Blocks.{parts_of};
ghost use Rattle.mst_parts.specs.Origins.{edits_of, passes_of};

use crate::part::BlockPart;
use mst_blocks::{Part, deal_edits};
use mst_key::{Edit, Memory};
use mst_shards::{Sharded, list_with_room};
use mst_store::Laid;
use std::alloc::Allocator;
use std::collections::VecDeque;
use std::sync::Arc;

// So many shares of a map.
fn shares_of<A: Allocator + Copy>(
    alloc: A,
    map: &Arc<Sharded<A>, A>,
    count: usize,
) -> Result<Vec<Arc<Sharded<A>, A>, A>, Memory>
    ensures same { IfOk result
        (λ shares. AllByRecursion (λ share. arc_value share ≡ arc_value map.now) shares.items) }
    ensures count { IfOk result (λ shares. vec_len shares ≡ count) }
{
    let mut shares = list_with_room(alloc, count)?;
    for _place in 0..count {
        let share = Arc::try_clone(map)?;
        shares.push_reserved(share);
    }
    Ok(shares)
}

// The edits of each shard, as many shares of the map, and a list with room for the parts.
pub(crate) fn lists_to_begin<A: Allocator + Copy>(
    alloc: A,
    map: &Arc<Sharded<A>, A>,
    edits: &[Edit],
) -> Result<
    (
        Vec<Part<A>, A>,
        Vec<Arc<Sharded<A>, A>, A>,
        Vec<BlockPart<A>, A>,
    ),
    Memory,
>
    ensures edits { IfOk result
        (λ lists. lists.0.items ≡ parts_of (arc_value map.now).splits edits.now) }
    ensures dealt { IfOk result
        (λ lists. vec_len lists.0 ≡ length (arc_value map.now).splits + 1) }
    ensures same { IfOk result
        (λ lists. AllByRecursion (λ share. arc_value share ≡ arc_value map.now) lists.1.items) }
    ensures shares { IfOk result
        (λ lists. vec_len lists.1 ≡ length (arc_value map.now).splits + 1) }
    ensures empty { IfOk result (λ lists. lists.2.items ≡ []) }
    ensures room { IfOk result
        (λ lists. length (arc_value map.now).splits + 1 ≤ vec_capacity lists.2) }
{
    let splits = map.splits();
    let parts = deal_edits(alloc, splits, edits)?;
    let shares = shares_of(alloc, map, splits.len() + 1)?;
    let room = list_with_room(alloc, splits.len() + 1)?;
    Ok((parts, shares, room))
}

// Begins the part of each shard, one after the other. Returns the list of the passes too, which is
// now empty.
pub(crate) fn begin_all<A: Allocator + Copy>(
    map: &Sharded<A>,
    passes: Vec<Laid<A>, A>,
    dealt: Vec<Part<A>, A>,
    shares: Vec<Arc<Sharded<A>, A>, A>,
    room: Vec<BlockPart<A>, A>,
) -> (Vec<BlockPart<A>, A>, Vec<Laid<A>, A>)
    requires own { AreOf map.now.stores passes.items }
    requires same { AllByRecursion (λ share. arc_value share ≡ map.now) shares.items }
    requires dealt { vec_len dealt ≡ vec_len passes }
    requires shares { vec_len shares ≡ vec_len passes }
    requires empty { room.items ≡ [] }
    requires fits { vec_len passes ≤ vec_capacity room }
    ensures passes { passes_of result.0.items ≡ passes.items }
    ensures edits { edits_of result.0.items ≡ dealt.items }
    ensures empty { result.1.items ≡ [] }
    ensures room { vec_len result.0 ≤ vec_capacity result.1 }
{
    let mut left = VecDeque::from_vec(passes);
    let mut waiting = VecDeque::from_vec(dealt);
    let mut sharing = VecDeque::from_vec(shares);
    let mut parts = room;
    while let Some(pass) = left.pop_front() {
        let Some(part) = waiting.pop_front() else {
            unreachable!()
        };
        let Some(share) = sharing.pop_front() else {
            unreachable!()
        };
        let place = parts.len();
        parts.push_reserved(BlockPart::begin(share, place, pass, part));
    }
    (parts, left.into_vec())
}
