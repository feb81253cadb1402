//! Empty lists with room for what is to come: all memory of a call is taken before it begins.
ghost use Rattle.std.specs.Prelude.{◌≡◌, ◌≤◌, [], vec_capacity, IfOk};

use mst_key::Memory;
use std::alloc::Allocator;

/// An empty list with room for `count` things.
pub fn list_with_room<T, A: Allocator>(alloc: A, count: usize) -> Result<Vec<T, A>, Memory>
    ensures empty { IfOk result (λ room. room.items ≡ []) }
    ensures room { IfOk result (λ room. count ≤ vec_capacity room) }
{
    Ok(Vec::with_capacity(alloc, count)?)
}
