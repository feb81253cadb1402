//! Where nodes stood before. A node that is written anew goes back to where an earlier version of
//! it stood, if that is free: most words of these rows are right already, and the rows of a node
//! stay side by side. Only how fast calls are rests on it.
ghost use Rattle.std.specs.Prelude.{◌≡◌, ◌≢◌, ◌≤◌, ◌<◌, ◌^◌, ℕ, Some, length, slice_get, slice_set, IfOk, IfSome};
ghost use Rattle.std.specs.List.{range_with_len};
ghost use Rattle.mst_arena.specs.Limits.{most_rows};

use mst_key::Memory;
use std::alloc::Allocator;

/// For the row of each head, that of the head of the node whose place it took; its own if it took
/// the place of none.
#[derive(Drop)]
pub struct Homes<A: Allocator> {
    before: Vec<u16, A>,
}

impl<A: Allocator> Homes<A> {
    /// Of so many rows, none of which took another's place.
    pub fn new(alloc: A, rows: u32) -> Result<Homes<A>, Memory>
        requires few { rows ≤ most_rows }
        ensures own { IfOk result (λ h. h.before.items ≡ range_with_len 0 rows) }
    {
        let mut before = Vec::with_capacity(alloc, rows as usize)?;
        for row in 0..rows {
            before.push_reserved(row as u16);
        }
        Ok(Homes { before })
    }

    /// Where the head stood whose place the node of this head took; `None` if it took none's.
    pub fn before(&self, head: u32) -> Option<u32>
        ensures other { IfSome result
            (λ r. (slice_get self.now.before.items head ≡ Some r) × (r ≢ head)) }
    {
        let before = u32::from(*self.before.get(head as usize)?);
        if before == head { None } else { Some(before) }
    }

    /// The node of this head takes the place of that of another, if there are rows of these
    /// numbers.
    pub fn note(&mut self, head: u32, before: u32)
        ensures noted { before < 2 ^ 16
            → self.new.before.items ≡ slice_set self.old.before.items head before }
    {
        if let (Some(place), Ok(before)) = (self.before.get_mut(head as usize), before.try_into()) {
            *place = before;
        }
    }
}
