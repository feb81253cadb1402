//! The free rows: a bitmap of two levels, from which rows are handed out upwards, or where they are
//! asked for: so that the rows of a node stand side by side, and where it stood before.
ghost use Rattle.std.specs.Prelude.{◌≡◌, ◌≤◌, ◌<◌, ◌+◌, ◌*◌, ◌/◌, ◌^◌, ℕ, length, vec_capacity, true, false, Some, replicate, slice_get, slice_index, slice_set, IfOk, IfSome, IfNone};
ghost use Rattle.mst_arena.specs.Bits.{Sums, bit, count_true};
ghost use Rattle.mst_arena.specs.Limits.{most_rows};

use crate::bits::{are_set, bit_in_use, is_set, put_bit, take_bit};
use crate::homes::Homes;
use mst_key::Memory;
use std::alloc::Allocator;
use std::marker::Model;

/// A set of rows.
#[derive(Drop)]
pub struct FreeRows<A: Allocator> {
    rows: u32,
    count: u32,
    /// The word of which a row was last taken, but for rows that were asked for.
    at: usize,
    /// The row behind those of the last new node.
    ahead: u32,
    /// A bit for each row.
    words: Vec<u64, A>,
    /// A bit for each word that is not 0.
    summary: Vec<u64, A>,
    /// Where nodes stood before.
    homes: Homes<A>,
}

/// Contracts see for each row whether it is in the set.
impl<A: Allocator> Model for FreeRows<A> {
    ghost use Rattle.std.specs.Prelude.{List, Bool, vec_capacity};
    ghost use Rattle.mst_arena.specs.Bits.{flags, IsSet};

    ghost Value = { List Bool };

    ghost view = { λ s. flags s.rows s.words.items };

    ghost invariant = { λ s. IsSet s.rows s.count s.at s.words.items s.summary.items
        (vec_capacity s.words) (vec_capacity s.summary) };
}

/// So many words, all of them 0.
fn zeros<A: Allocator>(alloc: A, count: usize) -> Result<Vec<u64, A>, Memory>
    ensures ok { IfOk result (λ v. (v.items ≡ replicate count 0) × (vec_capacity v ≡ count)) }
{
    let mut words = Vec::with_capacity(alloc, count)?;
    for _ in 0..count {
        words.push_reserved(0);
    }
    Ok(words)
}

/// How many versions of a node are gone back.
const STEPS: u32 = 8;

/// Where the node of this head stood last, of the places with so many rows in the set.
fn free_home<A: Allocator>(homes: &Homes<A>, words: &[u64], head: u32, count: u32) -> Option<u32>
    ensures free { IfSome result
        (λ home. (i : ℕ) → home ≤ i → i < home + count → bit words.now i ≡ 1) }
{
    let mut place = head;
    for _ in 0..STEPS {
        place = homes.before(place)?;
        if are_set(words, place as usize, count as usize) {
            return Some(place);
        }
    }
    None
}

impl<A: Allocator + Copy> FreeRows<A> {
    /// All of so many rows.
    pub fn new(alloc: A, rows: u32) -> Result<FreeRows<A>, Memory>
        requires some { 0 < rows }
        requires few { rows ≤ most_rows }
        ensures ok { IfOk result (λ s. s ≡ replicate rows true) }
    {
        let count = (rows as usize).div_ceil(64);
        let words = zeros(alloc, count)?;
        let summary = zeros(alloc, count.div_ceil(64))?;
        let mut free = FreeRows {
            rows,
            count: 0,
            at: 0,
            ahead: 0,
            words,
            summary,
            homes: Homes::new(alloc, rows)?,
        };
        for row in 0..rows {
            free.put(row);
        }
        Ok(free)
    }
}

impl<A: Allocator> FreeRows<A> {
    /// How many rows are in the set.
    pub fn count(&self) -> u32
        ensures count { result ≡ count_true self.now }
    {
        self.count
    }

    /// Where the head of a node of so many rows goes if that row is in the set: where the node of
    /// the head `replaced`, whose place it takes, stood before, if all rows there are in the set;
    /// otherwise behind the last new node.
    pub fn place_for(&self, replaced: Option<u32>, count: u32) -> u32 {
        match replaced {
            Some(head) => free_home(&self.homes, &self.words, head, count).unwrap_or(self.ahead),
            None => self.ahead,
        }
    }

    /// A node of so many rows has its head here, and takes the place of that of the head
    /// `replaced`. A new node leaves room for its rows: the nodes below it go behind them.
    pub fn note_head(&mut self, head: u32, replaced: Option<u32>, count: u32)
        ensures same { self.new ≡ self.old }
    {
        match replaced {
            Some(before) => self.homes.note(head, before),
            None => self.ahead = head.wrapping_add(count),
        }
    }

    /// Takes this row out of the set if it is there, otherwise another one.
    #[inline(always)]
    pub fn take_near(&mut self, row: u32) -> Option<u32>
        ensures some { IfSome result (λ r. (slice_get self.old r ≡ Some true)
            × (self.new ≡ slice_set self.old r false)) }
        ensures near { IfSome result (λ r. slice_get self.old row ≡ Some true → r ≡ row) }
        ensures none { IfNone result ((count_true self.old ≡ 0) × (self.new ≡ self.old)) }
    {
        if is_set(&self.words, row as usize) {
            let at = self.at;
            Some(self.take_at(row as usize, at))
        } else {
            self.take()
        }
    }

    /// Takes the lowest row of the word of which a row was last taken, or of the next word that has
    /// one. It stands apart so that the compiled code saves no registers for it in front of the
    /// other rows, which are almost all.
    #[inline(never)]
    pub fn take(&mut self) -> Option<u32>
        ensures some { IfSome result (λ r. (slice_get self.old r ≡ Some true)
            × (self.new ≡ slice_set self.old r false)) }
        ensures none { IfNone result ((count_true self.old ≡ 0) × (self.new ≡ self.old)) }
    {
        let row = bit_in_use(&self.words, &self.summary, self.at)?;
        Some(self.take_at(row, row / 64))
    }

    /// Takes this row out of the set. The next search begins at word `at`.
    #[inline(always)]
    fn take_at(&mut self, row: usize, at: usize) -> u32
        requires there { slice_get self.old row ≡ Some true }
        requires at { 64 * at < length self.old }
        ensures same { result ≡ row }
        ensures taken { self.new ≡ slice_set self.old row false }
    {
        take_bit(&mut self.words, &mut self.summary, row);
        self.at = at;
        self.count -= 1;
        row as u32
    }

    /// Puts a row into the set.
    pub fn put(&mut self, row: u32)
        requires out { slice_get self.old row ≡ Some false }
        ensures put { self.new ≡ slice_set self.old row true }
    {
        put_bit(&mut self.words, &mut self.summary, row as usize);
        self.count += 1;
    }
}
