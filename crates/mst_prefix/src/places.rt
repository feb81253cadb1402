//! Items that are kept for rows.
ghost use Rattle.std.specs.Prelude.{◌≡◌, ◌<◌, suc, [], length, IfOk, IfSome, IfNone, MatchOption, get_or, slice_get, vec_capacity, None, Some};
ghost use Rattle.std.specs.List.{swap};
ghost use Rattle.mst_prefix.specs.Places.{IsPutAt};

use mst_key::Memory;
use std::alloc::Allocator;

/// The most items that can be told apart by a number of 16 bits, of which 0 stands for none.
pub(crate) const MOST_ITEMS: usize = 65_535;

/// Items in a room of their own, at most one for each row. An item stays where it is until another
/// takes its place; which row it is kept for changes at no cost. Both lists have the room that
/// `new` gave them: each call leaves it as it was.
///
/// No call promises that what was put for a row is found there: who asks looks at the item.
#[derive(Drop)]
pub(crate) struct Places<T, A: Allocator> {
    /// For each row the place of its item and one, or 0 for no item. Rows behind its end have none:
    /// it grows within its room, so that the memory of a list that is not used is not touched.
    numbers: Vec<u16, A>,
    pub(crate) items: Vec<T, A>,
    /// The place of the item that goes first when there is no room.
    turn: usize,
}

impl<T: Drop, A: Allocator + Copy> Places<T, A> {
    /// Room for `most` items of this many rows, none of them kept yet. Returns `Memory` if a growth
    /// was refused; no later call takes memory.
    pub(crate) fn new(alloc: A, rows: u32, most: u16) -> Result<Places<T, A>, Memory>
        ensures empty { IfOk result (λ p. p.items.items ≡ []) }
        ensures room { IfOk result (λ p. vec_capacity p.items ≡ most) }
        ensures rows_room { IfOk result (λ p. vec_capacity p.numbers ≡ rows) }
    {
        let numbers = Vec::with_capacity(alloc, rows as usize)?;
        let items = Vec::with_capacity(alloc, most as usize)?;
        Ok(Places {
            numbers,
            items,
            turn: 0,
        })
    }
}

impl<T: Drop, A: Allocator> Places<T, A> {
    /// The place of the item that is kept for a row.
    pub(crate) fn place_of(&self, row: u32) -> Option<usize>
        ensures place { MatchOption result (get_or self.now.numbers.items row 0 ≡ 0)
            (λ place. get_or self.now.numbers.items row 0 ≡ suc place) }
    {
        let number = *self.numbers.get(row as usize)?;
        (number as usize).checked_sub(1)
    }

    /// The item at a place.
    pub(crate) fn at(&self, place: usize) -> Option<&T>
        ensures there { MatchOption result (slice_get self.now.items.items place ≡ None)
            (λ item. slice_get self.now.items.items place ≡ Some item.now) }
    {
        self.items.get(place)
    }

    /// The item of each of two rows becomes that of the other.
    pub(crate) fn swap(&mut self, one: u32, other: u32)
        ensures same { self.new.items ≡ self.old.items }
        ensures swapped { one < length self.old.numbers.items
            → other < length self.old.numbers.items
            → self.new.numbers.items ≡ swap self.old.numbers.items one other }
        ensures rows_room { vec_capacity self.new.numbers ≡ vec_capacity self.old.numbers }
    {
        let (one, other) = (one as usize, other as usize);
        let rows = self.numbers.len();
        if one < rows && other < rows {
            self.numbers.swap(one, other);
        } else if one < rows || other < rows {
            self.swap_behind(one, other);
        }
    }

    /// Swaps as [`Places::swap`] does, where one of the rows lies behind the end of the numbers.
    #[inline(never)]
    fn swap_behind(&mut self, one: usize, other: usize)
        ensures same { self.new.items ≡ self.old.items }
        ensures rows_room { vec_capacity self.new.numbers ≡ vec_capacity self.old.numbers }
    {
        let last = one.max(other);
        self.reach(last);
        if last < self.numbers.len() {
            self.numbers.swap(one, other);
        }
    }

    /// Has the numbers reach this row, if there is room for it.
    fn reach(&mut self, row: usize)
        ensures same { self.new.items ≡ self.old.items }
        ensures rows_room { vec_capacity self.new.numbers ≡ vec_capacity self.old.numbers }
    {
        let end = self.numbers.capacity().min(row.saturating_add(1));
        for _ in self.numbers.len()..end {
            self.numbers.push_reserved(0);
        }
    }

    /// Puts an item where another stands.
    #[inline(always)]
    fn put_at(&mut self, place: usize, item: T)
        requires there { place < length self.old.items.items }
        ensures put { IsPutAt place item self.old.items.items self.new.items.items }
        ensures rows { self.new.numbers ≡ self.old.numbers }
        ensures room { vec_capacity self.new.items ≡ vec_capacity self.old.items }
    {
        self.items[place] = item;
    }

    /// Keeps an item for a row in place of the row's last one, or where there is room, or in place
    /// of another row's. Returns its place; with no room at all it lets the item go.
    #[inline(always)]
    pub(crate) fn put(&mut self, row: u32, item: T) -> Option<usize>
        ensures put { IfSome result
            (λ place. IsPutAt place item self.old.items.items self.new.items.items) }
        ensures none { IfNone result (self.new.items.items ≡ self.old.items.items) }
        ensures room { vec_capacity self.new.items ≡ vec_capacity self.old.items }
        ensures rows_room { vec_capacity self.new.numbers ≡ vec_capacity self.old.numbers }
    {
        match self.place_of(row) {
            Some(place) if place < self.items.len() => {
                self.put_at(place, item);
                Some(place)
            }
            _ => self.put_new(row as usize, item),
        }
    }

    /// Keeps an item for a row where there is room, and otherwise in place of another row's, in
    /// turn: so what was kept for rows that died does not keep out what is new. The other row then
    /// finds an item there that is not its own. Returns its place; with no room at all it lets the
    /// item go.
    fn put_new(&mut self, row: usize, item: T) -> Option<usize>
        ensures put { IfSome result
            (λ place. IsPutAt place item self.old.items.items self.new.items.items) }
        ensures none { IfNone result (self.new.items.items ≡ self.old.items.items) }
        ensures room { vec_capacity self.new.items ≡ vec_capacity self.old.items }
        ensures rows_room { vec_capacity self.new.numbers ≡ vec_capacity self.old.numbers }
    {
        self.reach(row);
        if row >= self.numbers.len() {
            return None;
        }
        let place = self.items.len();
        if place < self.items.capacity() && place < MOST_ITEMS {
            self.numbers[row] = place as u16 + 1;
            self.items.push_reserved(item);
            return Some(place);
        }
        self.put_in_turn(row, item)
    }

    /// Keeps an item for a row in place of another row's: each place takes its turn.
    fn put_in_turn(&mut self, row: usize, item: T) -> Option<usize>
        requires row { row < length self.old.numbers.items }
        ensures put { IfSome result
            (λ place. IsPutAt place item self.old.items.items self.new.items.items) }
        ensures none { IfNone result (self.new.items.items ≡ self.old.items.items) }
        ensures room { vec_capacity self.new.items ≡ vec_capacity self.old.items }
        ensures rows_room { vec_capacity self.new.numbers ≡ vec_capacity self.old.numbers }
    {
        let place = if self.turn < self.items.len() {
            self.turn
        } else {
            0
        };
        if place >= self.items.len() || place >= MOST_ITEMS {
            return None;
        }
        self.turn = place + 1;
        self.numbers[row] = place as u16 + 1;
        self.put_at(place, item);
        Some(place)
    }
}
