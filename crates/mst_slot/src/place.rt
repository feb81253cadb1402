//! A place that has no value yet.
ghost use Rattle.std.specs.Prelude.{◌≡◌, [], IfOk};
ghost use Rattle.std.specs.Arc.{arc_value};
ghost use Rattle.mst_slot.specs.declared.rule.Stage.TheVariants.{Vacant};

use crate::rule::{Begin, Both, Fill, HOME, LENT, Slot, Stage};
use crate::share::Share;
use atomic_table::{Seat, Table};
use std::alloc::{AllocError, Allocator};
use std::snapshot::Snapshot;
use std::sync::Arc;

/// It has all memory that its shares take.
#[derive(Drop)]
pub struct Place<T, A: Allocator> {
    table: Arc<Slot<T, A>, A>,
    other: Arc<Slot<T, A>, A>,
    seat: Seat<Option<T>, Stage<T>>,
    ghost own: { seat.table_id ≡ (arc_value table).shared.table_id },
    ghost same: { arc_value other ≡ arc_value table },
    ghost words: { seat.table_id.words ≡ 1 },
    ghost slots: { seat.table_id.slots ≡ 1 },
    ghost vacant: { seat.me ≡ (Vacant, []) },
}

impl<T: Drop, A: Allocator + Copy> Place<T, A> {
    /// Takes the memory for a value and its two shares.
    pub fn new(alloc: A) -> Result<Place<T, A>, AllocError> {
        let (table, seat) = Table::vacant(alloc, &[LENT], 1, &())?;
        let table = Arc::new(alloc, table)?;
        let other = Arc::try_clone(&table)?;
        Ok(Place { table, other, seat })
    }

    /// Puts the value in, and returns its two shares. It takes no memory.
    pub fn fill(self, value: T) -> (Share<T, A>, Share<T, A>)
        ensures first { result.0 ≡ value }
        ensures second { result.1 ≡ value }
    {
        let Place {
            table,
            other,
            mut seat,
        } = self;
        let noted = Snapshot::of(&value);
        let again = Snapshot::of(&value);
        let slot = &table.shared;
        slot.store::<Begin>(&mut seat, 0, LENT);
        let None = slot.exchange(&mut seat, 0, Some(value)) else {
            unreachable!()
        };
        slot.store::<Fill>(&mut seat, 0, HOME);
        let second = slot.split_seat::<Both>(&mut seat);
        (
            Share::new(table, seat, noted),
            Share::new(other, second, again),
        )
    }
}
