//! A share of a value, and what is owed while the value is lent.
ghost use Rattle.std.specs.Prelude.{◌≡◌, [], ◌∷◌, Some, None, IfOk, IfErr};
ghost use Rattle.std.specs.Arc.{arc_value};
ghost use Rattle.mst_slot.specs.declared.rule.Stage.TheVariants.{Keeps};

use crate::rule::{Give, HOME, LENT, SPENT, Slot, Stage, Take};
use atomic_table::Seat;
use std::alloc::Allocator;
use std::marker::Model;
use std::snapshot::Snapshot;
use std::sync::Arc;

/// Why a value cannot be borrowed.
#[derive(Drop)]
pub enum Unavailable {
    /// The other share has borrowed it.
    Lent,
    /// It was taken for good.
    Spent,
}

/// The table of a place, and a seat there.
#[derive(Drop)]
pub(crate) struct Seated<T, A: Allocator> {
    table: Arc<Slot<T, A>, A>,
    seat: Seat<Option<T>, Stage<T>>,
}

/// One of two shares of a value. Contracts see the value.
///
/// One that is dropped leaves the value to the other.
#[derive(Drop)]
pub struct Share<T, A: Allocator> {
    at: Seated<T, A>,
    value: Snapshot<T>,
}

impl<T, A: Allocator> Model for Share<T, A> {
    ghost use Rattle.std.specs.Prelude.{◌≡◌, []};
    ghost use Rattle.std.specs.Arc.{arc_value};
    ghost use Rattle.mst_slot.specs.declared.rule.Stage.TheVariants.{Keeps};

    ghost Value = { T };

    ghost view = { λ s. s.value.value };

    ghost invariant = { λ s. (s.at.seat.table_id ≡ (arc_value s.at.table).shared.table_id)
        × (s.at.seat.table_id.words ≡ 1) × (s.at.seat.table_id.slots ≡ 1)
        × (s.at.seat.me ≡ (Keeps s.value.value, [])) };
}

/// What is owed while a value is lent. Contracts see the value.
///
/// If it is dropped, the value counts as lent for good.
#[derive(Drop)]
pub struct Lent<T, A: Allocator> {
    at: Seated<T, A>,
    value: Snapshot<T>,
}

impl<T, A: Allocator> Model for Lent<T, A> {
    ghost use Rattle.std.specs.Prelude.{◌≡◌, [], ◌∷◌, None};
    ghost use Rattle.std.specs.Arc.{arc_value};
    ghost use Rattle.mst_slot.specs.declared.rule.Stage.TheVariants.{Keeps};

    ghost Value = { T };

    ghost view = { λ s. s.value.value };

    ghost invariant = { λ s. (s.at.seat.table_id ≡ (arc_value s.at.table).shared.table_id)
        × (s.at.seat.table_id.words ≡ 1) × (s.at.seat.table_id.slots ≡ 1)
        × (s.at.seat.me ≡ (Keeps s.value.value, (0, None) ∷ [])) };
}

// Why the value cannot be borrowed, by what was found in the word.
fn reason(found: u64) -> Unavailable {
    if found == LENT {
        Unavailable::Lent
    } else {
        Unavailable::Spent
    }
}

impl<T: Drop, A: Allocator> Share<T, A> {
    // A share of a value that a seat knows.
    pub(crate) fn new(
        table: Arc<Slot<T, A>, A>,
        seat: Seat<Option<T>, Stage<T>>,
        value: Snapshot<T>,
    ) -> Share<T, A>
        requires own { seat.table_id ≡ (arc_value table).shared.table_id }
        requires words { seat.table_id.words ≡ 1 }
        requires slots { seat.table_id.slots ≡ 1 }
        requires knows { seat.me ≡ (Keeps value.value, []) }
        ensures value { result ≡ value.value }
    {
        Share {
            at: Seated { table, seat },
            value,
        }
    }

    /// The value, if it is at home: one compare-exchange. It has to be given back.
    pub fn borrow(self) -> Result<(Lent<T, A>, T), (Share<T, A>, Unavailable)>
        ensures owed { IfOk result (λ lent. lent.0 ≡ self) }
        ensures value { IfOk result (λ lent. lent.1 ≡ self) }
        ensures same { IfErr result (λ refused. refused.0 ≡ self) }
    {
        let Share { at, value } = self;
        let Seated { table, mut seat } = at;
        let slot = &table.shared;
        let found = slot.compare_exchange::<Take>(&mut seat, 0, HOME, LENT);
        if found != HOME {
            return Err((Share::new(table, seat, value), reason(found)));
        }
        let Some(lent) = slot.exchange(&mut seat, 0, None) else {
            unreachable!()
        };
        let at = Seated { table, seat };
        Ok((Lent { at, value }, lent))
    }
}

impl<T: Drop, A: Allocator> Lent<T, A> {
    /// Gives the value back: to contracts it is the one that was borrowed.
    pub fn give_back(self, value: T) -> Share<T, A>
        requires same { value ≡ self }
        ensures value { result ≡ self }
    {
        let Lent { at, value: noted } = self;
        let Seated { table, mut seat } = at;
        let slot = &table.shared;
        let None = slot.exchange(&mut seat, 0, Some(value)) else {
            unreachable!()
        };
        slot.store::<Give>(&mut seat, 0, HOME);
        Share::new(table, seat, noted)
    }

    /// Keeps the value for good: nobody can borrow it any more.
    pub fn spend(self) {
        let Lent { at, value: _noted } = self;
        let Seated { table, mut seat } = at;
        table.shared.store::<Give>(&mut seat, 0, SPENT);
    }
}
