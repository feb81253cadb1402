//! What holds of a place between any two steps, and what each step tells.
ghost use Rattle.mst_slot.specs.Places.{began, filled, took, gave};

use atomic_table::{Play, Split, Table, TableRule};
use std::marker::PhantomData;

/// What a seat knows of the value. Nothing of this type is made.
pub enum Stage<T> {
    /// There is none yet.
    Vacant,
    /// It is just being put in.
    Filling,
    /// It is this one.
    Keeps(T),
}

pub struct OneValue;

impl<T> TableRule<Option<T>, Stage<T>, ()> for OneValue {
    ghost use Rattle.mst_slot.specs.Places.{IsPlace};
    ghost use Rattle.mst_slot.specs.declared.rule.Stage.TheVariants.{Vacant};

    ghost holds = { λ _ s. IsPlace s.words s.homes s.views };

    ghost first = { λ _. Vacant };
}

/// The table of a place.
pub(crate) type Slot<T, A> = Table<Option<T>, Stage<T>, (), OneValue, A>;

/// The word while the value is at home.
pub(crate) const HOME: u64 = 0;

/// The word while it is lent.
pub(crate) const LENT: u64 = 1;

/// The word once it is spent.
pub(crate) const SPENT: u64 = 2;

/// The first seat takes the empty slot.
pub(crate) struct Begin;

impl<T> Play<Option<T>, Stage<T>> for Begin {
    ghost then = { λ _ m _ n. began m n };
}

/// It leaves the value there.
pub(crate) struct Fill;

impl<T> Play<Option<T>, Stage<T>> for Fill {
    ghost then = { λ _ m _ n. filled m n };
}

/// A seat tries to borrow the value.
pub(crate) struct Take;

impl<T> Play<Option<T>, Stage<T>> for Take {
    ghost then = { λ _ m found n. took m found n };
}

/// It gives the slot back.
pub(crate) struct Give;

impl<T> Play<Option<T>, Stage<T>> for Give {
    ghost then = { λ _ m _ n. gave m n };
}

/// Both seats know the value.
pub(crate) struct Both;

impl<T> Split<Stage<T>> for Both {
    ghost left = { λ v. v };

    ghost right = { λ v. v };
}
