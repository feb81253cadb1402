//! A share of each value of a list.
ghost use Rattle.std.specs.Prelude.{◌≡◌, ◌≤◌, ◌+◌, ◌++◌, true, [], length, vec_len, vec_capacity, IfOk, IfErr};
ghost use Rattle.std.specs.VecDeque.{deque_len, deque_capacity};

use crate::share::{Lent, Share};
use std::alloc::Allocator;
use std::collections::VecDeque;
use std::marker::Model;

/// Contracts see the values.
///
/// What is dropped leaves the values to the other shares of them.
#[derive(Drop)]
pub struct Shares<T, A: Allocator> {
    shares: VecDeque<Share<T, A>, A>,
    // lists with room
    lents: Vec<Lent<T, A>, A>,
    values: Vec<T, A>,
}

impl<T, A: Allocator> Model for Shares<T, A> {
    ghost use Rattle.std.specs.Prelude.{◌≡◌, ◌≤◌, List, [], length, vec_capacity};

    ghost Value = { List T };

    ghost view = { λ s. s.shares.items };

    ghost invariant = { λ s. (s.lents.items ≡ []) × (s.values.items ≡ [])
        × (length s.shares.items ≤ vec_capacity s.lents)
        × (length s.shares.items ≤ vec_capacity s.values) };
}

// Borrows the values, one after the other, up to the first that cannot be borrowed.
fn borrow_all<T: Drop, A: Allocator>(
    shares: &mut VecDeque<Share<T, A>, A>,
    lents: &mut Vec<Lent<T, A>, A>,
    values: &mut Vec<T, A>,
) -> bool
    requires empty { lents.old.items ≡ [] }
    requires none { values.old.items ≡ [] }
    requires fits { deque_len shares.old ≤ vec_capacity lents.old }
    requires room { deque_len shares.old ≤ vec_capacity values.old }
    ensures owed { lents.new.items ≡ values.new.items }
    ensures same { shares.old.items ≡ values.new.items ++ shares.new.items }
    ensures all { result ≡ true → deque_len shares.new ≡ 0 }
    ensures capacity { deque_capacity shares.new ≡ deque_capacity shares.old }
    ensures fits { vec_capacity lents.new ≡ vec_capacity lents.old }
    ensures room { vec_capacity values.new ≡ vec_capacity values.old }
{
    while let Some(share) = shares.pop_front() {
        match share.borrow() {
            Ok((lent, value)) => {
                lents.push_reserved(lent);
                values.push_reserved(value);
            }
            Err((share, _)) => {
                shares.push_front_reserved(share);
                return false;
            }
        }
    }
    true
}

// Gives back what was borrowed.
fn give_all_back<T: Drop, A: Allocator>(
    shares: &mut VecDeque<Share<T, A>, A>,
    lents: &mut Vec<Lent<T, A>, A>,
    values: &mut Vec<T, A>,
)
    requires owed { lents.old.items ≡ values.old.items }
    requires room { deque_len shares.old + vec_len values.old ≤ deque_capacity shares.old }
    ensures same { shares.new.items ≡ values.old.items ++ shares.old.items }
    ensures empty { lents.new.items ≡ [] }
    ensures none { values.new.items ≡ [] }
    ensures fits { vec_capacity lents.new ≡ vec_capacity lents.old }
    ensures room { vec_capacity values.new ≡ vec_capacity values.old }
{
    while let Some(lent) = lents.pop() {
        let Some(value) = values.pop() else {
            unreachable!()
        };
        shares.push_front_reserved(lent.give_back(value));
    }
}

// Nobody can borrow these values any more.
fn spend_all<T: Drop, A: Allocator>(lents: Vec<Lent<T, A>, A>) {
    for lent in lents {
        lent.spend();
    }
}

impl<T: Drop, A: Allocator> Shares<T, A> {
    // Shares of values, with lists that have room for them.
    pub(crate) fn new(
        shares: Vec<Share<T, A>, A>,
        lents: Vec<Lent<T, A>, A>,
        values: Vec<T, A>,
    ) -> Shares<T, A>
        requires empty { lents.items ≡ [] }
        requires none { values.items ≡ [] }
        requires fits { length shares.items ≤ vec_capacity lents }
        requires room { length shares.items ≤ vec_capacity values }
        ensures values { result ≡ shares.items }
    {
        Shares {
            shares: VecDeque::from_vec(shares),
            lents,
            values,
        }
    }

    /// Takes all values for good, in their order, if all are at home. Otherwise nothing has
    /// changed. It takes no memory.
    pub fn take(self) -> Result<Vec<T, A>, Shares<T, A>>
        ensures ok { IfOk result (λ values. values.items ≡ self) }
        ensures err { IfErr result (λ shares. shares ≡ self) }
    {
        let Shares {
            mut shares,
            mut lents,
            mut values,
        } = self;
        if borrow_all(&mut shares, &mut lents, &mut values) {
            spend_all(lents);
            return Ok(values);
        }
        give_all_back(&mut shares, &mut lents, &mut values);
        Err(Shares {
            shares,
            lents,
            values,
        })
    }
}
