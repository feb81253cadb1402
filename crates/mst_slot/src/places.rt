//! Places for the values of a list.
ghost use Rattle.std.specs.Prelude.{◌≡◌, ◌≤◌, [], length, vec_len, vec_capacity, IfOk};

use crate::place::Place;
use crate::share::{Lent, Share};
use crate::shares::Shares;
use std::alloc::{AllocError, Allocator};
use std::collections::VecDeque;
use std::marker::Model;

/// They have all memory that the shares of the values take. Contracts see how many there are.
#[derive(Drop)]
pub struct Places<T, A: Allocator> {
    places: Vec<Place<T, A>, A>,
    // lists with room
    mine: Vec<Share<T, A>, A>,
    yours: Vec<Share<T, A>, A>,
    lents: Vec<Lent<T, A>, A>,
}

impl<T, A: Allocator> Model for Places<T, A> {
    ghost use Rattle.std.specs.Prelude.{◌≡◌, ◌≤◌, ℕ, [], length, vec_capacity};

    ghost Value = { ℕ };

    ghost view = { λ p. length p.places.items };

    ghost invariant = { λ p. (p.mine.items ≡ []) × (p.yours.items ≡ []) × (p.lents.items ≡ [])
        × (length p.places.items ≤ vec_capacity p.mine)
        × (length p.places.items ≤ vec_capacity p.yours)
        × (length p.places.items ≤ vec_capacity p.lents) };
}

// So many places.
fn places_of<T: Drop, A: Allocator + Copy>(
    alloc: A,
    count: usize,
) -> Result<Vec<Place<T, A>, A>, AllocError>
    ensures count { IfOk result (λ places. vec_len places ≡ count) }
{
    let mut places = Vec::with_capacity(alloc, count)?;
    for _place in 0..count {
        let place = Place::new(alloc)?;
        places.push_reserved(place);
    }
    Ok(places)
}

impl<T: Drop, A: Allocator + Copy> Places<T, A> {
    /// Takes the memory for so many values and the two shares of each.
    pub fn new(alloc: A, count: usize) -> Result<Places<T, A>, AllocError>
        ensures count { IfOk result (λ places. places ≡ count) }
    {
        let places = places_of(alloc, count)?;
        let mine = Vec::with_capacity(alloc, count)?;
        let yours = Vec::with_capacity(alloc, count)?;
        let lents = Vec::with_capacity(alloc, count)?;
        Ok(Places {
            places,
            mine,
            yours,
            lents,
        })
    }

    /// Puts the values in, and returns two shares of each, in their order. It takes no memory.
    pub fn fill(self, values: Vec<T, A>) -> (Shares<T, A>, Vec<Share<T, A>, A>)
        requires count { vec_len values ≡ self }
        ensures mine { result.0 ≡ values.items }
        ensures yours { result.1.items ≡ values.items }
    {
        let Places {
            places,
            mut mine,
            mut yours,
            lents,
        } = self;
        let mut empty = VecDeque::from_vec(places);
        let mut left = VecDeque::from_vec(values);
        while let Some(value) = left.pop_front() {
            let Some(place) = empty.pop_front() else {
                unreachable!()
            };
            let (first, second) = place.fill(value);
            mine.push_reserved(first);
            yours.push_reserved(second);
        }
        (Shares::new(mine, lents, left.into_vec()), yours)
    }
}
