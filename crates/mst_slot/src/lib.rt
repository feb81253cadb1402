//! A place on the heap for one value that two hands share: each may borrow the value, one at a
//! time, and give it back as contracts see it, or spend it, after which nobody has it.
//!
//! ```
//! let place = Place::new(alloc)?;                    // all memory is taken here
//! let (mine, yours) = place.fill(value);             // two shares of the value
//! let Ok((lent, value)) = mine.borrow() else { .. }; // one compare-exchange and one exchange
//! let mine = lent.give_back(value);                  // one exchange and one store
//! yours.borrow()                                     // the same value
//! ```
//!
//! What contracts see of a share is the value. It never changes, since what is given back has to be
//! the same to them. So whoever holds a share knows which value it will borrow, whoever has had it
//! in between. [`Shares`] has a share of each value of a list, and takes all of them or none.
//!
//! The place is a table of the kit's `atomic_table` with one word and one slot. The word is 0 while
//! the value is at home, 1 while it is lent, and 2 once it is spent.
#![tactic(auto)]

mod place;
mod places;
mod rule;
mod share;
mod shares;

pub use place::Place;
pub use places::Places;
pub use share::{Lent, Share, Unavailable};
pub use shares::Shares;
