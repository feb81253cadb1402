//! What C holds: a pointer to a box, or null. And the only ways to take the box out, to put one in,
//! and to let one go.
//!
//! Neither a hand nor what was taken out of one may be dropped, so a body that forgets either does
//! not compile.
ghost use Rattle.std.specs.Prelude.{◌≡◌, Option, Some, None};
ghost use Rattle.std.specs.Option.{MatchOption};
ghost use Rattle.mst_c.specs.Owning.{HeldNow, hand_coded};
ghost use Rattle.mst_c.specs.States.{PinsNone};

use crate::pass_box::PassBox;
use crate::raw_box::RawBox;
use std::alloc::Global;
use std::marker::Model;
use std::mem::replace;
use std::ptr::null_mut;

/// A hand. It is no `Drop`, since a derived one would forget the box.
#[repr(C)]
pub struct Hand {
    ptr: *mut u8,
    alloc: Global,
    pub ghost held: { HeldNow } by { hand_coded },
}

/// A hand as C has it. Calls write to their hand; so that threads with hands side by side write to
/// cache lines of their own, of which some processors fetch two at a time, it has 256 bytes. A call
/// with one hand gets the place of its first field alone.
#[repr(C)]
pub struct PaddedHand {
    pub(crate) hand: Hand,
    padding: [u64; 31],
}

impl Model for Hand {
    ghost use Rattle.mst_c.specs.Owning.{hand_owns};

    ghost also_owns = { λ s. hand_owns s.alloc s.ptr s.held };
}

// It may go to another thread, as its box may.
unsafe impl Send for Hand {}

impl Hand {
    fn empty(alloc: Global) -> Hand
        ensures { result.held ≡ None }
    {
        Hand {
            ptr: null_mut(),
            alloc,
        }
    }

    fn of_parts(parts: RawBox<PassBox, Global>) -> Hand
        ensures { result.held ≡ Some parts.value }
    {
        let RawBox { ptr, alloc } = parts;
        Hand {
            ptr: ptr as *mut u8,
            alloc,
        }
    }

    fn into_parts(self) -> Option<RawBox<PassBox, Global>>
        ensures { MatchOption result (self.held ≡ None) (λ p. self.held ≡ Some p.value) }
    {
        let Hand { ptr, alloc } = self;
        if ptr.is_null() {
            None
        } else {
            Some(RawBox {
                ptr: ptr as *mut PassBox,
                alloc,
            })
        }
    }

    fn of_box(held: Box<PassBox, Global>) -> Hand
        ensures { result.held ≡ Some held.value }
    {
        Hand::of_parts(RawBox::of(held))
    }

    fn into_box(self) -> Option<Box<PassBox, Global>>
        ensures { MatchOption result (self.held ≡ None) (λ b. self.held ≡ Some b.value) }
    {
        match self.into_parts() {
            Some(parts) => Some(parts.into_box()),
            None => None,
        }
    }
}

/// What is owed to a pass that was taken out of a hand: it goes back into one, or is let go.
struct Due;

/// A pass that was taken out of a hand. It is no `Drop`, and only this module takes it apart.
pub(crate) struct Taken {
    pub(crate) held: Box<PassBox, Global>,
    due: Due,
}

impl Taken {
    pub(crate) fn of(held: Box<PassBox, Global>) -> Taken
        ensures { result.held.value ≡ held.value }
    {
        Taken { held, due: Due }
    }

    fn into_box(self) -> Box<PassBox, Global>
        ensures { result.value ≡ self.held.value }
    {
        let Taken { held, due } = self;
        let Due = due;
        held
    }

    /// Lets the pass go, with its share of the store. A pin would last as long as the store, so it
    /// has to have ended.
    pub(crate) fn let_go(self)
        requires free { PinsNone self.held.value }
    {
        let _gone = self.into_box();
    }
}

/// What the hand holds. The hand is then empty.
pub(crate) fn take(alloc: Global, hand: &mut Hand) -> Option<Taken>
    ensures empty { hand.new.held ≡ None }
    ensures taken { MatchOption result (hand.old.held ≡ None)
        (λ t. hand.old.held ≡ Some t.held.value) }
{
    match replace(hand, Hand::empty(alloc)).into_box() {
        Some(held) => Some(Taken::of(held)),
        None => None,
    }
}

/// Lets an empty hand hold this.
pub(crate) fn give(hand: &mut Hand, taken: Taken)
    requires empty { hand.old.held ≡ None }
    ensures held { hand.new.held ≡ Some taken.held.value }
{
    match replace(hand, Hand::of_box(taken.into_box())).into_box() {
        Some(_) => unreachable!(),
        None => {}
    }
}
