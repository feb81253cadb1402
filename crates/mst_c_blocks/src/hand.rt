//! What C holds of a sharded map: a pointer to a box, or null. And the only ways to take the box
//! out, to put one in, and to let one go. As `hand.rt` of `mst_c` has them for a pass.
ghost use Rattle.std.specs.Prelude.{◌≡◌, Option, Some, None};
ghost use Rattle.std.specs.Option.{MatchOption};
ghost use Rattle.mst_c_blocks.specs.Owning.{HeldNow, hand_coded};
ghost use Rattle.mst_c_blocks.specs.States.{PinsNone};

use crate::role_box::RoleBox;
use mst_c::raw_box::RawBox;
use std::alloc::Global;
use std::marker::Model;
use std::mem::replace;
use std::ptr::null_mut;

/// A hand of a sharded map. It is no `Drop`, since a derived one would forget the box.
#[repr(C)]
pub struct BlocksHand {
    ptr: *mut u8,
    alloc: Global,
    pub ghost held: { HeldNow } by { hand_coded },
}

/// The same as C has it, of 256 bytes as the hand of a pass.
#[repr(C)]
pub struct PaddedBlocksHand {
    pub(crate) hand: BlocksHand,
    padding: [u64; 31],
}

impl Model for BlocksHand {
    ghost use Rattle.mst_c_blocks.specs.Owning.{hand_owns};

    ghost also_owns = { λ s. hand_owns s.alloc s.ptr s.held };
}

// It may go to another thread, as its box may.
unsafe impl Send for BlocksHand {}

impl BlocksHand {
    fn empty(alloc: Global) -> BlocksHand
        ensures { result.held ≡ None }
    {
        BlocksHand {
            ptr: null_mut(),
            alloc,
        }
    }

    fn of_parts(parts: RawBox<RoleBox, Global>) -> BlocksHand
        ensures { result.held ≡ Some parts.value }
    {
        let RawBox { ptr, alloc } = parts;
        BlocksHand {
            ptr: ptr as *mut u8,
            alloc,
        }
    }

    fn into_parts(self) -> Option<RawBox<RoleBox, Global>>
        ensures { MatchOption result (self.held ≡ None) (λ p. self.held ≡ Some p.value) }
    {
        let BlocksHand { ptr, alloc } = self;
        if ptr.is_null() {
            None
        } else {
            Some(RawBox {
                ptr: ptr as *mut RoleBox,
                alloc,
            })
        }
    }

    fn of_box(held: Box<RoleBox, Global>) -> BlocksHand
        ensures { result.held ≡ Some held.value }
    {
        BlocksHand::of_parts(RawBox::of(held))
    }

    fn into_box(self) -> Option<Box<RoleBox, Global>>
        ensures { MatchOption result (self.held ≡ None) (λ b. self.held ≡ Some b.value) }
    {
        match self.into_parts() {
            Some(parts) => Some(parts.into_box()),
            None => None,
        }
    }
}

/// What is owed to what was taken out of a hand: it goes back into one, or is let go.
struct Due;

/// What was taken out of a hand. It is no `Drop`, and only this module takes it apart.
pub(crate) struct BlocksTaken {
    pub(crate) held: Box<RoleBox, Global>,
    due: Due,
}

impl BlocksTaken {
    pub(crate) fn of(held: Box<RoleBox, Global>) -> BlocksTaken
        ensures { result.held.value ≡ held.value }
    {
        BlocksTaken { held, due: Due }
    }

    fn into_box(self) -> Box<RoleBox, Global>
        ensures { result.value ≡ self.held.value }
    {
        let BlocksTaken { held, due } = self;
        let Due = due;
        held
    }

    /// Lets it go, with its share of the map. The pins of a snapshot would last as long as the map,
    /// so they have to have ended.
    pub(crate) fn let_go(self)
        requires free { PinsNone self.held.value }
    {
        let _gone = self.into_box();
    }
}

/// What the hand holds. The hand is then empty.
pub(crate) fn take(alloc: Global, hand: &mut BlocksHand) -> Option<BlocksTaken>
    ensures empty { hand.new.held ≡ None }
    ensures taken { MatchOption result (hand.old.held ≡ None)
        (λ t. hand.old.held ≡ Some t.held.value) }
{
    match replace(hand, BlocksHand::empty(alloc)).into_box() {
        Some(held) => Some(BlocksTaken::of(held)),
        None => None,
    }
}

/// Lets an empty hand hold this.
pub(crate) fn give(hand: &mut BlocksHand, taken: BlocksTaken)
    requires empty { hand.old.held ≡ None }
    ensures held { hand.new.held ≡ Some taken.held.value }
{
    match replace(hand, BlocksHand::of_box(taken.into_box())).into_box() {
        Some(_) => unreachable!(),
        None => {}
    }
}
