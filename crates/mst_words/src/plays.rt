//! What each step tells the seat that makes it: a deed names it, or it is a publication.
use crate::view::View;
use atomic_table::{Play, Split};
use mst_arena::Desk;
use std::alloc::Allocator;
use std::marker::{Brand, PhantomData};

/// A step that is a deed. What it tells its seat, and who may do it, is said of its deed alone.
pub trait HasDeed {
    ghost use Rattle.mst_words.specs.Deeds.{Deed};

    ghost deed: { Deed };
}

/// A step of the deed is made.
pub struct Doing<D: HasDeed> {
    deed: PhantomData<D>,
}

impl<A: Allocator, D: HasDeed> Play<Option<Desk<A>>, View> for Doing<D> {
    ghost use Rattle.mst_words.specs.Deeds.{told_by};

    ghost then = { told_by D.deed };
}

/// The turn is taken, or another pass has it.
pub struct TakeTurn;

impl HasDeed for TakeTurn {
    ghost use Rattle.mst_words.specs.Deeds.{trying};

    ghost deed = { trying };
}

/// The turn is given back.
pub struct GiveTurn;

impl HasDeed for GiveTurn {
    ghost use Rattle.mst_words.specs.Deeds.{giving};

    ghost deed = { giving };
}

/// The current record is pinned.
pub struct Pin;

impl HasDeed for Pin {
    ghost use Rattle.mst_words.specs.Deeds.{pinning};

    ghost deed = { pinning };
}

/// The pin ends, and the history at the pin is seen.
pub struct Unpin;

impl HasDeed for Unpin {
    ghost use Rattle.mst_words.specs.Deeds.{unpinning};

    ghost deed = { unpinning };
}

/// The pin ends, and nothing more is seen.
pub struct Forget;

impl HasDeed for Forget {
    ghost use Rattle.mst_words.specs.Deeds.{forgetting};

    ghost deed = { forgetting };
}

/// A word of a record or a row is loaded.
pub struct Read;

impl HasDeed for Read {
    ghost use Rattle.mst_words.specs.Deeds.{reading};

    ghost deed = { reading };
}

/// A word of a blank row or of a drained record is stored.
pub struct Write;

impl HasDeed for Write {
    ghost use Rattle.mst_words.specs.Deeds.{writing};

    ghost deed = { writing };
}

/// The mask that a publication brought back goes into the old record's word.
pub struct Transfer;

impl HasDeed for Transfer {
    ghost use Rattle.mst_words.specs.Deeds.{transferring};

    ghost deed = { transferring };
}

/// The holder of the turn asks whether somebody pins a record.
pub struct Ask;

impl HasDeed for Ask {
    ghost use Rattle.mst_words.specs.Deeds.{asking};

    ghost deed = { asking };
}

/// The holder of the turn notes the word of the current record.
pub struct NoteCurrent;

impl HasDeed for NoteCurrent {
    ghost use Rattle.mst_words.specs.Deeds.{noting};

    ghost deed = { noting };
}

/// The holder of the turn loads the current record's own word.
pub struct AskCurrent;

impl HasDeed for AskCurrent {
    ghost use Rattle.mst_words.specs.Deeds.{asking_current};

    ghost deed = { asking_current };
}

/// For tests: a word of pins is loaded, and nothing is said of what was found.
pub struct Glance;

impl HasDeed for Glance {
    ghost use Rattle.mst_words.specs.Deeds.{glancing};

    ghost deed = { glancing };
}

/// Which event a publication adds to the history, and what the desk then knows. Each call that
/// publishes picks them.
pub trait Naming {
    ghost use Rattle.mst_key.specs.declared.history.Event.{Event};
    ghost use Rattle.mst_words.specs.declared.view.DeskState.{DeskState};

    ghost event: { Event };

    ghost desk: { DeskState };
}

impl Naming for Brand {
    ghost use Rattle.mst_words.specs.Steps.{no_event};
    ghost use Rattle.mst_words.specs.World.{no_desk};

    ghost event = { no_event };

    ghost desk = { no_desk };
}

/// A drained record becomes the current one, and the history has one event more.
pub struct Publish<J: Naming> {
    event: PhantomData<J>,
}

impl<A: Allocator, J: Naming> Play<Option<Desk<A>>, View> for Publish<J> {
    ghost use Rattle.mst_words.specs.Steps.{publishes};

    ghost then = { publishes J.event J.desk };
}

/// The dealer deals the next pass.
pub struct Deal;

impl Split<View> for Deal {
    ghost use Rattle.mst_words.specs.World.{having_dealt, newcomer};

    ghost left = { having_dealt };

    ghost right = { newcomer };
}
