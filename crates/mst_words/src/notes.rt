//! How passes learn what others have seen: a look at the whole history, and notes that go from seat
//! to seat. Each call is one load of a word, at any time: the turn may be free or taken.
ghost use Rattle.std.specs.Prelude.{◌≡◌, [], false};
ghost use Rattle.mst_key.specs.History.{IsPrefix};
ghost use Rattle.mst_words.specs.Access.{IsSameSeat};
ghost use Rattle.mst_words.specs.Notes.{note_of, having_heard, SeesAll, SeesTold};

use crate::couriers::Note;
use crate::layout::CURRENT;
use crate::plays::HasDeed;
use crate::seat::PassSeat;
use crate::view::View;
use atomic_table::{Join, Split};
use std::alloc::Allocator;
use std::marker::{Brand, PhantomData};

/// The whole history is seen.
pub struct SeeAll;

impl HasDeed for SeeAll {
    ghost use Rattle.mst_words.specs.Deeds.{seeing_all};

    ghost deed = { seeing_all };
}

/// What a note told is seen.
pub struct SeeTold;

impl HasDeed for SeeTold {
    ghost use Rattle.mst_words.specs.Deeds.{seeing_told};

    ghost deed = { seeing_told };
}

/// A note is written of what a seat has seen.
pub struct WriteNote;

impl Split<View> for WriteNote {
    ghost use Rattle.mst_words.specs.Notes.{note_of};

    ghost left = { λ v. v };

    ghost right = { note_of };
}

/// Which note a seat hears. Each call that hears one picks it.
pub trait Telling {
    ghost use Rattle.mst_words.specs.declared.view.View.{View};

    ghost note: { View };
}

impl Telling for Brand {
    ghost use Rattle.mst_words.specs.Notes.{no_note};

    ghost note = { no_note };
}

/// A note is heard. Nothing of its own seat changes.
pub struct HearNote<J: Telling> {
    note: PhantomData<J>,
}

impl<J: Telling> Join<View> for HearNote<J> {
    ghost use Rattle.mst_words.specs.Notes.{having_heard};

    ghost both = { having_heard };

    ghost spent = { J.note };
}

impl<'a, A: Allocator + Copy> PassSeat<'a, A> {
    /// Sees the whole history: one load of the word of the current record.
    pub fn see_all(&mut self)
        requires off { self.old.me.0.turn ≡ false }
        ensures same { IsSameSeat self.old self.new }
        ensures seen { SeesAll self.old.me self.new.me }
    {
        self.board.load_by::<SeeAll>(&mut self.token, CURRENT);
    }

    /// Sees the history that a note told of, and no more: one load of the word of the current
    /// record. That history has to begin with what the seat has seen.
    pub fn see_told(&mut self)
        requires off { self.old.me.0.turn ≡ false }
        requires forward { IsPrefix self.old.me.0.seen self.old.me.0.told }
        ensures same { IsSameSeat self.old self.new }
        ensures seen { SeesTold self.old.me self.new.me }
    {
        self.board.load_by::<SeeTold>(&mut self.token, CURRENT);
    }

    /// Writes a note of what the seat has seen. It costs one load.
    pub fn write_note(&mut self) -> Note<'a, A>
        ensures kept { self.new ≡ self.old }
        ensures own { result.table ≡ self.old.table }
        ensures note { result.me ≡ (note_of self.old.me.0, []) }
    {
        let board = self.board;
        let token = board.table.shared.split_seat::<WriteNote>(&mut self.token);
        Note {
            seat: PassSeat { board, token },
        }
    }

    /// Hears a note: the seat is told of the history that the note's writer had seen. It costs one
    /// load.
    pub fn hear_note<J: Telling>(&mut self, note: Note<'a, A>)
        requires own { note.table ≡ self.old.table }
        requires named { J.note ≡ note.me.0 }
        requires empty { note.me.1 ≡ [] }
        ensures same { IsSameSeat self.old self.new }
        ensures told { self.new.me ≡ (having_heard self.old.me.0 note.entry.me.0, self.old.me.1) }
    {
        let board = self.board;
        let Note { seat } = note;
        let token = seat.into_token();
        board
            .table
            .shared
            .join_seat::<HearNote<J>>(&mut self.token, token);
    }
}
