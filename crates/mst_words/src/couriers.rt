//! Notes of what seats have seen, and couriers that carry them. Each is a seat at the table that is
//! no pass, and none of their calls returns anything of a shared word: so nobody can wait by one.
ghost use Rattle.std.specs.Prelude.{◌≡◌, [], false};
ghost use Rattle.mst_words.specs.Access.{IsSameSeat};
ghost use Rattle.mst_words.specs.Notes.{SeesAll, note_of, having_heard};

use crate::notes::Telling;
use crate::seat::PassSeat;
use std::alloc::Allocator;
use std::marker::Model;

/// A note of what a seat has seen. Another seat or a courier of the same table may hear it, or it
/// is sent on as a courier.
#[derive(Drop)]
pub struct Note<'a, A: Allocator + Copy> {
    pub(crate) seat: PassSeat<'a, A>,
}

/// Contracts see its table, its place there, and what its writer had seen.
impl<'a, A: Allocator + Copy> Model for Note<'a, A> {
    ghost use Rattle.mst_words.specs.Access.{Seated};

    ghost Value = { Seated };

    ghost view = { λ n. n.seat };
}

/// A courier: it hears what seats have seen, looks, and writes notes of what it has seen.
#[derive(Drop)]
pub struct Courier<'a, A: Allocator + Copy> {
    seat: PassSeat<'a, A>,
}

/// Contracts see its table, its place there, and what it has heard and seen.
impl<'a, A: Allocator + Copy> Model for Courier<'a, A> {
    ghost use Rattle.mst_words.specs.Access.{Seated};

    ghost Value = { Seated };

    ghost view = { λ c. c.seat };
}

impl<'a, A: Allocator + Copy> Note<'a, A> {
    /// A courier that has seen what the note's writer had seen.
    pub fn into_courier(self) -> Courier<'a, A>
        ensures same { result ≡ self.entry }
    {
        let Note { seat } = self;
        Courier { seat }
    }
}

impl<'a, A: Allocator + Copy> Courier<'a, A> {
    /// Sees the whole history: one load of the word of the current record.
    pub fn see_all(&mut self)
        requires off { self.old.me.0.turn ≡ false }
        ensures same { IsSameSeat self.old self.new }
        ensures seen { SeesAll self.old.me self.new.me }
    {
        self.seat.see_all()
    }

    /// Writes a note of what the courier has seen. It costs one load.
    pub fn write_note(&mut self) -> Note<'a, A>
        ensures kept { self.new ≡ self.old }
        ensures own { result.table ≡ self.old.table }
        ensures note { result.me ≡ (note_of self.old.me.0, []) }
    {
        self.seat.write_note()
    }

    /// Hears a note: the courier is told of the history that the note's writer had seen. It costs
    /// one load.
    pub fn hear_note<J: Telling>(&mut self, note: Note<'a, A>)
        requires own { note.table ≡ self.old.table }
        requires named { J.note ≡ note.me.0 }
        requires empty { note.me.1 ≡ [] }
        ensures same { IsSameSeat self.old self.new }
        ensures told { self.new.me ≡ (having_heard self.old.me.0 note.entry.me.0, self.old.me.1) }
    {
        self.seat.hear_note::<J>(note)
    }
}
