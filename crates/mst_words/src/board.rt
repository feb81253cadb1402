//! The table, and how it is opened.
ghost use Rattle.std.specs.Prelude.{◌≡◌, ◌∷◌, ◌<◌, ◌≤◌, [], IfOk, Some};
ghost use Rattle.mst_words.specs.Stored.{fresh_desk};
ghost use Rattle.mst_arena.specs.Limits.{most_rows};
ghost use Rattle.mst_words.specs.Layout.{most_passes, table_words};
ghost use Rattle.mst_words.specs.World.{dealer};

use crate::rule::Rule;
use crate::view::{Shape, View};
use crate::words::first_words;
use atomic_table::{Seat, Table};
use mst_arena::Desk;
use mst_key::Memory;
use std::alloc::{AllocError, Allocator};
use std::marker::Model;

/// The token of a seat at one table: it has no bytes, and carries what the seat knows. The dealer's
/// is one.
pub type Token<A> = Seat<Option<Desk<A>>, View>;

/// The table: the words of the turn, of pins, records and rows, and the slot in which the desk
/// lies.
#[derive(Drop)]
pub struct Board<A: Allocator + Copy> {
    pub(crate) table: Table<Option<Desk<A>>, View, Shape, Rule<A>, A>,
    /// How many rows it has.
    pub(crate) rows: u32,
}

impl<A: Allocator + Copy> Model for Board<A> {
    ghost use Rattle.atomic_table.specs.Seated.{TableId, table_id_coded};
    ghost use Rattle.mst_words.specs.Access.{IsSized};

    ghost Value = { TableId };

    ghost coded = { table_id_coded };

    ghost view = { λ b. b.table.shared.table_id };

    ghost invariant = { λ b. IsSized b.table.shared.table_id b.rows };
}

/// The slot, with the desk.
fn one_slot<A: Allocator>(alloc: A, desk: Desk<A>) -> Result<Vec<Option<Desk<A>>, A>, Memory>
    ensures ok { IfOk result (λ v. v.items ≡ Some desk ∷ []) }
{
    let mut slots = Vec::with_capacity(alloc, 1)?;
    slots.push_reserved(Some(desk));
    Ok(slots)
}

impl<A: Allocator + Copy> Board<A> {
    /// A table with an empty history, and the dealer's seat. Returns `Memory` if a growth was
    /// refused.
    pub fn open(alloc: A, shape: Shape, desk: Desk<A>) -> Result<(Board<A>, Token<A>), Memory>
        requires some_rows { 0 < shape.rows }
        requires few_rows { shape.rows ≤ most_rows }
        requires some_passes { 0 < shape.passes }
        requires few_passes { shape.passes ≤ most_passes }
        requires fresh { desk ≡ fresh_desk shape.rows shape.passes }
        ensures ok { IfOk result (λ r. (r.1.table_id ≡ r.0) × (r.0.words ≡ table_words shape.rows)
            × (r.1.me ≡ (dealer shape.rows shape.passes shape.format 1, []))) }
    {
        let words = first_words(alloc, shape)?;
        let slots = one_slot(alloc, desk)?;
        let Ok((table, seat)) = Table::new(alloc, &words, slots, &shape) else {
            // the table's refusal says no more than that there was no memory
            return Err(Memory::from(AllocError));
        };
        Ok((
            Board {
                table,
                rows: shape.rows,
            },
            seat,
        ))
    }
}
