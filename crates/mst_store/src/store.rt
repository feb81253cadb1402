//! A store, and the dealing of its passes.
ghost use Rattle.std.specs.Prelude.{◌≡◌, ◌↔◌, true, length, IfOk, IfErr, OnOk, IsErrOf};
ghost use Rattle.mst_store.specs.Passes.{IsShape, HasShape, new_passes};

use crate::faults::OpenFault;
use crate::pass::Pass;
use mst_arena::{Desk, MOST_ROWS};
use mst_key::Memory;
use mst_versions::PassParameters;
use mst_words::layout::MOST_PASSES;
use mst_words::{Board, Shape, Token};
use std::alloc::Allocator;
use std::marker::Model;

/// A store. Its passes share it through a reference.
#[derive(Drop)]
pub struct Store<A: Allocator + Copy> {
    pub(crate) board: Board<A>,
    shape: Shape,
}

/// Contracts see which store it is, and its size.
impl<A: Allocator + Copy> Model for Store<A> {
    ghost use Rattle.std.specs.Prelude.{◌≡◌};
    ghost use Rattle.mst_words.specs.Layout.{table_words};
    ghost use Rattle.mst_store.specs.Passes.{StoreId, IsShape};

    ghost Value = { StoreId };

    ghost view = { λ s. record {
      table = s.board;
      rows = s.shape.rows;
      passes = s.shape.passes;
      format = s.shape.format;
    } };

    ghost invariant = { λ s. IsShape s.shape × (s.board.words ≡ table_words s.shape.rows) };
}

/// The right to deal the passes of one store, once.
#[derive(Drop)]
pub struct Seats<A: Allocator + Copy> {
    token: Token<A>,
}

/// Contracts see which store it is of.
impl<A: Allocator + Copy> Model for Seats<A> {
    ghost use Rattle.std.specs.Prelude.{◌≡◌, []};
    ghost use Rattle.mst_words.specs.World.{dealer};
    ghost use Rattle.mst_store.specs.Passes.{StoreId};

    ghost Value = { StoreId };

    ghost view = { λ s. record {
      table = s.token.table_id;
      rows = s.token.me.0.rows;
      passes = s.token.me.0.passes;
      format = s.token.me.0.format;
    } };

    ghost invariant = { λ s. s.token.me
        ≡ (dealer s.token.me.0.rows s.token.me.0.passes s.token.me.0.format 1, []) };
}

/// Whether a store can have this size: 4 to 65,535 rows and 1 to 32 passes.
pub fn is_shape(shape: Shape) -> bool
    ensures { result ≡ true ↔ IsShape shape }
{
    (4..=MOST_ROWS).contains(&shape.rows) && (1..=MOST_PASSES).contains(&shape.passes)
}

impl<A: Allocator + Copy> Store<A> {
    /// Opens a store of the empty map in the shape's format. Returns it with the right to deal its
    /// passes. All memory of the store is taken here.
    ///
    /// Returns `Shape` exactly if the size is out of its limits, 4 to 65,535 rows and 1 to 32
    /// passes; otherwise `Memory` if a growth was refused.
    pub fn open(alloc: A, shape: Shape) -> Result<(Store<A>, Seats<A>), OpenFault>
        ensures shape { IsErrOf result OpenFault.Shape ↔ ¬ (IsShape shape) }
        ensures limits { OnOk result (IsShape shape) }
        ensures store { IfOk result (λ opened. HasShape shape opened.0) }
        ensures seats { IfOk result (λ opened. opened.1 ≡ opened.0) }
    {
        if !is_shape(shape) {
            return Err(OpenFault::Shape);
        }
        // one record for each pass and two more, so that a record is always free for the next
        // version
        let desk = match Desk::new(alloc, shape.rows, shape.passes + 2, 0) {
            Ok(desk) => desk,
            Err(refused) => return Err(OpenFault::Memory(refused)),
        };
        match Board::open(alloc, shape, desk) {
            Ok((board, token)) => Ok((Store { board, shape }, Seats { token })),
            Err(refused) => Err(OpenFault::Memory(refused)),
        }
    }

    /// Returns how many passes the store has, 1 to 32.
    pub fn passes(&self) -> u32
        ensures passes { result ≡ self.now.passes }
    {
        self.shape.passes
    }

    /// Returns the passes of the store, in the order of their numbers from 1. None of them has seen
    /// or done anything.
    ///
    /// The seats must be those that were opened with this store. Returns `Memory` if the growth was
    /// refused, and gives the seats back.
    pub fn deal<B: Allocator>(
        &self,
        alloc: B,
        seats: Seats<A>,
    ) -> Result<Vec<Pass<'_, A>, B>, (Memory, Seats<A>)>
        requires own { seats ≡ self.now }
        ensures ok { IfOk result (λ passes. passes.items ≡ new_passes self.now) }
        ensures count { IfOk result (λ passes. length passes.items ≡ self.now.passes) }
        ensures err { IfErr result (λ refused. refused.1 ≡ seats) }
    {
        let count = self.passes();
        let mut passes = match Vec::with_capacity(alloc, count as usize) {
            Ok(passes) => passes,
            Err(refused) => return Err((Memory::from(refused), seats)),
        };
        let Seats { mut token } = seats;
        for index in 0..count {
            let seat = self.board.deal(&mut token);
            passes.push_reserved(Pass {
                seat,
                parameters: PassParameters {
                    number: index + 1,
                    passes: count,
                    rows: self.shape.rows,
                },
                made: None,
            });
        }
        Ok(passes)
    }
}
