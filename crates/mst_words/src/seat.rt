//! A pass's seat at the table, and its steps of the turn.
ghost use Rattle.std.specs.Prelude.{◌≡◌, ◌∷◌, ◌<◌, [], true, false, Option, Some, None};
ghost use Rattle.mst_arena.specs.Lives.{State};
ghost use Rattle.mst_words.specs.Access.{IsSameSeat};
ghost use Rattle.mst_words.specs.Layout.{table_words};
ghost use Rattle.mst_words.specs.Steps.{IsDealer, IsFree, IsGiving, Takes, Misses, Gives};
ghost use Rattle.mst_words.specs.Stored.{stored};
ghost use Rattle.mst_words.specs.World.{having_dealt, newcomer};
ghost use Rattle.mst_words.specs.declared.view.DeskState.{DeskState};

use crate::board::{Board, Token};
use crate::layout::TURN;
use crate::plays::{Deal, GiveTurn, TakeTurn};
use mst_arena::Desk;
use std::alloc::Allocator;
use std::marker::Model;

/// The place of the one slot.
const SLOT: usize = 0;

/// A pass's seat at the table. It may go to another thread, and each of its steps is one thread's.
///
/// It is the pass's access to the rows too (`mst_arena::Rows`): a pinned pass may read the rows
/// that stand for its version; the holder of the turn may read every row, and write those that no
/// version reaches but of records that it found drained.
#[derive(Drop)]
pub struct PassSeat<'a, A: Allocator + Copy> {
    pub(crate) board: &'a Board<A>,
    pub(crate) token: Token<A>,
}

/// Contracts see its table, its place there, and what the pass knows and holds of the slot.
impl<'a, A: Allocator + Copy> Model for PassSeat<'a, A> {
    ghost use Rattle.mst_words.specs.Access.{IsAt, Seated};

    ghost Value = { Seated };

    ghost view = { λ s. record { table = s.token.table_id; id = s.token.id; me = s.token.me } };

    ghost invariant = { λ s. IsAt s.board.now s.token.table_id s.token.me.0.rows };
}

impl<A: Allocator + Copy> Board<A> {
    /// A seat for the next pass, by the dealer's token. It costs one load.
    pub fn deal<'a>(&'a self, dealer: &mut Token<A>) -> PassSeat<'a, A>
        requires own { dealer.old.table_id ≡ self.now }
        requires wide { self.now.words ≡ table_words dealer.old.me.0.rows }
        requires dealer { IsDealer dealer.old.me }
        ensures same { dealer.new.table_id ≡ dealer.old.table_id }
        ensures dealer { dealer.new.me ≡ (having_dealt dealer.old.me.0, []) }
        ensures own { result.table ≡ dealer.old.table_id }
        ensures dealt { result.me ≡ (newcomer dealer.old.me.0, []) }
    {
        let token = self.table.shared.split_seat::<Deal>(dealer);
        PassSeat { board: self, token }
    }

    /// The seat of a pass whose token this is.
    pub fn seat<'a>(&'a self, token: Token<A>) -> PassSeat<'a, A>
        requires own { token.table_id ≡ self.now }
        requires wide { self.now.words ≡ table_words token.me.0.rows }
        requires pass { 0 < token.me.0.number }
        ensures same { result ≡ record { table = token.table_id; id = token.id; me = token.me } }
    {
        PassSeat { board: self, token }
    }
}

impl<'a, A: Allocator + Copy> PassSeat<'a, A> {
    /// The token of the seat, apart from the board. [`Board::seat`] makes the seat of it again.
    pub fn into_token(self) -> Token<A>
        ensures same { self.entry
            ≡ record { table = result.table_id; id = result.id; me = result.me } }
        ensures wide { self.entry.table.words ≡ table_words self.entry.me.0.rows }
    {
        let PassSeat { board: _, token } = self;
        token
    }
}

impl<'a, A: Allocator + Copy> PassSeat<'a, A> {
    /// Takes the turn: one compare-exchange of its word from 0 to the pass's number. Returns true
    /// if the turn is then the pass's.
    pub fn take_turn(&mut self, number: u32) -> bool
        requires free { IsFree number self.old.me }
        ensures same { IsSameSeat self.old self.new }
        ensures taken { result ≡ true
            → Takes (stored self.old.me.0.format) self.old.me self.new.me }
        ensures missed { result ≡ false → Misses self.old.me self.new.me }
    {
        let board = self.board;
        board.claim_by::<TakeTurn>(&mut self.token, TURN, u64::from(number)) == 0
    }

    /// Takes the desk out of the slot: one exchange.
    pub fn take_desk(&mut self) -> Desk<A>
        requires holds { (d : State) × (self.old.me.1 ≡ (0, Some d) ∷ []) }
        ensures same { IsSameSeat self.old self.new }
        ensures desk { self.old.me.1 ≡ (0, Some result) ∷ [] }
        ensures left { self.new.me ≡ (self.old.me.0, (0, None) ∷ []) }
    {
        let board = self.board;
        let Some(desk) = board.table.shared.exchange(&mut self.token, SLOT, None) else {
            unreachable!()
        };
        desk
    }

    /// Lays the desk back into the slot: one exchange.
    pub fn return_desk(&mut self, desk: Desk<A>)
        requires holds { self.old.me.1 ≡ (0, None) ∷ [] }
        ensures same { IsSameSeat self.old self.new }
        ensures returned { self.new.me ≡ (self.old.me.0, (0, Some desk) ∷ []) }
    {
        let board = self.board;
        let desk = Some(desk);
        let None = board.table.shared.exchange(&mut self.token, SLOT, desk) else {
            unreachable!()
        };
    }

    /// Gives the turn back: one store of 0 to its word.
    ///
    /// The desk in the slot has to say of each record that was not found drained, that its version
    /// reaches the same rows as when the turn was taken.
    pub fn give_turn(&mut self)
        requires giving { (x : Option State) × (d : DeskState)
            × IsGiving (stored self.old.me.0.format) x d self.old.me }
        ensures same { IsSameSeat self.old self.new }
        ensures gave { Gives self.old.me self.new.me }
    {
        self.board.store_by::<GiveTurn>(&mut self.token, TURN, 0);
    }
}
