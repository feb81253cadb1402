//! A pass that is laid down: all of it but the reference to its store. So it can be kept together
//! with a share of the store, as code that is not Rattle has to keep it, and threads that work on
//! one map.
ghost use Rattle.std.specs.Prelude.{◌≡◌, length};

use crate::pass::Pass;
use crate::pinned::Pinned;
use crate::preparing::Prepared;
use crate::store::Store;
use mst_batching::Preparation;
use mst_key::Edit;
use mst_versions::PassParameters;
use mst_versions::reading::PinnedVersion;
use mst_words::Token;
use std::alloc::Allocator;
use std::marker::Model;

/// A pass that is laid down. [`Store::lift`] makes the pass of it again.
#[derive(Drop)]
pub struct Laid<A: Allocator + Copy> {
    token: Token<A>,
    parameters: PassParameters,
    made: Option<u64>,
}

/// Contracts see what they see of the pass.
impl<A: Allocator + Copy> Model for Laid<A> {
    ghost use Rattle.std.specs.Prelude.{◌≡◌};
    ghost use Rattle.mst_words.specs.Layout.{table_words};
    ghost use Rattle.mst_store.specs.Passes.{Known, known, IsAtRest};

    ghost Value = { Known };

    ghost view = { λ p. known p.parameters.number p.made
        (record { table = p.token.table_id; id = p.token.id; me = p.token.me }) };

    ghost invariant = { λ p. IsAtRest p.parameters
        (record { table = p.token.table_id; id = p.token.id; me = p.token.me })
        × (p.token.table_id.words ≡ table_words p.token.me.0.rows) };
}

/// A pinned pass that is laid down. [`Store::lift_pinned`] makes the pinned pass of it again.
#[derive(Drop)]
pub struct LaidPinned<A: Allocator + Copy> {
    token: Token<A>,
    at: PinnedVersion,
    parameters: PassParameters,
    made: Option<u64>,
}

/// Contracts see what they see of the pinned pass.
impl<A: Allocator + Copy> Model for LaidPinned<A> {
    ghost use Rattle.std.specs.Prelude.{◌≡◌};
    ghost use Rattle.mst_words.specs.Layout.{table_words};
    ghost use Rattle.mst_store.specs.Passes.{Known, known_at_pin, IsPinning};

    ghost Value = { Known };

    ghost view = { λ p. known_at_pin p.parameters.number p.made
        (record { table = p.token.table_id; id = p.token.id; me = p.token.me }) };

    ghost invariant = { λ p. IsPinning p.parameters p.at
        (record { table = p.token.table_id; id = p.token.id; me = p.token.me })
        × (p.token.table_id.words ≡ table_words p.token.me.0.rows) };
}

/// A pass that is laid down with a prepared batch. [`Store::lift_prepared`] makes both again. It
/// keeps the turn.
#[derive(Drop)]
pub struct LaidPrepared<A: Allocator + Copy, B: Allocator> {
    token: Token<A>,
    prepared: Preparation<A>,
    parameters: PassParameters,
    made: Option<u64>,
    edits: Vec<Edit, B>,
}

/// Contracts see what they see of the pass with its batch.
impl<A: Allocator + Copy, B: Allocator> Model for LaidPrepared<A, B> {
    ghost use Rattle.std.specs.Prelude.{◌≡◌};
    ghost use Rattle.mst_words.specs.Layout.{table_words};
    ghost use Rattle.mst_store.specs.Preparing.{Waiting, waiting, IsWaiting};

    ghost Value = { Waiting };

    ghost view = { λ p. waiting p.parameters.number p.made p.edits.items
        (record { table = p.token.table_id; id = p.token.id; me = p.token.me }) };

    ghost invariant = { λ p. IsWaiting p.parameters p.edits.items p.prepared
        (record { table = p.token.table_id; id = p.token.id; me = p.token.me })
        × (p.token.table_id.words ≡ table_words p.token.me.0.rows) };
}

impl<A: Allocator + Copy> Laid<A> {
    /// As [`Pass::made`].
    pub fn made(&self) -> Option<u64>
        ensures made { result ≡ self.now.made }
    {
        self.made
    }
}

impl<A: Allocator + Copy> LaidPinned<A> {
    /// As [`Pinned::version`].
    pub fn version(&self) -> u64
        ensures version { result ≡ length self.now.seen }
    {
        self.at.version
    }
}

impl<'a, A: Allocator + Copy> Pass<'a, A> {
    /// Lays the pass down.
    pub fn lay(self) -> Laid<A>
        ensures same { result ≡ self.entry }
    {
        let Pass {
            seat,
            parameters,
            made,
        } = self;
        let token = seat.into_token();
        Laid {
            token,
            parameters,
            made,
        }
    }
}

impl<'a, A: Allocator + Copy> Pinned<'a, A> {
    /// Lays the pinned pass down. It keeps its pin.
    pub fn lay(self) -> LaidPinned<A>
        ensures same { result ≡ self.entry }
    {
        let Pinned {
            seat,
            at,
            parameters,
            made,
        } = self;
        let token = seat.into_token();
        LaidPinned {
            token,
            at,
            parameters,
            made,
        }
    }
}

impl<'a, A: Allocator + Copy, B: Allocator> Prepared<'a, A, B> {
    /// Lays the pass down with its batch. It keeps the turn.
    pub fn lay(self) -> LaidPrepared<A, B>
        ensures same { result ≡ self.entry }
    {
        let Prepared {
            seat,
            prepared,
            parameters,
            made,
            edits,
        } = self;
        let token = seat.into_token();
        LaidPrepared {
            token,
            prepared,
            parameters,
            made,
            edits,
        }
    }
}

impl<A: Allocator + Copy> Store<A> {
    /// Returns the pass that was laid down. It must be a pass of this store.
    pub fn lift<'a>(&'a self, laid: Laid<A>) -> Pass<'a, A>
        requires own { laid.store ≡ self.now }
        ensures same { result ≡ laid }
    {
        let Laid {
            token,
            parameters,
            made,
        } = laid;
        let seat = self.board.seat(token);
        Pass {
            seat,
            parameters,
            made,
        }
    }

    /// Returns the pinned pass that was laid down. It must be a pass of this store.
    pub fn lift_pinned<'a>(&'a self, laid: LaidPinned<A>) -> Pinned<'a, A>
        requires own { laid.store ≡ self.now }
        ensures same { result ≡ laid }
    {
        let LaidPinned {
            token,
            at,
            parameters,
            made,
        } = laid;
        let seat = self.board.seat(token);
        Pinned {
            seat,
            at,
            parameters,
            made,
        }
    }

    /// Returns the pass with its batch that was laid down. It must be a pass of this store.
    pub fn lift_prepared<'a, B: Allocator>(&'a self, laid: LaidPrepared<A, B>) -> Prepared<'a, A, B>
        requires own { laid.known.store ≡ self.now }
        ensures same { result ≡ laid }
    {
        let LaidPrepared {
            token,
            prepared,
            parameters,
            made,
            edits,
        } = laid;
        let seat = self.board.seat(token);
        Prepared {
            seat,
            prepared,
            parameters,
            made,
            edits,
        }
    }
}
