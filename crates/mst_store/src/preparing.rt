//! A batch in two steps: its edits are made in free rows, hashed, and then published or taken back.
//! So batches of several stores can be made together, all of them or none.
ghost use Rattle.std.specs.Prelude.{◌≡◌, ◌+◌, ◌≤◌, length, IfOk, IfErr};
ghost use Rattle.mst_key.specs.History.{after, batched};
ghost use Rattle.mst_key.specs.Map.{IsMap};
ghost use Rattle.mst_node.specs.Text as text;
ghost use Rattle.mst_store.specs.Passes.{format_seen, most_rows};
ghost use Rattle.mst_store.specs.Preparing.{Prepares, published};
ghost use Rattle.mst_batching.specs.Applying.{RefusesBatch};

use crate::pass::Pass;
use mst_batching::{ApplyFault, Preparation, preparing};
use mst_key::Edit;
use mst_versions::{PassParameters, finishing};
use mst_words::PassSeat;
use std::alloc::Allocator;
use std::marker::Model;

/// A batch that is made and not yet published. Its pass has the turn: other passes are refused it
/// until [`Prepared::publish`] or [`Prepared::cancel`], neither of which can fail. Readers go on,
/// and see nothing of it. It may be moved to another thread. One that is dropped keeps the turn for
/// good.
#[derive(Drop)]
pub struct Prepared<'a, A: Allocator + Copy, B: Allocator> {
    pub(crate) seat: PassSeat<'a, A>,
    pub(crate) prepared: Preparation<A>,
    pub(crate) parameters: PassParameters,
    pub(crate) made: Option<u64>,
    pub(crate) edits: Vec<Edit, B>,
}

/// Contracts see what the pass knows since it took the turn, and the edits.
impl<'a, A: Allocator + Copy, B: Allocator> Model for Prepared<'a, A, B> {
    ghost use Rattle.mst_store.specs.Preparing.{Waiting, waiting, IsWaiting};

    ghost Value = { Waiting };

    ghost view = { λ p. waiting p.parameters.number p.made p.edits.items p.seat };

    ghost invariant = { λ p. IsWaiting p.parameters p.edits.items p.prepared p.seat };
}

/// A batch that is published, whose pass still has the turn: readers find its version, and other
/// passes are refused the turn until [`Revealed::close`], which cannot fail. One that is dropped
/// keeps the turn for good.
#[derive(Drop)]
pub struct Revealed<'a, A: Allocator + Copy, B: Allocator> {
    seat: PassSeat<'a, A>,
    turn: finishing::PublishedTurn<A>,
    parameters: PassParameters,
    /// Kept, to be freed by [`Revealed::close`]: who reads several stores as one has to try again
    /// while some of them are published and others are not.
    edits: Vec<Edit, B>,
}

/// Contracts see what the pass knows.
impl<'a, A: Allocator + Copy, B: Allocator> Model for Revealed<'a, A, B> {
    ghost use Rattle.std.specs.Prelude.{Some};
    ghost use Rattle.mst_store.specs.Passes.{Known, known};
    ghost use Rattle.mst_store.specs.Preparing.{IsClosing};

    ghost Value = { Known };

    ghost view = { λ r. known r.parameters.number (Some r.turn.version) r.seat };

    ghost invariant = { λ r. IsClosing r.parameters r.turn r.seat };
}

impl<'a, A: Allocator + Copy> Pass<'a, A> {
    /// Takes the turn and makes the edits, as [`Pass::try_apply`] does, but publishes nothing: what
    /// is made waits for [`Prepared::publish`] or [`Prepared::cancel`].
    ///
    /// The map after the edits is one that a store can have: at most 65,535 pairs, whose keys rise
    /// strictly, with keys and values within their limits.
    ///
    /// Returns the errors of [`Pass::try_apply`], each under the same condition, with the pass. It
    /// has not the turn then.
    pub fn prepare<B: Allocator, C: Allocator + Copy>(
        self,
        alloc: C,
        edits: Vec<Edit, B>,
    ) -> Result<Prepared<'a, A, B>, (ApplyFault, Pass<'a, A>)>
        ensures ok { IfOk result (λ p. Prepares edits.items self.entry p.known) }
        ensures edits { IfOk result (λ p. p.edits ≡ edits.items) }
        ensures map { IfOk result (λ p. IsMap (batched (after p.known.seen) p.edits)) }
        ensures few { IfOk result (λ p. length (batched (after p.known.seen) p.edits)
            ≤ most_rows) }
        ensures err { IfErr result
            (λ refused. RefusesBatch refused.0 edits.items self.entry refused.1) }
    {
        let Pass {
            mut seat,
            parameters,
            made,
        } = self;
        match preparing::prepare(&mut seat, alloc, parameters, edits.as_slice()) {
            Ok(prepared) => Ok(Prepared {
                seat,
                prepared,
                parameters,
                made,
                edits,
            }),
            Err(fault) => Err((
                fault,
                Pass {
                    seat,
                    parameters,
                    made,
                },
            )),
        }
    }
}

impl<'a, A: Allocator + Copy, B: Allocator> Prepared<'a, A, B> {
    /// The root digest of the map after the edits, in the version's format.
    pub fn root(&self) -> [u8; 32]
        ensures root { result ≡ text.root (format_seen self.now.known)
            (batched (after self.now.known.seen) self.now.edits) }
    {
        self.prepared.root.digest
    }

    /// The number of the version that the batch was made on: how many events led to it.
    pub fn found(&self) -> u64
        ensures found { result ≡ length self.now.known.seen }
    {
        let (_, version) = self.prepared.turn.desk.current();
        version
    }

    /// Publishes the batch as one version, by one swap, and keeps the turn. So batches of several
    /// stores are published soon after one another. It takes no memory, and gives none back.
    #[inline(always)]
    pub fn reveal(self) -> Revealed<'a, A, B>
        ensures published { result ≡ published self.entry.edits self.entry.known }
    {
        let Prepared {
            mut seat,
            prepared,
            parameters,
            made: _,
            edits,
        } = self;
        let turn = preparing::reveal(&mut seat, parameters, prepared, edits.as_slice());
        Revealed {
            seat,
            turn,
            parameters,
            edits,
        }
    }

    /// Publishes the batch as one version, by one swap, and gives the turn back: [`Self::reveal`]
    /// and [`Revealed::close`]. It takes no memory. With [`Pass::prepare`] it is one
    /// [`Pass::try_apply`] (`preparing_laws`).
    pub fn publish(self) -> Pass<'a, A>
        ensures published { result ≡ published self.entry.edits self.entry.known }
    {
        self.reveal().close()
    }

    /// Takes all of it back, and gives the turn back: nothing was added to the history, and each
    /// row that was taken is free again. It takes no memory, and looks at each row of the store.
    pub fn cancel(self) -> Pass<'a, A>
        ensures back { result ≡ self.entry.known }
    {
        let Prepared {
            mut seat,
            prepared,
            parameters,
            made,
            edits,
        } = self;
        preparing::cancel(&mut seat, parameters, prepared, edits.as_slice());
        Pass {
            seat,
            parameters,
            made,
        }
    }
}

impl<'a, A: Allocator + Copy, B: Allocator> Revealed<'a, A, B> {
    /// Gives the turn back: one xor, one exchange and one store. The list of the edits is freed.
    #[inline(always)]
    pub fn close(self) -> Pass<'a, A>
        ensures same { result ≡ self.entry }
    {
        let Revealed {
            mut seat,
            turn,
            parameters,
            edits,
        } = self;
        let version = turn.version;
        finishing::close(&mut seat, turn);
        drop(edits);
        Pass {
            seat,
            parameters,
            made: Some(version),
        }
    }
}
