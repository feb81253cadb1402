//! A pass as the tests have it: its seat, free.
use mst_versions::PassParameters;
use mst_words::PassSeat;
use std::alloc::Global;
use std::marker::Model;

/// A pass that has no pin and not the turn.
#[derive(Drop)]
pub(crate) struct Free<'a> {
    pub(crate) seat: PassSeat<'a, Global>,
    pub(crate) parameters: PassParameters,
}

impl<'a> Model for Free<'a> {
    ghost use Rattle.mst_words.specs.Access.{Seated};
    ghost use Rattle.mst_store_tests.specs.Seats.{IsFreeSeat};

    ghost Value = { Seated };

    ghost view = { λ p. p.seat };

    ghost invariant = { λ p. IsFreeSeat p.parameters p.seat };
}
