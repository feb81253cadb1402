//! What a hand's pass tells of its store's rows while versions are pinned, of these versions, and
//! of its own last write.
ghost use Rattle.std.specs.Prelude.{Ok, Err, IfOk, IfErr};
ghost use Rattle.mst_c.specs.Knowing.{CountsFree, ListsPinned, Knows};

use crate::pass_box::{CountRefusal, PassBox, State, put_back};
use mst_store::{Busy, VersionList};
use std::mem::replace;

impl PassBox {
    /// How many rows are free to the next write, if the pass is free.
    pub(crate) fn free_rows(&mut self) -> Result<u32, CountRefusal>
        ensures counts { CountsFree self.old result self.new }
    {
        match replace(&mut self.state, State::Away) {
            State::Free(laid) => {
                let mut pass = self.store.lift(laid);
                let free = pass.free_rows();
                put_back(&mut self.state, State::Free(pass.lay()));
                match free {
                    Ok(free) => Ok(free),
                    Err(Busy) => Err(CountRefusal::Busy),
                }
            }
            other => {
                put_back(&mut self.state, other);
                Err(CountRefusal::Pins)
            }
        }
    }

    /// The versions that are found pinned, if the pass is free.
    pub(crate) fn pinned_versions(&mut self) -> Result<VersionList, CountRefusal>
        ensures ok { IfOk result
            (λ versions. ListsPinned self.old (Ok versions.items) self.new) }
        ensures err { IfErr result (λ fault. ListsPinned self.old (Err fault) self.new) }
    {
        match replace(&mut self.state, State::Away) {
            State::Free(laid) => {
                let mut pass = self.store.lift(laid);
                let found = pass.pinned_versions();
                put_back(&mut self.state, State::Free(pass.lay()));
                match found {
                    Ok(versions) => Ok(versions),
                    Err(Busy) => Err(CountRefusal::Busy),
                }
            }
            other => {
                put_back(&mut self.state, other);
                Err(CountRefusal::Pins)
            }
        }
    }

    /// The version that the pass's last write made, if it made one.
    pub(crate) fn made(&mut self) -> Option<u64>
        ensures knows { Knows self.old result self.new }
    {
        match replace(&mut self.state, State::Away) {
            State::Away => unreachable!(),
            State::Free(laid) => {
                let pass = self.store.lift(laid);
                let made = pass.made();
                put_back(&mut self.state, State::Free(pass.lay()));
                made
            }
            State::Pinned(laid) => {
                let pinned = self.store.lift_pinned(laid);
                let made = pinned.made();
                put_back(&mut self.state, State::Pinned(pinned.lay()));
                made
            }
        }
    }
}
