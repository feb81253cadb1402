//! Writes that wait for the turn: the only calls of a store that may not return.
ghost use Rattle.std.specs.Prelude.{IfOk, IfErr, OnOk};
ghost use Rattle.mst_key.specs.declared.history.Change.TheVariants.{Put, Remove, Batch};
ghost use Rattle.mst_key.specs.History.{had, done};
ghost use Rattle.mst_store.specs.Passes.{made_by};
ghost use Rattle.mst_store.specs.Waiting.{WroteAfter, RefusesAfter, RefusesBatchAfter};

use crate::faults::{BatchFault, ChangeFault};
use crate::pass::Pass;
use crossbeam_utils::Backoff;
use mst_batching::ApplyFault;
use mst_key::{Edit, Key, Value};
use mst_versions::WriteFault;
use std::alloc::Allocator;
use std::sync::Wait;

impl<'a, A: Allocator + Copy> Pass<'a, A> {
    /// Gives the key the value as [`Pass::try_put`] does, and tries again for as long as another
    /// pass has the turn. The pause between two tries grows. It takes no memory.
    ///
    /// It may wait forever: no contract says whether or when it gets the turn. If it returns, its
    /// result is that of a `try_put` that got the turn, with the same `VersionsSpent` and `NoRoom`.
    /// In a store of one pass it never tries twice.
    #[tactic(auto, using(crate::proofs::Waits::all_tries))]
    pub fn put<R: Wait>(
        &mut self,
        rt: &R,
        key: &Key,
        value: &Value,
    ) -> Result<Option<Value>, ChangeFault>
        ensures ok { IfOk result
            (λ old. WroteAfter (made_by self.old (Put key.now value.now)) self.old (had old)
            self.new) }
        ensures err { IfErr result
            (λ fault. RefusesAfter fault (Put key.now value.now) self.old self.new) }
    {
        let backoff = Backoff::new();
        for _ in rt.forever() {
            match self.try_put(key, value) {
                Ok(old) => return Ok(old),
                Err(WriteFault::Busy) => backoff.snooze(),
                Err(WriteFault::VersionsSpent) => return Err(ChangeFault::VersionsSpent),
                Err(WriteFault::NoRoom) => return Err(ChangeFault::NoRoom),
            }
        }
        unreachable!()
    }

    /// Takes the key out of the map as [`Pass::try_remove`] does, and waits for the turn as
    /// [`Pass::put`] does. Its errors are those of [`Pass::put`].
    #[tactic(auto, using(crate::proofs::Waits::all_tries))]
    pub fn remove<R: Wait>(&mut self, rt: &R, key: &Key) -> Result<Option<Value>, ChangeFault>
        ensures ok { IfOk result
            (λ old. WroteAfter (made_by self.old (Remove key.now)) self.old (had old) self.new) }
        ensures err { IfErr result
            (λ fault. RefusesAfter fault (Remove key.now) self.old self.new) }
    {
        let backoff = Backoff::new();
        for _ in rt.forever() {
            match self.try_remove(key) {
                Ok(old) => return Ok(old),
                Err(WriteFault::Busy) => backoff.snooze(),
                Err(WriteFault::VersionsSpent) => return Err(ChangeFault::VersionsSpent),
                Err(WriteFault::NoRoom) => return Err(ChangeFault::NoRoom),
            }
        }
        unreachable!()
    }

    /// Makes the edits as [`Pass::try_apply`] does, and waits for the turn as [`Pass::put`] does.
    /// Its errors are those of [`Pass::try_apply`] but for `Busy`. While it waits it has no memory.
    #[tactic(auto, using(crate::proofs::Waits::all_tries))]
    pub fn apply<R: Wait, B: Allocator + Copy>(
        &mut self,
        rt: &R,
        alloc: B,
        edits: &[Edit],
    ) -> Result<(), BatchFault>
        ensures ok { OnOk result
            (WroteAfter (made_by self.old (Batch edits.now)) self.old done self.new) }
        ensures err { IfErr result (λ fault. RefusesBatchAfter fault edits.now self.old self.new) }
    {
        let backoff = Backoff::new();
        for _ in rt.forever() {
            match self.try_apply(alloc, edits) {
                Ok(()) => return Ok(()),
                Err(ApplyFault::Busy) => backoff.snooze(),
                Err(ApplyFault::VersionsSpent) => return Err(BatchFault::VersionsSpent),
                Err(ApplyFault::Memory(refused)) => return Err(BatchFault::Memory(refused)),
                Err(ApplyFault::NoRoom) => return Err(BatchFault::NoRoom),
            }
        }
        unreachable!()
    }
}
