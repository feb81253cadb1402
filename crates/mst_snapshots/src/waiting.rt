//! Snapshots that wait for a block to be published: the only call of a reader that may not return.
ghost use Rattle.std.specs.Prelude.{◌≡◌};
ghost use Rattle.mst_shards.specs.BlockHistory.{IsOneBlock};
ghost use Rattle.mst_snapshots.specs.Reading.{SeesOn};
ghost use Rattle.mst_snapshots.specs.Tries.{PinsAfter};

use crate::reader::Reader;
use crate::snapshot::Snapshot;
use crossbeam_utils::Backoff;
use std::alloc::Allocator;
use std::sync::Wait;

impl<A: Allocator + Copy> Reader<A> {
    /// Takes a snapshot as [`Reader::try_snapshot`] does, and tries again while a block is just
    /// being published. The pause between two tries grows. It takes no memory.
    ///
    /// It may wait forever: no contract says whether or when a try falls between two blocks. If it
    /// returns, the snapshot has seen all that the reader had seen. A try is one step of each pass,
    /// and another follows only where what was pinned was not of one block.
    #[tactic(auto, using(crate::proofs::Later::all_tries))]
    pub fn snapshot<R: Wait>(self, rt: &R) -> Snapshot<A>
        ensures later { SeesOn self result }
        ensures tries { PinsAfter self result }
        ensures one { IsOneBlock result }
    {
        let backoff = Backoff::new();
        let mut reader = self;
        for _ in rt.forever() {
            match reader.try_snapshot() {
                Ok(snapshot) => return snapshot,
                Err(back) => reader = back,
            }
            backoff.snooze();
        }
        unreachable!()
    }
}
