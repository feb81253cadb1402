//! The parts of a block that was begun, prepared by several threads.
ghost use Rattle.std.specs.Prelude.{◌≡◌};

use crate::part::BlockPart;
use std::alloc::Allocator;
use std::thread::{Threads, for_each_mut};

/// Prepares each of the parts ([`BlockPart::prepare`]), in at most so many threads; 0 counts as 1.
/// Where no thread can be started, this one does its work. It returns once all are prepared.
pub fn prepare_in_threads<R: Threads + Sync, A: Allocator + Copy + Send + Sync>(
    rt: &R,
    alloc: A,
    parts: &mut [BlockPart<A>],
    threads: usize,
)
    ensures same { parts.new ≡ parts.old }
{
    for_each_mut(
        rt,
        parts,
        threads.max(1),
        &|_place: usize, part: &mut BlockPart<A>|
            ensures { part.exit.now ≡ part.entry.now }
        { part.prepare(alloc) },
    );
}
