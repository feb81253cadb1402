//! A load of readers and writers, from the store's opening to its end.
ghost use Rattle.std.specs.Prelude.{◌≡◌, ◌<◌, ◌≤◌, ◌+◌, ◌*◌, ◌∷◌, ◌++◌, ℕ, [], All, IfOk, get_or, length, vec_len, vec_capacity};
ghost use Rattle.mst_key.specs.declared.format.Format.TheVariants.{One};
ghost use Rattle.mst_key.specs.History.{after, events_of, KeepsFormat};
ghost use Rattle.mst_store.specs.Passes.{Known, format_seen, IsShape, HasShape};
ghost use Rattle.mst_store.specs.Settling.{AreAllPasses};
ghost use Rattle.mst_node.specs.Text as text;
ghost use Rattle.mst_load.specs.Calls.{map_left};
ghost use Rattle.mst_load.specs.Workers.{HasAllCalls};
ghost use Rattle.mst_load.specs.Reports.{IsOneVersion, HasSettled};

use crate::calls::left_by;
use crate::gate::Gate;
use crate::running::run_all;
use crate::worker::Plan;
use mst_key::Memory;
use mst_node::root_of;
use mst_store::{Format, OpenFault, Pass, Seats, Shape, Store, settle};
use std::alloc::{AllocGlobal, Allocator, Global};
use std::marker::Brand;
use std::sync::Wait;
use std::thread::Threads;
use thiserror::Error;

/// How many rows the store has.
const ROWS: u32 = 32_768;

/// What a load came to.
#[derive(Clone, Copy)]
pub struct Report {
    /// How many events there were: the number of the last version.
    pub events: u64,
    /// How often a version that a reader read was below one that it had read before.
    pub falls: u64,
    /// The root digest of the last version's map.
    pub root: [u8; 32],
    /// The root digest of the map that the writers' calls leave.
    pub built: [u8; 32],
}

/// Why a load did not finish. All threads that were started had returned.
#[derive(Clone, Copy, Debug, PartialEq, Eq, Error)]
pub enum LoadFault {
    /// A growth was refused.
    #[error("no memory")]
    Memory(Memory),
    /// A thread could not be started: the system had no memory for it.
    #[error("no thread")]
    Thread(Memory),
}

// The number of the version that a pass finds when all have settled, and the root digest of its
// map. That all settle again shows that no event came since.
fn version_of<'a, A: Allocator>(
    pass: Pass<'a, Global>,
    others: Vec<Pass<'a, Global>, A>,
) -> (u64, [u8; 32])
    requires room { vec_len others < vec_capacity others }
    requires whole { AreAllPasses (others.items ++ pass ∷ []) }
    requires seen { All (λ p. events_of p.number pass.seen ≡ p.mine) (others.items ++ pass ∷ []) }
    ensures events { result.0 ≡ length pass.entry.seen }
    ensures root { result.1 ≡ text.root (format_seen pass.entry) (after pass.entry.seen) }
{
    let mut pinned = pass.pin();
    let events = pinned.version();
    let root = pinned.root();
    let mut all = others;
    all.push_reserved(pinned.unpin());
    settle(all.as_mut_slice(), &mut []);
    (events, root)
}

// What all passes have seen when they have settled.
fn report_of<A: Allocator>(
    passes: Vec<Pass<'_, Global>, A>,
    falls: u64,
    built: [u8; 32],
    _plan: Plan,
) -> Report
    requires some { 0 < vec_len passes }
    requires whole { AreAllPasses passes.items }
    requires rows { All (λ p. p.store.rows ≡ 32768) passes.items }
    requires format { All (λ p. p.store.format ≡ One) passes.items }
    requires numbered { (k : ℕ) (d : Known) → k < vec_len passes
        → (get_or passes.items k d).number ≡ k + 1 }
    requires keeps { All (λ p. KeepsFormat p.mine) passes.items }
    requires worked { All (HasAllCalls _plan.writers _plan.calls) passes.items }
    ensures falls { result.falls ≡ falls }
    ensures built { result.built ≡ built }
    ensures settled { HasSettled (vec_len passes.entry) _plan.writers _plan.calls result.events
        result.root }
    ensures version { IsOneVersion result.events result.root }
{
    let mut passes = passes;
    settle(passes.as_mut_slice(), &mut []);
    let Some(pass) = passes.pop() else {
        unreachable!()
    };
    let (events, root) = version_of(pass, passes);
    Report {
        events,
        falls,
        root,
        built,
    }
}

// Opens a store of a shape that a store may have, so that only memory can be refused.
fn opened<A: Allocator + Copy>(alloc: A, shape: Shape) -> Result<(Store<A>, Seats<A>), Memory>
    requires shape { IsShape shape }
    ensures store { IfOk result (λ opened. HasShape shape opened.0) }
    ensures seats { IfOk result (λ opened. opened.1 ≡ opened.0) }
{
    match Store::open(alloc, shape) {
        Ok(opened) => Ok(opened),
        Err(OpenFault::Memory(refused)) => Err(refused),
        Err(OpenFault::Shape) => unreachable!(),
    }
}

/// Lets readers and writers work at one store at once, each in a thread of its own, and reports
/// what they left. The writers are the first passes, the readers follow.
///
/// Call `c` of writer `w` puts the value `c` at the key of `w` and `c` by 32, and waits for its
/// turn. None is refused: at most 256 keys take at most 512 rows in each version, and the store has
/// 32,768 for the versions that at most 32 passes keep. So there are as many events as calls of
/// writers, and the map is the one that they leave. A reader reads the version and a value in
/// turns. Each worker asks the gate before each call and tells it after.
///
/// There are at most 24 readers, 1 to 8 writers, and 1 to 100,000 calls of each worker. The store,
/// which the threads share, lies in the runtime's memory, the lists of passes and threads in
/// `alloc`. It returns when all threads have returned, also with a fault: `Memory` if a growth was
/// refused, `Thread` if a thread could not be started.
#[tactic(auto, using(crate::proofs::Returning::of_load, crate::proofs::Kept::settled_count))]
pub fn load<R: Threads + Wait + AllocGlobal + Sync, A: Allocator + Copy, G: Gate + Sync>(
    rt: &R,
    alloc: A,
    readers: u32,
    writers: u32,
    calls: u32,
    gate: &G,
) -> Result<Report, LoadFault>
    requires readers { readers ≤ 24 }
    requires writers { (1 ≤ writers) × (writers ≤ 8) }
    requires calls { (1 ≤ calls) × (calls ≤ 100000) }
    ensures never { IfOk result (λ report. report.falls ≡ 0) }
    ensures version { IfOk result (λ report. IsOneVersion report.events report.root) }
    ensures settled { IfOk result
        (λ report. HasSettled (readers + writers) writers calls report.events report.root) }
    ensures built { IfOk result (λ report. report.built ≡ text.root One (map_left writers calls)) }
    ensures all { IfOk result (λ report. report.events ≡ writers * calls) }
    ensures whole { IfOk result (λ report. report.root ≡ report.built) }
{
    let pairs = match left_by(alloc, writers, calls) {
        Ok(pairs) => pairs,
        Err(refused) => return Err(LoadFault::Memory(refused)),
    };
    let built = root_of(&pairs);
    let shape = Shape {
        rows: ROWS,
        passes: readers + writers,
        format: Format::One,
    };
    let (store, seats) = match opened(rt.alloc(), shape) {
        Ok(opened) => opened,
        Err(refused) => return Err(LoadFault::Memory(refused)),
    };
    let passes = match store.deal(alloc, seats) {
        Ok(passes) => passes,
        Err((refused, _)) => return Err(LoadFault::Memory(refused)),
    };
    let plan = Plan { writers, calls };
    let (passes, falls) = run_all::<R, A, G, Brand>(rt, alloc, &store, gate, passes, plan)?;
    Ok(report_of(passes, falls, built, plan))
}
