//! What a worker's thread takes and gives back, in a type that says which store it is of: of what a
//! thread returns, its type alone is known.
ghost use Rattle.std.specs.Prelude.{◌≡◌, ℕ};
ghost use Rattle.mst_store.specs.Passes.{StoreId};
ghost use Rattle.mst_load.specs.Workers.{IsNewOf, IsWorkerOf};

use mst_store::Pass;
use std::alloc::Global;
use std::marker::{Brand, PhantomData};
use std::thread::Promise;

/// Which store the passes of a load are of, how many of the first ones write, and how many calls
/// each worker makes. Each load picks them.
pub(crate) trait Course {
    ghost store: { StoreId };

    ghost writers: { ℕ };

    ghost calls: { ℕ };
}

impl Course for Brand {
    ghost use Rattle.mst_load.specs.Stores.{no_store};

    ghost store = { no_store };

    ghost writers = { 0 };

    ghost calls = { 0 };
}

/// What goes to a worker's thread: its pass, which has seen and done nothing.
#[derive(Drop)]
pub(crate) struct Newcomer<'a, C: Course> {
    pub(crate) pass: Pass<'a, Global>,
    pub(crate) of: PhantomData<C>,
    pub ghost own: { IsNewOf C.store pass },
}

/// What a worker's thread returns: its pass, which has made all calls of the worker, and how often
/// a version that it read was below an earlier one.
#[derive(Drop)]
pub(crate) struct Worker<'a, C: Course> {
    pub(crate) pass: Pass<'a, Global>,
    pub(crate) falls: u64,
    pub(crate) of: PhantomData<C>,
    pub ghost own: { IsWorkerOf C.store C.writers C.calls pass },
    pub ghost never: { falls ≡ 0 },
}

/// What a worker's thread promises: it gives back the pass of this number.
#[derive(Drop)]
pub(crate) struct SamePass {
    pub(crate) number: u32,
}

impl<'a, C: Course> Promise<Worker<'a, C>> for SamePass {
    ghost kept_by = { λ promise worker. worker.pass.number ≡ promise.number };
}
