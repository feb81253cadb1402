//! The threads: one for each worker, all of them joined.
ghost use Rattle.std.specs.Prelude.{◌≡◌, ◌<◌, ◌≤◌, ◌+◌, ℕ, IfErr, IfOk, get_or, vec_len};
ghost use Rattle.mst_store.specs.Passes.{Known};
ghost use Rattle.mst_load.specs.Workers.{IsNewOf, IsWorkerOf};
ghost use Rattle.mst_load.specs.declared.engine.LoadFault.TheVariants.{Thread};

use crate::course::{Course, Newcomer, SamePass, Worker};
use crate::engine::LoadFault;
use crate::gate::Gate;
use crate::worker::{Plan, work};
use mst_store::{Memory, Pass, Store};
use std::alloc::{Allocator, Global};
use std::marker::PhantomData;
use std::sync::Wait;
use std::thread;
use std::thread::{PromisedHandle, Scope, Threads};

// Starts the thread of a worker.
fn start<'s, 'a: 's, E, R: Wait + Sync, G: Gate + Sync, C: Course + Send + 's>(
    scope: &Scope<'s, E>,
    rt: &'s R,
    gate: &'s G,
    pass: Pass<'a, Global>,
    plan: Plan,
) -> Result<PromisedHandle<Worker<'a, C>, SamePass>, LoadFault>
    requires few { plan.writers ≤ 8 }
    requires plan { (plan.writers ≡ C.writers) × (plan.calls ≡ C.calls) }
    requires own { IsNewOf C.store pass }
    ensures same { IfOk result (λ handle. handle.promise.number ≡ pass.entry.number) }
    ensures thread { IfErr result (λ fault. (refused : _) × (fault ≡ Thread refused)) }
{
    let promise = SamePass {
        number: pass.number(),
    };
    let newcomer = Newcomer {
        pass,
        of: PhantomData,
    };
    match scope.spawn_with(promise, move || work(rt, gate, newcomer, plan)) {
        Ok(handle) => Ok(handle),
        Err(refused) => Err(LoadFault::Thread(Memory::from(refused))),
    }
}

// Starts the threads of all workers. Those that were started before a fault run on, and the scope
// joins them.
fn start_all<'s, 'a: 's, E, R: Wait + Sync, A: Allocator, G: Gate + Sync, C: Course + Send + 's>(
    scope: &Scope<'s, E>,
    rt: &'s R,
    alloc: A,
    gate: &'s G,
    passes: Vec<Pass<'a, Global>, A>,
    plan: Plan,
) -> Result<Vec<PromisedHandle<Worker<'a, C>, SamePass>, A>, LoadFault>
    requires few { plan.writers ≤ 8 }
    requires plan { (plan.writers ≡ C.writers) × (plan.calls ≡ C.calls) }
    requires own { (k : ℕ) (d : Known) → k < vec_len passes
        → IsNewOf C.store (get_or passes.items k d) }
    requires numbered { (k : ℕ) (d : Known) → k < vec_len passes
        → (get_or passes.items k d).number ≡ k + 1 }
    ensures count { IfOk result (λ handles. vec_len handles ≡ vec_len passes.entry) }
    ensures numbered { IfOk result (λ handles. (k : ℕ) (d : _) → k < vec_len handles
        → (get_or handles.items k d).promise.number ≡ k + 1) }
{
    let mut handles = Vec::new(alloc);
    for pass in passes {
        let handle = start(scope, rt, gate, pass, plan)?;
        if let Err(refused) = handles.push(handle) {
            return Err(LoadFault::Memory(Memory::from(refused)));
        }
    }
    Ok(handles)
}

// Joins the threads of all workers: their passes, and how often a version was below an earlier one.
// The passes are returned in the order of their numbers, since the threads were started so and each
// gives back its own.
fn join_all<'a, R: Threads, A: Allocator, C: Course>(
    rt: &R,
    alloc: A,
    handles: Vec<PromisedHandle<Worker<'a, C>, SamePass>, A>,
) -> Result<(Vec<Pass<'a, Global>, A>, u64), LoadFault>
    requires few { vec_len handles ≤ 32 }
    requires numbered { (k : ℕ) (d : _) → k < vec_len handles
        → (get_or handles.items k d).promise.number ≡ k + 1 }
    ensures count { IfOk result (λ r. vec_len r.0 ≡ vec_len handles.entry) }
    ensures never { IfOk result (λ r. r.1 ≡ 0) }
    ensures own { IfOk result (λ r. (k : ℕ) (d : Known) → k < vec_len r.0
        → IsWorkerOf C.store C.writers C.calls (get_or r.0.items k d)) }
    ensures numbered { IfOk result (λ r. (k : ℕ) (d : Known) → k < vec_len r.0
        → (get_or r.0.items k d).number ≡ k + 1) }
{
    let mut passes = Vec::new(alloc);
    let mut falls = 0;
    for handle in handles {
        let Worker {
            pass,
            falls: more,
            ..
        } = handle.join(rt);
        falls += more;
        if let Err(refused) = passes.push(pass) {
            return Err(LoadFault::Memory(Memory::from(refused)));
        }
    }
    Ok((passes, falls))
}

/// Runs a thread for each pass of the store, and returns when all have returned, also if one could
/// not be started or a growth was refused.
pub(crate) fn run_all<'a, R, A, G, C>(
    rt: &R,
    alloc: A,
    _store: &Store<Global>,
    gate: &G,
    passes: Vec<Pass<'a, Global>, A>,
    plan: Plan,
) -> Result<(Vec<Pass<'a, Global>, A>, u64), LoadFault>
where
    R: Threads + Wait + Sync,
    A: Allocator + Copy,
    G: Gate + Sync,
    C: Course + Send + 'static,
    requires few { plan.writers ≤ 8 }
    requires plan { (plan.writers ≡ C.writers) × (plan.calls ≡ C.calls) }
    requires count { vec_len passes ≤ 32 }
    requires own { (k : ℕ) (d : Known) → k < vec_len passes
        → IsNewOf C.store (get_or passes.items k d) }
    requires numbered { (k : ℕ) (d : Known) → k < vec_len passes
        → (get_or passes.items k d).number ≡ k + 1 }
    ensures count { IfOk result (λ r. vec_len r.0 ≡ vec_len passes.entry) }
    ensures never { IfOk result (λ r. r.1 ≡ 0) }
    ensures own { IfOk result (λ r. (k : ℕ) (d : Known) → k < vec_len r.0
        → IsWorkerOf C.store C.writers C.calls (get_or r.0.items k d)) }
    ensures numbered { IfOk result (λ r. (k : ℕ) (d : Known) → k < vec_len r.0
        → (get_or r.0.items k d).number ≡ k + 1) }
{
    thread::scope(
        thread::scope_env(),
        rt,
        move |scope| -> Result<(Vec<Pass<Global>, A>, u64), LoadFault>
            requires few { plan.writers ≤ 8 }
            requires plan { (plan.writers ≡ C.writers) × (plan.calls ≡ C.calls) }
            requires count { vec_len passes ≤ 32 }
            requires own { (k : ℕ) (d : Known) → k < vec_len passes
                → IsNewOf C.store (get_or passes.items k d) }
            requires numbered { (k : ℕ) (d : Known) → k < vec_len passes
                → (get_or passes.items k d).number ≡ k + 1 }
            ensures count { IfOk result (λ r. vec_len r.0 ≡ vec_len passes.entry) }
            ensures never { IfOk result (λ r. r.1 ≡ 0) }
            ensures own { IfOk result (λ r. (k : ℕ) (d : Known) → k < vec_len r.0
                → IsWorkerOf C.store C.writers C.calls (get_or r.0.items k d)) }
            ensures numbered { IfOk result (λ r. (k : ℕ) (d : Known) → k < vec_len r.0
                → (get_or r.0.items k d).number ≡ k + 1) }
        {
            let handles: Vec<PromisedHandle<Worker<C>, SamePass>, A> = start_all(
                scope, rt, alloc, gate, passes, plan,
            )?;
            join_all(rt, alloc, handles)
        },
    )
}
