//! What a worker does in its thread: the calls of a writer, or those of a reader.
ghost use Rattle.std.specs.Prelude.{◌≡◌, ◌<◌, ◌≤◌, ◌+◌, ◌-◌, ◌^◌, length};
ghost use Rattle.mst_store.specs.Passes.{Looks};
ghost use Rattle.mst_load.specs.Workers.{HasWorked, HasWritten};
ghost use Rattle.mst_load.specs.Listening.{HasAsked, HasHeard, having_fetched, having_read};

use crate::calls::{key, value};
use crate::course::{Course, Newcomer, Worker};
use crate::gate::Gate;
use mst_store::Pass;
use std::alloc::Global;
use std::marker::PhantomData;
use std::sync::Wait;

/// How many of the first passes write, and how many calls each worker makes.
#[derive(Clone, Copy)]
pub(crate) struct Plan {
    pub(crate) writers: u32,
    pub(crate) calls: u32,
}

// Makes the calls of a writer. The contract leaves open whether a put is refused: that none is
// follows from what all writers put.
#[tactic(auto, using(crate::proofs::Working::not_written, crate::proofs::Working::written_more))]
fn write<R: Wait, G: Gate>(rt: &R, gate: &G, pass: &mut Pass<'_, Global>, calls: u32)
    requires few { pass.old.number < 256 }
    ensures wrote { HasWritten calls pass.old pass.new }
{
    let number = pass.number();
    for index in 0..calls {
        let call = index + 1;
        gate.enter(number, call);
        let _ = pass.put(rt, &key(number, call), &value(call));
        gate.answered(number, call);
    }
}

/// What a reader has heard so far.
#[derive(Clone, Copy)]
pub(crate) struct Heard {
    /// The newest version that it read.
    pub(crate) newest: u64,
    /// How often a version was below an earlier one.
    pub(crate) falls: u64,
    /// How often the first key of the first writer had a value.
    pub(crate) found: u32,
}

// Reads the version.
fn look(pass: &mut Pass<'_, Global>, heard: Heard) -> Heard
    requires never { heard.falls ≡ 0 }
    requires newest { heard.newest ≤ length pass.old.seen }
    ensures looks { Looks pass.old pass.new }
    ensures once { pass.new.asked ≡ pass.old.asked + 1 }
    ensures heard { result ≡ having_read pass.new heard }
{
    let version = pass.version();
    Heard {
        newest: version.max(heard.newest),
        falls: heard.falls + u64::from(version < heard.newest),
        ..heard
    }
}

// Reads the first key of the first writer.
fn fetch(pass: &mut Pass<'_, Global>, heard: Heard) -> Heard
    requires few { heard.found < 2 ^ 32 - 1 }
    ensures looks { Looks pass.old pass.new }
    ensures once { pass.new.asked ≡ pass.old.asked + 1 }
    ensures heard { result ≡ having_fetched pass.new heard }
{
    let value = pass.get(&key(1, 1));
    Heard {
        found: heard.found + u32::from(value.is_some()),
        ..heard
    }
}

// Makes a call of a reader: `version` and `get` in turns.
fn ask(pass: &mut Pass<'_, Global>, call: u32, heard: Heard) -> Heard
    requires never { heard.falls ≡ 0 }
    requires newest { heard.newest ≤ length pass.old.seen }
    requires few { heard.found < 2 ^ 32 - 1 }
    ensures asked { HasAsked call heard pass.old pass.new result }
{
    if call % 2 == 1 {
        look(pass, heard)
    } else {
        fetch(pass, heard)
    }
}

// Makes the calls of a reader.
#[tactic(auto, using(crate::proofs::Listening::none_heard, crate::proofs::Listening::heard_more))]
fn read<G: Gate>(gate: &G, pass: &mut Pass<'_, Global>, calls: u32) -> Heard
    ensures { HasHeard calls pass.old pass.new result }
{
    let number = pass.number();
    let mut heard = Heard {
        newest: 0,
        falls: 0,
        found: 0,
    };
    for index in 0..calls {
        gate.enter(number, index + 1);
        heard = ask(pass, index + 1, heard);
        gate.answered(number, index + 1);
    }
    heard
}

// Makes all calls of the worker that has this pass. It returns how often a version was below an
// earlier one.
fn make_calls<R: Wait, G: Gate>(rt: &R, gate: &G, pass: &mut Pass<'_, Global>, plan: Plan) -> u64
    requires few { plan.writers ≤ 8 }
    ensures worked { HasWorked plan.writers plan.calls pass.old pass.new result }
{
    if pass.number() <= plan.writers {
        write(rt, gate, pass, plan.calls);
        return 0;
    }
    read(gate, pass, plan.calls).falls
}

/// Makes all calls of the worker.
pub(crate) fn work<'a, R: Wait, G: Gate, C: Course>(
    rt: &R,
    gate: &G,
    newcomer: Newcomer<'a, C>,
    plan: Plan,
) -> Worker<'a, C>
    requires few { plan.writers ≤ 8 }
    requires plan { (plan.writers ≡ C.writers) × (plan.calls ≡ C.calls) }
    ensures same { result.pass.number ≡ newcomer.entry.pass.number }
{
    let Newcomer { mut pass, .. } = newcomer;
    let falls = make_calls(rt, gate, &mut pass, plan);
    Worker {
        pass,
        falls,
        of: PhantomData,
    }
}
