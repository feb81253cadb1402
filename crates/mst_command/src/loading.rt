//! A load: readers and writers at one store at once, and the report of what they left.
ghost use Rattle.std.specs.Prelude.{◌≡◌, ◌<◌, ◌-◌, ◌^◌, ◌↔◌, true, OnOk, IfOk, IfErr, IsErrOf};
ghost use Rattle.mst_arguments.specs.Commanding.{EndsLoad, IsDevice, Untouched};
ghost use Rattle.mst_command.specs.Loading.{IsLoadSize, RanLoad, BrokeLoad};
ghost use Rattle.mst_arguments.specs.declared.task.Ending.TheVariants.{Done};

use mst_arguments::{Ending, Load, Refusal};
use mst_devices::{Device, Sink, write_all};
use mst_load::{Gate, LoadFault, load};
use std::alloc::{AllocGlobal, Allocator};
use std::sync::Wait;
use std::thread::Threads;

/// Whether a load may have these numbers: 1 to 24 readers, 1 to 8 writers and 1 to 100,000 calls of
/// each.
fn is_load_size(size: Load) -> bool
    ensures { (result ≡ true) ↔ IsLoadSize size }
{
    (1..=24).contains(&size.readers)
        && (1..=8).contains(&size.writers)
        && (1..=100_000).contains(&size.calls)
}

/// Lets readers and writers work at one store at once, each in a thread of its own, and writes the
/// four lines of the report. The gate is asked before each call and told after it.
///
/// Returns `Shape`, before any thread is started, if a load may not have these numbers. Returns
/// `Memory` if a growth was refused or a thread could not be started: all threads that were started
/// have then returned. Returns `Device` if the write of the report failed.
pub fn run_load<R, A: Allocator + Copy, G: Gate + Sync, W: Sink>(
    rt: &R,
    alloc: A,
    size: Load,
    gate: &G,
    out: &mut W,
) -> Result<Ending, Refusal>
where
    R: Threads + Wait + AllocGlobal + Sync,
    requires { W.failures out.old < 2 ^ 64 - 1 }
    ensures ran { OnOk result (RanLoad W.takes size out.old out.new) }
    ensures done { IfOk result (λ ending. ending ≡ Done) }
    ensures steady { OnOk result (W.failures out.new ≡ W.failures out.old) }
    ensures device { IfErr result (λ why. IsDevice why (W.failures out.old) (W.failures out.new)) }
    ensures unwritten { IfErr result (λ why. Untouched why out.old out.new) }
    ensures ends { IfErr result (λ why. EndsLoad why) }
    ensures stopped { IsErrOf result Refusal.Device → BrokeLoad W.takes size out.old out.new }
    ensures shape { IsErrOf result Refusal.Shape ↔ ¬ (IsLoadSize size) }
{
    if !is_load_size(size) {
        return Err(Refusal::Shape);
    }
    let report = match load(rt, alloc, size.readers, size.writers, size.calls, gate) {
        Ok(report) => report,
        Err(LoadFault::Memory(refused)) => return Err(Refusal::Memory(refused)),
        Err(LoadFault::Thread(refused)) => return Err(Refusal::Memory(refused)),
    };
    match write_all(out, report.lines().as_slice()) {
        Ok(()) => Ok(Ending::Done),
        Err(Device) => Err(Refusal::Device),
    }
}
