//! A script and a replay, over a source and a sink.
ghost use Rattle.std.specs.Prelude.{◌≡◌, ◌<◌, ◌-◌, ◌+◌, ◌^◌, ◌↔◌, OnOk, IfOk, IfErr, IsErrOf};
ghost use Rattle.mst_store.specs.Passes.{IsShape};
ghost use Rattle.mst_command.specs.Programs.{RanScript, BrokeScript, RanReplay, BrokeReplay};
ghost use Rattle.mst_arguments.specs.Commanding.{IsDevice, EndsReplay, EndsScript, Untouched};
ghost use Rattle.mst_arguments.specs.declared.task.Ending.TheVariants.{Done};

use crate::events::replay_events;
use mst_arguments::{Ending, Refusal};
use mst_devices::{Sink, Source};
use mst_replay::Replay;
use mst_script::{RunFault, run};
use mst_store::{OpenFault, Shape, Store};
use std::alloc::Allocator;

/// Answers the lines of the source over a new store.
///
/// Returns `Shape`, before anything is read, exactly if a store may not have this size; `Memory` if
/// a growth at the start was refused; `Device` if a read or a write failed.
pub fn run_script<A: Allocator + Copy, S: Source, W: Sink>(
    alloc: A,
    shape: Shape,
    source: &mut S,
    out: &mut W,
) -> Result<Ending, Refusal>
    requires source { S.failures source.old < 2 ^ 64 - 1 }
    requires out { W.failures out.old < 2 ^ 64 - 1 }
    ensures ran { OnOk result
        (RanScript S.gives W.takes shape source.old out.old source.new out.new) }
    ensures ended { OnOk result (S.left source.new ≡ 0) }
    ensures done { IfOk result (λ ending. ending ≡ Done) }
    ensures steady { OnOk result
        (S.failures source.new + W.failures out.new ≡ S.failures source.old + W.failures out.old) }
    ensures device { IfErr result
        (λ why. IsDevice why (S.failures source.old + W.failures out.old)
        (S.failures source.new + W.failures out.new)) }
    ensures unread { IfErr result (λ why. Untouched why source.old source.new) }
    ensures unwritten { IfErr result (λ why. Untouched why out.old out.new) }
    ensures ends { IfErr result (λ why. EndsScript why) }
    ensures stopped { IsErrOf result Refusal.Device
        → BrokeScript S.gives W.takes W.failures shape source.old out.old source.new out.new }
    ensures shape { IsErrOf result Refusal.Shape ↔ ¬ (IsShape shape) }
{
    let (store, seats) = match Store::open(alloc, shape) {
        Ok(opened) => opened,
        Err(OpenFault::Shape) => return Err(Refusal::Shape),
        Err(OpenFault::Memory(refused)) => return Err(Refusal::Memory(refused)),
    };
    let mut passes = match store.deal(alloc, seats) {
        Ok(passes) => passes,
        Err((refused, _)) => return Err(Refusal::Memory(refused)),
    };
    match run(alloc, source, out, &store, &mut passes) {
        Ok(()) => Ok(Ending::Done),
        Err(RunFault::Device) => Err(Refusal::Device),
        Err(RunFault::Memory(refused)) => Err(Refusal::Memory(refused)),
    }
}

/// Answers the events of the source, from no core on.
///
/// Returns `Memory` if a growth at the start was refused; `Device` if a read or a write failed.
pub fn run_replay<A: Allocator + Copy, S: Source, W: Sink>(
    alloc: A,
    source: &mut S,
    out: &mut W,
) -> Result<Ending, Refusal>
    requires source { S.failures source.old < 2 ^ 64 - 1 }
    requires out { W.failures out.old < 2 ^ 64 - 1 }
    ensures ran { OnOk result (RanReplay S.gives W.takes source.old out.old source.new out.new) }
    ensures ended { OnOk result (S.left source.new ≡ 0) }
    ensures done { IfOk result (λ ending. ending ≡ Done) }
    ensures steady { OnOk result
        (S.failures source.new + W.failures out.new ≡ S.failures source.old + W.failures out.old) }
    ensures device { IfErr result
        (λ why. IsDevice why (S.failures source.old + W.failures out.old)
        (S.failures source.new + W.failures out.new)) }
    ensures unread { IfErr result (λ why. Untouched why source.old source.new) }
    ensures unwritten { IfErr result (λ why. Untouched why out.old out.new) }
    ensures ends { IfErr result (λ why. EndsReplay why) }
    ensures stopped { IsErrOf result Refusal.Device
        → BrokeReplay S.gives W.takes W.failures source.old out.old source.new out.new }
{
    let mut replay = Replay::new();
    match replay_events(alloc, source, out, &mut replay) {
        Ok(()) => Ok(Ending::Done),
        Err(RunFault::Device) => Err(Refusal::Device),
        Err(RunFault::Memory(refused)) => Err(Refusal::Memory(refused)),
    }
}
