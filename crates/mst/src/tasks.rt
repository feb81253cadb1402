//! The tasks of the program, over a source and a sink.
ghost use Rattle.std.specs.Prelude.{◌≡◌, ◌<◌, ◌-◌, ◌+◌, ◌^◌, ◌↔◌, OnOk, IfOk, IfErr, IsErrOf, [], None};
ghost use Rattle.mst_devices.specs.Device.{Breaks};
ghost use Rattle.mst.specs.Tasks.{Did, Broke, HasBadShape, HasBadSplits, HasBadRoot, HasBadKey};
ghost use Rattle.mst_arguments.specs.Commanding.{IsDevice, Ends, EndsHelp, Untouched, Unread, verified_words};
ghost use Rattle.mst_arguments.specs.declared.task.Ending.TheVariants.{Done};

use crate::sharded::run_sharded;
use mst_arguments::{Ending, Refusal, Task};
use mst_command::{run_load, run_replay, run_script, run_verify};
use mst_devices::{Device, Sink, Source, write_all};
use mst_load::Gate;
use std::alloc::{AllocGlobal, Allocator};
use std::sync::Wait;
use std::thread::Threads;

// Writes a whole text.
fn show<W: Sink>(out: &mut W, text: &str) -> Result<Ending, Refusal>
    requires { W.failures out.old < 2 ^ 64 - 1 }
    ensures written { OnOk result (W.takes out.old text.now out.new) }
    ensures done { IfOk result (λ ending. ending ≡ Done) }
    ensures steady { OnOk result (W.failures out.new ≡ W.failures out.old) }
    ensures device { IfErr result (λ why. IsDevice why (W.failures out.old) (W.failures out.new)) }
    ensures unwritten { IfErr result (λ why. Untouched why out.old out.new) }
    ensures ends { IfErr result (λ why. EndsHelp why) }
    ensures stopped { IsErrOf result Refusal.Device → Breaks W.takes out.old [] text.now out.new }
{
    match write_all(out, text.as_bytes()) {
        Ok(()) => Ok(Ending::Done),
        Err(Device) => Err(Refusal::Device),
    }
}

/// Does the task, and says how the program ends, or why it ends early. The gate is asked before
/// each call of a load and told after it.
///
/// Returns `Shape` for a size out of the store's limits, for as many passes over a sharded map as a
/// store may have, for an unknown format and for numbers that a load may not have, `Splits` for a
/// word that spells no splits of a sharded map, unless their list was refused memory, and `BadRoot`
/// and then `BadKey` for words that spell no root digest and no key: all before anything is read or
/// run. Returns `Memory` if a growth was refused or a thread could not be started: nothing was
/// written then, and nothing read but a proof. Returns `Device` if a read or a write failed.
pub fn execute<R, A: Allocator + Copy, G: Gate + Sync, S: Source, W: Sink>(
    rt: &R,
    alloc: A,
    task: Task<'_>,
    gate: &G,
    source: &mut S,
    out: &mut W,
) -> Result<Ending, Refusal>
where
    R: Threads + Wait + AllocGlobal + Sync,
    requires source { S.failures source.old < 2 ^ 64 - 1 }
    requires out { W.failures out.old < 2 ^ 64 - 1 }
    ensures did { IfOk result
        (λ ending. Did S.gives S.left W.takes task.entry source.old out.old ending source.new
        out.new) }
    ensures steady { OnOk result
        (S.failures source.new + W.failures out.new ≡ S.failures source.old + W.failures out.old) }
    ensures device { IfErr result
        (λ why. IsDevice why (S.failures source.old + W.failures out.old)
        (S.failures source.new + W.failures out.new)) }
    ensures unread { IfErr result (λ why. Unread why source.old source.new) }
    ensures untouched { verified_words task.entry ≡ None
        → IfErr result (λ why. Untouched why source.old source.new) }
    ensures unwritten { IfErr result (λ why. Untouched why out.old out.new) }
    ensures shape { IsErrOf result Refusal.Shape ↔ HasBadShape task.entry }
    ensures splits { IsErrOf result Refusal.Splits → HasBadSplits task.entry }
    ensures root { IsErrOf result Refusal.BadRoot ↔ HasBadRoot task.entry }
    ensures key { IsErrOf result Refusal.BadKey ↔ HasBadKey task.entry }
    ensures ends { IfErr result (λ why. Ends task.entry why) }
    ensures stopped { IsErrOf result Refusal.Device
        → Broke S.gives S.left W.takes W.failures task.entry source.old out.old source.new out.new }
{
    match task {
        Task::Run(shape) => run_script(alloc, shape, source, out),
        Task::RunSharded(shape, splits) => run_sharded(rt, alloc, shape, splits, source, out),
        Task::Verify(kind, format, root, key) => {
            run_verify(alloc, kind, format, root, key, source, out)
        }
        Task::UnknownFormat => Err(Refusal::Shape),
        Task::Replay => run_replay(alloc, source, out),
        Task::Load(size) => run_load(rt, alloc, size, gate, out),
        Task::Help(text) => show(out, text.as_str()),
    }
}
