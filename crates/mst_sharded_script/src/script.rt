//! A script: the lines of a source, asked of the passes over a sharded map, and answered into a
//! sink.
ghost use Rattle.std.specs.Prelude.{◌≡◌, ◌<◌, ◌-◌, ◌+◌, ◌^◌, [], Err, IfOk, IfErr, OnOk, OnErr};
ghost use Rattle.mst_lines.specs.Runs.{Ran, Stopped};
ghost use Rattle.mst_lines.specs.Driving.{Answered, Lost, Closed, NotClosed};
ghost use Rattle.mst_script.specs.Scripts.{HasFailed, OnMemory};
ghost use Rattle.mst_sharded_script.specs.Serving.{Serves};
ghost use Rattle.mst_sharded_script.specs.States.{ScriptState};

use crate::answer::put_sharded;
use crate::serve::serve;
use crate::state::Script;
use mst_devices::{Device, Pending, Sink, Source};
use mst_key::Memory;
use mst_lines::{LineBuffer, Reader};
use mst_script::RunFault;
use std::alloc::Allocator;
use std::sync::Wait;

// Answers the line that was read.
fn answer_line<R: Wait, W: Sink, A: Allocator + Copy>(
    rt: &R,
    alloc: A,
    sink: &mut W,
    pending: &mut Pending<A>,
    line: &LineBuffer,
    script: Script<A>,
) -> Result<Script<A>, Device>
    requires few { W.failures sink.old < 2 ^ 64 - 1 }
    ensures ok { IfOk result (λ last. Answered W.takes Serves line.now sink.old pending.old script
        sink.new pending.new last) }
    ensures steady { OnOk result (W.failures sink.new ≡ W.failures sink.old) }
    ensures err { OnErr result ((last : ScriptState) × Lost W.takes Serves line.now sink.old
        pending.old script sink.new last) }
    ensures failed { OnErr result (W.failures sink.old < W.failures sink.new) }
{
    let (answer, script) = serve(rt, alloc, script, line);
    put_sharded(sink, pending, &answer)?;
    Ok(script)
}

// Answers a rest that is not empty, and writes what waits.
fn finish<R: Wait, W: Sink, A: Allocator + Copy>(
    rt: &R,
    alloc: A,
    sink: &mut W,
    pending: &mut Pending<A>,
    line: &LineBuffer,
    script: Script<A>,
) -> Result<(), Device>
    requires few { W.failures sink.old < 2 ^ 64 - 1 }
    ensures ok { OnOk result ((last : ScriptState) × Closed W.takes Serves line.now sink.old
        pending.old script sink.new last) }
    ensures steady { OnOk result (W.failures sink.new ≡ W.failures sink.old) }
    ensures err { OnErr result ((last : ScriptState) × NotClosed W.takes Serves line.now sink.old
        pending.old script sink.new last) }
    ensures failed { OnErr result (W.failures sink.old < W.failures sink.new) }
{
    if line.is_empty() {
        drop(script);
        return pending.flush(sink);
    }
    match answer_line(rt, alloc, sink, pending, line, script) {
        Ok(last) => {
            drop(last);
            pending.flush(sink)
        }
        Err(device) => Err(device),
    }
}

// Answers all lines.
fn drive<R: Wait, S: Source, W: Sink, A: Allocator + Copy>(
    rt: &R,
    alloc: A,
    source: &mut S,
    sink: &mut W,
    pending: &mut Pending<A>,
    reader: &mut Reader<A>,
    script: Script<A>,
) -> Result<(), Device>
    requires source { S.failures source.old < 2 ^ 64 - 1 }
    requires sink { W.failures sink.old < 2 ^ 64 - 1 }
    requires pending { pending.old ≡ [] }
    requires reader { reader.old ≡ [] }
    ensures ok { OnOk result ((last : ScriptState) × Ran S.gives W.takes Serves
        source.old sink.old script source.new sink.new last) }
    ensures ended { OnOk result (S.left source.new ≡ 0) }
    ensures steady_source { OnOk result (S.failures source.new ≡ S.failures source.old) }
    ensures steady_sink { OnOk result (W.failures sink.new ≡ W.failures sink.old) }
    ensures err { OnErr result ((last : ScriptState) × Stopped S.gives W.takes W.failures Serves
        source.old sink.old script source.new sink.new last) }
    ensures failed { OnErr result
        (HasFailed S.failures W.failures source.old sink.old source.new sink.new) }
{
    let mut line = LineBuffer::new();
    let mut script = script;
    while reader.next(source, sink, pending, &mut line)? {
        let later = answer_line(rt, alloc, sink, pending, &line, script)?;
        script = later;
    }
    finish(rt, alloc, sink, pending, &line, script)
}

// Takes the memory for what waits to be written and for what is read into.
fn buffers<A: Allocator + Copy>(alloc: A) -> Result<(Pending<A>, Reader<A>), Memory>
    ensures pending { IfOk result (λ both. both.0 ≡ []) }
    ensures reader { IfOk result (λ both. both.1 ≡ []) }
{
    let pending = Pending::new(alloc)?;
    let reader = Reader::new(alloc)?;
    Ok((pending, reader))
}

/// Answers the lines of the source into the sink, up to the end of the source or to the first
/// failure of a device. The number in front of a line is that of a pass, from 1. A read of the
/// whole map waits while a block is just being published, which no script does.
///
/// Returns `Memory` if a growth at the start was refused, before anything was read or written;
/// `Device` if a read or a write failed. A line takes memory only for what its `range` or `prove`
/// finds and for a write, and is answered `memory` if that is refused.
pub fn run<R: Wait, S: Source, W: Sink, A: Allocator + Copy>(
    rt: &R,
    alloc: A,
    source: &mut S,
    sink: &mut W,
    script: Script<A>,
) -> Result<(), RunFault>
    requires source { S.failures source.old < 2 ^ 64 - 1 }
    requires sink { W.failures sink.old < 2 ^ 64 - 1 }

    ensures ok { OnOk result ((last : ScriptState) × Ran S.gives W.takes Serves
        source.old sink.old script source.new sink.new last) }
    ensures ended { OnOk result (S.left source.new ≡ 0) }
    ensures steady_source { OnOk result (S.failures source.new ≡ S.failures source.old) }
    ensures steady_sink { OnOk result (W.failures sink.new ≡ W.failures sink.old) }

    ensures stopped { result ≡ Err RunFault.Device → (last : ScriptState)
        × Stopped S.gives W.takes W.failures Serves source.old sink.old script source.new sink.new
        last }
    ensures device { result ≡ Err RunFault.Device
        → HasFailed S.failures W.failures source.old sink.old source.new sink.new }
    ensures memory { IfErr result (λ fault. OnMemory fault
        ((source.new ≡ source.old) × (sink.new ≡ sink.old))) }
{
    let (mut pending, mut reader) = match buffers(alloc) {
        Ok(both) => both,
        Err(refused) => return Err(RunFault::Memory(refused)),
    };
    match drive(rt, alloc, source, sink, &mut pending, &mut reader, script) {
        Ok(()) => Ok(()),
        Err(Device) => Err(RunFault::Device),
    }
}
