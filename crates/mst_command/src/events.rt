//! A replay: the lines of a source, answered by a core of pins into a sink.
ghost use Rattle.std.specs.Prelude.{◌≡◌, ◌<◌, ◌-◌, ◌+◌, ◌^◌, [], IfErr, OnOk, OnErr};
ghost use Rattle.mst_lines.specs.Runs.{Ran, Stopped};
ghost use Rattle.mst_lines.specs.Driving.{Answered, Lost, Closed, NotClosed};
ghost use Rattle.mst_script.specs.Scripts.{OnMemory};
ghost use Rattle.mst_command.specs.Recalling.{Recalls};

use crate::replay::answer_event;
use mst_devices::{Device, Pending, Sink, Source};
use mst_key::Memory;
use mst_lines::{LineBuffer, Reader};
use mst_replay::Replay;
use mst_script::RunFault;
use std::alloc::Allocator;

// Answers the line that was read.
fn answer_line<W: Sink, A: Allocator>(
    sink: &mut W,
    pending: &mut Pending<A>,
    line: &LineBuffer,
    replay: &mut Replay,
) -> Result<(), Device>
    requires few { W.failures sink.old < 2 ^ 64 - 1 }
    ensures ok { OnOk result
        (Answered W.takes Recalls line.now sink.old pending.old replay.old sink.new pending.new
        replay.new) }
    ensures steady { OnOk result (W.failures sink.new ≡ W.failures sink.old) }
    ensures err { OnErr result
        (Lost W.takes Recalls line.now sink.old pending.old replay.old sink.new replay.new) }
    ensures failed { OnErr result (W.failures sink.old < W.failures sink.new) }
{
    let text = answer_event(replay, line);
    pending.put(sink, text.as_slice())
}

// Answers a rest that is not empty, and writes what waits.
fn finish<W: Sink, A: Allocator>(
    sink: &mut W,
    pending: &mut Pending<A>,
    line: &LineBuffer,
    replay: &mut Replay,
) -> Result<(), Device>
    requires few { W.failures sink.old < 2 ^ 64 - 1 }
    ensures ok { OnOk result
        (Closed W.takes Recalls line.now sink.old pending.old replay.old sink.new replay.new) }
    ensures steady { OnOk result (W.failures sink.new ≡ W.failures sink.old) }
    ensures err { OnErr result
        (NotClosed W.takes Recalls line.now sink.old pending.old replay.old sink.new replay.new) }
    ensures failed { OnErr result (W.failures sink.old < W.failures sink.new) }
{
    if line.is_empty() {
        return pending.flush(sink);
    }
    answer_line(sink, pending, line, replay)?;
    pending.flush(sink)
}

// Answers all lines.
fn drive<S: Source, W: Sink, A: Allocator>(
    source: &mut S,
    sink: &mut W,
    pending: &mut Pending<A>,
    reader: &mut Reader<A>,
    replay: &mut Replay,
) -> Result<(), Device>
    requires source { S.failures source.old < 2 ^ 64 - 1 }
    requires sink { W.failures sink.old < 2 ^ 64 - 1 }
    requires pending { pending.old ≡ [] }
    requires reader { reader.old ≡ [] }
    ensures ok { OnOk result
        (Ran S.gives W.takes Recalls source.old sink.old replay.old source.new sink.new
        replay.new) }
    ensures ended { OnOk result (S.left source.new ≡ 0) }
    ensures steady_source { OnOk result (S.failures source.new ≡ S.failures source.old) }
    ensures steady_sink { OnOk result (W.failures sink.new ≡ W.failures sink.old) }
    ensures err { OnErr result
        (Stopped S.gives W.takes W.failures Recalls source.old sink.old replay.old source.new
        sink.new replay.new) }
    ensures failed { OnErr result
        (S.failures source.old + W.failures sink.old < S.failures source.new
        + W.failures sink.new) }
{
    let mut line = LineBuffer::new();
    while reader.next(source, sink, pending, &mut line)? {
        answer_line(sink, pending, &line, replay)?;
    }
    finish(sink, pending, &line, replay)
}

/// Answers the events of the source into the sink, up to the end of the source or to the first
/// failure of a device.
///
/// Returns `Memory` if a growth at the start was refused, before anything was read or written;
/// `Device` if a read or a write failed.
pub fn replay_events<S: Source, W: Sink, A: Allocator + Copy>(
    alloc: A,
    source: &mut S,
    sink: &mut W,
    replay: &mut Replay,
) -> Result<(), RunFault>
    requires source { S.failures source.old < 2 ^ 64 - 1 }
    requires sink { W.failures sink.old < 2 ^ 64 - 1 }

    ensures ok { OnOk result
        (Ran S.gives W.takes Recalls source.old sink.old replay.old source.new sink.new
        replay.new) }
    ensures ended { OnOk result (S.left source.new ≡ 0) }
    ensures steady_source { OnOk result (S.failures source.new ≡ S.failures source.old) }
    ensures steady_sink { OnOk result (W.failures sink.new ≡ W.failures sink.old) }

    ensures stopped { result ≡ Err RunFault.Device
        → Stopped S.gives W.takes W.failures Recalls source.old sink.old replay.old source.new
        sink.new replay.new }
    ensures device { result ≡ Err RunFault.Device
        → S.failures source.old + W.failures sink.old < S.failures source.new
        + W.failures sink.new }
    ensures memory { IfErr result (λ fault. OnMemory fault
        ((source.new ≡ source.old) × (sink.new ≡ sink.old) × (replay.new ≡ replay.old))) }
{
    let mut pending = match Pending::new(alloc) {
        Ok(pending) => pending,
        Err(refused) => return Err(RunFault::Memory(Memory::from(refused))),
    };
    let mut reader = match Reader::new(alloc) {
        Ok(reader) => reader,
        Err(refused) => return Err(RunFault::Memory(Memory::from(refused))),
    };
    match drive(source, sink, &mut pending, &mut reader, replay) {
        Ok(()) => Ok(()),
        Err(Device) => Err(RunFault::Device),
    }
}
