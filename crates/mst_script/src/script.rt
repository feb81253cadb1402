//! A script: the lines of a source, asked of the passes of a store, and answered into a sink.
ghost use Rattle.std.specs.Prelude.{◌≡◌, ◌<◌, ◌≤◌, ◌-◌, ◌+◌, ◌^◌, [], vec_capacity, IfOk, IfErr, OnOk, OnErr};
ghost use Rattle.mst_lines.specs.Runs.{Ran, Stopped};
ghost use Rattle.mst_lines.specs.Driving.{Answered, Lost, Closed, NotClosed};
ghost use Rattle.mst_script.specs.Serving.{AreAllOf, everyone, Serves};
ghost use Rattle.mst_script.specs.Scripts.{RanScript, StoppedScript, HasFailed, OnMemory};

use crate::passes::Passes;
use crate::serve::serve;
use mst_devices::{Device, Pending, Sink, Source};
use mst_lines::{LineBuffer, Reader};
use mst_requests::put_answer;
use mst_store::{Memory, Pass, Pinned, Store};
use std::alloc::Allocator;
use std::mem;
use thiserror::Error;

/// Why a run ended early.
#[derive(Clone, Copy, Debug, PartialEq, Eq, Error)]
pub enum RunFault {
    /// A growth was refused before anything was read.
    #[error("no memory")]
    Memory(Memory),
    /// A read or a write failed.
    #[error("a device failed")]
    Device,
}

// Answers the line that was read.
fn answer_line<W: Sink, A: Allocator + Copy, B: Allocator + Copy>(
    alloc: A,
    sink: &mut W,
    pending: &mut Pending<A>,
    line: &LineBuffer,
    store: &Store<B>,
    passes: &mut Passes<'_, A, B>,
) -> Result<(), Device>
    requires few { W.failures sink.old < 2 ^ 64 - 1 }
    requires whole { AreAllOf store.now (everyone passes.old) }
    ensures whole { AreAllOf store.now (everyone passes.new) }
    ensures ok { OnOk result (Answered W.takes (Serves store.now) line.now
        sink.old pending.old passes.old sink.new pending.new passes.new) }
    ensures steady { OnOk result (W.failures sink.new ≡ W.failures sink.old) }
    ensures err { OnErr result (Lost W.takes (Serves store.now) line.now
        sink.old pending.old passes.old sink.new passes.new) }
    ensures failed { OnErr result (W.failures sink.old < W.failures sink.new) }
{
    let answer = serve(alloc, store, passes, line);
    put_answer(sink, pending, &answer)
}

// Answers a rest that is not empty, and writes what waits.
fn finish<W: Sink, A: Allocator + Copy, B: Allocator + Copy>(
    alloc: A,
    sink: &mut W,
    pending: &mut Pending<A>,
    line: &LineBuffer,
    store: &Store<B>,
    passes: &mut Passes<'_, A, B>,
) -> Result<(), Device>
    requires few { W.failures sink.old < 2 ^ 64 - 1 }
    requires whole { AreAllOf store.now (everyone passes.old) }
    ensures whole { AreAllOf store.now (everyone passes.new) }
    ensures ok { OnOk result (Closed W.takes (Serves store.now) line.now
        sink.old pending.old passes.old sink.new passes.new) }
    ensures steady { OnOk result (W.failures sink.new ≡ W.failures sink.old) }
    ensures err { OnErr result (NotClosed W.takes (Serves store.now) line.now
        sink.old pending.old passes.old sink.new passes.new) }
    ensures failed { OnErr result (W.failures sink.old < W.failures sink.new) }
{
    if line.is_empty() {
        return pending.flush(sink);
    }
    answer_line(alloc, sink, pending, line, store, passes)?;
    pending.flush(sink)
}

// Answers all lines, from passes on that settled.
fn drive<S: Source, W: Sink, A: Allocator + Copy, B: Allocator + Copy>(
    alloc: A,
    source: &mut S,
    sink: &mut W,
    pending: &mut Pending<A>,
    reader: &mut Reader<A>,
    store: &Store<B>,
    passes: &mut Passes<'_, A, B>,
) -> Result<(), Device>
    requires source { S.failures source.old < 2 ^ 64 - 1 }
    requires sink { W.failures sink.old < 2 ^ 64 - 1 }
    requires pending { pending.old ≡ [] }
    requires reader { reader.old ≡ [] }
    requires whole { AreAllOf store.now (everyone passes.old) }
    ensures whole { AreAllOf store.now (everyone passes.new) }
    ensures ok { OnOk result (Ran S.gives W.takes (Serves store.now)
        source.old sink.old passes.old source.new sink.new passes.new) }
    ensures ended { OnOk result (S.left source.new ≡ 0) }
    ensures steady_source { OnOk result (S.failures source.new ≡ S.failures source.old) }
    ensures steady_sink { OnOk result (W.failures sink.new ≡ W.failures sink.old) }
    ensures err { OnErr result (Stopped S.gives W.takes W.failures (Serves store.now)
        source.old sink.old passes.old source.new sink.new passes.new) }
    ensures failed { OnErr result
        (HasFailed S.failures W.failures source.old sink.old source.new sink.new) }
{
    let mut line = LineBuffer::new();
    while reader.next(source, sink, pending, &mut line)? {
        answer_line(alloc, sink, pending, &line, store, passes)?;
    }
    finish(alloc, sink, pending, &line, store, passes)
}

// Lets the passes settle, and answers all lines. Then all pins are ended, and the passes settle
// once more.
fn settle_and_drive<S: Source, W: Sink, A: Allocator + Copy, B: Allocator + Copy>(
    alloc: A,
    source: &mut S,
    sink: &mut W,
    pending: &mut Pending<A>,
    reader: &mut Reader<A>,
    store: &Store<B>,
    passes: &mut Passes<'_, A, B>,
) -> Result<(), Device>
    requires source { S.failures source.old < 2 ^ 64 - 1 }
    requires sink { W.failures sink.old < 2 ^ 64 - 1 }
    requires pending { pending.old ≡ [] }
    requires reader { reader.old ≡ [] }
    requires whole { AreAllOf store.now passes.old.free }
    requires free { passes.old.pinned ≡ [] }
    ensures whole { AreAllOf store.now passes.new.free }
    ensures ok { OnOk result (RanScript S.gives W.takes store.now
        source.old sink.old passes.old.free source.new sink.new passes.new.free) }
    ensures ended { OnOk result (S.left source.new ≡ 0) }
    ensures steady_source { OnOk result (S.failures source.new ≡ S.failures source.old) }
    ensures steady_sink { OnOk result (W.failures sink.new ≡ W.failures sink.old) }
    ensures err { OnErr result (StoppedScript S.gives W.takes W.failures store.now
        source.old sink.old passes.old.free source.new sink.new passes.new.free) }
    ensures failed { OnErr result
        (HasFailed S.failures W.failures source.old sink.old source.new sink.new) }
{
    passes.settle();
    let driven = drive(alloc, source, sink, pending, reader, store, passes);
    passes.release_all();
    driven
}

// What waits to be written, what is read into, and room for this many pins: each of them empty.
type Buffers<'a, A, B> = (Pending<A>, Reader<A>, Vec<Pinned<'a, B>, A>);

// Takes all the memory of a run.
fn buffers<'a, A: Allocator + Copy, B: Allocator + Copy>(
    alloc: A,
    count: usize,
) -> Result<Buffers<'a, A, B>, Memory>
    ensures pending { IfOk result (λ all. all.0 ≡ []) }
    ensures reader { IfOk result (λ all. all.1 ≡ []) }
    ensures pinned { IfOk result (λ all. all.2.items ≡ []) }
    ensures room { IfOk result (λ all. count ≤ vec_capacity all.2) }
{
    let pending = Pending::new(alloc)?;
    let reader = Reader::new(alloc)?;
    let pinned = Vec::with_capacity(alloc, count)?;
    Ok((pending, reader, pinned))
}

/// Answers the lines of the source into the sink, up to the end of the source or to the first
/// failure of a device. The passes settle before the first line and after each; at the end pins are
/// ended, and they settle once more.
///
/// The vector must have all passes of the store, in any order, and it has all of them again after
/// the call. Returns `Memory` if a growth at the start was refused, before anything was read,
/// written or changed; `Device` if a read or a write failed. A line takes memory only for what its
/// `range`, `prove` or `node` finds, for a migration or for a batch, and is answered `memory` if
/// that is refused.
pub fn run<S: Source, W: Sink, A: Allocator + Copy, B: Allocator + Copy>(
    alloc: A,
    source: &mut S,
    sink: &mut W,
    store: &Store<B>,
    passes: &mut Vec<Pass<'_, B>, B>,
) -> Result<(), RunFault>
    requires source { S.failures source.old < 2 ^ 64 - 1 }
    requires sink { W.failures sink.old < 2 ^ 64 - 1 }
    requires whole { AreAllOf store.now passes.old.items }

    ensures whole { AreAllOf store.now passes.new.items }
    ensures ok { OnOk result (RanScript S.gives W.takes store.now
        source.old sink.old passes.old.items source.new sink.new passes.new.items) }
    ensures ended { OnOk result (S.left source.new ≡ 0) }
    ensures steady_source { OnOk result (S.failures source.new ≡ S.failures source.old) }
    ensures steady_sink { OnOk result (W.failures sink.new ≡ W.failures sink.old) }

    ensures stopped { result ≡ Err RunFault.Device
        → StoppedScript S.gives W.takes W.failures store.now source.old sink.old passes.old.items
        source.new sink.new passes.new.items }
    ensures device { result ≡ Err RunFault.Device
        → HasFailed S.failures W.failures source.old sink.old source.new sink.new }
    ensures memory { IfErr result (λ fault. OnMemory fault
        ((source.new ≡ source.old) × (sink.new ≡ sink.old) × (passes.new ≡ passes.old))) }
{
    let (mut pending, mut reader, pinned) = match buffers(alloc, passes.len()) {
        Ok(all) => all,
        Err(refused) => return Err(RunFault::Memory(refused)),
    };
    let none = Vec::new(*passes.allocator());
    let mut all = Passes::new(mem::replace(passes, none), pinned);
    let driven = settle_and_drive(
        alloc,
        source,
        sink,
        &mut pending,
        &mut reader,
        store,
        &mut all,
    );
    *passes = all.into_free();
    match driven {
        Ok(()) => Ok(()),
        Err(Device) => Err(RunFault::Device),
    }
}
