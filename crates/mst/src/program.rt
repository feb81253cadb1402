//! The program, over a source and two sinks.
ghost use Rattle.std.specs.Prelude.{◌≡◌, ◌<◌, ◌-◌, ◌+◌, ◌^◌, ◌⊎◌, OnOk, IfOk, IfErr, IsErrOf, Some, None, true, false};
ghost use Rattle.mst_command.specs.Programs.{RanScript, RanReplay, RanVerify};
ghost use Rattle.mst.specs.Tasks.{RanSharded, Helped, Broke, Comes};
ghost use Rattle.mst_arguments.specs.Loads.{IsLoadOf, asks_load};
ghost use Rattle.mst_command.specs.Loading.{RanLoad};
ghost use Rattle.mst_arguments.specs.Commanding.{AsksFor, IsDevice, NamesShape, Untouched, Unread, asks_replay, asks_verify, splits_in};
ghost use Rattle.mst_arguments.specs.declared.task.Ending.TheVariants.{Done, ProofRefused};
ghost use Rattle.mst.specs.Commanded.{Commanded, Performed};

use crate::tasks::execute;
use mst_arguments::{DONE, Ending, PROOF_REFUSED, Refusal, complain, task_of};
use mst_devices::{Sink, Source};
use mst_load::Gate;
use std::alloc::{AllocGlobal, Global};
use std::sync::Wait;
use std::thread::Threads;

// Does what the words ask for.
fn perform<R: Threads + Wait + AllocGlobal + Sync, G: Gate + Sync, S: Source, W: Sink>(
    rt: &R,
    alloc: Global,
    words: &[&str],
    gate: &G,
    source: &mut S,
    out: &mut W,
) -> Result<Ending, Refusal>
    requires source { S.failures source.old < 2 ^ 64 - 1 }
    requires out { W.failures out.old < 2 ^ 64 - 1 }
    ensures performed { IfOk result (λ ending. Performed S.gives S.left W.takes words.now source.old
        out.old ending source.new out.new) }
    ensures ran { asks_replay words.now ≡ false → asks_verify words.now ≡ None
        → asks_load words.now ≡ false → splits_in words.now ≡ None
        → OnOk result (((shape : _) × NamesShape words.now shape
        × RanScript S.gives W.takes shape source.old out.old source.new out.new
        × (S.left source.new ≡ 0))
        ⊎ Helped W.takes words.now source.old out.old source.new out.new) }
    ensures sharded { asks_replay words.now ≡ false → asks_verify words.now ≡ None
        → asks_load words.now ≡ false → (word : _) → splits_in words.now ≡ Some word
        → OnOk result (((shape : _) × NamesShape words.now shape
        × RanSharded S.gives W.takes shape word source.old out.old source.new out.new
        × (S.left source.new ≡ 0))
        ⊎ Helped W.takes words.now source.old out.old source.new out.new) }
    ensures replayed { asks_replay words.now ≡ true
        → OnOk result ((RanReplay S.gives W.takes source.old out.old source.new out.new
        × (S.left source.new ≡ 0))
        ⊎ Helped W.takes words.now source.old out.old source.new out.new) }
    ensures loaded { asks_load words.now ≡ true
        → OnOk result (((size : _) × IsLoadOf words.now size × RanLoad W.takes size out.old out.new
        × (source.new ≡ source.old))
        ⊎ Helped W.takes words.now source.old out.old source.new out.new) }
    ensures verified { IfOk result (λ ending. (named : _) → asks_verify words.now ≡ Some named
        → RanVerify S.gives S.left W.takes named source.old out.old ending source.new out.new
        ⊎ (Helped W.takes words.now source.old out.old source.new out.new × (ending ≡ Done))) }
    ensures others { IfOk result (λ ending. asks_verify words.now ≡ None → ending ≡ Done) }
    ensures steady { OnOk result
        (S.failures source.new + W.failures out.new ≡ S.failures source.old + W.failures out.old) }
    ensures device { IfErr result
        (λ why. IsDevice why (S.failures source.old + W.failures out.old)
        (S.failures source.new + W.failures out.new)) }
    ensures unread { IfErr result (λ why. Unread why source.old source.new) }
    ensures untouched { asks_verify words.now ≡ None
        → IfErr result (λ why. Untouched why source.old source.new) }
    ensures comes { IfErr result (λ why. Comes words.now why) }
    ensures stopped { IsErrOf result Refusal.Device → (task : _) × AsksFor words.now task
        × Broke S.gives S.left W.takes W.failures task source.old out.old source.new out.new }
    ensures unwritten { IfErr result (λ why. Untouched why out.old out.new) }
{
    match task_of(alloc, words) {
        Ok(task) => execute(rt, alloc, task, gate, source, out),
        Err(why) => Err(why),
    }
}

/// Does what the words ask for, the first of which is the program's name, and returns the exit
/// status: 0 done, 1 a proof refused, 2 words refused, 3 a read or a write failed, 4 a growth was
/// refused or a thread could not be started. With 2, 3 and 4 it says so on standard error, with 2
/// by clap's own text, `shape`, `splits`, `bad root` or `bad key`.
///
/// The gate is asked before each call of a load and told after it. What it writes by itself is in
/// no clause.
pub fn command<R, G: Gate + Sync, S: Source, O: Sink, E: Sink>(
    rt: &R,
    alloc: Global,
    words: &[&str],
    gate: &G,
    source: &mut S,
    out: &mut O,
    err: &mut E,
) -> u8
where
    R: Threads + Wait + AllocGlobal + Sync,
    requires source { S.failures source.old < 2 ^ 64 - 1 }
    requires out { O.failures out.old < 2 ^ 64 - 1 }
    requires err { E.failures err.old < 2 ^ 64 - 1 }
    ensures commanded { Commanded S.gives S.left S.failures O.takes O.failures E.takes E.failures
        words.now source.old out.old err.old result source.new out.new err.new }
    ensures done { result ≡ 0 → asks_replay words.now ≡ false → asks_verify words.now ≡ None
        → asks_load words.now ≡ false → splits_in words.now ≡ None
        → ((shape : _) × NamesShape words.now shape
        × RanScript S.gives O.takes shape source.old out.old source.new out.new
        × (S.left source.new ≡ 0))
        ⊎ Helped O.takes words.now source.old out.old source.new out.new }
    ensures sharded { result ≡ 0 → asks_replay words.now ≡ false → asks_verify words.now ≡ None
        → asks_load words.now ≡ false → (word : _) → splits_in words.now ≡ Some word
        → ((shape : _) × NamesShape words.now shape
        × RanSharded S.gives O.takes shape word source.old out.old source.new out.new
        × (S.left source.new ≡ 0))
        ⊎ Helped O.takes words.now source.old out.old source.new out.new }
    ensures replayed { result ≡ 0 → asks_replay words.now ≡ true
        → (RanReplay S.gives O.takes source.old out.old source.new out.new
        × (S.left source.new ≡ 0))
        ⊎ Helped O.takes words.now source.old out.old source.new out.new }
    ensures loaded { result ≡ 0 → asks_load words.now ≡ true
        → ((size : _) × IsLoadOf words.now size × RanLoad O.takes size out.old out.new
        × (source.new ≡ source.old))
        ⊎ Helped O.takes words.now source.old out.old source.new out.new }
    ensures verified { result ≡ 0 → (named : _) → asks_verify words.now ≡ Some named
        → RanVerify S.gives S.left O.takes named source.old out.old Done source.new out.new
        ⊎ Helped O.takes words.now source.old out.old source.new out.new }
    ensures proof_refused { result ≡ 1 → (named : _) × (asks_verify words.now ≡ Some named)
        × RanVerify S.gives S.left O.takes named source.old out.old ProofRefused source.new
        out.new }
{
    match perform(rt, alloc, words, gate, source, out) {
        Ok(Ending::Done) => DONE,
        Ok(Ending::ProofRefused) => PROOF_REFUSED,
        Err(why) => complain(err, &why),
    }
}
