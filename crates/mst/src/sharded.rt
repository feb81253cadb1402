//! A script over a sharded map.
ghost use Rattle.std.specs.Prelude.{◌≡◌, ◌<◌, ◌-◌, ◌+◌, ◌^◌, ◌↔◌, Some, OnOk, IfOk, IfErr, IsErrOf};
ghost use Rattle.mst_shards.specs.Sharding.{IsSplits};
ghost use Rattle.mst_sharded_script.specs.Opening.{IsScriptShape};
ghost use Rattle.mst.specs.Tasks.{RanSharded, BrokeSharded, IsOpened, RefusesSplits, SpellsBadSplits};
ghost use Rattle.mst_command.specs.Splits.{splits_of};
ghost use Rattle.mst_arguments.specs.Commanding.{IsDevice, EndsSharded, Untouched};
ghost use Rattle.mst_arguments.specs.declared.task.Ending.TheVariants.{Done};

use mst_arguments::{Ending, Refusal};
use mst_command::{NoSplits, splits_in};
use mst_devices::{Sink, Source};
use mst_key::Key;
use mst_script::RunFault;
use mst_sharded_script::{Script, is_script_shape, run};
use mst_shards::are_splits;
use mst_store::Shape;
use std::alloc::Allocator;
use std::sync::Wait;

// The splits that the word spells, if a sharded map may have them.
fn splits_at<A: Allocator>(alloc: A, word: &str) -> Result<Vec<Key, A>, Refusal>
    ensures spelt { IfOk result (λ splits. splits_of word.now ≡ Some splits.items) }
    ensures rise { IfOk result (λ splits. IsSplits splits.items) }
    ensures why { IfErr result (λ why. RefusesSplits why word.now) }
{
    let splits = match splits_in(alloc, word) {
        Ok(splits) => splits,
        Err(NoSplits::Spelling) => return Err(Refusal::Splits),
        Err(NoSplits::Memory(refused)) => return Err(Refusal::Memory(refused)),
    };
    if are_splits(splits.as_slice()) {
        Ok(splits)
    } else {
        Err(Refusal::Splits)
    }
}

// Opens a script over a map with the splits that the word spells.
fn open_at<R: Wait, A: Allocator + Copy>(
    rt: &R,
    alloc: A,
    shape: Shape,
    word: &str,
) -> Result<Script<A>, Refusal>
    requires shape { IsScriptShape shape }
    ensures opened { IfOk result (λ script. IsOpened shape word.now script) }
    ensures why { IfErr result (λ why. RefusesSplits why word.now) }
{
    let splits = match splits_at(alloc, word) {
        Ok(splits) => splits,
        Err(why) => return Err(why),
    };
    match Script::open(rt, alloc, splits, shape) {
        Ok(script) => Ok(script),
        Err(refused) => Err(Refusal::Memory(refused)),
    }
}

/// Answers the lines of the source over a new sharded map, with the splits that a word spells and
/// with shards of this shape, whose passes are those of the script.
///
/// Returns `Shape`, before anything is read, exactly if a store may not have this shape, or if its
/// passes are as many as a store may have, so that none is left for the map's writer. Otherwise
/// returns `Splits`, before anything is read, if the word spells no splits that a sharded map may
/// have and their list was not refused memory; `Memory` if a growth at the start was refused;
/// `Device` if a read or a write failed.
pub fn run_sharded<R: Wait, A: Allocator + Copy, S: Source, W: Sink>(
    rt: &R,
    alloc: A,
    shape: Shape,
    splits: &str,
    source: &mut S,
    out: &mut W,
) -> Result<Ending, Refusal>
    requires source { S.failures source.old < 2 ^ 64 - 1 }
    requires out { W.failures out.old < 2 ^ 64 - 1 }
    ensures ran { OnOk result
        (RanSharded S.gives W.takes shape splits.now source.old out.old source.new out.new) }
    ensures ended { OnOk result (S.left source.new ≡ 0) }
    ensures done { IfOk result (λ ending. ending ≡ Done) }
    ensures steady { OnOk result
        (S.failures source.new + W.failures out.new ≡ S.failures source.old + W.failures out.old) }
    ensures device { IfErr result
        (λ why. IsDevice why (S.failures source.old + W.failures out.old)
        (S.failures source.new + W.failures out.new)) }
    ensures unread { IfErr result (λ why. Untouched why source.old source.new) }
    ensures unwritten { IfErr result (λ why. Untouched why out.old out.new) }
    ensures ends { IfErr result (λ why. EndsSharded why) }
    ensures stopped { IsErrOf result Refusal.Device
        → BrokeSharded S.gives W.takes W.failures shape splits.now source.old out.old source.new
        out.new }
    ensures shape { IsErrOf result Refusal.Shape ↔ ¬ (IsScriptShape shape) }
    ensures splits { IsErrOf result Refusal.Splits → SpellsBadSplits splits.now }
{
    if !is_script_shape(shape) {
        return Err(Refusal::Shape);
    }
    let script = open_at(rt, alloc, shape, splits)?;
    match run(rt, alloc, source, out, script) {
        Ok(()) => Ok(Ending::Done),
        Err(RunFault::Device) => Err(Refusal::Device),
        Err(RunFault::Memory(refused)) => Err(Refusal::Memory(refused)),
    }
}
