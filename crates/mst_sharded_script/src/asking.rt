//! What a pass is asked for that has pinned nothing, but to migrate.
ghost use Rattle.std.specs.Prelude.{◌≡◌, ◌≢◌, ℕ, List, true, None};
ghost use Rattle.mst_key.specs.declared.history.Edit.{Edit};
ghost use Rattle.mst_requests.specs.declared.request.Command.TheVariants.{Put, Remove, Batch};
ghost use Rattle.mst_script.specs.Machine.{IsMispinned};
ghost use Rattle.mst_shards.specs.BlockHistory.{Whole};
ghost use Rattle.mst_sharded_script.specs.Answers.{text_of};
ghost use Rattle.mst_sharded_script.specs.Serving.{Acts, Gets, LooksAt, Pins, is_look, migration_of};
ghost use Rattle.mst_sharded_script.specs.States.{Free};

use crate::answer::ShardedAnswer;
use crate::recalling::recall;
use crate::state::ScriptPass;
use crate::writing::{apply, put, remove};
use mst_blocks::Writer;
use mst_key::Key;
use mst_requests::{Answer, Command, Fault};
use mst_snapshots::Reader;
use std::alloc::Allocator;
use std::sync::Wait;

// Asks a snapshot that is taken for this line alone.
fn look<R: Wait, A: Allocator + Copy>(
    rt: &R,
    alloc: A,
    reader: Reader<A>,
    command: &Command<'_>,
) -> (ShardedAnswer<A>, ScriptPass<A>)
    requires look { is_look command.now ≡ true }
    ensures { LooksAt command.now reader (text_of result.0) result.1 }
{
    let mut snapshot = reader.snapshot(rt);
    let answer = recall(alloc, &mut snapshot, command);
    (answer, ScriptPass::free(snapshot.release()))
}

// Pins the last block that was published, and tells the number of its version.
fn pin<R: Wait, A: Allocator + Copy>(
    rt: &R,
    reader: Reader<A>,
    before: u64,
) -> (ShardedAnswer<A>, ScriptPass<A>)
    ensures { Pins before reader (text_of result.0) result.1 }
{
    let snapshot = reader.snapshot(rt);
    match before.checked_add(snapshot.number()) {
        Some(version) => (
            ShardedAnswer::Store(Answer::Pinned(version)),
            ScriptPass::pinned(snapshot, None),
        ),
        None => (
            ShardedAnswer::Store(Answer::Spent),
            ScriptPass::free(snapshot.release()),
        ),
    }
}

// Asks a reader for a look-up.
fn get<A: Allocator + Copy>(reader: Reader<A>, key: &Key) -> (ShardedAnswer<A>, ScriptPass<A>)
    ensures gets { (q : Whole) × Gets key.now reader (text_of result.0) q × (result.1 ≡ Free q) }
{
    let mut reader = reader;
    let found = reader.get(key);
    (
        ShardedAnswer::Store(Answer::Value(found)),
        ScriptPass::free(reader),
    )
}

// The answer of a pass that has pinned nothing and is to end a pin.
fn mispinned<A: Allocator>() -> ShardedAnswer<A>
    ensures { IsMispinned (text_of result) }
{
    ShardedAnswer::Store(Answer::Refused(Fault::Pinning))
}

// Asks a reader for what makes no block. The writer waits meanwhile.
fn read<R: Wait, A: Allocator + Copy>(
    rt: &R,
    alloc: A,
    reader: Reader<A>,
    command: &Command<'_>,
    before: u64,
) -> (ShardedAnswer<A>, ScriptPass<A>)
    requires put { (k v : List ℕ) → command.now ≢ Put k v }
    requires remove { (k : List ℕ) → command.now ≢ Remove k }
    requires batch { (es : List Edit) → command.now ≢ Batch es }
    requires other { migration_of command.now ≡ None }
    ensures { (w : Whole) → Acts command.now before w reader (text_of result.0) w result.1 }
{
    match command {
        Command::Get(key) => get(reader, key),
        Command::Pin => pin(rt, reader, before),
        Command::Node => (ShardedAnswer::NoSuch, ScriptPass::free(reader)),
        Command::Rows => (ShardedAnswer::NoSuch, ScriptPass::free(reader)),
        Command::Unpin => (mispinned(), ScriptPass::free(reader)),
        _ => look(rt, alloc, reader, command),
    }
}

/// What a line is answered, and the writer and the pass then.
pub type Acted<A> = (ShardedAnswer<A>, Writer<A>, ScriptPass<A>);

/// Lets a pass do what it is asked for that has pinned nothing.
pub fn act<R: Wait, A: Allocator + Copy>(
    rt: &R,
    alloc: A,
    writer: Writer<A>,
    reader: Reader<A>,
    command: &Command<'_>,
    before: u64,
) -> Acted<A>
    requires other { migration_of command.now ≡ None }
    ensures { Acts command.now before writer reader (text_of result.0) result.1 result.2 }
{
    match command {
        Command::Put(key, value) => {
            let (answer, writer) = put(alloc, writer, key, value);
            (answer, writer, ScriptPass::free(reader))
        }
        Command::Remove(key) => {
            let (answer, writer) = remove(alloc, writer, key);
            (answer, writer, ScriptPass::free(reader))
        }
        Command::Batch(edits) => {
            let (answer, writer) = apply(alloc, writer, edits);
            (answer, writer, ScriptPass::free(reader))
        }
        _ => {
            let (answer, pass) = read(rt, alloc, reader, command, before);
            (answer, writer, pass)
        }
    }
}
