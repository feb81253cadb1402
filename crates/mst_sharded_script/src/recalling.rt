//! What a snapshot is asked for.
ghost use Rattle.std.specs.Prelude.{◌≡◌, false};
ghost use Rattle.std.specs.Option.{option_copied};
ghost use Rattle.mst_requests.specs.declared.request.Command.TheVariants.{Range, Prove};
ghost use Rattle.mst_sharded_script.specs.Answers.{text_of};
ghost use Rattle.mst_sharded_script.specs.Serving.{Finds, Recalls, is_unpin};

use crate::answer::ShardedAnswer;
use mst_key::Key;
use mst_requests::{Answer, Command, Fault};
use mst_snapshots::Snapshot;
use std::alloc::Allocator;

// Asks a snapshot for the pairs between two bounds.
fn recall_range<A: Allocator + Copy>(
    alloc: A,
    snapshot: &mut Snapshot<A>,
    from: Option<&Key>,
    to: Option<&Key>,
    limit: u32,
) -> ShardedAnswer<A>
    ensures found { Finds (Range (option_copied from.entry) (option_copied to.entry) limit)
        snapshot.old (text_of result) }
    ensures same { snapshot.new ≡ snapshot.old }
{
    match snapshot.range(alloc, from, to, limit as usize) {
        Ok(pairs) => ShardedAnswer::Store(Answer::Pairs(pairs)),
        Err(refused) => ShardedAnswer::Store(Answer::Memory(refused)),
    }
}

// Asks a snapshot for the proof of the map's answer for a key.
fn recall_proof<A: Allocator + Copy>(
    alloc: A,
    snapshot: &mut Snapshot<A>,
    key: &Key,
) -> ShardedAnswer<A>
    ensures found { Finds (Prove key.now) snapshot.old (text_of result) }
    ensures same { snapshot.new ≡ snapshot.old }
{
    match snapshot.prove(alloc, key) {
        Ok(proof) => ShardedAnswer::Store(Answer::Bytes(proof)),
        Err(refused) => ShardedAnswer::Store(Answer::Memory(refused)),
    }
}

/// Lets a snapshot read its block as it is asked to. It makes no write, no migration and no batch,
/// and pins nothing else.
pub fn recall<A: Allocator + Copy>(
    alloc: A,
    snapshot: &mut Snapshot<A>,
    command: &Command<'_>,
) -> ShardedAnswer<A>
    requires other { is_unpin command.now ≡ false }
    ensures found { Recalls command.now snapshot.old (text_of result) }
    ensures same { snapshot.new ≡ snapshot.old }
{
    match command {
        Command::Get(key) => ShardedAnswer::Store(Answer::Value(snapshot.get(key))),
        Command::Next(bound) => ShardedAnswer::Store(Answer::Pair(snapshot.next(bound.as_ref()))),
        Command::Range(from, to, limit) => {
            recall_range(alloc, snapshot, from.as_ref(), to.as_ref(), *limit)
        }
        Command::Root => ShardedAnswer::Store(Answer::Root(snapshot.root())),
        Command::Prove(key) => recall_proof(alloc, snapshot, key),
        Command::Format => ShardedAnswer::Store(Answer::Format(snapshot.format())),
        Command::Node | Command::Rows => ShardedAnswer::NoSuch,
        Command::Put(..)
        | Command::Remove(_)
        | Command::Batch(_)
        | Command::Migrate(_)
        | Command::Pin
        | Command::Unpin => ShardedAnswer::Store(Answer::Refused(Fault::Pinning)),
    }
}
