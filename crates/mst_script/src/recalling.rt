//! What a pass is asked for that pins a version, as one call of that pass.
ghost use Rattle.std.specs.Prelude.{◌≡◌, false};
ghost use Rattle.std.specs.Option.{option_copied};
ghost use Rattle.mst_key.specs.History.{after as after_events};
ghost use Rattle.mst_requests.specs.declared.request.Command.TheVariants.{Range, Node, Prove};
ghost use Rattle.mst_requests.specs.Answers.{text_of};
ghost use Rattle.mst_store.specs.Passes.{format_seen};
ghost use Rattle.mst_script.specs.Machine.{Recalls};
ghost use Rattle.mst_script.specs.Serving.{is_unpin};

use crate::asking::top_of;
use mst_key::Key;
use mst_requests::{Answer, Command, Fault};
use mst_store::Pinned;
use std::alloc::Allocator;

// Asks a pinned pass for the pairs between two bounds.
fn recall_range<A: Allocator, B: Allocator + Copy>(
    alloc: A,
    pinned: &mut Pinned<'_, B>,
    from: Option<&Key>,
    to: Option<&Key>,
    limit: u32,
) -> Answer<A>
    ensures found { Recalls (Range (option_copied from.entry) (option_copied to.entry) limit)
        (format_seen pinned.old) (after_events pinned.old.seen) (text_of result) }
    ensures same { pinned.new ≡ pinned.old }
{
    match pinned.range(alloc, from, to, limit as usize) {
        Ok(pairs) => Answer::Pairs(pairs),
        Err(refused) => Answer::Memory(refused),
    }
}

// Asks a pinned pass for the proof of its map's answer for a key.
fn recall_proof<A: Allocator + Copy, B: Allocator + Copy>(
    alloc: A,
    pinned: &mut Pinned<'_, B>,
    key: &Key,
) -> Answer<A>
    ensures found { Recalls (Prove key.now)
        (format_seen pinned.old) (after_events pinned.old.seen) (text_of result) }
    ensures same { pinned.new ≡ pinned.old }
{
    match pinned.prove(alloc, key) {
        Ok(proof) => Answer::Bytes(proof),
        Err(refused) => Answer::Memory(refused),
    }
}

// Asks a pinned pass for the text of the top node.
fn recall_node<A: Allocator + Copy, B: Allocator + Copy>(
    alloc: A,
    pinned: &mut Pinned<'_, B>,
) -> Answer<A>
    ensures found { Recalls Node
        (format_seen pinned.old) (after_events pinned.old.seen) (text_of result) }
    ensures same { pinned.new ≡ pinned.old }
{
    let Ok(least) = Key::new(&[0]) else {
        unreachable!();
    };
    match pinned.prove(alloc, &least) {
        Ok(proof) => top_of(alloc, proof.as_slice()),
        Err(refused) => Answer::Memory(refused),
    }
}

/// Lets a pinned pass read its version as it is asked to. It makes no write, no migration and
/// no batch, counts no rows and pins no other version.
pub fn recall<A: Allocator + Copy, B: Allocator + Copy>(
    alloc: A,
    pinned: &mut Pinned<'_, B>,
    command: &Command<'_>,
) -> Answer<A>
    requires other { is_unpin command.now ≡ false }
    ensures found { Recalls command.now
        (format_seen pinned.old) (after_events pinned.old.seen) (text_of result) }
    ensures same { pinned.new ≡ pinned.old }
{
    match command {
        Command::Get(key) => Answer::Value(pinned.get(key)),
        Command::Next(bound) => Answer::Pair(pinned.next(bound.as_ref())),
        Command::Range(from, to, limit) => {
            recall_range(alloc, pinned, from.as_ref(), to.as_ref(), *limit)
        }
        Command::Root => Answer::Root(pinned.root()),
        Command::Node => recall_node(alloc, pinned),
        Command::Prove(key) => recall_proof(alloc, pinned, key),
        Command::Format => Answer::Format(pinned.format()),
        Command::Put(..)
        | Command::Remove(_)
        | Command::Migrate(_)
        | Command::Batch(_)
        | Command::Rows
        | Command::Pin
        | Command::Unpin => Answer::Refused(Fault::Pinning),
    }
}
