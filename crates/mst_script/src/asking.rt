//! What a pass is asked for that pins no version, as one call of that pass.
ghost use Rattle.std.specs.Prelude.{◌≡◌, ◌<◌, ◌^◌, false, length};
ghost use Rattle.std.specs.Option.{option_copied};
ghost use Rattle.mst_requests.specs.declared.request.Command.TheVariants.{Range, Node, Prove, Batch};
ghost use Rattle.mst_requests.specs.Answers.{text_of};
ghost use Rattle.mst_script.specs.Answers.{rows_answer, write_answer, migration_answer, batch_answer};
ghost use Rattle.mst_script.specs.Serving.{Asked, Tops, is_pin};

use mst_key::{Format, Key, Value};
use mst_node::top_text;
use mst_requests::{Answer, Command, Edits, Fault};
use mst_store::{ApplyFault, Busy, Memory, MigrateFault, Pass, WriteFault};
use std::alloc::Allocator;

// How many rows the map takes, as an answer.
fn rows_answer_of<A: Allocator>(found: Result<Option<u32>, Busy>) -> Answer<A>
    ensures { result ≡ rows_answer found }
{
    match found {
        Ok(rows) => Answer::Rows(rows),
        Err(Busy) => Answer::Busy,
    }
}

// What a write returned, as an answer.
fn write_answer_of<A: Allocator>(written: Result<Option<Value>, WriteFault>) -> Answer<A>
    ensures { result ≡ write_answer written }
{
    match written {
        Ok(old) => Answer::Value(old),
        Err(WriteFault::Busy) => Answer::Busy,
        Err(WriteFault::VersionsSpent) => Answer::Spent,
        Err(WriteFault::NoRoom) => Answer::NoRoom,
    }
}

// What a migration returned, as an answer.
fn migration_answer_of<A: Allocator>(migrated: Result<Format, MigrateFault>) -> Answer<A>
    ensures { result ≡ migration_answer migrated }
{
    match migrated {
        Ok(format) => Answer::Was(format),
        Err(MigrateFault::Busy) => Answer::Busy,
        Err(MigrateFault::VersionsSpent) => Answer::Spent,
        Err(MigrateFault::Memory(refused)) => Answer::Memory(refused),
        Err(MigrateFault::NoRoom) => Answer::NoRoom,
    }
}

// What a batch returned, as an answer.
fn batch_answer_of<A: Allocator>(applied: Result<(), ApplyFault>) -> Answer<A>
    ensures { result ≡ batch_answer applied }
{
    match applied {
        Ok(()) => Answer::Done,
        Err(ApplyFault::Busy) => Answer::Busy,
        Err(ApplyFault::VersionsSpent) => Answer::Spent,
        Err(ApplyFault::Memory(refused)) => Answer::Memory(refused),
        Err(ApplyFault::NoRoom) => Answer::NoRoom,
    }
}

// Asks a pass to make the edits of a batch.
fn ask_batch<A: Allocator + Copy, B: Allocator + Copy>(
    alloc: A,
    pass: &mut Pass<'_, B>,
    edits: &Edits<'_>,
) -> Answer<A>
    ensures { Asked (Batch edits.now) pass.old (text_of result) pass.new }
{
    match edits.to_vec(alloc) {
        Ok(list) => batch_answer_of(pass.try_apply(alloc, list.as_slice())),
        Err(refused) => Answer::Memory(refused),
    }
}

// Asks a pass for the pairs between two bounds.
fn ask_range<A: Allocator, B: Allocator + Copy>(
    alloc: A,
    pass: &mut Pass<'_, B>,
    from: Option<&Key>,
    to: Option<&Key>,
    limit: u32,
) -> Answer<A>
    ensures { Asked (Range (option_copied from.entry) (option_copied to.entry) limit)
        pass.old (text_of result) pass.new }
{
    match pass.range(alloc, from, to, limit as usize) {
        Ok(pairs) => Answer::Pairs(pairs),
        Err(refused) => Answer::Memory(refused),
    }
}

// Asks a pass for the proof of the map's answer for a key.
fn ask_proof<A: Allocator + Copy, B: Allocator + Copy>(
    alloc: A,
    pass: &mut Pass<'_, B>,
    key: &Key,
) -> Answer<A>
    ensures { Asked (Prove key.now) pass.old (text_of result) pass.new }
{
    match pass.prove(alloc, key) {
        Ok(proof) => Answer::Bytes(proof),
        Err(refused) => Answer::Memory(refused),
    }
}

/// The text of the top node, which stands first in each proof.
pub fn top_of<A: Allocator>(alloc: A, proof: &[u8]) -> Answer<A>
    requires short { length proof.now < 2 ^ 32 }
    ensures { Tops proof.now (text_of result) }
{
    let Some(top) = top_text(proof) else {
        return Answer::NoNode;
    };
    match top.to_vec(alloc) {
        Ok(text) => Answer::Bytes(text),
        Err(refused) => Answer::Memory(Memory::from(refused)),
    }
}

// Asks a pass for the text of the top node.
fn ask_node<A: Allocator + Copy, B: Allocator + Copy>(alloc: A, pass: &mut Pass<'_, B>) -> Answer<A>
    ensures { Asked Node pass.old (text_of result) pass.new }
{
    let Ok(least) = Key::new(&[0]) else {
        unreachable!();
    };
    match pass.prove(alloc, &least) {
        Ok(proof) => top_of(alloc, proof.as_slice()),
        Err(refused) => Answer::Memory(refused),
    }
}

/// Lets a pass that pins no version do what it is asked for, but to pin one.
pub fn ask<A: Allocator + Copy, B: Allocator + Copy>(
    alloc: A,
    pass: &mut Pass<'_, B>,
    command: &Command<'_>,
) -> Answer<A>
    requires other { is_pin command.now ≡ false }
    ensures { Asked command.now pass.old (text_of result) pass.new }
{
    match command {
        Command::Put(key, value) => write_answer_of(pass.try_put(key, value)),
        Command::Remove(key) => write_answer_of(pass.try_remove(key)),
        Command::Migrate(to) => migration_answer_of(pass.try_migrate(alloc, *to)),
        Command::Batch(edits) => ask_batch(alloc, pass, edits),
        Command::Get(key) => Answer::Value(pass.get(key)),
        Command::Next(bound) => Answer::Pair(pass.next(bound.as_ref())),
        Command::Range(from, to, limit) => {
            ask_range(alloc, pass, from.as_ref(), to.as_ref(), *limit)
        }
        Command::Root => Answer::Root(pass.root()),
        Command::Node => ask_node(alloc, pass),
        Command::Prove(key) => ask_proof(alloc, pass, key),
        Command::Format => Answer::Format(pass.format()),
        Command::Rows => rows_answer_of(pass.rows()),
        Command::Unpin => Answer::Refused(Fault::Pinning),
        // a pin is no call of a pass that stays free
        Command::Pin => Answer::Refused(Fault::Pinning),
    }
}
