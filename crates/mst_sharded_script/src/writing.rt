//! What a pass writes, by the one writer of the map.
ghost use Rattle.mst_key.specs.declared.history.Edit.TheVariants as edit;
ghost use Rattle.mst_sharded_script.specs.Answers.{text_of};
ghost use Rattle.mst_sharded_script.specs.Serving.{Makes, Writes, Applies};

use crate::answer::{ShardedAnswer, block_answer};
use mst_blocks::{Overtaken, Writer};
use mst_key::{Edit, Key, Value};
use mst_requests::{Answer, Edits};
use std::alloc::Allocator;

/// What a line is answered, and the writer.
pub type Written<A> = (ShardedAnswer<A>, Writer<A>);

/// Makes edits as the next block, and answers so if they are made.
pub fn make<A: Allocator + Copy>(
    alloc: A,
    writer: Writer<A>,
    edits: &[Edit],
    done: ShardedAnswer<A>,
) -> Written<A>
    ensures { Makes (text_of done) edits.now writer (text_of result.0) result.1 }
{
    let (writer, made) = writer.apply(alloc, edits);
    match made {
        Ok(_) => (done, writer),
        Err(fault) => (block_answer(fault), writer),
    }
}

// Makes an edit as a block of its own, and answers which value its key had.
fn write<A: Allocator + Copy>(alloc: A, writer: Writer<A>, edit: Edit) -> Written<A>
    ensures { Writes edit writer (text_of result.0) result.1 }
{
    let mut writer = writer;
    let found = writer.get(edit.key());
    match found {
        Ok(old) => {
            let edits = [edit];
            let told = ShardedAnswer::Store(Answer::Value(old));
            make(alloc, writer, &edits, told)
        }
        Err(Overtaken) => (ShardedAnswer::Overtaken, writer),
    }
}

/// Gives a key a value, and answers which value it had.
pub fn put<A: Allocator + Copy>(alloc: A, writer: Writer<A>, key: &Key, value: &Value) -> Written<A>
    ensures { Writes (edit.Put key.now value.now) writer (text_of result.0) result.1 }
{
    write(alloc, writer, Edit::Put(key.copy(), value.copy()))
}

/// Takes a key out of the map, and answers which value it had.
pub fn remove<A: Allocator + Copy>(alloc: A, writer: Writer<A>, key: &Key) -> Written<A>
    ensures { Writes (edit.Remove key.now) writer (text_of result.0) result.1 }
{
    write(alloc, writer, Edit::Remove(key.copy()))
}

/// Makes the edits of a batch as one block.
pub fn apply<A: Allocator + Copy>(alloc: A, writer: Writer<A>, edits: &Edits<'_>) -> Written<A>
    ensures { Applies edits.now writer (text_of result.0) result.1 }
{
    match edits.to_vec(alloc) {
        Ok(list) => {
            let told = ShardedAnswer::Store(Answer::Done);
            make(alloc, writer, list.as_slice(), told)
        }
        Err(refused) => (ShardedAnswer::Store(Answer::Memory(refused)), writer),
    }
}
