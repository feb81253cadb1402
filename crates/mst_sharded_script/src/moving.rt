//! Migrations: a map in the other format is opened, and takes the place of the old one.
ghost use Rattle.std.specs.Prelude.{◌≡◌, ◌≢◌, true, false, length, IfOk, IfErr, IfSome};
ghost use Rattle.mst_shards.specs.BlockHistory.{Whole};
ghost use Rattle.mst_shards.specs.Sharding.{map_of};
ghost use Rattle.mst_sharded_script.specs.Answers.{text_of};
ghost use Rattle.mst_sharded_script.specs.Serving.{puts_of, Loads, LacksMap, MovesTo, Moves, Migrates};

use crate::answer::{ShardedAnswer, block_answer};
use crate::opening::{Roles, open_map};
use crate::state::{Layout, NewMap, ScriptPass};
use crate::writing::make;
use mst_blocks::Writer;
use mst_key::{Edit, Format, Key, Memory, Value};
use mst_requests::Answer;
use mst_snapshots::{Reader, Snapshot};
use std::alloc::Allocator;
use std::sync::Wait;

// All pairs of a snapshot, in their order.
fn all_pairs<A: Allocator + Copy>(
    alloc: A,
    snapshot: &mut Snapshot<A>,
) -> Result<Vec<(Key, Value), A>, Memory>
    ensures all { IfOk result (λ pairs. pairs.items ≡ map_of snapshot.old.sharding) }
    ensures same { snapshot.new ≡ snapshot.old }
{
    snapshot.range(alloc, None, None, usize::MAX)
}

// The edits that put each of these pairs.
fn puts<A: Allocator>(alloc: A, pairs: Vec<(Key, Value), A>) -> Result<Vec<Edit, A>, Memory>
    ensures puts { IfOk result (λ list. list.items ≡ puts_of pairs.items) }
{
    let mut list = Vec::new(alloc);
    for pair in pairs {
        let (key, value) = pair;
        list.push(Edit::Put(key, value))?;
    }
    Ok(list)
}

// The edits that put all pairs of a snapshot.
fn puts_in<A: Allocator + Copy>(
    alloc: A,
    snapshot: &mut Snapshot<A>,
) -> Result<Vec<Edit, A>, Memory>
    ensures puts { IfOk result (λ edits. edits.items ≡ puts_of (map_of snapshot.old.sharding)) }
    ensures same { snapshot.new ≡ snapshot.old }
{
    let pairs = all_pairs(alloc, snapshot)?;
    puts(alloc, pairs)
}

// Opens a map in a format, and makes these edits in it, as its block 1.
fn open_with<R: Wait, A: Allocator + Copy>(
    rt: &R,
    alloc: A,
    layout: &Layout<A>,
    to: Format,
    edits: &[Edit],
) -> Result<Roles<A>, ShardedAnswer<A>>
    ensures ok { IfOk result (λ roles. (y : Whole) → edits.now ≡ puts_of (map_of y.sharding)
        → Loads to layout.now y roles.0 roles.1.items) }
    ensures count { IfOk result (λ roles. length roles.1.items ≡ layout.now.shape.passes) }
    ensures err { IfErr result (λ answer. (y : Whole) → edits.now ≡ puts_of (map_of y.sharding)
        → LacksMap to layout.now y (text_of answer)) }
{
    let (begun, readers) = match open_map(rt, alloc, layout.splits(), layout.shape_in(to)) {
        Ok(roles) => roles,
        Err(refused) => return Err(ShardedAnswer::Store(Answer::Memory(refused))),
    };
    let (writer, made) = begun.apply(alloc, edits);
    match made {
        Ok(_) => Ok((writer, readers)),
        Err(fault) => Err(block_answer(fault)),
    }
}

// Opens a map in a format, and puts all pairs of a snapshot into it, as its block 1.
fn load<R: Wait, A: Allocator + Copy>(
    rt: &R,
    alloc: A,
    layout: &Layout<A>,
    to: Format,
    snapshot: &mut Snapshot<A>,
) -> Result<Roles<A>, ShardedAnswer<A>>
    ensures ok { IfOk result
        (λ roles. Loads to layout.now snapshot.old roles.0 roles.1.items) }
    ensures count { IfOk result (λ roles. length roles.1.items ≡ layout.now.shape.passes) }
    ensures err { IfErr result
        (λ answer. LacksMap to layout.now snapshot.old (text_of answer)) }
    ensures same { snapshot.new ≡ snapshot.old }
{
    match puts_in(alloc, snapshot) {
        Ok(edits) => open_with(rt, alloc, layout, to, edits.as_slice()),
        Err(refused) => Err(ShardedAnswer::Store(Answer::Memory(refused))),
    }
}

// What a migration comes to: what is answered, and the new map if there is one.
type MoveEnd<A> = (ShardedAnswer<A>, Option<NewMap<A>>);

// Moves to a map in the other format.
fn move_map<R: Wait, A: Allocator + Copy>(
    rt: &R,
    alloc: A,
    layout: &Layout<A>,
    writer: &Writer<A>,
    formats: (Format, Format),
    snapshot: &mut Snapshot<A>,
) -> MoveEnd<A>
    ensures moves { Moves formats.0 formats.1 layout.now writer.now snapshot.old
        (text_of result.0) result.1 }
    ensures count { IfSome result.1 (λ new. length new.readers ≡ layout.now.shape.passes) }
    ensures same { snapshot.new ≡ snapshot.old }
{
    let (was, to) = formats;
    let Some(before) = layout.before.checked_add(writer.number()) else {
        return (ShardedAnswer::Store(Answer::Spent), None);
    };
    match load(rt, alloc, layout, to, snapshot) {
        Ok((writer, readers)) => (
            ShardedAnswer::Store(Answer::Was(was)),
            Some(NewMap {
                writer,
                readers,
                format: to,
                before,
            }),
        ),
        Err(answer) => (answer, None),
    }
}

/// What a line is answered, the writer and the pass then, and the map that takes the place of the
/// old one.
#[derive(Drop)]
pub struct Stepped<A: Allocator + Copy> {
    pub(crate) answer: ShardedAnswer<A>,
    pub(crate) writer: Writer<A>,
    pub(crate) pass: ScriptPass<A>,
    pub(crate) new: Option<NewMap<A>>,
}

// Whether a format is the one that stands.
fn stands(was: Format, to: Format) -> bool
    ensures yes { result ≡ true → was ≡ to }
    ensures no { result ≡ false → was ≢ to }
{
    was == to
}

/// Lets a pass migrate that has pinned nothing: to the format that stands by a block of no edits,
/// and to the other one by a move.
pub fn migrate<R: Wait, A: Allocator + Copy>(
    rt: &R,
    alloc: A,
    layout: &Layout<A>,
    writer: Writer<A>,
    reader: Reader<A>,
    to: Format,
) -> Stepped<A>
    ensures migrates { Migrates to layout.now writer reader (text_of result.answer) result.writer
        result.pass result.new }
    ensures count { IfSome result.new (λ new. length new.readers ≡ layout.now.shape.passes) }
{
    let mut snapshot = reader.snapshot(rt);
    let was = snapshot.format();
    if stands(was, to) {
        let told = ShardedAnswer::Store(Answer::Was(was));
        let (answer, writer) = make(alloc, writer, &[], told);
        let pass = ScriptPass::free(snapshot.release());
        return Stepped {
            answer,
            writer,
            pass,
            new: None,
        };
    }
    let (answer, new) = move_map(rt, alloc, layout, &writer, (was, to), &mut snapshot);
    let pass = ScriptPass::free(snapshot.release());
    Stepped {
        answer,
        writer,
        pass,
        new,
    }
}
