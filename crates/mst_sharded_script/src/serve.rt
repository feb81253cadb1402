//! One line, asked of a script.
ghost use Rattle.std.specs.Prelude.{◌≡◌, ◌<◌, length, IfSome};
ghost use Rattle.mst_sharded_script.specs.Answers.{text_of};
ghost use Rattle.mst_sharded_script.specs.States.{Free, unpinned};
ghost use Rattle.mst_sharded_script.specs.Serving.{Step, StepsAt, Serves, PinnedStep, is_unpin as asks_unpin, migration_of};

use crate::answer::ShardedAnswer;
use crate::asking::act;
use crate::moving::{Stepped, migrate};
use crate::recalling::recall;
use crate::state::{Holding, Layout, Script, ScriptPass, put_back};
use mst_blocks::Writer;
use mst_key::Format;
use mst_lines::LineBuffer;
use mst_requests::{Answer, Command, request_in};
use mst_snapshots::{Reader, Snapshot};
use std::alloc::Allocator;
use std::sync::Wait;

// Whether a pass is asked to end its pin.
fn is_unpin(command: &Command<'_>) -> bool
    ensures { result ≡ asks_unpin command.now }
{
    matches!(command, Command::Unpin)
}

// The format that a pass is asked to migrate to, if it is.
fn migration_to(command: &Command<'_>) -> Option<Format>
    ensures { result ≡ migration_of command.now }
{
    match command {
        Command::Migrate(to) => Some(*to),
        _ => None,
    }
}

// Lets a pass that has pinned nothing do what it is asked for.
fn step_free<R: Wait, A: Allocator + Copy>(
    rt: &R,
    alloc: A,
    layout: &Layout<A>,
    writer: Writer<A>,
    reader: Reader<A>,
    command: &Command<'_>,
) -> Stepped<A>
    ensures step { Step command.now layout.now writer (Free reader) (text_of result.answer)
        result.writer result.pass result.new }
    ensures count { IfSome result.new (λ new. length new.readers ≡ layout.now.shape.passes) }
{
    match migration_to(command) {
        Some(to) => migrate(rt, alloc, layout, writer, reader, to),
        None => {
            let (answer, writer, pass) = act(rt, alloc, writer, reader, command, layout.before());
            Stepped {
                answer,
                writer,
                pass,
                new: None,
            }
        }
    }
}

// Ends a pin. Returns the reader of the pass.
fn unpin<A: Allocator + Copy>(snapshot: Snapshot<A>, spare: Option<Reader<A>>) -> Reader<A>
    ensures { result ≡ unpinned snapshot spare }
{
    let own = snapshot.release();
    match spare {
        Some(reader) => reader,
        None => own,
    }
}

// Lets a pass that has pinned a snapshot do what it is asked for.
fn step_pinned<A: Allocator + Copy>(
    alloc: A,
    snapshot: Snapshot<A>,
    spare: Option<Reader<A>>,
    command: &Command<'_>,
) -> (ShardedAnswer<A>, ScriptPass<A>)
    ensures { PinnedStep command.now snapshot spare (text_of result.0) result.1 }
{
    if is_unpin(command) {
        return (
            ShardedAnswer::Store(Answer::Unpinned),
            ScriptPass::free(unpin(snapshot, spare)),
        );
    }
    let mut snapshot = snapshot;
    let answer = recall(alloc, &mut snapshot, command);
    (answer, ScriptPass::pinned(snapshot, spare))
}

// Lets a pass do what it is asked for.
fn step<R: Wait, A: Allocator + Copy>(
    rt: &R,
    alloc: A,
    layout: &Layout<A>,
    writer: Writer<A>,
    pass: ScriptPass<A>,
    command: &Command<'_>,
) -> Stepped<A>
    ensures step { Step command.now layout.now writer pass (text_of result.answer) result.writer
        result.pass result.new }
    ensures count { IfSome result.new (λ new. length new.readers ≡ layout.now.shape.passes) }
{
    let ScriptPass { holding } = pass;
    match holding {
        Holding::Free(reader) => step_free(rt, alloc, layout, writer, reader, command),
        Holding::Pinned(snapshot, spare) => {
            let (answer, pass) = step_pinned(alloc, snapshot, spare, command);
            Stepped {
                answer,
                writer,
                pass,
                new: None,
            }
        }
    }
}

// Lets the pass at a place do what it is asked for. Until it stands there again, another one may.
fn step_at<R: Wait, A: Allocator + Copy>(
    rt: &R,
    alloc: A,
    script: Script<A>,
    place: usize,
    command: &Command<'_>,
) -> (ShardedAnswer<A>, Script<A>)
    requires there { place < length script.passes }
    ensures { StepsAt place command.now script (text_of result.0) result.1 }
{
    let Script {
        writer,
        mut passes,
        layout,
    } = script;
    let pass = passes.swap_remove(place);
    let Stepped {
        answer,
        writer,
        pass,
        new,
    } = step(rt, alloc, &layout, writer, pass, command);
    put_back(&mut passes, place, pass);
    let stepped = Script {
        writer,
        passes,
        layout,
    };
    match new {
        Some(new) => (answer, stepped.moved_to(new)),
        None => (answer, stepped),
    }
}

/// Lets the pass that a line names do what the line asks.
pub fn serve<R: Wait, A: Allocator + Copy>(
    rt: &R,
    alloc: A,
    script: Script<A>,
    line: &LineBuffer,
) -> (ShardedAnswer<A>, Script<A>)
    ensures { Serves script line.now (text_of result.0) result.1 }
{
    match request_in(line, script.passes()) {
        Ok(request) => {
            let place = request.pass as usize - 1;
            step_at(rt, alloc, script, place, &request.command)
        }
        Err(fault) => (ShardedAnswer::Store(Answer::Refused(fault)), script),
    }
}
