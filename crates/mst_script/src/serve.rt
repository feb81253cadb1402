//! One line, asked of the passes of a store.
ghost use Rattle.std.specs.Prelude.{◌≡◌};
ghost use Rattle.mst_requests.specs.Answers.{text_of};
ghost use Rattle.mst_requests.specs.Grammar.{IsDealt};
ghost use Rattle.mst_script.specs.Serving.{AreAllOf, everyone, is_pin as asks_pin, is_unpin as asks_unpin, Does, Serves};

use crate::passes::{PassPlace, Passes};
use mst_lines::LineBuffer;
use mst_requests::{Answer, Command, Request, request_in};
use mst_store::Store;
use std::alloc::Allocator;

// Whether a pass is asked to pin a version.
fn is_pin(command: &Command<'_>) -> bool
    ensures { result ≡ asks_pin command.now }
{
    matches!(command, Command::Pin)
}

// Whether a pass is asked to end its pin.
fn is_unpin(command: &Command<'_>) -> bool
    ensures { result ≡ asks_unpin command.now }
{
    matches!(command, Command::Unpin)
}

// Lets the pass that is named do what it is asked for.
fn answer<A: Allocator + Copy, B: Allocator, C: Allocator + Copy>(
    alloc: A,
    store: &Store<C>,
    passes: &mut Passes<'_, B, C>,
    request: &Request<'_>,
) -> Answer<A>
    requires whole { AreAllOf store.now (everyone passes.old) }
    requires dealt { IsDealt store.now.passes request.now }
    ensures whole { AreAllOf store.now (everyone passes.new) }
    ensures does { Does store.now request.now.pass request.now.command passes.old
        (text_of result) passes.new }
{
    let command = &request.command;
    match passes.find(request.pass) {
        PassPlace::Free(place) => {
            if is_pin(command) {
                return Answer::Pinned(passes.pin(place));
            }
            passes.ask(alloc, place, command)
        }
        PassPlace::Pinned(place) => {
            if is_unpin(command) {
                passes.unpin(place);
                return Answer::Unpinned;
            }
            passes.recall(alloc, place, command)
        }
    }
}

/// Lets the pass that a line names do what the line asks, and then all passes settle.
pub fn serve<A: Allocator + Copy, B: Allocator, C: Allocator + Copy>(
    alloc: A,
    store: &Store<C>,
    passes: &mut Passes<'_, B, C>,
    line: &LineBuffer,
) -> Answer<A>
    requires whole { AreAllOf store.now (everyone passes.old) }
    ensures whole { AreAllOf store.now (everyone passes.new) }
    ensures serves { Serves store.now passes.old line.now (text_of result) passes.new }
{
    let request = match request_in(line, store.passes()) {
        Ok(request) => request,
        Err(fault) => return Answer::Refused(fault),
    };
    let answer = answer(alloc, store, passes, &request);
    passes.settle();
    answer
}
