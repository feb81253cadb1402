//! The core of pins: all orders of some events, memory that is refused, and rows above 63.
mod interleavings;

use crate::confirming::confirm_at;
use crate::heaps::heap_of;
use linked_list_allocator::LocalHeap;
use mst_pin::{Answer, Core, Event, Memory};
use std::alloc::Global;
use std::process::Abort;

/// The answer to an event. It has no contract, so that what calls it is proved from few facts.
fn answer_to(core: &mut Core, event: Event) -> Answer {
    core.step(event)
}

/// The core answers these events so.
fn each_is_answered(rt: &impl Abort, core: &mut Core, lines: &[(Event, Answer)]) {
    for (line, (event, answer)) in lines.iter().enumerate() {
        confirm_at(rt, answer_to(core, *event) == *answer, line);
    }
}

/// More events than the small heap has room for answers.
const MANY: &[Event] = &[Event::Transfer; 64];

const FEW: &[Event] = &[
    Event::Pin(1),
    Event::Publish { into: 1, rows: 1 },
    Event::Transfer,
    Event::Ask(0),
];

/// What a core of one pass answers to the few.
const ANSWERS: &[Answer] = &[Answer::Record(0), Answer::Done, Answer::Done, Answer::No];

/// Whether this prints `memory`.
fn prints_memory(rt: &impl Abort, alloc: Global, refused: &Memory) -> bool {
    let shown = format!(in alloc; "{refused}").expect(rt, "memory");
    shown.as_str() == "memory"
}

/// Whether the heap refuses the memory for the answers to many events.
fn refuses(rt: &impl Abort, alloc: Global, core: &mut Core, heap: &LocalHeap) -> bool {
    match core.run(heap, MANY) {
        Ok(_) => false,
        Err(refused) => prints_memory(rt, alloc, &refused),
    }
}

/// Whether it has room for those to the few, which are as expected.
fn answers(core: &mut Core, heap: &LocalHeap) -> bool {
    match core.run(heap, FEW) {
        Ok(answers) => answers.as_slice() == ANSWERS,
        Err(_) => false,
    }
}

/// Whether a small heap refuses the memory for many answers, each time it is asked.
fn is_refused(rt: &impl Abort, alloc: Global, core: &mut Core) -> bool {
    let heap = heap_of(rt, alloc, 32);
    refuses(rt, alloc, core, &heap) && refuses(rt, alloc, core, &heap)
}

/// Whether a larger one has room for few.
fn is_answered(rt: &impl Abort, alloc: Global, core: &mut Core) -> bool {
    let heap = heap_of(rt, alloc, 1024);
    answers(core, &heap)
}

/// The rows that no line of a replay names, and the last one that it does.
const ROWS: &[(Event, Answer)] = &[
    (Event::Write(64), Answer::Refused),
    (Event::Write(65), Answer::Refused),
    (Event::Write(255), Answer::Refused),
    (Event::Write(63), Answer::Done),
];

#[test]
fn rows_above_63_are_refused(rt: HostRuntime) {
    let mut core = Core::new(1).expect(&rt, "1 to 32 passes");
    each_is_answered(&rt, &mut core, ROWS);
}

#[test]
fn memory_is_taken_before_the_first_event(rt: HostRuntime) {
    let mut core = Core::new(1).expect(&rt, "1 to 32 passes");
    let refused = is_refused(&rt, rt.alloc(), &mut core);
    assert!(rt; refused && is_answered(&rt, rt.alloc(), &mut core));
}
