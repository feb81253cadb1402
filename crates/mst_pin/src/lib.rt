//! The pure core of pins and publication: which record is current, which record each pass pins,
//! which rows each record has, and which of the six events may come next.
//!
//! ```
//! let Some(mut core) = Core::new(2) else { .. };           // 2 passes, and so 4 records
//! core.step(Event::Publish { into: 1, rows: 0b11 });       // Done: record 1 has rows 0 and 1
//! core.step(Event::Transfer);                              // Done
//! core.step(Event::Pin(2));                                // Record(1)
//! core.step(Event::Write(0));                              // Refused: the current record has it
//! core.step(Event::Publish { into: 2, rows: 0b100 });      // Done: record 2 is current
//! core.step(Event::Transfer);                              // Done
//! core.step(Event::Ask(1));                                // No: pass 2 pins record 1
//! core.step(Event::Unpin(2));                              // Done
//! core.step(Event::Ask(1));                                // Yes
//! ```
//!
//! One writer publishes versions, each in a version record of its own. Any pass may pin the current
//! record, and then reads its rows for as long as it likes. So a row may be written, and a record
//! published over, only if no current and no pinned record has it. A pass pins by one xor into the
//! word CURRENT, which returns the record in the same step, and unpins by one xor into the record's
//! word DONE. The publish swaps CURRENT, and the mask of pins that it returns is then transferred
//! into the old record's DONE.
//!
//! [`Core`] keeps those words as the shared store does, and takes events one at a time. What it
//! says of them, [`pinned_rows_stay`] and [`writes_are_blank`] above all, is said of every order of
//! events. `specs/` has the state that the contracts speak of, with no word in it.
//!
//! There is no thread here, no row with anything in it and no map: `mst_words` has the words that
//! threads share, and `mst_replay` asks a core line by line.
#![tactic(auto)]

ghost use Rattle.std.specs.Prelude.{◌≡◌, ◌≤◌, ◌<◌, ◌↔◌, IsSome, IfSome, IfOk, OnErr};
ghost use Rattle.mst_pin.specs.Words.{IsKept};

mod event;
mod laws;
mod readers;
mod taken;
mod words;
mod writer;

pub use event::{Answer, Event, Memory};
pub use laws::{
    asks_tell_pins, other_rows_are_free, pinned_rows_stay, some_record_is_free, writes_are_blank,
};
use std::alloc::Allocator;
use words::Words;

/// Version records of the largest core: two more than its 32 passes.
const RECORDS: usize = 34;

/// The state of the pins: `passes` passes numbered from 1, `passes + 2` version records numbered
/// from 0, and 64 rows numbered from 0.
#[derive(Clone, Copy)]
pub struct Core {
    passes: u8,
    words: Words,

    // The rows of each record, row x as bit x.
    rows: [u64; RECORDS],

    // The number of each record's version, which no answer names.
    versions: [u64; RECORDS],
    ghost kept: { IsKept passes words },
}

impl Core {
    ghost use Rattle.mst_pin.specs.State.{opening, Steps, Runs};
    ghost use Rattle.mst_pin.specs.Core.{state};

    /// A core of `passes` passes: record 0 is current, no record has a row, and nothing is pinned.
    /// `None` outside 1 to 32 passes.
    pub fn new(passes: u8) -> Option<Core>
        ensures in_range { IsSome result ↔ ((0 < passes) × (passes ≤ 32)) }
        ensures opening { IfSome result (λ core. state core ≡ opening passes) }
    {
        if passes == 0 || passes > 32 {
            return None;
        }
        Some(Core {
            passes,
            words: Words::new(),
            rows: [0; RECORDS],
            versions: [0; RECORDS],
        })
    }

    /// Takes one event and returns the answer to it, or refuses it.
    pub fn step(&mut self, event: Event) -> Answer
        ensures step { Steps (state self.old) event result (state self.new) }
        ensures unchanged { result ≡ Answer.Refused → self.new ≡ self.old }
    {
        if !self.is_taken(event) {
            return Answer::Refused;
        }
        match event {
            Event::Pin(pass) => self.pin(pass),
            Event::Unpin(pass) => self.unpin(pass),
            Event::Write(_) => Answer::Done,
            Event::Publish { into, rows } => self.publish(into, rows),
            Event::Transfer => self.transfer(),
            Event::Ask(number) => self.ask(number),
        }
    }

    /// Takes events in order, and gives the answer to each. The memory for the answers is taken
    /// before the first event, so if it returns `Memory`, the core is as before.
    pub fn run<A: Allocator>(
        &mut self,
        alloc: A,
        events: &[Event],
    ) -> Result<Vec<Answer, A>, Memory>
        ensures ok { IfOk result (λ answers.
            Runs (state self.old) events.now answers.items (state self.new)) }
        ensures memory { OnErr result (self.new ≡ self.old) }
    {
        let mut answers = Vec::with_capacity(alloc, events.len())?;
        for event in events {
            answers.push(self.step(*event)).unwrap();
        }
        Ok(answers)
    }
}
