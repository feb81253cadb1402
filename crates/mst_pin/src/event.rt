//! The events that the core takes, and its answers.

use std::alloc::AllocError;
use thiserror::Error;

/// An event. Passes are numbered from 1, version records and rows from 0; a number that names none
/// of the core is refused.
#[derive(Clone, Copy)]
pub enum Event {
    /// The pass pins the current record.
    Pin(u8),
    /// The pass ends its pin.
    Unpin(u8),
    /// The writer writes a row.
    Write(u8),
    /// The writer makes a record current, with a set of rows: bit x of `rows` is row x.
    Publish { into: u8, rows: u64 },
    /// The writer puts the mask that its publish brought back into the old record's DONE.
    Transfer,
    /// The writer asks whether a record is drained: whether nobody pins it.
    Ask(u8),
}

/// The answer to an event.
#[derive(Clone, Copy, Debug, PartialEq, Eq)]
pub enum Answer {
    /// The record that was pinned.
    Record(u8),
    /// The event was taken.
    Done,
    /// The record is drained.
    Yes,
    /// Some pass pins the record.
    No,
    /// The event is not allowed here, and changed nothing.
    Refused,
}

/// The memory for the answers was refused.
#[derive(Debug, Drop, Error)]
#[error("memory")]
pub struct Memory {
    refused: AllocError,
}

impl From<AllocError> for Memory {
    fn from(refused: AllocError) -> Memory {
        Memory { refused }
    }
}
