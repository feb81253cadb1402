//! What a pass knows of the table.
use mst_arena::Life;
use mst_key::{Event, Format};
use std::collections::LinkedList;

/// The size of a store: how many rows it has (4 to 65,535) and how many passes (1 to 32); and the
/// format of its version 0.
#[derive(Clone, Copy, Debug, PartialEq, Eq)]
pub struct Shape {
    pub rows: u32,
    pub passes: u32,
    pub format: Format,
}

/// What the desk knows, as contracts see it.
pub struct DeskState {
    /// The record of the current version.
    pub current: u32,
    /// The version of each record.
    pub versions: LinkedList<u64>,
    /// The life of each row.
    pub lives: LinkedList<Life>,
}

/// What a seat at the table knows. It exists in contracts alone: no value of it is ever made.
pub struct View {
    /// The number of the pass, from 1. A seat that is no pass has 0.
    pub number: u32,
    /// The size of the store.
    pub rows: u32,
    pub passes: u32,
    /// The format of the store's version 0.
    pub format: Format,
    /// At the dealer's seat the number of the next pass that it deals, otherwise 0.
    pub deals: u32,
    /// The beginning of the history that the pass has seen.
    pub seen: LinkedList<Event<'static>>,
    /// The events of the pass itself.
    pub mine: LinkedList<Event<'static>>,
    /// A beginning of the history that another pass has told of.
    pub told: LinkedList<Event<'static>>,
    /// The record that the pass pins.
    pub pin: Option<u32>,
    /// The history at the pin.
    pub pinned_history: LinkedList<Event<'static>>,
    /// The numbers of the rows that stand for the map of the pinned version.
    pub pinned_rows: LinkedList<u32>,
    /// The words of the table as they were at the pin, or when the turn was taken and with what its
    /// holder has stored since.
    pub known_words: LinkedList<u64>,
    /// Whether the pass has the turn.
    pub turn: bool,
    /// What the desk knew when the turn was taken, and from a publication on what it then knew.
    pub desk: DeskState,
    /// The record that was current before the publication whose transfer waits.
    pub due: Option<u32>,
    /// The mask that came back from the last publication.
    pub mask: u64,
    /// The records that the holder of the turn has found drained.
    pub drained: LinkedList<u32>,
    /// The records that it has found pinned.
    pub blocked: LinkedList<u32>,
    /// The word of the current record, as the holder of the turn has noted it.
    pub noted: Option<u64>,
    /// The versions that the seat found pinned when it had the turn last, in the order in which it
    /// asked. No part of the rule speaks of them, and they stay when the turn is given back.
    pub found: LinkedList<u64>,
    /// How many steps of the seat had an answer that depends on what other passes do: a try of the
    /// turn, a pin, a publication, a load of the word of the current record, a question to a
    /// record, and a note that was heard. No part of the rule speaks of it, and no other step
    /// changes it.
    pub asked: u64,
    /// How many of these were tries of the turn that missed, since another pass had it. No part of
    /// the rule speaks of it, and no other step changes it.
    pub missed: u64,
}
