//! What a line asks for.
use crate::edits::Edits;
use mst_key::{Format, Key, Value};

/// Why a line is refused. If several faults apply, the answer is the first in this order; of the
/// sizes of a batch that of the first edit.
///
/// All but `Pinning` are in the line alone; `Pinning` depends on the store, so the caller that runs
/// the line finds it.
#[derive(Clone, Copy)]
pub enum Fault {
    /// It has more bytes than a line may have.
    LongLine,
    /// Its first field is not the number of a dealt pass.
    NoPass,
    /// It has no second field, or one that names no command.
    NoCommand,
    /// The command has another number of fields, or those of a batch are not edits.
    FieldCount,
    /// A field spells nothing: no bytes, or no number in its range.
    BadField,
    /// A key is empty or too long.
    KeySize,
    /// The value is too long.
    ValueSize,
    /// The pass is pinned where it may not be, or is not where it must be.
    Pinning,
}

/// What a pass is asked for.
#[derive(Drop)]
pub enum Command<'l> {
    /// To give a key a value.
    Put(Key, Value),
    /// To take a key out of the map.
    Remove(Key),
    /// To make these edits, as one change.
    Batch(Edits<'l>),
    /// For the value of a key.
    Get(Key),
    /// For the pair of the least key above a bound.
    Next(Option<Key>),
    /// For the first pairs of the keys from a bound on and below another, at most this many.
    Range(Option<Key>, Option<Key>, u32),
    /// For the root digest.
    Root,
    /// For the text of the top node.
    Node,
    /// For the proof of the map's answer for a key.
    Prove(Key),
    /// To pin the current version.
    Pin,
    /// To end its pin.
    Unpin,
    /// For how many rows the map takes.
    Rows,
    /// For the format of the tree.
    Format,
    /// To bring the tree into a format.
    Migrate(Format),
}

/// What a line asks for. It borrows the line, in which the edits of a batch stand.
#[derive(Drop)]
pub struct Request<'l> {
    /// The number of the pass, from 1 on.
    pub pass: u32,
    /// What it is asked for.
    pub command: Command<'l>,
}
