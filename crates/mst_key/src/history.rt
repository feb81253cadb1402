//! The events of a history: what the passes did to the map.
ghost use Rattle.std.specs.Prelude.{◌≡◌};
ghost use Rattle.mst_key.specs.History.{key_of};

use crate::format::Format;
use crate::key::Key;
use crate::value::Value;
use std::marker::Model;

/// A change of one key, as one of many in a [`Batch`]: a key has 1 to 32 bytes, a value 0 to 64.
#[derive(Debug, Drop, PartialEq, Eq)]
pub enum Edit {
    /// The key has this value from here on.
    Put(Key, Value),
    /// The key has no value from here on, whether it had one or not.
    Remove(Key),
}

impl Edit {
    /// The key that the edit is of.
    pub fn key(&self) -> &Key
        ensures key { result.now ≡ key_of self.now }
    {
        match self {
            Edit::Put(key, _) => key,
            Edit::Remove(key) => key,
        }
    }
}

/// Edits that are one change: as many as a list can hold, none too, of any keys in any order.
///
/// They are made one after another, so of edits of one key the last decides, and a remove of a key
/// that is not there changes nothing. No version has the edits before one of them and not that one.
#[derive(Drop)]
pub struct Batch<'b> {
    edits: &'b [Edit],
}

/// Contracts see the list of the edits.
impl<'b> Model for Batch<'b> {
    ghost use Rattle.std.specs.Prelude.{⊤, List};
    ghost use Rattle.mst_key.specs.declared.history.Edit.{Edit};

    ghost Value = { List Edit };

    ghost view = { λ b. b.edits.now };

    ghost invariant = { λ b. ⊤ };
}

impl<'b> Batch<'b> {
    /// The batch of these edits.
    pub fn new(edits: &'b [Edit]) -> Batch<'b>
        ensures edits { result ≡ edits.now }
    {
        Batch { edits }
    }

    /// The edits of the batch.
    pub fn edits(&self) -> &[Edit]
        ensures edits { result.now ≡ self.now }
    {
        self.edits
    }
}

/// A change of one key, of the format, or of many keys at once: what one event does.
#[derive(Drop)]
pub enum Change<'b> {
    /// The key has this value from here on.
    Put(Key, Value),
    /// The key has no value from here on, whether it had one or not.
    Remove(Key),
    /// The tree is of this format from here on, and the map stays.
    Migrate(Format),
    /// These edits are made in their order, as one change. The format stays.
    Batch(Batch<'b>),
}

/// One change of the map or its format. A history is the list of its events, the oldest first.
#[derive(Drop)]
pub struct Event<'b> {
    /// The number of the pass that made the change, from 1.
    pub pass: u32,
    pub change: Change<'b>,
}
