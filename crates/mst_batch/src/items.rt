//! What the tree after a batch is built of.
use crate::plan::Origin;
use mst_key::{Key, Value};

/// A pair of the map after a batch, or a tree of pairs that stays as it stands.
#[derive(Clone, Copy)]
pub enum Item<'b> {
    /// A pair that an edit puts.
    Put {
        key: &'b Key,
        value: &'b Value,
        /// The layer of the key: 0 to 64 in format 1, 0 to 128 in format 2.
        layer: u8,
        /// What is known of the entry that had the key before.
        origin: Origin,
    },
    /// The pair of the entry in a row, with the layer of its key.
    Kept {
        row: u32,
        layer: u8,
    },
    /// The tree at a link, not 0, with the layer of its top node.
    Subtree {
        link: u32,
        layer: u8,
    },
}
