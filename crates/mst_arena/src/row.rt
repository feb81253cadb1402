//! A row of the arena.
ghost use Rattle.std.specs.Prelude.{◌≡◌, ◌↔◌, true};
ghost use Rattle.mst_arena.specs.Row.{IsRow};

use mst_key::{Key, Value};

/// The most rows of an arena: the link to a row, its number plus 1, has 16 bits.
pub const MOST_ROWS: u32 = 65_535;

/// The highest link: that to the last of the most rows.
pub const HIGHEST_LINK: u32 = MOST_ROWS;

/// The most entries of a node: each takes a row, and the head of the node one more.
pub const MOST_ENTRIES: u32 = 65_534;

/// The highest layer of a key, that of format 2.
pub const HIGHEST_LAYER: u8 = 128;

/// How many words a row has.
pub const ROW_WORDS: usize = 16;

/// A row: an entry of a node, or the head of a node.
///
/// A link is a row number plus 1, and 0 is none. Links are at most 65,535.
#[derive(Drop, PartialEq, Eq)]
pub enum Row {
    /// A pair of a node.
    Entry {
        /// The link of the head of the tree in the gap before the key.
        child: u32,
        /// The link of the next entry of the node.
        next: u32,
        key: Key,
        value: Value,
    },
    /// What a node has once.
    Head {
        /// The layer of the node's keys: 0 to 64 in format 1, 0 to 128 in format 2.
        layer: u8,
        /// The number of the node's entries, 1 to 65,534.
        count: u32,
        /// The link of the first entry.
        first: u32,
        /// The link of the head of the tree in the gap after the last key.
        tail: u32,
        /// The digest of the node's text.
        digest: [u8; 32],
    },
}

/// What a search needs of a head.
#[derive(Clone, Copy, PartialEq, Eq)]
pub struct HeadLinks {
    pub layer: u8,
    pub count: u32,
    pub first: u32,
    pub tail: u32,
}

/// What a search needs of an entry.
#[derive(Drop, PartialEq, Eq)]
pub struct KeyedLinks {
    pub child: u32,
    pub next: u32,
    pub key: Key,
}

/// What a walk needs of an entry whose key it does not read.
#[derive(Clone, Copy, PartialEq, Eq)]
pub struct BareLinks {
    /// The link of the head of the tree in the gap before the key.
    pub child: u32,
    /// The link of the next entry of the node.
    pub next: u32,
}

/// Where a tree stands, and its digest.
#[derive(Clone, Copy, PartialEq, Eq)]
pub struct Root {
    /// The link of the head of the top node, or 0 for the empty tree.
    pub link: u32,
    /// The digest of the top node's text, or of the empty text for the empty tree.
    pub digest: [u8; 32],
}

impl Row {
    /// A copy of the row. It takes no memory.
    pub fn copy(&self) -> Row
        ensures same { result ≡ self.now }
    {
        match self {
            Row::Entry {
                child,
                next,
                key,
                value,
            } => Row::Entry {
                child: *child,
                next: *next,
                key: key.copy(),
                value: value.copy(),
            },
            Row::Head {
                layer,
                count,
                first,
                tail,
                digest,
            } => Row::Head {
                layer: *layer,
                count: *count,
                first: *first,
                tail: *tail,
                digest: *digest,
            },
        }
    }

    /// Whether links, layer and count are within their limits, and a head has a first entry.
    pub fn is_within_limits(&self) -> bool
        ensures limits { result ≡ true ↔ IsRow self.now }
    {
        match self {
            Row::Entry { child, next, .. } => *child <= HIGHEST_LINK && *next <= HIGHEST_LINK,
            Row::Head {
                layer,
                count,
                first,
                tail,
                ..
            } => {
                *layer <= HIGHEST_LAYER
                    && (1..=MOST_ENTRIES).contains(count)
                    && (1..=HIGHEST_LINK).contains(first)
                    && *tail <= HIGHEST_LINK
            }
        }
    }
}
