//! The nodes of a tree.
use mst_key::{Key, Value};
use std::alloc::{Allocator, Global};

/// A node of a Merkle search tree: the pairs of one layer in the order of their keys, with the
/// trees of the gaps before, between and after them.
#[cycle(node)]
#[derive(Drop)]
pub struct Node<A: Allocator = Global> {
    /// The layer of each key of the node: 0 to 64 in format 1, 0 to 128 in format 2.
    pub layer: u8,
    /// The pairs of the node, at least one.
    pub entries: Vec<Entry<A>, A>,
    /// The tree of the gap after the last entry.
    pub tail: Option<Box<Node<A>, A>>,
}

/// A pair of a node, after the tree of the gap before it.
#[cycle(node)]
#[derive(Drop)]
pub struct Entry<A: Allocator = Global> {
    /// The tree of the gap before the key.
    pub child: Option<Box<Node<A>, A>>,
    pub key: Key,
    pub value: Value,
}
