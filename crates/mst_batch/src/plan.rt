//! The plan of a change: the tree that is to stand, with the nodes to be made and the links of the
//! trees that are kept as they stand.
use mst_key::{Key, Value};
use std::alloc::{Allocator, Global};

/// What is to stand in a gap of a tree, or in place of a whole tree.
#[derive(Drop)]
pub enum Plan<N> {
    /// The tree that stands at a link, as it is. Link 0 is the empty tree.
    Kept(u32),
    /// A node to be made.
    Made(N),
}

/// A node to be made: pairs of one layer in the order of their keys, with the plans of the gaps
/// before, between and after them.
#[cycle(plan_node)]
#[derive(Drop)]
pub struct PlanNode<A: Allocator = Global> {
    /// The layer of each key of the node: 0 to 64 in format 1, 0 to 128 in format 2.
    pub layer: u8,
    /// The pairs of the node, at least one.
    pub entries: Vec<PlanEntry<A>, A>,
    /// The plan of the gap after the last entry.
    pub tail: Plan<Box<PlanNode<A>, A>>,
}

/// What is known of the entry that had a pair's key before. A plan that is carried out names only
/// rows that have its pairs.
#[derive(Clone, Copy)]
pub enum Origin {
    /// Nothing.
    Unknown,
    /// It had this value too, and stands in this row.
    Kept(u32),
    /// It had another value, and stands in this row.
    Changed(u32),
}

/// A pair of a node to be made, after the plan of the gap before it.
#[cycle(plan_node)]
#[derive(Drop)]
pub struct PlanEntry<A: Allocator = Global> {
    /// The plan of the gap before the key.
    pub child: Plan<Box<PlanNode<A>, A>>,
    pub key: Key,
    pub value: Value,
    pub origin: Origin,
}
