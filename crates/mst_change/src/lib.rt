//! What a put, a remove and a batch do to the Merkle search tree of a map, and what they cost.
//!
//! The tree of the map after a put or a remove is made from the old one along one path, which is
//! split or joined from the top down; everything else stays (Auvolat and Taïani 2019).
//!
//! ```
//! // the tree of two keys a and c of layer 0 is one node; b has layer 1, and so splits it
//! tree_put format (tree format [a, c]) b v      // a node of layer 1: b between [a] and [c]
//! put_cost format (tree format [a, c]) b v      // 6 rows: three nodes, each a head and an entry
//! tree_remove (tree format [a, b, c]) b         // [a] and [c] joined, one node again
//! ```
//!
//! Nothing here is run: the crate has the definitions of these trees, and laws that say what the
//! definitions come to. `mst_path` keeps such trees in the rows of the arena.
//!
//! In `specs/`: `Parts`, the parts of a node; `Split`, what a tree has below and above a key;
//! `Join`, two trees made one; `Put` and `Remove`, the tree after the change; `Cost`, the rows of
//! the nodes that are made new; `Gap`, where a key stands among the entries of a node; `Batch`, the
//! tree after many edits, and its rows in addition to those of the old tree.
//!
//! [`split_laws`] and [`join_laws`] say what the parts hold, [`path_laws`] that the changed tree is
//! the tree of the new map, [`cost_laws`] what a change costs and how that is bounded, and
//! [`batch_laws`] how the nodes that a batch makes new are told from those that stand.
#![tactic(auto)]

mod laws;

pub use laws::{batch_laws, cost_laws, join_laws, path_laws, split_laws};
