//! Trees in the rows of the shared arena: how they are written, and how they change by path
//! copying.
//!
//! [`plant`] writes a whole tree into free rows, [`put`] puts a pair into the map that stands at a
//! root, and [`remove`] takes a key out of it. A node is written entry by entry, and its text is
//! fed to the hash on the way, so that no call takes memory.
//!
//! ```
//! let mut desk = Desk::new(alloc, 64, 2, 0)?;
//! let mut rows = PlainRows::new(alloc, 64)?;
//! let root = plant(&mut rows, &mut desk, build(alloc, &pairs)?.as_deref(), Format::One)?;
//! desk.advance(1);                                // the planted map is version 1
//! let (root, old) = put(&mut rows, &mut desk, &root, &apple, &Value::new(b"35")?, Format::One)?;
//! desk.advance(0);                                // version 2 has the new price,
//! desk.sweep(&[2]);                               // and what only version 1 reached is free again
//! ```
//!
//! The calls write rows for the version to come and publish nothing: their caller advances the
//! desk, and sweeps. A change for which too few rows are free is refused with [`NoRoom`] before a
//! row is written.
//!
//! The tree of the map after a put or a remove is made from the old one along one path, which is
//! split or joined from the top down; everything beside the path is shared. `mst_change` defines
//! these trees and counts the rows of the nodes that are made new. [`reach_laws`] says which rows a
//! version reaches after such a change, [`version_laws`] that the map of each version that is kept
//! stays as it is, [`age_laws`] how old the rows of a node are, and [`room_laws`] how many rows
//! kept versions leave free.
//!
//! Below the calls, from the top down:
//!
//! - `insertion` and `removal` look for the key (`finding`), count the rows that are needed
//!   (`counting`, `remove_path`), and only then write.
//! - `put_path`, `split`, `remove_path` and `joining` go down the path; `cut` says where the key
//!   stands among the entries of a node.
//! - `frames` has what is left of a node round the gap whose tree changes; `making` makes a new
//!   node of such parts.
//! - `node_writer` writes the rows of one node, for `copying`, which moves the entries of an old
//!   node, and for `whole_tree`, which plants.
#![tactic(auto)]

mod copying;
mod counting;
mod cut;
mod faults;
mod felling;
mod finding;
mod frames;
mod insertion;
mod joining;
mod laws;
mod making;
mod node_writer;
mod put_path;
mod removal;
mod remove_path;
mod split;
mod whole_tree;

pub use copying::root_at;
pub use faults::NoRoom;
pub use felling::fell;
pub use insertion::put;
pub use laws::{age_laws, premises_can_be_met, reach_laws, room_laws, version_laws};
pub use mst_arena::Root;
pub use node_writer::NodeWriter;
pub use removal::remove;
pub use whole_tree::plant;
