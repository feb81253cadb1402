//! Blocks of a sharded map: edits of all shards that are one version of the whole map, with one
//! number and one root digest.
//!
//! ```
//! let (map, seats) = Sharded::open(rt.alloc(), splits, shape)?;
//! let map = Arc::new(rt.alloc(), map)?;
//! let (lot, lots) = map.deal(rt.alloc(), seats)?;
//! let writer = Writer::new(&map, rt.alloc(), lot)?;       // block 0: the empty map
//! let edits = [Edit::Put(apple, thirty), Edit::Remove(pear)];
//! let (writer, made) = writer.apply(rt.alloc(), &edits);  // Ok(1): made whole, in both shards
//! ```
//!
//! Each shard makes its part in free rows and hashes it. If one of them, or the directory, is
//! refused, all is taken back, and nothing has changed. Otherwise all are published, one swap after
//! the other, and the directory last; only then do they give their turns back. So a reader that
//! pins the directory first, and then finds each shard with the root digest that is listed, has one
//! block.
//!
//! Several threads can make a block in parts: `mst_parts` has them. For it stands here what both
//! ways of making a block share ([`deal_edits`], [`stage_next`], [`prepare_next`], [`conclude`]),
//! and what takes a writer apart and puts it together ([`Writer::into_held`],
//! [`Writer::from_held`], [`last_root`]).
#![tactic(auto)]

mod beginning;
mod blocks;
mod chains;
mod counting;
mod faults;
mod held;
mod making;
mod parting;
mod publishing;
mod writer;

pub use blocks::{Part, Stage, conclude, prepare_next, stage_next};
pub use chains::{block_laws, snapshot_laws, writer_laws};
pub use faults::{BlockFault, Overtaken, PartFault};
pub use held::{Held, last_root};
pub use parting::deal_edits;
pub use writer::Writer;
