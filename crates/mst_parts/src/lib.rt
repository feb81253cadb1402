//! A block of a sharded map that is made in parts, by several threads.
//!
//! ```
//! // a part for each shard
//! let (block, mut parts) = Block::begin(writer, rt.alloc(), &edits)?;
//! prepare_in_threads(&rt, rt.alloc(), parts.as_mut_slice(), 4);   // or any, BlockPart::prepare
//! let (writer, made) = block.commit(rt.alloc(), parts);           // as by Writer::apply
//! ```
//!
//! The writer of `mst_blocks` makes the same blocks by one call, in one thread. Here each shard's
//! part has the pass of its shard and its edits, and may be prepared in a thread of its own: made
//! in free rows, and hashed. [`Block::commit`] publishes what is prepared, the directory last.
#![tactic(auto)]

mod block;
mod dealing;
mod finishing;
mod part;
mod threads;

pub use block::Block;
pub use part::BlockPart;
pub use threads::prepare_in_threads;
