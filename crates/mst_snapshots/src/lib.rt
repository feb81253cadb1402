//! Snapshots of a sharded map, each of exactly one block (as long as no two texts have one SHA-256
//! digest).
//!
//! ```
//! let (lot, mut lots) = map.deal(rt.alloc(), seats)?;      // the writer's, and one a reader
//! let Some(lot) = lots.pop() else { .. };
//! let reader = Reader::new(&map, rt.alloc(), lot)?;
//! let mut snapshot = reader.snapshot(rt);                  // waits while a block is published
//! snapshot.number()                                        // its block: 0 is the empty map
//! snapshot.root()                                          // the root digest of the whole map
//! snapshot.get(&apple)                                     // as of that block, until release
//! let reader = snapshot.release();
//! ```
//!
//! The writer of a map publishes a block shard by shard, and the directory last (`mst_blocks`). A
//! reader pins the directory first, and then each shard. If the directory lists each shard as it is
//! pinned, all of it is of one block; otherwise a block was just being published, and the reader
//! tries again. Where nothing has changed since its last snapshot, it compares version numbers
//! alone.
//!
//! A snapshot that is dropped holds the rows of its versions for good: [`Snapshot::release`] ends
//! its pins.
#![tactic(auto)]

mod bounds;
mod comparing;
mod counting;
mod directory_pin;
mod laws;
mod pinning;
mod proving;
mod ranging;
mod reader;
mod snapshot;
mod trying;
mod waiting;

pub use laws::{number_laws, tries_laws};
pub use reader::Reader;
pub use snapshot::Snapshot;
