//! What the writer and the readers of a sharded map share: its splits and stores, which shard has a
//! key, what the directory lists of a shard, and the passes that are dealt of it.
//!
//! A sharded map is one ordered map whose keys are split into intervals, its shards, each of which
//! is a store of its own. Over them stands a directory, itself such a store, which has of each
//! shard the root digest and the bounds of its keys. Its root digest is that of the whole map.
//! `mst_sharded_proof` has the definitions of shards, directory and proofs, and the verifier.
#![tactic(auto)]

mod deal;
mod edits;
mod entries;
mod faults;
mod moving;
mod opening;
mod place;
mod rooms;
mod sharded;

pub use deal::{Lot, WriterLot};
pub use edits::{copied, places_of};
pub use entries::{high_key, listing, low_key};
pub use faults::ShardsFault;
pub use moving::{lay_all, lay_at, lay_pin_at, lift_all, lift_at, lift_pin_at, unpin_laid};
pub use opening::{MOST_SPLITS, are_splits, open_all};
pub use place::place_of;
pub use rooms::list_with_room;
pub use sharded::{AllSeats, Sharded};
