//! The calls of the store for C, and for every language that calls C.
//!
//! `mst_exports` exports each of them, with the same contract, and `include/mst_store.h` declares
//! it.
//!
//! Each call returns a number. Its contract says, for all arguments, this number, each byte that
//! the call writes, and what the hand holds after it. A number of 0 or more is an answer; -1 says
//! that there is no such key, pair or shard; the others are refusals:
//!
//! | Number | When |
//! |---|---|
//! | -2 | a room is too short |
//! | -3 | no format has this number |
//! | -5, -6 | a key has 1 to 32 bytes, a value 0 to 64 |
//! | -7 | the hand holds no pass |
//! | -8 | the pass is pinned, or is not |
//! | -9 | a growth of memory was refused |
//! | -10 | a store has 4 to 65,535 rows and 1 to 32 passes |
//! | -21, -22, -23 | a write or a migration is refused as `Busy`, `VersionsSpent`, `NoRoom` |
//! | -24 | rows are not counted, since some pass pins a version |
//! | -25 | the bytes are no list of edits |
//! | -26 | the bytes are no splits of a sharded map |
//! | -27 | the shards of a snapshot are in different formats |
//! | -28 | a shard has a key of another |
//!
//! The tests are made in this order: the hand, the key, the value, the pass, and the rooms last.
#![tactic(auto)]

mod answering;
pub mod batches;
pub mod codes;
pub mod formats;
pub mod hand;
pub mod knowing;
mod laws;
pub mod opening;
pub mod packing;
pub mod pass_box;
pub mod ranging;
pub mod raw_box;
pub mod telling;

pub use laws::{batch_laws, worked_batches};
