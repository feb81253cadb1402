//! The numbers that only calls of sharded maps return if they have no answer.
//! `include/mst_store.h` has the same names.

/// Another than the writer of blocks has written to a shard or to the directory.
pub const OVERTAKEN: i32 = -29;

/// A block is just being published.
pub const MOVING: i32 = -30;
