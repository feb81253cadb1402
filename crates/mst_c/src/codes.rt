//! The numbers that calls return to C if they have no answer. `include/mst_store.h` has the same
//! names.

/// There is no such key, pair or shard.
pub const ABSENT: i32 = -1;

/// A room is too short.
pub const SHORT_ROOM: i32 = -2;

/// No format has this number.
pub const UNKNOWN_FORMAT: i32 = -3;

/// A key has 1 to 32 bytes.
pub const BAD_KEY: i32 = -5;

/// A value has 0 to 64 bytes.
pub const BAD_VALUE: i32 = -6;

/// The hand holds no pass, and no handle or snapshot of a sharded map.
pub const CLOSED: i32 = -7;

/// The pass is pinned, or is not; the hand holds a snapshot, or a handle.
pub const WRONG_STATE: i32 = -8;

/// A growth of memory was refused.
pub const MEMORY: i32 = -9;

/// A store has 4 to 65,535 rows and 1 to 32 passes.
pub const BAD_SHAPE: i32 = -10;

/// Another pass has the turn.
pub const BUSY: i32 = -21;

/// The version has the last number.
pub const VERSIONS_SPENT: i32 = -22;

/// Fewer rows are free than the call takes.
pub const NO_FREE_ROWS: i32 = -23;

/// Rows are not counted, since some pass pins a version.
pub const ROWS_PINNED: i32 = -24;

/// The bytes are no list of edits.
pub const BAD_BATCH: i32 = -25;

/// The bytes are no splits of a sharded map.
pub const BAD_SPLITS: i32 = -26;

/// The shards of a snapshot are in different formats.
pub const MIXED_FORMATS: i32 = -27;

/// A shard has a key of another.
pub const STRAY_KEY: i32 = -28;
