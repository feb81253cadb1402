//! Why a sharded map is not opened.
use mst_key::Memory;
use thiserror::Error;

/// Why a sharded map was not opened.
#[derive(Clone, Copy, Debug, PartialEq, Eq, Error)]
pub enum ShardsFault {
    /// The splits do not rise strictly from above the key of one zero byte, or are more than 1,023.
    #[error("splits rise strictly, from above the least key, and are at most 1023")]
    Splits,
    /// A shard has fewer than 4 or more than 65,535 rows, or fewer than 1 or more than 32 passes.
    #[error("a shard has 4 to 65535 rows and 1 to 32 passes")]
    Shape,
    /// A growth was refused.
    #[error("no memory")]
    Memory(Memory),
}
