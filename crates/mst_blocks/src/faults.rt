//! Why blocks are refused.
use mst_key::Memory;
use mst_store::ApplyFault;
use thiserror::Error;

/// Why a shard was refused its part of a block, or the directory its edits.
#[derive(Clone, Copy, Debug, PartialEq, Eq, Error)]
pub enum PartFault {
    /// They were refused as those of a batch are.
    #[error("{0}")]
    Refused(ApplyFault),
    /// The version that was found is not the one that the writer made last: another has written.
    #[error("another has written")]
    Overtaken,
}

/// Another has written to a shard: the version that was found is not the one that the writer made
/// last.
#[derive(Clone, Copy, Debug, PartialEq, Eq, Error)]
#[error("another has written")]
pub struct Overtaken;

/// Why a block was refused. Nothing was changed: no shard has any of its edits.
#[derive(Clone, Copy, Debug, PartialEq, Eq, Error)]
pub enum BlockFault {
    /// A growth of the lists of the edits was refused.
    #[error("no memory")]
    Memory(Memory),
    /// The shard at this place, from 0, was refused its edits.
    #[error("shard {0}: {1}")]
    Shard(usize, PartFault),
    /// The directory was refused the new root digests.
    #[error("directory: {0}")]
    Directory(PartFault),
}
