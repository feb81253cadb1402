//! The refusals of a proof of a sharded map.
use mst_proof::ProofFault;
use thiserror::Error;

/// The first test that a proof fails. The tests stand in the order of the variants.
#[derive(Clone, Copy, Debug, PartialEq, Eq, Error)]
pub enum ShardedFault {
    /// The first byte is not the number of the format, 03 or 04.
    #[error("S1")]
    FormatByte,
    /// The format's byte, the lower bound, a length or the directory's proof is cut short.
    #[error("S2")]
    CutShort,
    /// The lower bound has no bytes, or more than 32.
    #[error("S3")]
    NoKey,
    /// The directory's proof fails this test.
    #[error("S4 {0}")]
    Directory(ProofFault),
    /// The directory has no shard with this lower bound.
    #[error("S5")]
    NotListed,
    /// What the directory holds has fewer bytes than a digest.
    #[error("S6")]
    NoListing,
    /// The key lies below the shard's lower bound.
    #[error("S7")]
    KeyBelow,
    /// The key does not lie below the shard's upper bound.
    #[error("S8")]
    KeyNotBelow,
    /// The shard's proof fails this test.
    #[error("S9 {0}")]
    Shard(ProofFault),
}
