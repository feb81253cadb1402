//! Why batches are refused.
use mst_key::Memory;
use thiserror::Error;

/// Why a batch of edits was refused. It changed nothing.
#[derive(Clone, Copy, Debug, PartialEq, Eq, Error)]
pub enum ApplyFault {
    /// Another pass had the turn.
    #[error("another pass has the turn")]
    Busy,
    /// The current version has the last number, 2^63 - 1.
    #[error("version numbers are spent")]
    VersionsSpent,
    /// A growth of a list of the edits or of the plan of their nodes was refused.
    #[error("no memory")]
    Memory(Memory),
    /// The rows that are free are too few for the nodes that the batch makes new.
    #[error("no room")]
    NoRoom,
}
