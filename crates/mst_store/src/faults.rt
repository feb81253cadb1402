//! Why calls are refused.
use mst_key::Memory;
use thiserror::Error;

/// Why a store was not opened.
#[derive(Clone, Copy, Debug, PartialEq, Eq, Error)]
pub enum OpenFault {
    /// Fewer than 4 or more than 65,535 rows, or fewer than 1 or more than 32 passes.
    #[error("a store has 4 to 65535 rows and 1 to 32 passes")]
    Shape,
    /// A growth was refused.
    #[error("no memory")]
    Memory(Memory),
}

/// Why a write that waits for the turn was refused. It changed nothing.
#[derive(Clone, Copy, Debug, PartialEq, Eq, Error)]
pub enum ChangeFault {
    /// The current version has the last number, 2^63 - 1.
    #[error("version numbers are spent")]
    VersionsSpent,
    /// The rows that are free are too few for the nodes that the write makes new.
    #[error("no room")]
    NoRoom,
}

/// Why a batch that waits for the turn was refused. It changed nothing.
#[derive(Clone, Copy, Debug, PartialEq, Eq, Error)]
pub enum BatchFault {
    /// The current version has the last number, 2^63 - 1.
    #[error("version numbers are spent")]
    VersionsSpent,
    /// A growth of a list of the edits or of the plan of their nodes was refused.
    #[error("no memory")]
    Memory(Memory),
    /// The rows that are free are too few for the nodes that the batch makes new.
    #[error("no room")]
    NoRoom,
}
