//! Why calls are refused.
use mst_key::Memory;
use thiserror::Error;

/// Why a write was refused. It changed nothing.
#[derive(Clone, Copy, Debug, PartialEq, Eq, Error)]
pub enum WriteFault {
    /// Another pass had the turn.
    #[error("another pass has the turn")]
    Busy,
    /// The current version has the last number, 2^63 - 1.
    #[error("version numbers are spent")]
    VersionsSpent,
    /// The rows that are free are too few for the nodes that the write makes new.
    #[error("no room")]
    NoRoom,
}

/// Why a migration was refused. It changed nothing.
#[derive(Clone, Copy, Debug, PartialEq, Eq, Error)]
pub enum MigrateFault {
    /// Another pass had the turn.
    #[error("another pass has the turn")]
    Busy,
    /// The current version has the last number, 2^63 - 1.
    #[error("version numbers are spent")]
    VersionsSpent,
    /// A growth of the list of the pairs or of their tree was refused.
    #[error("no memory")]
    Memory(Memory),
    /// The rows that are free are too few for the tree in the other format.
    #[error("no room")]
    NoRoom,
}

/// Another pass had the turn, so nothing was counted.
#[derive(Clone, Copy, Debug, PartialEq, Eq, Error)]
#[error("another pass has the turn")]
pub struct Busy;
