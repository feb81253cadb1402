//! Why a write was refused.
use thiserror::Error;

/// Fewer rows are free than the write takes. It changed nothing.
#[derive(Clone, Copy, Debug, PartialEq, Eq, Error)]
#[error("no room")]
pub struct NoRoom;
