//! Why a batch is not made.
use mst_key::Memory;

/// Why a batch of edits was not made. Rows and desk are as before.
#[derive(Clone, Copy)]
pub enum BatchRefusal {
    /// A growth of a list or of the plan was refused.
    Memory(Memory),
    /// Fewer rows are free than the batch takes.
    NoRoom,
}
