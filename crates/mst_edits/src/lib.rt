//! Batches of edits as lists: sorted by their keys, of each key the last edit alone; and the pairs
//! of a map with them made.
//!
//! ```
//! let edits = [Edit::Put(pear, five), Edit::Remove(apple), Edit::Put(pear, six)];
//! let normal = normal_edits(alloc, &edits)?;            // Remove(apple), Put(pear, six)
//! let after = edited_pairs(alloc, &pairs, &edits)?;     // the pairs of the map after them
//! ```
//!
//! `specs/Listed.antt` says which edits a list points at. No tree stands here: `mst_batch` makes
//! the edits in one.
#![tactic(auto)]

mod limits;
mod merging;

pub use limits::are_within_limits;
pub use merging::{edited_pairs, normal_edits};
