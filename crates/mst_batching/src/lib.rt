//! Batches by a pass of a store: edits that are one version, in one call or in two.
//!
//! ```
//! let prepared = preparing::prepare(&mut seat, alloc, first, &edits)?;    // nobody sees it yet
//! let version = preparing::publish(&mut seat, first, prepared, &edits);   // or `cancel`
//! ```
//!
//! The steps before and behind the edits are those of each write, of `mst_versions`: the turn is
//! taken, the edits are made in free rows by `mst_batch`, the record is filled, and the version is
//! published. It is a crate of its own, so that the two below it are proved side by side.
#![tactic(auto)]

pub mod applying;
mod faults;
pub mod preparing;

pub use faults::ApplyFault;
pub use preparing::Preparation;
