//! What a pass of a store does by its seat at the table: reads of the version that it pins, and the
//! next version, made in the pass's turn.
//!
//! ```
//! let first = PassParameters { number: 1, passes: 2, rows: 16 };
//! let at = reading::pin(&mut reader, first);        // the seat of pass 1: one xor and two loads
//! let (old, version) = writing::write(&mut writer, second, &event)?;
//! reading::get(&mut reader, &at, &apple)            // as it was at the pin
//! reader.unpin(1, at.pinned);
//! ```
//!
//! A write takes the turn and the desk, asks each record but the current one who pins it, frees the
//! rows that no live version reaches, makes its change in free rows, and publishes. Here
//! nothing waits: a turn that another pass has is `Busy`. Batches are made by `mst_batching`, above
//! this crate.
//!
//! Seats come from outside: `mst_store` deals them, and keeps each in a pass, whose contracts speak
//! of no seat. What a seat knows from the pin or the turn on is in `specs/Pinned.antt` and
//! `specs/Turns.antt`.
#![tactic(auto)]

pub mod counting;
mod faults;
pub mod finishing;
pub mod listing;
pub mod migrating;
mod parameters;
pub mod reading;
pub mod roots;
pub mod turn;
pub mod writing;

pub use faults::{Busy, MigrateFault, WriteFault};
pub use listing::VersionList;
pub use parameters::PassParameters;
