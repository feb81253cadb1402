//! The tasks of the program over one store, or over none. Each runs over a source and a sink, so
//! that its contract says what was read and written.
//!
//! ```
//! let mut source = BytesSource::new(b"1 put 616263 78\n2 get 616263\n");
//! let mut out = BytesSink::new(alloc, 100)?;
//! let shape = Shape { rows: 16, passes: 1, format: Format::Two };
//! match run_script(alloc, shape, &mut source, &mut out) {
//!     Ok(ending) => ..    // Done, and out has "none\nsome 78\n"
//!     Err(why) => ..      // complain(&why, &mut err) says why, and answers the exit status
//! }
//! ```
//!
//! A script is answered over a store, a proof is judged, the core of pins is replayed, a load is
//! run. `specs/Programs.antt` says what each of them reads and writes. `mst` chooses the task, and
//! answers a script over a sharded map: so this crate stands beside sharded maps, not above them.
#![tactic(auto)]

mod events;
mod input;
mod laws;
mod loading;
mod programs;
mod replay;
mod splits;
mod verify;

pub use laws::reading_laws;
pub use loading::run_load;
pub use programs::{run_replay, run_script};
pub use splits::{NoSplits, splits_in};
pub use verify::run_verify;
