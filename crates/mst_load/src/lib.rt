//! Many threads at one store: readers and writers, each with a pass of its own, and what they
//! leave.
//!
//! ```
//! // 4 readers and 2 writers, of 1,000 calls each
//! let report = load(&rt, rt.alloc(), 4, 2, 1000, &Open)?;
//! report.falls                    // 0: no reader read an older version after a newer one
//! report.events                   // 2000: no put is refused
//! report.root == report.built     // true: the map is the one that the calls leave
//! report.lines()                  // the same in four lines
//! ```
//!
//! It is proved that `falls` is 0, from what each read says of its own pass; that `events` and
//! `root` are those of the one history at which all passes settled when their threads had returned;
//! that no put is refused, so that there are as many events as calls of writers; and that `built`
//! and `root` are the root digest of the map after all these calls. The rest is tested. A [`Gate`]
//! is asked before each call and told after it, so that a test can hold a worker until another has
//! come.
//!
//! Nothing is proved of threads that run at once. What is said of a worker follows from the
//! contracts of its pass, and what is said of the end from those of all passes together.
#![tactic(auto)]

mod calls;
mod course;
mod engine;
mod gate;
mod lines;
mod running;
mod worker;

pub use engine::{LoadFault, Report, load};
pub use gate::{Gate, Open};
pub use lines::Lines;
