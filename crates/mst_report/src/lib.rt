//! What is said of a proof that is spelt in hexadecimal digits: a text in, a line out.
//!
//! ```
//! let Some(root) = root_in(digits) else { .. };        // 64 digits
//! let Some(key) = key_in("6170706c65") else { .. };    // apple
//! let report = report_on(rt.alloc(), ProofKind::Plain, Format::One, &root, &key, text)?;
//! report.line()           // "present 3330\n", or "absent\n", or "P5\n"
//! report.is_refusal()     // false of the first two
//! ```
//!
//! A proof of a sharded map is of the kind `ProofKind::Sharded`. `specs/Report.antt` defines what
//! is said of a text for a root digest and a key, by the verdicts of `mst_proof` and
//! `mst_sharded_proof`.
//!
//! It reads no device and does not judge the root digest: both are left to its caller.
#![tactic(auto)]

mod laws;
mod report;
mod words;

pub use laws::line_laws;
pub use report::{LIMIT, Line, ProofKind, Report, report_on};
pub use words::{key_in, root_in};
