//! What a line of a script asks for, and how its answer is written.
//!
//! ```
//! request_in(&line, 4)                           // of "2 get 616263": Ok, pass 2 is asked for abc
//! put_answer(&mut sink, &mut pending, &answer)?  // of Answer::Value(Some(..)): "some 78\n"
//! ```
//!
//! `specs/Grammar.antt` has the lines with their faults in their order, `specs/Batches.antt` the
//! edits of batches, `specs/Texts.antt` the texts of answers. Nothing is asked of a store here:
//! `mst_script` does that.
#![tactic(auto)]

mod answer;
mod edits;
mod fields;
mod parse;
mod request;

pub use answer::{Answer, put_answer};
pub use edits::Edits;
pub use parse::request_in;
pub use request::{Command, Fault, Request};
