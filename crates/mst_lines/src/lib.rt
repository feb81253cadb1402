//! Lines, one after another, of what a source gives, for whatever answers them.
//!
//! ```
//! let mut reader = Reader::new(alloc)?;
//! let mut line = LineBuffer::new();
//! while reader.next(&mut source, &mut sink, &mut pending, &mut line)? {
//!     // answers line.bytes(), or a line that is too long, into pending
//! }
//! // then line has the rest after the last newline
//! ```
//!
//! What waits in `pending` is written before each read, so that a user who waits for an answer has
//! it. Of a line of more than 4,096 bytes nothing is kept but that it was long. `specs/Runs.antt`
//! says what a run of answered lines is, whatever answers them.
#![tactic(auto)]

mod line;
mod reader;
mod separator;

pub use line::{LONGEST_LINE, LineBuffer};
pub use reader::Reader;
pub use separator::cut;
