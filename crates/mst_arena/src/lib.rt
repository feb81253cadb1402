//! The rows of the shared arena, what they stand for, and the desk that keeps their births and
//! deaths.
//!
//! A tree stands in rows of sixteen words: one for the head of each node and one for each entry.
//! [`Rows`] is the contract between the calls that read and write trees and the memory that holds
//! the rows. [`Desk`] knows which rows are free, and which versions reach the others.
//!
//! ```
//! let mut desk = Desk::new(alloc, 16, 3, 0)?;  // 16 rows, 3 records; record 0 holds version 0
//! let Some(row) = desk.take() else { .. };     // born with version 1
//! desk.advance(1);                             // version 1 is the current one, in record 1
//! desk.kill(row);                              // dies with version 2
//! desk.advance(2);
//! desk.sweep(&[1, 2]);                         // version 1 is live and reaches the row: it stays
//! desk.sweep(&[2]);
//! desk.free()                                  // 16
//! ```
//!
//! `specs/` defines what the contracts speak of; `words_laws`, `life_laws` and `standing_laws`
//! prove what these definitions should satisfy.
//!
//! The desk does not know which versions are live: its caller names them. It takes memory when it
//! is made, and never again. [`PlainRows`] are rows of one thread; those that threads share are in
//! `mst_words`.
#![tactic(auto)]

mod bits;
mod desk;
mod entry_text;
mod entry_words;
mod free_rows;
mod homes;
mod laws;
mod life;
mod parts;
mod plain;
mod row;
mod rows;
mod sought;
mod sweep;
mod undo;
mod words;

pub use desk::{Desk, VersionsSpent};
pub use entry_text::take_common;
pub use entry_words::{hash_copied, take_words};
pub use laws::{life_laws, standing_laws, words_laws};
pub use life::Life;
pub use parts::LENGTH_RADIX;
pub use plain::PlainRows;
pub use row::{
    BareLinks, HIGHEST_LAYER, HIGHEST_LINK, HeadLinks, KeyedLinks, MOST_ENTRIES, MOST_ROWS,
    ROW_WORDS, Root, Row,
};
pub use rows::Rows;
pub use sought::{Sought, Stop, Way};
pub use undo::undo_laws;
