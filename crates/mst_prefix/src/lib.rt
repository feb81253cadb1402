//! Beginnings of nodes' texts, kept with their hashes, so that what did not change is not hashed
//! again.
//!
//! A node is rewritten as a copy of another but for some entries, into other rows. Up to the first
//! of these, its text is that of the other node, whose hash after each entry is kept.
//!
//! ```
//! let mut kept = LayerBeginnings::new(alloc, 64)?;    // for a table of 64 rows
//! let mut hasher = kept.hasher(0);                    // of the text of a node of layer 0
//! hasher.heading(Format::One, 0, 1);                  // it has one entry
//! hasher.move_kept(5, 9, Format::One);                // copied from row 5 to row 9 is
//! hasher.copied_entry(Format::One, None, b"apple", b"30");          // this entry
//! hasher.child(None);                                 // no tree behind it
//! kept.finish(0, hasher)                              // the digest of that text
//! ```
//!
//! The digest is the same as without anything kept: what is kept for a row is compared with the
//! text before its hash is taken over, so it does not matter which rows the caller names, but for
//! the time it takes. Memory is taken by `new` alone.
#![tactic(auto)]

mod beginnings;
mod comparison;
mod digests;
mod hasher;
mod layers;
mod places;

pub use hasher::TextHasher;
pub use layers::LayerBeginnings;
