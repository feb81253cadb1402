//! The Merkle search tree of a map (Auvolat and Taïani 2019): its nodes, their texts and digests.
//!
//! A node holds the pairs of one layer in the order of their keys; in each gap before, between and
//! after them stands the tree of the pairs there, or none. The layer of a node is the greatest of
//! its keys and of those below it, so the tree depends on the map alone. A text spells a node with
//! the digests of its children in their place, a digest is the SHA-256 of a text, and the root
//! digest of a map is that of its top node's text.
//!
//! ```
//! let apple = (Key::new(b"apple")?, Value::new(b"30")?);
//! let plum = (Key::new(b"plum")?, Value::new(b"12")?);
//! let pairs = [apple, plum];
//! let root = root_of(&pairs);
//! if let Some(top) = build(rt.alloc(), &pairs)? {
//!     let text = text(rt.alloc(), &top)?;
//!     digest(&text) == root         // true
//!     read_text(&text)?.layer()     // 1, the layer of plum; apple stands in the gap before it
//! }
//! ```
//!
//! `build` makes the tree, `text` a node's text, and `read_text` reads one. `root_of` gives the
//! root digest with no tree and no memory. Crates that keep nodes in another form write their texts
//! by [`TextSink`], for a hasher or in memory. The definitions that the contracts cite stand in
//! `specs/`: `Tree`, `Gaps`, `Text`, `Grammar`, `Frame`; `Cost` says what a change of the map makes
//! new, and `Stays` what kept versions of a history hold.
//!
//! Nothing here changes a tree: `mst_path` does, in rows. `release` gives a tree's memory back with
//! no more nested calls than `build` makes. The pairs of a map have to be in rising order of their
//! keys; `is_map` tests this, and the other calls do not.
#![tactic(auto)]

mod finding;
mod flat;
mod framing;
mod grammar;
mod hashing;
mod held;
mod key_place;
mod laws;
mod making;
mod node;
mod order;
mod reading;
mod releasing;
mod root;
mod short;
mod sinks;
mod texts;

pub use finding::{Finding, find_in_text};
pub use flat::Flat;
pub use framing::top_text;
pub use grammar::{NodeFault, read_text, read_text_in};
pub use hashing::{digest, empty_digest};
pub use held::Held;
pub use key_place::{KeyPlace, Span};
pub use laws::{
    collision_of_two, held_laws, one_text, one_tree, order_of_tree, text_by_grammar, tree_by_gaps,
};
pub use making::{build, build_in};
pub use node::{Entry, Node};
pub use order::{ascending, is_map};
pub use releasing::release;
pub use root::{root_of, root_of_in};
pub use sinks::{TextBuffer, TextSink, format_byte, take_entry};
pub use texts::{text, text_in};
