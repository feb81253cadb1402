//! Reads over the rows that stand for the tree of a map.
//!
//! Each call is exact by the sorted list of the map's pairs, and walks the rows of the tree without
//! making that list: [`get`], [`next`] and [`prove`] go down one path, [`range`] visits only the
//! nodes that its answer meets, [`len`] visits each. Only [`root`] needs more of a root than its
//! link: each other call has a twin that takes only the link.
//!
//! ```
//! get(&mut rows, &root, &apple)                              // Some(30)
//! next(&mut rows, &root, Some(&apple))                       // Some((plum, 12))
//! range(alloc, &mut rows, &root, Some(&apple), None, 10)?    // the first ten pairs from apple on
//! prove(alloc, &mut rows, &root, &apple)?                    // for mst_proof::verify
//! ```
//!
//! `specs/` defines where a search in the rows of a node ends.
//!
//! A read writes no row and does not know of versions: its caller makes sure that the rows stay
//! while it reads. Only [`range`] and [`prove`] take memory, for what they return.
#![tactic(auto)]

mod buffer;
mod counting;
mod descent;
mod following;
mod laws;
mod lookup;
mod proving;
mod ranges;
mod roots;

pub use counting::{len, len_below};
pub use descent::head_at;
pub use following::{next, next_below};
pub use laws::each_map_may_be_read;
pub use lookup::{RowPlace, get, get_below, seek};
pub use proving::{prove, prove_below};
pub use ranges::{range, range_below};
pub use roots::root;
