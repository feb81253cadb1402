//! Many edits of a map, made as one change of the tree that stands in the rows.
//!
//! [`apply`] makes a batch of edits in the map that stands at a root, all or none. They may come in
//! any order, and of one key more than once.
//!
//! ```
//! let edits = [Edit::Put(apple, Value::new(b"35")?), Edit::Remove(pear)];
//! let root = apply(&mut rows, &mut desk, &root, alloc, &edits, Format::One)?;
//! ```
//!
//! The change is made by its plan: the tree that is to stand, with the nodes to be made in memory,
//! and of each tree that stays its link. So all memory is taken, and the room is known exactly,
//! before the first row is written. One edit needs no plan, nor does a batch in the empty map.
//!
//! From the top down:
//!
//! - `applying` leads to `single`, for one edit; `loading`, in the empty map; and `by_plan`.
//! - `planning` finds the plan. `mst_edits` sorts the edits and keeps the last one of each key;
//!   `updating` plans a few edits that put values at keys of the map. For others `opening` lists
//!   what the tree after them is built of (`items`, `standing`), and `building` plans it from the
//!   greatest layer down (`top`). Both keep what stands already (`sharing`).
//! - `marking` marks the nodes that a plan keeps.
//! - `carrying` refuses a plan for which no room is left, and otherwise does as `replacing`:
//!   `sowing` writes the nodes to be made next to the trees that are kept, and `felling` gives up
//!   the rest of the tree that stood.
//!
//! [`plans_beside`] says which plan makes only what does not stand yet, and [`plans_can_be_met`]
//! shows plans that can be carried out.
//!
//! In `specs/`: `Applying`, why a batch is not made; `Items` and `Opening`, what the tree after a
//! batch is built of; `Updating`, which edits keep the keys of a tree; `Known`, which of its pairs
//! have a row already; `Tops`, which of it is opened; `Beside`, the plan of a tree next to the one
//! that stands; `Plans`, which tree a plan is, what it keeps and what it takes; `Carrying` and
//! `Replacing`, a plan of a change of the map, and in place of the tree that stands; `Sowing`, what
//! is written; `Kept`, which nodes are kept and which rows fall.
#![tactic(auto)]

mod applying;
mod building;
mod by_plan;
mod carrying;
mod faults;
mod felling;
mod items;
mod laws;
mod loading;
mod marking;
mod opening;
mod plan;
mod planning;
mod releasing;
mod replacing;
mod sharing;
mod single;
mod sowing;
mod standing;
mod top;
mod updating;

pub use applying::apply;
pub use faults::BatchRefusal;
pub use laws::{plans_beside, plans_can_be_met};
pub use plan::{Origin, Plan, PlanEntry, PlanNode};
