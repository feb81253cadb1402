//! A store: one ordered map that several passes, each in a thread of its own, read and write. Each
//! read pins the current version in one step, and waits for no other pass.
//!
//! ```
//! let shape = Shape { rows: 16, passes: 2, format: Format::One };
//! let (store, seats) = Store::open(rt.alloc(), shape)?;
//! let Ok(mut passes) = store.deal(rt.alloc(), seats) else { .. };
//! let (Some(mut reader), Some(mut writer)) = (passes.pop(), passes.pop()) else { .. };
//! writer.try_put(&apple, &Value::new(b"30")?)?     // None: apple had no value
//! meet(&mut reader, &mut writer);                  // the reader has now seen that
//! let mut pinned = reader.pin();
//! writer.try_put(&apple, &Value::new(b"35")?)?     // Some(30)
//! pinned.get(&apple)                               // Some(30), until unpin
//! pinned.unpin().get(&apple)                       // Some(35)
//! ```
//!
//! One pass at a time writes. Meanwhile [`Pass::try_put`] and [`Pass::try_remove`] of another pass
//! return [`Busy`](WriteFault::Busy), and its [`Pass::put`] and [`Pass::remove`] wait and may never
//! return. [`Pass::try_apply`] and [`Pass::apply`] make many edits in one turn, as one version;
//! [`Pass::prepare`] makes them, and leaves open whether they are published.
//!
//! What all passes saw and did is one history; after [`meet`] or [`settle`] passes have seen the
//! same part of it. `specs/Passes.antt` has the definitions that the contracts cite.
//!
//! A store does not grow, and does not outlive its process. The rows of a pinned version are not
//! used again, so a pass that is dropped while it pins keeps them for good.
#![tactic(auto)]

mod faults;
mod laid;
mod laws;
mod noting;
mod pass;
mod pinned;
mod preparing;
mod settling;
mod store;
mod waiting;

pub use faults::{BatchFault, ChangeFault, OpenFault};
pub use laid::{Laid, LaidPinned, LaidPrepared};
pub use laws::{event_laws, free_rows_laws, meeting_laws, preparing_laws, room_laws};
pub use mst_arena::MOST_ROWS;
pub use mst_batching::ApplyFault;
pub use mst_key::{Format, Memory};
pub use mst_versions::{Busy, MigrateFault, VersionList, WriteFault};
pub use mst_words::Shape;
pub use pass::Pass;
pub use pinned::Pinned;
pub use preparing::{Prepared, Revealed};
pub use settling::{meet, settle};
pub use store::{Seats, Store, is_shape};
