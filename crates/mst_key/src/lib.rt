//! Keys and values of the ordered map, the layers of keys, and the history of the changes to the
//! map.
//!
//! ```
//! let (apple, plum) = (Key::new(b"apple")?, Key::new(b"plum")?);
//! apple < plum                      // true: the order is bytewise
//! (apple.layer(), plum.layer())     // (0, 1): the SHA-256 of "plum" begins with one digit 0
//! Key::new(b"")                     // Err(KeySize): a key has 1 to 32 bytes
//! let change = Change::Put(apple, Value::new(b"30")?);
//! let event = Event { pass: 1, change };
//! ```
//!
//! `specs/` defines what the contracts of all crates speak of: the order of keys, a map with its
//! look-ups and changes, a history with the map that it leaves, and how bytes are written in a
//! line. `order_laws`, `map_laws`, `range_laws`, `history_laws`, `reply_laws`, `batch_laws` and
//! `layer_examples` prove what these definitions should satisfy.
//!
//! No map runs here: to contracts a map is the rising list of its pairs. `mst_store` keeps one.
#![tactic(auto)]

mod format;
mod history;
mod key;
mod laws;
mod layer;
mod memory;
mod value;

pub use format::Format;
pub use history::{Batch, Change, Edit, Event};
pub use key::{Key, KeySize};
pub use laws::{
    batch_laws, history_laws, layer_examples, map_laws, order_laws, range_laws, reply_laws,
};
pub use layer::layer_of;
pub use memory::Memory;
pub use value::{Value, ValueSize};
