//! The verifier of proofs, and the collisions behind a false answer.
//!
//! A proof frames the texts of the nodes that a search for a key meets in a map's Merkle search
//! tree (Auvolat and Taïani 2019). `verify` follows them down from the root digest to the key's
//! value or its absence. It needs nothing of the store that made the proof.
//!
//! ```
//! match verify(&root, &apple, &proof) {
//!     Ok(Some(price)) => ..     // the map with this root digest has this price
//!     Ok(None) => ..            // it has no apple
//!     Err(fault) => ..          // the proof shows nothing: P1 to P9, the first test that fails
//! }
//! ```
//!
//! An answer is only as good as its root digest: who made that, and when, is not known here. If an
//! answer is false, `collide` names two texts with one SHA-256. `verify_in` and `collide_in` do the
//! same in either format. Proofs are made by `mst_read` and `mst_store`.
//!
//! The definitions that the contracts cite stand in `specs/`: `Verdict`, `Accepted`, `Frame`, and
//! in `mst_node` `Trail`.
#![tactic(auto)]

mod claim;
mod collision;
mod expected;
mod fault;
mod laws;
mod texts;
mod verifier;

pub use collision::{Pair, collide, collide_in};
pub use fault::ProofFault;
pub use laws::{
    collisions_among, each_map_has_its_root, faults_in_order, texts_by_grammar, trail_by_spans,
    trail_is_short,
};
pub use verifier::{verify, verify_in};
