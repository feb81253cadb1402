//! The verifier of proofs of a sharded map.
//!
//! A sharded map is a map whose keys are split into intervals, its shards, each with a Merkle
//! search tree of its own (Auvolat and Taïani 2019). Over them stands a directory, itself such a
//! tree: from the lower bound of each shard to its root digest and its upper bound. The root digest
//! of the directory is that of the whole map. A proof for a key is two proofs one below the other:
//! that the directory lists a shard in whose interval the key lies, and what this shard has of the
//! key.
//!
//! ```
//! match verify_sharded(Format::One, &root, &grape, &proof) {
//!     Ok(Some(price)) => ..     // the map with this root digest has this price
//!     Ok(None) => ..            // it has no grape
//!     Err(fault) => ..          // the proof shows nothing: S1 to S9, the first test that fails
//! }
//! ```
//!
//! `verify_sharded` needs nothing of the splits: the bounds that it tests stand in the proof. It
//! sees the listing of one shard alone. `audit_directory` looks at all of them, and finds whether
//! each key has exactly one shard. If an answer is false, `collide_sharded` names two texts with
//! one SHA-256. `join` writes a proof from its parts.
//!
//! The definitions that the contracts cite stand in `specs/`: `Shards`, `Verdict`, `Accepted`,
//! `Frame`, `Theorem`, and of the audit `Audit`.
#![tactic(auto)]

mod audit;
mod collision;
mod fault;
mod frame;
mod laws;
mod verifier;
mod writer;

pub use audit::{AuditFault, ListingFault, audit_directory};
pub use collision::collide_sharded;
pub use fault::ShardedFault;
pub use laws::{
    each_sharded_map_has_its_root, faults_in_order, one_root, proofs_are_short, shards_of_keys,
};
pub use verifier::verify_sharded;
pub use writer::join;
