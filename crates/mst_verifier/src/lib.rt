//! The verifier of proofs for C, and for every language that calls C.
//!
//! A static library over `mst_proof`: it takes no memory, keeps no state and starts no thread.
//! `include/mst_verifier.h` declares its calls. They return numbers that never change
//! (`specs/Codes.antt`).
#![tactic(auto)]

ghost use Rattle.std.specs.Prelude.{◌≡◌, ◌≢◌, ◌≤◌, List, ℕ, Option, Some, length, IfSome};
ghost use Rattle.mst_key.specs.declared.format.Format.{Format};
ghost use Rattle.mst_key.specs.Bytes.{IsKey};
ghost use Rattle.mst_key.specs.Map.{Pair, map_get};
ghost use Rattle.mst_node.specs.Collision.{HasCollision};
ghost use Rattle.mst_node.specs.Trail.{proof_text};
ghost use Rattle.mst_proof.specs.Accepted.{Accepted};
ghost use Rattle.mst_proof.specs.Theorem.{HasRoot, CollidesWith};
ghost use Rattle.mst_sharded_proof.specs.Accepted.{ShardedAccepted};
ghost use Rattle.mst_sharded_proof.specs.Frame.{sharded_proof};
ghost use Rattle.mst_sharded_proof.specs.Theorem.{HasShardedRoot, directory_tree, shard_tree, sharded_texts};
ghost use Rattle.mst_verifier.specs.Codes.{code_of, room_after};
ghost use Rattle.mst_verifier.specs.Question.{answer_of, sharded_answer_of, format_named};
ghost use Rattle.mst_verifier.specs.Told.{Tells};
ghost use Rattle.mst_verifier.specs.Top.{TellsTop};

mod codes;
mod laws;
mod question;
mod telling;

use codes::NO_TEXT;
pub use laws::{code_laws, top_laws, worked_codes};
use mst_node::top_text;
use question::Kind;
use telling::tell;

/// What a proof of format 1 or 2 shows of a key in the map with this root digest: the length of the
/// key's value, which then stands first in the room, or a negative number: -1 if the key is absent,
/// -2 if the room is too small for the value, -3 for an unknown format, -4 if the root digest does
/// not have 32 bytes, -5 if the key does not have 1 to 32 bytes, and -11 to -20 if P1 to P10 is the
/// first test that the proof fails. The room keeps all other bytes.
#[unsafe(no_mangle)]
pub extern "C" fn mst_verify(
    format: u32,
    root: &[u8],
    key: &[u8],
    proof: &[u8],
    room: &mut [u8],
) -> i32
    ensures code { result ≡ code_of (length room.old)
        (answer_of format root.now key.now proof.now) }
    ensures room { room.new ≡ room_after room.old (answer_of format root.now key.now proof.now) }
    // What is returned is what the proof is accepted with, in the format that has the number.
    ensures accepted { (a : Option (List ℕ)) → Tells result room.new a
        → (f : Format) × (format_named format ≡ Some f) × Accepted f root.now key.now proof.now a }
    // The map's answer is returned if the proof is the map's and the value fits into the room.
    ensures complete { (f : Format) (m : List Pair) → format_named format ≡ Some f
        → length root.now ≡ 32 → IsKey key.now → HasRoot f m root.now
        → proof.now ≡ proof_text f m key.now
        → IfSome (map_get m key.now) (λ v. length v ≤ length room.old)
        → Tells result room.new (map_get m key.now) }
    // If another answer is returned for a map's root, two different texts have one SHA-256: a text
    // of the proof, and the text of the map's node at the same place on the way to the key (without
    // texts or without a node the empty text); or in format 2 the value that the proof claims, and
    // the map's value of the key.
    ensures sound { (f : Format) (m : List Pair) (a : Option (List ℕ))
        → format_named format ≡ Some f → HasRoot f m root.now → Tells result room.new a
        → a ≢ map_get m key.now
        → (one : List ℕ) × (other : List ℕ) × CollidesWith f m key.now proof.now one other }
{
    tell(Kind::Plain, format, root, key, proof, room)
}

/// What a proof shows of a key in the sharded map with this root digest, in format 1 or 2. Returns
/// what `mst_verify` returns, but for a proof that fails one of the tests S1 to S9 first: then -100
/// for S1 to -900 for S9, where for S4 and S9 the number of the test of the part is taken off too,
/// so that S4 P5 is -405. The room keeps all other bytes.
#[unsafe(no_mangle)]
pub extern "C" fn mst_verify_sharded(
    format: u32,
    root: &[u8],
    key: &[u8],
    proof: &[u8],
    room: &mut [u8],
) -> i32
    ensures code { result ≡ code_of (length room.old)
        (sharded_answer_of format root.now key.now proof.now) }
    ensures room { room.new ≡ room_after room.old
        (sharded_answer_of format root.now key.now proof.now) }
    // What is returned is what the proof is accepted with, in the format that has the number.
    ensures accepted { (a : Option (List ℕ)) → Tells result room.new a
        → (f : Format) × (format_named format ≡ Some f)
        × ShardedAccepted f root.now key.now proof.now a }
    // The map's answer is returned, whatever its splits, if the proof is the map's and the value
    // fits into the room.
    ensures complete { (f : Format) (m : List Pair) (splits : List (List ℕ))
        → format_named format ≡ Some f → length root.now ≡ 32 → IsKey key.now
        → HasShardedRoot f m splits root.now → proof.now ≡ sharded_proof f m splits key.now
        → IfSome (map_get m key.now) (λ v. length v ≤ length room.old)
        → Tells result room.new (map_get m key.now) }
    // If another answer is returned for the root of a map with some splits, two different texts
    // have one SHA-256: two of those of the proof's parts, those of the nodes of the directory's
    // tree and of the key's shard's, the empty text, and in format 2 the values.
    ensures sound { (f : Format) (m : List Pair) (splits : List (List ℕ)) (a : Option (List ℕ))
        → format_named format ≡ Some f → HasShardedRoot f m splits root.now
        → Tells result room.new a → a ≢ map_get m key.now
        → HasCollision (sharded_texts f proof.now (directory_tree f m splits)
        (shard_tree f m splits key.now)) }
{
    tell(Kind::Sharded, format, root, key, proof, room)
}

/// The length of the first text that a proof frames, which stands after the proof's first six
/// bytes, or -1 if there is none. The proof is not verified.
#[unsafe(no_mangle)]
pub extern "C" fn mst_top_text(proof: &[u8]) -> i64
    ensures text { TellsTop proof.now result }
{
    match top_text(proof) {
        Some(text) => text.len() as i64,
        None => NO_TEXT,
    }
}
