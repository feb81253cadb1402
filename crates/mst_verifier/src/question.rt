//! What is asked of the library, and what it comes to.
ghost use Rattle.std.specs.Prelude.{◌≡◌};
ghost use Rattle.mst_verifier.specs.Question.{answer_to, judged as judged_by, format_named as named_format};

use mst_key::{Format, Key, Value};
use mst_proof::{ProofFault, verify_in};
use mst_sharded_proof::{ShardedFault, verify_sharded};

/// What a proof is of.
#[derive(Clone, Copy)]
pub(crate) enum Kind {
    /// One map.
    Plain,
    /// A sharded map.
    Sharded,
}

/// Why there is no answer.
#[derive(Drop)]
pub(crate) enum Refusal {
    /// No format has this number.
    Format,
    /// A root digest has 32 bytes.
    Root,
    /// A key has 1 to 32 bytes.
    Key,
    /// The proof fails this test first.
    Proof(ProofFault),
    /// The proof of a sharded map fails this test first.
    ShardedProof(ShardedFault),
}

/// The format that has this number.
fn format_named(number: u32) -> Option<Format>
    ensures format { result ≡ named_format number }
{
    match number {
        1 => Some(Format::One),
        2 => Some(Format::Two),
        _ => None,
    }
}

/// What the proof shows of the key, once the question is within its limits.
fn judged(
    kind: Kind,
    format: Format,
    root: &[u8; 32],
    key: &Key,
    proof: &[u8],
) -> Result<Option<Value>, Refusal>
    ensures judged { result ≡ judged_by kind format root.now key.now proof.now }
{
    match kind {
        Kind::Plain => match verify_in(format, root, key, proof) {
            Ok(answer) => Ok(answer),
            Err(fault) => Err(Refusal::Proof(fault)),
        },
        Kind::Sharded => match verify_sharded(format, root, key, proof) {
            Ok(answer) => Ok(answer),
            Err(fault) => Err(Refusal::ShardedProof(fault)),
        },
    }
}

/// What the proof shows of the key. The format is tested first, then the root digest, the key, and
/// the proof.
pub(crate) fn answer(
    kind: Kind,
    number: u32,
    root: &[u8],
    key: &[u8],
    proof: &[u8],
) -> Result<Option<Value>, Refusal>
    ensures answer { result ≡ answer_to kind number root.now key.now proof.now }
{
    let Some(format) = format_named(number) else {
        return Err(Refusal::Format);
    };
    let Some(root) = root.as_array::<32>() else {
        return Err(Refusal::Root);
    };
    let Ok(key) = Key::new(key) else {
        return Err(Refusal::Key);
    };
    judged(kind, format, root, &key, proof)
}
