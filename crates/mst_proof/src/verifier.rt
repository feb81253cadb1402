//! The verifier.
ghost use Rattle.std.specs.Prelude.{◌≡◌, ◌≢◌, ◌↔◌, List, ℕ, Option};
ghost use Rattle.mst_key.specs.declared.format.Format.TheVariants.{One};
ghost use Rattle.mst_key.specs.Map.{Pair, map_get};
ghost use Rattle.mst_node.specs.Trail.{proof_text};
ghost use Rattle.mst_proof.specs.Theorem.{HasRoot, CollidesWith};
ghost use Rattle.std.specs.declared.result.Result.TheVariants.{Ok};
ghost use Rattle.mst_proof.specs.Accepted.{Accepted};
ghost use Rattle.mst_proof.specs.Verdict.{verdict, judgement, settled, opened};

use crate::claim::Claim;
use crate::expected::{Expected, Step};
use crate::fault::ProofFault;
use crate::texts::Texts;
use mst_key::{Format, Key, Value};
use mst_node::{digest, empty_digest};

/// What the texts show that a node holds of the key: one text after another, each expected from the
/// one before.
fn follow(
    format: Format,
    root: &[u8; 32],
    key: &Key,
    texts: Texts<'_>,
) -> Result<Option<Value>, ProofFault>
    ensures held { result ≡ judgement format root.now key.now texts.entry }
{
    let mut texts = texts;
    if texts.is_empty() {
        return if *root == empty_digest() {
            Ok(None)
        } else {
            Err(ProofFault::OtherDigest)
        };
    }
    let mut expected = Expected::first(root);
    while let Some(text) = texts.next() {
        match expected.step(format, key, text)? {
            Step::Onward(next) => expected = next,
            Step::Decided(answer) => {
                return if texts.is_empty() {
                    Ok(answer)
                } else {
                    Err(ProofFault::TextBehind)
                };
            }
        }
    }
    Err(ProofFault::Unfinished)
}

/// The value that is claimed, if its SHA-256 is what is held.
fn open(value: Value, held: &Value) -> Result<Option<Value>, ProofFault>
    ensures opened { result ≡ opened value held.now }
{
    if digest(value.bytes()).as_slice() == held.bytes() {
        Ok(Some(value))
    } else {
        Err(ProofFault::OtherValue)
    }
}

/// What the claim and what is held of the key give together.
fn settle(format: Format, claim: Claim, held: Option<Value>) -> Result<Option<Value>, ProofFault>
    ensures settled { result ≡ settled format claim held }
{
    match format {
        Format::One => Ok(held),
        Format::Two => match claim {
            Claim::Absence => match held {
                None => Ok(None),
                Some(_) => Err(ProofFault::OtherValue),
            },
            Claim::Given(value) => match held {
                None => Err(ProofFault::OtherValue),
                Some(held) => open(value, &held),
            },
            Claim::Nothing => Err(ProofFault::OtherValue),
            Claim::Unfit => Err(ProofFault::OtherValue),
        },
    }
}

/// The verdict on a proof.
fn judge(
    format: Format,
    root: &[u8; 32],
    key: &Key,
    proof: &[u8],
) -> Result<Option<Value>, ProofFault>
    ensures verdict { result ≡ verdict format root.now key.now proof.now }
{
    let (texts, claim) = Texts::of(format, proof)?;
    let held = follow(format, root, key, texts)?;
    settle(format, claim, held)
}

/// What the proof shows of the key in the map with this root digest: its value, or `None` for its
/// absence. If the proof fails a test, returns the first test that it fails.
///
/// A proof is the format's byte 01, the number of texts in one byte, and the texts, each after its
/// length in four bytes, the high one first. The texts are those of the nodes that a search for the
/// key meets, from the top down to the one that decides: the one that holds the key, or whose gap
/// for the key has no child. The frame is tested before any text is hashed. Then each text is read
/// in place, and hashed once, as is each of its keys; the call takes no memory.
pub fn verify(root: &[u8; 32], key: &Key, proof: &[u8]) -> Result<Option<Value>, ProofFault>
    ensures verdict { result ≡ verdict One root.now key.now proof.now }
    // An answer is returned exactly if the proof is accepted with it.
    ensures accepted { (answer : Option (List ℕ)) → (result ≡ Ok answer)
        ↔ Accepted One root.now key.now proof.now answer }
    // The proof that a map gives shows the map's answer.
    ensures complete { (m : List Pair) → HasRoot One m root.now → proof.now ≡ proof_text One m
        key.now
        → result ≡ Ok (map_get m key.now) }
    // If a proof shows another answer for a map's root, two different texts have one SHA-256: a
    // text of the proof, and the text of the map's node at the same place on the way to the key.
    // Without texts, or without a node, the empty text stands there.
    ensures sound { (m : List Pair) (answer : Option (List ℕ)) → HasRoot One m root.now
        → result ≡ Ok answer → answer ≢ map_get m key.now
        → (one : List ℕ) × (other : List ℕ) × CollidesWith One m key.now proof.now one other }
{
    verify_in(Format::One, root, key, proof)
}

/// What the proof shows of the key in the map with this root digest in a format, as `verify` does
/// in format 1.
///
/// In format 2 a proof begins with the byte 02, and a tail follows its texts: 00 for an absent
/// key, or 01, the length of the value in one byte, and the value. The last text holds the SHA-256
/// of the value, and the value is hashed once. So the pair behind a false answer may also be the
/// value that the proof claims and the map's value of the key.
pub fn verify_in(
    format: Format,
    root: &[u8; 32],
    key: &Key,
    proof: &[u8],
) -> Result<Option<Value>, ProofFault>
    ensures verdict { result ≡ verdict format root.now key.now proof.now }
    ensures accepted { (answer : Option (List ℕ)) → (result ≡ Ok answer)
        ↔ Accepted format root.now key.now proof.now answer }
    ensures complete { (m : List Pair) → HasRoot format m root.now
        → proof.now ≡ proof_text format m key.now → result ≡ Ok (map_get m key.now) }
    ensures sound { (m : List Pair) (answer : Option (List ℕ)) → HasRoot format m root.now
        → result ≡ Ok answer → answer ≢ map_get m key.now
        → (one : List ℕ) × (other : List ℕ) × CollidesWith format m key.now proof.now one other }
{
    judge(format, root, key, proof)
}
