//! Collisions that are not there.
use super::{THREE_PROOF, TWO_PROOF, finds_none_alone, finds_none_in_one, is_free};
use crate::cases::{Case, Pairs, ask};
use crate::pairs::{TWO_PAIRS, bytes_of, key_of, spelt};
use mst_key::Format;
use std::alloc::Global;
use std::process::Abort;

/// The key `abc` with the value `a`.
const ONE_PAIR: Pairs = &[("abc", "a")];

const PROOFS: &[Case] = &[
    Case::NoCollision(Format::One, TWO_PAIRS, "b", TWO_PROOF),
    Case::NoCollision(Format::One, TWO_PAIRS, "b", THREE_PROOF),
    Case::NoCollision(Format::One, TWO_PAIRS, "b", "0100"),
    Case::NoCollision(Format::One, TWO_PAIRS, "b", "010100000000"),
    Case::NoCollision(Format::One, TWO_PAIRS, "b", ""),
    // the map's value is claimed, another one, absence, and neither
    Case::NoCollision(
        Format::Two,
        ONE_PAIR,
        "abc",
        "02010000002a020000010003616263ca978112ca1bbdcafac231b39a23dc4da786eff8147c4e72b9807785afee48bb00010161",
    ),
    Case::NoCollision(
        Format::Two,
        ONE_PAIR,
        "abc",
        "02010000002a020000010003616263ca978112ca1bbdcafac231b39a23dc4da786eff8147c4e72b9807785afee48bb00010162",
    ),
    Case::NoCollision(
        Format::Two,
        ONE_PAIR,
        "abc",
        "02010000002a020000010003616263ca978112ca1bbdcafac231b39a23dc4da786eff8147c4e72b9807785afee48bb0000",
    ),
    Case::NoCollision(
        Format::Two,
        ONE_PAIR,
        "abc",
        "02010000002a020000010003616263ca978112ca1bbdcafac231b39a23dc4da786eff8147c4e72b9807785afee48bb0002",
    ),
    Case::NoCollision(Format::Two, TWO_PAIRS, "b", "020000"),
    Case::NoCollision(Format::Two, TWO_PAIRS, "b", "02000101ff"),
    Case::NoCollision(Format::Two, TWO_PAIRS, "b", "02010000000000"),
    Case::NoCollision(Format::Two, TWO_PAIRS, "b", TWO_PROOF),
    Case::NoCollision(Format::Two, TWO_PAIRS, "b", ""),
];

/// Whether nothing in the proof collides by itself.
fn is_free_alone(rt: &impl Abort, alloc: Global, format: Format, key: &[u8], proof: &[u8]) -> bool {
    let key = key_of(rt, key);
    finds_none_alone(alloc, format, &key, proof)
        && (format == Format::Two || finds_none_in_one(alloc, &key, proof))
}

/// Whether nothing in the proof collides, neither by itself nor together with the map of these
/// pairs.
pub fn nothing_collides(
    rt: &impl Abort,
    alloc: Global,
    format: Format,
    rows: Pairs,
    key: &str,
    digits: &str,
) -> bool {
    let pairs = spelt(rt, alloc, rows);
    let proof = bytes_of(rt, alloc, digits);
    let (key, proof) = (key.as_bytes(), proof.as_slice());
    is_free_alone(rt, alloc, format, key, proof)
        && is_free(rt, alloc, format, pairs.as_slice(), (key, proof))
}

#[test]
fn no_collision(rt: HostRuntime) {
    ask(&rt, PROOFS);
}
