//! Collisions in the proofs of larger maps. Transcripts have what these proofs show.
use super::has_free_proof;
use crate::cases::{Case, ask};
use crate::pairs::numbered;
use mst_key::{Format, Key, Value};
use std::alloc::Global;
use std::process::Abort;

/// Whether nothing collides in the proofs for a number and for its four bytes.
fn number_is_free(
    rt: &impl Abort,
    alloc: Global,
    format: Format,
    pairs: &[(Key, Value)],
    number: u32,
) -> bool {
    let bytes = number.to_be_bytes();
    has_free_proof(rt, alloc, format, pairs, &bytes[1..])
        && has_free_proof(rt, alloc, format, pairs, &bytes)
}

/// Whether that is so in the map of this many numbers for each one of such steps, up to two that it
/// does not have.
pub fn numbers_are_free(
    rt: &impl Abort,
    alloc: Global,
    format: Format,
    count: u32,
    step: usize,
) -> bool {
    let pairs = numbered(rt, alloc, count);
    for number in (0..count.saturating_add(2)).step_by(step.max(1)) {
        if !number_is_free(rt, alloc, format, pairs.as_slice(), number) {
            return false;
        }
    }
    true
}

const MAPS: &[Case] = &[
    Case::NumbersFree(Format::One, 0, 1),
    Case::NumbersFree(Format::One, 1, 1),
    Case::NumbersFree(Format::One, 17, 1),
    Case::NumbersFree(Format::One, 1000, 251),
    Case::NumbersFree(Format::Two, 0, 1),
    Case::NumbersFree(Format::Two, 1, 1),
    Case::NumbersFree(Format::Two, 17, 1),
    Case::NumbersFree(Format::Two, 1000, 251),
];

#[test]
fn no_collision_in_maps(rt: HostRuntime) {
    ask(&rt, MAPS);
}
