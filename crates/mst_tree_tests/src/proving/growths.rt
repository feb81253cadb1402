//! Growths that are refused to the search for a collision. `tests/devices` has those of a tree and
//! of the text of a node, refused to the program.
use super::{is_free_in, proof_for};
use crate::cases::{Case, ask};
use crate::pairs::numbered;
use mst_key::{Format, Key, Value};
use std::alloc::Global;
use std::process::Abort;

/// The least bytes in which the search ends with no collision, in steps of 16, with the tree in
/// another heap: 8,192 if each heap refused it.
fn least_bytes(
    rt: &impl Abort,
    alloc: Global,
    format: Format,
    pairs: &[(Key, Value)],
    asked: (&[u8], &[u8]),
) -> usize {
    for bytes in (16..8_192usize).step_by(16) {
        if is_free_in(rt, alloc, format, (bytes, 32_768), pairs, asked) {
            return bytes;
        }
    }
    8_192
}

/// Whether a search among 40 numbers takes this many bytes: those of the texts of the nodes that it
/// meets, and what their lists hold in reserve.
pub fn takes(rt: &impl Abort, alloc: Global, format: Format, number: u8, bytes: usize) -> bool {
    let pairs = numbered(rt, alloc, 40);
    let (pairs, key) = (pairs.as_slice(), [0, 0, number]);
    let proof = proof_for(rt, alloc, format, pairs, &key);
    least_bytes(rt, alloc, format, pairs, (&key, proof.as_slice())) == bytes
}

/// The numbers that are asked for: the 40 numbers lack the last.
const SOUGHT: &[Case] = &[
    Case::Takes(Format::One, 40, 336),
    Case::Takes(Format::Two, 7, 1_456),
    Case::Takes(Format::Two, 40, 560),
];

#[test]
fn each_growth_of_the_search_is_refused(rt: HostRuntime) {
    ask(&rt, SOUGHT);
}

/// The key of the number 775.
const SOUGHT_KEY: &[u8] = &[0, 3, 7];

/// Whether a search among this many numbers ends in a heap of this many bytes.
pub fn is_small(rt: &impl Abort, alloc: Global, format: Format, count: u32, room: usize) -> bool {
    let pairs = numbered(rt, alloc, count);
    let pairs = pairs.as_slice();
    let proof = proof_for(rt, alloc, format, pairs, SOUGHT_KEY);
    let heaps = (room, count as usize * 512);
    is_free_in(
        rt,
        alloc,
        format,
        heaps,
        pairs,
        (SOUGHT_KEY, proof.as_slice()),
    )
}

const LARGE: &[Case] = &[
    Case::Small(Format::One, 1_000, 8_192),
    Case::Small(Format::Two, 1_000, 8_192),
    Case::Small(Format::One, 30_000, 16_384),
    Case::Small(Format::Two, 30_000, 16_384),
];

#[test]
fn a_search_takes_the_texts_of_the_nodes_that_it_meets(rt: HostRuntime) {
    ask(&rt, LARGE);
}
