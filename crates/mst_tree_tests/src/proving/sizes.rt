//! Collisions in the proofs of maps of many sizes, and of nodes of many entries with long values,
//! in ample memory: no call may return that memory was refused. `tests/store/test_maps.py` has what
//! these proofs show.
use super::{has_free_proof, is_free, proof_for};
use crate::cases::{Case, ask};
use crate::pairs::{numbered, pairs_of_one_node};
use mst_key::{Format, Key, Value};
use std::alloc::Global;
use std::process::Abort;

/// A key after all others.
const ABSENT: &[u8] = &[0xff];

/// Whether neither its own proof nor another collides with the map's tree.
fn proofs_are_free(rt: &impl Abort, alloc: Global, pairs: &[(Key, Value)]) -> bool {
    let mut proof = proof_for(rt, alloc, Format::One, pairs, ABSENT);
    let own = is_free(rt, alloc, Format::One, pairs, (ABSENT, proof.as_slice()));
    // the last byte says that no child stands after the last entry
    let none = proof.pop() == Some(0);
    proof.push(1).expect(rt, "memory");
    own && none && is_free(rt, alloc, Format::One, pairs, (ABSENT, proof.as_slice()))
}

/// Whether that is so of the numbers below the end that stand in one node.
pub fn node_is_free(rt: &impl Abort, alloc: Global, end: u32) -> bool {
    let pairs = pairs_of_one_node(rt, alloc, end);
    proofs_are_free(rt, alloc, pairs.as_slice())
}

const NODES: &[Case] = &[Case::NodeFree(5_000), Case::NodeFree(69_815)];

#[test]
fn nodes_of_long_values(rt: HostRuntime) {
    ask(&rt, NODES);
}

/// Whether nothing in its own proof collides with the tree of this many of the pairs.
fn front_is_free(rt: &impl Abort, alloc: Global, pairs: &[(Key, Value)], count: usize) -> bool {
    match pairs.get(..count) {
        Some(front) => has_free_proof(rt, alloc, Format::One, front, ABSENT),
        None => false,
    }
}

/// Whether that is so of each map of the first numbers from one size to another.
pub fn fronts_are_free(rt: &impl Abort, alloc: Global, first: usize, last: usize) -> bool {
    let pairs = numbered(rt, alloc, 60_000);
    for count in first..=last {
        if !front_is_free(rt, alloc, pairs.as_slice(), count) {
            return false;
        }
    }
    true
}

const SIZES: &[Case] = &[
    Case::SizesFree(0, 2_000),
    Case::SizesFree(4_096, 4_096),
    Case::SizesFree(8_750, 8_750),
    Case::SizesFree(30_001, 30_001),
    Case::SizesFree(60_000, 60_000),
];

#[test]
fn no_collision_at_each_size_up_to_2000(rt: HostRuntime) {
    ask(&rt, SIZES);
}
