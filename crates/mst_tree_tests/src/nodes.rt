//! Root digests by another program (Python's hashlib) of lists that are larger than a store's map,
//! and of such that stand in one node. Transcripts (`tests/transcripts`) have texts outside the
//! grammar, and `tests/verifier/edges.c` the first texts of proofs.
use crate::cases::{Case, ask};
use crate::pairs::{are_digits, numbered, pair, pairs_of_one_node, root};
use mst_key::{Key, Value};
use mst_node::{ascending, is_map};
use std::alloc::Global;
use std::process::Abort;

/// Whether the list is a map of this many pairs with this root digest.
fn is_rooted(
    rt: &impl Abort,
    alloc: Global,
    pairs: &[(Key, Value)],
    count: usize,
    digits: &str,
) -> bool {
    pairs.len() == count
        && ascending(pairs)
        && is_map(pairs)
        && are_digits(rt, alloc, root(rt, pairs).as_slice(), digits)
}

/// Whether this many numbers have this root digest.
pub fn numbers_are_rooted(rt: &impl Abort, alloc: Global, count: u32, digits: &str) -> bool {
    let pairs = numbered(rt, alloc, count);
    is_rooted(rt, alloc, pairs.as_slice(), count as usize, digits)
}

/// Whether the numbers below the end that stand in one node are so many, with this root digest.
pub fn node_is_rooted(
    rt: &impl Abort,
    alloc: Global,
    end: u32,
    count: usize,
    digits: &str,
) -> bool {
    let pairs = pairs_of_one_node(rt, alloc, end);
    is_rooted(rt, alloc, pairs.as_slice(), count, digits)
}

/// Whether keys have this root digest, of which all but the last are of layer 0 and lie in the one
/// gap before it.
pub fn one_gap_is_rooted(rt: &impl Abort, alloc: Global, digits: &str) -> bool {
    let mut pairs = pairs_of_one_node(rt, alloc, 69_815);
    pairs.push(pair(rt, b"39", b"y")).expect(rt, "memory");
    is_rooted(rt, alloc, pairs.as_slice(), 65_535, digits)
}

const ROOTS: &[Case] = &[
    Case::NumbersRoot(
        0,
        "e3b0c44298fc1c149afbf4c8996fb92427ae41e4649b934ca495991b7852b855",
    ),
    Case::NumbersRoot(
        1_000,
        "e3ebf19010993996db63103ea8ed08a6d671d540853375cce026e9dfe3fdff56",
    ),
    Case::NumbersRoot(
        65_535,
        "88ccfa716643f985a7f35ecd029a20c7c6f96f8bc477c66a4ce70dbc3c992dc0",
    ),
    Case::NodeRoot(
        5_000,
        4_712,
        "7280d75bcf4ed528c9fe2cb28bbeb57d00335c1695fb4b2feaa14aded4bbe66f",
    ),
    Case::NodeRoot(
        69_815,
        65_534,
        "e1ca513f5c5e875dbd096ec92f7071748c1af9d5850b3383f62cb1f076f03f73",
    ),
    Case::OneGapRoot("288e94ea5d6cf27eafdc9bc120fda75bc605ffb4ba35f630407a3b8be4bd3dca"),
];

#[test]
fn roots(rt: HostRuntime) {
    ask(&rt, ROOTS);
}
