//! The pairs of a map after a batch, also with each growth refused. Transcripts
//! (`tests/transcripts`) have all batches of up to three edits, made in a store.
use crate::cases::{Case, Edits, Pairs, ask};
use crate::heaps::{heap_of, is_made};
use crate::pairs::{key_of, spelt, value_of};
use mst_edits::edited_pairs;
use mst_key::{Edit, Key, Value};
use mst_node::is_map;
use std::alloc::{Allocator, Global};
use std::process::Abort;

const BATCHES: &[Case] = &[
    Case::Applied(&[("a", "x"), ("c", "y")], &[], &[("a", "x"), ("c", "y")]),
    // of edits of one key the last decides
    Case::Applied(
        &[("a", "x")],
        &[
            ("b", Some("x")),
            ("a", Some("z")),
            ("b", Some("y")),
            ("a", None),
        ],
        &[("b", "y")],
    ),
    // a key that is removed and put again, and one that is put and removed
    Case::Applied(
        &[("a", "x"), ("b", "y")],
        &[("b", None), ("c", Some("z")), ("b", Some("")), ("c", None)],
        &[("a", "x"), ("b", "")],
    ),
    // removes of keys that are not there, before, between and after the pairs
    Case::Applied(
        &[("b", "x"), ("d", "y")],
        &[("e", None), ("c", None), ("a", None)],
        &[("b", "x"), ("d", "y")],
    ),
    // falling keys, in an empty map
    Case::Applied(
        &[],
        &[("ab", Some("1")), ("a", Some("2")), ("B", Some("3"))],
        &[("B", "3"), ("a", "2"), ("ab", "1")],
    ),
];

fn edit_of(rt: &impl Abort, key: &str, value: Option<&str>) -> Edit {
    let key = key_of(rt, key.as_bytes());
    match value {
        Some(value) => Edit::Put(key, value_of(rt, value.as_bytes())),
        None => Edit::Remove(key),
    }
}

fn edits_of(rt: &impl Abort, alloc: Global, spelt: Edits) -> Vec<Edit> {
    let mut edits = Vec::new(alloc);
    for (key, value) in spelt {
        edits.push(edit_of(rt, key, *value)).expect(rt, "memory");
    }
    edits
}

/// Whether the pairs after the edits are these; `None` if memory is refused for them.
fn are_after<A: Allocator + Copy>(
    alloc: A,
    pairs: &[(Key, Value)],
    edits: &[Edit],
    after: &[(Key, Value)],
) -> Option<bool> {
    if !is_map(pairs) {
        return Some(false);
    }
    match edited_pairs(alloc, pairs, edits) {
        Ok(found) => Some(found.as_slice() == after),
        Err(_) => None,
    }
}

/// Whether the pairs after a batch are made in a heap of this many bytes. Ends the test if they are
/// wrong, or if the heap keeps anything of them.
fn are_made(
    rt: &impl Abort,
    alloc: Global,
    bytes: usize,
    pairs: &[(Key, Value)],
    edits: &[Edit],
    after: &[(Key, Value)],
) -> bool {
    let heap = heap_of(rt, alloc, bytes);
    let found = are_after(&heap, pairs, edits, after);
    is_made(rt, &heap, found)
}

/// In how many heaps of rising sizes, 16 bytes apart, a batch is refused memory. In the next one
/// its pairs are made.
fn refusals(
    rt: &impl Abort,
    alloc: Global,
    pairs: &[(Key, Value)],
    edits: &[Edit],
    after: &[(Key, Value)],
) -> usize {
    for count in 0..256usize {
        if are_made(rt, alloc, 64 + 16 * count, pairs, edits, after) {
            return count;
        }
    }
    256
}

/// Whether these are the pairs after a batch, which is refused memory in the smallest heaps.
pub fn is_applied(
    rt: &impl Abort,
    alloc: Global,
    before: Pairs,
    edits: Edits,
    after: Pairs,
) -> bool {
    let edits = edits_of(rt, alloc, edits);
    let pairs = spelt(rt, alloc, before);
    let after = spelt(rt, alloc, after);
    let count = refusals(rt, alloc, &pairs, &edits, &after);
    (4..256).contains(&count)
}

#[test]
fn the_pairs_after_a_batch_and_each_growth_refused(rt: HostRuntime) {
    ask(&rt, BATCHES);
}
