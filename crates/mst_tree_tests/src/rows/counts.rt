//! What the calls read from the rows: a range no more than its limit needs, a look-up and a next
//! pair one path, a count of the pairs the heads of all nodes and the entries above layer 0.
//!
//! The rows are of 300 pairs in three layers, with the numbers in three bytes as keys. The counts
//! were worked out separately, from the layers of these keys (Python's hashlib): the head of each
//! node that is met, its entries up to the one that ends the search in it, and the value of each
//! pair of the answer. An entry whose way was asked for is read once more if its links are needed:
//! that of the bound of a next pair, and of a range that has a lower bound the first entry that is
//! not below it in each node on the way whose pairs are added. A range that has an upper bound asks
//! each of its pairs, and in each node on the way the one that ends it, for their way to it.
use crate::confirming::{confirm, confirm_at};
use crate::pairs::{key_of, numbered, numbered_key};
use crate::rows::counted::Reads;
use crate::rows::standing::StandingMap;
use mst_key::{Format, Key};
use std::alloc::Global;
use std::process::Abort;

/// The map of 300 pairs.
fn map_of_300(rt: &impl Abort, alloc: Global) -> StandingMap {
    let pairs = numbered(rt, alloc, 300);
    StandingMap::new(rt, alloc, Format::One, pairs.as_slice())
}

/// Whether no more was read than this many heads, entries and values, and nothing else.
fn is_within(reads: Reads, heads: u32, entries: u32, values: u32) -> bool {
    reads.heads <= heads && reads.entries <= entries && reads.values <= values && reads.others == 0
}

/// The key of a number, if there is one.
fn bound(rt: &impl Abort, number: Option<u32>) -> Option<Key> {
    Some(numbered_key(rt, number?))
}

/// What is asked of the map.
#[derive(Clone, Copy)]
enum Ask {
    /// The pairs between two numbers, at most this many.
    Range(Option<u32>, Option<u32>, usize),
    /// The value of a number's key.
    Get(u32),
    /// The value of the key just after that of 49, which the map lacks.
    GetBehind49,
    /// The next pair above a number's key.
    Next(Option<u32>),
    /// The root digest, of which no value is read.
    Root,
}

/// How many pairs stand between two keys, at most this many.
fn range_of(
    rt: &impl Abort,
    alloc: Global,
    map: &mut StandingMap,
    (from, to): (Option<u32>, Option<u32>),
    limit: usize,
) -> usize {
    let (from, to) = (bound(rt, from), bound(rt, to));
    let found = map.range(alloc, from.as_ref(), to.as_ref(), limit);
    found.expect(rt, "memory").len()
}

/// Whether this many pairs are in the answer.
fn answers(rt: &impl Abort, alloc: Global, map: &mut StandingMap, ask: Ask, pairs: usize) -> bool {
    match ask {
        Ask::Range(from, to, limit) => range_of(rt, alloc, map, (from, to), limit) == pairs,
        Ask::Get(number) => map.get(&numbered_key(rt, number)).is_some() == (pairs == 1),
        Ask::GetBehind49 => map.get(&key_of(rt, &[0, 0, 49, 0])).is_some() == (pairs == 1),
        Ask::Next(after) => map.next(bound(rt, after).as_ref()).is_some() == (pairs == 1),
        Ask::Root => {
            let _ = map.root();
            pairs == 0
        }
    }
}

/// What is asked, and how many heads, entries and values are read for it at most. The answer has as
/// many pairs as values are read.
type Case = (Ask, u32, u32, u32);

/// Whether the answer has this many pairs, and no more was read for it.
fn holds(
    rt: &impl Abort,
    alloc: Global,
    map: &mut StandingMap,
    (ask, heads, entries, values): Case,
) -> bool {
    map.forget_reads();
    answers(rt, alloc, map, ask, values as usize) && is_within(map.reads(), heads, entries, values)
}

const READS: &[Case] = &[
    // a range reads no row past its limit
    (Ask::Range(None, None, 0), 0, 0, 0),
    (Ask::Range(None, None, 1), 3, 3, 1),
    (Ask::Range(None, None, 2), 3, 4, 2),
    (Ask::Range(None, None, 10), 3, 12, 10),
    (Ask::Range(None, None, 300), 22, 300, 300),
    (Ask::Range(Some(100), None, 0), 0, 0, 0),
    (Ask::Range(Some(100), None, 1), 3, 27, 1),
    (Ask::Range(Some(100), None, 2), 3, 28, 2),
    (Ask::Range(Some(100), None, 10), 4, 37, 10),
    (Ask::Range(Some(17), Some(19), 1), 3, 22, 1),
    (Ask::Range(Some(17), Some(19), 10), 3, 30, 2),
    (Ask::Range(Some(150), Some(160), 2), 3, 16, 2),
    (Ask::Range(Some(150), Some(160), 300), 3, 38, 10),
    // a look-up reads one path
    (Ask::Get(0), 3, 3, 1),
    (Ask::Get(39), 2, 4, 1),
    (Ask::Get(100), 3, 26, 1),
    (Ask::Get(150), 3, 12, 1),
    (Ask::Get(286), 3, 41, 1),
    (Ask::Get(299), 3, 7, 1),
    (Ask::GetBehind49, 3, 16, 0),
    (Ask::Root, 0, 0, 0),
    // the next pair is on one path
    (Ask::Next(None), 3, 3, 1),
    (Ask::Next(Some(39)), 3, 7, 1),
    (Ask::Next(Some(100)), 3, 27, 1),
    (Ask::Next(Some(150)), 3, 14, 1),
    (Ask::Next(Some(246)), 3, 22, 1),
    (Ask::Next(Some(299)), 3, 8, 0),
];

#[test]
fn no_call_reads_more_rows_than_it_needs(rt: HostRuntime) {
    let mut map = map_of_300(&rt, rt.alloc());
    for (place, case) in READS.iter().enumerate() {
        confirm_at(&rt, holds(&rt, rt.alloc(), &mut map, *case), place);
    }
}

/// How many pairs are counted in a map of the first numbers in a format, and how many heads and
/// entries are read for it: all nodes, and the entries above the lowest layer
/// (`vectors/nodes.py`).
type Count = (Format, u32, u32, u32);

const COUNTS: &[Count] = &[
    (Format::One, 0, 0, 0),
    (Format::One, 1, 1, 0),
    (Format::One, 17, 1, 0),
    (Format::One, 300, 22, 19),
    (Format::One, 3_000, 185, 175),
    (Format::Two, 0, 0, 0),
    (Format::Two, 1, 1, 0),
    (Format::Two, 17, 4, 3),
    (Format::Two, 300, 83, 76),
    (Format::Two, 3_000, 732, 707),
];

/// Whether each pair is counted, and no more is read for it.
fn counts_all(rt: &impl Abort, alloc: Global, (format, count, heads, entries): Count) -> bool {
    let pairs = numbered(rt, alloc, count);
    let mut map = StandingMap::new(rt, alloc, format, pairs.as_slice());
    map.forget_reads();
    map.len() == u64::from(count) && is_within(map.reads(), heads, entries, 0)
}

#[test]
fn each_pair_is_counted_by_the_heads_of_nodes(rt: HostRuntime) {
    for (place, case) in COUNTS.iter().enumerate() {
        confirm_at(&rt, counts_all(&rt, rt.alloc(), *case), place);
    }
}

#[test]
fn the_entries_of_a_planted_node_lie_side_by_side(rt: HostRuntime) {
    let map = map_of_300(&rt, rt.alloc());
    confirm(&rt, map.apart() == 0, "entries in rows apart");
}
