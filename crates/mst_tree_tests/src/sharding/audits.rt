//! The audit of a directory.
use super::{ROOT, ROOT_TWO};
use crate::cases::{Case, Listings, ask};
use crate::pairs::{pair, prints};
use mst_key::{Format, Key, Value};
use mst_sharded_proof::audit_directory;
use std::alloc::Global;
use std::process::Abort;

/// The root digests of the three shards in format 1, and those in format 2.
const DIGESTS: [[u8; 32]; 6] = [
    [
        0xec, 0x36, 0x76, 0x36, 0x11, 0xdd, 0x79, 0x56, 0x0d, 0xe2, 0xa0, 0xe8, 0xc3, 0x1f, 0x63,
        0x3c, 0x3a, 0xab, 0xf2, 0x05, 0xe0, 0x95, 0xb9, 0x7b, 0x88, 0xe6, 0x29, 0x1d, 0x7c, 0xdf,
        0xbb, 0x25,
    ],
    [
        0x29, 0xee, 0xdf, 0x21, 0x0a, 0x21, 0x63, 0xcb, 0xa9, 0x98, 0x60, 0x3b, 0xa5, 0xcc, 0xd3,
        0x61, 0xa8, 0x18, 0x59, 0xd2, 0xd0, 0xad, 0x26, 0xcd, 0x90, 0xde, 0x11, 0xe1, 0x68, 0x91,
        0x96, 0x1a,
    ],
    [
        0xba, 0x1a, 0x09, 0x81, 0xe6, 0x78, 0xc0, 0xfd, 0xf1, 0x83, 0x0c, 0x94, 0x9f, 0x49, 0xa9,
        0x9d, 0xc7, 0x8f, 0x23, 0x8a, 0x43, 0x68, 0x4e, 0x3d, 0x4b, 0xaa, 0xfe, 0x65, 0xf4, 0x3c,
        0x1a, 0xa2,
    ],
    [
        0x81, 0x01, 0x0a, 0x67, 0x3f, 0xeb, 0xb5, 0x67, 0x54, 0x64, 0x53, 0x69, 0xf3, 0x40, 0xcc,
        0x90, 0x06, 0x31, 0x1c, 0xe1, 0x0c, 0x1a, 0x36, 0x87, 0xeb, 0x60, 0x21, 0x63, 0xba, 0x8e,
        0x8e, 0x7a,
    ],
    [
        0xaa, 0x9b, 0x95, 0xb8, 0x49, 0x92, 0xec, 0x02, 0x30, 0xf3, 0x25, 0xd8, 0x17, 0x18, 0x3d,
        0xaa, 0xf3, 0xc3, 0xe8, 0xce, 0xea, 0xa3, 0x8b, 0x2e, 0xa3, 0x7d, 0x38, 0xd1, 0x2f, 0x6e,
        0x95, 0xa4,
    ],
    [
        0x8b, 0x4d, 0x8a, 0xfb, 0xa2, 0x43, 0xb1, 0x16, 0x23, 0x41, 0xfb, 0x7d, 0x5e, 0x79, 0x9f,
        0x4e, 0x24, 0xac, 0x71, 0xbe, 0xb1, 0x5c, 0xa6, 0xef, 0x0e, 0x9c, 0x72, 0xc4, 0x6d, 0x29,
        0x22, 0xed,
    ],
];

/// The number of each digest.
const FIRST: usize = 0;

const SECOND: usize = 1;

const THIRD: usize = 2;

const FIRST_TWO: usize = 3;

const SECOND_TWO: usize = 4;

const THIRD_TWO: usize = 5;

/// How long a listing is with an upper bound of one byte, and without one.
const BOUND: usize = 33;

const NO_BOUND: usize = 32;

/// The pair of a listing: at its lower bound its digest and its upper bound, cut to the length.
fn listing_of(rt: &impl Abort, listing: (u8, usize, usize, u8)) -> (Key, Value) {
    let (low, digest, length, high) = listing;
    let mut held = [high; 33];
    held[..32].copy_from_slice(&DIGESTS[digest % 6]);
    pair(rt, &[low], &held[..length.min(33)])
}

/// The pairs of these listings.
fn listed(rt: &impl Abort, alloc: Global, listings: Listings) -> Vec<(Key, Value)> {
    let mut pairs = Vec::new(alloc);
    for listing in listings {
        pairs.push(listing_of(rt, *listing)).expect(rt, "memory");
    }
    pairs
}

/// The root digest of the map in a format.
fn root_in(format: Format) -> &'static [u8; 32] {
    match format {
        Format::One => &ROOT,
        Format::Two => &ROOT_TWO,
    }
}

/// Whether the audit with the root of the map in a format says what is expected.
pub fn is_audited(
    rt: &impl Abort,
    alloc: Global,
    format: Format,
    listings: Listings,
    words: &str,
) -> bool {
    let pairs = listed(rt, alloc, listings);
    match audit_directory(format, root_in(format), pairs.as_slice()) {
        Ok(()) => words == "passed",
        Err(fault) => prints(rt, alloc, &fault, words),
    }
}

const AUDITS: &[Case] = &[
    Case::Audited(
        Format::One,
        &[
            (0, FIRST, BOUND, b'd'),
            (b'd', SECOND, BOUND, b'm'),
            (b'm', THIRD, NO_BOUND, 0),
        ],
        "passed",
    ),
    Case::Audited(
        Format::Two,
        &[
            (0, FIRST_TWO, BOUND, b'd'),
            (b'd', SECOND_TWO, BOUND, b'm'),
            (b'm', THIRD_TWO, NO_BOUND, 0),
        ],
        "passed",
    ),
    // no shard, and a first one that begins above the least key
    Case::Audited(Format::One, &[], "A2"),
    Case::Audited(
        Format::One,
        &[(b'd', SECOND, BOUND, b'm'), (b'm', THIRD, NO_BOUND, 0)],
        "A3",
    ),
    // a digest that is cut short
    Case::Audited(
        Format::One,
        &[
            (0, FIRST, BOUND, b'd'),
            (b'd', SECOND, 1, 0),
            (b'm', THIRD, NO_BOUND, 0),
        ],
        "A4 1 L1",
    ),
    // lower bounds that fall, though each is an upper bound
    Case::Audited(
        Format::One,
        &[
            (0, FIRST, BOUND, b'm'),
            (b'm', THIRD, BOUND, b'd'),
            (b'd', SECOND, NO_BOUND, 0),
        ],
        "A4 1 L2",
    ),
    // the keys between c and d have no shard
    Case::Audited(
        Format::One,
        &[
            (0, FIRST, BOUND, b'c'),
            (b'd', SECOND, BOUND, b'm'),
            (b'm', THIRD, NO_BOUND, 0),
        ],
        "A4 0 L3",
    ),
    // the keys between d and e have two, or all above 00 have
    Case::Audited(
        Format::One,
        &[
            (0, FIRST, BOUND, b'e'),
            (b'd', SECOND, BOUND, b'm'),
            (b'm', THIRD, NO_BOUND, 0),
        ],
        "A4 0 L4",
    ),
    Case::Audited(
        Format::One,
        &[
            (0, FIRST, NO_BOUND, 0),
            (b'd', SECOND, BOUND, b'm'),
            (b'm', THIRD, NO_BOUND, 0),
        ],
        "A4 0 L4",
    ),
    // the keys from z on have no shard
    Case::Audited(
        Format::One,
        &[
            (0, FIRST, BOUND, b'd'),
            (b'd', SECOND, BOUND, b'm'),
            (b'm', THIRD, BOUND, b'z'),
        ],
        "A4 2 L5",
    ),
    // that of the other format
    Case::Audited(
        Format::Two,
        &[
            (0, FIRST, BOUND, b'd'),
            (b'd', SECOND, BOUND, b'm'),
            (b'm', THIRD, NO_BOUND, 0),
        ],
        "A5",
    ),
    // a directory of other shards
    Case::Audited(
        Format::One,
        &[(0, FIRST, BOUND, b'd'), (b'd', SECOND, NO_BOUND, 0)],
        "A5",
    ),
];

#[test]
fn audits_say_what_is_wrong_and_where(rt: HostRuntime) {
    ask(&rt, AUDITS);
}
