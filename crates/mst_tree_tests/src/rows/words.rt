//! Worked words: of an entry, of a head, of their parts, and words that are of no row.
use super::entry_of;
use crate::confirming::{confirm, confirm_at};
use crate::pairs::pair;
use mst_arena::{HeadLinks, KeyedLinks, Row};
use std::process::Abort;

// The words of the key `ab` with the value `xyz`, and of a head, by hand.
const ENTRY_WORDS: [u64; 16] = [
    1,
    7,
    9,
    2 + 256 * 3,
    0x6162_0000_0000_0000,
    0,
    0,
    0,
    0x7879_7a00_0000_0000,
    0,
    0,
    0,
    0,
    0,
    0,
    0,
];

const HEAD_WORDS: [u64; 16] = [
    2,
    3,
    1,
    5,
    0,
    0x0001_0203_0405_0607,
    0x0809_0a0b_0c0d_0e0f,
    0x1011_1213_1415_1617,
    0x1819_1a1b_1c1d_1e1f,
    0,
    0,
    0,
    0,
    0,
    0,
    0,
];

const DIGEST: [u8; 32] = [
    0, 1, 2, 3, 4, 5, 6, 7, 8, 9, 10, 11, 12, 13, 14, 15, 16, 17, 18, 19, 20, 21, 22, 23, 24, 25,
    26, 27, 28, 29, 30, 31,
];

/// The head of those words.
const HEAD: Row = Row::Head {
    layer: 3,
    count: 1,
    first: 5,
    tail: 0,
    digest: DIGEST,
};

/// Whether these words are those of the row.
fn are_of(words: &[u64; 16], row: &Row) -> bool {
    Row::read(words).as_ref() == Some(row)
}

/// The words of a row, the index of one of them, and a word that makes them of no row.
const FAULTS: &[([u64; 16], usize, u64)] = &[
    (ENTRY_WORDS, 0, 0),
    (ENTRY_WORDS, 0, 3),
    (ENTRY_WORDS, 1, 65_536),
    (ENTRY_WORDS, 2, 65_536),
    (ENTRY_WORDS, 3, 256 * 3),
    (ENTRY_WORDS, 3, 33 + 256 * 3),
    (ENTRY_WORDS, 3, 2 + 256 * 65),
    (ENTRY_WORDS, 3, 2 + 256 * 3 + (1 << 32)),
    (ENTRY_WORDS, 4, 0x6162_0000_0000_0001),
    (ENTRY_WORDS, 7, 1),
    (ENTRY_WORDS, 15, 1),
    (HEAD_WORDS, 1, 129),
    (HEAD_WORDS, 2, 0),
    (HEAD_WORDS, 2, 65_535),
    (HEAD_WORDS, 3, 0),
    (HEAD_WORDS, 4, 65_536),
    (HEAD_WORDS, 9, 1),
];

/// Whether the words are of no row once this word stands at the index.
fn are_of_none(good: &[u64; 16], index: usize, word: u64) -> bool {
    if index >= 16 {
        return false;
    }
    let mut words = *good;
    words[index] = word;
    Row::read(&words).is_none()
}

#[test]
fn words_with_a_fault_are_no_row(rt: HostRuntime) {
    for (good, index, word) in FAULTS {
        confirm_at(&rt, are_of_none(good, *index, *word), *index);
    }
}

/// Whether the parts of an entry, the links with the key and the value, are read from their words.
fn entry_is_read(rt: &impl Abort) -> bool {
    let (key, value) = pair(rt, b"ab", b"xyz");
    let links = KeyedLinks {
        child: 7,
        next: 9,
        key,
    };
    let lengths = 2 + 256 * 3;
    KeyedLinks::read(&[7, 9, lengths, 0x6162_0000_0000_0000, 0, 0, 0]) == Some(links)
        && Row::read_value(lengths, &[0x7879_7a00_0000_0000, 0, 0, 0, 0, 0, 0, 0]) == Some(value)
}

/// The links of that head.
const HEAD_LINKS: HeadLinks = HeadLinks {
    layer: 3,
    count: 1,
    first: 5,
    tail: 0,
};

/// The words of its digest.
const DIGEST_WORDS: [u64; 4] = [
    0x0001_0203_0405_0607,
    0x0809_0a0b_0c0d_0e0f,
    0x1011_1213_1415_1617,
    0x1819_1a1b_1c1d_1e1f,
];

/// Whether the parts of a head, the links and the digest, are read from their words.
fn head_is_read() -> bool {
    HeadLinks::read(&[3, 1, 5, 0]) == Some(HEAD_LINKS) && Row::read_digest(&DIGEST_WORDS) == DIGEST
}

/// Whether no entry is read of the words of a key of 33 bytes, of a key of no byte, and of a child
/// past all links.
fn no_entry_is_read() -> bool {
    KeyedLinks::read(&[7, 9, 33, 0, 0, 0, 0]).is_none()
        && KeyedLinks::read(&[7, 9, 0, 0, 0, 0, 0]).is_none()
        && KeyedLinks::read(&[1 << 32, 9, 1, 0, 0, 0, 0]).is_none()
}

/// Whether neither a value of 65 bytes nor a head with a layer past all layers is read.
fn nothing_else_is_read() -> bool {
    Row::read_value(1 + 256 * 65, &[0; 8]).is_none() && HeadLinks::read(&[256, 1, 5, 0]).is_none()
}

#[test]
fn words_and_parts_by_hand(rt: HostRuntime) {
    let entry = entry_of(&rt, 7, 9, b"ab", b"xyz");
    let entry = are_of(&ENTRY_WORDS, &entry) && entry_is_read(&rt);
    let head = are_of(&HEAD_WORDS, &HEAD) && head_is_read();
    confirm(&rt, entry && head, "an entry and a head");
    let none = no_entry_is_read() && nothing_else_is_read();
    confirm(&rt, none, "words of no part");
}
