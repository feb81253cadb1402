//! The sixteen words of a row.
ghost use Rattle.std.specs.Prelude.{[], ◌∷◌, ◌≡◌, ◌≢◌, ◌<◌, ◌≤◌, ◌+◌, ◌*◌, length, slice_index, Some, IsSome, IfSome, IfNone};
ghost use Rattle.mst_arena.specs.declared.row.Row.{Row};
ghost use Rattle.mst_arena.specs.Limits.{highest_link};
ghost use Rattle.mst_arena.specs.Row.{IsRow, HasBytes};
ghost use Rattle.mst_arena.specs.Words.{word_from, words_of, bytes_in, row_in, root_in, entry_tag, head_tag};

use crate::parts::{LENGTH_RADIX, bytes_of_four};
use crate::row::{HeadLinks, KeyedLinks, ROW_WORDS, Root, Row};
use mst_key::{Key, Value};

/// The first word of an entry.
const ENTRY_TAG: u64 = 1;

/// The first word of a head.
const HEAD_TAG: u64 = 2;

/// The byte at an index, or 0 past the end.
fn byte_or_zero(bytes: &[u8], index: usize) -> u8
    ensures byte { result ≡ slice_index bytes.now index }
{
    if index < bytes.len() { bytes[index] } else { 0 }
}

/// The word of the eight bytes from an index on, the first of them highest, if fewer than eight
/// bytes are left. Bytes past the end are 0.
fn last_word(bytes: &[u8], index: usize) -> u64
    requires small { index < 64 }
    ensures word { result ≡ word_from bytes.now index }
{
    u64::from_be_bytes([
        byte_or_zero(bytes, index),
        byte_or_zero(bytes, index + 1),
        byte_or_zero(bytes, index + 2),
        byte_or_zero(bytes, index + 3),
        byte_or_zero(bytes, index + 4),
        byte_or_zero(bytes, index + 5),
        byte_or_zero(bytes, index + 6),
        byte_or_zero(bytes, index + 7),
    ])
}

/// The word of eight bytes, the first of them highest.
pub(crate) fn word_of(bytes: &[u8], index: usize) -> u64
    requires there { index + 8 ≤ length bytes.now }
    ensures word { result ≡ word_from bytes.now index }
{
    u64::from_be_bytes([
        bytes[index],
        bytes[index + 1],
        bytes[index + 2],
        bytes[index + 3],
        bytes[index + 4],
        bytes[index + 5],
        bytes[index + 6],
        bytes[index + 7],
    ])
}

/// The word of the eight bytes from an index on, the first of them highest. Bytes past the end are
/// 0.
#[tactic(auto, using(crate::proofs::Packing::past_word))]
pub(crate) fn word_from(bytes: &[u8], index: usize) -> u64
    requires small { index < 64 }
    ensures word { result ≡ word_from bytes.now index }
{
    if index + 8 <= bytes.len() {
        word_of(bytes, index)
    } else if bytes.len() <= index {
        0
    } else {
        last_word(bytes, index)
    }
}

/// The entry that these words may be of. Nothing is said of words that spell none.
fn entry_of(words: &[u64; ROW_WORDS]) -> Option<Row>
    ensures exact { IsSome (row_in words.now) → slice_index words.now 0 ≡ entry_tag
        → row_in words.now ≡ result }
{
    let [
        _,
        child,
        next,
        lengths,
        k0,
        k1,
        k2,
        k3,
        v0,
        v1,
        v2,
        v3,
        v4,
        v5,
        v6,
        v7,
    ] = *words;
    let links = KeyedLinks::read(&[child, next, lengths, k0, k1, k2, k3])?;
    let value = Row::read_value(lengths, &[v0, v1, v2, v3, v4, v5, v6, v7])?;
    Some(Row::Entry {
        child: links.child,
        next: links.next,
        key: links.key,
        value,
    })
}

/// The head that these words may be of. Nothing is said of words that spell none.
fn head_of(words: &[u64; ROW_WORDS]) -> Option<Row>
    ensures exact { IsSome (row_in words.now) → slice_index words.now 0 ≡ head_tag
        → row_in words.now ≡ result }
{
    let [_, layer, count, first, tail, d0, d1, d2, d3, ..] = *words;
    let links = HeadLinks::read(&[layer, count, first, tail])?;
    Some(Row::Head {
        layer: links.layer,
        count: links.count,
        first: links.first,
        tail: links.tail,
        digest: Row::read_digest(&[d0, d1, d2, d3]),
    })
}

/// The row that these words may be of. Nothing is said of words that spell none.
fn candidate(words: &[u64; ROW_WORDS]) -> Option<Row>
    ensures exact { IsSome (row_in words.now) → row_in words.now ≡ result }
{
    match words[0] {
        ENTRY_TAG => entry_of(words),
        HEAD_TAG => head_of(words),
        _ => None,
    }
}

impl Row {
    /// The sixteen words of a row.
    ///
    /// The first is 1 for an entry and 2 for a head. An entry goes on with child, next, the key
    /// length plus `LENGTH_RADIX` times the value length, the key in four words and the value in
    /// eight; a head with layer, count, first, tail, and the digest in four words. Bytes are packed
    /// big-endian, eight a word, and what is left over is 0.
    pub fn words(&self) -> [u64; ROW_WORDS]
        requires limits { IsRow self.now }
        ensures words { result ≡ words_of self.now }
        ensures row { row_in result ≡ Some self.now }
    {
        match self {
            Row::Entry {
                child,
                next,
                key,
                value,
            } => entry_words(*child, *next, key, value),
            Row::Head {
                layer,
                count,
                first,
                tail,
                digest,
            } => head_words(*layer, *count, *first, *tail, digest),
        }
    }

    /// The row of these words. Returns `None` exactly if no row has them as its [`Row::words`].
    pub fn read(words: &[u64; ROW_WORDS]) -> Option<Row>
        ensures some { IfSome result (λ row. IsRow row × (words_of row ≡ words.now)) }
        ensures none { IfNone result ((row : Row) → IsRow row → HasBytes row
            → words_of row ≢ words.now) }
        ensures row { result ≡ row_in words.now }
    {
        let row = candidate(words)?;
        if row.is_within_limits() && row.words() == *words {
            Some(row)
        } else {
            None
        }
    }
}

/// The sixteen words of an entry.
fn entry_words(child: u32, next: u32, key: &Key, value: &Value) -> [u64; ROW_WORDS]
    ensures words { result ≡ words_of (Row.Entry child next key.now value.now) }
    ensures bytes { HasBytes (Row.Entry child next key.now value.now) }
{
    let (key, value) = (key.bytes(), value.bytes());
    [
        ENTRY_TAG,
        u64::from(child),
        u64::from(next),
        key.len() as u64 + LENGTH_RADIX * value.len() as u64,
        word_from(key, 0),
        word_from(key, 8),
        word_from(key, 16),
        word_from(key, 24),
        word_from(value, 0),
        word_from(value, 8),
        word_from(value, 16),
        word_from(value, 24),
        word_from(value, 32),
        word_from(value, 40),
        word_from(value, 48),
        word_from(value, 56),
    ]
}

/// The four words of a digest.
fn digest_words(digest: &[u8; 32]) -> [u64; 4]
    ensures words { result ≡ word_from digest.now 0 ∷ word_from digest.now 8
        ∷ word_from digest.now 16 ∷ word_from digest.now 24 ∷ [] }
    ensures bytes { bytes_in result ≡ digest.now }
{
    [
        word_from(digest, 0),
        word_from(digest, 8),
        word_from(digest, 16),
        word_from(digest, 24),
    ]
}

/// The sixteen words of a head.
fn head_words(layer: u8, count: u32, first: u32, tail: u32, digest: &[u8; 32]) -> [u64; ROW_WORDS]
    ensures words { result ≡ words_of (Row.Head layer count first tail digest.now) }
    ensures bytes { HasBytes (Row.Head layer count first tail digest.now) }
{
    let [d0, d1, d2, d3] = digest_words(digest);
    [
        HEAD_TAG,
        u64::from(layer),
        u64::from(count),
        u64::from(first),
        u64::from(tail),
        d0,
        d1,
        d2,
        d3,
        0,
        0,
        0,
        0,
        0,
        0,
        0,
    ]
}

impl Root {
    /// The five words of a root: the link, and the digest in four words, packed big-endian.
    pub fn words(&self) -> [u64; 5]
        ensures root { root_in result ≡ self.now }
    {
        let [first, second, third, last] = digest_words(&self.digest);
        [u64::from(self.link), first, second, third, last]
    }

    /// The root of five words, of which the first is a link, at most 65,535.
    pub fn read(words: &[u64; 5]) -> Root
        requires link { slice_index words.now 0 ≤ highest_link }
        ensures root { result ≡ root_in words.now }
    {
        let [link, first, second, third, last] = *words;
        Root {
            link: link as u32,
            digest: bytes_of_four(&[first, second, third, last]),
        }
    }
}
