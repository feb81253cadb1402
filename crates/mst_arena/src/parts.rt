//! The parts of a row, each from the words that it stands in. The sixteen words are counted from 0.
ghost use Rattle.std.specs.Prelude.{◌≡◌, ◌≤◌, ◌<◌, ◌+◌, ◌/◌, ◌%◌, ◌^◌, ◌↔◌, ℕ, List, map, take, slice_index, slice_range, Some, IsSome, IfSome, IsOk, IfOk};
ghost use Rattle.mst_key.specs.Bytes.{IsKey, IsValue};
ghost use Rattle.std.specs.List.{range_with_len};
ghost use Rattle.mst_arena.specs.Row.{head_links, head_digest, keyed_links, entry_pair, entry_value};
ghost use Rattle.mst_arena.specs.Words.{byte_of_words, bytes_in, part_in, lengths_word, first_key_word, first_value_word, first_digest_word, length_radix, row_words};

use crate::row::{HeadLinks, KeyedLinks, Row};
use mst_key::{Key, KeySize, Value, ValueSize};

/// The word of an entry's lengths has that of the key, and this times that of the value.
pub const LENGTH_RADIX: u64 = 256;

/// The 32 bytes of four words, the highest byte of each word first.
///
/// There is no loop. Each word's bytes are copied as a piece, so that the compiled code stores them
/// at once.
pub(crate) fn bytes_of_four(words: &[u64; 4]) -> [u8; 32]
    ensures bytes { result ≡ map (byte_of_words words.now) (range_with_len 0 32) }
{
    let [a, b, c, d] = *words;
    let mut bytes = [0; 32];
    bytes[..8].copy_from_slice(&a.to_be_bytes());
    bytes[8..16].copy_from_slice(&b.to_be_bytes());
    bytes[16..24].copy_from_slice(&c.to_be_bytes());
    bytes[24..].copy_from_slice(&d.to_be_bytes());
    bytes
}

/// The 64 bytes of eight words, as [`bytes_of_four`] has those of four.
pub(crate) fn bytes_of_eight(words: &[u64; 8]) -> [u8; 64]
    ensures bytes { result ≡ map (byte_of_words words.now) (range_with_len 0 64) }
{
    let [a, b, c, d, e, f, g, h] = *words;
    let mut bytes = [0; 64];
    bytes[..32].copy_from_slice(&bytes_of_four(&[a, b, c, d]));
    bytes[32..].copy_from_slice(&bytes_of_four(&[e, f, g, h]));
    bytes
}

/// The 16 bytes of two words, as [`bytes_of_four`] has those of four.
fn bytes_of_two(words: &[u64; 2]) -> [u8; 16]
    ensures bytes { result ≡ map (byte_of_words words.now) (range_with_len 0 16) }
{
    let [a, b] = *words;
    let mut bytes = [0; 16];
    bytes[..8].copy_from_slice(&a.to_be_bytes());
    bytes[8..].copy_from_slice(&b.to_be_bytes());
    bytes
}

/// The key of the first `len` bytes of words.
///
/// Keys of 16 and of 32 bytes have an arm of their own, in which the compiled code knows how many
/// bytes it copies: there it moves words, and otherwise it calls what copies any number.
fn key_of(words: &[u64; 4], len: usize) -> Result<Key, KeySize>
    requires few { len ≤ 32 }
    ensures ok { IfOk result
        (λ key. key ≡ take len (map (byte_of_words words.now) (range_with_len 0 32))) }
    ensures when { IsOk result
        ↔ IsKey (take len (map (byte_of_words words.now) (range_with_len 0 32))) }
{
    let [a, b, c, d] = *words;
    match len {
        16 => Key::new(&bytes_of_two(&[a, b])),
        32 => Key::new(&bytes_of_four(&[a, b, c, d])),
        _ => Key::new(&bytes_of_four(&[a, b, c, d])[..len]),
    }
}

/// The value of the first `len` bytes of words; 32 and 64 bytes have an arm as in [`key_of`].
fn value_of(words: &[u64; 8], len: usize) -> Result<Value, ValueSize>
    requires few { len ≤ 64 }
    ensures ok { IfOk result
        (λ value. value ≡ take len (map (byte_of_words words.now) (range_with_len 0 64))) }
    ensures when { IsOk result
        ↔ IsValue (take len (map (byte_of_words words.now) (range_with_len 0 64))) }
{
    let [a, b, c, d, _, _, _, _] = *words;
    match len {
        32 => Value::new(&bytes_of_four(&[a, b, c, d])),
        64 => Value::new(&bytes_of_eight(words)),
        _ => Value::new(&bytes_of_eight(words)[..len]),
    }
}

impl HeadLinks {
    /// The layer, the count and the links of a head, from words 1 to 4 of its sixteen.
    ///
    /// They are these four numbers if the first fits one byte and each other four bytes, and
    /// otherwise none. Whether they are within the limits of a head is not tested.
    pub fn read(words: &[u64; 4]) -> Option<HeadLinks>
        ensures some { IfSome result (λ head. (head.layer ≡ slice_index words.now 0)
            × (head.count ≡ slice_index words.now 1) × (head.first ≡ slice_index words.now 2)
            × (head.tail ≡ slice_index words.now 3)) }
        ensures when { IsSome result ↔ ((slice_index words.now 0 < 2 ^ 8)
            × (slice_index words.now 1 < 2 ^ 32) × (slice_index words.now 2 < 2 ^ 32)
            × (slice_index words.now 3 < 2 ^ 32)) }
        ensures part { (all : List ℕ) → words.now ≡ slice_range all 1 5
            → IsSome (part_in head_links all) → part_in head_links all ≡ result }
    {
        Some(HeadLinks {
            layer: u8::try_from(words[0]).ok()?,
            count: u32::try_from(words[1]).ok()?,
            first: u32::try_from(words[2]).ok()?,
            tail: u32::try_from(words[3]).ok()?,
        })
    }
}

impl KeyedLinks {
    /// The links and the key of an entry, from words 1 to 7 of its sixteen.
    ///
    /// The links are the first two of these words. The key is the first bytes of the last four, as
    /// many as the low byte of the third word says. The result is `None` exactly if a link does not
    /// fit four bytes, or the key would have no bytes or more than 32.
    pub fn read(words: &[u64; 7]) -> Option<KeyedLinks>
        ensures some { IfSome result (λ entry. (entry.child ≡ slice_index words.now 0)
            × (entry.next ≡ slice_index words.now 1)
            × (entry.key ≡ take (slice_index words.now 2 % length_radix)
            (bytes_in (slice_range words.now 3 7)))) }
        ensures when { IsSome result ↔ ((slice_index words.now 0 < 2 ^ 32)
            × (slice_index words.now 1 < 2 ^ 32) × (0 < slice_index words.now 2 % length_radix)
            × (slice_index words.now 2 % length_radix ≤ 32)) }
        ensures part { (all : List ℕ) → words.now ≡ slice_range all 1 8
            → IsSome (part_in keyed_links all) → part_in keyed_links all ≡ result }
    {
        let [child, next, lengths, a, b, c, d] = *words;
        let len = (lengths % LENGTH_RADIX) as usize;
        if len > 32 {
            return None;
        }
        Some(KeyedLinks {
            child: u32::try_from(child).ok()?,
            next: u32::try_from(next).ok()?,
            key: key_of(&[a, b, c, d], len).ok()?,
        })
    }
}

impl Row {
    /// The digest of a head, from words 5 to 8 of its sixteen: all their bytes.
    pub fn read_digest(words: &[u64; 4]) -> [u8; 32]
        ensures bytes { result ≡ bytes_in words.now }
        ensures part { (all : List ℕ)
            → words.now ≡ slice_range all first_digest_word (first_digest_word + 4)
            → IsSome (part_in head_digest all) → part_in head_digest all ≡ Some result }
    {
        bytes_of_four(words)
    }

    /// The value of an entry, from word 3 of its sixteen, which has the lengths, and words 8 to 15.
    ///
    /// The value is the first bytes of the eight words, as many as word 3 says above its low byte.
    /// The result is `None` exactly if these are more than 64.
    pub fn read_value(lengths: u64, words: &[u64; 8]) -> Option<Value>
        ensures some { IfSome result
            (λ value. value ≡ take (lengths / length_radix) (bytes_in words.now)) }
        ensures when { IsSome result ↔ (lengths / length_radix ≤ 64) }
        ensures part { (all : List ℕ) → lengths ≡ slice_index all lengths_word
            → words.now ≡ slice_range all first_value_word row_words
            → IsSome (part_in entry_value all) → part_in entry_value all ≡ result }
    {
        let len = lengths / LENGTH_RADIX;
        if len > 64 {
            return None;
        }
        value_of(words, len as usize).ok()
    }

    /// The key and the value of an entry, from word 3 of its sixteen, which has the lengths, from
    /// words 4 to 7, and from words 8 to 15.
    ///
    /// Of the words of an entry it returns that entry's pair. Where the lengths are known, the
    /// compiled code makes both with no test of them.
    #[inline(always)]
    pub fn read_pair(lengths: u64, key: &[u64; 4], value: &[u64; 8]) -> Option<(Key, Value)>
        ensures part { (all : List ℕ) → lengths ≡ slice_index all lengths_word
            → key.now ≡ slice_range all first_key_word first_value_word
            → value.now ≡ slice_range all first_value_word row_words
            → IsSome (part_in keyed_links all) → part_in entry_pair all ≡ result }
    {
        let len = lengths % LENGTH_RADIX;
        let size = lengths / LENGTH_RADIX;
        if len > 32 {
            return None;
        }
        if size > 64 {
            return None;
        }
        let key = key_of(key, len as usize).ok()?;
        let value = value_of(value, size as usize).ok()?;
        Some((key, value))
    }
}
