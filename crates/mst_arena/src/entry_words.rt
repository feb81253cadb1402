//! The text of an entry of any lengths, made of the words of its row.
//!
//! In format 1 it is laid into an array, the key as 32 bytes and the value as 64, whatever their
//! lengths: so the compiled code stores words, and copies bytes whose number it does not know once,
//! at the end.
ghost use Rattle.std.specs.Prelude.{◌≡◌, ◌≤◌, ◌+◌, ◌/◌, ◌%◌, ◌++◌, ℕ, List, take};
ghost use Rattle.mst_node.specs.Text.{child_text, counted, held_of, held_text};
ghost use Rattle.mst_prefix.specs.Kept.{HasTaken};
ghost use Rattle.mst_arena.specs.Words.{bytes_in, length_radix};

use crate::parts::{LENGTH_RADIX, bytes_of_eight, bytes_of_four};
use mst_key::Format;
use mst_node::TextSink;
use mst_prefix::TextHasher;
use std::alloc::Allocator;

/// The most bytes that an entry has in a text of format 1: a byte and a digest, and the longest key
/// and the longest value, each after its length.
const LONGEST: usize = 131;

/// Lays bytes into a text from a place on. Returns the place behind the first of them, as many as
/// `len` says: what is laid next begins there.
#[inline(always)]
fn lay<const N: usize>(text: &mut [u8; LONGEST], at: usize, bytes: &[u8; N], len: usize) -> usize
    requires room { at + N ≤ 131 }
    requires part { len ≤ N }
    ensures place { result ≡ at + len }
    ensures text { take result text.new ≡ take at text.old ++ take len bytes.now }
{
    text[at..at + N].copy_from_slice(bytes);
    at + len
}

/// Lays a child into a text: a byte 1 and its digest, or a byte 0 for none. Returns the place
/// behind it.
#[inline(always)]
fn lay_child(text: &mut [u8; LONGEST], child: Option<[u8; 32]>) -> usize
    ensures place { result ≤ 33 }
    ensures text { take result text.new ≡ child_text child }
{
    match child {
        None => lay(text, 0, &[0], 1),
        Some(digest) => {
            let behind = lay(text, 0, &[1], 1);
            lay(text, behind, &digest, 32)
        }
    }
}

/// Hands over the entry of format 1 whose row has these words: word 3 of its sixteen, which has the
/// lengths, words 4 to 7, and words 8 to 15.
#[inline(always)]
pub fn take_words<S: TextSink>(
    sink: &mut S,
    child: Option<[u8; 32]>,
    lengths: u64,
    key: &[u64; 4],
    value: &[u64; 8],
)
    requires key { lengths % length_radix ≤ 32 }
    requires value { lengths / length_radix ≤ 64 }
    ensures entry { (m : List ℕ) → S.took sink.old m → S.took sink.new (m ++ child_text child
        ++ counted (take (lengths % length_radix) (bytes_in key.now))
        ++ counted (take (lengths / length_radix) (bytes_in value.now))) }
{
    let (len, size) = (lengths % LENGTH_RADIX, lengths / LENGTH_RADIX);
    let mut text = [0; LONGEST];
    let behind = lay_child(&mut text, child);
    let behind = lay(&mut text, behind, &[len as u8], 1);
    let behind = lay(&mut text, behind, &bytes_of_four(key), len as usize);
    let behind = lay(&mut text, behind, &[size as u8], 1);
    let end = lay(&mut text, behind, &bytes_of_eight(value), size as usize);
    sink.take(&text[..end]);
}

/// Hands over an entry that was copied to the hash of its new node's text, in any format. The words
/// of its row are as in [`take_words`].
#[inline(always)]
pub fn hash_copied<A: Allocator>(
    hasher: &mut TextHasher<A>,
    format: Format,
    child: Option<[u8; 32]>,
    lengths: u64,
    key: &[u64; 4],
    value: &[u64; 8],
)
    requires key { lengths % length_radix ≤ 32 }
    requires value { lengths / length_radix ≤ 64 }
    ensures entry { (m : List ℕ) → HasTaken hasher.old m
        → HasTaken hasher.new (m ++ child_text child
        ++ counted (take (lengths % length_radix) (bytes_in key.now))
        ++ held_text format (held_of format (take (lengths / length_radix) (bytes_in value.now)))) }
{
    let (len, size) = (lengths % LENGTH_RADIX, lengths / LENGTH_RADIX);
    let key = bytes_of_four(key);
    let value = bytes_of_eight(value);
    hasher.copied_entry(format, child, &key[..len as usize], &value[..size as usize]);
}
