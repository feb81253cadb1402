//! What takes the text of a node, and the pieces that such a text is made of.
ghost use Rattle.std.specs.Prelude.{◌≡◌, ◌≤◌, ℕ, List, [], ◌++◌, length, Option, Some, None, IfSome, IfOk, OnErr};
ghost use Rattle.sha2.specs.Hashers.{Holds256};
ghost use Rattle.sha2.specs.Sha256.{sha256};
ghost use Rattle.mst_node.specs.Text.{heading, format_byte as byte_of, child_text, counted, held_of, held_text, told_text};

use crate::hashing::digest;
use crate::short::ShortText;
use mst_key::{Format, Memory};
use sha2::{Digest, Sha256};
use std::alloc::Allocator;
use std::marker::Model;

/// What takes the text of a node piece by piece: a hasher, or a text in memory. Only this trait
/// says how a piece is spelt.
pub trait TextSink: Drop {
    // These are the bytes that it took.
    ghost took: { Self → List ℕ → Type 0 };

    /// Takes bytes after those that it took.
    fn take(&mut self, bytes: &[u8])
        ensures took { (m : List ℕ) → took self.old m → took self.new (m ++ bytes.now) };

    /// Takes what stands in front of the entries: the format's byte, the layer, and the number
    /// of of entries in two bytes, the high one first.
    final fn heading(&mut self, format: Format, layer: u8, count: u16)
        ensures heading { (m : List ℕ) → took self.old m
            → took self.new (m ++ heading format layer count) }
    {
        self.take([format_byte(format), layer].as_slice());
        self.take(count.to_be_bytes().as_slice());
    }

    /// The SHA-256 of a value, which stands for it in format 2. A sink that remembers digests need
    /// not hash again.
    fn value_digest(&mut self, value: &[u8]) -> [u8; 32]
        ensures digest { result ≡ sha256 value.now }
        ensures same { (m : List ℕ) → took self.old m → took self.new m }
    {
        digest(value)
    }

    /// Takes an entry: the child before it, its key, and its value or, in format 2, the SHA-256 of
    /// that. It takes an entry of a node in one piece, since each piece costs a hasher some forty
    /// instructions.
    final fn entry(&mut self, format: Format, child: Option<[u8; 32]>, key: &[u8], value: &[u8])
        requires key { length key.now ≤ 255 }
        requires value { length value.now ≤ 255 }
        ensures entry { (m : List ℕ) → took self.old m
            → took self.new (m ++ child_text child ++ counted key.now
            ++ held_text format (held_of format value.now)) }
    {
        let digest = digest_in(self, format, value);
        let mut entry = ShortText::new();
        take_parts(&mut entry, child, key, value, digest);
        match entry.bytes() {
            Some(bytes) => self.take(bytes),
            None => take_parts(self, child, key, value, digest),
        }
    }

    /// Takes a child, also the last one: a byte 1 and its digest, or a byte 0 for none.
    final fn child(&mut self, child: Option<[u8; 32]>)
        ensures child { (m : List ℕ) → took self.old m → took self.new (m ++ child_text child) }
    {
        match child {
            None => self.take([0].as_slice()),
            Some(digest) => {
                self.take([1].as_slice());
                self.take(digest.as_slice());
            }
        }
    }
}

/// Hands over an entry in pieces. A text in memory takes it so at less cost than by
/// [`TextSink::entry`].
pub fn take_entry<S: TextSink>(
    sink: &mut S,
    format: Format,
    child: Option<[u8; 32]>,
    key: &[u8],
    value: &[u8],
)
    requires key { length key.now ≤ 255 }
    requires value { length value.now ≤ 255 }
    ensures entry { (m : List ℕ) → S.took sink.old m
        → S.took sink.new (m ++ child_text child ++ counted key.now
        ++ held_text format (held_of format value.now)) }
{
    let digest = digest_in(sink, format, value);
    take_parts(sink, child, key, value, digest);
}

/// What stands for a value in a text of a format, if that is its digest.
fn digest_in<S: TextSink>(sink: &mut S, format: Format, value: &[u8]) -> Option<[u8; 32]>
    ensures told { told_text result value.now ≡ held_text format (held_of format value.now) }
    ensures same { (m : List ℕ) → S.took sink.old m → S.took sink.new m }
{
    match format {
        Format::One => None,
        Format::Two => Some(sink.value_digest(value)),
    }
}

/// Hands over the parts of an entry: the child before it, its key, and its value or the digest of
/// that.
fn take_parts<S: TextSink>(
    sink: &mut S,
    child: Option<[u8; 32]>,
    key: &[u8],
    value: &[u8],
    digest: Option<[u8; 32]>,
)
    requires key { length key.now ≤ 255 }
    requires value { length value.now ≤ 255 }
    ensures parts { (m : List ℕ) → S.took sink.old m
        → S.took sink.new (m ++ child_text child ++ counted key.now ++ told_text digest value.now) }
{
    sink.child(child);
    take_counted(sink, key);
    match digest {
        None => take_counted(sink, value),
        Some(digest) => sink.take(digest.as_slice()),
    }
}

/// Hands over bytes. Of the lengths that most keys and values have, the compiled code then knows
/// how many it copies.
fn take_bytes<S: TextSink>(sink: &mut S, bytes: &[u8])
    ensures took { (m : List ℕ) → S.took sink.old m → S.took sink.new (m ++ bytes.now) }
{
    match bytes.len() {
        16 => sink.take(&bytes[..16]),
        32 => sink.take(&bytes[..32]),
        _ => sink.take(bytes),
    }
}

/// Hands over bytes after their number, at most 255.
fn take_counted<S: TextSink>(sink: &mut S, bytes: &[u8])
    requires few { length bytes.now ≤ 255 }
    ensures counted { (m : List ℕ) → S.took sink.old m → S.took sink.new (m ++ counted bytes.now) }
{
    sink.take([bytes.len() as u8].as_slice());
    take_bytes(sink, bytes);
}

/// The byte that begins a text of a format.
pub fn format_byte(format: Format) -> u8
    ensures byte { result ≡ byte_of format }
{
    match format {
        Format::One => 1,
        Format::Two => 2,
    }
}

impl TextSink for Sha256 {
    ghost took = { λ s m. Holds256 s m };

    fn take(&mut self, bytes: &[u8]) {
        self.update(bytes);
    }
}

/// A text that grows in memory. A refused growth ends it, and `finish` then returns `Memory`.
#[derive(Drop)]
pub struct TextBuffer<A: Allocator> {
    bytes: Vec<u8, A>,
    refused: Option<Memory>,
}

/// Contracts see the bytes, or `None` once a growth was refused.
impl<A: Allocator> Model for TextBuffer<A> {
    ghost use Rattle.std.specs.Prelude.{List, ℕ, Option, Some, None, cond, is_some};

    ghost Value = { Option (List ℕ) };

    ghost view = { λ s. cond (is_some s.refused) None (Some s.bytes.items) };
}

impl<A: Allocator> TextBuffer<A> {
    /// A text of no bytes.
    pub fn new(alloc: A) -> TextBuffer<A>
        ensures empty { result ≡ Some [] }
    {
        TextBuffer {
            bytes: Vec::new(alloc),
            refused: None,
        }
    }

    /// The bytes. Returns `Memory` only if a growth was refused.
    pub fn finish(self) -> Result<Vec<u8, A>, Memory>
        ensures bytes { IfOk result (λ bytes. self ≡ Some bytes.items) }
        ensures refused { OnErr result (self ≡ None) }
    {
        match self.refused {
            Some(refused) => Err(refused),
            None => Ok(self.bytes),
        }
    }
}

impl<A: Allocator> TextSink for TextBuffer<A> {
    ghost took = { λ s m. IfSome s (λ bytes. bytes ≡ m) };

    fn take(&mut self, bytes: &[u8]) {
        match self.refused {
            Some(_) => {}
            None => match self.bytes.extend_from_slice(bytes) {
                Ok(()) => {}
                Err(refused) => self.refused = Some(Memory::from(refused)),
            },
        }
    }
}
