//! The hash of a node's text, which takes over what is kept of it.
ghost use Rattle.std.specs.Prelude.{◌≡◌, ◌≤◌, ◌++◌, ℕ, List, [], length, true, false};
ghost use Rattle.sha2.specs.Sha256.{sha256};
ghost use Rattle.mst_node.specs.Text.{child_text, counted, held_of, held_text};
ghost use Rattle.mst_prefix.specs.Kept.{HasTaken, AreSound};

use crate::beginnings::Beginnings;
use mst_key::Format;
use mst_node::{TextSink, digest};
use sha2::{Digest, Sha256};
use std::alloc::Allocator;

/// The hash of a node's text. With beginnings that were lent to it, it does not hash again what
/// they have of the text; without, it hashes all.
#[derive(Drop)]
pub struct TextHasher<A: Allocator> {
    hasher: Sha256,
    lent: Option<Box<Beginnings<A>, A>>,
}

impl<A: Allocator> TextSink for TextHasher<A> {
    ghost took = { λ h m. HasTaken h m };

    fn take(&mut self, bytes: &[u8]) {
        match &mut self.lent {
            None => self.hasher.update(bytes),
            Some(lent) => lent.take(&mut self.hasher, bytes),
        }
    }

    fn value_digest(&mut self, value: &[u8]) -> [u8; 32] {
        match &mut self.lent {
            None => digest(value),
            Some(lent) => lent.value_digest(value),
        }
    }
}

impl<A: Allocator> TextHasher<A> {
    /// A hasher of a text of no bytes, of which nothing is kept.
    pub fn alone() -> TextHasher<A>
        ensures empty { HasTaken result [] }
    {
        TextHasher {
            hasher: Sha256::new(),
            lent: None,
        }
    }

    /// A hasher of a text of no bytes.
    pub(crate) fn new(lent: Option<Box<Beginnings<A>, A>>) -> TextHasher<A>
        requires sound { AreSound lent }
        ensures empty { HasTaken result [] }
    {
        let hasher = Sha256::new();
        match lent {
            None => TextHasher { hasher, lent: None },
            Some(mut lent) => {
                lent.begin();
                TextHasher {
                    hasher,
                    lent: Some(lent),
                }
            }
        }
    }

    /// The entry to come is copied from a row to another, or written anew into a row, which is then
    /// both. What is kept for the one is kept for the other from here on.
    ///
    /// A writer calls it before it copies the row: then little is held in registers meanwhile.
    #[inline(always)]
    pub fn move_kept(&mut self, from: u32, to: u32, format: Format)
        ensures same { (m : List ℕ) → HasTaken self.old m → HasTaken self.new m }
    {
        if let Some(lent) = &mut self.lent {
            lent.move_kept(from, to, format);
        }
    }

    /// Takes an entry, as [`TextSink::entry`] does, once [`TextHasher::move_kept`] told of it. What
    /// is kept for its row is compared with the text up to here, and what is kept then is kept for
    /// the row.
    #[inline(always)]
    pub fn copied_entry(
        &mut self,
        format: Format,
        child: Option<[u8; 32]>,
        key: &[u8],
        value: &[u8],
    )
        requires key { length key.now ≤ 255 }
        requires value { length value.now ≤ 255 }
        ensures entry { (m : List ℕ) → HasTaken self.old m
            → HasTaken self.new (m ++ child_text child ++ counted key.now
            ++ held_text format (held_of format value.now)) }
    {
        if self.goes_on(format, child, key, value) {
            return;
        }
        // The child is made anew, so that the compiled code stores it here alone.
        match child {
            None => self.new_entry(format, None, key, value),
            Some(digest) => self.new_entry(format, Some(digest), key, value),
        }
    }

    /// Takes an entry if what is kept for its row is the text that ends with it. Otherwise it takes
    /// nothing.
    #[inline(always)]
    fn goes_on(&mut self, format: Format, child: Option<[u8; 32]>, key: &[u8], value: &[u8]) -> bool
        requires key { length key.now ≤ 255 }
        requires value { length value.now ≤ 255 }
        ensures entry { result ≡ true → (m : List ℕ) → HasTaken self.old m
            → HasTaken self.new (m ++ child_text child ++ counted key.now
            ++ held_text format (held_of format value.now)) }
        ensures same { result ≡ false → (m : List ℕ) → HasTaken self.old m → HasTaken self.new m }
    {
        match &mut self.lent {
            None => false,
            Some(lent) => lent.goes_on(&mut self.hasher, format, child, key, value),
        }
    }

    /// Takes an entry, and keeps it for its row.
    #[inline(never)]
    fn new_entry(&mut self, format: Format, child: Option<[u8; 32]>, key: &[u8], value: &[u8])
        requires key { length key.now ≤ 255 }
        requires value { length value.now ≤ 255 }
        ensures entry { (m : List ℕ) → HasTaken self.old m
            → HasTaken self.new (m ++ child_text child ++ counted key.now
            ++ held_text format (held_of format value.now)) }
    {
        self.entry(format, child, key, value);
        self.end_piece();
    }

    /// Ends an entry.
    fn end_piece(&mut self)
        ensures same { (m : List ℕ) → HasTaken self.old m → HasTaken self.new m }
    {
        if let Some(lent) = &mut self.lent {
            lent.end_piece(&mut self.hasher);
        }
    }

    /// The digest of the text, and the beginnings that were lent.
    pub(crate) fn finish(self) -> ([u8; 32], Option<Box<Beginnings<A>, A>>)
        requires taken { (m : List ℕ) × HasTaken self m }
        ensures digest { (m : List ℕ) → HasTaken self m → result.0 ≡ sha256 m }
        ensures sound { AreSound result.1 }
    {
        let TextHasher { mut hasher, lent } = self;
        match lent {
            None => (hasher.finalize(), None),
            Some(mut lent) => {
                lent.let_go(&mut hasher);
                (hasher.finalize(), Some(lent))
            }
        }
    }
}
