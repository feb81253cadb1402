//! A key that is sought, and the way to it from an entry.
ghost use Rattle.std.specs.Prelude.{◌≡◌, ◌∷◌, [], length};
ghost use Rattle.mst_key.specs.Bytes.{IsKey, IsBytes};
ghost use Rattle.mst_arena.specs.Words.{word_from};
ghost use Rattle.mst_arena.specs.Ways.{way_at};

use crate::words::{word_from, word_of};
use mst_key::Key;
use std::cmp::Ordering;
use std::marker::Model;

/// A key that is sought, with its bytes as words too, so that a search over words compares numbers.
#[derive(Drop)]
pub struct Sought {
    key: Key,
    words: [u64; 4],
}

/// Contracts see the list of the key's bytes.
impl Model for Sought {
    ghost use Rattle.std.specs.Prelude.{◌≡◌, ◌∷◌, [], List, ℕ};
    ghost use Rattle.mst_key.specs.Bytes.{IsKey, IsBytes};
    ghost use Rattle.mst_arena.specs.Words.{word_from};

    ghost Value = { List ℕ };

    ghost view = { λ s. s.key };

    ghost invariant = { λ s. IsKey s.key × IsBytes s.key
        × (s.words ≡ word_from s.key 0 ∷ word_from s.key 8
        ∷ word_from s.key 16 ∷ word_from s.key 24 ∷ []) };
}

/// Where a search goes on from an entry.
#[derive(Clone, Copy, PartialEq, Eq)]
pub enum Way {
    /// Down to the tree at this link: the key is below the entry's.
    Child(u32),
    /// Nowhere: the entry has the key.
    Here,
    /// To the entry at this link: the key is above the entry's.
    Next(u32),
}

/// Where a search among the entries of a node ends. What is left begins with the entry at the link.
#[derive(Clone, Copy)]
pub enum Stop {
    /// In the gap before the entry at this link: its key is the first that is above the key.
    Gap {
        link: u32,
        /// The link of the tree in the gap.
        child: u32,
        /// How many entries are left.
        left: u32,
    },
    /// At the entry at this link, which has the key.
    Found {
        link: u32,
        /// How many entries are left.
        left: u32,
    },
    /// Behind the last entry: the key is above all their keys.
    End,
}

/// The bytes of a key as four words. A key of 16 bytes has an arm of its own, in which the compiled
/// code reads two words at once.
#[tactic(auto, using(crate::proofs::Packing::past_word))]
fn four_words(bytes: &[u8]) -> [u64; 4]
    ensures words { result ≡ word_from bytes.now 0 ∷ word_from bytes.now 8
        ∷ word_from bytes.now 16 ∷ word_from bytes.now 24 ∷ [] }
{
    if bytes.len() == 16 {
        [word_of(bytes, 0), word_of(bytes, 8), 0, 0]
    } else {
        [
            word_from(bytes, 0),
            word_from(bytes, 8),
            word_from(bytes, 16),
            word_from(bytes, 24),
        ]
    }
}

impl Sought {
    /// The key to be sought.
    #[inline(always)]
    pub fn new(key: &Key) -> Sought
        ensures key { result ≡ key.now }
    {
        Sought {
            key: key.copy(),
            words: four_words(key.bytes()),
        }
    }

    /// The key.
    pub fn key(&self) -> &Key
        ensures key { result.now ≡ self.now }
    {
        &self.key
    }

    /// The bytes of the key in four words, the first of them highest; what is left over is 0.
    pub fn words(&self) -> [u64; 4]
        ensures words { result ≡ word_from self.now 0 ∷ word_from self.now 8 ∷ word_from self.now 16
            ∷ word_from self.now 24 ∷ [] }
        ensures limits { IsKey self.now }
        ensures range { IsBytes self.now }
    {
        self.words
    }

    /// How many bytes the key has.
    pub fn len(&self) -> u64
        ensures count { result ≡ length self.now }
        ensures limits { IsKey self.now }
        ensures range { IsBytes self.now }
    {
        self.key.bytes().len() as u64
    }

    /// The way from an entry with these links and this key.
    pub fn way(&self, child: u32, next: u32, key: &Key) -> Way
        ensures way { result ≡ way_at self.now child next key.now }
    {
        match self.key.cmp(key) {
            Ordering::Less => Way::Child(child),
            Ordering::Equal => Way::Here,
            Ordering::Greater => Way::Next(next),
        }
    }
}
