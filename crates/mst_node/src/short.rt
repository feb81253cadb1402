//! A short text on the stack.
ghost use Rattle.std.specs.Prelude.{◌≡◌, [], None, Some, MatchOption};

use crate::sinks::TextSink;
use arrayvec::ArrayVec;
use std::marker::Model;

/// The most bytes that an entry of a node has: a byte and a digest, the longest key and the longest
/// value after their lengths.
const LONGEST: usize = 131;

/// The text of an entry, or only that it is longer than a node's entries are.
#[derive(Drop)]
pub struct ShortText {
    bytes: ArrayVec<u8, LONGEST>,
    is_long: bool,
}

/// Contracts see the bytes, or `None` if they are too many.
impl Model for ShortText {
    ghost use Rattle.std.specs.Prelude.{List, ℕ, Option, Some, None, cond};

    ghost Value = { Option (List ℕ) };

    ghost view = { λ s. cond s.is_long None (Some s.bytes.items) };
}

impl ShortText {
    /// A text of no bytes.
    pub fn new() -> ShortText
        ensures empty { result ≡ Some [] }
    {
        ShortText {
            bytes: ArrayVec::new(),
            is_long: false,
        }
    }

    /// The bytes, or `None` if they are too many.
    pub fn bytes(&self) -> Option<&[u8]>
        ensures bytes { MatchOption result (self.now ≡ None) (λ bytes. self.now ≡ Some bytes.now) }
    {
        if self.is_long {
            return None;
        }
        Some(self.bytes.as_slice())
    }
}

impl TextSink for ShortText {
    ghost use Rattle.std.specs.Prelude.{◌≡◌, IfSome};

    ghost took = { λ s m. IfSome s (λ bytes. bytes ≡ m) };

    fn take(&mut self, bytes: &[u8]) {
        if self.bytes.try_extend_from_slice(bytes).is_err() {
            self.is_long = true;
        }
    }
}
