//! The line that is being read.
ghost use Rattle.std.specs.Prelude.{◌≡◌, ◌↔◌, ◌≤◌, [], length, IsTrue, None, Some, MatchOption, IfSome};
ghost use Rattle.mst_lines.specs.Lines.{longest_line, kept_with};

use arrayvec::ArrayVec;
use std::marker::Model;

/// The most bytes that a line has, without its newline.
pub const LONGEST_LINE: usize = 4096;

/// What is kept of the line that is being read: its bytes, or only that they are too many.
#[derive(Drop)]
pub struct LineBuffer {
    bytes: ArrayVec<u8, LONGEST_LINE>,
    is_long: bool,
}

/// Contracts see the bytes, or none if they are too many.
impl Model for LineBuffer {
    ghost use Rattle.std.specs.Prelude.{Option, Some, None, List, ℕ, if◌then◌else◌};

    ghost Value = { Option (List ℕ) };

    ghost view = { λ b. if b.is_long then None else Some b.bytes.items };
}

impl LineBuffer {
    /// The beginning of a line.
    pub fn new() -> LineBuffer
        ensures { result ≡ Some [] }
    {
        LineBuffer {
            bytes: ArrayVec::new(),
            is_long: false,
        }
    }

    /// Begins a new line.
    pub fn clear(&mut self)
        ensures { self.new ≡ Some [] }
    {
        self.bytes.clear();
        self.is_long = false;
    }

    /// Adds more bytes of the line.
    pub fn extend(&mut self, bytes: &[u8])
        ensures { self.new ≡ kept_with self.old bytes.now }
    {
        if self.bytes.try_extend_from_slice(bytes).is_err() {
            self.is_long = true;
        }
    }

    /// Whether no byte came.
    pub fn is_empty(&self) -> bool
        ensures { IsTrue result ↔ (self.now ≡ Some []) }
    {
        !self.is_long && self.bytes.is_empty()
    }

    /// The bytes of the line, unless they are too many.
    pub fn bytes(&self) -> Option<&[u8]>
        ensures bytes { MatchOption result (self.now ≡ None) (λ bytes. self.now ≡ Some bytes.now) }
        ensures size { IfSome result (λ bytes. length bytes.now ≤ longest_line) }
    {
        if self.is_long {
            return None;
        }
        Some(self.bytes.as_slice())
    }
}
