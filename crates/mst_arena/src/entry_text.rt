//! The texts of entries with a key of 16 bytes and a value of 32, as most have, in one piece.
//!
//! A text in memory takes each piece at the cost of a test for room and of a copy of any number of
//! bytes. Here the compiled code knows how many bytes a piece has.
ghost use Rattle.std.specs.Prelude.{◌≡◌, ◌≤◌, ◌++◌, List, ℕ, length, IfSome, IsTrue, false};
ghost use Rattle.mst_node.specs.Text.{child_text, counted, held_of, held_text};

use arrayvec::ArrayVec;
use mst_key::Format;
use mst_node::{TextSink, take_entry};

/// How many bytes the text of such an entry has after a tree.
const LONGEST: usize = 83;

/// The text of such an entry of format 1, or `None` if it is longer than it can be.
#[inline(always)]
fn spelled(child: Option<[u8; 32]>, key: &[u8], value: &[u8]) -> Option<ArrayVec<u8, LONGEST>>
    requires key { length key.now ≡ 16 }
    requires value { length value.now ≡ 32 }
    ensures text { IfSome result
        (λ t. t.items ≡ child_text child ++ counted key.now ++ counted value.now) }
{
    let mut text = ArrayVec::new();
    match child {
        None => text.try_extend_from_slice(&[0, 16]).ok()?,
        Some(digest) => {
            text.try_extend_from_slice(&[1]).ok()?;
            text.try_extend_from_slice(&digest).ok()?;
            text.try_extend_from_slice(&[16]).ok()?;
        }
    }
    text.try_extend_from_slice(key).ok()?;
    text.try_extend_from_slice(&[32]).ok()?;
    text.try_extend_from_slice(value).ok()?;
    Some(text)
}

/// Hands over such an entry of format 1. Returns false, and hands over nothing, if its text is
/// longer than it can be.
#[inline(always)]
fn take_spelled<S: TextSink>(
    sink: &mut S,
    child: Option<[u8; 32]>,
    key: &[u8],
    value: &[u8],
) -> bool
    requires key { length key.now ≡ 16 }
    requires value { length value.now ≡ 32 }
    ensures entry { IsTrue result → (m : List ℕ) → S.took sink.old m
        → S.took sink.new (m ++ child_text child ++ counted key.now ++ counted value.now) }
    ensures nothing { result ≡ false → sink.new ≡ sink.old }
{
    match spelled(child, key, value) {
        Some(text) => {
            sink.take(text.as_slice());
            true
        }
        None => false,
    }
}

/// Hands over an entry in one piece if it is of format 1 and has the lengths that most have.
/// Otherwise it returns false, and hands over nothing.
#[inline(always)]
pub fn take_common<S: TextSink>(
    sink: &mut S,
    format: Format,
    child: Option<[u8; 32]>,
    key: &[u8],
    value: &[u8],
) -> bool
    ensures entry { IsTrue result → (m : List ℕ) → S.took sink.old m
        → S.took sink.new (m ++ child_text child ++ counted key.now
        ++ held_text format (held_of format value.now)) }
    ensures nothing { result ≡ false → sink.new ≡ sink.old }
{
    match (format, key.len(), value.len()) {
        (Format::One, 16, 32) => match child {
            None => take_spelled(sink, None, key, value),
            Some(digest) => take_spelled(sink, Some(digest), key, value),
        },
        _ => false,
    }
}

/// Hands over an entry, as [`take_entry`] does, in one piece if it has the lengths that most have.
#[inline(always)]
pub(crate) fn take_whole<S: TextSink>(
    sink: &mut S,
    format: Format,
    child: Option<[u8; 32]>,
    key: &[u8],
    value: &[u8],
)
    requires key { length key.now ≤ 255 }
    requires value { length value.now ≤ 255 }
    ensures entry { (m : List ℕ) → S.took sink.old m
        → S.took sink.new (m ++ child_text child ++ counted key.now
        ++ held_text format (held_of format value.now)) }
{
    if !take_common(sink, format, child, key, value) {
        take_entry(sink, format, child, key, value);
    }
}
