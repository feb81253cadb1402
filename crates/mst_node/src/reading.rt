//! Reading the parts of a node text, from left to right. Each call returns what it read and the
//! bytes after it, or `None`.
ghost use Rattle.std.specs.Prelude.{◌≡◌, ◌≤◌, length, IfSome, option_copied};
ghost use Rattle.mst_key.specs.Bytes.{IsKey, IsValue};
ghost use Rattle.mst_node.specs.Reading.{Gives, part_at, child_at, counted_at, held_at, entry_at, behind_at};
ghost use Rattle.mst_node.specs.Seen.{seen};
ghost use Rattle.mst_node.specs.Held.{HasSize};

use mst_key::Format;

/// An entry as it lies in a node text: with its value or, in format 2, the SHA-256 of that.
#[derive(Clone, Copy)]
pub(crate) struct EntryBytes<'a> {
    pub child: Option<&'a [u8; 32]>,
    pub key: &'a [u8],
    pub value: &'a [u8],
}

/// This many bytes.
#[tactic(auto, unfolding(crate::specs::Reading::part_at))]
pub(crate) fn part_of(bytes: &[u8], count: usize) -> Option<(&[u8], &[u8])>
    ensures reading { Gives (λ x. (x.0.now, x.1.now)) result (part_at count bytes.now) }
    ensures size { IfSome result (λ x. length x.0.now ≡ count) }
{
    if bytes.len() < count {
        None
    } else {
        Some(bytes.split_at(count))
    }
}

/// A byte 0 for no child, or a byte 1 and a digest.
#[tactic(auto, unfolding(crate::specs::Reading::child_at, crate::specs::Reading::part_at))]
pub(crate) fn child_of(bytes: &[u8]) -> Option<(Option<&[u8; 32]>, &[u8])>
    ensures reading { Gives (λ x. (option_copied x.0, x.1.now)) result (child_at bytes.now) }
{
    match bytes {
        [0, rest @ ..] => Some((None, rest)),
        [1, rest @ ..] => {
            let (digest, rest) = rest.split_first_chunk::<32>()?;
            Some((Some(digest), rest))
        }
        _ => None,
    }
}

/// Bytes after their number, which is at least `low` and at most `high`.
#[tactic(auto, unfolding(crate::specs::Reading::counted_at))]
fn counted_of(bytes: &[u8], low: u8, high: u8) -> Option<(&[u8], &[u8])>
    ensures reading { Gives (λ x. (x.0.now, x.1.now)) result (counted_at low high bytes.now) }
    ensures size { IfSome result (λ x. (low ≤ length x.0.now) × (length x.0.now ≤ high)) }
{
    match bytes {
        [] => None,
        [count, rest @ ..] => {
            if *count < low || high < *count {
                None
            } else {
                part_of(rest, *count as usize)
            }
        }
    }
}

/// What stands for a value: bytes after their number, or in format 2 a digest.
fn held_of(format: Format, bytes: &[u8]) -> Option<(&[u8], &[u8])>
    ensures reading { Gives (λ x. (x.0.now, x.1.now)) result (held_at format bytes.now) }
    ensures value { IfSome result (λ x. IsValue x.0.now) }
    ensures size { IfSome result (λ x. HasSize format x.0.now) }
{
    match format {
        Format::One => counted_of(bytes, 0, 64),
        Format::Two => part_of(bytes, 32),
    }
}

/// An entry.
#[tactic(auto, unfolding(crate::specs::Reading::entry_at))]
pub(crate) fn entry_of(format: Format, bytes: &[u8]) -> Option<(EntryBytes<'_>, &[u8])>
    ensures reading { Gives (λ x. (seen x.0, x.1.now)) result (entry_at format bytes.now) }
    ensures key { IfSome result (λ x. IsKey x.0.key.now) }
    ensures value { IfSome result (λ x. IsValue x.0.value.now) }
    ensures held { IfSome result (λ x. HasSize format x.0.value.now) }
{
    let (child, rest) = child_of(bytes)?;
    let (key, rest) = counted_of(rest, 1, 32)?;
    let (value, rest) = held_of(format, rest)?;
    Some((EntryBytes { child, key, value }, rest))
}

/// The bytes after this many entries.
#[tactic(auto, unfolding(crate::specs::Reading::behind_at))]
pub(crate) fn behind(format: Format, bytes: &[u8], count: usize) -> Option<&[u8]>
    ensures reading { Gives (λ x. x.now) result (behind_at format count bytes.now) }
{
    let mut rest = bytes;
    for _ in 0..count {
        let (_, after) = entry_of(format, rest)?;
        rest = after;
    }
    Some(rest)
}
