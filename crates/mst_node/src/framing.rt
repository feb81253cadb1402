//! The texts that a proof frames.
ghost use Rattle.std.specs.Prelude.{List, ℕ, IfSome, IfNone};
ghost use Rattle.mst_node.specs.Frame.{FramesFirst};
ghost use Rattle.mst_node.specs.Reading.{Gives, first_text_at};

use crate::reading::part_of;

/// The first text of a proof, and the bytes after it.
#[tactic(auto, unfolding(crate::specs::Reading::first_text_at))]
fn first_text(proof: &[u8]) -> Option<(&[u8], &[u8])>
    ensures reading { Gives (λ x. (x.0.now, x.1.now)) result (first_text_at proof.now) }
{
    match proof {
        [_, 0, ..] => None,
        [_, _, a, b, c, d, rest @ ..] => {
            let size = u32::from_be_bytes([*a, *b, *c, *d]);
            part_of(rest, size as usize)
        }
        _ => None,
    }
}

/// The first text that a proof frames: after a byte for the format, whatever it is, and a byte for
/// the number of texts, each text stands after its length in four bytes, the high one first.
/// Returns `None` exactly if the number of texts is 0, or anything up to the end of the first text
/// is cut short.
pub fn top_text(proof: &[u8]) -> Option<&[u8]>
    ensures text { IfSome result (λ text. FramesFirst proof.now text.now) }
    ensures none { IfNone result ((text : List ℕ) → FramesFirst proof.now text → ⊥) }
{
    match first_text(proof) {
        Some((text, _)) => Some(text),
        None => None,
    }
}
