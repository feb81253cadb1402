//! Bytes up to a separator.
ghost use Rattle.std.specs.Prelude.{◌≡◌, ◌∷◌, ◌++◌, MatchOption};
ghost use Rattle.mst_lines.specs.Lines.{IsWithout};

use memchr::memchr;

/// The bytes before the first stay of a byte, and those after it.
pub fn cut(bytes: &[u8], at: u8) -> Option<(&[u8], &[u8])>
    ensures { MatchOption result (IsWithout at bytes.now) (λ r. IsWithout at r.0.now
        × (bytes.now ≡ r.0.now ++ at ∷ r.1.now)) }
{
    let place = memchr(at, bytes)?;
    let (front, _) = bytes.split_at(place);
    let (_, back) = bytes.split_at(place + 1);
    Some((front, back))
}
