//! Numbers as a line has them: decimal, below 256, without leading zeros.

ghost use Rattle.std.specs.Prelude.{◌≡◌, ◌++◌, ◌<◌, ℕ, Some, IfSome, IsTrue, ◌↔◌, decimal};

use itoa::Buffer;

/// The number that the bytes are the numeral of.
pub fn number(digits: &[u8]) -> Option<u8>
    ensures some { IfSome result (λ n. digits.now ≡ decimal n) }
    ensures only { (n : ℕ) → n < 256 → digits.now ≡ decimal n → result ≡ Some n }
{
    let text = std::str::from_utf8(digits).ok()?;
    let n = text.parse::<u8>().ok()?;
    // What is parsed may have a sign or leading zeros; the numeral has none.
    if is_numeral(digits, n) { Some(n) } else { None }
}

fn is_numeral(digits: &[u8], n: u8) -> bool
    ensures { IsTrue result ↔ (digits.now ≡ decimal n) }
{
    let mut buffer = Buffer::new();
    buffer.format(n).as_bytes() == digits
}

/// The number of a line that is a word, with its blank, and a number.
pub fn number_after(line: &[u8], word: &[u8]) -> Option<u8>
    ensures some { IfSome result (λ n. line.now ≡ word.now ++ decimal n) }
    ensures only { (n : ℕ) → n < 256 → line.now ≡ word.now ++ decimal n → result ≡ Some n }
{
    number(line.strip_prefix(word)?)
}
