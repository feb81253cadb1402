//! Bits of words, 64 a word, the lowest of each word first, and a summary of them with a bit for
//! each word that is not 0.
ghost use Rattle.std.specs.Prelude.{◌≡◌, ◌≢◌, ◌↔◌, ◌≤◌, ◌<◌, ◌+◌, ◌*◌, ◌/◌, ◌^◌, ℕ, true, length, slice_index, IfSome, IfNone};
ghost use Rattle.std.specs.Int.{bit_at};
ghost use Rattle.mst_arena.specs.Bits.{bit, BitWritten, Sums};

/// Sets a bit.
fn set_bit(words: &mut [u64], index: usize)
    requires there { index < 64 * length words.old }
    ensures written { BitWritten words.old words.new index 1 }
{
    words[index / 64] |= 1 << (index % 64);
}

/// Clears a bit, and returns whether its word is now 0.
fn clear_bit(words: &mut [u64], index: usize) -> bool
    requires there { index < 64 * length words.old }
    ensures written { BitWritten words.old words.new index 0 }
    ensures zero { result ≡ true ↔ slice_index words.new (index / 64) ≡ 0 }
{
    let word = words[index / 64] & !(1 << (index % 64));
    words[index / 64] = word;
    word == 0
}

/// The lowest bit from an index on that is set.
fn next_bit(words: &[u64], from: usize) -> Option<usize>
    requires few { length words.now < 2 ^ 32 }
    ensures some { IfSome result (λ i. (i < 64 * length words.now) × (bit words.now i ≡ 1)) }
    ensures none { IfNone result ((i : ℕ) → from ≤ i → bit words.now i ≡ 0) }
{
    let first = from / 64;
    if first >= words.len() {
        return None;
    }
    let masked = words[first] & (u64::MAX << (from % 64));
    if masked != 0 {
        return Some(64 * first + masked.trailing_zeros() as usize);
    }
    for i in first + 1..words.len() {
        if words[i] != 0 {
            return Some(64 * i + words[i].trailing_zeros() as usize);
        }
    }
    None
}

/// A word that is not 0: word `at`, or the next one after it, or the first.
fn word_in_use(words: &[u64], summary: &[u64], at: usize) -> Option<usize>
    requires sums { Sums words.now summary.now }
    requires few { length summary.now < 2 ^ 32 }
    requires there { at < length words.now }
    ensures some { IfSome result (λ w. slice_index words.now w ≢ 0) }
    ensures near { IfSome result (λ w. slice_index words.now at ≢ 0 → w ≡ at) }
    ensures none { IfNone result ((w : ℕ) → slice_index words.now w ≡ 0) }
{
    if words[at] != 0 {
        return Some(at);
    }
    match next_bit(summary, at) {
        Some(word) => Some(word),
        None => next_bit(summary, 0),
    }
}

/// A bit that is set: the lowest of word `at`, or if that is 0, of the next word that is not 0; the
/// first word follows the last. Returns `None` if all words are 0.
pub fn bit_in_use(words: &[u64], summary: &[u64], at: usize) -> Option<usize>
    requires sums { Sums words.now summary.now }
    requires few { length words.now < 2 ^ 32 }
    requires few_sums { length summary.now < 2 ^ 32 }
    requires there { at < length words.now }
    ensures some { IfSome result (λ i. bit words.now i ≡ 1) }
    ensures near { IfSome result (λ i. slice_index words.now at ≢ 0 → i / 64 ≡ at) }
    ensures none { IfNone result ((w : ℕ) → slice_index words.now w ≡ 0) }
{
    let word = word_in_use(words, summary, at)?;
    Some(64 * word + words[word].trailing_zeros() as usize)
}

/// Whether a bit is set. None behind the last word is.
pub fn is_set(words: &[u64], index: usize) -> bool
    ensures set { result ≡ true ↔ bit words.now index ≡ 1 }
{
    index / 64 < words.len() && (words[index / 64] >> (index % 64)) % 2 == 1
}

/// The lowest bit of a word from this one on that is not set; 64 if all of them are.
#[inline(always)]
fn clear_from(word: u64, from: usize) -> usize
    requires within { from < 64 }
    ensures set { (i : ℕ) → from ≤ i → i < result → bit_at word i ≡ 1 }
    ensures clear { result < 64 → bit_at word result ≡ 0 }
    ensures within { (from ≤ result) × (result ≤ 64) }
{
    (!word & (u64::MAX << from)).trailing_zeros() as usize
}

/// Whether so many bits from this one on are set.
pub fn are_set(words: &[u64], from: usize, count: usize) -> bool
    requires few { from + count < 2 ^ 63 }
    ensures set { result ≡ true
        ↔ ((i : ℕ) → from ≤ i → i < from + count → bit words.now i ≡ 1) }
{
    let end = from + count;
    let mut next = from;
    while next < end {
        let at = next / 64;
        if at >= words.len() {
            return false;
        }
        let clear = 64 * at + clear_from(words[at], next % 64);
        if clear == next {
            return false;
        }
        next = clear;
    }
    true
}

/// Sets a bit, in the words and their summary.
pub fn put_bit(words: &mut [u64], summary: &mut [u64], index: usize)
    requires sums { Sums words.old summary.old }
    requires there { index < 64 * length words.old }
    ensures written { BitWritten words.old words.new index 1 }
    ensures sums { Sums words.new summary.new }
    ensures summary_len { length summary.new ≡ length summary.old }
{
    set_bit(words, index);
    set_bit(summary, index / 64);
}

/// Clears a bit that is set, in the words and their summary.
pub fn take_bit(words: &mut [u64], summary: &mut [u64], index: usize)
    requires sums { Sums words.old summary.old }
    requires there { index < 64 * length words.old }
    requires set { bit words.old index ≡ 1 }
    ensures written { BitWritten words.old words.new index 0 }
    ensures sums { Sums words.new summary.new }
    ensures summary_len { length summary.new ≡ length summary.old }
{
    if clear_bit(words, index) {
        clear_bit(summary, index / 64);
    }
}
