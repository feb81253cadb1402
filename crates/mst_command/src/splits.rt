//! The splits of a sharded map, as one word spells them.
ghost use Rattle.std.specs.Prelude.{◌≡◌, ◌<◌, ◌∷◌, length, Err, None, Some, IfOk, IfSome};
ghost use Rattle.std.specs.Option.{option_map};
ghost use Rattle.mst_command.specs.Splits.{cut as cut_at, parts_of, parts_behind, splits_of};

use mst_key::{Key, Memory};
use mst_report::key_in;
use std::alloc::Allocator;

/// Why a word gives no list of splits.
#[derive(Clone, Copy)]
pub enum NoSplits {
    /// A part between commas spells no key.
    Spelling,
    /// A growth of the list was refused.
    Memory(Memory),
}

// The word cut at its first comma, if it has one.
fn cut(word: &str) -> Option<(&str, &str)>
    ensures { option_map (λ parts. (parts.0.now, parts.1.now)) result ≡ cut_at word.now }
{
    word.split_once(',')
}

// The part in front of the first comma, and what stands after the comma.
fn first_part(word: &str) -> (&str, Option<&str>)
    ensures parts { parts_of word.now ≡ result.0.now ∷ parts_behind result.1 }
    ensures rest_size { IfSome result.1 (λ rest. length rest.now < length word.now) }
{
    match cut(word) {
        Some((first, rest)) => (first, Some(rest)),
        None => (word, None),
    }
}

/// The keys between single commas, each of 1 to 32 bytes of two hexadecimal digits. Whether a
/// sharded map may have them as its splits is not looked at.
///
/// Returns `Spelling` only if a part spells no key, and `Memory` if a growth was refused.
pub fn splits_in<A: Allocator>(alloc: A, word: &str) -> Result<Vec<Key, A>, NoSplits>
    ensures splits { IfOk result (λ splits. splits_of word.now ≡ Some splits.items) }
    ensures none { result ≡ Err NoSplits.Spelling → splits_of word.now ≡ None }
{
    let mut splits = Vec::new(alloc);
    let mut rest = Some(word);
    while let Some(word) = rest {
        let (first, others) = first_part(word);
        let Some(split) = key_in(first) else {
            return Err(NoSplits::Spelling);
        };
        if let Err(refused) = splits.push(split) {
            return Err(NoSplits::Memory(Memory::from(refused)));
        }
        rest = others;
    }
    Ok(splits)
}
