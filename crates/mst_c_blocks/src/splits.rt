//! The splits of a sharded map as C hands them over: packed in a buffer, one after the other.
ghost use Rattle.std.specs.Prelude.{◌≡◌, ◌<◌, ◌∷◌, ◌++◌, ℕ, List, length, true, false, IfOk, IfSome, IfNone};
ghost use Rattle.std.specs.declared.cmp.Ordering.TheVariants.{Less};
ghost use Rattle.mst_key.specs.Bytes.{IsKey};
ghost use Rattle.mst_key.specs.Map.{key_cmp};
ghost use Rattle.mst_c_blocks.specs.Splits.{splits_bytes, PacksSplits};

use mst_key::{Key, Memory};
use mst_shards::MOST_SPLITS;
use std::alloc::Global;
use std::cmp::Ordering;

/// The split that stands first, and the bytes after it. There is none if its length is that of no
/// key, or if it is cut short.
fn first_split(packed: &[u8]) -> Option<(Key, &[u8])>
    ensures some { IfSome result (λ x. packed.now ≡ length x.0 ∷ (x.0 ++ x.1.now)) }
    ensures less { IfSome result (λ x. length x.1.now < length packed.now) }
    ensures none { IfNone result ((k rest : List ℕ) → IsKey k
        → packed.now ≡ length k ∷ (k ++ rest) → ⊥) }
{
    let [size, rest @ ..] = packed else {
        return None;
    };
    let size = *size as usize;
    if rest.len() < size {
        return None;
    }
    let (key, rest) = rest.split_at(size);
    match Key::new(key) {
        Ok(key) => Some((key, rest)),
        Err(_) => None,
    }
}

/// Whether a key is above another.
fn is_above(key: &Key, low: &Key) -> bool
    ensures yes { result ≡ true → key_cmp low.now key.now ≡ Less }
    ensures no { result ≡ false → key_cmp low.now key.now ≡ Less → ⊥ }
{
    match low.cmp(key) {
        Ordering::Less => true,
        Ordering::Equal | Ordering::Greater => false,
    }
}

/// The split that stands first, and the bytes after it, if it is above a key.
fn split_above<'b>(low: &Key, packed: &'b [u8]) -> Option<(Key, &'b [u8])>
    ensures some { IfSome result (λ x. packed.now ≡ length x.0 ∷ (x.0 ++ x.1.now)) }
    ensures above { IfSome result (λ x. key_cmp low.now x.0 ≡ Less) }
    ensures key { IfSome result (λ x. IsKey x.0) }
    ensures none { IfNone result ((k rest : List ℕ) → IsKey k → key_cmp low.now k ≡ Less
        → packed.now ≡ length k ∷ (k ++ rest) → ⊥) }
{
    match first_split(packed) {
        Some((key, rest)) => {
            if is_above(&key, low) {
                Some((key, rest))
            } else {
                None
            }
        }
        None => None,
    }
}

/// Whether the bytes pack splits that a sharded map may have. It takes no memory.
pub(crate) fn pack_splits(packed: &[u8]) -> bool
    ensures yes { result ≡ true → (ss : List (List ℕ)) × PacksSplits packed.now ss }
    ensures no { result ≡ false → (ss : List (List ℕ)) → PacksSplits packed.now ss → ⊥ }
{
    // a key has at least one byte
    let Ok(least) = Key::new(&[0]) else {
        unreachable!()
    };
    let mut low = least;
    let mut rest = packed;
    for _ in 0..MOST_SPLITS {
        if rest.is_empty() {
            return true;
        }
        let Some((key, behind)) = split_above(&low, rest) else {
            return false;
        };
        low = key;
        rest = behind;
    }
    rest.is_empty()
}

/// The splits that the bytes pack.
pub(crate) fn list_splits(alloc: Global, packed: &[u8]) -> Result<Vec<Key, Global>, Memory>
    requires packs { (ss : List (List ℕ)) × PacksSplits packed.now ss }
    ensures splits { IfOk result (λ list. PacksSplits packed.now list.items) }
{
    let mut list = Vec::new(alloc);
    let mut rest = packed;
    while !rest.is_empty() {
        let Some((key, behind)) = first_split(rest) else {
            unreachable!()
        };
        list.push(key)?;
        rest = behind;
    }
    Ok(list)
}
