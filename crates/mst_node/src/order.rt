//! The order of the keys of a list.
ghost use Rattle.std.specs.Prelude.{◌≡◌, ◌<◌, ◌↔◌, IsTrue, IfSome};
ghost use Rattle.std.specs.declared.cmp.Ordering.TheVariants.{Less, Greater};
ghost use Rattle.mst_key.specs.Map.{key_cmp, IsAscending, IsMap};

use mst_key::{Key, Value};
use std::cmp::Ordering;

/// The first eight bytes of each as a number, if both have as many. Numbers that differ decide the
/// order.
fn first_words(one: &[u8], other: &[u8]) -> Option<(u64, u64)>
    ensures less { IfSome result (λ w. w.0 < w.1 → key_cmp one.now other.now ≡ Less) }
    ensures greater { IfSome result (λ w. w.1 < w.0 → key_cmp one.now other.now ≡ Greater) }
{
    match one.first_chunk::<8>() {
        None => None,
        Some(first) => match other.first_chunk::<8>() {
            None => None,
            Some(second) => Some((u64::from_be_bytes(*first), u64::from_be_bytes(*second))),
        },
    }
}

/// Whether the bytes of a key come before those of another, byte by byte.
fn comes_before_by_bytes(one: &[u8], other: &[u8]) -> bool
    ensures less { IsTrue result ↔ (key_cmp one.now other.now ≡ Less) }
{
    match one.cmp(&other) {
        Ordering::Less => true,
        Ordering::Equal | Ordering::Greater => false,
    }
}

/// Whether the bytes of a key come before those of another. Most keys differ in their first words,
/// which are cheaper to compare than bytes one by one.
pub(crate) fn comes_before(one: &[u8], other: &[u8]) -> bool
    ensures less { IsTrue result ↔ (key_cmp one.now other.now ≡ Less) }
{
    match first_words(one, other) {
        None => comes_before_by_bytes(one, other),
        Some((first, second)) => {
            if first == second {
                comes_before_by_bytes(one, other)
            } else {
                first < second
            }
        }
    }
}

/// Whether the keys of the list rise strictly, as those of the empty list do.
pub fn ascending(pairs: &[(Key, Value)]) -> bool
    ensures rising { IsTrue result ↔ IsAscending pairs.now }
{
    for i in 1..pairs.len() {
        if !pairs[i - 1].0.precedes(&pairs[i].0) {
            return false;
        }
    }
    true
}

/// Whether the list is a map: whether its keys rise strictly.
pub fn is_map(pairs: &[(Key, Value)]) -> bool
    ensures map { IsTrue result ↔ IsMap pairs.now }
{
    for pair in pairs {
        pair.0.key_limits();
        pair.1.value_limits();
    }
    ascending(pairs)
}
