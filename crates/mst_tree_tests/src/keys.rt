//! The order of keys, clones and copies. The functions above the tests show by their clauses what a
//! caller knows of `==` and `cmp`. Transcripts (`tests/transcripts`) have the layers of keys.
ghost use Rattle.std.specs.Prelude.{◌≡◌, ◌↔◌, IsTrue, OnOk, IsSorted};
ghost use Rattle.std.specs.declared.cmp.Ordering.TheVariants.{Less};
ghost use Rattle.mst_key.specs.Map.{key_cmp};

use crate::cases::{Case, ask};
use crate::pairs::{key_of, pair};
use mst_key::{Edit, Key, Value};
use std::alloc::{AllocError, Allocator, Global};
use std::cmp::Ordering;
use std::process::Abort;

/// A caller that knows no more of its keys than that they have a total order.
fn order_of<K: Ord>(one: &K, other: &K) -> Ordering
    ensures { result ≡ K.cmp one.now other.now }
{
    one.cmp(other)
}

/// For keys that order is `key_cmp`.
fn key_order(one: &Key, other: &Key) -> Ordering
    ensures { result ≡ key_cmp one.now other.now }
{
    order_of(one, other)
}

fn precedes(one: &Key, other: &Key) -> bool
    ensures { IsTrue result ↔ (key_cmp one.now other.now ≡ Less) }
{
    one < other
}

fn same_key(one: &Key, other: &Key) -> bool
    ensures { IsTrue result ↔ (one.now ≡ other.now) }
{
    one == other
}

fn same_value(one: &Value, other: &Value) -> bool
    ensures { IsTrue result ↔ (one.now ≡ other.now) }
{
    one == other
}

fn same_edit(one: &Edit, other: &Edit) -> bool
    ensures { IsTrue result ↔ (one.now ≡ other.now) }
{
    one == other
}

/// Whether two keys stand in this order by each call that compares keys.
fn stand_so(one: &Key, other: &Key, order: Ordering) -> bool {
    key_order(one, other) == order
        && precedes(one, other) == (order == Ordering::Less)
        && same_key(one, other) == (order == Ordering::Equal)
}

/// Sorting is generic, and takes the laws of the order.
fn sort_keys<A: Allocator>(alloc: A, keys: &mut [Key]) -> Result<(), AllocError>
    ensures { OnOk result (IsSorted key_cmp keys.new) }
{
    keys.sort(alloc)
}

/// Whether two keys that rise stand so, and either is equal to itself.
pub fn rise(rt: &impl Abort, one: &[u8], other: &[u8]) -> bool {
    let (one, other) = (key_of(rt, one), key_of(rt, other));
    stand_so(&one, &other, Ordering::Less)
        && stand_so(&other, &one, Ordering::Greater)
        && stand_so(&one, &one, Ordering::Equal)
}

/// Whether two keys that fall are sorted.
pub fn are_sorted(rt: &impl Abort, alloc: Global, one: &[u8], other: &[u8]) -> bool {
    let mut keys = [key_of(rt, one), key_of(rt, other)];
    sort_keys(alloc, &mut keys).is_ok() && stand_so(&keys[0], &keys[1], Ordering::Less)
}

/// Whether the clones and the copies of a key and of a value are the same.
pub fn are_cloned(rt: &impl Abort, key: &[u8], value: &[u8]) -> bool {
    let (key, value) = pair(rt, key, value);
    let (one, other) = (
        key.clone().expect(rt, "memory"),
        value.clone().expect(rt, "memory"),
    );
    same_key(&key, &one)
        && same_key(&key, &key.copy())
        && same_value(&value, &other)
        && same_value(&value, &value.copy())
}

/// Whether a put is the same edit as itself, and another than the removal of its key.
pub fn edits_are_compared(rt: &impl Abort, key: &[u8], value: &[u8]) -> bool {
    let (key, value) = pair(rt, key, value);
    let put = Edit::Put(key.copy(), value);
    let remove = Edit::Remove(key);
    same_edit(&put, &put) && !same_edit(&put, &remove)
}

const KEYS: &[Case] = &[
    // keys, each with the next one in their order
    Case::Rise(b"\x00", b"\x00\x00"),
    Case::Rise(b"\x00\x00", b"a"),
    Case::Rise(b"a", b"ab"),
    Case::Rise(b"ab", b"b"),
    Case::Rise(b"b", b"\x7f\xff"),
    Case::Rise(b"\x7f\xff", b"\x80"),
    Case::Sorts(b"ab", b"a"),
    Case::Clones(&[0xff; 32], &[0x00; 64]),
    Case::Edits(&[0xff; 32], &[0x00; 64]),
];

#[test]
fn keys_in_ascending_order_and_clones(rt: HostRuntime) {
    ask(&rt, KEYS);
}
