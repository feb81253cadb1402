//! What a sharded map is opened with: its splits, and the stores of its shards.
ghost use Rattle.std.specs.Prelude.{◌≡◌, ◌↔◌, ◌++◌, ◌∷◌, [], true, length, IfOk, OnOk};
ghost use Rattle.std.specs.List.{AllByRecursion};
ghost use Rattle.std.specs.declared.cmp.Ordering.TheVariants.{Less};
ghost use Rattle.mst_key.specs.Bytes.{IsKey};
ghost use Rattle.mst_key.specs.Map.{key_cmp};
ghost use Rattle.mst_store.specs.Passes.{StoreId, IsShape, HasShape};
ghost use Rattle.mst_sharded_proof.specs.Shards.{AreSplits};
ghost use Rattle.mst_shards.specs.Sharding.{IsSplits};

use mst_key::{Key, Memory};
use mst_store::{OpenFault, Seats, Shape, Store};
use std::alloc::Allocator;
use std::cmp::Ordering;

/// The most splits of a sharded map.
pub const MOST_SPLITS: usize = 1023;

// Whether splits rise strictly, from above a key.
fn rise(low: &Key, splits: &[Key]) -> bool
    ensures rise { result ≡ true ↔ AreSplits low.now splits.now }
{
    let mut below = low;
    for split in splits {
        if !is_above(split, below) {
            return false;
        }
        below = split;
    }
    true
}

// Says that a key is within its limits, as all are by their type.
fn within_limits(key: &Key)
    ensures key { IsKey key.now }
{
    let _bytes = key.bytes();
}

// Whether a key comes before another.
fn precedes(one: &Key, other: &Key) -> bool
    ensures less { result ≡ true ↔ (key_cmp one.now other.now ≡ Less) }
{
    match one.cmp(other) {
        Ordering::Less => true,
        Ordering::Equal | Ordering::Greater => false,
    }
}

// Whether a key, which is within its limits, is above another.
fn is_above(key: &Key, low: &Key) -> bool
    ensures above { result ≡ true ↔ (key_cmp low.now key.now ≡ Less) × IsKey key.now }
{
    within_limits(key);
    precedes(low, key)
}

/// Whether a sharded map may have these splits.
pub fn are_splits(splits: &[Key]) -> bool
    ensures splits { result ≡ true ↔ IsSplits splits.now }
{
    // a key has at least one byte
    let Ok(least) = Key::new(&[0]) else {
        unreachable!()
    };
    splits.len() <= MOST_SPLITS && rise(&least, splits)
}

// Opens a store, and adds it to those before.
fn open_one<A: Allocator + Copy>(
    alloc: A,
    shape: Shape,
    stores: &mut Vec<Store<A>, A>,
    seats: &mut Vec<Seats<A>, A>,
) -> Result<(), Memory>
    requires shape { IsShape shape }
    ensures added { OnOk result ((s : StoreId) × HasShape shape s
        × (stores.new.items ≡ stores.old.items ++ s ∷ [])
        × (seats.new.items ≡ seats.old.items ++ s ∷ [])) }
{
    let (store, its_seats) = match Store::open(alloc, shape) {
        Ok(opened) => opened,
        Err(OpenFault::Shape) => unreachable!(),
        Err(OpenFault::Memory(refused)) => return Err(refused),
    };
    stores.push(store)?;
    seats.push(its_seats)?;
    Ok(())
}

/// Opens this many stores of a shape.
pub fn open_all<A: Allocator + Copy>(
    alloc: A,
    count: usize,
    shape: Shape,
) -> Result<(Vec<Store<A>, A>, Vec<Seats<A>, A>), Memory>
    requires shape { IsShape shape }
    ensures count { IfOk result (λ opened. length opened.0.items ≡ count) }
    ensures stores { IfOk result (λ opened. AllByRecursion (HasShape shape) opened.0.items) }
    ensures seats { IfOk result (λ opened. opened.1.items ≡ opened.0.items) }
{
    let mut stores = Vec::new(alloc);
    let mut seats = Vec::new(alloc);
    for _ in 0..count {
        open_one(alloc, shape, &mut stores, &mut seats)?;
    }
    Ok((stores, seats))
}
