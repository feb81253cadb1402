//! Keys and values that are the same in each run.
use mst_key::{Key, Value};
use std::alloc::{AllocError, Global};

/// How many bytes a key has.
const KEY_BYTES: usize = 16;

/// How many bytes a value has.
const VALUE_BYTES: usize = 32;

/// How many bytes the directory of a sharded map has of a shard between two such keys.
const LISTING_BYTES: usize = 32 + KEY_BYTES;

/// One step of the generator SplitMix64 (Steele, Lea and Flood 2014) from the index on.
fn mixed(index: u64) -> u64 {
    let start = index.wrapping_mul(0x9e37_79b9_7f4a_7c15);
    let first = (start ^ (start >> 30)).wrapping_mul(0xbf58_476d_1ce4_e5b9);
    let second = (first ^ (first >> 27)).wrapping_mul(0x94d0_49bb_1331_11eb);
    second ^ (second >> 31)
}

// The bytes that a seed gives. Seeds that differ by less than their number share some.
fn bytes_of<const N: usize>(seed: u64) -> [u8; N] {
    let mut bytes = [0; N];
    for k in 0..N {
        let [first, ..] = mixed(seed.wrapping_add(k as u64)).to_be_bytes();
        bytes[k] = first;
    }
    bytes
}

// The key of this number among `count`. If it rises, its first four bytes say where it lies.
fn key(number: u32, count: u32, rises: bool) -> Key {
    let mut bytes: [u8; KEY_BYTES] = bytes_of(u64::from(number) * 64);
    if rises {
        let place = (u64::from(number) << 32) / u64::from(count.max(1));
        let [.., first, second, third, fourth] = place.to_be_bytes();
        [bytes[0], bytes[1], bytes[2], bytes[3]] = [first, second, third, fourth];
    }
    let Ok(key) = Key::new(&bytes) else {
        unreachable!()
    };
    key
}

/// `count` keys. If they rise, they are spread evenly over all.
pub fn keys(alloc: Global, count: u32, rise: bool) -> Result<Vec<Key>, AllocError> {
    let mut keys = Vec::with_capacity(alloc, count as usize)?;
    for number in 0..count {
        keys.push(key(number, count, rise))?;
    }
    Ok(keys)
}

/// The value of this number. A listing is as long as what the directory of a sharded map has of a
/// shard: a digest and a key.
pub fn value(number: u64, is_listing: bool) -> Value {
    let seed = number.wrapping_mul(64).wrapping_add(32);
    let made = if is_listing {
        Value::new(&bytes_of::<LISTING_BYTES>(seed))
    } else {
        Value::new(&bytes_of::<VALUE_BYTES>(seed))
    };
    let Ok(value) = made else { unreachable!() };
    value
}
