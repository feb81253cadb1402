//! Keys and pairs for the tests, their root digests, and what a value prints. If memory is refused
//! for them, the test ends.
use crate::confirming::few;
use mst_key::{Key, Value};
use mst_node::root_of;
use std::alloc::Global;
use std::fmt::Display;
use std::process::Abort;

/// The keys `a` and `abc`, with the values `1` and `x`.
pub const TWO_PAIRS: &[(&str, &str)] = &[("a", "1"), ("abc", "x")];

pub fn key_of(rt: &impl Abort, bytes: &[u8]) -> Key {
    Key::new(bytes).expect(rt, "1 to 32 bytes")
}

pub fn value_of(rt: &impl Abort, bytes: &[u8]) -> Value {
    Value::new(bytes).expect(rt, "at most 64 bytes")
}

pub fn pair(rt: &impl Abort, key: &[u8], value: &[u8]) -> (Key, Value) {
    (key_of(rt, key), value_of(rt, value))
}

/// The pairs that are spelt so.
pub fn spelt(rt: &impl Abort, alloc: Global, rows: &[(&str, &str)]) -> Vec<(Key, Value)> {
    let mut pairs = Vec::new(alloc);
    for (key, value) in rows {
        let pair = pair(rt, key.as_bytes(), value.as_bytes());
        pairs.push(pair).expect(rt, "memory");
    }
    pairs
}

/// The key of a number: its three low bytes.
pub fn numbered_key(rt: &impl Abort, number: u32) -> Key {
    let bytes = number.to_be_bytes();
    key_of(rt, &bytes[1..])
}

/// The first numbers in three bytes, each with its two low bytes as the value.
pub fn numbered(rt: &impl Abort, alloc: Global, count: u32) -> Vec<(Key, Value)> {
    let mut pairs = Vec::new(alloc);
    for i in 0..count {
        let bytes = i.to_be_bytes();
        let pair = (numbered_key(rt, i), value_of(rt, &bytes[2..]));
        pairs.push(pair).expect(rt, "memory");
    }
    pairs
}

/// Pairs of keys of layer 0 alone, which stand in one node, with values of 64 bytes: the numbers
/// below the end in three bytes that have this layer.
pub fn pairs_of_one_node(rt: &impl Abort, alloc: Global, end: u32) -> Vec<(Key, Value)> {
    let mut pairs = Vec::new(alloc);
    for i in 0..end {
        let bytes = i.to_be_bytes();
        let (key, value) = pair(rt, &bytes[1..], &[bytes[3]; 64]);
        if key.layer() == 0 {
            pairs.push((key, value)).expect(rt, "memory");
        }
    }
    pairs
}

/// The bytes of a hexadecimal text.
pub fn bytes_of(rt: &impl Abort, alloc: Global, digits: &str) -> Vec<u8> {
    hex::decode(alloc, digits).expect(rt, "hexadecimal digits")
}

/// Whether the bytes are those of these hexadecimal digits.
pub fn are_digits(rt: &impl Abort, alloc: Global, bytes: &[u8], digits: &str) -> bool {
    let found = hex::encode(alloc, bytes).expect(rt, "memory");
    found.as_str() == digits
}

/// The root digest of the list.
pub fn root(rt: &impl Abort, pairs: &[(Key, Value)]) -> [u8; 32] {
    few(rt, pairs);
    root_of(pairs)
}

/// Whether a value prints this text.
pub fn prints<T: Display>(rt: &impl Abort, alloc: Global, shown: &T, text: &str) -> bool {
    let printed = format!(in alloc; "{shown}").expect(rt, "memory");
    printed.as_str() == text
}
