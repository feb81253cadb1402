//! Calls of a pass whose answers are compared.
//!
//! None of these functions says anything in a contract, so that what calls them is proved from few
//! facts.
use mst_key::{Key, Value};
use mst_store::Pass;
use std::alloc::Global;

// Whether what was found is a value of these bytes, or nothing if none are given.
fn is_value(found: &Option<Value>, wanted: Option<&[u8]>) -> bool {
    match (found, wanted) {
        (Some(value), Some(bytes)) => value.bytes() == bytes,
        (None, None) => true,
        _ => false,
    }
}

/// Whether the key has this value, or none if none is given.
pub(crate) fn gets(pass: &mut Pass<Global>, key: &[u8], value: Option<&[u8]>) -> bool {
    match Key::new(key) {
        Ok(key) => is_value(&pass.get(&key), value),
        Err(_) => false,
    }
}

/// Whether the map takes this many rows; or, with none, whether they were not counted since a
/// version is pinned.
pub(crate) fn counts(pass: &mut Pass<Global>, rows: Option<u32>) -> bool {
    pass.rows() == Ok(rows)
}

/// Whether this many rows are free to the next write.
pub(crate) fn leaves_free(pass: &mut Pass<Global>, rows: u32) -> bool {
    pass.free_rows() == Ok(rows)
}

/// Whether a put goes through, and returns this old value.
pub(crate) fn puts(pass: &mut Pass<Global>, key: &[u8], value: &[u8], old: Option<&[u8]>) -> bool {
    let (Ok(key), Ok(value)) = (Key::new(key), Value::new(value)) else {
        return false;
    };
    match pass.try_put(&key, &value) {
        Ok(found) => is_value(&found, old),
        Err(_) => false,
    }
}
