//! The keys of calls, and what is put at them.
ghost use Rattle.std.specs.Prelude.{◌<◌, length};

use super::keys::value;
use mst_key::{Edit, Key};
use mst_store::Pass;
use std::alloc::{AllocError, Global};
use std::ops::Range;

/// From one call's key to the next one's in the list, so that the calls are spread over the map. It
/// shares no factor with the numbers of keys.
pub const STRIDE: usize = 7_919;

/// The number of the first value that is put into a full map. All values of a map that is filled
/// have smaller numbers.
pub const FIRST_NEW_VALUE: u64 = 1 << 40;

/// Puts each key with its first value, or listing. Returns true if each call went through.
pub fn fill(pass: &mut Pass<'_, Global>, keys: &[Key], lists: bool) -> bool {
    for (number, key) in keys.iter().enumerate() {
        if pass.try_put(key, &value(number as u64, lists)).is_err() {
            return false;
        }
    }
    true
}

/// The key of a call.
pub fn picked(keys: &[Key], call: u32) -> &Key
    requires some { 0 < length keys.now }
{
    &keys[call as usize * STRIDE % keys.len()]
}

/// Puts of values, or listings, from this number on, at the keys of some calls, which lie this far
/// from one another. The list has at first room for so many.
pub fn puts(
    alloc: Global,
    room: usize,
    keys: &[Key],
    calls: Range<u32>,
    stride: usize,
    first_value: u64,
    lists: bool,
) -> Result<Vec<Edit>, AllocError>
    requires some { 0 < length keys.now }
{
    let mut edits = Vec::with_capacity(alloc, room)?;
    for call in calls {
        let key = &keys[(call as usize).wrapping_mul(stride) % keys.len()];
        let new = value(first_value.wrapping_add(u64::from(call)), lists);
        edits.push(Edit::Put(key.copy(), new))?;
    }
    Ok(edits)
}
