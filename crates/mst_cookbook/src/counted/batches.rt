//! Batches: puts into a full map, and loads of an empty one.
ghost use Rattle.std.specs.Prelude.{◌<◌, ◌≤◌, length};
ghost use Rattle.mst_store.specs.Passes.{most_rows};

use super::alone;
use super::changes::{FIRST_NEW_VALUE, STRIDE, puts};
use super::words::Calls;
use mst_key::Key;
use mst_store::Pass;
use std::alloc::Global;
use std::ops::Range;

// Makes the batch of the puts of some calls. Returns true if it went through.
//
// The values of batches of other sizes are other values, so that one kind of calls after another
// changes the map.
fn put_batch(
    alloc: Global,
    pass: &mut Pass<'_, Global>,
    keys: &[Key],
    calls: Range<u32>,
    size: u32,
    lists: bool,
) -> bool
    requires some { 0 < length keys.now }
{
    let first_value = FIRST_NEW_VALUE.saturating_add(u64::from(size) << 32);
    let room = calls.end.saturating_sub(calls.start) as usize;
    match puts(alloc, room, keys, calls, STRIDE, first_value, lists) {
        Ok(edits) => pass.try_apply(alloc, &edits).is_ok(),
        Err(_) => false,
    }
}

// The call with which a batch begins, of so many batches for so many calls.
fn first_of(batch: u32, batches: u32, calls: u32) -> u32 {
    let first = u64::from(batch) * u64::from(calls) / u64::from(batches.max(1));
    u32::try_from(first).unwrap_or(calls)
}

/// Puts `calls` values, or listings, other than the current ones, at keys that the map has, at most
/// `size` of them in each batch, and in each as many but for one. Returns true if each batch went
/// through.
pub fn put(
    alloc: Global,
    pass: &mut Pass<'_, Global>,
    keys: &[Key],
    calls: u32,
    size: u32,
    lists: bool,
) -> bool
    requires some { 0 < length keys.now }
{
    let batches = calls.div_ceil(size.max(1));
    for batch in 0..batches {
        let first = first_of(batch, batches, calls);
        let end = first_of(batch.saturating_add(1), batches, calls);
        if !put_batch(alloc, pass, keys, first..end, size, lists) {
            return false;
        }
    }
    true
}

/// Puts all keys with their first values by one batch into an empty store, `calls` times, each in
/// a store of its own. Returns true if each batch went through.
pub fn load(alloc: Global, keys: &[Key], of: &Calls) -> bool
    requires some { 0 < length keys.now }
    requires few { length keys.now ≤ most_rows }
{
    let calls = 0..keys.len() as u32;
    let Ok(edits) = puts(alloc, keys.len(), keys, calls, 1, 0, false) else {
        return false;
    };
    let mut all_done = true;
    for _ in 0..of.calls {
        all_done = alone::run(alloc, keys, &edits, of) && all_done;
    }
    all_done
}
