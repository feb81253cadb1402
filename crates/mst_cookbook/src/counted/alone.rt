//! Calls of the one pass of a store.
ghost use Rattle.std.specs.Prelude.{◌<◌, length};

use super::kinds::{self, Kind};
use super::words::Calls;
use crate::sharing::one_pass;
use mst_key::{Edit, Key};
use mst_store::{MOST_ROWS, Pass, Shape, Store};
use std::alloc::Global;

// Makes the batch of these edits, or puts all keys and makes calls of one kind. Returns true if
// each call went through.
fn make(alloc: Global, mut pass: Pass<'_, Global>, keys: &[Key], edits: &[Edit], of: &Calls) -> bool
    requires some { 0 < length keys.now }
{
    match of.kind {
        Kind::Load => pass.try_apply(alloc, edits).is_ok(),
        Kind::GetPinned => kinds::get_pinned(pass, keys, of.calls),
        _ => kinds::make(alloc, &mut pass, keys, of),
    }
}

/// Makes calls in a store that has no pair yet: one batch of these edits for a load, and otherwise
/// a put of each key, and then calls of one kind. Returns true if each went through.
pub fn run(alloc: Global, keys: &[Key], edits: &[Edit], of: &Calls) -> bool
    requires some { 0 < length keys.now }
{
    let shape = Shape {
        rows: MOST_ROWS,
        passes: 1,
        format: of.format,
    };
    let Ok((store, seats)) = Store::open(alloc, shape) else {
        return false;
    };
    let all_done = match one_pass(alloc, &store, seats) {
        Ok(pass) => make(alloc, pass, keys, edits, of),
        Err(_) => false,
    };
    drop(store);
    all_done
}
