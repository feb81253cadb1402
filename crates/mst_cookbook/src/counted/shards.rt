//! The shards of the map whose calls are counted; and gets and batches of its keys in single
//! stores, and puts into a store with the pairs of a directory.
ghost use Rattle.std.specs.Prelude.{◌<◌, IfOk, length};

use super::alone;
use super::kinds::{Kind, LARGE};
use super::words::Calls;
use mst_key::Key;
use std::alloc::{AllocError, Global};

/// How many shards the map has.
pub const SHARDS: usize = 32;

/// The first key of each shard but the first, where all have equally many of the keys, which rise.
pub fn splits(alloc: Global, keys: &[Key]) -> Result<Vec<Key>, AllocError> {
    let mut splits = Vec::new(alloc);
    for shard in 1..SHARDS {
        if let Some(key) = keys.get(keys.len() / SHARDS * shard) {
            splits.push(key.copy())?;
        }
    }
    Ok(splits)
}

/// A large block's puts, in batches of a shard's part of them.
const BATCHES: &Kind = &Kind::PutInBatches(LARGE / SHARDS as u32 + 1);

// The calls in a store that has the keys of one shard: its part of the puts of a block, as a batch,
// or of the gets.
fn part(of: &Calls) -> Calls {
    let (kind, calls) = match of.kind {
        Kind::BatchesOfPasses(puts) => (BATCHES, of.calls.saturating_mul(*puts)),
        _ => (of.kind, of.calls),
    };
    Calls {
        kind,
        name: of.name,
        rise: of.rise,
        keys: of.keys,
        calls: calls / SHARDS as u32,
        format: of.format,
    }
}

// Makes calls in a store that has the keys of a shard. Returns true if each went through.
fn run_pass(alloc: Global, its_keys: Option<&[Key]>, of: &Calls) -> bool {
    match its_keys {
        Some(keys) => !keys.is_empty() && alone::run(alloc, keys, &[], of),
        None => false,
    }
}

/// Makes calls in stores of their own, one after the other, each of which has the keys of a shard.
/// Returns true if each went through.
pub fn run_passes(alloc: Global, keys: &[Key], of: &Calls) -> bool {
    let (its_keys, its_calls) = (keys.len() / SHARDS, part(of));
    let mut all_done = true;
    for shard in 0..SHARDS {
        let its = keys.get(its_keys * shard..its_keys * (shard + 1));
        all_done = run_pass(alloc, its, &its_calls) && all_done;
    }
    all_done
}

// The lower bound of each shard.
fn bounds(alloc: Global, keys: &[Key]) -> Result<Vec<Key>, AllocError>
    ensures some { IfOk result (λ bounds. 0 < length bounds.items) }
{
    let Ok(least) = Key::new(&[0]) else {
        unreachable!()
    };
    let mut bounds = splits(alloc, keys)?;
    bounds.push(least)?;
    Ok(bounds)
}

/// Makes puts, alone or in batches, into a store that has what the directory has: a listing at each
/// bound. Returns true if each went through.
pub fn run_listings(alloc: Global, keys: &[Key], of: &Calls) -> bool {
    match bounds(alloc, keys) {
        Ok(bounds) => alone::run(alloc, &bounds, &[], of),
        Err(_) => false,
    }
}
