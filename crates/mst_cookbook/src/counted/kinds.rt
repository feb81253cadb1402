//! The kinds of calls.
ghost use Rattle.std.specs.Prelude.{◌<◌, length};

use super::calls::{Get, Migrate, Next, Prove, Put, Range, RemoveAndPutBack, Version, repeat};
use super::words::Calls;
use super::{batches, changes, reads};
use mst_key::Key;
use mst_store::Pass;
use std::alloc::Global;

/// A kind of call: of a pass, where nothing else is said.
pub enum Kind {
    Put,
    /// Puts, this many in each batch.
    PutInBatches(u32),
    RemoveAndPutBack,
    Version,
    Get,
    GetPinned,
    Next,
    Range,
    Prove,
    Verify,
    Migrate,
    /// Puts of all keys by one batch, each into an empty store of its own.
    Load,
    /// Gets of passes, one after the other, each of a store that has the keys of one shard.
    GetOfPasses,
    /// Batches of passes, each of a store that has the keys of one shard: of so many puts in all.
    BatchesOfPasses(u32),
    /// Gets of a reader of a map of shards.
    GetOfReader,
    /// Puts into a store that has what a directory has: a pair for each shard.
    PutOfListing,
    /// Batches of a put of each pair of such a store.
    BatchOfListings,
    /// Blocks of a map of shards, of so many puts each.
    Blocks(u32),
    /// Such blocks, and after each a snapshot, which is asked for its number and its root digest,
    /// and released. None is made of no puts.
    BlocksAndSnapshots(u32),
}

/// The puts of a large block.
pub const LARGE: u32 = 1_000;

/// The kinds, with what the command line calls them, and whether their keys rise: those of a map of
/// shards, or of stores that have its keys.
const KINDS: &[(Kind, &str, bool)] = &[
    (Kind::Put, "put", false),
    (Kind::PutInBatches(1), "put in batches of 1", false),
    (Kind::PutInBatches(10), "put in batches of 10", false),
    (Kind::PutInBatches(100), "put in batches of 100", false),
    (Kind::PutInBatches(1_000), "put in batches of 1000", false),
    (Kind::PutInBatches(10_000), "put in batches of 10000", false),
    (Kind::RemoveAndPutBack, "remove and put back", false),
    (Kind::Version, "version", false),
    (Kind::Get, "get", false),
    (Kind::GetPinned, "get of a pinned version", false),
    (Kind::Next, "next", false),
    (Kind::Range, "range of 100", false),
    (Kind::Prove, "prove", false),
    (Kind::Verify, "verify", false),
    (Kind::Migrate, "migrate", false),
    (Kind::Load, "load", false),
    (Kind::GetOfPasses, "get in stores of one shard", true),
    (
        Kind::BatchesOfPasses(LARGE),
        "batches in stores of one shard",
        true,
    ),
    (Kind::GetOfReader, "get of a reader", true),
    (Kind::PutOfListing, "put of a listing", true),
    (Kind::BatchOfListings, "batch of listings", true),
    (Kind::BlocksAndSnapshots(0), "snapshot of a block", true),
    (Kind::Blocks(1), "block of 1 edit", true),
    (
        Kind::BlocksAndSnapshots(1),
        "block of 1 edit and its snapshot",
        true,
    ),
    (Kind::Blocks(LARGE), "block of 1000 edits", true),
];

/// The kind with this name, what lines call it, and whether its keys rise.
pub fn named(name: &str) -> Option<(&'static Kind, &'static str, bool)> {
    for (kind, its_name, rise) in KINDS {
        if *its_name == name {
            return Some((kind, *its_name, *rise));
        }
    }
    None
}

/// Puts all keys, and gets them of the version that the pass then pins. Returns true if each call
/// went through.
pub fn get_pinned(mut pass: Pass<'_, Global>, keys: &[Key], calls: u32) -> bool
    requires some { 0 < length keys.now }
{
    let is_filled = changes::fill(&mut pass, keys, false);
    let all_found = reads::get_pinned(&mut pass.pin(), keys, calls);
    is_filled && all_found
}

/// Puts all keys, and makes calls of a kind that leaves the pass where it is, gets if it is of
/// something else. Returns true if each call went through.
pub fn make(alloc: Global, pass: &mut Pass<'_, Global>, keys: &[Key], of: &Calls) -> bool
    requires some { 0 < length keys.now }
{
    let lists = matches!(of.kind, Kind::PutOfListing | Kind::BatchOfListings);
    let is_filled = changes::fill(pass, keys, lists);
    let count = of.calls;
    let all_done = match of.kind {
        Kind::Put => repeat(alloc, pass, keys, count, &Put { lists: false }),
        Kind::PutOfListing => repeat(alloc, pass, keys, count, &Put { lists: true }),
        Kind::PutInBatches(size) => batches::put(alloc, pass, keys, count, *size, false),
        Kind::BatchOfListings => {
            let size = u32::try_from(keys.len()).unwrap_or(u32::MAX);
            batches::put(alloc, pass, keys, size.saturating_mul(count), size, true)
        }
        Kind::RemoveAndPutBack => repeat(alloc, pass, keys, count, &RemoveAndPutBack),
        Kind::Version => {
            let first = pass.version();
            repeat(alloc, pass, keys, count, &Version { first })
        }
        Kind::Next => repeat(alloc, pass, keys, count, &Next),
        Kind::Range => repeat(alloc, pass, keys, count, &Range),
        Kind::Prove => repeat(alloc, pass, keys, count, &Prove),
        Kind::Verify => reads::verify(alloc, pass, keys, count),
        Kind::Migrate => repeat(alloc, pass, keys, count, &Migrate),
        _ => repeat(alloc, pass, keys, count, &Get),
    };
    is_filled && all_done
}
