//! Blocks of a sharded map, snapshots of them, and gets of a reader.
ghost use Rattle.std.specs.Prelude.{◌<◌, ◌≤◌, length};
ghost use Rattle.mst_store.specs.Passes.{most_rows};

use super::changes::{FIRST_NEW_VALUE, STRIDE, picked, puts};
use super::kinds::Kind;
use super::shards::{SHARDS, splits};
use super::words::Calls;
use crate::sharing::users;
use anyhow::Result;
use mst_blocks::Writer;
use mst_key::Key;
use mst_snapshots::Reader;
use mst_store::Shape;
use std::alloc::Global;

/// Rows of a shard for each of its keys, and for the paths of puts while versions are pinned.
const ROWS_OF_KEY: u32 = 3;

const SPARE_ROWS: u32 = 512;

// The writer and a reader of a map of 32 shards for these keys.
fn open(alloc: Global, keys: &[Key], of: &Calls) -> Result<(Writer<Global>, Reader<Global>)>
    requires few { length keys.now ≤ most_rows }
{
    let shape = Shape {
        rows: (keys.len() / SHARDS) as u32 * ROWS_OF_KEY + SPARE_ROWS,
        passes: 2,
        format: of.format,
    };
    users(alloc, splits(alloc, keys)?, shape)
}

// Makes a block, of puts of values that no key has, at the next of the keys after so many calls.
// Returns the writer, and whether it was made.
fn apply(
    alloc: Global,
    writer: Writer<Global>,
    keys: &[Key],
    first: u32,
    count: u32,
) -> (Writer<Global>, bool)
    requires some { 0 < length keys.now }
{
    let calls = first..first.saturating_add(count);
    match puts(alloc, 0, keys, calls, STRIDE, FIRST_NEW_VALUE, false) {
        Ok(edits) => {
            let (writer, made) = writer.apply(alloc, &edits);
            (writer, made.is_ok())
        }
        Err(_) => (writer, false),
    }
}

// Takes a snapshot, asks it for its number and its root digest, and ends it. Returns the reader,
// and whether the number is the writer's.
fn look(reader: Reader<Global>, number: u64, root: &[u8; 32]) -> (Reader<Global>, bool) {
    match reader.try_snapshot() {
        Ok(mut snapshot) => {
            let same = snapshot.number() == number && snapshot.root() == *root;
            (snapshot.release(), same)
        }
        Err(reader) => (reader, false),
    }
}

// Makes blocks of so many puts, one after another. Returns whether all were made.
fn make_blocks(
    alloc: Global,
    mut writer: Writer<Global>,
    keys: &[Key],
    calls: u32,
    edits: u32,
) -> bool
    requires some { 0 < length keys.now }
{
    let mut all_made = true;
    for call in 0..calls {
        let (again, made) = apply(alloc, writer, keys, call.wrapping_mul(edits), edits);
        writer = again;
        all_made = all_made && made;
    }
    all_made
}

// Makes blocks of so many puts, and takes a snapshot after each, one after another. Returns whether
// each call went through.
fn make_and_look(
    alloc: Global,
    mut writer: Writer<Global>,
    mut reader: Reader<Global>,
    keys: &[Key],
    calls: u32,
    edits: u32,
) -> bool
    requires some { 0 < length keys.now }
{
    let mut all_done = true;
    for call in 0..calls {
        if edits > 0 {
            let (new, made) = apply(alloc, writer, keys, call.wrapping_mul(edits), edits);
            writer = new;
            all_done = all_done && made;
        }
        let (old, same) = look(reader, writer.number(), &writer.root());
        reader = old;
        all_done = all_done && same;
    }
    all_done
}

// Gets `calls` keys. Returns true if each has a value.
fn get(reader: &mut Reader<Global>, keys: &[Key], calls: u32) -> bool
    requires some { 0 < length keys.now }
{
    for call in 0..calls {
        if reader.get(picked(keys, call)).is_none() {
            return false;
        }
    }
    true
}

// Makes calls of a map that has these keys. Returns true if each went through.
fn make(
    alloc: Global,
    writer: Writer<Global>,
    mut reader: Reader<Global>,
    keys: &[Key],
    of: &Calls,
) -> bool
    requires some { 0 < length keys.now }
{
    match of.kind {
        Kind::Blocks(edits) => {
            drop(reader);
            make_blocks(alloc, writer, keys, of.calls, *edits)
        }
        Kind::BlocksAndSnapshots(edits) => {
            make_and_look(alloc, writer, reader, keys, of.calls, *edits)
        }
        _ => {
            drop(writer);
            let all_found = get(&mut reader, keys, of.calls);
            drop(reader);
            all_found
        }
    }
}

/// Makes calls of a sharded map that has these keys, which rise. Returns true if each went through.
pub fn run(alloc: Global, keys: &[Key], of: &Calls) -> bool
    requires some { 0 < length keys.now }
    requires few { length keys.now ≤ most_rows }
{
    match open(alloc, keys, of) {
        Ok((writer, reader)) => {
            let (writer, is_filled) = apply(alloc, writer, keys, 0, keys.len() as u32);
            let all_done = make(alloc, writer, reader, keys, of);
            is_filled && all_done
        }
        Err(_) => false,
    }
}
