//! Calls of a store, made so that their instructions can be counted.
//!
//! The words `KIND KEYS CALLS [1|2]` ask for a store of format 1 or 2 with KEYS keys of 16 bytes
//! and values of 32, for CALLS calls of one kind, and for a line: the kind, the number of keys and
//! that of calls. `load KEYS CALLS [1|2]` asks for loads, each in a store of its own. Some kinds
//! are of a map of 32 shards. Keys, values and their order are the same in each run: `tools/counts`
//! counts the instructions of one call, and `tools/peaks` sees the most memory.
//!
//! They are made by the program of the recipes, since each program is checked with the code of all
//! crates below it. `bench/store/run` times the calls from C.
ghost use Rattle.std.specs.Prelude.{◌<◌, ◌≤◌, length};
ghost use Rattle.mst_store.specs.Passes.{most_rows};

mod alone;
mod batches;
mod blocks;
mod calls;
mod changes;
mod keys;
mod kinds;
mod reads;
mod shards;
mod words;

use anyhow::{Error, Result};
use kinds::Kind;
use mst_key::Key;
use mst_store::MOST_ROWS;
use std::alloc::Global;
use words::{Calls, HELP};

// Makes calls at these keys. Returns true if each went through.
fn make_at(alloc: Global, keys: &[Key], of: &Calls) -> bool
    requires some { 0 < length keys.now }
    requires few { length keys.now ≤ most_rows }
{
    match of.kind {
        Kind::Load => batches::load(alloc, keys, of),
        Kind::GetOfPasses | Kind::BatchesOfPasses(_) => shards::run_passes(alloc, keys, of),
        Kind::PutOfListing | Kind::BatchOfListings => shards::run_listings(alloc, keys, of),
        Kind::GetOfReader | Kind::Blocks(_) | Kind::BlocksAndSnapshots(_) => {
            blocks::run(alloc, keys, of)
        }
        _ => alone::run(alloc, keys, &[], of),
    }
}

// Makes the keys, of which a store has at most as many as rows, and calls at them. Returns true if
// each went through.
fn make(alloc: Global, of: &Calls) -> bool {
    match keys::keys(alloc, of.keys, of.rise) {
        Ok(keys) => {
            !keys.is_empty() && keys.len() <= MOST_ROWS as usize && make_at(alloc, &keys, of)
        }
        Err(_) => false,
    }
}

// Prints the line of calls; an error if one of them was refused.
fn tell(rt: &HostRuntime, of: &Calls, all_done: bool) -> Result<()> {
    if !all_done {
        return Err(Error::msg("a call was refused; a store has 1 to 65535 keys"));
    }
    let (name, keys, calls) = (of.name, of.keys, of.calls);
    println!(rt; "{name}: {keys} keys, {calls} calls")?;
    Ok(())
}

/// Makes the calls that the words of the command line ask for, of which the first is the program's
/// name. To other words it says how it is called.
///
/// # Errors
///
/// For more keys than a store has rows, if there is no memory, if a call was refused, or if a line
/// could not be printed.
pub fn run(rt: &HostRuntime, words: &[String]) -> Result<()> {
    match words::asked(words) {
        Some(of) => tell(rt, &of, make(rt.alloc(), &of)),
        None => Ok(println!(rt; "{HELP}")?),
    }
}
