//! Opens a store for 1,000 keys, puts them, and asks how many rows they take.
use crate::sharing::{one_pass, put_users};
use anyhow::{Error, Result};
use mst_key::Format;
use mst_store::{Pass, Shape, Store};
use std::alloc::Global;

/// How many keys the map will have.
const KEYS: u32 = 1_000;

/// The rows of the map: one for each key, and in format 1 some 1/16 more for the nodes.
const MAP_ROWS: u32 = KEYS * 17 / 16;

/// How many versions are pinned at a time. While they last, each may keep as many rows as the map.
const PINNED: u32 = 1;

/// Rows for two writes: (1 + S) × W. A put writes a whole path anew, here at most W = 200 rows, and
/// S = 1 read may keep the path before it.
const PATH_ROWS: u32 = 400;

const SHAPE: Shape = Shape {
    rows: (PINNED + 1) * MAP_ROWS + PATH_ROWS,
    passes: 2,
    format: Format::One,
};

// Prints how many rows are taken.
fn tell_rows(rt: &HostRuntime, pass: &mut Pass<'_, Global>) -> Result<()> {
    // another pass could have the turn, or pin
    let Ok(Some(taken)) = pass.rows() else {
        return Err(Error::msg("no other pass has the turn, and none pins a version"));
    };
    let rows = SHAPE.rows;
    println!(rt; "{KEYS} keys take {taken} rows of {rows}")?;
    Ok(())
}

// Fills the store, and asks.
fn show(rt: &HostRuntime, mut pass: Pass<'_, Global>) -> Result<()> {
    put_users(rt.alloc(), &mut pass, 0..KEYS, "new")?;
    tell_rows(rt, &mut pass)
}

pub fn run(rt: &HostRuntime) -> Result<()> {
    let (store, seats) = Store::open(rt.alloc(), SHAPE)?;
    let pass = one_pass(rt.alloc(), &store, seats)?;
    show(rt, pass)
}
