//! A batch of changes as one version.
use crate::sharing::{Change, Recipe, edits_of};
use anyhow::Result;
use mst_key::Format;
use mst_store::{Pass, Shape};
use std::alloc::Global;

pub const SHAPE: Shape = Shape {
    rows: 100,
    passes: 2,
    format: Format::One,
};

// Prints which version a block of this many edits made, and how many keys there are.
fn tell(rt: &HostRuntime, pass: &mut Pass<'_, Global>, edits: usize) -> Result<()> {
    let version = pass.version();
    let keys = pass.len();
    println!(rt; "a block of {edits}: version {version} has {keys} keys")?;
    Ok(())
}

// Makes a block.
fn apply(rt: &HostRuntime, pass: &mut Pass<'_, Global>, changes: &[Change]) -> Result<()> {
    let block = edits_of(rt.alloc(), changes)?;
    pass.try_apply(rt.alloc(), &block)?;
    tell(rt, pass, changes.len())
}

const FIRST: &[Change] = &[
    ("apple", Some("30")),
    ("plum", Some("12")),
    ("pear", Some("20")),
];

const SECOND: &[Change] = &[("apple", Some("35")), ("plum", None)];

/// The recipe.
pub struct Batch;

impl Recipe for Batch {
    fn begin(rt: &HostRuntime, writer: &mut Pass<'_, Global>) -> Result<()> {
        apply(rt, writer, FIRST)?;
        apply(rt, writer, SECOND)
    }
}
