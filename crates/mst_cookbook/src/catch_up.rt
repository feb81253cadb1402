//! A replica that was away takes over what it lacks of another, by one batch.
use crate::sharing::{Replicas, put_users};
use anyhow::Result;
use mst_key::{Edit, Format};
use mst_store::{MOST_ROWS, Pass, Pinned, Shape};
use std::alloc::Global;

pub const SHAPE: Shape = Shape {
    rows: 1_000,
    passes: 1,
    format: Format::One,
};

// Adds a put for each pair of theirs that we do not have.
fn add_puts(
    alloc: Global,
    ours: &mut Pass<'_, Global>,
    theirs: &mut Pinned<'_, Global>,
    edits: &mut Vec<Edit>,
) -> Result<()> {
    for (key, value) in theirs.range(alloc, None, None, MOST_ROWS as usize)? {
        if ours.get(&key) != Some(value.copy()) {
            edits.push(Edit::Put(key, value))?;
        }
    }
    Ok(())
}

// Adds a remove for each key of ours that they do not have.
fn add_removes(
    alloc: Global,
    ours: &mut Pass<'_, Global>,
    theirs: &mut Pinned<'_, Global>,
    edits: &mut Vec<Edit>,
) -> Result<()> {
    for (key, _) in ours.range(alloc, None, None, MOST_ROWS as usize)? {
        if theirs.get(&key).is_none() {
            edits.push(Edit::Remove(key))?;
        }
    }
    Ok(())
}

// The edits that make our map theirs.
fn edits_to(
    alloc: Global,
    ours: &mut Pass<'_, Global>,
    theirs: &mut Pinned<'_, Global>,
) -> Result<Vec<Edit>> {
    let mut edits = Vec::new(alloc);
    add_puts(alloc, ours, theirs, &mut edits)?;
    add_removes(alloc, ours, theirs, &mut edits)?;
    Ok(edits)
}

// Prints how many edits that took, and whether the root digests are then equal.
fn tell(rt: &HostRuntime, edits: usize, are_equal: bool) -> Result<()> {
    let word = if are_equal { "are equal" } else { "differ" };
    println!(rt; "{edits} edits, then the roots {word}")?;
    Ok(())
}

// Makes our map theirs: our readers see the one or the other, and nothing between.
fn catch_up(
    rt: &HostRuntime,
    ours: &mut Pass<'_, Global>,
    theirs: &mut Pinned<'_, Global>,
) -> Result<()> {
    let edits = edits_to(rt.alloc(), ours, theirs)?;
    ours.try_apply(rt.alloc(), &edits)?;
    tell(rt, edits.len(), ours.root() == theirs.root())
}

/// The recipe.
pub struct CatchingUp;

impl Replicas for CatchingUp {
    // Fills both, and lets theirs go on without us.
    fn fill(
        rt: &HostRuntime,
        ours: &mut Pass<'_, Global>,
        theirs: &mut Pass<'_, Global>,
    ) -> Result<()> {
        put_users(rt.alloc(), ours, 0..100, "new")?;
        put_users(rt.alloc(), theirs, 10..130, "new")
    }

    fn meet(rt: &HostRuntime, mut ours: Pass<'_, Global>, theirs: Pass<'_, Global>) -> Result<()> {
        catch_up(rt, &mut ours, &mut theirs.pin())
    }
}
