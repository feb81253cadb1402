//! Two replicas: whether their maps are equal, and at which keys they differ.
use crate::sharing::{Replicas, put_each, tell, text};
use anyhow::Result;
use mst_key::Format;
use mst_store::{MOST_ROWS, Pass, Pinned, Shape};
use std::alloc::Global;

pub const SHAPE: Shape = Shape {
    rows: 100,
    passes: 1,
    format: Format::One,
};

// Prints the keys of one replica that have another value in the other, or none.
fn tell_differing(
    rt: &HostRuntime,
    what: &str,
    one: &mut Pinned<'_, Global>,
    other: &mut Pinned<'_, Global>,
) -> Result<()> {
    for (key, value) in one.range(rt.alloc(), None, None, MOST_ROWS as usize)? {
        if other.get(&key) != Some(value) {
            tell(rt, what, text(key.bytes()))?;
        }
    }
    Ok(())
}

// Compares two versions of one format: first by their root digests, which are enough if they agree.
fn compare(
    rt: &HostRuntime,
    ours: &mut Pinned<'_, Global>,
    theirs: &mut Pinned<'_, Global>,
) -> Result<()> {
    if ours.root() == theirs.root() {
        return tell(rt, "equal", "yes");
    }
    tell(rt, "equal", "no")?;
    tell_differing(rt, "differs in ours", ours, theirs)?;
    tell_differing(rt, "differs in theirs", theirs, ours)
}

// Prices of fruits: the same in both maps, put in other orders, and then a change of theirs.
const OURS: &[(&str, &str)] = &[("apple", "30"), ("plum", "12")];

const THEIRS: &[(&str, &str)] = &[("plum", "12"), ("apple", "30")];

const LATER: &[(&str, &str)] = &[("apple", "35"), ("pear", "20")];

// Compares both before and after the change.
fn compare_twice(
    rt: &HostRuntime,
    ours: &mut Pinned<'_, Global>,
    mut theirs: Pinned<'_, Global>,
) -> Result<()> {
    let before = compare(rt, ours, &mut theirs);
    let mut theirs = theirs.unpin();
    let changed = put_each(&mut theirs, LATER);
    let after = compare(rt, ours, &mut theirs.pin());
    before?;
    changed?;
    after
}

/// The recipe.
pub struct Comparison;

impl Replicas for Comparison {
    fn fill(
        _rt: &HostRuntime,
        ours: &mut Pass<'_, Global>,
        theirs: &mut Pass<'_, Global>,
    ) -> Result<()> {
        put_each(ours, OURS)?;
        put_each(theirs, THEIRS)
    }

    fn meet(rt: &HostRuntime, ours: Pass<'_, Global>, theirs: Pass<'_, Global>) -> Result<()> {
        compare_twice(rt, &mut ours.pin(), theirs.pin())
    }
}
