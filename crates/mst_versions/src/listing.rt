//! Which versions are found pinned.
ghost use Rattle.std.specs.Prelude.{◌≡◌, ◌<◌, ◌≤◌, length, IfOk, OnErr};
ghost use Rattle.std.specs.List.Sorted.{IsPermutation, IsNonDecreasing};
ghost use Rattle.mst_words.specs.Access.{IsSameSeat};
ghost use Rattle.mst_words.specs.Layout.{most_passes};
ghost use Rattle.mst_words.specs.Steps.{IsFree, Misses};
ghost use Rattle.mst_versions.specs.Resting.{IsResting};
ghost use Rattle.mst_versions.specs.Listing.{added, IsListing, FindsPinned};
ghost use Rattle.mst_versions.specs.Known.{AtSeat};
ghost use Rattle.mst_versions.specs.Writes.{KeepsPass};

use crate::faults::Busy;
use crate::parameters::PassParameters;
use crate::turn::{ask_all, take};
use arrayvec::ArrayVec;
use mst_words::PassSeat;
use std::alloc::Allocator;

/// The numbers of versions, one for each pass of a store at most.
pub type VersionList = ArrayVec<u64, 32>;

// Puts the version behind the others, if it is not among them.
fn put_once(versions: &mut VersionList, version: u64)
    requires room { length versions.old.items < most_passes }
    ensures once { versions.new.items ≡ added versions.old.items version }
{
    if !versions.contains(&version) {
        versions.push(version);
    }
}

// Puts the versions into ascending order.
fn put_in_order(versions: &mut VersionList)
    ensures sorted { IsNonDecreasing versions.new.items }
    ensures same { IsPermutation versions.old.items versions.new.items }
{
    versions.sort_unstable();
}

// The versions in ascending order, each once.
fn ascending(found: &[u64]) -> VersionList
    requires few { length found.now ≤ most_passes }
    ensures listing { IsListing found.now result.items }
{
    let mut versions = ArrayVec::new();
    for version in found {
        put_once(&mut versions, *version);
    }
    put_in_order(&mut versions);
    versions
}

/// Returns the versions that are found pinned, in ascending order, each once. The current version
/// is among them only if a pass pins it.
///
/// The turn is taken, each record is asked who pins it, and the turn is given back. Returns `Busy`
/// only if another pass has the turn. It takes no memory.
pub fn pinned_versions<A: Allocator + Copy>(
    seat: &mut PassSeat<'_, A>,
    parameters: PassParameters,
) -> Result<VersionList, Busy>
    requires rest { IsResting parameters seat.old.me }
    ensures same { IsSameSeat seat.old seat.new }
    ensures pass { KeepsPass seat.old.me seat.new.me }
    ensures free { IsFree parameters.number seat.new.me }
    ensures found { IfOk result
        (λ versions. AtSeat (FindsPinned versions.items) parameters.number seat.old seat.new) }
    ensures busy { OnErr result (Misses seat.old.me seat.new.me) }
{
    let Some(desk) = take(seat, parameters.number) else {
        return Err(Busy);
    };
    let found = ask_all(seat, desk, parameters.passes);
    Ok(ascending(found.as_slice()))
}
