//! The version that a pass pins.
ghost use Rattle.std.specs.Prelude.{◌≡◌, ◌<◌, ◌≤◌, ◌^◌, length, IfOk};
ghost use Rattle.std.specs.Option.{option_copied};
ghost use Rattle.mst_key.specs.Map.{map_get, map_next, map_range};
ghost use Rattle.mst_key.specs.History.{after};
ghost use Rattle.mst_node.specs.Text as text;
ghost use Rattle.mst_node.specs.Trail.{proof_text};
ghost use Rattle.mst_words.specs.Access.{IsSameSeat};
ghost use Rattle.mst_words.specs.Layout.{most_passes};
ghost use Rattle.mst_versions.specs.Resting.{IsResting};
ghost use Rattle.mst_versions.specs.Pinned.{format_pinned, HasPinned, PinsVersion};

use crate::parameters::PassParameters;
use crate::roots::{read_digest, read_format, read_link};
use mst_key::{Format, Key, Memory, Value};
use mst_words::PassSeat;
use std::alloc::Allocator;

/// Where the map of a pinned version stands.
#[derive(Clone, Copy)]
pub struct PinnedVersion {
    /// The record that is pinned.
    pub pinned: u32,
    /// The number of the version: how many events led to it.
    pub version: u64,
    /// The link of the tree of its map. The root digest is read when it is asked for.
    pub link: u32,
}

/// Pins the current version and reads where its map stands: one xor and two loads.
pub fn pin<A: Allocator + Copy>(
    seat: &mut PassSeat<'_, A>,
    parameters: PassParameters,
) -> PinnedVersion
    requires rest { IsResting parameters seat.old.me }
    requires few { parameters.number ≤ most_passes }
    ensures same { IsSameSeat seat.old seat.new }
    ensures pinned { PinsVersion seat.old.me result seat.new.me }
{
    let pinned = seat.pin(parameters.number);
    let (version, link) = read_link(seat, pinned);
    PinnedVersion {
        pinned,
        version,
        link,
    }
}

/// The value of the key in the pinned version.
pub fn get<A: Allocator + Copy>(
    seat: &mut PassSeat<'_, A>,
    at: &PinnedVersion,
    key: &Key,
) -> Option<Value>
    requires pinned { HasPinned at.now seat.old.me.0 }
    ensures found { result ≡ map_get (after seat.old.me.0.pinned_history) key.now }
    ensures same { seat.new ≡ seat.old }
{
    mst_read::get_below(seat, at.link, key)
}

/// The pair of the least key above the bound in the pinned version, or of the least key if there is
/// no bound.
pub fn next<A: Allocator + Copy>(
    seat: &mut PassSeat<'_, A>,
    at: &PinnedVersion,
    bound: Option<&Key>,
) -> Option<(Key, Value)>
    requires pinned { HasPinned at.now seat.old.me.0 }
    ensures found { result
        ≡ map_next (after seat.old.me.0.pinned_history) (option_copied bound.entry) }
    ensures same { seat.new ≡ seat.old }
{
    mst_read::next_below(seat, at.link, bound)
}

/// How many pairs the pinned version has. Of each node it reads the head, and of those above the
/// lowest layer the links of the entries.
pub fn len<A: Allocator + Copy>(seat: &mut PassSeat<'_, A>, at: &PinnedVersion) -> u64
    requires pinned { HasPinned at.now seat.old.me.0 }
    requires few { length (after seat.old.me.0.pinned_history) < 2 ^ 64 }
    ensures found { result ≡ length (after seat.old.me.0.pinned_history) }
    ensures same { seat.new ≡ seat.old }
{
    mst_read::len_below(seat, at.link)
}

/// The format of the pinned version: one load.
pub fn format<A: Allocator + Copy>(seat: &mut PassSeat<'_, A>, at: &PinnedVersion) -> Format
    requires pinned { HasPinned at.now seat.old.me.0 }
    ensures found { result ≡ format_pinned seat.old.me.0 }
    ensures same { seat.new ≡ seat.old }
{
    read_format(seat, at.pinned)
}

/// The root digest of the pinned version's map: four loads.
pub fn root<A: Allocator + Copy>(seat: &mut PassSeat<'_, A>, at: &PinnedVersion) -> [u8; 32]
    requires pinned { HasPinned at.now seat.old.me.0 }
    ensures found { result
        ≡ text.root (format_pinned seat.old.me.0) (after seat.old.me.0.pinned_history) }
    ensures same { seat.new ≡ seat.old }
{
    read_digest(seat, at.pinned)
}

/// The first pairs of the pinned version, at most `limit`, of the keys that are at least `from` and
/// below `to`. A bound that is not given does not bind.
///
/// Returns `Memory` if the growth of the list was refused.
pub fn range<A: Allocator + Copy, B: Allocator>(
    seat: &mut PassSeat<'_, A>,
    alloc: B,
    at: &PinnedVersion,
    from: Option<&Key>,
    to: Option<&Key>,
    limit: usize,
) -> Result<Vec<(Key, Value), B>, Memory>
    requires pinned { HasPinned at.now seat.old.me.0 }
    ensures found { IfOk result (λ found. found.items
        ≡ map_range (after seat.old.me.0.pinned_history)
        (option_copied from.entry) (option_copied to.entry) limit) }
    ensures same { seat.new ≡ seat.old }
{
    mst_read::range_below(alloc, seat, at.link, from, to, limit)
}

/// The proof of the pinned version's answer for the key, against its root digest, of fewer than
/// 2^32 bytes, in its format.
///
/// Returns `Memory` if a growth was refused.
pub fn prove<A: Allocator + Copy, B: Allocator + Copy>(
    seat: &mut PassSeat<'_, A>,
    alloc: B,
    at: &PinnedVersion,
    key: &Key,
) -> Result<Vec<u8, B>, Memory>
    requires pinned { HasPinned at.now seat.old.me.0 }
    ensures proof { IfOk result
        (λ proof. proof.items ≡ proof_text (format_pinned seat.old.me.0)
        (after seat.old.me.0.pinned_history) key.now) }
    ensures short { IfOk result (λ proof. length proof.items < 2 ^ 32) }
    ensures same { seat.new ≡ seat.old }
{
    let format = format(seat, at);
    mst_read::prove_below(alloc, seat, at.link, key, format)
}
