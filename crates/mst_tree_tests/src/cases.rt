//! Questions as data, each with its expected answer, so that a test is a table of them.
//!
//! A table that is a constant costs its test's proof little, and the runner is proved once.
use crate::batches::is_applied;
use crate::confirming::confirm_at;
use crate::keys::{are_cloned, are_sorted, edits_are_compared, rise};
use crate::nodes::{node_is_rooted, numbers_are_rooted, one_gap_is_rooted};
use crate::pairs::prints;
use crate::proving::collisions::nothing_collides;
use crate::proving::growths::{is_small, takes};
use crate::proving::maps::numbers_are_free;
use crate::proving::sizes::{fronts_are_free, node_is_free};
use crate::sharding::audits::is_audited;
use mst_arena::VersionsSpent;
use mst_key::{Format, KeySize, Memory, ValueSize};
use mst_node::NodeFault;
use mst_path::NoRoom;
use mst_proof::ProofFault;
use mst_sharded_proof::ShardedFault;
use std::alloc::{AllocError, Global};
use std::process::Abort;

type Bytes = &'static [u8];

type Text = &'static str;

/// Pairs as they are spelt.
pub type Pairs = &'static [(Text, Text)];

/// Edits as they are spelt: a key, and the value that it gets, or none if it is removed.
pub type Edits = &'static [(Text, Option<Text>)];

/// The listings of a directory: a lower bound, the number of a root digest, the length of what is
/// listed, and the first byte of the upper bound.
pub type Listings = &'static [(u8, usize, usize, u8)];

/// A question with its expected answer.
#[derive(Clone, Copy)]
pub enum Case {
    /// Two keys that rise, and two that fall and are sorted.
    Rise(Bytes, Bytes),
    Sorts(Bytes, Bytes),
    /// A key and a value whose clones and copies are the same.
    Clones(Bytes, Bytes),
    /// A key and a value whose put is another edit than the key's removal.
    Edits(Bytes, Bytes),
    /// What a key of no right size prints, a value, refused memory, a text of no node, rows that
    /// are not free, and version numbers that are spent.
    KeySizePrints(Text),
    ValueSizePrints(Text),
    MemoryPrints(Text),
    NodeFaultPrints(Text),
    NoRoomPrints(Text),
    VersionsSpentPrints(Text),
    /// What a fault of a proof prints, and one of a proof of a sharded map.
    FaultPrints(ProofFault, Text),
    ShardedFaultPrints(ShardedFault, Text),
    /// The root digest of the first numbers, this many of them.
    NumbersRoot(u32, Text),
    /// The end of the numbers of one node, how many pairs it has, and their root digest.
    NodeRoot(u32, usize, Text),
    /// The root digest of 65,535 pairs of which all but one lie in one gap.
    OneGapRoot(Text),
    /// The pairs of a map, a key and a proof, in which nothing collides.
    NoCollision(Format, Pairs, Text, Text),
    /// How many numbers a map has, and in which steps they are asked for proofs.
    NumbersFree(Format, u32, usize),
    /// The end of the numbers of one node, of which two proofs are asked.
    NodeFree(u32),
    /// The first size and the last of maps that are asked for a proof.
    SizesFree(usize, usize),
    /// A number that 40 numbers are asked for, and the bytes that the search takes.
    Takes(Format, u8, usize),
    /// How many numbers a map has, and the bytes of a heap in which a search ends.
    Small(Format, u32, usize),
    /// The pairs before a batch, its edits, and the pairs after it.
    Applied(Pairs, Edits, Pairs),
    /// The listings of a directory in a format, and what its audit says.
    Audited(Format, Listings, Text),
}

/// Whether a question of batches and directories has its answer; false for any other question.
fn lists_hold(rt: &impl Abort, alloc: Global, case: Case) -> bool {
    match case {
        Case::Applied(before, edits, after) => is_applied(rt, alloc, before, edits, after),
        Case::Audited(format, listings, words) => is_audited(rt, alloc, format, listings, words),
        _ => false,
    }
}

/// Whether a question of collisions has its answer; others are left to `lists_hold`.
fn proofs_hold(rt: &impl Abort, alloc: Global, case: Case) -> bool {
    match case {
        Case::NoCollision(format, pairs, key, proof) => {
            nothing_collides(rt, alloc, format, pairs, key, proof)
        }
        Case::NumbersFree(format, count, step) => {
            numbers_are_free(rt, alloc, format, count, step)
        }
        Case::NodeFree(end) => node_is_free(rt, alloc, end),
        Case::SizesFree(first, last) => fronts_are_free(rt, alloc, first, last),
        Case::Takes(format, number, bytes) => takes(rt, alloc, format, number, bytes),
        Case::Small(format, count, room) => is_small(rt, alloc, format, count, room),
        other => lists_hold(rt, alloc, other),
    }
}

/// Whether a question of root digests has its answer; others are left to `proofs_hold`.
fn roots_hold(rt: &impl Abort, alloc: Global, case: Case) -> bool {
    match case {
        Case::NumbersRoot(count, digits) => numbers_are_rooted(rt, alloc, count, digits),
        Case::NodeRoot(end, count, digits) => node_is_rooted(rt, alloc, end, count, digits),
        Case::OneGapRoot(digits) => one_gap_is_rooted(rt, alloc, digits),
        other => proofs_hold(rt, alloc, other),
    }
}

/// Whether a question of what is printed has its answer; others are left to `roots_hold`.
fn prints_hold(rt: &impl Abort, alloc: Global, case: Case) -> bool {
    match case {
        Case::KeySizePrints(text) => prints(rt, alloc, &KeySize, text),
        Case::ValueSizePrints(text) => prints(rt, alloc, &ValueSize, text),
        Case::MemoryPrints(text) => prints(rt, alloc, &Memory::from(AllocError), text),
        Case::NodeFaultPrints(text) => prints(rt, alloc, &NodeFault, text),
        Case::NoRoomPrints(text) => prints(rt, alloc, &NoRoom, text),
        Case::VersionsSpentPrints(text) => prints(rt, alloc, &VersionsSpent, text),
        Case::FaultPrints(fault, text) => prints(rt, alloc, &fault, text),
        Case::ShardedFaultPrints(fault, text) => prints(rt, alloc, &fault, text),
        other => roots_hold(rt, alloc, other),
    }
}

/// Whether a question of keys and values has its answer; others are left to `prints_hold`.
fn holds(rt: &impl Abort, alloc: Global, case: Case) -> bool {
    match case {
        Case::Rise(one, other) => rise(rt, one, other),
        Case::Sorts(one, other) => are_sorted(rt, alloc, one, other),
        Case::Clones(key, value) => are_cloned(rt, key, value),
        Case::Edits(key, value) => edits_are_compared(rt, key, value),
        other => prints_hold(rt, alloc, other),
    }
}

/// Asks each question, and ends the test at the first that does not have its answer.
pub fn ask(rt: &(impl Abort + AllocGlobal), cases: &[Case]) {
    for (place, case) in cases.iter().enumerate() {
        confirm_at(rt, holds(rt, rt.alloc(), *case), place);
    }
}
