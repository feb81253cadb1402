//! What errors and the faults of texts and of proofs print, and of what kind refused memory is to a
//! caller who returns errors of the system.
use crate::cases::{Case, ask};
use crate::confirming::confirm;
use crate::pairs::prints;
use mst_key::Memory;
use mst_proof::ProofFault;
use mst_sharded_proof::{AuditFault, ShardedFault};
use std::alloc::AllocError;
use std::io;

const PRINTED: &[Case] = &[
    Case::KeySizePrints("a key has 1 to 32 bytes"),
    Case::ValueSizePrints("a value has at most 64 bytes"),
    Case::MemoryPrints("no memory"),
    Case::NodeFaultPrints("not a node text"),
    Case::NoRoomPrints("no room"),
    Case::VersionsSpentPrints("version numbers are spent"),
    Case::FaultPrints(ProofFault::FormatByte, "P1"),
    Case::FaultPrints(ProofFault::CutShort, "P2"),
    Case::FaultPrints(ProofFault::LeftOver, "P3"),
    Case::FaultPrints(ProofFault::NoNode, "P4"),
    Case::FaultPrints(ProofFault::OtherDigest, "P5"),
    Case::FaultPrints(ProofFault::LayerNotBelow, "P6"),
    Case::FaultPrints(ProofFault::KeyOutside, "P7"),
    Case::FaultPrints(ProofFault::Unfinished, "P8"),
    Case::FaultPrints(ProofFault::TextBehind, "P9"),
    Case::FaultPrints(ProofFault::OtherValue, "P10"),
    Case::ShardedFaultPrints(ShardedFault::FormatByte, "S1"),
    Case::ShardedFaultPrints(ShardedFault::CutShort, "S2"),
    Case::ShardedFaultPrints(ShardedFault::NoKey, "S3"),
    Case::ShardedFaultPrints(ShardedFault::Directory(ProofFault::OtherDigest), "S4 P5"),
    Case::ShardedFaultPrints(ShardedFault::NotListed, "S5"),
    Case::ShardedFaultPrints(ShardedFault::NoListing, "S6"),
    Case::ShardedFaultPrints(ShardedFault::KeyBelow, "S7"),
    Case::ShardedFaultPrints(ShardedFault::KeyNotBelow, "S8"),
    Case::ShardedFaultPrints(ShardedFault::Shard(ProofFault::CutShort), "S9 P2"),
];

#[test]
fn each_cause_prints_its_words_or_its_number(rt: HostRuntime) {
    ask(&rt, PRINTED);
}

/// The one fault of an audit that no directory of the tests has; those of the others are printed by
/// [`audits`](crate::sharding::audits).
#[test]
fn too_many_pairs_of_a_directory_print_their_number(rt: HostRuntime) {
    let is_its = prints(&rt, rt.alloc(), &AuditFault::TooMany, "A1");
    confirm(&rt, is_its, "A1");
}

#[test]
fn refused_memory_is_an_error_of_its_kind(rt: HostRuntime) {
    let error = io::Error::from(Memory::from(AllocError));
    confirm(
        &rt,
        error.kind() == io::ErrorKind::OutOfMemory,
        "out of memory",
    );
}
