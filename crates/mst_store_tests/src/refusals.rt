//! The text of each refusal, of a store and of a sharded map.
use crate::confirming::confirm;
use mst_blocks::{BlockFault, PartFault};
use mst_shards::ShardsFault;
use mst_store::{
    ApplyFault, BatchFault, Busy, ChangeFault, Memory, MigrateFault, OpenFault, WriteFault,
};
use std::alloc::{AllocError, Global};
use std::fmt::Display;
use std::process::Abort;

/// A refusal of one of the calls.
enum Refusal {
    Open(OpenFault),
    Write(WriteFault),
    Change(ChangeFault),
    Migrate(MigrateFault),
    Apply(ApplyFault),
    Batch(BatchFault),
    Count(Busy),
    Block(BlockFault),
    Shards(ShardsFault),
}

/// Whether a refusal prints this text.
fn says<T: Display>(rt: &impl Abort, alloc: Global, fault: &T, text: &str) -> bool {
    let printed = format!(in alloc; "{fault}").expect(rt, "memory");
    printed.as_str() == text
}

/// The same of a refusal of any call.
fn any_says(rt: &impl Abort, alloc: Global, refusal: &Refusal, text: &str) -> bool {
    match refusal {
        Refusal::Open(fault) => says(rt, alloc, fault, text),
        Refusal::Write(fault) => says(rt, alloc, fault, text),
        Refusal::Change(fault) => says(rt, alloc, fault, text),
        Refusal::Migrate(fault) => says(rt, alloc, fault, text),
        Refusal::Apply(fault) => says(rt, alloc, fault, text),
        Refusal::Batch(fault) => says(rt, alloc, fault, text),
        Refusal::Count(busy) => says(rt, alloc, busy, text),
        Refusal::Block(fault) => says(rt, alloc, fault, text),
        Refusal::Shards(fault) => says(rt, alloc, fault, text),
    }
}

/// Whether each refusal for want of memory says so.
fn memory_says(rt: &impl Abort, alloc: Global, refused: Memory) -> bool {
    const TEXT: &str = "no memory";
    says(rt, alloc, &OpenFault::Memory(refused), TEXT)
        && says(rt, alloc, &MigrateFault::Memory(refused), TEXT)
        && says(rt, alloc, &ApplyFault::Memory(refused), TEXT)
        && says(rt, alloc, &BatchFault::Memory(refused), TEXT)
        && says(rt, alloc, &BlockFault::Memory(refused), TEXT)
        && says(rt, alloc, &ShardsFault::Memory(refused), TEXT)
}

const SHAPE: &str = "a store has 4 to 65535 rows and 1 to 32 passes";

const BUSY: &str = "another pass has the turn";

const SPENT: &str = "version numbers are spent";

const NO_ROOM: &str = "no room";

const TEXTS: &[(Refusal, &str)] = &[
    (Refusal::Open(OpenFault::Shape), SHAPE),
    (Refusal::Write(WriteFault::Busy), BUSY),
    (Refusal::Write(WriteFault::VersionsSpent), SPENT),
    (Refusal::Write(WriteFault::NoRoom), NO_ROOM),
    (Refusal::Change(ChangeFault::VersionsSpent), SPENT),
    (Refusal::Change(ChangeFault::NoRoom), NO_ROOM),
    (Refusal::Migrate(MigrateFault::Busy), BUSY),
    (Refusal::Migrate(MigrateFault::VersionsSpent), SPENT),
    (Refusal::Migrate(MigrateFault::NoRoom), NO_ROOM),
    (Refusal::Apply(ApplyFault::Busy), BUSY),
    (Refusal::Apply(ApplyFault::VersionsSpent), SPENT),
    (Refusal::Apply(ApplyFault::NoRoom), NO_ROOM),
    (Refusal::Batch(BatchFault::VersionsSpent), SPENT),
    (Refusal::Batch(BatchFault::NoRoom), NO_ROOM),
    (Refusal::Count(Busy), BUSY),
    (
        Refusal::Block(BlockFault::Shard(7, PartFault::Refused(ApplyFault::NoRoom))),
        "shard 7: no room",
    ),
    (
        Refusal::Block(BlockFault::Shard(0, PartFault::Overtaken)),
        "shard 0: another has written",
    ),
    (
        Refusal::Block(BlockFault::Directory(PartFault::Refused(ApplyFault::VersionsSpent))),
        "directory: version numbers are spent",
    ),
    (
        Refusal::Shards(ShardsFault::Splits),
        "splits rise strictly, from above the least key, and are at most 1023",
    ),
    (
        Refusal::Shards(ShardsFault::Shape),
        "a shard has 4 to 65535 rows and 1 to 32 passes",
    ),
];

#[test]
fn each_refusal_has_its_text(rt: HostRuntime) {
    for (refusal, text) in TEXTS {
        confirm(&rt, any_says(&rt, rt.alloc(), refusal, text), text);
    }
    let memory = memory_says(&rt, rt.alloc(), Memory::from(AllocError));
    confirm(&rt, memory, "no memory");
}
