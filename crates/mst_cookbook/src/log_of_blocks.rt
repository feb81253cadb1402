//! A log of blocks: changes of all shards as one version of the map, with its number and its root
//! digest, for a reader and for an auditor.
use crate::sharing::{Change, edits_of, text, three_shards};
use anyhow::{Error, Result};
use mst_blocks::{BlockFault, Writer};
use mst_key::{Format, Key};
use mst_sharded_proof::verify_sharded;
use mst_snapshots::{Reader, Snapshot};
use mst_store::Shape;
use std::alloc::Global;

/// Of each shard.
const SHAPE: Shape = Shape {
    rows: 100,
    passes: 2,
    format: Format::One,
};

/// What the log has of a block.
#[derive(Drop)]
struct Logged {
    number: u64,
    root: [u8; 32],
}

// What the log has of a block that was made, of so many edits.
fn entry_of(
    rt: &HostRuntime,
    made: Result<u64, BlockFault>,
    root: [u8; 32],
    edits: usize,
) -> Result<Logged> {
    let number = made?;
    println!(rt; "block {number} has {edits} edits")?;
    Ok(Logged { number, root })
}

// Makes a block, and logs it.
fn apply(
    rt: &HostRuntime,
    writer: Writer<Global>,
    changes: &[Change],
) -> (Writer<Global>, Result<Logged>) {
    match edits_of(rt.alloc(), changes) {
        Ok(edits) => {
            let (writer, made) = writer.apply(rt.alloc(), &edits);
            let logged = entry_of(rt, made, writer.root(), edits.len());
            (writer, logged)
        }
        Err(fault) => (writer, Err(fault)),
    }
}

/// The first block has changes of two shards.
const FIRST: &[Change] = &[("apple", Some("30")), ("plum", Some("12"))];

const SECOND: &[Change] = &[("apple", Some("35")), ("plum", None)];

// Makes both blocks. Returns what the log has of the last.
fn write(rt: &HostRuntime, writer: Writer<Global>) -> Result<Logged> {
    let (writer, logged) = apply(rt, writer, FIRST);
    match logged {
        Ok(_) => {
            let (_, logged) = apply(rt, writer, SECOND);
            logged
        }
        Err(fault) => Err(fault),
    }
}

// An auditor has the log's root digest alone, and a proof from a snapshot of that block.
fn audit(rt: &HostRuntime, logged: &Logged, snapshot: &mut Snapshot<Global>) -> Result<()> {
    let apple = Key::new(b"apple")?;
    let proof = snapshot.prove(rt.alloc(), &apple)?;
    let Ok(Some(value)) = verify_sharded(Format::One, &logged.root, &apple, &proof) else {
        return Err(Error::msg("nothing is proved"));
    };
    let (number, price) = (logged.number, text(value.bytes()));
    println!(rt; "proved of block {number}: the price of apple is {price}")?;
    Ok(())
}

// A reader finds which block it has, and that its map is the one that the log names.
fn compare(rt: &HostRuntime, logged: &Logged, snapshot: &mut Snapshot<Global>) -> Result<()> {
    if snapshot.number() != logged.number || snapshot.root() != logged.root {
        return Err(Error::msg("the log is of another map"));
    }
    println!(rt; "the reader has block {}", logged.number)?;
    audit(rt, logged, snapshot)
}

// Takes a snapshot of the last block, and compares it with the log.
fn read(rt: &HostRuntime, logged: &Logged, reader: Reader<Global>) -> Result<()> {
    match reader.try_snapshot() {
        Ok(mut snapshot) => {
            let told = compare(rt, logged, &mut snapshot);
            drop(snapshot.release());
            told
        }
        Err(_) => Err(Error::msg("a block is just being published")),
    }
}

pub fn run(rt: &HostRuntime) -> Result<()> {
    let (writer, reader) = three_shards(rt.alloc(), SHAPE)?;
    let logged = write(rt, writer)?;
    read(rt, &logged, reader)
}
