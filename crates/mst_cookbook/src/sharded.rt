//! More keys than a store has rows for: a map of three shards, with one root digest.
use crate::sharing::{Change, edits_of, text, three_shards};
use anyhow::{Error, Result};
use mst_blocks::Writer;
use mst_key::{Format, Key};
use mst_sharded_proof::verify_sharded;
use mst_snapshots::{Reader, Snapshot};
use mst_store::Shape;
use std::alloc::Global;

/// Of each shard.
const SHAPE: Shape = Shape {
    rows: 100,
    passes: 2,
    format: Format::One,
};

/// Two prices, whose keys are in two shards.
const PRICES: &[Change] = &[("apple", Some("30")), ("plum", Some("12"))];

// Puts both as one block.
fn fill(alloc: Global, writer: Writer<Global>) -> Result<()> {
    let prices = edits_of(alloc, PRICES)?;
    let (_, made) = writer.apply(alloc, &prices);
    made?;
    Ok(())
}

// Prints what somebody finds who has the root digest of all shards, and a proof.
fn tell(rt: &HostRuntime, shards: usize, root: &[u8; 32], key: &Key, proof: &[u8]) -> Result<()> {
    let Ok(Some(value)) = verify_sharded(Format::One, root, key, proof) else {
        return Err(Error::msg("nothing is proved"));
    };
    let price = text(value.bytes());
    println!(rt; "{shards} shards; proved: the price of plum is {price}")?;
    Ok(())
}

// Proves an answer of a snapshot: root digest and proof must be of one.
fn prove(rt: &HostRuntime, snapshot: &mut Snapshot<Global>) -> Result<()> {
    let plum = Key::new(b"plum")?;
    let root = snapshot.root();
    let proof = snapshot.prove(rt.alloc(), &plum)?;
    tell(rt, snapshot.shards(), &root, &plum, &proof)
}

// Takes a snapshot of the last block, and proves an answer of it.
fn read(rt: &HostRuntime, reader: Reader<Global>) -> Result<()> {
    match reader.try_snapshot() {
        Ok(mut snapshot) => {
            let told = prove(rt, &mut snapshot);
            drop(snapshot.release());
            told
        }
        Err(_) => Err(Error::msg("a block is just being published")),
    }
}

pub fn run(rt: &HostRuntime) -> Result<()> {
    let (writer, reader) = three_shards(rt.alloc(), SHAPE)?;
    fill(rt.alloc(), writer)?;
    read(rt, reader)
}
