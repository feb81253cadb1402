//! Turns a store to format 2, while a reader pins the version before.
use crate::sharing::{Recipe, key, put_users};
use anyhow::Result;
use mst_key::{Format, Key};
use mst_store::{Pass, Pinned, Shape};
use std::alloc::Global;

const KEYS: u32 = 1_000;

/// The rows of both trees: for n random keys 17/16 n in format 1, and 5/4 n in format 2.
const BOTH_TREES: u32 = KEYS * 17 / 16 + KEYS * 5 / 4;

pub const SHAPE: Shape = Shape {
    rows: BOTH_TREES + 400,
    passes: 2,
    format: Format::One,
};

/// The value of each key: 32 zeros.
const ZEROES: &str = "\0\0\0\0\0\0\0\0\0\0\0\0\0\0\0\0\0\0\0\0\0\0\0\0\0\0\0\0\0\0\0\0";

// What a format is called.
fn name(format: Format) -> &'static str {
    match format {
        Format::One => "format 1",
        Format::Two => "format 2",
    }
}

// Prints the format of a version, and how long its proofs are.
fn tell(rt: &HostRuntime, whose: &str, pinned: &mut Pinned<'_, Global>, key: &Key) -> Result<()> {
    let bytes = pinned.prove(rt.alloc(), key)?.len();
    let format = name(pinned.format());
    println!(rt; "{whose}: {format}, a proof of {bytes} bytes")?;
    Ok(())
}

/// The recipe.
pub struct Migration;

impl Recipe for Migration {
    // Fills the map in format 1.
    fn begin(rt: &HostRuntime, writer: &mut Pass<'_, Global>) -> Result<()> {
        put_users(rt.alloc(), writer, 0..KEYS, ZEROES)
    }

    // Migrates it, while a reader has the version before pinned.
    fn go_on(rt: &HostRuntime, writer: &mut Pass<'_, Global>) -> Result<()> {
        writer.try_migrate(rt.alloc(), Format::Two)?;
        Ok(())
    }

    fn look(
        rt: &HostRuntime,
        before: &mut Pinned<'_, Global>,
        now: &mut Pinned<'_, Global>,
    ) -> Result<()> {
        let user = key("user 1")?;
        tell(rt, "the pinned version", before, &user)?;
        tell(rt, "the version now", now, &user)
    }
}
