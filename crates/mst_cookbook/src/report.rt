//! A report of one version, while a writer goes on.
use crate::sharing::{Recipe, put_each, text};
use anyhow::Result;
use mst_key::{Format, Key, Value};
use mst_store::{Pass, Pinned, Shape};
use std::alloc::Global;

pub const SHAPE: Shape = Shape {
    rows: 100,
    passes: 2,
    format: Format::One,
};

// Prints an account.
fn tell(rt: &HostRuntime, key: &Key, value: &Value) -> Result<()> {
    let (name, amount) = (text(key.bytes()), text(value.bytes()));
    println!(rt; "  {name} {amount}")?;
    Ok(())
}

// Prints all accounts of a pinned version.
fn report_accounts(rt: &HostRuntime, pinned: &mut Pinned<'_, Global>) -> Result<()> {
    for (key, value) in pinned.range(rt.alloc(), None, None, 100)? {
        tell(rt, &key, &value)?;
    }
    Ok(())
}

// Prints a pinned version.
fn report(rt: &HostRuntime, pinned: &mut Pinned<'_, Global>) -> Result<()> {
    let version = pinned.version();
    println!(rt; "version {version}:")?;
    report_accounts(rt, pinned)
}

// Accounts with their amounts, before and after a payment.
const BEFORE: &[(&str, &str)] = &[("ann", "60"), ("bob", "40")];

const AFTER: &[(&str, &str)] = &[("ann", "10"), ("bob", "90")];

/// The recipe.
pub struct Accounts;

impl Recipe for Accounts {
    fn begin(_rt: &HostRuntime, writer: &mut Pass<'_, Global>) -> Result<()> {
        put_each(writer, BEFORE)
    }

    // Goes on writing while that version is pinned.
    fn go_on(_rt: &HostRuntime, writer: &mut Pass<'_, Global>) -> Result<()> {
        put_each(writer, AFTER)
    }

    // Reports on both versions.
    fn look(
        rt: &HostRuntime,
        before: &mut Pinned<'_, Global>,
        now: &mut Pinned<'_, Global>,
    ) -> Result<()> {
        report(rt, before)?;
        report(rt, now)
    }
}
