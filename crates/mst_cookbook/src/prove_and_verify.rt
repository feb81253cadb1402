//! Proves answers of one version, and checks them by the root digest alone.
use crate::sharing::{Recipe, key, put, text};
use anyhow::Result;
use mst_key::{Format, Key};
use mst_proof::verify_in;
use mst_store::{Pass, Pinned, Shape};
use std::alloc::Global;

pub const SHAPE: Shape = Shape {
    rows: 100,
    passes: 2,
    format: Format::Two,
};

// What somebody finds who has the root digest and its format from where he trusts it, and the proof
// from anybody.
fn check(rt: &HostRuntime, format: Format, root: &[u8; 32], key: &Key, proof: &[u8]) -> Result<()> {
    let printed = match verify_in(format, root, key, proof) {
        Ok(Some(value)) => println!(rt; "proved: the value is {}", text(value.bytes())),
        Ok(None) => println!(rt; "proved: there is no such key"),
        Err(_) => println!(rt; "nothing is proved"),
    };
    Ok(printed?)
}

// Makes the last byte of a proof another one.
fn change(proof: &mut [u8]) {
    if let Some(digit) = proof.last_mut() {
        *digit = b'1';
    }
}

// Proves an answer, and has it checked: format, root digest and proof are of one version. The proof
// may be changed on the way.
fn show_answer(
    rt: &HostRuntime,
    pinned: &mut Pinned<'_, Global>,
    fruit: &str,
    is_forged: bool,
) -> Result<()> {
    let key = key(fruit)?;
    let mut proof = pinned.prove(rt.alloc(), &key)?;
    if is_forged {
        change(&mut proof);
    }
    check(rt, pinned.format(), &pinned.root(), &key, &proof)
}

/// The recipe.
pub struct Proofs;

impl Recipe for Proofs {
    fn begin(_rt: &HostRuntime, writer: &mut Pass<'_, Global>) -> Result<()> {
        put(writer, "apple", "30")
    }

    // Has two answers of one version checked, and one whose proof was changed.
    fn look(
        rt: &HostRuntime,
        pinned: &mut Pinned<'_, Global>,
        _now: &mut Pinned<'_, Global>,
    ) -> Result<()> {
        show_answer(rt, pinned, "apple", false)?;
        show_answer(rt, pinned, "pear", false)?;
        show_answer(rt, pinned, "apple", true)
    }
}
