//! Calls that change nothing, each made many times.
ghost use Rattle.std.specs.Prelude.{◌<◌, length};

use super::changes::picked;
use mst_key::{Format, Key, Memory};
use mst_proof::verify_in;
use mst_store::{Pass, Pinned};
use std::alloc::Global;

/// How many proofs there are for the calls that verify.
const PROOFS: u32 = 64;

/// Gets `calls` keys of a version that stays pinned. Returns true if each has a value.
pub fn get_pinned(pinned: &mut Pinned<'_, Global>, keys: &[Key], calls: u32) -> bool
    requires some { 0 < length keys.now }
{
    for call in 0..calls {
        if pinned.get(picked(keys, call)).is_none() {
            return false;
        }
    }
    true
}

// Proofs of the answers for the keys of the first calls.
fn proofs(alloc: Global, pass: &mut Pass<'_, Global>, keys: &[Key]) -> Result<Vec<Vec<u8>>, Memory>
    requires some { 0 < length keys.now }
{
    let mut proofs = Vec::new(alloc);
    for call in 0..PROOFS {
        let proof = pass.prove(alloc, picked(keys, call))?;
        proofs.push(proof)?;
    }
    Ok(proofs)
}

// Verifies the proof for the key of a call. Returns true if it shows a value.
fn verify_one(format: Format, root: &[u8; 32], keys: &[Key], proofs: &[Vec<u8>], call: u32) -> bool
    requires some { 0 < length keys.now }
{
    let number = call % PROOFS;
    match proofs.get(number as usize) {
        Some(proof) => matches!(
            verify_in(format, root, picked(keys, number), proof),
            Ok(Some(_))
        ),
        None => false,
    }
}

// Verifies so many of these proofs, one after another. Returns true if each shows a value.
fn verify_all(format: Format, root: &[u8; 32], keys: &[Key], proofs: &[Vec<u8>], calls: u32) -> bool
    requires some { 0 < length keys.now }
{
    for call in 0..calls {
        if !verify_one(format, root, keys, proofs, call) {
            return false;
        }
    }
    true
}

/// Verifies `calls` proofs, which are made before. Returns true if each shows a value.
pub fn verify(alloc: Global, pass: &mut Pass<'_, Global>, keys: &[Key], calls: u32) -> bool
    requires some { 0 < length keys.now }
{
    let (format, root) = (pass.format(), pass.root());
    match proofs(alloc, pass, keys) {
        Ok(proofs) => verify_all(format, &root, keys, &proofs, calls),
        Err(_) => false,
    }
}
