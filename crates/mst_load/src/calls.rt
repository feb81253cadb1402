//! The calls of the writers, and the map that they leave.
ghost use Rattle.std.specs.Prelude.{◌≡◌, ◌<◌, ◌≤◌, ◌+◌, ◌++◌, vec_len, IfOk, OnOk};
ghost use Rattle.mst_load.specs.Calls.{key_of, value_of, last, pair_left, round_left, map_left};

use mst_key::{Key, Memory, Value};
use std::alloc::Allocator;

/// How many keys a writer goes round.
const KEYS: u32 = 32;

/// The key of a call of a writer: two bytes, the writer's number and the call's by 32.
pub(crate) fn key(writer: u32, call: u32) -> Key
    requires { writer < 256 }
    ensures { result ≡ key_of writer call }
{
    let Ok(key) = Key::new(&[writer as u8, (call % KEYS) as u8]) else {
        unreachable!()
    };
    key
}

/// The value of a call: its number in four bytes, the highest first.
pub(crate) fn value(call: u32) -> Value
    ensures { result ≡ value_of call }
{
    let Ok(value) = Value::new(&call.to_be_bytes()) else {
        unreachable!()
    };
    value
}

// The last of this many calls that has this place in the round, if there is one.
#[tactic(auto, using(crate::proofs::Left::last_some, crate::proofs::Left::last_none))]
fn last_call(place: u32, calls: u32) -> Option<u32>
    requires { place < 32 }
    ensures { result ≡ last place calls }
{
    // how many calls of other places came after it
    let after = (calls % KEYS + KEYS - place) % KEYS;
    if after < calls {
        Some(calls - after)
    } else {
        None
    }
}

// Appends the pair that a call of the writer leaves, if there is one.
fn append_pair<A: Allocator>(
    pairs: &mut Vec<(Key, Value), A>,
    writer: u32,
    call: Option<u32>,
) -> Result<(), Memory>
    requires { writer < 256 }
    ensures pair { OnOk result (pairs.new.items ≡ pairs.old.items ++ pair_left writer call) }
    ensures few { OnOk result (vec_len pairs.new ≤ vec_len pairs.old + 1) }
{
    let Some(call) = call else {
        return Ok(());
    };
    pairs.push((key(writer, call), value(call)))?;
    Ok(())
}

// Appends the pairs that this many calls of the writer leave.
#[tactic(auto, using(crate::proofs::Left::none_yet, crate::proofs::Left::one_more))]
fn append<A: Allocator>(
    pairs: &mut Vec<(Key, Value), A>,
    writer: u32,
    calls: u32,
) -> Result<(), Memory>
    requires { writer < 256 }
    ensures pairs { OnOk result (pairs.new.items ≡ pairs.old.items ++ round_left writer calls 32) }
    ensures few { OnOk result (vec_len pairs.new ≤ vec_len pairs.old + 32) }
{
    for place in 0..KEYS {
        append_pair(pairs, writer, last_call(place, calls))?;
    }
    Ok(())
}

/// The map that this many calls of this many writers leave, in the order of its keys.
#[tactic(auto, using(crate::proofs::Left::all_writers))]
pub(crate) fn left_by<A: Allocator>(
    alloc: A,
    writers: u32,
    calls: u32,
) -> Result<Vec<(Key, Value), A>, Memory>
    requires { writers ≤ 8 }
    ensures map { IfOk result (λ pairs. pairs.items ≡ map_left writers calls) }
    ensures few { IfOk result (λ pairs. vec_len pairs ≤ 256) }
{
    let mut pairs = Vec::new(alloc);
    for index in 0..writers {
        append(&mut pairs, index + 1, calls)?;
    }
    Ok(pairs)
}
