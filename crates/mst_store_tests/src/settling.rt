//! Two passes that met get what both put. Transcripts (`tests/transcripts`) have passes that
//! settle, as they do before and after each line of a script.
ghost use Rattle.std.specs.Prelude.{◌≡◌};
ghost use Rattle.mst_store.specs.Passes.{IsSamePass};

use crate::answers::gets;
use crate::confirming::confirm;
use crate::stores::{SMALL, dealt, opened};
use mst_key::{Key, Value};
use mst_store::{Pass, meet};
use std::alloc::Global;

// Whether a put of a new key goes through.
fn adds(pass: &mut Pass<Global>, key: &[u8], value: &[u8]) -> bool
    ensures same { IsSamePass pass.old pass.new }
{
    match (Key::new(key), Value::new(value)) {
        (Ok(key), Ok(value)) => matches!(pass.try_put(&key, &value), Ok(None)),
        _ => false,
    }
}

// Whether two passes that each put a key, and then meet, get what both put, and count it.
fn both_get_both<'a>(one: &mut Pass<'a, Global>, other: &mut Pass<'a, Global>) -> bool
    requires of_one { one.old.store ≡ other.old.store }
{
    let put = adds(one, b"a", b"x") && adds(other, b"b", b"x");
    meet(one, other);
    put && gets(one, b"b", Some(b"x"))
        && gets(other, b"a", Some(b"x"))
        && one.len() == 2
        && other.len() == 2
}

#[test]
fn passes_that_met_get_what_both_put(rt: HostRuntime) {
    let (store, seats) = opened(&rt, SMALL);
    let mut passes = dealt(&rt, &store, seats);
    assert!(rt; passes.len() == 2);
    let (front, back) = passes.split_at_mut(1);
    confirm(
        &rt,
        both_get_both(&mut front[0], &mut back[0]),
        "both pairs",
    );
}
