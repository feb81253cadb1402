//! A batch that is published while its pass still has the turn.
use crate::answers::{gets, puts};
use crate::confirming::confirm;
use crate::stores::{SMALL, both_passes, opened};
use mst_key::{Edit, Key, Value};
use mst_store::{Busy, Pass};
use std::alloc::Global;

// An edit that puts a with 1.
fn first_put() -> Option<Edit> {
    let key = Key::new(b"a").ok()?;
    let value = Value::new(b"1").ok()?;
    Some(Edit::Put(key, value))
}

// Whether another pass finds the batch once it is revealed, and gets the turn once it is closed.
fn is_read_in_its_turn(
    alloc: Global,
    pass: Pass<'_, Global>,
    other: &mut Pass<Global>,
    edits: Vec<Edit>,
) -> bool {
    let Ok(prepared) = pass.prepare(alloc, edits) else {
        return false;
    };
    let hidden = gets(other, b"a", None);
    let revealed = prepared.reveal();
    let shown = gets(other, b"a", Some(b"1")) && other.free_rows() == Err(Busy);
    let _closed = revealed.close();
    hidden && shown && puts(other, b"a", b"2", Some(b"1"))
}

#[test]
fn a_revealed_batch_is_read_before_its_turn_ends(rt: HostRuntime) {
    let (store, seats) = opened(&rt, SMALL);
    let (first, mut second) = both_passes(&rt, &store, seats);
    let put = first_put().expect(&rt, "an edit");
    let edits = vec![in rt.alloc(); put].expect(&rt, "memory");
    let right = is_read_in_its_turn(rt.alloc(), first, &mut second, edits);
    confirm(&rt, right, "it is read, and then the turn is free");
}
