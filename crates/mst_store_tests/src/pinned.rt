//! If a pinned pass is dropped, the rows of its version are held for good.
use crate::answers::{counts, leaves_free, puts};
use crate::confirming::confirm;
use crate::stores::{both_passes, opened};
use mst_store::{Format, Pass, Shape};
use std::alloc::Global;

/// A map of one key takes two rows.
const SIX_ROWS: Shape = Shape {
    rows: 6,
    passes: 2,
    format: Format::One,
};

// Puts a with 1, and pins this version for good.
fn drops_its_pin(pass: Pass<'_, Global>) -> bool {
    let mut pass = pass;
    let put = puts(&mut pass, b"a", b"1", None);
    let _dropped = pass.pin();
    put
}

// Whether the other pass goes on in the rows that the dropped one does not hold.
fn goes_on(pass: &mut Pass<Global>) -> bool {
    puts(pass, b"a", b"2", Some(b"1"))
        && puts(pass, b"a", b"3", Some(b"2"))
        && counts(pass, None)
        && leaves_free(pass, 2)
}

#[test]
fn a_pinned_pass_that_is_dropped_holds_its_rows(rt: HostRuntime) {
    let (store, seats) = opened(&rt, SIX_ROWS);
    let (first, mut second) = both_passes(&rt, &store, seats);
    let right = drops_its_pin(first) && goes_on(&mut second);
    confirm(&rt, right, "the rows are held");
}
