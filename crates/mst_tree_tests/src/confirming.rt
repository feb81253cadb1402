//! What ends a test. An assertion with a message, or in a loop, costs its function's proof much, so
//! there are only these two.
ghost use Rattle.std.specs.Prelude.{◌≤◌, length};

use mst_key::{Key, Value};
use std::process::Abort;

/// Ends the test with this text if something is not as it should be.
pub fn confirm(rt: &impl Abort, right: bool, what: &str) {
    assert!(rt; right, "{what}");
}

/// Ends the test with the number of the case if something is not as it should be.
pub fn confirm_at(rt: &impl Abort, right: bool, case: usize) {
    assert!(rt; right, "case {case}");
}

/// Ends the test if there are more pairs than a tree has.
pub fn few(rt: &impl Abort, pairs: &[(Key, Value)])
    ensures few { length pairs.now ≤ 65535 }
{
    assert!(rt; pairs.len() <= 65_535);
}
