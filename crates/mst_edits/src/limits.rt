//! The limits of edits, which follow from their types.
ghost use Rattle.std.specs.List.{AllByRecursion};
ghost use Rattle.mst_key.specs.History.{IsSmall};

use mst_key::Edit;

/// Says that the key of an edit is within the limits, and so is the value.
fn is_within_limits(edit: &Edit)
    ensures small { IsSmall edit.now }
{
    match edit {
        Edit::Put(key, value) => {
            let _key = key.bytes();
            let _value = value.bytes();
        }
        Edit::Remove(key) => {
            let _key = key.bytes();
        }
    }
}

/// Says that the keys of edits are within the limits, and so are the values, as all are by their
/// types.
pub fn are_within_limits(edits: &[Edit])
    ensures small { AllByRecursion IsSmall edits.now }
{
    for edit in edits {
        is_within_limits(edit);
    }
}
