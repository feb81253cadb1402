//! A set of rows as a line has it: `-`, or numbers of rows in strictly ascending order, separated
//! by commas.

ghost use Rattle.std.specs.Prelude.{◌≡◌, ◌≢◌, ◌∷◌, ◌++◌, ◌^◌, ◌<◌, ℕ, List, Some, IfSome, IfNone, decimal};
ghost use Rattle.mst_replay.specs.Line.{rows_text};
ghost use Rattle.mst_replay.specs.Rest.{rest_text, IsRest};

use itoa::Buffer;

/// The set that the bytes name, row x as bit x.
pub fn row_set(field: &[u8]) -> Option<u64>
    ensures some { IfSome result (λ rows. field.now ≡ rows_text rows) }
    ensures only { (rows : ℕ) → rows < 2 ^ 64 → field.now ≡ rows_text rows
        → result ≡ Some rows }
{
    if field == b"-".as_slice() {
        return Some(0);
    }
    let mut rows = 0;
    // What follows the last row that was read, from its comma on: at first the whole list.
    let mut rest = Some(field);
    for row in 0..64u8 {
        if let Some(after) = after_row(rest, row) {
            rows |= 1 << row;
            rest = after;
        }
    }
    match rest {
        Some(_) => None,
        None => Some(rows),
    }
}

/// Where the list goes on with the row: what follows it, a comma and more or nothing.
fn after_row(rest: Option<&[u8]>, row: u8) -> Option<Option<&[u8]>>
    ensures some { IfSome result (λ after.
        rest_text rest.entry ≡ 44 ∷ (decimal row ++ rest_text after)) }
    ensures none { IfNone result ((after : List ℕ) → IsRest after
        → rest_text rest.entry ≢ 44 ∷ (decimal row ++ after)) }
{
    let mut buffer = Buffer::new();
    match rest?.strip_prefix(buffer.format(row).as_bytes())? {
        [] => Some(None),
        [b',', more @ ..] => Some(Some(more)),
        _ => None,
    }
}
