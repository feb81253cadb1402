//! Tests of rows and of trees in rows: the words of rows, plain rows, and what reads read. Changes
//! are transcripts (`tests/transcripts`), and so are reads of whole maps, also of those that a
//! migration planted; `tests/store/test_maps.py` has reads too.
ghost use Rattle.std.specs.Prelude.{◌≡◌, ◌≤◌, IsSome};
ghost use Rattle.mst_arena.specs.Content.{part_at};
ghost use Rattle.mst_arena.specs.Row.{IsRow, keyed_links, entry_value, head_digest, head_links};

mod counted;
mod counts;
mod plain;
pub mod standing;
mod words;

use crate::pairs::pair;
use mst_arena::{HeadLinks, Row, Rows};
use std::process::Abort;

/// The entry of these bytes with these links.
fn entry_of(rt: &impl Abort, child: u32, next: u32, key: &[u8], value: &[u8]) -> Row
    requires child { child ≤ 65535 }
    requires next { next ≤ 65535 }
    ensures limits { IsRow result }
    ensures links { IsSome (keyed_links result) }
    ensures value { IsSome (entry_value result) }
{
    let (key, value) = pair(rt, key, value);
    Row::Entry {
        child,
        next,
        key,
        value,
    }
}

/// Whether the entry at this number has these links, this key and this value.
fn entry_is<R: Rows>(rows: &mut R, row: u32, links: (u32, u32), key: &[u8], value: &[u8]) -> bool
    requires links { IsSome (part_at keyed_links (R.content rows.old) row) }
    requires value { IsSome (part_at entry_value (R.content rows.old) row) }
    ensures same { rows.new ≡ rows.old }
{
    let entry = rows.entry(row);
    let found = rows.value(row);
    (entry.child, entry.next) == links && entry.key.bytes() == key && found.bytes() == value
}

/// Whether the head at this number has these links and this digest.
fn head_is<R: Rows>(rows: &mut R, row: u32, links: &HeadLinks, digest: &[u8; 32]) -> bool
    requires links { IsSome (part_at head_links (R.content rows.old) row) }
    requires digest { IsSome (part_at head_digest (R.content rows.old) row) }
    ensures same { rows.new ≡ rows.old }
{
    rows.head(row) == *links && rows.digest(row) == *digest
}
