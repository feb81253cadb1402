//! What no clause says: worked examples, printed text, and that plain rows take no memory. In
//! `tests/store` each growth of a desk is refused, that of a store (`growths.c`), it goes on over a
//! full heap (`full_heap.c`), and all short scripts find the rows that are free (`at_rest.c`).
ghost use Rattle.std.specs.Prelude.{◌≡◌, ◌≤◌, IsSome, IsTrue, length, nat_lt};
ghost use Rattle.mst_arena.specs.Content.{listed, part_at};
ghost use Rattle.mst_arena.specs.Row.{keyed_links, entry_value};

use super::{entry_is, entry_of, head_is};
use crate::confirming::{confirm, confirm_at};
use crate::heaps::{heap_of, is_made};
use crate::pairs::key_of;
use linked_list_allocator::LocalHeap;
use mst_arena::{BareLinks, Desk, HeadLinks, PlainRows, Row, Rows, Sought, VersionsSpent, Way};
use mst_key::Format;
use mst_prefix::TextHasher;
use std::alloc::Global;
use std::process::Abort;

const HEAD: Row = Row::Head {
    layer: 64,
    count: 65_534,
    first: 65_535,
    tail: 0,
    digest: [0xd1; 32],
};

/// The links of that head.
const HEAD_LINKS: HeadLinks = HeadLinks {
    layer: 64,
    count: 65_534,
    first: 65_535,
    tail: 0,
};

/// Whether an entry and a head are read as they are written, part by part.
fn are_read(rt: &impl Abort, rows: &mut PlainRows<&LocalHeap>) -> bool
    requires two { length rows.old ≡ 2 }
{
    let row = entry_of(rt, 65_535, 0, &[0x6b; 32], &[0x76; 64]);
    rows.write(1, &HEAD);
    rows.write(0, &row);
    let entry = entry_is(rows, 0, (65_535, 0), &[0x6b; 32], &[0x76; 64]);
    head_is(rows, 1, &HEAD_LINKS, &[0xd1; 32]) && entry
}

/// Whether two plain rows in this heap are read as written; `None` if memory is refused for them.
fn rows_in(rt: &impl Abort, heap: &LocalHeap) -> Option<bool> {
    match PlainRows::new(heap, 2) {
        Ok(mut rows) => Some(are_read(rt, &mut rows)),
        Err(_) => None,
    }
}

/// In how many heaps, 16 bytes apart, plain rows are refused memory. In the next one, which has no
/// block left beside them, they are read as written.
fn refused_rows(rt: &impl Abort, alloc: Global) -> usize {
    for units in 1..64usize {
        let heap = heap_of(rt, alloc, units * 16);
        let found = rows_in(rt, &heap);
        if is_made(rt, &heap, found) {
            return units - 1;
        }
    }
    63
}

#[test]
fn plain_rows_are_read_as_written_in_the_least_heap(rt: HostRuntime) {
    let refused = refused_rows(&rt, rt.alloc());
    confirm_at(&rt, (1..63).contains(&refused), refused);
}

/// Whether an entry is copied to the row before it with other links alone.
fn is_copied(rows: &mut PlainRows<Global>) -> bool
    requires blank { IsTrue (nat_lt 0 (length rows.old)) }
    requires links { IsSome (part_at keyed_links (listed rows.old) 1) }
    requires value { IsSome (part_at entry_value (listed rows.old) 1) }
{
    let mut hasher = TextHasher::<Global>::alone();
    let links = BareLinks {
        child: 65_535,
        next: 0,
    };
    rows.copy_entry(1, 0, links, Format::One, None, &mut hasher);
    entry_is(rows, 0, (65_535, 0), &[0x6b; 32], &[0x76; 64])
        && entry_is(rows, 1, (7, 9), &[0x6b; 32], &[0x76; 64])
}

#[test]
fn copied_entry_has_other_links_alone(rt: HostRuntime) {
    let row = entry_of(&rt, 7, 9, &[0x6b; 32], &[0x76; 64]);
    let mut rows = PlainRows::new(rt.alloc(), 2).expect(&rt, "memory");
    rows.write(1, &row);
    confirm(&rt, is_copied(&mut rows), "the copy");
}

/// Rows that are read and written whole. Their parts are read by the default bodies.
#[derive(Drop)]
struct WholeRows {
    rows: PlainRows<Global>,
}

impl Rows for WholeRows {
    ghost use Rattle.std.specs.Prelude.{length, nat_lt};
    ghost use Rattle.mst_arena.specs.Content.{listed};

    ghost content = { λ whole. listed whole.rows };

    ghost blank = { λ whole row. nat_lt row (length whole.rows) };

    ghost kept = { λ _. tt };

    fn read(&mut self, row: u32) -> Row {
        self.rows.read(row)
    }

    fn write(&mut self, row: u32, value: &Row) {
        self.rows.write(row, value);
    }
}

#[test]
fn parts_by_default_are_those_of_the_row(rt: HostRuntime) {
    let row = entry_of(&rt, 7, 9, b"ab", b"xyz");
    let rows = PlainRows::new(rt.alloc(), 1).expect(&rt, "memory");
    let mut rows = WholeRows { rows };
    rows.write(0, &HEAD);
    let head = head_is(&mut rows, 0, &HEAD_LINKS, &[0xd1; 32]);
    rows.write(0, &row);
    let entry = entry_is(&mut rows, 0, (7, 9), b"ab", b"xyz");
    confirm(&rt, head && entry, "a head and an entry");
}

/// Whether this is the way from the entry at number 0 to a key.
fn way_is<R: Rows>(rt: &impl Abort, rows: &mut R, key: &[u8], wanted: Way) -> bool
    requires links { IsSome (part_at keyed_links (R.content rows.old) 0) }
    ensures same { rows.new ≡ rows.old }
{
    rows.way(0, &Sought::new(&key_of(rt, key))) == wanted
}

/// Whether the ways from the entry of the key `ab\0` at number 0 are by the order of keys. A key
/// that is a prefix of the entry's is below it, also if the bytes after it are 0.
fn ways_are<R: Rows>(rt: &impl Abort, rows: &mut R) -> bool
    requires links { IsSome (part_at keyed_links (R.content rows.old) 0) }
    ensures same { rows.new ≡ rows.old }
{
    let below = way_is(rt, rows, b"ab", Way::Child(7));
    let here = way_is(rt, rows, b"ab\0", Way::Here);
    let above = way_is(rt, rows, b"ab\0\0", Way::Next(9));
    below && here && above
}

#[test]
fn the_way_from_an_entry_is_by_the_order_of_keys(rt: HostRuntime) {
    let row = entry_of(&rt, 7, 9, b"ab\0", b"xyz");
    let rows = PlainRows::new(rt.alloc(), 1).expect(&rt, "memory");
    let mut rows = WholeRows { rows };
    rows.write(0, &row);
    let ways = ways_are(&rt, &mut rows) && ways_are(&rt, &mut rows.rows);
    confirm(&rt, ways, "the ways by default, and those of plain rows");
}

/// Whether the version that follows this one is as expected.
fn next_is(alloc: Global, first: u64, wanted: Result<u64, VersionsSpent>) -> bool
    requires limit { first ≤ 9223372036854775807 }
{
    match Desk::new(alloc, 4, 3, first) {
        Ok(desk) => desk.next_version() == wanted,
        Err(_) => false,
    }
}

#[test]
fn versions_at_the_limit(rt: HostRuntime) {
    let last = 9_223_372_036_854_775_807;
    let next = next_is(rt.alloc(), last, Err(VersionsSpent))
        && next_is(rt.alloc(), last - 1, Ok(last));
    confirm(&rt, next, "the last version");
}

/// The rows of a node of one entry, in place of the one whose head is in the row `replaced`.
fn node_of(desk: &mut Desk<Global>, replaced: Option<u32>) -> Option<(u32, u32)> {
    let head = desk.take_head(replaced, 2)?;
    Some((head, desk.take_near(head.wrapping_add(1))?))
}

// All rows are free again before the third node, row 0 among them. The fourth finds that home
// taken, but not the one before it, and the fifth finds none.
#[test]
fn a_node_goes_home(rt: HostRuntime) {
    let mut desk = Desk::new(rt.alloc(), 64, 2, 0).expect(&rt, "memory");
    let lowest = desk.take() == Some(0);
    let first = node_of(&mut desk, None) == Some((1, 2));
    let second = node_of(&mut desk, Some(1)) == Some((3, 4));
    confirm(&rt, lowest && first && second, "nodes side by side");
    desk.undo();
    confirm(&rt, node_of(&mut desk, Some(3)) == Some((1, 2)), "home");
    confirm(
        &rt,
        node_of(&mut desk, Some(3)) == Some((3, 4)),
        "an earlier home",
    );
    confirm(&rt, node_of(&mut desk, Some(3)) == Some((0, 5)), "no home");
}
