//! Plain rows that count what is read of them, and which entries of a node do not lie side by side.
ghost use Rattle.std.specs.Prelude.{◌≡◌, ◌≤◌, ◌<◌, None, IfOk, replicate};

use mst_arena::{BareLinks, HeadLinks, KeyedLinks, PlainRows, Row, Rows};
use mst_key::{Key, Memory, Value};
use std::alloc::{Allocator, Global};
use std::marker::Model;

/// How many parts of rows were read: heads, entries by their links, with their keys or without,
/// values by themselves or with their keys, and digests or whole rows.
#[derive(Clone, Copy)]
pub struct Reads {
    pub heads: u32,
    pub entries: u32,
    pub values: u32,
    pub others: u32,
}

impl Reads {
    const NONE: Reads = Reads {
        heads: 0,
        entries: 0,
        values: 0,
        others: 0,
    };
}

/// Plain rows, and what was read of them.
#[derive(Drop)]
pub struct CountedRows<A: Allocator = Global> {
    rows: PlainRows<A>,
    reads: Reads,
    /// How many entries were written whose next one is not in the next row.
    apart: u32,
}

/// Whether this is an entry whose next one is not in the row behind it.
fn is_apart(row: u32, written: &Row) -> bool {
    match written {
        Row::Entry { next, .. } => *next != 0 && *next != row.wrapping_add(2),
        Row::Head { .. } => false,
    }
}

/// Contracts see only the rows.
impl<A: Allocator> Model for CountedRows<A> {
    ghost use Rattle.std.specs.Prelude.{List, Option};
    ghost use Rattle.mst_arena.specs.declared.row.Row.{Row};

    ghost Value = { List (Option Row) };

    ghost view = { λ c. c.rows };
}

impl<A: Allocator> CountedRows<A> {
    /// This many rows, none of them written, from which nothing was read.
    pub fn new(alloc: A, rows: u32) -> Result<CountedRows<A>, Memory>
        requires some { 0 < rows }
        requires few { rows ≤ 65535 }
        ensures ok { IfOk result (λ c. c ≡ replicate rows None) }
    {
        let rows = PlainRows::new(alloc, rows)?;
        Ok(CountedRows {
            rows,
            reads: Reads::NONE,
            apart: 0,
        })
    }

    /// What was read since the counts began.
    pub fn reads(&self) -> Reads {
        self.reads
    }

    /// How many entries were written whose next one is not in the next row.
    pub fn apart(&self) -> u32 {
        self.apart
    }

    /// Sets the counts of what was read to 0.
    pub fn forget_reads(&mut self)
        ensures same { self.new ≡ self.old }
    {
        self.reads = Reads::NONE;
    }
}

impl<A: Allocator> Rows for CountedRows<A> {
    ghost use Rattle.std.specs.Prelude.{length, nat_lt};
    ghost use Rattle.mst_arena.specs.Content.{listed};

    ghost content = { listed };

    ghost blank = { λ places row. nat_lt row (length places) };

    ghost kept = { λ _. tt };

    fn read(&mut self, row: u32) -> Row {
        self.reads.others = self.reads.others.saturating_add(1);
        self.rows.read(row)
    }

    fn write(&mut self, row: u32, value: &Row) {
        self.apart = self.apart.saturating_add(u32::from(is_apart(row, value)));
        self.rows.write(row, value);
    }

    fn head(&mut self, row: u32) -> HeadLinks {
        self.reads.heads = self.reads.heads.saturating_add(1);
        self.rows.head(row)
    }

    fn digest(&mut self, row: u32) -> [u8; 32] {
        self.reads.others = self.reads.others.saturating_add(1);
        self.rows.digest(row)
    }

    fn entry(&mut self, row: u32) -> KeyedLinks {
        self.reads.entries = self.reads.entries.saturating_add(1);
        self.rows.entry(row)
    }

    fn links(&mut self, row: u32) -> BareLinks {
        self.reads.entries = self.reads.entries.saturating_add(1);
        self.rows.links(row)
    }

    fn pair(&mut self, row: u32) -> (Key, Value) {
        self.reads.values = self.reads.values.saturating_add(1);
        self.rows.pair(row)
    }

    fn value(&mut self, row: u32) -> Value {
        self.reads.values = self.reads.values.saturating_add(1);
        self.rows.value(row)
    }
}
