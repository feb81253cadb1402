//! Rows in the memory of one thread.
ghost use Rattle.std.specs.Prelude.{◌≡◌, ◌≤◌, ◌<◌, None, IfOk, replicate};
ghost use Rattle.mst_arena.specs.Limits.{most_rows};

use crate::row::{HeadLinks, KeyedLinks, Row};
use crate::rows::Rows;
use crate::sought::{Sought, Way};
use mst_key::{Memory, Value};
use std::alloc::Allocator;
use std::marker::Model;

/// Rows in a vector. Each of them may be written at any time, and read once it was written.
#[derive(Drop)]
pub struct PlainRows<A: Allocator> {
    places: Vec<Option<Row>, A>,
}

/// Contracts see the list of the places, each with its row, which is within its limits, or with
/// `None`.
impl<A: Allocator> Model for PlainRows<A> {
    ghost use Rattle.std.specs.Prelude.{List, Option, All, IfSome};
    ghost use Rattle.mst_arena.specs.declared.row.Row.{Row};
    ghost use Rattle.mst_arena.specs.Row.{IsRow};

    ghost Value = { List (Option Row) };

    ghost view = { λ p. p.places.items };

    ghost invariant = { λ p. All (λ place. IfSome place IsRow) p.places.items };
}

impl<A: Allocator> PlainRows<A> {
    /// So many rows, none of them written.
    ///
    /// Returns `Memory` if a growth was refused.
    pub fn new(alloc: A, rows: u32) -> Result<PlainRows<A>, Memory>
        requires some { 0 < rows }
        requires few { rows ≤ most_rows }
        ensures ok { IfOk result (λ p. p ≡ replicate rows None) }
    {
        let mut places = Vec::with_capacity(alloc, rows as usize)?;
        for _ in 0..rows {
            places.push_reserved(None);
        }
        Ok(PlainRows { places })
    }
}

impl<A: Allocator> Rows for PlainRows<A> {
    ghost use Rattle.std.specs.Prelude.{length, nat_lt};
    ghost use Rattle.mst_arena.specs.Content.{listed};

    ghost content = { listed };

    ghost blank = { λ places row. nat_lt row (length places) };

    ghost kept = { λ _. tt };

    fn read(&mut self, row: u32) -> Row {
        match &self.places[row as usize] {
            Some(row) => row.copy(),
            None => unreachable!(),
        }
    }

    fn write(&mut self, row: u32, value: &Row) {
        self.places[row as usize] = Some(value.copy());
    }

    fn head(&mut self, row: u32) -> HeadLinks {
        match &self.places[row as usize] {
            Some(
                Row::Head {
                    layer,
                    count,
                    first,
                    tail,
                    ..
                },
            ) => HeadLinks {
                layer: *layer,
                count: *count,
                first: *first,
                tail: *tail,
            },
            _ => unreachable!(),
        }
    }

    fn digest(&mut self, row: u32) -> [u8; 32] {
        match &self.places[row as usize] {
            Some(Row::Head { digest, .. }) => *digest,
            _ => unreachable!(),
        }
    }

    fn entry(&mut self, row: u32) -> KeyedLinks {
        match &self.places[row as usize] {
            Some(
                Row::Entry {
                    child,
                    next,
                    key,
                    ..
                },
            ) => KeyedLinks {
                child: *child,
                next: *next,
                key: key.copy(),
            },
            _ => unreachable!(),
        }
    }

    fn way(&mut self, row: u32, key: &Sought) -> Way {
        match &self.places[row as usize] {
            Some(
                Row::Entry {
                    child,
                    next,
                    key: held,
                    ..
                },
            ) => key.way(*child, *next, held),
            _ => unreachable!(),
        }
    }

    fn value(&mut self, row: u32) -> Value {
        match &self.places[row as usize] {
            Some(Row::Entry { value, .. }) => value.copy(),
            _ => unreachable!(),
        }
    }
}
