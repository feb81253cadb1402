//! A map that is planted in plain rows, and is read.
ghost use Rattle.std.specs.Prelude.{◌≤◌, ◌<◌, List, option_copied};
ghost use Rattle.mst_key.specs.Map.{Pair, IsMap};
ghost use Rattle.mst_path.specs.Planting.{tree_at, IsTreeOf};

use super::counted::{CountedRows, Reads};
use crate::confirming::few;
use mst_arena::{Desk, Root};
use mst_key::{Format, Key, Memory, Value};
use mst_node::{Node, build_in, is_map};
use mst_path::plant;
use std::alloc::{Allocator, Global};
use std::marker::Model;
use std::process::Abort;

/// A map in rows, and its format.
#[derive(Drop)]
pub struct StandingMap {
    rows: CountedRows<Global>,
    root: Root,
    format: Format,
}

/// Contracts see all of it but the counts.
impl Model for StandingMap {
    ghost use Rattle.std.specs.Prelude.{List, Option};
    ghost use Rattle.mst_arena.specs.Content.{listed};
    ghost use Rattle.mst_arena.specs.Standing.{Stands};
    ghost use Rattle.mst_arena.specs.declared.row.Root.{Root};
    ghost use Rattle.mst_arena.specs.declared.row.Row.{Row};
    ghost use Rattle.mst_key.specs.Map.{Pair};
    ghost use Rattle.mst_key.specs.declared.format.Format.{Format};
    ghost use Rattle.mst_read.specs.Search.{MapStands};

    ghost Value = { List (Option Row) × Root × Format };

    ghost view = { λ p. (p.rows, p.root, p.format) };

    ghost invariant = { λ p. ((m : List Pair) × Stands p.format (listed p.rows) p.root m)
        × MapStands (listed p.rows) p.root };
}

impl StandingMap {
    /// The map of a tree, planted in this many new rows.
    fn planted(
        rt: &impl Abort,
        alloc: Global,
        format: Format,
        tree: Option<&Node<Global>>,
        size: u32,
    ) -> StandingMap
        requires tree { (m : List Pair) × IsMap m
            × IsTreeOf format (tree_at format (option_copied tree)) m }
        requires some { 0 < size }
        requires few { size ≤ 65535 }
    {
        let Ok(mut rows) = CountedRows::new(alloc, size) else {
            panic!(rt; "no memory")
        };
        let Ok(mut desk) = Desk::new(alloc, size, 2, 0) else {
            panic!(rt; "no memory")
        };
        let Ok(root) = plant(&mut rows, &mut desk, tree, format) else {
            panic!(rt; "no room")
        };
        StandingMap { rows, root, format }
    }

    /// The map of these pairs, planted in rows enough.
    pub fn new(
        rt: &impl Abort,
        alloc: Global,
        format: Format,
        pairs: &[(Key, Value)],
    ) -> StandingMap {
        assert!(rt; is_map(pairs));
        few(rt, pairs);
        let tree = build_in(alloc, format, pairs).expect(rt, "memory");
        let size = if pairs.len() < 4_000 { 8_000 } else { 65_535 };
        StandingMap::planted(rt, alloc, format, tree.as_deref(), size)
    }

    /// How many entries were written whose next one is not in the next row.
    pub fn apart(&self) -> u32 {
        self.rows.apart()
    }

    /// What was read of the rows since the counts began.
    pub fn reads(&self) -> Reads {
        self.rows.reads()
    }

    /// Sets the counts of what was read to 0.
    pub fn forget_reads(&mut self) {
        self.rows.forget_reads();
    }

    /// The value of a key.
    pub fn get(&mut self, key: &Key) -> Option<Value> {
        mst_read::get(&mut self.rows, &self.root, key)
    }

    /// The pair of the next key.
    pub fn next(&mut self, after: Option<&Key>) -> Option<(Key, Value)> {
        mst_read::next(&mut self.rows, &self.root, after)
    }

    /// The pairs between two bounds, at most this many.
    pub fn range<B: Allocator>(
        &mut self,
        alloc: B,
        from: Option<&Key>,
        to: Option<&Key>,
        limit: usize,
    ) -> Result<Vec<(Key, Value), B>, Memory> {
        mst_read::range(alloc, &mut self.rows, &self.root, from, to, limit)
    }

    /// How many pairs there are.
    pub fn len(&mut self) -> u64 {
        mst_read::len(&mut self.rows, &self.root)
    }

    /// The root digest.
    pub fn root(&mut self) -> [u8; 32] {
        mst_read::root(&mut self.rows, &self.root)
    }

    /// The proof for a key.
    pub fn prove(&mut self, alloc: Global, key: &Key) -> Result<Vec<u8>, Memory> {
        mst_read::prove(alloc, &mut self.rows, &self.root, key, self.format)
    }
}
