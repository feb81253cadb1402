//! A sharded map, and its opening.
ghost use Rattle.std.specs.Prelude.{◌≡◌, ◌↔◌, ◌≤◌, ◌+◌, length, IfOk, OnOk, IsErrOf};
ghost use Rattle.mst_store.specs.Passes.{IsShape};
ghost use Rattle.mst_shards.specs.Sharding.{IsSplits};
ghost use Rattle.mst_shards.specs.Opening.{directory_rows as rows_of_directory, directory_shape as shape_of_directory, HasShards, seats_of};

use crate::faults::ShardsFault;
use crate::opening::{are_splits, open_all};
use mst_key::{Format, Key, Memory};
use mst_store::{MOST_ROWS, OpenFault, Seats, Shape, Store, is_shape};
use std::alloc::Allocator;
use std::marker::Model;

/// Rows of a shard in a version of the directory: its entry, and at most one node for each.
const ROWS_OF_SHARD: u32 = 2;

/// Rows of a directory's store that are left over.
const SPARE_ROWS: u32 = 64;

/// A sharded map: its splits, the store of each shard, and that of the directory. Its writer and
/// its readers each have a share of it.
#[derive(Drop)]
pub struct Sharded<A: Allocator + Copy> {
    splits: Vec<Key, A>,
    shape: Shape,
    pub(crate) stores: Vec<Store<A>, A>,
    pub(crate) directory: Store<A>,
}

/// Contracts see the splits, and which stores they are.
impl<A: Allocator + Copy> Model for Sharded<A> {
    ghost use Rattle.mst_store.specs.Passes.{IsShape};
    ghost use Rattle.mst_shards.specs.Sharding.{IsSplits};
    ghost use Rattle.mst_shards.specs.Opening.{Shards, HasShards};

    ghost Value = { Shards };

    ghost view = { λ s. record {
      splits = s.splits.items;
      stores = s.stores.items;
      directory = s.directory;
    } };

    ghost invariant = { λ s. IsSplits s.splits.items × HasShards s.splits.items s.shape (record {
      splits = s.splits.items;
      stores = s.stores.items;
      directory = s.directory;
    }) × IsShape s.shape };
}

/// The right to deal the passes of one sharded map, once.
#[derive(Drop)]
pub struct AllSeats<A: Allocator + Copy> {
    pub(crate) stores: Vec<Seats<A>, A>,
    pub(crate) directory: Seats<A>,
}

/// Contracts see which stores they are of.
impl<A: Allocator + Copy> Model for AllSeats<A> {
    ghost use Rattle.mst_shards.specs.Opening.{Seating};

    ghost Value = { Seating };

    ghost view = { λ s. record { stores = s.stores.items; directory = s.directory } };
}

// How many rows the store of a directory of this many shards has.
fn directory_rows(shards: usize, passes: u32) -> u32
    requires shards { shards ≤ 1024 }
    requires passes { passes ≤ 32 }
    ensures rows { result ≡ rows_of_directory shards passes }
{
    let rows = ROWS_OF_SHARD * (passes + 2) * shards as u32 + SPARE_ROWS;
    if rows <= MOST_ROWS { rows } else { MOST_ROWS }
}

// The shape of the store of a directory of this many shards, which have a shape.
fn directory_shape(shards: usize, shape: Shape) -> Shape
    requires few { shards ≤ 1024 }
    requires shape { IsShape shape }
    ensures shape { result ≡ shape_of_directory shards shape }
    ensures is { IsShape result }
{
    Shape {
        rows: directory_rows(shards, shape.passes),
        passes: shape.passes,
        format: shape.format,
    }
}

// Opens the stores of a sharded map.
fn open_stores<A: Allocator + Copy>(
    alloc: A,
    splits: Vec<Key, A>,
    shape: Shape,
) -> Result<(Sharded<A>, AllSeats<A>), Memory>
    requires splits { IsSplits splits.items }
    requires shape { IsShape shape }
    ensures shards { IfOk result (λ opened. HasShards splits.items shape opened.0) }
    ensures seats { IfOk result (λ opened. opened.1 ≡ seats_of opened.0) }
{
    let shards = splits.len() + 1;
    let (stores, seats) = open_all(alloc, shards, shape)?;
    match Store::open(alloc, directory_shape(shards, shape)) {
        Ok((directory, its_seats)) => Ok((
            Sharded {
                splits,
                shape,
                stores,
                directory,
            },
            AllSeats {
                stores: seats,
                directory: its_seats,
            },
        )),
        Err(OpenFault::Shape) => unreachable!(),
        Err(OpenFault::Memory(refused)) => Err(refused),
    }
}

impl<A: Allocator + Copy> Sharded<A> {
    /// Opens a sharded map with these splits, each shard of this shape, and the store of its
    /// directory. The shape's passes are those of its writer and its readers together. Returns it
    /// with the right to deal them. All memory of the stores is taken here.
    ///
    /// Returns `Splits` exactly if the splits do not rise strictly from above the key of one zero
    /// byte, or are more than 1,023; otherwise `Shape` exactly if a shard would have fewer than 4
    /// or more than 65,535 rows, or fewer than 1 or more than 32 passes; otherwise `Memory` if a
    /// growth was refused.
    pub fn open(
        alloc: A,
        splits: Vec<Key, A>,
        shape: Shape,
    ) -> Result<(Sharded<A>, AllSeats<A>), ShardsFault>
        ensures splits { IsErrOf result ShardsFault.Splits ↔ ¬ (IsSplits splits.items) }
        ensures shape { IsErrOf result ShardsFault.Shape
            ↔ (IsSplits splits.items × ¬ (IsShape shape)) }
        ensures limits { OnOk result (IsSplits splits.items × IsShape shape) }
        ensures shards { IfOk result (λ opened. HasShards splits.items shape opened.0) }
        ensures seats { IfOk result (λ opened. opened.1 ≡ seats_of opened.0) }
    {
        if !are_splits(splits.as_slice()) {
            return Err(ShardsFault::Splits);
        }
        if !is_shape(shape) {
            return Err(ShardsFault::Shape);
        }
        match open_stores(alloc, splits, shape) {
            Ok(opened) => Ok(opened),
            Err(refused) => Err(ShardsFault::Memory(refused)),
        }
    }

    /// The splits, from the first on.
    pub fn splits(&self) -> &[Key]
        ensures splits { result.now ≡ self.now.splits }
        ensures is { IsSplits result.now }
        ensures count { length self.now.stores ≡ length self.now.splits + 1 }
    {
        self.splits.as_slice()
    }

    /// The stores of the shards, in the order of their keys.
    pub fn stores(&self) -> &[Store<A>]
        ensures stores { result.now ≡ self.now.stores }
    {
        self.stores.as_slice()
    }

    /// How many shards there are.
    pub fn shards(&self) -> usize
        ensures splits { result ≡ length self.now.splits + 1 }
        ensures stores { result ≡ length self.now.stores }
        ensures is { IsSplits self.now.splits }
    {
        self.stores.len()
    }

    /// The format of the map before its first block.
    pub fn format(&self) -> Format
        ensures format { result ≡ self.now.directory.format }
    {
        self.shape.format
    }

    /// The store of the directory.
    pub fn directory(&self) -> &Store<A>
        ensures store { result.now ≡ self.now.directory }
    {
        &self.directory
    }
}
