//! A writer taken apart, so that a block of it can be made in parts, and put together again.
ghost use Rattle.std.specs.Prelude.{◌≡◌, IfOk, OnErr};
ghost use Rattle.std.specs.Arc.{arc_value};
ghost use Rattle.mst_shards.specs.BlockHistory.{whole};
ghost use Rattle.mst_blocks.specs.Writing.{IsWriterOf, IsLastRoot};

use crate::faults::BlockFault;
use crate::writer::Writer;
use mst_shards::Sharded;
use mst_store::Laid;
use std::alloc::Allocator;
use std::sync::Arc;

/// What a writer has between its calls.
#[derive(Drop)]
pub struct Held<A: Allocator + Copy> {
    /// Its share of the map.
    pub map: Arc<Sharded<A>, A>,
    /// The passes of the shards, in the order of their keys.
    pub passes: Vec<Laid<A>, A>,
    /// The pass of the directory.
    pub directory: Laid<A>,
    /// The root digest of the last block.
    pub root: [u8; 32],
}

/// The root digest of the last block: that of a new one, if it was made.
pub fn last_root(made: &Result<[u8; 32], BlockFault>, before: [u8; 32]) -> [u8; 32]
    ensures made { IfOk made.now (λ root. result ≡ root) }
    ensures same { OnErr made.now (result ≡ before) }
{
    match made {
        Ok(root) => *root,
        Err(_) => before,
    }
}

impl<A: Allocator + Copy> Writer<A> {
    /// What it has. [`Writer::from_held`] makes a writer of it again.
    pub fn into_held(self) -> Held<A>
        ensures own { IsWriterOf (arc_value result.map)
            (whole (arc_value result.map).splits result.passes.items result.directory) }
        ensures root { IsLastRoot result.root result.directory }
        ensures same { whole (arc_value result.map).splits result.passes.items result.directory
            ≡ self }
    {
        let Writer {
            map,
            passes,
            directory,
            root,
        } = self;
        Held {
            map,
            passes,
            directory,
            root,
        }
    }

    /// The writer that has this: one that was taken apart, or its passes with a block more.
    pub fn from_held(held: Held<A>) -> Writer<A>
        requires own { IsWriterOf (arc_value held.map)
            (whole (arc_value held.map).splits held.passes.items held.directory) }
        requires root { IsLastRoot held.root held.directory }
        ensures same { result
            ≡ whole (arc_value held.map).splits held.passes.items held.directory }
    {
        let Held {
            map,
            passes,
            directory,
            root,
        } = held;
        Writer {
            map,
            passes,
            directory,
            root,
        }
    }
}
