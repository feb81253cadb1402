//! The bytes of a proof of a sharded map.
ghost use Rattle.std.specs.Prelude.{◌≡◌, IfOk};
ghost use Rattle.mst_proof.specs.Faults.{IsShort};
ghost use Rattle.mst_sharded_proof.specs.Frame.{framing};

use crate::frame::sharded_format_byte;
use mst_key::{Format, Key, Memory};
use std::alloc::Allocator;

/// The bytes of a proof of these parts: the lower bound of the key's shard, the directory's proof
/// for it, and the shard's proof for the key. Returns `Memory` only if a growth was refused.
pub fn join<A: Allocator>(
    alloc: A,
    format: Format,
    low: &Key,
    directory: &[u8],
    shard: &[u8],
) -> Result<Vec<u8, A>, Memory>
    requires short { IsShort directory.now }
    ensures bytes { IfOk result (λ bytes. bytes.items ≡ framing format
        (record { low = low.now; directory = directory.now; shard = shard.now })) }
{
    let bound = low.bytes();
    let mut bytes = Vec::new(alloc);
    bytes.push(sharded_format_byte(format))?;
    bytes.push(bound.len() as u8)?;
    bytes.extend_from_slice(bound)?;
    bytes.extend_from_slice((directory.len() as u32).to_be_bytes().as_slice())?;
    bytes.extend_from_slice(directory)?;
    bytes.extend_from_slice(shard)?;
    Ok(bytes)
}
