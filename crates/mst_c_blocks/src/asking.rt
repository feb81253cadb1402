//! What the writer of a sharded map answers, and how a reader turns into a snapshot. And why an
//! answer is not made.
ghost use Rattle.mst_c_blocks.specs.Holding.{Tries, Gets};
ghost use Rattle.mst_c_blocks.specs.States.{IsThere};
ghost use Rattle.mst_c_blocks.specs.declared.role_box.Role.TheVariants as role;

use crate::role_box::Role;
use mst_blocks::Writer;
use mst_key::{Key, Memory, Value};
use std::alloc::Global;

/// Why an answer was not made.
pub(crate) enum ReadRefusal {
    /// The hand holds no snapshot.
    NoSnapshot,
    /// A growth was refused.
    Memory(Memory),
}

/// Why the value of a key was not looked up.
pub(crate) enum GetRefusal {
    /// Another than the writer has written to the key's shard.
    Overtaken,
    /// The hand holds a block that was begun, or a part of one.
    NoMap,
}

/// Whether a reader has taken a snapshot. There is no answer of what is no reader.
pub(crate) fn try_of(role: Role) -> (Role, Option<bool>)
    requires there { IsThere role }
    ensures tries { Tries role result.1 result.0 }
    ensures there { IsThere result.0 }
{
    match role {
        Role::Reader(reader) => match reader.try_snapshot() {
            Ok(snapshot) => (Role::Snapshot(snapshot), Some(true)),
            Err(reader) => (Role::Reader(reader), Some(false)),
        },
        other => (other, None),
    }
}

/// The value of a key in the writer's last block. There is no answer if another has written to the
/// key's shard.
pub(crate) fn last_value(
    writer: &mut Writer<Global>,
    key: &Key,
) -> Result<Option<Value>, GetRefusal>
    ensures gets { Gets key.now (role.Writer writer.old) result (role.Writer writer.new) }
{
    match writer.get(key) {
        Ok(found) => Ok(found),
        Err(_) => Err(GetRefusal::Overtaken),
    }
}
