//! A key put into the map that stands at a root.
ghost use Rattle.std.specs.Prelude.{◌≡◌, ◌<◌, ◌+◌, List, Some, IfOk, IfErr, false};
ghost use Rattle.std.specs.Option.{option_map_or};
ghost use Rattle.mst_key.specs.Bytes.{IsKey, IsValue};
ghost use Rattle.mst_key.specs.Map.{Pair, map_get};
ghost use Rattle.mst_key.specs.Map as map;
ghost use Rattle.mst_key.specs.declared.format.Format.{Format};
ghost use Rattle.mst_node.specs.Cost.{same_bytes, cost};
ghost use Rattle.mst_arena.specs.Lives.{free_count};
ghost use Rattle.mst_arena.specs.Standing.{Stands, numbers};
ghost use Rattle.mst_path.specs.Takes.{FreeIsBlank, StaysBeside};
ghost use Rattle.mst_path.specs.Made.{IsMade};
ghost use Rattle.mst_path.specs.Changing.{MapStands, OnlyFreeWritten, SameVersions};
ghost use Rattle.mst_path.specs.Reached.{Changes};

use crate::counting::put_fits;
use crate::faults::NoRoom;
use crate::finding::find;
use crate::put_path::put_at;
use mst_arena::{Desk, Root, Rows, Sought};
use mst_key::{Format, Key, Value};
use std::alloc::Allocator;

/// Says that the key and the value are within their limits, as they are by their types.
fn within_limits(key: &Key, value: &Value)
    ensures key { IsKey key.now }
    ensures value { IsValue value.now }
{
    let _key = key.bytes();
    let _value = value.bytes();
}

/// Whether a value was found, and is this one.
fn is_same(found: &Option<Value>, value: &Value) -> bool
    ensures same { result ≡ option_map_or (same_bytes value.now) found.now false }
{
    match found {
        Some(old) => value == old,
        None => false,
    }
}

/// Puts a pair into the map that stands at a root as a tree of a format. Returns the root at which
/// the map with the pair stands, in this format, and the value that the key had.
///
/// The rows that stand at the root were born with the current version or an earlier one and are not
/// dead, and the desk's free rows may be written. Nodes along the path to the key's place, and
/// along the path on which the tree below that place is split, are made anew, in rows that are born
/// with the version to come; the rows that only the old tree uses die with that version. Everything
/// else is shared. If the key already has this value, nothing is changed, and the root stays.
///
/// It takes exactly one row for each entry and one for each node that is made anew. Returns
/// `NoRoom` exactly if fewer rows are free; then rows and desk are as before.
///
/// No memory is taken, and calls nest no deeper than the layers, at most 65 in format 1 and 129 in
/// format 2. The path is read for the value, to count, unless so many rows are free that any put
/// has room, and to make the new nodes. Only the last time hashes: of each new node the text after
/// the last entry up to which a kept hash serves, and in format 2 each value that is written and
/// has no kept digest. The key is hashed once, for its layer.
pub fn put<R: Rows, A: Allocator>(
    rows: &mut R,
    desk: &mut Desk<A>,
    root: &Root,
    key: &Key,
    value: &Value,
    format: Format,
) -> Result<(Root, Option<Value>), NoRoom>
    requires stands { MapStands format (R.content rows.old) desk.old root.now }
    requires free { FreeIsBlank desk.old.lives (R.blank rows.old) }
    ensures stands { IfOk result (λ done. (m : List Pair)
        → Stands format (R.content rows.old) root.now m
        → Stands format (R.content rows.new) done.0 (map.put m key.now value.now)) }
    ensures value { IfOk result (λ done. (m : List Pair)
        → Stands format (R.content rows.old) root.now m → done.1 ≡ map_get m key.now) }
    ensures written { OnlyFreeWritten desk.old (R.content rows.old) (R.content rows.new) }
    // as many rows as the nodes that are new have entries and heads
    ensures cost { IfOk result (λ _. (m : List Pair) → Stands format (R.content rows.old) root.now m
        → free_count desk.new.lives + cost format m (map.put m key.now value.now)
        ≡ free_count desk.old.lives) }
    ensures changes { IfOk result (λ done. (m n : List Pair)
        (old : Stands format (R.content rows.old) root.now m)
        (new : Stands format (R.content rows.new) done.0 n)
        → Changes desk.old desk.new (numbers old) (numbers new)) }
    ensures versions { SameVersions desk.old desk.new }
    // the rows of a node are of one age: with all below it they were there before, or they are all
    // new
    ensures made { IfOk result (λ done. (n : List Pair)
        (new : Stands format (R.content rows.new) done.0 n) → IsMade desk.new new.tree.placed) }
    ensures same_value { IfOk result (λ done. (m : List Pair)
        → Stands format (R.content rows.old) root.now m → map_get m key.now ≡ Some value.now
        → (done.0 ≡ root.now) × (desk.new ≡ desk.old) × (rows.new ≡ rows.old)) }
    ensures beside { StaysBeside R.blank R.kept rows.old rows.new }
    ensures no_room { IfErr result (λ _. (m : List Pair)
        → Stands format (R.content rows.old) root.now m
        → free_count desk.old.lives < cost format m (map.put m key.now value.now)) }
    ensures untouched { IfErr result (λ _. (desk.new ≡ desk.old) × (rows.new ≡ rows.old)) }
{
    within_limits(key, value);
    let sought = Sought::new(key);
    let old = find(rows, root.link, &sought);
    if is_same(&old, value) {
        return Ok((*root, old));
    }
    let layer = key.layer_in(format);
    if !put_fits(rows, desk, root.link, layer, &sought) {
        return Err(NoRoom);
    }
    let new = put_at(rows, desk, root.link, layer, &sought, value, format);
    Ok((new, old))
}
