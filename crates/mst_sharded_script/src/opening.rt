//! The opening of a map for a script: its writer, and a reader for each pass.
ghost use Rattle.std.specs.Prelude.{◌≡◌, ◌↔◌, true, [], length, map, IfOk, IfSome};
ghost use Rattle.std.specs.Arc.{arc_value};
ghost use Rattle.std.specs.List.{AllByRecursion};
ghost use Rattle.mst_store.specs.Passes.{IsShape};
ghost use Rattle.mst_shards.specs.Opening.{IsLot, seats_of};
ghost use Rattle.mst_shards.specs.Sharding.{IsSplits};
ghost use Rattle.mst_blocks.specs.Writing.{IsWriterOf, HasMade};
ghost use Rattle.mst_sharded_script.specs.Opening.{IsScriptShape, with_writer as shape_with_writer, reader_of, AreNewOf, Opens};

use mst_blocks::{BlockFault, PartFault, Writer};
use mst_key::{Key, Memory};
use mst_shards::{AllSeats, Lot, Sharded, ShardsFault, WriterLot};
use mst_snapshots::Reader;
use mst_store::{ApplyFault, Shape, is_shape};
use mst_words::layout::MOST_PASSES;
use std::alloc::Allocator;
use std::sync::{Arc, Wait};

/// Whether the shards of a script's map may have this shape, whose passes are those of the script:
/// a store may have it, and a pass is left for the writer.
pub fn is_script_shape(shape: Shape) -> bool
    ensures { result ≡ true ↔ IsScriptShape shape }
{
    is_shape(shape) && shape.passes < MOST_PASSES
}

// The shape of the shards: with the writer's pass.
fn with_writer(shape: Shape) -> Shape
    requires { IsScriptShape shape }
    ensures shape { result ≡ shape_with_writer shape }
    ensures is { IsShape result }
{
    Shape {
        rows: shape.rows,
        passes: shape.passes + 1,
        format: shape.format,
    }
}

// A copy of splits.
fn copied<A: Allocator>(alloc: A, splits: &[Key]) -> Result<Vec<Key, A>, Memory>
    ensures same { IfOk result (λ copy. copy.items ≡ splits.now) }
{
    let mut list = Vec::with_capacity(alloc, splits.len())?;
    for split in splits {
        list.push_reserved(split.copy());
    }
    Ok(list)
}

// The readers of a map, of what was dealt to them.
fn readers_of<A: Allocator + Copy>(
    alloc: A,
    shared: &Arc<Sharded<A>, A>,
    lots: Vec<Lot<A>, A>,
) -> Result<Vec<Reader<A>, A>, Memory>
    requires own { AllByRecursion (IsLot (arc_value shared.now)) lots.items }
    ensures readers { IfOk result
        (λ readers. readers.items ≡ map (reader_of (arc_value shared.now).splits) lots.items) }
{
    let mut readers = Vec::new(alloc);
    for lot in lots {
        let reader = Reader::new(shared, alloc, lot)?;
        readers.push(reader)?;
    }
    Ok(readers)
}

// The writer of a map, of what was dealt to it. Returns `None` if the directory refused the edits
// that list the empty map, but for memory.
fn writer_of<A: Allocator + Copy>(
    alloc: A,
    map: &Arc<Sharded<A>, A>,
    lot: WriterLot<A>,
) -> Result<Option<Writer<A>>, Memory>
    requires lot { IsLot (arc_value map.now) lot }
    ensures own { IfOk result (λ made. IfSome made (λ w. IsWriterOf (arc_value map.now) w)) }
    ensures none { IfOk result (λ made. IfSome made (λ w. HasMade [] w)) }
{
    match Writer::new(map, alloc, lot) {
        Ok(writer) => Ok(Some(writer)),
        Err(BlockFault::Memory(refused)) => Err(refused),
        Err(BlockFault::Directory(PartFault::Refused(ApplyFault::Memory(refused)))) => Err(refused),
        Err(_) => Ok(None),
    }
}

/// The writer and the readers of a map.
pub type Roles<A> = (Writer<A>, Vec<Reader<A>, A>);

// The writer and the readers of a map, of its seats. Returns `None` if there is no writer.
fn roles_of<A: Allocator + Copy>(
    alloc: A,
    map: &Arc<Sharded<A>, A>,
    seats: AllSeats<A>,
) -> Result<Option<Roles<A>>, Memory>
    requires own { seats ≡ seats_of (arc_value map.now) }
    ensures new { IfOk result
        (λ dealt. IfSome dealt (λ roles. AreNewOf (arc_value map.now) roles.0 roles.1.items)) }
{
    let (lot, lots) = map.deal(alloc, seats)?;
    let readers = readers_of(alloc, map, lots)?;
    let made = writer_of(alloc, map, lot)?;
    match made {
        Some(writer) => Ok(Some((writer, readers))),
        None => Ok(None),
    }
}

// Deals a map. Returns `None` if its directory refused the edits that list the empty map, but for
// memory.
fn deal_map<A: Allocator + Copy>(
    alloc: A,
    map: Sharded<A>,
    seats: AllSeats<A>,
) -> Result<Option<Roles<A>>, Memory>
    requires own { seats ≡ seats_of map }
    ensures new { IfOk result
        (λ dealt. IfSome dealt (λ roles. AreNewOf map roles.0 roles.1.items)) }
{
    let map = Arc::new(alloc, map)?;
    roles_of(alloc, &map, seats)
}

// Opens a map once.
fn open_once<A: Allocator + Copy>(
    alloc: A,
    splits: &[Key],
    shape: Shape,
) -> Result<Option<Roles<A>>, Memory>
    requires splits { IsSplits splits.now }
    requires shape { IsScriptShape shape }
    ensures opened { IfOk result
        (λ dealt. IfSome dealt (λ roles. Opens splits.now shape roles.0 roles.1.items)) }
{
    let splits = copied(alloc, splits)?;
    match Sharded::open(alloc, splits, with_writer(shape)) {
        Ok((map, seats)) => deal_map(alloc, map, seats),
        Err(ShardsFault::Splits) => unreachable!(),
        Err(ShardsFault::Shape) => unreachable!(),
        Err(ShardsFault::Memory(refused)) => Err(refused),
    }
}

/// Opens a new map with these splits and with shards of this shape, whose passes are those of the
/// script. Returns its writer and its readers.
///
/// Returns `Memory` if a growth was refused. A new directory has room for the list of the empty
/// map, and no other has its turn yet. Should it be refused all the same, another map is opened.
pub fn open_map<R: Wait, A: Allocator + Copy>(
    rt: &R,
    alloc: A,
    splits: &[Key],
    shape: Shape,
) -> Result<Roles<A>, Memory>
    requires splits { IsSplits splits.now }
    requires shape { IsScriptShape shape }
    ensures opened { IfOk result (λ roles. Opens splits.now shape roles.0 roles.1.items) }
    ensures count { IfOk result (λ roles. length roles.1.items ≡ shape.passes) }
{
    for _ in rt.forever() {
        if let Some(roles) = open_once(alloc, splits, shape)? {
            return Ok(roles);
        }
    }
    unreachable!()
}
