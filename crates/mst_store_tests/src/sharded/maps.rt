//! Sharded maps of three shards with their writer and their readers, and edits.
ghost use Rattle.std.specs.Prelude.{◌≡◌};
ghost use Rattle.std.specs.Arc.{arc_value};
ghost use Rattle.std.specs.List.{AllByRecursion};
ghost use Rattle.mst_shards.specs.Opening.{IsLot, seats_of};

use mst_blocks::Writer;
use mst_key::{Edit, Format, Key, Value};
use mst_shards::{AllSeats, Lot, Sharded, WriterLot};
use mst_snapshots::{Reader, Snapshot};
use mst_store::Shape;
use std::alloc::{Allocator, Global};
use std::process::Abort;
use std::sync::Arc;

/// The key of these bytes.
pub(crate) fn key(rt: &impl Abort, bytes: &[u8]) -> Key {
    Key::new(bytes).expect(rt, "1 to 32 bytes")
}

/// A put of a value of one byte.
pub(crate) fn put(rt: &impl Abort, bytes: &[u8], value: u8) -> Edit {
    let value = Value::new(&[value]).expect(rt, "at most 64 bytes");
    Edit::Put(key(rt, bytes), value)
}

/// The shape of the shards of a map with a writer and two readers.
pub(crate) fn shape_of(rows: u32, format: Format) -> Shape {
    Shape {
        rows,
        passes: 3,
        format,
    }
}

/// The splits of three shards: below h, from h on, from p on. `None` if memory is refused for them.
pub(crate) fn splits_in<A: Allocator>(rt: &impl Abort, alloc: A) -> Option<Vec<Key, A>> {
    vec![in alloc; key(rt, b"h"), key(rt, b"p")].ok()
}

/// A new map, and the right to deal its passes.
pub(crate) fn shared<A: Allocator + Copy>(
    rt: &impl Abort,
    alloc: A,
    shape: Shape,
) -> (Arc<Sharded<A>, A>, AllSeats<A>)
    ensures own { result.1 ≡ seats_of (arc_value result.0) }
{
    let splits = splits_in(rt, alloc).expect(rt, "memory");
    let Ok((map, seats)) = Sharded::open(alloc, splits, shape) else {
        panic!(rt; "not opened")
    };
    let map = Arc::new(alloc, map).expect(rt, "memory");
    (map, seats)
}

/// A new map, and what is dealt to its writer and to each of its readers.
pub(crate) fn dealt<A: Allocator + Copy>(
    rt: &impl Abort,
    alloc: A,
    shape: Shape,
) -> (Arc<Sharded<A>, A>, WriterLot<A>, Vec<Lot<A>, A>)
    ensures writer { IsLot (arc_value result.0) result.1 }
    ensures readers { AllByRecursion (IsLot (arc_value result.0)) result.2.items }
{
    let (map, seats) = shared(rt, alloc, shape);
    let (lot, lots) = map.deal(alloc, seats).expect(rt, "memory");
    (map, lot, lots)
}

/// A reader of the last of the lots.
pub(crate) fn reader_of<A: Allocator + Copy>(
    rt: &impl Abort,
    alloc: A,
    map: &Arc<Sharded<A>, A>,
    lots: &mut Vec<Lot<A>, A>,
) -> Reader<A>
    requires own { AllByRecursion (IsLot (arc_value map.now)) lots.old.items }
    ensures own { AllByRecursion (IsLot (arc_value map.now)) lots.new.items }
{
    let lot = lots.pop().expect(rt, "a reader's");
    Reader::new(map, alloc, lot).expect(rt, "memory")
}

/// The writer and the two readers of a map.
#[derive(Drop)]
pub(crate) struct Users<A: Allocator + Copy> {
    pub(crate) writer: Writer<A>,
    pub(crate) first: Reader<A>,
    pub(crate) second: Reader<A>,
}

/// The writer and the readers of a new map, which alone have shares of it.
pub(crate) fn users_of<A: Allocator + Copy>(rt: &impl Abort, alloc: A, shape: Shape) -> Users<A> {
    let (map, lot, mut lots) = dealt(rt, alloc, shape);
    let writer = Writer::new(&map, alloc, lot).expect(rt, "memory");
    let first = reader_of(rt, alloc, &map, &mut lots);
    let second = reader_of(rt, alloc, &map, &mut lots);
    Users {
        writer,
        first,
        second,
    }
}

/// The writer of a new map, and a reader.
pub(crate) fn opened(
    rt: &(impl Abort + AllocGlobal),
    rows: u32,
    format: Format,
) -> (Writer<Global>, Reader<Global>) {
    let Users {
        writer,
        first,
        second: _second,
    } = users_of(rt, rt.alloc(), shape_of(rows, format));
    (writer, first)
}

/// The reader's snapshot, which no block delays.
pub(crate) fn taken<A: Allocator + Copy>(rt: &impl Abort, reader: Reader<A>) -> Snapshot<A> {
    let Ok(snapshot) = reader.try_snapshot() else {
        panic!(rt; "no block is being published")
    };
    snapshot
}

/// The value of a key in a snapshot, one byte; 0 for none.
pub(crate) fn found<A: Allocator + Copy>(
    rt: &impl Abort,
    snapshot: &mut Snapshot<A>,
    bytes: &[u8],
) -> u8 {
    match snapshot.get(&key(rt, bytes)) {
        Some(value) => value.bytes().first().copied().unwrap_or(0),
        None => 0,
    }
}
