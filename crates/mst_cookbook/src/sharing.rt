//! What the recipes share: how stores are opened for them, the passes of a store, who uses a
//! sharded map, texts as keys, values and edits, and lines.
ghost use Rattle.std.specs.Prelude.{◌≡◌};
ghost use Rattle.std.specs.Arc.{arc_value};
ghost use Rattle.std.specs.List.{AllByRecursion};
ghost use Rattle.mst_shards.specs.Opening.{IsLot, seats_of};

use anyhow::{Error, Result};
use mst_blocks::Writer;
use mst_key::{Edit, Key, Value};
use mst_shards::{AllSeats, Lot, Sharded, WriterLot};
use mst_snapshots::Reader;
use mst_store::{Pass, Pinned, Seats, Shape, Store};
use std::alloc::Global;
use std::ops::Range;
use std::str;
use std::sync::Arc;

/// A recipe of a writer and a reader of one store: what is seen of a version while the writer goes
/// on.
pub trait Recipe {
    /// What the writer does first.
    fn begin(rt: &HostRuntime, writer: &mut Pass<'_, Global>) -> Result<()>;

    /// What it does next, while the reader has that version pinned.
    fn go_on(_rt: &HostRuntime, _writer: &mut Pass<'_, Global>) -> Result<()> {
        Ok(())
    }

    /// Looks at the version that the reader has pinned, and at the one now, which the writer pins.
    fn look(
        _rt: &HostRuntime,
        _before: &mut Pinned<'_, Global>,
        _now: &mut Pinned<'_, Global>,
    ) -> Result<()> {
        Ok(())
    }
}

// Goes on beside a pinned version.
fn go_on<R: Recipe>(
    rt: &HostRuntime,
    mut writer: Pass<'_, Global>,
    before: &mut Pinned<'_, Global>,
) -> Result<()> {
    match R::go_on(rt, &mut writer) {
        Ok(()) => R::look(rt, before, &mut writer.pin()),
        Err(fault) => {
            drop(writer);
            Err(fault)
        }
    }
}

// Begins, and pins the version that is then the newest.
fn begin<R: Recipe>(
    rt: &HostRuntime,
    mut writer: Pass<'_, Global>,
    reader: Pass<'_, Global>,
) -> Result<()> {
    match R::begin(rt, &mut writer) {
        Ok(()) => go_on::<R>(rt, writer, &mut reader.pin()),
        Err(fault) => {
            drop(writer);
            drop(reader);
            Err(fault)
        }
    }
}

/// Runs a recipe in a store of its own.
pub fn run<R: Recipe>(rt: &HostRuntime, shape: Shape) -> Result<()> {
    let (store, seats) = Store::open(rt.alloc(), shape)?;
    let told = match two_passes(rt.alloc(), &store, seats) {
        Ok((reader, writer)) => begin::<R>(rt, writer, reader),
        Err(fault) => Err(fault),
    };
    drop(store);
    told
}

/// A recipe of the passes of two stores, ours and theirs.
pub trait Replicas {
    /// What is put into both first.
    fn fill(
        rt: &HostRuntime,
        ours: &mut Pass<'_, Global>,
        theirs: &mut Pass<'_, Global>,
    ) -> Result<()>;

    /// What is done then.
    fn meet(rt: &HostRuntime, ours: Pass<'_, Global>, theirs: Pass<'_, Global>) -> Result<()>;
}

// Fills both stores, and goes on.
fn fill<R: Replicas>(
    rt: &HostRuntime,
    mut ours: Pass<'_, Global>,
    mut theirs: Pass<'_, Global>,
) -> Result<()> {
    match R::fill(rt, &mut ours, &mut theirs) {
        Ok(()) => R::meet(rt, ours, theirs),
        Err(fault) => {
            drop(ours);
            drop(theirs);
            Err(fault)
        }
    }
}

// Opens theirs next to ours.
fn run_beside<R: Replicas>(rt: &HostRuntime, shape: Shape, ours: Pass<'_, Global>) -> Result<()> {
    match Store::open(rt.alloc(), shape) {
        Ok((store, seats)) => {
            let told = match one_pass(rt.alloc(), &store, seats) {
                Ok(theirs) => fill::<R>(rt, ours, theirs),
                Err(fault) => Err(fault),
            };
            drop(store);
            told
        }
        Err(fault) => Err(fault.into()),
    }
}

/// Runs a recipe of two stores of one shape.
pub fn run_replicas<R: Replicas>(rt: &HostRuntime, shape: Shape) -> Result<()> {
    let (store, seats) = Store::open(rt.alloc(), shape)?;
    let told = match one_pass(rt.alloc(), &store, seats) {
        Ok(ours) => run_beside::<R>(rt, shape, ours),
        Err(fault) => Err(fault),
    };
    drop(store);
    told
}

/// All passes of a store.
pub fn all_passes<'a>(
    alloc: Global,
    store: &'a Store<Global>,
    seats: Seats<Global>,
) -> Result<Vec<Pass<'a, Global>>>
    requires own { seats ≡ store.now }
{
    match store.deal(alloc, seats) {
        Ok(passes) => Ok(passes),
        Err(_) => Err(Error::msg("no memory for the passes")),
    }
}

/// One pass of a store.
pub fn one_pass<'a>(
    alloc: Global,
    store: &'a Store<Global>,
    seats: Seats<Global>,
) -> Result<Pass<'a, Global>>
    requires own { seats ≡ store.now }
{
    let mut passes = all_passes(alloc, store, seats)?;
    let last = passes.pop();
    drop(passes);
    match last {
        Some(pass) => Ok(pass),
        None => Err(Error::msg("each store has a pass")),
    }
}

/// Two passes of a store.
pub fn two_passes<'a>(
    alloc: Global,
    store: &'a Store<Global>,
    seats: Seats<Global>,
) -> Result<(Pass<'a, Global>, Pass<'a, Global>)>
    requires own { seats ≡ store.now }
{
    let mut passes = all_passes(alloc, store, seats)?;
    let (one, other) = (passes.pop(), passes.pop());
    drop(passes);
    match (one, other) {
        (Some(one), Some(other)) => Ok((one, other)),
        _ => Err(Error::msg("a store of two passes")),
    }
}

// A reader of the last of the lots.
fn reader_of(
    alloc: Global,
    map: &Arc<Sharded<Global>, Global>,
    lots: &mut Vec<Lot<Global>>,
) -> Result<Reader<Global>>
    requires own { AllByRecursion (IsLot (arc_value map.now)) lots.old.items }
{
    match lots.pop() {
        Some(lot) => Ok(Reader::new(map, alloc, lot)?),
        None => Err(Error::msg("a map of two passes has a reader")),
    }
}

// The writer, beside this reader.
fn writer_beside(
    alloc: Global,
    map: &Arc<Sharded<Global>, Global>,
    lot: WriterLot<Global>,
    reader: Reader<Global>,
) -> Result<(Writer<Global>, Reader<Global>)>
    requires lot { IsLot (arc_value map.now) lot }
{
    match Writer::new(map, alloc, lot) {
        Ok(writer) => Ok((writer, reader)),
        Err(fault) => {
            drop(reader);
            Err(fault.into())
        }
    }
}

// The writer and a reader of what was dealt.
fn users_of(
    alloc: Global,
    map: &Arc<Sharded<Global>, Global>,
    lot: WriterLot<Global>,
    mut lots: Vec<Lot<Global>>,
) -> Result<(Writer<Global>, Reader<Global>)>
    requires lot { IsLot (arc_value map.now) lot }
    requires own { AllByRecursion (IsLot (arc_value map.now)) lots.items }
{
    let reader = reader_of(alloc, map, &mut lots);
    drop(lots);
    match reader {
        Ok(reader) => writer_beside(alloc, map, lot, reader),
        Err(fault) => {
            drop(lot);
            Err(fault)
        }
    }
}

// Deals a map to its writer and a reader.
fn deal(
    alloc: Global,
    map: Arc<Sharded<Global>, Global>,
    seats: AllSeats<Global>,
) -> Result<(Writer<Global>, Reader<Global>)>
    requires own { seats ≡ seats_of (arc_value map) }
{
    let users = match map.deal(alloc, seats) {
        Ok((lot, lots)) => users_of(alloc, &map, lot, lots),
        Err(fault) => Err(fault.into()),
    };
    drop(map);
    users
}

// Shares the map, and deals it.
fn share(
    alloc: Global,
    map: Sharded<Global>,
    seats: AllSeats<Global>,
) -> Result<(Writer<Global>, Reader<Global>)>
    requires own { seats ≡ seats_of map }
{
    match Arc::new(alloc, map) {
        Ok(map) => deal(alloc, map, seats),
        Err(refused) => {
            drop(refused);
            drop(seats);
            Err(Error::msg("no memory for the map"))
        }
    }
}

/// Opens a sharded map. Returns its writer and a reader, for a thread each.
pub fn users(
    alloc: Global,
    splits: Vec<Key>,
    shape: Shape,
) -> Result<(Writer<Global>, Reader<Global>)> {
    let (map, seats) = Sharded::open(alloc, splits, shape)?;
    share(alloc, map, seats)
}

/// Opens a map of three shards: below h, from h on, from p on.
pub fn three_shards(alloc: Global, shape: Shape) -> Result<(Writer<Global>, Reader<Global>)> {
    let splits = vec![in alloc; Key::new(b"h")?, Key::new(b"p")?]?;
    users(alloc, splits, shape)
}

/// The key of a text.
pub fn key(text: &str) -> Result<Key> {
    Ok(Key::new(text.as_bytes())?)
}

/// The key of a text, and the value of another.
pub fn pair(key: &str, value: &str) -> Result<(Key, Value)> {
    Ok((Key::new(key.as_bytes())?, Value::new(value.as_bytes())?))
}

/// Puts a value at a key, both of them texts.
pub fn put(pass: &mut Pass<'_, Global>, key: &str, value: &str) -> Result<()> {
    let (key, value) = pair(key, value)?;
    pass.try_put(&key, &value)?;
    Ok(())
}

/// Puts such pairs, one after another.
pub fn put_each(pass: &mut Pass<'_, Global>, pairs: &[(&str, &str)]) -> Result<()> {
    for (key, value) in pairs {
        put(pass, key, value)?;
    }
    Ok(())
}

/// A fruit with its new price, or with none if it is taken out.
pub type Change = (&'static str, Option<&'static str>);

// The edit of a change.
fn edit_of(fruit: &str, price: Option<&str>) -> Result<Edit> {
    match price {
        Some(price) => {
            let (key, value) = pair(fruit, price)?;
            Ok(Edit::Put(key, value))
        }
        None => Ok(Edit::Remove(key(fruit)?)),
    }
}

/// The edits of a block.
pub fn edits_of(alloc: Global, changes: &[Change]) -> Result<Vec<Edit>> {
    let mut edits = Vec::new(alloc);
    for (fruit, price) in changes {
        let edit = edit_of(fruit, *price)?;
        edits.push(edit)?;
    }
    Ok(edits)
}

// Puts a value at the key of a user.
fn put_user(alloc: Global, pass: &mut Pass<'_, Global>, number: u32, value: &str) -> Result<()> {
    let name = format!(in alloc; "user {number}")?;
    put(pass, &name, value)
}

/// Puts a value at the keys of the users with these numbers.
pub fn put_users(
    alloc: Global,
    pass: &mut Pass<'_, Global>,
    numbers: Range<u32>,
    value: &str,
) -> Result<()> {
    for number in numbers {
        put_user(alloc, pass, number, value)?;
    }
    Ok(())
}

/// The text of a key or a value; `no text` for bytes that spell none.
pub fn text(bytes: &[u8]) -> &str {
    str::from_utf8(bytes).unwrap_or("no text")
}

/// Prints a line: what it is about, and what was found.
pub fn tell(rt: &HostRuntime, what: &str, found: &str) -> Result<()> {
    println!(rt; "{what}: {found}")?;
    Ok(())
}
