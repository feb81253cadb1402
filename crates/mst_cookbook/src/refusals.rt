//! Refusals, and what to do then.
use crate::sharing::{pair, put_each, tell, two_passes};
use anyhow::Result;
use mst_key::{Format, Key, Value};
use mst_store::{ChangeFault, Pass, Shape, Store, WriteFault};
use std::alloc::Global;
use std::sync::Wait;

/// Room for three keys and for the path of one change.
const SHAPE: Shape = Shape {
    rows: 10,
    passes: 2,
    format: Format::One,
};

// What is printed of something that went through, or not.
fn outcome(is_done: bool) -> &'static str {
    if is_done { "done" } else { "refused" }
}

// Whether a store of so many rows can be opened.
fn opens(alloc: Global, rows: u32) -> bool {
    match Store::open(alloc, Shape { rows, ..SHAPE }) {
        Ok(opened) => {
            drop(opened);
            true
        }
        Err(_) => false,
    }
}

// Asks for sizes that nothing has.
fn show_sizes(rt: &HostRuntime) -> Result<()> {
    tell(rt, "a store of 3 rows", outcome(opens(rt.alloc(), 3)))?;
    tell(rt, "a key of 33 bytes", outcome(Key::new(&[0; 33]).is_ok()))?;
    tell(
        rt,
        "a value of 65 bytes",
        outcome(Value::new(&[0; 65]).is_ok()),
    )
}

// Puts a pair. If another pass has the turn, it waits for it.
fn put<T: Wait>(
    waits: &T,
    pass: &mut Pass<'_, Global>,
    key: &Key,
    value: &Value,
) -> Result<Option<Value>, ChangeFault> {
    match pass.try_put(key, value) {
        Ok(old) => Ok(old),
        Err(WriteFault::Busy) => pass.put(waits, key, value),
        // too few rows are free: older versions have to be unpinned, or keys to be removed
        Err(WriteFault::NoRoom) => Err(ChangeFault::NoRoom),
        // after 2^63 - 1 versions: a new store
        Err(WriteFault::VersionsSpent) => Err(ChangeFault::VersionsSpent),
    }
}

// Changes the price of an apple, and prints whether that went through.
fn change<T: Wait>(
    rt: &HostRuntime,
    waits: &T,
    pass: &mut Pass<'_, Global>,
    what: &str,
    price: &str,
) -> Result<()> {
    let (key, value) = pair("apple", price)?;
    let is_done = put(waits, pass, &key, &value).is_ok();
    tell(rt, what, outcome(is_done))
}

// Changes it twice while a version is pinned, and once more. The first change takes the rows that
// the second one would need, as long as the version before both is pinned.
fn change_beside<T: Wait>(
    rt: &HostRuntime,
    waits: &T,
    writer: &mut Pass<'_, Global>,
    reader: Pass<'_, Global>,
) -> Result<()> {
    let pinned = reader.pin();
    let first = change(rt, waits, writer, "a change beside a pinned version", "31");
    let second = change(rt, waits, writer, "one more", "35");
    drop(pinned.unpin());
    first?;
    second?;
    change(rt, waits, writer, "the same after the unpin", "35")
}

const FRUITS: &[(&str, &str)] = &[("plum", "30"), ("pear", "30"), ("apple", "30")];

// Puts three keys, and changes one of them.
fn show<T: Wait>(
    rt: &HostRuntime,
    waits: &T,
    mut writer: Pass<'_, Global>,
    reader: Pass<'_, Global>,
) -> Result<()> {
    put_each(&mut writer, FRUITS)?;
    change_beside(rt, waits, &mut writer, reader)
}

pub fn run<T: Wait>(rt: &HostRuntime, waits: &T) -> Result<()> {
    show_sizes(rt)?;
    let (store, seats) = Store::open(rt.alloc(), SHAPE)?;
    let (reader, writer) = two_passes(rt.alloc(), &store, seats)?;
    show(rt, waits, writer, reader)
}
