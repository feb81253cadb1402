//! One writer and three readers, each with a pass of its own on a thread of its own.
use crate::sharing::{all_passes, tell};
use anyhow::Result;
use mst_key::{Format, Key, Value};
use mst_store::{Pass, Shape, Store};
use std::alloc::Global;
use std::thread::{self, Threads};

const CALLS: u32 = 1_000;

const SHAPE: Shape = Shape {
    rows: 100,
    passes: 4,
    format: Format::One,
};

// Puts a number. Returns false if that was refused.
fn write_one(pass: &mut Pass<'_, Global>, key: &Key, number: u32) -> bool {
    match Value::new(&number.to_be_bytes()) {
        Ok(value) => pass.try_put(key, &value).is_ok(),
        Err(_) => false,
    }
}

// Counts up at one key. Returns false if a put was refused.
fn write(pass: &mut Pass<'_, Global>) -> bool {
    let Ok(key) = Key::new(b"count") else {
        return false;
    };
    let mut all_well = true;
    for number in 0..CALLS {
        all_well = write_one(pass, &key, number) && all_well;
    }
    all_well
}

// Reads on. Returns false if a version is older than the one before.
fn read(pass: &mut Pass<'_, Global>) -> bool {
    let (mut last, mut all_well) = (0, true);
    for _ in 0..CALLS {
        let version = pass.version();
        all_well = all_well && last <= version;
        last = version;
    }
    all_well
}

// What the thread of a pass does: that of the first one writes, the others read. Returns whether
// all went well.
fn work(mut pass: Pass<'_, Global>) -> bool {
    if pass.number() == 1 {
        write(&mut pass)
    } else {
        read(&mut pass)
    }
}

// Runs a thread for each pass, until all have ended, and prints how it went.
fn run_threads<T: Threads + Sync>(
    rt: &HostRuntime,
    threads: &T,
    passes: Vec<Pass<'_, Global>>,
) -> Result<()> {
    let results = thread::map_vec(threads, passes, &|pass| work(pass))?;
    let found = if results.contains(&false) {
        "a call went wrong"
    } else {
        "no refusal, no older version"
    };
    drop(results);
    tell(rt, "1 writer, 3 readers", found)
}

pub fn run<T: Threads + Sync>(rt: &HostRuntime, threads: &T) -> Result<()> {
    let (store, seats) = Store::open(rt.alloc(), SHAPE)?;
    let told = match all_passes(rt.alloc(), &store, seats) {
        Ok(passes) => run_threads(rt, threads, passes),
        Err(fault) => Err(fault),
    };
    drop(store);
    told
}
