//! The recipes of `docs/COOKBOOK.md` in Rattle, one file for each, run in the order of the page.
//! Each prints what it found. `sharing` opens the stores of most of them.
//!
//! `rt run` in this folder proves them and runs them; `rt try` runs them unproved. With words on
//! its command line the program makes the calls of `counted` in their place.
#![tactic(auto)]

mod audit_service;
mod batch;
mod catch_up;
mod compare;
mod counted;
mod log_of_blocks;
mod migrate;
mod open_and_size;
mod prove_and_verify;
mod refusals;
mod report;
mod sharded;
mod sharing;
mod writer_and_readers;

use anyhow::Result;
use audit_service::AuditService;
use batch::Batch;
use catch_up::CatchingUp;
use compare::Comparison;
use migrate::Migration;
use prove_and_verify::Proofs;
use report::Accounts;
use sharing::{run, run_replicas};
use std::env;
use std::sync::Wait;
use std::thread::Threads;

// Runs all.
fn run_all<T: Threads + Wait + Sync>(rt: &HostRuntime, threads: &T) -> Result<()> {
    open_and_size::run(rt)?;
    writer_and_readers::run(rt, threads)?;
    run::<Accounts>(rt, report::SHAPE)?;
    run::<Proofs>(rt, prove_and_verify::SHAPE)?;
    run_replicas::<Comparison>(rt, compare::SHAPE)?;
    run_replicas::<CatchingUp>(rt, catch_up::SHAPE)?;
    run::<Migration>(rt, migrate::SHAPE)?;
    run::<Batch>(rt, batch::SHAPE)?;
    sharded::run(rt)?;
    refusals::run(rt, threads)?;
    run::<AuditService>(rt, audit_service::SHAPE)?;
    log_of_blocks::run(rt)
}

fn main(rt: HostRuntime) -> Result<()> {
    let words: Vec<String> = env::args(&rt)?.collect(rt.alloc())?;
    if words.len() > 1 {
        counted::run(&rt, &words)
    } else {
        run_all(&rt, &rt)
    }
}
