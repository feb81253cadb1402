//! The program of the map: its words, the task that they ask for, how far a load is, and how it
//! ends, with contracts that say what is read and written.
//!
//! ```
//! let words = ["mst", "run", "--rows", "16"];
//! let mut source = BytesSource::new(b"1 put 616263 78\n1 get 616263\n");
//! let (mut out, mut err) = (BytesSink::new(alloc, 100)?, BytesSink::new(alloc, 100)?);
//! command(&rt, alloc, &words, &Open, &mut source, &mut out, &mut err)
//!                                                  // 0, and out has "none\nsome 78\n"
//! ```
//!
//! `run_program` is the whole program as a call, over the words and the streams of the process;
//! `command` is the same over words that are read, with a gate of the caller's, and `execute` does
//! a task that `mst_arguments` reads from words. `specs/Tasks.antt` says what each task reads and
//! writes. The exit statuses are 0 to 4. `Watch` says whether a user is told how far a load is, and
//! `Progress` writes how many of its calls have returned.
#![tactic(auto)]

mod program;
mod progress;
mod sharded;
mod starting;
mod tasks;

use mst_devices::{StdSink, StdSource};
use starting::run_program;
use std::env;
use std::process::ExitCode;

fn main(rt: HostRuntime) -> ExitCode {
    let mut source = StdSource::new(rt.stdin());
    let mut out = StdSink::new(rt.stdout());
    let mut err = StdSink::new(rt.stderr());
    let (alloc, arguments, errors) = (rt.alloc(), env::args(&rt), rt.stderr());
    ExitCode::from(run_program(
        &rt,
        alloc,
        arguments,
        errors,
        &mut source,
        &mut out,
        &mut err,
    ))
}
