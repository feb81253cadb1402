//! Growths that are refused, one after another: the threads that were started have returned all the
//! same.
use linked_list_allocator::LocalHeap;
use mst_load::{Gate, LoadFault, load};
use std::alloc::AllocGlobal;
use std::hint;
use std::sync::Wait;
use std::sync::atomic::AtomicU32;
use std::sync::atomic::Ordering::SeqCst;
use std::thread::Threads;

/// How many turns a call is held, so that a thread that is not joined is found at work.
const TURNS: u32 = 10_000;

/// Counts the calls that were entered and those that were answered.
#[derive(Drop)]
struct Tally {
    entered: AtomicU32,
    answered: AtomicU32,
}

impl Gate for Tally {
    fn enter(&self, _worker: u32, _call: u32) {
        self.entered.fetch_add(1, SeqCst);
        for _ in 0..TURNS {
            hint::spin_loop();
        }
    }

    fn answered(&self, _worker: u32, _call: u32) {
        self.answered.fetch_add(1, SeqCst);
    }
}

/// How many calls each worker makes: few, so that the list of what they leave takes no more than
/// the lists of passes and threads.
const CALLS: u32 = 3;

/// What a load in a small heap came to.
#[derive(Clone, Copy)]
enum Came {
    /// Memory was refused before the first call, and after it.
    StoppedEarly,
    StoppedLate,
    /// All calls were made.
    Whole,
    Wrong,
}

impl Tally {
    fn new() -> Tally {
        Tally {
            entered: AtomicU32::new(0),
            answered: AtomicU32::new(0),
        }
    }

    // How many calls were made, if each that was entered was answered, and each worker that made
    // one has made all of its calls.
    fn made(&self) -> Option<u32> {
        let (entered, answered) = (self.entered.load(SeqCst), self.answered.load(SeqCst));
        if entered == answered && entered % CALLS == 0 {
            Some(entered)
        } else {
            None
        }
    }
}

// What it came to that memory was refused after this many calls.
fn stopped(made: Option<u32>) -> Came {
    match made {
        Some(0) => Came::StoppedEarly,
        Some(_) => Came::StoppedLate,
        None => Came::Wrong,
    }
}

// What it came to that a load ended after this many calls, with the map that they leave or not.
fn ended(is_built: bool, made: Option<u32>) -> Came {
    if is_built && made == Some(3 * CALLS) {
        Came::Whole
    } else {
        Came::Wrong
    }
}

// What a load comes to in a heap.
fn load_over<R: Threads + Wait + AllocGlobal + Sync>(
    rt: &R,
    heap: &LocalHeap,
    tally: &Tally,
) -> Came {
    match load(rt, heap, 2, 1, CALLS, tally) {
        Ok(report) => ended(report.root == report.built, tally.made()),
        Err(LoadFault::Memory(_)) => stopped(tally.made()),
        Err(LoadFault::Thread(_)) => Came::Wrong,
    }
}

// What a load comes to in a heap of this many bytes, which keeps nothing of it.
fn load_in<R: Threads + Wait + AllocGlobal + Sync>(rt: &R, bytes: usize) -> Came {
    let Ok(heap) = LocalHeap::new(rt.alloc(), bytes) else {
        return Came::Wrong;
    };
    let came = load_over(rt, &heap, &Tally::new());
    if heap.used() == 0 { came } else { Came::Wrong }
}

// Whether loads in heaps of ever more bytes stop early and late, and then are whole.
fn all_come<R: Threads + Wait + AllocGlobal + Sync>(rt: &R) -> bool {
    let (mut early, mut late) = (false, false);
    for units in 1..512usize {
        match load_in(rt, units * 64) {
            Came::StoppedEarly => early = true,
            Came::StoppedLate => late = true,
            Came::Whole => return early && late,
            Came::Wrong => return false,
        }
    }
    false
}

// A heap of each size: too small for one growth after another, and then large enough for all.
#[test]
fn growths_are_refused(rt: HostRuntime) {
    assert!(rt; all_come(&rt));
}
