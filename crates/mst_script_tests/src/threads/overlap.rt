//! That the workers run at once: two of them wait for each other between the beginning and the end
//! of their first calls.
use mst_load::{Gate, load};
use std::alloc::AllocGlobal;
use std::hint;
use std::sync::Wait;
use std::sync::atomic::Ordering::SeqCst;
use std::sync::atomic::{AtomicBool, AtomicU32};
use std::thread::Threads;

/// How many turns a worker is held at most.
const TURNS: u32 = 50_000_000;

/// Holds the first call of each of two workers until both have entered it, and that of the first
/// worker also until that of the second is answered. A hold gives up in the end, and is counted.
///
/// Workers that run one after the other or in turns, on one thread, meet a hold that nobody ends.
#[derive(Drop)]
struct Overlap {
    first_entered: AtomicBool,
    second_entered: AtomicBool,
    second_answered: AtomicBool,
    given_up: AtomicU32,
}

impl Overlap {
    fn new() -> Overlap {
        Overlap {
            first_entered: AtomicBool::new(false),
            second_entered: AtomicBool::new(false),
            second_answered: AtomicBool::new(false),
            given_up: AtomicU32::new(0),
        }
    }

    // Returns once this has happened, or gives up.
    fn hold(&self, happened: &AtomicBool) {
        for _ in 0..TURNS {
            if happened.load(SeqCst) {
                return;
            }
            hint::spin_loop();
        }
        self.given_up.fetch_add(1, SeqCst);
    }
}

impl Gate for Overlap {
    fn enter(&self, worker: u32, call: u32) {
        match (worker, call) {
            (1, 1) => {
                self.first_entered.store(true, SeqCst);
                self.hold(&self.second_entered);
                self.hold(&self.second_answered);
            }
            (2, 1) => {
                self.second_entered.store(true, SeqCst);
                self.hold(&self.first_entered);
            }
            _ => {}
        }
    }

    fn answered(&self, worker: u32, call: u32) {
        if worker == 2 && call == 1 {
            self.second_answered.store(true, SeqCst);
        }
    }
}

// Whether no hold gave up, and the load comes to the map that its calls leave.
fn overlaps<R: Threads + Wait + AllocGlobal + Sync>(rt: &R, gate: &Overlap) -> bool {
    match load(rt, rt.alloc(), 0, 2, 2, gate) {
        Ok(report) => {
            gate.given_up.load(SeqCst) == 0 && report.events == 4 && report.root == report.built
        }
        Err(_) => false,
    }
}

#[test]
fn calls_overlap(rt: HostRuntime) {
    assert!(rt; overlaps(&rt, &Overlap::new()));
}
