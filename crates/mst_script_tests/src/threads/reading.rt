//! That the readers run at once: two of them wait for each other at their calls of both kinds.
use mst_load::{Gate, load};
use std::alloc::AllocGlobal;
use std::hint;
use std::sync::Wait;
use std::sync::atomic::Ordering::SeqCst;
use std::sync::atomic::{AtomicBool, AtomicU32};
use std::thread::Threads;

/// How many turns a reader is held at most.
const TURNS: u32 = 50_000_000;

/// What a reader told: the numbers of the last calls that it entered and that it had an answer of.
#[derive(Drop)]
struct Told {
    entered: AtomicU32,
    answered: AtomicU32,
    out_of_turn: AtomicBool,
}

impl Told {
    fn new() -> Told {
        Told {
            entered: AtomicU32::new(0),
            answered: AtomicU32::new(0),
            out_of_turn: AtomicBool::new(false),
        }
    }

    // A call is entered when the one before it was entered and answered.
    fn enter(&self, call: u32) {
        let before = call.wrapping_sub(1);
        if self.answered.load(SeqCst) != before || self.entered.swap(call, SeqCst) != before {
            self.out_of_turn.store(true, SeqCst);
        }
    }

    // A call is answered when it was entered, and the one before it answered.
    fn answer(&self, call: u32) {
        let before = call.wrapping_sub(1);
        if self.entered.load(SeqCst) != call || self.answered.swap(call, SeqCst) != before {
            self.out_of_turn.store(true, SeqCst);
        }
    }

    // Whether all of this many calls were told, each in its turn.
    fn is_done(&self, calls: u32) -> bool {
        let last = self.entered.load(SeqCst) == calls && self.answered.load(SeqCst) == calls;
        last && !self.out_of_turn.load(SeqCst)
    }
}

/// Holds the first reader's first call, a version, until the second reader has the answer of its
/// own, and the second reader's second call, a value, until the first reader has the answer of its
/// own; the other two calls until the one that waits for them was entered. A hold gives up in the
/// end, and is counted.
///
/// Readers that run one after the other or in turns, on one thread, meet a hold that nobody ends.
#[derive(Drop)]
struct Crossing {
    first: Told,
    second: Told,
    given_up: AtomicU32,
}

impl Crossing {
    // Returns once the count has reached this, or gives up.
    fn hold(&self, count: &AtomicU32, least: u32) {
        for _ in 0..TURNS {
            if count.load(SeqCst) >= least {
                return;
            }
            hint::spin_loop();
        }
        self.given_up.fetch_add(1, SeqCst);
    }
}

// The pass of the writer is the first, those of the readers are the second and the third.
impl Gate for Crossing {
    fn enter(&self, worker: u32, call: u32) {
        if worker == 2 {
            self.first.enter(call);
            if call == 1 {
                self.hold(&self.second.answered, 1);
            } else {
                self.hold(&self.second.entered, 2);
            }
        }
        if worker == 3 {
            self.second.enter(call);
            if call == 1 {
                self.hold(&self.first.entered, 1);
            } else {
                self.hold(&self.first.answered, 2);
            }
        }
    }

    fn answered(&self, worker: u32, call: u32) {
        if worker == 2 {
            self.first.answer(call);
        }
        if worker == 3 {
            self.second.answer(call);
        }
    }
}

// Whether each call was told in its turn, and no hold gave up.
fn is_done(gate: &Crossing) -> bool {
    gate.given_up.load(SeqCst) == 0 && gate.first.is_done(2) && gate.second.is_done(2)
}

// Whether a load behind the gate ends so.
fn overlaps<R: Threads + Wait + AllocGlobal + Sync>(rt: &R, gate: &Crossing) -> bool {
    match load(rt, rt.alloc(), 2, 1, 2, gate) {
        Ok(report) => report.falls == 0 && is_done(gate),
        Err(_) => false,
    }
}

#[test]
fn reads_overlap(rt: HostRuntime) {
    let gate = Crossing {
        first: Told::new(),
        second: Told::new(),
        given_up: AtomicU32::new(0),
    };
    assert!(rt; overlaps(&rt, &gate));
}
