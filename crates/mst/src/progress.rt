//! How far a load is, written line by line while its threads make their calls.
ghost use Rattle.std.specs.Prelude.{◌≡◌, ◌≢◌, ◌↔◌, ◌⊎◌, ◌%◌, true, false};
ghost use Rattle.mst_arguments.specs.Loads.{asks_load};
ghost use Rattle.mst.specs.declared.progress.Watch.TheVariants.{Silent};

use mst_load::Gate;
use std::sync::atomic::AtomicU64;
use std::sync::atomic::Ordering::SeqCst;

/// How many calls return from one line to the next.
const BETWEEN: u64 = 10_000;

// Whether a line is written at this count of calls that returned.
fn is_shown(count: u64) -> bool
    ensures { (result ≡ true) ↔ (count % 10000 ≡ 0) }
{
    count % BETWEEN == 0
}

/// The gate that holds no worker, and writes each 10,000th time how many calls have returned.
///
/// The workers write themselves, each a line by one write, so that two lines may change places. A
/// line that cannot be written is left out.
#[derive(Drop)]
pub struct Progress<E: Eprint> {
    /// Where the lines go.
    pub errors: E,
    answered: AtomicU64,
}

impl<E: Eprint> Progress<E> {
    /// A gate that no worker has called.
    pub fn new(errors: E) -> Progress<E> {
        Progress {
            errors,
            answered: AtomicU64::new(0),
        }
    }
}

impl<E: Eprint> Gate for Progress<E> {
    fn enter(&self, _worker: u32, _call: u32) {}

    fn answered(&self, _worker: u32, _call: u32) {
        let count = self.answered.fetch_add(1, SeqCst).wrapping_add(1);
        if is_shown(count) {
            let _ = eprintln!(self.errors; "calls {count}");
        }
    }
}

// Whether the words ask for a load.
fn ask_load(words: &[&str]) -> bool
    ensures { result ≡ asks_load words.now }
{
    match words {
        [_, name, ..] => *name == "load",
        _ => false,
    }
}

/// Who is told how far a load is.
#[derive(Drop)]
pub enum Watch<E: Eprint> {
    /// Nobody.
    Silent,
    /// Somebody who looks on.
    Shown(Progress<E>),
}

impl<E: Eprint + Drop> Watch<E> {
    /// A user is told if the words ask for a load and its errors go to a terminal, and otherwise
    /// nobody.
    pub fn of(words: &[&str], is_terminal: bool, errors: E) -> Watch<E>
        ensures silent { (is_terminal ≡ false) ⊎ (asks_load words.now ≡ false) → result ≡ Silent }
        ensures shown { is_terminal ≡ true → asks_load words.now ≡ true → result ≢ Silent }
    {
        if is_terminal && ask_load(words) {
            Watch::Shown(Progress::new(errors))
        } else {
            Watch::Silent
        }
    }
}

impl<E: Eprint> Gate for Watch<E> {
    fn enter(&self, _worker: u32, _call: u32) {}

    fn answered(&self, worker: u32, call: u32) {
        match self {
            Watch::Silent => {}
            Watch::Shown(progress) => progress.answered(worker, call),
        }
    }
}
