//! What bytes are read from, and what they are written to.
//!
//! ```
//! let mut source = BytesSource::new(b"abc");
//! let mut buffer = [0; 2];
//! source.read(&mut buffer)?                      // 2, and the buffer has "ab"
//! let mut sink = BytesSink::new(alloc, 100)?;    // takes 100 bytes and no more
//! let mut pending = Pending::new(alloc)?;
//! pending.put(&mut sink, b"xyz")?;               // waits
//! pending.flush(&mut sink)?;
//! sink.bytes()                                   // "xyz"
//! ```
//!
//! A failure is returned, and raises a count that contracts see; a device that failed may be asked
//! again. No contract can say what a terminal gives or takes: of [`StdSource`] and [`StdSink`] it
//! is known which reads and writes failed, and the bytes if std knows them.
#![tactic(auto)]

ghost use Rattle.std.specs.Prelude.{◌≡◌, ℕ, ◌+◌, ◌-◌, ◌^◌, ◌<◌, ◌≤◌, List, [], ◌++◌, length, IfOk, OnOk, OnErr};
ghost use Rattle.mst_devices.specs.Device.{Gave, Took};

mod bytes;
mod pending;
mod standard;

pub use bytes::{BytesSink, BytesSource};
pub use pending::{Pending, write_all};
pub use standard::{StdSink, StdSource};
use thiserror::Error;

/// A read or a write failed.
#[derive(Clone, Copy, Debug, PartialEq, Eq, Error)]
#[error("a device failed")]
pub struct Device;

/// What bytes are read from. It ends: `left` is how many bytes it gives at most.
pub trait Source {
    // From the one state to the other it gave these bytes.
    ghost gives: { Self → List ℕ → Self → Type 0 };

    // How many bytes it gives at most from here on.
    ghost left: { Self → ℕ };

    // How many reads have failed.
    ghost failures: { Self → ℕ };

    /// Reads some bytes into the front of the buffer, and says how many: 0 at the end.
    fn read(&mut self, buffer: &mut [u8]) -> Result<usize, Device>
        requires room { 0 < length buffer.old }
        requires few { failures self.old < 2 ^ 64 - 1 }
        ensures ok { IfOk result (λ n. Gave gives left self.old buffer.new n self.new) }
        ensures steady { OnOk result (failures self.new ≡ failures self.old) }
        ensures err { OnErr result (gives self.old [] self.new × (left self.new ≤ left self.old)) }
        ensures failed { OnErr result (failures self.old < failures self.new) };

    ghost gives_none: { (s : Self) → gives s [] s };

    ghost gives_more: { (s t u : Self) (xs ys : List ℕ)
        → gives s xs t → gives t ys u → gives s (xs ++ ys) u };

    // What it gives is of what it had left.
    ghost gives_within: { (s t : Self) (xs : List ℕ) → gives s xs t → length xs + left t ≤ left s };
}

/// What bytes are written to.
pub trait Sink {
    // From the one state to the other it took these bytes.
    ghost takes: { Self → List ℕ → Self → Type 0 };

    // How many writes have failed.
    ghost failures: { Self → ℕ };

    /// Writes some bytes of the front, at least one, and says how many. A write of none is a
    /// failure.
    fn write(&mut self, bytes: &[u8]) -> Result<usize, Device>
        requires room { 0 < length bytes.now }
        requires few { failures self.old < 2 ^ 64 - 1 }
        ensures ok { IfOk result (λ n. Took takes self.old bytes.now n self.new) }
        ensures steady { OnOk result (failures self.new ≡ failures self.old) }
        ensures err { OnErr result (takes self.old [] self.new) }
        ensures failed { OnErr result (failures self.old < failures self.new) };

    ghost takes_none: { (s : Self) → takes s [] s };

    ghost takes_more: { (s t u : Self) (xs ys : List ℕ)
        → takes s xs t → takes t ys u → takes s (xs ++ ys) u };
}
