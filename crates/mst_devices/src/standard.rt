//! Standard input and output.
ghost use Rattle.std.specs.Prelude.{◌≡◌, ◌<◌, ◌++◌, false, Some, length, min};
ghost use Rattle.mst_devices.specs.Device.{GaveKnown, TookKnown, Written, left_of};
ghost use Rattle.mst_devices.specs.Laws.{gave_none, gave_more, gave_within, appended_none, appended_more};

use crate::{Device, Sink, Source};
use std::io::{Read, Write};
use std::marker::Model;

/// Standard input, which is taken for ended after 2^64 - 1 bytes.
#[derive(Drop)]
pub struct StdSource<R: Read> {
    input: R,
    left: u64,
    has_ended: bool,
    failures: u64,
}

/// Contracts see how many bytes are left at most, whether the end was reached, how many reads have
/// failed, and what std knows of the bytes that are left.
impl<R: Read> Model for StdSource<R> {
    ghost use Rattle.mst_devices.specs.Device.{Counted};

    ghost Value = { Counted };

    ghost view = { λ s. record {
      left = s.left;
      has_ended = s.has_ended;
      failures = s.failures;
      known = R.remaining s.input;
    } };
}

impl<R: Read> StdSource<R> {
    /// A source over standard input. If std knows its bytes, and they are fewer than 2^64 - 1, all
    /// of them are given up to the end.
    pub fn new(input: R) -> StdSource<R>
        ensures fresh { result ≡ record {
          left = u64.MAX;
          has_ended = false;
          failures = 0;
          known = R.remaining input;
        } }
        ensures whole { (xs given : _) (last : _) → R.remaining input ≡ Some xs
            → length xs < u64.MAX → GaveKnown result given last → left_of last ≡ 0 → given ≡ xs }
    {
        StdSource {
            input,
            left: u64::MAX,
            has_ended: false,
            failures: 0,
        }
    }

    // How many bytes are read at most into so much room.
    fn most(&self, room: usize) -> usize
        ensures { result ≡ min (left_of self.now) room }
    {
        if self.has_ended {
            return 0;
        }
        usize::try_from(self.left).unwrap_or(usize::MAX).min(room)
    }
}

// What a reader gives is known as far as std knows it: of a terminal or a pipe only how many bytes.
impl<R: Read> Source for StdSource<R> {
    ghost gives = { λ s xs t. GaveKnown s xs t };

    ghost left = { λ s. left_of s };

    ghost failures = { λ s. s.failures };

    fn read(&mut self, buffer: &mut [u8]) -> Result<usize, Device> {
        let most = self.most(buffer.len());
        if most == 0 {
            return Ok(0);
        }
        match self.input.read(&mut buffer[..most]) {
            Ok(0) => {
                self.has_ended = true;
                Ok(0)
            }
            Ok(count) => {
                self.left -= count as u64;
                Ok(count)
            }
            Err(_) => {
                self.failures += 1;
                Err(Device)
            }
        }
    }

    ghost gives_none = { λ s. gave_none s };

    ghost gives_more = { λ s t u xs ys a b. gave_more s t u xs ys a b };

    ghost gives_within = { λ s t xs a. gave_within s t xs a };
}

/// Standard output or standard error. Nothing is kept back: each write goes to the system.
#[derive(Drop)]
pub struct StdSink<W: Write> {
    output: W,
    failed_writes: u64,
}

impl<W: Write> StdSink<W> {
    /// A sink over one of the two standard outputs. If std knows the writer's bytes, the writer
    /// holds what it held before, and after that all that the sink took.
    pub fn new(output: W) -> StdSink<W>
        ensures fresh { result ≡ record { failures = 0; known = W.contents output } }
        ensures whole { (held taken : _) (last : Written) → W.contents output ≡ Some held
            → TookKnown result taken last → last.known ≡ Some (held ++ taken) }
    {
        StdSink {
            output,
            failed_writes: 0,
        }
    }
}

/// Contracts see how many writes have failed, and what std knows of the bytes that the writer
/// holds.
impl<W: Write> Model for StdSink<W> {
    ghost use Rattle.mst_devices.specs.Device.{Written};

    ghost Value = { Written };

    ghost view = { λ s. record { failures = s.failed_writes; known = W.contents s.output } };
}

// What a writer took is known as far as std knows it: of a terminal or a pipe nothing.
impl<W: Write> Sink for StdSink<W> {
    ghost takes = { λ s xs t. TookKnown s xs t };

    ghost failures = { λ s. s.failures };

    fn write(&mut self, bytes: &[u8]) -> Result<usize, Device> {
        match self.output.write(bytes) {
            Ok(0) | Err(_) => {
                self.failed_writes += 1;
                Err(Device)
            }
            Ok(count) => Ok(count),
        }
    }

    ghost takes_none = { λ s. appended_none s.known };

    ghost takes_more = { λ s t u xs ys a b. appended_more s.known t.known u.known xs ys a b };
}
