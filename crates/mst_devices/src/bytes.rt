//! Devices over memory.
ghost use Rattle.std.specs.Prelude.{◌≡◌, ◌<◌, ◌≤◌, ◌-◌, ◌^◌, ◌++◌, [], length, min, Ok, IfOk, OnOk, OnErr, refl};
ghost use Rattle.mst_devices.specs.Device.{Gave, Took};
ghost use Rattle.mst_devices.specs.Laws.{given_more, given_within, taken_none, taken_more};

use crate::{Device, Sink, Source};
use std::alloc::{AllocError, Allocator};
use std::marker::Model;

/// The bytes of a slice, which are read without a failure.
#[derive(Drop)]
pub struct BytesSource<'a> {
    rest: &'a [u8],
}

/// Contracts see the bytes that are left.
impl<'a> Model for BytesSource<'a> {
    ghost use Rattle.std.specs.Prelude.{List, ℕ};

    ghost Value = { List ℕ };

    ghost view = { λ s. s.rest.now };
}

impl<'a> BytesSource<'a> {
    /// A source that gives these bytes.
    pub fn new(bytes: &'a [u8]) -> BytesSource<'a>
        ensures { result ≡ bytes.now }
    {
        BytesSource { rest: bytes }
    }
}

impl<'a> Source for BytesSource<'a> {
    ghost gives = { λ s xs t. s ≡ xs ++ t };

    ghost left = { λ s. length s };

    ghost failures = { λ _. 0 };

    fn read(&mut self, buffer: &mut [u8]) -> Result<usize, Device>
        requires room { 0 < length buffer.old }
        ensures ok { IfOk result
            (λ n. Gave (λ s xs t. s ≡ xs ++ t) (λ s. length s) self.old buffer.new n self.new) }

        ensures whole { result ≡ Ok (min (length self.old) (length buffer.old)) }
    {
        let count = self.rest.len().min(buffer.len());
        let (front, rest) = self.rest.split_at(count);
        buffer[..count].copy_from_slice(front);
        self.rest = rest;
        Ok(count)
    }

    ghost gives_none = { λ s. refl };

    ghost gives_more = { λ s t u xs ys a b. given_more s t u xs ys a b };

    ghost gives_within = { λ s t xs a. given_within s t xs a };
}

/// Bytes in memory, with room for a number of them. A write with no room left fails.
#[derive(Drop)]
pub struct BytesSink<A: Allocator> {
    bytes: Vec<u8, A>,
    room: usize,
    failures: u64,
}

/// Contracts see the bytes, the room, and how many writes have failed.
impl<A: Allocator> Model for BytesSink<A> {
    ghost use Rattle.std.specs.Prelude.{◌≤◌};
    ghost use Rattle.std.specs.Vec.{vec_capacity};
    ghost use Rattle.mst_devices.specs.Device.{Collected};

    ghost Value = { Collected };

    ghost view = { λ s. record { bytes = s.bytes.items; room = s.room; failures = s.failures } };

    ghost invariant = { λ s. s.room ≤ vec_capacity s.bytes };
}

impl<A: Allocator> BytesSink<A> {
    /// An empty sink with room for this many bytes. All its memory is taken here.
    pub fn new(alloc: A, room: usize) -> Result<BytesSink<A>, AllocError>
        ensures { IfOk result (λ s. s ≡ record { bytes = []; room = room; failures = 0 }) }
    {
        let bytes = Vec::with_capacity(alloc, room)?;
        Ok(BytesSink {
            bytes,
            room,
            failures: 0,
        })
    }

    /// The bytes that were written so far.
    pub fn bytes(&self) -> &[u8]
        ensures { result.now ≡ self.now.bytes }
    {
        self.bytes.as_slice()
    }
}

impl<A: Allocator> Sink for BytesSink<A> {
    ghost takes = { λ s xs t. t.bytes ≡ s.bytes ++ xs };

    ghost failures = { λ s. s.failures };

    fn write(&mut self, bytes: &[u8]) -> Result<usize, Device>
        requires room { 0 < length bytes.now }
        requires few { self.old.failures < 2 ^ 64 - 1 }
        ensures ok { IfOk result
            (λ n. Took (λ s xs t. t.bytes ≡ s.bytes ++ xs) self.old bytes.now n self.new) }
        ensures steady { OnOk result (self.new.failures ≡ self.old.failures) }
        ensures err { OnErr result (self.new.bytes ≡ self.old.bytes ++ []) }
        ensures failed { OnErr result (self.old.failures < self.new.failures) }

        ensures whole { IfOk result
            (λ n. n ≡ min (self.old.room - length self.old.bytes) (length bytes.now)) }
        ensures full { OnErr result (self.old.room ≤ length self.old.bytes) }
        ensures room { self.new.room ≡ self.old.room }
    {
        let blank = self.room.saturating_sub(self.bytes.len());
        if blank == 0 {
            self.failures += 1;
            return Err(Device);
        }
        let count = blank.min(bytes.len());
        let _ = self.bytes.extend_from_slice(&bytes[..count]);
        Ok(count)
    }

    ghost takes_none = { λ s. taken_none s.bytes };

    ghost takes_more = { λ s t u xs ys a b. taken_more s.bytes t.bytes u.bytes xs ys a b };
}
