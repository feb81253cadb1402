//! Bytes that wait before a sink.
ghost use Rattle.std.specs.Prelude.{◌≡◌, ◌≢◌, ◌++◌, [], ◌<◌, ◌≤◌, ◌^◌, ◌-◌, ◌⊎◌, length, if◌then◌else◌, IfOk, OnOk, OnErr};
ghost use Rattle.mst_devices.specs.Device.{Puts, Breaks};

use crate::{Device, Sink};
use std::alloc::{AllocError, Allocator};
use std::marker::Model;

/// How many bytes wait at most.
const ROOM: usize = 65_536;

/// Bytes that wait before a sink. It is the caller's to name the same sink each time.
#[derive(Drop)]
pub struct Pending<A: Allocator> {
    bytes: Vec<u8, A>,
}

/// Contracts see the list of the bytes that wait.
impl<A: Allocator> Model for Pending<A> {
    ghost use Rattle.std.specs.Prelude.{List, ℕ, ◌≤◌, length};

    ghost Value = { List ℕ };

    ghost view = { λ p. p.bytes.items };

    ghost invariant = { λ p. length p.bytes.items ≤ 65536 };
}

/// Writes all the bytes, in as many writes as the sink needs.
pub fn write_all<W: Sink>(sink: &mut W, bytes: &[u8]) -> Result<(), Device>
    requires { W.failures sink.old < 2 ^ 64 - 1 }
    ensures ok { OnOk result (W.takes sink.old bytes.now sink.new) }
    ensures steady { OnOk result (W.failures sink.new ≡ W.failures sink.old) }
    ensures err { OnErr result (Breaks W.takes sink.old [] bytes.now sink.new) }
    ensures failed { OnErr result (W.failures sink.old < W.failures sink.new) }
    ensures some { OnErr result (bytes.now ≢ []) }
{
    let mut at = 0;
    while at < bytes.len() {
        let (_, rest) = bytes.split_at(at);
        at += sink.write(rest)?;
    }
    Ok(())
}

impl<A: Allocator> Pending<A> {
    /// Takes all the memory, so that nothing waits yet.
    pub fn new(alloc: A) -> Result<Pending<A>, AllocError>
        ensures empty { IfOk result (λ p. p ≡ []) }
    {
        let bytes = Vec::with_capacity(alloc, ROOM)?;
        Ok(Pending { bytes })
    }

    /// Writes what waits. After an error all of it still waits, though the sink may have taken a
    /// beginning of it.
    pub fn flush<W: Sink>(&mut self, sink: &mut W) -> Result<(), Device>
        requires { W.failures sink.old < 2 ^ 64 - 1 }
        ensures ok { OnOk result (W.takes sink.old self.old sink.new) }
        ensures empty { OnOk result (self.new ≡ []) }
        ensures steady { OnOk result (W.failures sink.new ≡ W.failures sink.old) }
        ensures err { OnErr result (Breaks W.takes sink.old self.old [] sink.new) }
        ensures failed { OnErr result (W.failures sink.old < W.failures sink.new) }
        ensures some { OnErr result (self.old ≢ []) }
        ensures kept { OnErr result (self.new ≡ self.old) }
        ensures few { length self.new ≤ 65536 }
    {
        write_all(sink, self.bytes.as_slice())?;
        self.bytes.clear();
        Ok(())
    }

    // Whether there was room for the text, which then waits after the rest.
    fn append(&mut self, text: &[u8]) -> bool
        ensures waits { self.new ≡ (if result then self.old ++ text.now else self.old) }
        ensures few { length self.new ≤ 65536 }
    {
        if ROOM - self.bytes.len() < text.len() {
            return false;
        }
        self.bytes.extend_from_slice(text).is_ok()
    }

    /// Puts a text after what waits, at most 65,536 bytes. If there is no room for it, what waits
    /// is written first. After an error the same waits as before, or nothing if all of it was
    /// written.
    pub fn put<W: Sink>(&mut self, sink: &mut W, text: &[u8]) -> Result<(), Device>
        requires { W.failures sink.old < 2 ^ 64 - 1 }
        ensures ok { OnOk result (Puts W.takes sink.old self.old text.now sink.new self.new) }
        ensures steady { OnOk result (W.failures sink.new ≡ W.failures sink.old) }
        ensures err { OnErr result (Breaks W.takes sink.old self.old text.now sink.new) }
        ensures failed { OnErr result (W.failures sink.old < W.failures sink.new) }
        ensures kept { OnErr result ((self.new ≡ self.old) ⊎ (self.new ≡ [])) }
        ensures few { length self.new ≤ 65536 }
    {
        if self.append(text) {
            return Ok(());
        }
        self.flush(sink)?;
        if self.append(text) {
            return Ok(());
        }
        write_all(sink, text)
    }
}
