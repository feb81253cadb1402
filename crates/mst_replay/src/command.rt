//! What a line asks for.

ghost use Rattle.std.specs.Prelude.{◌≡◌, ◌≢◌, ◌<◌, ◌≤◌, ℕ, Some, IfSome, length, slice_index};
ghost use Rattle.mst_pin.specs.declared.event.Event.TheVariants.{Publish};
ghost use Rattle.mst_replay.specs.declared.command.Command.TheVariants.{Take};

use crate::number::{number, number_after};
use crate::rows::row_set;
use mst_pin::Event;

/// What a line asks for: a new core of this many passes, or an event of the core.
#[derive(Clone, Copy)]
pub enum Command {
    Open(u8),
    Take(Event),
}

ghost use Rattle.mst_replay.specs.Line.{IsSpelt};

/// The command that the line is the text of, if there is one.
pub fn read_command(line: &[u8]) -> Option<Command>
    ensures some { IfSome result (λ command. IsSpelt command line.now) }
    ensures only { (command : Command) → IsSpelt command line.now → result ≡ Some command }
{
    if let Some(passes) = number_after(line, b"passes ") {
        return if 0 < passes && passes <= 32 {
            Some(Command::Open(passes))
        } else {
            None
        };
    }
    if let Some(pass) = number_after(line, b"pin ") {
        return Some(Command::Take(Event::Pin(pass)));
    }
    if let Some(pass) = number_after(line, b"unpin ") {
        return Some(Command::Take(Event::Unpin(pass)));
    }
    if let Some(row) = number_after(line, b"write ") {
        return if row < 64 {
            Some(Command::Take(Event::Write(row)))
        } else {
            None
        };
    }
    if let Some(record) = number_after(line, b"ask ") {
        return Some(Command::Take(Event::Ask(record)));
    }
    if line == b"transfer".as_slice() {
        return Some(Command::Take(Event::Transfer));
    }
    let (into, rows) = publish(line)?;
    Some(Command::Take(Event::Publish { into, rows }))
}

/// The record and the rows of a line `publish R S`.
fn publish(line: &[u8]) -> Option<(u8, u64)>
    ensures some { IfSome result (λ fields. IsSpelt (Take (Publish fields.0 fields.1)) line.now) }
    ensures only { (r rows : ℕ) → IsSpelt (Take (Publish r rows)) line.now
        → result ≡ Some (r, rows) }
{
    let fields = line.strip_prefix(b"publish ")?;
    let blank = first_blank(fields);
    if blank == fields.len() {
        return None;
    }
    let into = number(&fields[..blank])?;
    let rows = row_set(&fields[blank + 1..])?;
    Some((into, rows))
}

/// The index of the first blank, or the length if there is none.
fn first_blank(bytes: &[u8]) -> usize
    ensures within { result ≤ length bytes.now }
    ensures before { (k : ℕ) → k < result → slice_index bytes.now k ≢ 32 }
    ensures found { result < length bytes.now → slice_index bytes.now result ≡ 32 }
{
    for (i, byte) in bytes.iter().enumerate() {
        if *byte == b' ' {
            return i;
        }
    }
    bytes.len()
}
