//! The core of pins, which answers the events of a replay.
ghost use Rattle.std.specs.Prelude.{◌≡◌, ◌≤◌, ◌+◌, ◌++◌, length, decimal};
ghost use Rattle.mst_command.specs.Recalling.{reply_text, Recalls};

use arrayvec::ArrayVec;
use itoa::Buffer;
use mst_lines::LineBuffer;
use mst_replay::{Replay, Reply};

/// The line of a reply.
pub type Text = ArrayVec<u8, 144>;

// Appends bytes that fit.
fn extend(text: &mut Text, bytes: &[u8])
    requires { length text.old.items + length bytes.now ≤ 144 }
    ensures { text.new.items ≡ text.old.items ++ bytes.now }
{
    let _ = text.try_extend_from_slice(bytes);
}

// Appends words and a number.
fn extend_numbered(text: &mut Text, words: &[u8], number: u8)
    requires { length text.old.items + length words.now ≤ 100 }
    ensures text { text.new.items ≡ text.old.items ++ words.now ++ decimal number }
    ensures small { length text.new.items ≤ 140 }
{
    let mut buffer = Buffer::new();
    extend(text, words);
    extend(text, buffer.format(number).as_bytes());
}

// A reply as it is written.
#[tactic(auto, unfolding(crate::specs::Recalling::reply_text))]
fn text_of(reply: Reply) -> Text
    ensures { result.items ≡ reply_text reply }
{
    let mut text = ArrayVec::new();
    match reply {
        Reply::Records(count) => extend_numbered(&mut text, b"records ", count),
        Reply::Record(number) => extend_numbered(&mut text, b"record ", number),
        Reply::Done => extend(&mut text, b"done"),
        Reply::Yes => extend(&mut text, b"yes"),
        Reply::No => extend(&mut text, b"no"),
        Reply::Refused => extend(&mut text, b"refused"),
        Reply::FaultLine => extend(&mut text, b"fault line"),
    }
    extend(&mut text, b"\n");
    text
}

/// Answers a line of a replay.
pub fn answer_event(replay: &mut Replay, line: &LineBuffer) -> Text
    ensures { Recalls replay.old line.now result.items replay.new }
{
    match line.bytes() {
        Some(bytes) => text_of(replay.line(bytes)),
        None => text_of(Reply::FaultLine),
    }
}
