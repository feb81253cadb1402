//! The answer to a line.
ghost use Rattle.std.specs.Prelude.{◌≡◌, ◌≤◌, ◌<◌, ◌*◌, ◌+◌, ◌-◌, ◌^◌, ◌++◌, length, codes, decimal, OnOk, OnErr};
ghost use Rattle.mst_devices.specs.Device.{Puts, Breaks};
ghost use Rattle.hex.specs.Hex.{encode_lower};
ghost use Rattle.mst_key.specs.Digits.{digits_of};
ghost use Rattle.mst_requests.specs.Texts.{fault_words as words_of_fault, line_of, pair_words, pair_lines, pinned_words, rows_words, format_words as words_of_format, was_words as words_of_was};
ghost use Rattle.mst_requests.specs.Answers.{first_words, text_of};

use crate::request::Fault;
use arrayvec::ArrayVec;
use itoa::Buffer;
use mst_devices::{Device, Pending, Sink};
use mst_key::{Format, Key, Memory, Value};
use std::alloc::Allocator;

/// The answer to a line.
#[derive(Drop)]
pub enum Answer<A: Allocator> {
    /// The line's fault.
    Refused(Fault),
    /// The value that a key has, or had.
    Value(Option<Value>),
    /// The pair that was found.
    Pair(Option<(Key, Value)>),
    /// All pairs that were found.
    Pairs(Vec<(Key, Value), A>),
    /// The root digest.
    Root([u8; 32]),
    /// The number of the version that is pinned.
    Pinned(u64),
    /// The pin was ended.
    Unpinned,
    /// How many rows the map takes; none if they are held.
    Rows(Option<u32>),
    /// The format of the tree.
    Format(Format),
    /// The format that a migration left.
    Was(Format),
    /// A batch was made.
    Done,
    /// Bytes of a format: a proof, or the text of a node.
    Bytes(Vec<u8, A>),
    /// The map is empty, so it has no node.
    NoNode,
    /// Another pass has the turn.
    Busy,
    /// The last version was made.
    Spent,
    /// The map would have no room.
    NoRoom,
    /// The memory for what is found was refused.
    Memory(Memory),
}

/// A line of an answer: the longest is `pair ` with the 64 digits of a key, a blank, the 128 digits
/// of a value and the newline.
pub type Text = ArrayVec<u8, 208>;

/// Of how many bytes the digits are put at a time; they fit a `Text`.
const PIECE: usize = 64;

// The words of a fault.
fn fault_words(fault: Fault) -> &'static [u8]
    ensures words { result.now ≡ words_of_fault fault }
    ensures small { length result.now ≤ 9 }
{
    match fault {
        Fault::LongLine => b"fault L1",
        Fault::NoPass => b"fault L2",
        Fault::NoCommand => b"fault L3",
        Fault::FieldCount => b"fault L4",
        Fault::BadField => b"fault L5",
        Fault::KeySize => b"keysize",
        Fault::ValueSize => b"valuesize",
        Fault::Pinning => b"fault L6",
    }
}

// The words that name a format.
fn format_words(format: Format) -> &'static [u8]
    ensures words { result.now ≡ words_of_format format }
    ensures small { length result.now ≤ 9 }
{
    match format {
        Format::One => b"format 1",
        Format::Two => b"format 2",
    }
}

// The words that name the format that was left.
fn was_words(format: Format) -> &'static [u8]
    ensures words { result.now ≡ words_of_was format }
    ensures small { length result.now ≤ 9 }
{
    match format {
        Format::One => b"was 1",
        Format::Two => b"was 2",
    }
}

/// Appends bytes that fit.
pub fn extend(text: &mut Text, bytes: &[u8])
    requires { length text.old.items + length bytes.now ≤ 208 }
    ensures { text.new.items ≡ text.old.items ++ bytes.now }
{
    let _ = text.try_extend_from_slice(bytes);
}

// Appends two digits for each byte.
fn extend_hex(text: &mut Text, bytes: &[u8])
    requires few { length bytes.now ≤ 64 }
    requires room { length text.old.items + 2 * length bytes.now < 208 }
    ensures digits { text.new.items ≡ text.old.items ++ encode_lower bytes.now }
    ensures size { length text.new.items ≡ length text.old.items + 2 * length bytes.now }
{
    let count = 2 * bytes.len();
    let mut digits = [0; 128];
    let _ = hex::encode_to_slice(bytes, &mut digits[..count]);
    extend(text, &digits[..count]);
}

// Appends the digits of bytes, `-` for none.
fn extend_digits(text: &mut Text, bytes: &[u8])
    requires few { length bytes.now ≤ 64 }
    requires room { length text.old.items + 2 * length bytes.now < 208 }
    ensures digits { text.new.items ≡ text.old.items ++ digits_of bytes.now }
    ensures small { length text.new.items ≤ length text.old.items + 2 * length bytes.now + 1 }
{
    if bytes.is_empty() {
        extend(text, b"-");
        return;
    }
    extend_hex(text, bytes);
}

// Appends the digits of a digest.
fn extend_digest(text: &mut Text, digest: &[u8; 32])
    requires { length text.old.items ≡ 0 }
    ensures digits { text.new.items ≡ text.old.items ++ digits_of digest.now }
    ensures small { length text.new.items ≤ 65 }
{
    extend_digits(text, digest.as_slice());
}

// Appends the words of a pair.
fn extend_pair(text: &mut Text, key: &Key, value: &Value)
    requires { length text.old.items ≡ 0 }
    ensures pair { text.new.items ≡ text.old.items ++ pair_words (key.now, value.now) }
    ensures small { length text.new.items ≤ 207 }
{
    extend(text, b"pair ");
    extend_digits(text, key.bytes());
    extend(text, b" ");
    extend_digits(text, value.bytes());
}

// Appends the words that say how many pairs there are.
fn extend_count(text: &mut Text, count: usize)
    requires { length text.old.items ≡ 0 }
    ensures count { text.new.items ≡ text.old.items ++ codes "pairs " ++ decimal count }
    ensures small { length text.new.items ≤ 100 }
{
    let mut buffer = Buffer::new();
    extend(text, b"pairs ");
    extend(text, buffer.format(count).as_bytes());
}

// Appends the words that say which version is pinned.
fn extend_pinned(text: &mut Text, version: u64)
    requires { length text.old.items ≡ 0 }
    ensures pinned { text.new.items ≡ text.old.items ++ pinned_words version }
    ensures small { length text.new.items ≤ 100 }
{
    let mut buffer = Buffer::new();
    extend(text, b"pinned ");
    extend(text, buffer.format(version).as_bytes());
}

// Appends the words that say how many rows the map takes.
fn extend_rows(text: &mut Text, rows: Option<u32>)
    requires { length text.old.items ≡ 0 }
    ensures rows { text.new.items ≡ text.old.items ++ rows_words rows }
    ensures small { length text.new.items ≤ 100 }
{
    let Some(rows) = rows else {
        extend(text, b"held");
        return;
    };
    let mut buffer = Buffer::new();
    extend(text, b"rows ");
    extend(text, buffer.format(rows).as_bytes());
}

// The line of a pair.
fn pair_line(key: &Key, value: &Value) -> Text
    ensures { result.items ≡ line_of (pair_words (key.now, value.now)) }
{
    let mut text = ArrayVec::new();
    extend_pair(&mut text, key, value);
    extend(&mut text, b"\n");
    text
}

// The first line of an answer, without the digits of bytes, which may be many.
fn first_line<A: Allocator>(answer: &Answer<A>) -> Text
    ensures { result.items ≡ line_of (first_words answer.now) }
{
    let mut text = ArrayVec::new();
    match answer {
        Answer::Refused(fault) => extend(&mut text, fault_words(*fault)),
        Answer::Value(None) | Answer::Pair(None) => extend(&mut text, b"none"),
        Answer::Value(Some(value)) => {
            extend(&mut text, b"some ");
            extend_digits(&mut text, value.bytes());
        }
        Answer::Pair(Some((key, value))) => extend_pair(&mut text, key, value),
        Answer::Pairs(pairs) => extend_count(&mut text, pairs.len()),
        Answer::Root(digest) => extend_digest(&mut text, digest),
        Answer::Pinned(version) => extend_pinned(&mut text, *version),
        Answer::Unpinned => extend(&mut text, b"unpinned"),
        Answer::Rows(rows) => extend_rows(&mut text, *rows),
        Answer::Format(format) => extend(&mut text, format_words(*format)),
        Answer::Was(format) => extend(&mut text, was_words(*format)),
        Answer::Done => extend(&mut text, b"done"),
        Answer::Bytes(_) => {}
        Answer::NoNode => extend(&mut text, b"empty"),
        Answer::Busy => extend(&mut text, b"busy"),
        Answer::Spent => extend(&mut text, b"spent"),
        Answer::NoRoom => extend(&mut text, b"noroom"),
        Answer::Memory(_) => extend(&mut text, b"memory"),
    }
    extend(&mut text, b"\n");
    text
}

// Puts a line for each pair.
fn put_pairs<W: Sink, A: Allocator>(
    sink: &mut W,
    pending: &mut Pending<A>,
    pairs: &[(Key, Value)],
) -> Result<(), Device>
    requires { W.failures sink.old < 2 ^ 64 - 1 }
    ensures ok { OnOk result
        (Puts W.takes sink.old pending.old (pair_lines pairs.now) sink.new pending.new) }
    ensures steady { OnOk result (W.failures sink.new ≡ W.failures sink.old) }
    ensures err { OnErr result
        (Breaks W.takes sink.old pending.old (pair_lines pairs.now) sink.new) }
    ensures failed { OnErr result (W.failures sink.old < W.failures sink.new) }
{
    for (key, value) in pairs {
        pending.put(sink, pair_line(key, value).as_slice())?;
    }
    Ok(())
}

// The digits of a piece of bytes.
fn piece_digits(piece: &[u8]) -> Text
    requires { length piece.now ≤ 64 }
    ensures { result.items ≡ encode_lower piece.now }
{
    let mut text = ArrayVec::new();
    extend_hex(&mut text, piece);
    text
}

// Puts the digits of bytes, piece by piece.
fn put_digits<W: Sink, A: Allocator>(
    sink: &mut W,
    pending: &mut Pending<A>,
    bytes: &[u8],
) -> Result<(), Device>
    requires { W.failures sink.old < 2 ^ 64 - 1 }
    ensures ok { OnOk result
        (Puts W.takes sink.old pending.old (encode_lower bytes.now) sink.new pending.new) }
    ensures steady { OnOk result (W.failures sink.new ≡ W.failures sink.old) }
    ensures err { OnErr result
        (Breaks W.takes sink.old pending.old (encode_lower bytes.now) sink.new) }
    ensures failed { OnErr result (W.failures sink.old < W.failures sink.new) }
{
    let mut at = 0;
    while at < bytes.len() {
        let (_, rest) = bytes.split_at(at);
        let (piece, _) = rest.split_at(rest.len().min(PIECE));
        pending.put(sink, piece_digits(piece).as_slice())?;
        at += piece.len();
    }
    Ok(())
}

/// Puts an answer after what waits, line by line.
pub fn put_answer<W: Sink, A: Allocator, B: Allocator>(
    sink: &mut W,
    pending: &mut Pending<A>,
    answer: &Answer<B>,
) -> Result<(), Device>
    requires { W.failures sink.old < 2 ^ 64 - 1 }
    ensures ok { OnOk result
        (Puts W.takes sink.old pending.old (text_of answer.now) sink.new pending.new) }
    ensures steady { OnOk result (W.failures sink.new ≡ W.failures sink.old) }
    ensures err { OnErr result (Breaks W.takes sink.old pending.old (text_of answer.now) sink.new) }
    ensures failed { OnErr result (W.failures sink.old < W.failures sink.new) }
{
    let first = first_line(answer);
    match answer {
        Answer::Pairs(pairs) => {
            pending.put(sink, first.as_slice())?;
            put_pairs(sink, pending, pairs.as_slice())
        }
        Answer::Bytes(bytes) => {
            put_digits(sink, pending, bytes.as_slice())?;
            pending.put(sink, first.as_slice())
        }
        _ => pending.put(sink, first.as_slice()),
    }
}
