//! What is said of the text of a proof.
ghost use Rattle.std.specs.Prelude.{◌≡◌, ◌≢◌, ◌≤◌, ◌<◌, ◌+◌, ◌*◌, ◌++◌, ◌↔◌, length, IfOk, IsOk, IsTrue, OnErr};
ghost use Rattle.std.specs.List.{list_all};
ghost use Rattle.hex.specs.Hex.{decode_of, is_hex_digit};
ghost use Rattle.hex.specs.declared.error.FromHexError.TheVariants.{OutOfMemory};
ghost use Rattle.mst_key.specs.Digits.{digits_of};
ghost use Rattle.mst_report.specs.Report.{limit, without_newline as up_to_newline, said_by, report_of, fault_words as words_of_fault, sharded_words as words_of_sharded, test_words as words_of_test, part_fault as fault_of_part, line_of, is_refusal};
ghost use Rattle.mst_report.specs.declared.report.Report.TheVariants.{NotHex};
ghost use Rattle.mst_report.specs.declared.report.ProofKind.TheVariants.{Plain, Sharded};

use arrayvec::ArrayVec;
use hex::FromHexError;
use mst_key::{Format, Key, Memory, Value};
use mst_proof::{ProofFault, verify_in};
use mst_sharded_proof::{ShardedFault, verify_sharded};
use std::alloc::Allocator;

/// How many bytes the text of a proof has at most, with the newline at its end.
pub const LIMIT: usize = 33_554_432;

/// A line as it is written. The longest is `present ` with the 128 digits of a value and the
/// newline.
pub type Line = ArrayVec<u8, 144>;

/// Of which maps a proof is.
#[derive(Clone, Copy)]
pub enum ProofKind {
    /// Of a map with one tree, as that of a store.
    Plain,
    /// Of a sharded map: a proof in two parts.
    Sharded,
}

/// What is said of the text of a proof.
#[derive(Drop)]
pub enum Report {
    /// The proof shows this value of the key.
    Present(Value),
    /// The proof shows that the key is absent.
    Absent,
    /// The proof fails this test first.
    Refused(ProofFault),
    /// The proof of a sharded map fails this test first.
    ShardedRefused(ShardedFault),
    /// The text is not an even number of hexadecimal digits.
    NotHex,
    /// The text has more than `LIMIT` bytes.
    Long,
}

/// The text without the newline at its end, if there is one.
fn without_newline(text: &[u8]) -> &[u8]
    ensures front { result.now ≡ up_to_newline text.now }
{
    match text {
        [front @ .., b'\n'] => front,
        _ => text,
    }
}

/// Whether the byte is a hexadecimal digit, in either case.
fn is_digit(byte: u8) -> bool
    ensures digit { result ≡ is_hex_digit byte }
{
    matches!(byte, b'0'..=b'9' | b'A'..=b'F' | b'a'..=b'f')
}

/// Whether each byte is a hexadecimal digit.
fn are_digits(text: &[u8]) -> bool
    ensures all { result ≡ list_all is_hex_digit text.now }
{
    text.iter().all(|byte| is_digit(*byte))
}

/// Whether the text is an even number of hexadecimal digits. It takes no memory.
fn is_hex(text: &[u8]) -> bool
    ensures hex { IsTrue result ↔ IsOk (decode_of text.now) }
{
    if text.len() % 2 != 0 {
        return false;
    }
    are_digits(text)
}

/// What is said of digits that were not decoded.
fn unread(error: FromHexError) -> Result<Report, Memory>
    ensures digits { IfOk result (λ report. (report ≡ NotHex) × (error ≢ OutOfMemory)) }
{
    match Memory::of_digits(error) {
        Some(refused) => Err(refused),
        None => Ok(Report::NotHex),
    }
}

/// What a proof of one tree shows.
fn judge_plain(format: Format, root: &[u8; 32], key: &Key, proof: &[u8]) -> Report
    ensures said { result ≡ said_by Plain format root.now key.now proof.now }
{
    match verify_in(format, root, key, proof) {
        Ok(Some(value)) => Report::Present(value),
        Ok(None) => Report::Absent,
        Err(fault) => Report::Refused(fault),
    }
}

/// What a proof of a sharded map shows.
fn judge_sharded(format: Format, root: &[u8; 32], key: &Key, proof: &[u8]) -> Report
    ensures said { result ≡ said_by Sharded format root.now key.now proof.now }
{
    match verify_sharded(format, root, key, proof) {
        Ok(Some(value)) => Report::Present(value),
        Ok(None) => Report::Absent,
        Err(fault) => Report::ShardedRefused(fault),
    }
}

/// What a proof of this kind shows.
fn judge(kind: ProofKind, format: Format, root: &[u8; 32], key: &Key, proof: &[u8]) -> Report
    ensures said { result ≡ said_by kind format root.now key.now proof.now }
{
    match kind {
        ProofKind::Plain => judge_plain(format, root, key, proof),
        ProofKind::Sharded => judge_sharded(format, root, key, proof),
    }
}

/// What a text says of the key in the map with this root digest in this format: the hexadecimal
/// digits of a proof of this kind, in either case, with at most one newline after them.
///
/// Returns `Memory` only if the room for the proof was refused. A text that is too long, or is not
/// an even number of digits, takes no memory.
pub fn report_on<A: Allocator>(
    alloc: A,
    kind: ProofKind,
    format: Format,
    root: &[u8; 32],
    key: &Key,
    text: &[u8],
) -> Result<Report, Memory>
    ensures report { IfOk result (λ r. r ≡ report_of kind format root.now key.now text.now) }
    ensures within { OnErr result (length text.now ≤ limit) }
    ensures digits { OnErr result (IsOk (decode_of (up_to_newline text.now))) }
{
    if text.len() > LIMIT {
        return Ok(Report::Long);
    }
    let digits = without_newline(text);
    if !is_hex(digits) {
        return Ok(Report::NotHex);
    }
    let proof = match hex::decode(alloc, digits) {
        Ok(proof) => proof,
        Err(error) => return unread(error),
    };
    Ok(judge(kind, format, root, key, proof.as_slice()))
}

/// The name of a fault.
fn fault_words(fault: ProofFault) -> &'static [u8]
    ensures words { result.now ≡ words_of_fault fault }
    ensures size { length result.now ≤ 3 }
{
    match fault {
        ProofFault::FormatByte => b"P1",
        ProofFault::CutShort => b"P2",
        ProofFault::LeftOver => b"P3",
        ProofFault::NoNode => b"P4",
        ProofFault::OtherDigest => b"P5",
        ProofFault::LayerNotBelow => b"P6",
        ProofFault::KeyOutside => b"P7",
        ProofFault::Unfinished => b"P8",
        ProofFault::TextBehind => b"P9",
        ProofFault::OtherValue => b"P10",
    }
}

/// The name of a test of a proof of a sharded map.
fn test_words(fault: ShardedFault) -> &'static [u8]
    ensures words { result.now ≡ words_of_test fault }
    ensures size { length result.now ≤ 2 }
{
    match fault {
        ShardedFault::FormatByte => b"S1",
        ShardedFault::CutShort => b"S2",
        ShardedFault::NoKey => b"S3",
        ShardedFault::Directory(_) => b"S4",
        ShardedFault::NotListed => b"S5",
        ShardedFault::NoListing => b"S6",
        ShardedFault::KeyBelow => b"S7",
        ShardedFault::KeyNotBelow => b"S8",
        ShardedFault::Shard(_) => b"S9",
    }
}

/// The test that a part of the proof fails, if the fault is that of a part.
fn part_fault(fault: ShardedFault) -> Option<ProofFault>
    ensures part { result ≡ fault_of_part fault }
{
    match fault {
        ShardedFault::Directory(part) | ShardedFault::Shard(part) => Some(part),
        _ => None,
    }
}

/// Appends bytes that fit.
fn extend(line: &mut Line, bytes: &[u8])
    requires { length line.old.items + length bytes.now ≤ 144 }
    ensures { line.new.items ≡ line.old.items ++ bytes.now }
{
    let _ = line.try_extend_from_slice(bytes);
}

/// Appends the digits of a value, `-` for none.
fn extend_digits(line: &mut Line, value: &Value)
    requires { length line.old.items ≤ 8 }
    ensures digits { line.new.items ≡ line.old.items ++ digits_of value.now }
    ensures size { length line.new.items ≤ 136 }
{
    let bytes = value.bytes();
    if bytes.is_empty() {
        extend(line, b"-");
        return;
    }
    let count = 2 * bytes.len();
    let mut digits = [0; 128];
    let _ = hex::encode_to_slice(bytes, &mut digits[..count]);
    extend(line, &digits[..count]);
}

/// Appends the name of a fault of a proof of a sharded map: its test, and behind a space that of
/// the part that fails.
fn extend_sharded(line: &mut Line, fault: ShardedFault)
    requires { length line.old.items ≤ 8 }
    ensures words { line.new.items ≡ line.old.items ++ words_of_sharded fault }
    ensures size { length line.new.items ≤ 14 }
{
    extend(line, test_words(fault));
    if let Some(part) = part_fault(fault) {
        extend(line, b" ");
        extend(line, fault_words(part));
    }
}

impl Report {
    /// The report as a line, with its newline: `present` and the value in lower case, `-` if it is
    /// empty; `absent`; `P1` to `P10`; `S1` to `S9`, with a space and one of `P1` to `P10` behind
    /// `S4` and `S9`; `fault hex`; or `fault long`.
    #[tactic(auto, unfolding(crate::specs::Report::line_of))]
    pub fn line(&self) -> Line
        ensures line { result.items ≡ line_of self.now }
    {
        let mut line = ArrayVec::new();
        match self {
            Report::Present(value) => {
                extend(&mut line, b"present ");
                extend_digits(&mut line, value);
            }
            Report::Absent => extend(&mut line, b"absent"),
            Report::Refused(fault) => extend(&mut line, fault_words(*fault)),
            Report::ShardedRefused(fault) => extend_sharded(&mut line, *fault),
            Report::NotHex => extend(&mut line, b"fault hex"),
            Report::Long => extend(&mut line, b"fault long"),
        }
        extend(&mut line, b"\n");
        line
    }

    /// Whether the text proves no answer: true for all but `Present` and `Absent`.
    pub fn is_refusal(&self) -> bool
        ensures refusal { result ≡ is_refusal self.now }
    {
        !matches!(self, Report::Present(_) | Report::Absent)
    }
}
