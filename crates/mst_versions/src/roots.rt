//! The words of a record.
ghost use Rattle.std.specs.Prelude.{◌≡◌, ◌<◌, ◌≤◌, ℕ, length};
ghost use Rattle.mst_arena.specs.Limits.{highest_link};
ghost use Rattle.mst_arena.specs.Lists.{In};
ghost use Rattle.mst_words.specs.Access.{with_words};
ghost use Rattle.mst_words.specs.Layout.{most_records, record_words, first_row, record_word};
ghost use Rattle.mst_words.specs.Records.{field};
ghost use Rattle.mst_key.specs.declared.format.Format.{Format};
ghost use Rattle.mst_words.specs.Stored.{root_in, format_number};
ghost use Rattle.mst_words.specs.Steps.{IsReadable, IsHolder};
ghost use Rattle.mst_versions.specs.Filing.{IsFiled, OthersKept};

use mst_arena::Root;
use mst_key::Format;
use mst_words::layout::{
    FIRST_ROOT_DIGEST_WORD, FORMAT_WORD, RECORD_WORDS, ROOT_LINK_WORD, VERSION_WORD, record_word,
};
use mst_words::{PassSeat, format_number, format_of};
use std::alloc::Allocator;

// Word k of a record: one load.
fn field<A: Allocator + Copy>(seat: &mut PassSeat<'_, A>, which: u32, k: usize) -> u64
    requires there { (which < most_records) × (k < record_words) }
    requires readable { (j : ℕ) → j < record_words
        → IsReadable seat.old.me.0 (record_word which j) }
    ensures word { result ≡ field seat.old.me.0.known_words which k }
    ensures same { seat.new ≡ seat.old }
{
    seat.load(record_word(which, k))
}

/// The version number and the root of a record.
pub(crate) fn read_root<A: Allocator + Copy>(seat: &mut PassSeat<'_, A>, which: u32) -> (u64, Root)
    requires there { which < most_records }
    requires readable { (k : ℕ) → k < record_words
        → IsReadable seat.old.me.0 (record_word which k) }
    requires link { field seat.old.me.0.known_words which 1 ≤ highest_link }
    ensures version { result.0 ≡ field seat.old.me.0.known_words which 0 }
    ensures root { result.1 ≡ root_in (field seat.old.me.0.known_words which) }
    ensures same { seat.new ≡ seat.old }
{
    let version = field(seat, which, VERSION_WORD);
    let words = [
        field(seat, which, ROOT_LINK_WORD),
        field(seat, which, FIRST_ROOT_DIGEST_WORD),
        field(seat, which, FIRST_ROOT_DIGEST_WORD + 1),
        field(seat, which, FIRST_ROOT_DIGEST_WORD + 2),
        field(seat, which, FIRST_ROOT_DIGEST_WORD + 3),
    ];
    (version, Root::read(&words))
}

/// The version number and the link of a record.
pub(crate) fn read_link<A: Allocator + Copy>(seat: &mut PassSeat<'_, A>, which: u32) -> (u64, u32)
    requires there { which < most_records }
    requires readable { (k : ℕ) → k < record_words
        → IsReadable seat.old.me.0 (record_word which k) }
    requires link { field seat.old.me.0.known_words which 1 ≤ highest_link }
    ensures version { result.0 ≡ field seat.old.me.0.known_words which 0 }
    ensures link { result.1 ≡ field seat.old.me.0.known_words which 1 }
    ensures same { seat.new ≡ seat.old }
{
    let version = field(seat, which, VERSION_WORD);
    let link = field(seat, which, ROOT_LINK_WORD);
    (version, link as u32)
}

/// The root digest of a record.
pub(crate) fn read_digest<A: Allocator + Copy>(seat: &mut PassSeat<'_, A>, which: u32) -> [u8; 32]
    requires there { which < most_records }
    requires readable { (k : ℕ) → k < record_words
        → IsReadable seat.old.me.0 (record_word which k) }
    ensures digest { result ≡ (root_in (field seat.old.me.0.known_words which)).digest }
    ensures same { seat.new ≡ seat.old }
{
    let first = field(seat, which, FIRST_ROOT_DIGEST_WORD);
    let second = field(seat, which, FIRST_ROOT_DIGEST_WORD + 1);
    let third = field(seat, which, FIRST_ROOT_DIGEST_WORD + 2);
    let last = field(seat, which, FIRST_ROOT_DIGEST_WORD + 3);
    Root::read(&[0, first, second, third, last]).digest
}

/// The format of a record's version.
pub(crate) fn read_format<A: Allocator + Copy>(seat: &mut PassSeat<'_, A>, which: u32) -> Format
    requires there { which < most_records }
    requires readable { (k : ℕ) → k < record_words
        → IsReadable seat.old.me.0 (record_word which k) }
    ensures format { (f : Format) → field seat.old.me.0.known_words which 6 ≡ format_number f
        → result ≡ f }
    ensures same { seat.new ≡ seat.old }
{
    format_of(field(seat, which, FORMAT_WORD))
}

// Stores the seven words of a drained record.
fn store_all<A: Allocator + Copy>(
    seat: &mut PassSeat<'_, A>,
    which: u32,
    words: &[u64; RECORD_WORDS],
)
    requires there { which < most_records }
    requires holder { IsHolder seat.old.me }
    requires drained { In which seat.old.me.0.drained }
    requires wide { first_row ≤ length seat.old.me.0.known_words }
    ensures kept { seat.new ≡ with_words seat.new.me.0.known_words seat.old }
    ensures stored { IsFiled which record_words words.now
        seat.old.me.0.known_words seat.new.me.0.known_words }
{
    for k in 0..RECORD_WORDS {
        seat.store(record_word(which, k), words[k]);
    }
}

/// Stores the version number, the root and the format of a drained record: a store for each of its
/// seven words.
pub fn write_root<A: Allocator + Copy>(
    seat: &mut PassSeat<'_, A>,
    which: u32,
    version: u64,
    root: &Root,
    format: Format,
)
    requires there { which < most_records }
    requires holder { IsHolder seat.old.me }
    requires drained { In which seat.old.me.0.drained }
    requires wide { first_row ≤ length seat.old.me.0.known_words }
    ensures kept { seat.new ≡ with_words seat.new.me.0.known_words seat.old }
    ensures version { field seat.new.me.0.known_words which 0 ≡ version }
    ensures root { root_in (field seat.new.me.0.known_words which) ≡ root.now }
    ensures number { field seat.new.me.0.known_words which 6 ≡ format_number format }
    ensures others { OthersKept which seat.old.me.0.known_words seat.new.me.0.known_words }
{
    let [link, first, second, third, last] = root.words();
    let number = format_number(format);
    store_all(
        seat,
        which,
        &[version, link, first, second, third, last, number],
    );
}
