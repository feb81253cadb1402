//! The words of a new table.
ghost use Rattle.std.specs.Prelude.{◌≡◌, ◌<◌, ◌≤◌, ℕ, [], ◌∷◌, length, replicate, slice_index, IfOk};
ghost use Rattle.mst_node.specs.Text.{digest_of};
ghost use Rattle.mst_arena.specs.Limits.{most_rows};
ghost use Rattle.mst_arena.specs.Words.{bytes_in};
ghost use Rattle.mst_key.specs.declared.format.Format.{Format};
ghost use Rattle.mst_words.specs.Layout.{first_root_digest_word, format_word, record_word, table_words};
ghost use Rattle.mst_words.specs.Records.{field};
ghost use Rattle.mst_words.specs.Stored.{format_number};

use crate::layout::{FIRST_DIGEST, FIRST_FORMAT, table_words};
use crate::view::Shape;
use mst_arena::Root;
use mst_key::{Format, Memory};
use mst_node::empty_digest;
use std::alloc::Allocator;

/// The four words of the digest of the empty text.
fn empty_digest_words() -> [u64; 4]
    ensures bytes { bytes_in result ≡ digest_of [] }
{
    let root = Root {
        link: 0,
        digest: empty_digest(),
    };
    let [_, a, b, c, d] = root.words();
    [a, b, c, d]
}

/// The number of a format, as a record has it.
pub fn format_number(format: Format) -> u64
    ensures number { result ≡ format_number format }
{
    match format {
        Format::One => 1,
        Format::Two => 2,
    }
}

/// The format that a word of a record names.
pub fn format_of(number: u64) -> Format
    ensures format { (f : Format) → number ≡ format_number f → result ≡ f }
{
    if number == 2 {
        Format::Two
    } else {
        Format::One
    }
}

/// So many words of 0.
fn zeros<A: Allocator>(alloc: A, count: usize) -> Result<Vec<u64, A>, Memory>
    ensures ok { IfOk result (λ v. v.items ≡ replicate count 0) }
{
    let mut words = Vec::with_capacity(alloc, count)?;
    for _ in 0..count {
        words.push_reserved(0);
    }
    Ok(words)
}

/// The words of a new table: all of them 0, but for the digest in record 0, which is that of the
/// empty text, and the number of its format. Returns `Memory` if the growth was refused.
pub(crate) fn first_words<A: Allocator>(alloc: A, shape: Shape) -> Result<Vec<u64, A>, Memory>
    requires few { shape.rows ≤ most_rows }
    ensures long { IfOk result (λ v. length v.items ≡ table_words shape.rows) }
    ensures front { IfOk result (λ v. (i : ℕ) → i < record_word 0 first_root_digest_word
        → slice_index v.items i ≡ 0) }
    ensures digest { IfOk result
        (λ v. bytes_in
        (field v.items 0 2 ∷ field v.items 0 3 ∷ field v.items 0 4 ∷ field v.items 0 5 ∷ [])
        ≡ digest_of []) }
    ensures format { IfOk result (λ v. field v.items 0 format_word ≡ format_number shape.format) }
{
    let [a, b, c, d] = empty_digest_words();
    let number = format_number(shape.format);
    let mut words = zeros(alloc, table_words(shape.rows))?;
    words[FIRST_FORMAT] = number;
    words[FIRST_DIGEST] = a;
    words[FIRST_DIGEST + 1] = b;
    words[FIRST_DIGEST + 2] = c;
    words[FIRST_DIGEST + 3] = d;
    Ok(words)
}
