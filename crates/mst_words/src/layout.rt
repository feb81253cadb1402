//! Where the words of a table lie, and how many there are.
//!
//! Word 0 is the turn, and word 1 names the current record. Then follow a word DONE for each of the
//! most records that a table can have, the words of these records, and the words of the rows.
ghost use Rattle.std.specs.Prelude.{◌≡◌, ◌<◌};
ghost use Rattle.mst_words.specs.Layout.{record_word, row_word, table_words};

/// The most passes that a table serves.
pub const MOST_PASSES: u32 = 32;

/// The most records that a table has: one for each pass, and two more.
pub const MOST_RECORDS: usize = 34;

/// How many words a record has: the number of its version, the link of its root, the four words
/// of its root digest, and the number of its format.
pub const RECORD_WORDS: usize = 7;

/// The word of a record that has the number of its version.
pub const VERSION_WORD: usize = 0;

/// The word of a record that has the link of its root.
pub const ROOT_LINK_WORD: usize = 1;

/// The first of the four words of a record's root digest.
pub const FIRST_ROOT_DIGEST_WORD: usize = 2;

/// The word of a record that has the number of its format.
pub const FORMAT_WORD: usize = 6;

/// How many words a row has.
pub const ROW_WORDS: usize = 16;

/// The first word of an entry's row.
pub(crate) const ENTRY_TAG: u64 = 1;

/// The word of an entry that has the link of the tree before it.
pub(crate) const CHILD_WORD: usize = 1;

/// The word of an entry that has the link of the entry after it.
pub(crate) const NEXT_WORD: usize = 2;

/// The word of an entry that has the lengths of its key and its value.
pub(crate) const LENGTHS_WORD: usize = 3;

/// The first of the four words of an entry's key.
pub(crate) const FIRST_KEY_WORD: usize = 4;

/// The first of the eight words of an entry's value.
pub(crate) const FIRST_VALUE_WORD: usize = 8;

/// The first of the four words of a head's layer, count and links.
pub(crate) const LAYER_WORD: usize = 1;

/// The first of the four words of a head's digest.
pub(crate) const FIRST_DIGEST_WORD: usize = 5;

/// The place of the turn: 0, or the number of the pass that has it.
pub(crate) const TURN: usize = 0;

/// The place of the word of the current record: its number * `MASKS` + the mask of its pins.
pub(crate) const CURRENT: usize = 1;

/// How many masks of passes there are: 2^32.
pub const MASKS: u64 = 4_294_967_296;

/// The place of the word DONE of record 0.
pub(crate) const FIRST_DONE: usize = 2;

/// The place of the first word of record 0.
const FIRST_RECORD: usize = FIRST_DONE + MOST_RECORDS;

/// The place of the first word of the digest in record 0.
pub(crate) const FIRST_DIGEST: usize = FIRST_RECORD + FIRST_ROOT_DIGEST_WORD;

/// The place of the word of the format in record 0.
pub(crate) const FIRST_FORMAT: usize = FIRST_RECORD + FORMAT_WORD;

/// How many words lie unused after the records. With them the words of the first row begin where a
/// cache line of 64 bytes does, if the table begins 16 bytes after such a place. With glibc's
/// allocator each table of 128 KiB or more does, and of smaller ones some do.
const SPARE_WORDS: usize = 4;

/// The place of the first word of the first row.
pub(crate) const FIRST_ROW: usize = FIRST_RECORD + MOST_RECORDS * RECORD_WORDS + SPARE_WORDS;

/// The place of word k of a record.
pub const fn record_word(which: u32, k: usize) -> usize
    requires there { k < RECORD_WORDS }
    ensures place { result ≡ record_word which k }
{
    which as usize * RECORD_WORDS + k + FIRST_RECORD
}

/// The place of word k of a row, in a table of so many rows. The words of rows lie in three lanes:
/// words 1 to 4 of all rows, then words 5 to 11 and 0, and then words 12 to 15. A search loads
/// those of the first lane, mostly, so a cache line that it loads has them of two rows.
#[inline(always)]
pub const fn row_word(rows: u32, row: u32, k: usize) -> usize
    requires there { k < ROW_WORDS }
    ensures place { result ≡ row_word rows row k }
{
    let rows = rows as usize;
    let row = row as usize;
    if k < 1 {
        rows * 4 + row * 8 + 7 + FIRST_ROW
    } else if k < 5 {
        row * 4 + (k - 1) + FIRST_ROW
    } else if k < 12 {
        rows * 4 + row * 8 + (k - 5) + FIRST_ROW
    } else {
        rows * 12 + row * 4 + (k - 12) + FIRST_ROW
    }
}

/// How many words a table with so many rows has.
pub const fn table_words(rows: u32) -> usize
    ensures count { result ≡ table_words rows }
{
    rows as usize * ROW_WORDS + FIRST_ROW
}
