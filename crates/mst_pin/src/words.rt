//! The words that passes and writer share, and what the writer holds between a publish and its
//! transfer.
ghost use Rattle.std.specs.Prelude.{◌≡◌, ◌<◌, ◌≤◌, ◌^◌, ◌-◌, None, slice_index, slice_set, replicate, bit_xor};
ghost use Rattle.mst_pin.specs.WordParts.{record_of, mask_of};

use crate::RECORDS;

/// The mask that a publish brought back, of the record that was current before.
#[derive(Clone, Copy)]
pub struct Returned {
    pub from: usize,
    pub mask: u64,
}

#[derive(Clone, Copy)]
pub struct Words {
    /// CURRENT: the current record's number * 2^32 + a mask of passes.
    pub current: u64,
    /// DONE of each record: a mask of passes.
    pub done: [u64; RECORDS],
    pub returned: Option<Returned>,
}

/// The bit of a pass in a mask.
pub fn pass_bit(pass: u8) -> u64
    requires first { 0 < pass }
    requires last { pass ≤ 32 }
    ensures { result ≡ 2 ^ (pass - 1) }
{
    1 << (pass - 1)
}

/// The record number of a word CURRENT.
pub fn record_of(word: u64) -> usize
    ensures { result ≡ record_of word }
{
    (word >> 32) as usize
}

/// The mask of a word CURRENT.
pub fn mask_of(word: u64) -> u64
    ensures { result ≡ mask_of word }
{
    word & 0xffff_ffff
}

impl Words {
    ghost use Rattle.mst_pin.specs.Words.{pinned_mask};

    /// Record 0 is current, and nothing is pinned.
    pub fn new() -> Words
        ensures { result ≡ record { current = 0; done = replicate 34 0; returned = None } }
    {
        Words {
            current: 0,
            done: [0; RECORDS],
            returned: None,
        }
    }

    /// The number of the current record.
    pub fn record(&self) -> usize
        ensures { result ≡ record_of self.now.current }
    {
        record_of(self.current)
    }

    /// The passes that pin a record: the mask that counts there, xor DONE.
    pub fn pinned(&self, number: usize) -> u64
        requires { number < RECORDS }
        ensures { result ≡ pinned_mask self.now number }
    {
        let mask = if number == self.record() {
            mask_of(self.current)
        } else {
            match self.returned {
                Some(due) if due.from == number => due.mask,
                _ => 0,
            }
        };
        mask ^ self.done[number]
    }

    /// One xor into CURRENT: returns the word from before.
    pub fn xor_current(&mut self, bits: u64) -> u64
        ensures before { result ≡ self.old.current }
        ensures after { self.new ≡ record self.old { current = bit_xor self.old.current bits } }
    {
        let before = self.current;
        self.current ^= bits;
        before
    }

    /// One swap of CURRENT: returns the word from before.
    pub fn swap_current(&mut self, word: u64) -> u64
        ensures before { result ≡ self.old.current }
        ensures after { self.new ≡ record self.old { current = word } }
    {
        let before = self.current;
        self.current = word;
        before
    }

    /// One xor into a record's DONE.
    pub fn xor_done(&mut self, number: usize, bits: u64)
        requires { number < RECORDS }
        ensures { let done = self.old.done in
            self.new ≡ record self.old {
              done = slice_set done number (bit_xor (slice_index done number) bits);
            } }
    {
        self.done[number] ^= bits;
    }
}
