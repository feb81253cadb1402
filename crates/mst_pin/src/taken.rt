//! Which events are taken: each question about the state, answered from the words.
ghost use Rattle.std.specs.Prelude.{◌≡◌, ◌≢◌, ◌+◌, ◌<◌, ◌↔◌, ℕ, true, IsTrue, IsNone, IsSome, Some};
ghost use Rattle.std.specs.Bool.{OnFalse};

use crate::{Core, Event};

impl Core {
    ghost use Rattle.mst_pin.specs.State.{IsPass, IsRecord, IsRow, IsDrained, IsPinned, IsBlank, AreUsable, IsTaken, IsHeld, row_set};
    ghost use Rattle.mst_pin.specs.Core.{state};

    /// Whether the event is allowed here. One that is not is refused.
    pub(crate) fn is_taken(&self, event: Event) -> bool
        ensures { IsTrue result ↔ IsTaken (state self.now) event }
    {
        match event {
            Event::Pin(pass) => self.has_pass(pass) && self.pinned_by(pass).is_none(),
            Event::Unpin(pass) => self.pinned_by(pass).is_some(),
            Event::Write(row) => row < 64 && !self.transfer_waits() && self.is_blank(row),
            Event::Publish { into, rows } => {
                !self.transfer_waits()
                    && self.is_spare(into)
                    && self.is_drained(into)
                    && self.are_usable(rows)
            }
            Event::Transfer => self.transfer_waits(),
            Event::Ask(number) => !self.transfer_waits() && self.is_spare(number),
        }
    }

    fn has_pass(&self, pass: u8) -> bool
        ensures { IsTrue result ↔ IsPass (state self.now) pass }
    {
        0 < pass && pass <= self.passes
    }

    /// The record that a pass pins: the one in whose pinned passes its bit is set.
    pub(crate) fn pinned_by(&self, pass: u8) -> Option<usize>
        ensures { result ≡ (state self.now).pins pass }
    {
        if pass == 0 || pass > self.passes {
            return None;
        }
        for number in 0..self.passes as usize + 2 {
            if (self.words.pinned(number) >> (pass - 1)) % 2 == 1 {
                return Some(number);
            }
        }
        None
    }

    /// Whether a publish was not yet followed by its transfer.
    fn transfer_waits(&self) -> bool
        ensures { IsTrue result ↔ IsSome (state self.now).due }
    {
        self.words.returned.is_some()
    }

    /// Whether the number names a record that is not current.
    fn is_spare(&self, number: u8) -> bool
        ensures { IsTrue result
            ↔ (IsRecord (state self.now) number × (number ≢ (state self.now).current)) }
    {
        let number = number as usize;
        number < self.passes as usize + 2 && number != self.words.record()
    }

    /// Whether no pass pins a record that is not current. Once nothing is due, DONE alone says so.
    pub(crate) fn is_drained(&self, number: u8) -> bool
        requires settled { IsNone (state self.now).due }
        requires record_in { IsRecord (state self.now) number }
        requires spare { number ≢ (state self.now).current }
        ensures drained { IsTrue result ↔ IsDrained (state self.now) number }
        ensures pinned { OnFalse result (IsPinned (state self.now) number) }
    {
        self.words.done[number as usize] == 0
    }

    /// Whether no current or pinned record has the row.
    fn is_blank(&self, row: u8) -> bool
        requires settled { IsNone (state self.now).due }
        requires row_in { IsRow row }
        ensures { IsTrue result ↔ IsBlank (state self.now) row }
    {
        let live = self.rows[self.words.record()] | self.held_rows();
        (live >> row) % 2 == 0
    }

    /// Whether each row of the set is blank or the current record's.
    fn are_usable(&self, rows: u64) -> bool
        requires settled { IsNone (state self.now).due }
        ensures { IsTrue result ↔ AreUsable (state self.now) (row_set rows) }
    {
        rows & !self.rows[self.words.record()] & self.held_rows() == 0
    }

    /// The rows of the pinned records that are not current.
    fn held_rows(&self) -> u64
        requires settled { IsNone (state self.now).due }
        ensures all { (x : ℕ) → IsHeld (state self.now) x → row_set result x ≡ true }
        ensures only { (x : ℕ) → row_set result x ≡ true → IsHeld (state self.now) x }
    {
        let mut rows = 0;
        for number in 0..self.passes + 2 {
            if self.is_spare(number) && !self.is_drained(number) {
                rows |= self.rows[number as usize];
            }
        }
        rows
    }
}
