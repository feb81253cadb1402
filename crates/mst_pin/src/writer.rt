//! What the writer does: publish a record, transfer the mask that came back, and ask whether a
//! record is drained.

ghost use Rattle.std.specs.Prelude.{◌≡◌};

use crate::words::{Returned, mask_of};
use crate::{Answer, Core, Event};

impl Core {
    ghost use Rattle.mst_pin.specs.State.{IsTaken, Answers, after};
    ghost use Rattle.mst_pin.specs.Core.{state};

    /// A publish is one swap of CURRENT: the new record begins with an empty mask, and the old
    /// one's mask is returned.
    pub(crate) fn publish(&mut self, into: u8, rows: u64) -> Answer
        requires { IsTaken (state self.old) (Event.Publish into rows) }
        ensures answer { Answers (state self.old) (Event.Publish into rows) result }
        ensures after { state self.new ≡ after (state self.old) (Event.Publish into rows) }
    {
        let from = self.words.record();
        self.rows[into as usize] = rows;
        self.versions[into as usize] = self.versions[from].saturating_add(1);
        let found = self.words.swap_current((into as u64) << 32);
        self.words.returned = Some(Returned {
            from,
            mask: mask_of(found),
        });
        Answer::Done
    }

    /// A transfer is one xor of the mask that came back into the old record's DONE.
    pub(crate) fn transfer(&mut self) -> Answer
        requires { IsTaken (state self.old) Event.Transfer }
        ensures answer { Answers (state self.old) Event.Transfer result }
        ensures after { state self.new ≡ after (state self.old) Event.Transfer }
    {
        let due = self.words.returned.unwrap();
        self.words.xor_done(due.from, due.mask);
        self.words.returned = None;
        Answer::Done
    }

    /// Says whether a record that is not current is drained.
    pub(crate) fn ask(&self, number: u8) -> Answer
        requires { IsTaken (state self.now) (Event.Ask number) }
        ensures { Answers (state self.now) (Event.Ask number) result }
    {
        if self.is_drained(number) {
            Answer::Yes
        } else {
            Answer::No
        }
    }
}
