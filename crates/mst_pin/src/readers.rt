//! What the passes do: pin and unpin, each by one xor of the pass's bit.

ghost use Rattle.std.specs.Prelude.{◌≡◌};

use crate::words::{pass_bit, record_of};
use crate::{Answer, Core, Event};

impl Core {
    ghost use Rattle.mst_pin.specs.State.{IsTaken, Answers, after};
    ghost use Rattle.mst_pin.specs.Core.{state};

    /// A pin is one xor into CURRENT, which returns the record that is pinned.
    pub(crate) fn pin(&mut self, pass: u8) -> Answer
        requires { IsTaken (state self.old) (Event.Pin pass) }
        ensures answer { Answers (state self.old) (Event.Pin pass) result }
        ensures after { state self.new ≡ after (state self.old) (Event.Pin pass) }
    {
        let found = self.words.xor_current(pass_bit(pass));
        let pinned = record_of(found);
        Answer::Record(pinned as u8)
    }

    /// An unpin is one xor into DONE of the record that the pass pins, current or not.
    pub(crate) fn unpin(&mut self, pass: u8) -> Answer
        requires { IsTaken (state self.old) (Event.Unpin pass) }
        ensures answer { Answers (state self.old) (Event.Unpin pass) result }
        ensures after { state self.new ≡ after (state self.old) (Event.Unpin pass) }
    {
        let number = self.pinned_by(pass).unwrap();
        self.words.xor_done(number, pass_bit(pass));
        Answer::Done
    }
}
