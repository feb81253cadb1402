//! The answer to a line.

ghost use Rattle.std.specs.Prelude.{◌≡◌};
ghost use Rattle.mst_replay.specs.Reply.{reply_of};

use mst_pin::Answer;

#[derive(Clone, Copy)]
pub enum Reply {
    /// A new core, with this many version records.
    Records(u8),
    /// The record that was pinned.
    Record(u8),
    Done,
    Yes,
    No,
    Refused,
    /// The line is not the text of a command, or asks for an event before the first core.
    FaultLine,
}

impl From<Answer> for Reply {
    ghost from_gives = { λ answer reply. reply ≡ reply_of answer };

    fn from(answer: Answer) -> Reply {
        match answer {
            Answer::Record(number) => Reply::Record(number),
            Answer::Done => Reply::Done,
            Answer::Yes => Reply::Yes,
            Answer::No => Reply::No,
            Answer::Refused => Reply::Refused,
        }
    }
}
