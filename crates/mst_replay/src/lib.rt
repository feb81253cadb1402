//! The core of pins replayed line by line: each line asks for a new core or for one event, and has
//! one line for its answer.
//!
//! ```
//! let mut replay = Replay::new();
//! replay.line(b"pin 1")              // FaultLine: there is no core yet
//! replay.line(b"passes 2")           // Records(4)
//! replay.line(b"publish 1 0,3")      // Done: record 1 is current, with rows 0 and 3
//! replay.line(b"transfer")           // Done
//! replay.line(b"pin 2")              // Record(1)
//! replay.line(b"write 3")            // Refused: a pinned record has this row
//! replay.line(b"write  3")           // FaultLine: no command is spelt so
//! ```
//!
//! `specs/Line.antt` has the one text of each command, `specs/Replay.antt` what a line does to the
//! core. So the answers of a core of `mst_pin` can be compared with those of another program.
//!
//! Lines are cut, and answers spelt, by `mst_command`.
#![tactic(auto)]

ghost use Rattle.std.specs.Prelude.{◌≡◌, None};

mod command;
mod laws;
mod number;
mod reply;
mod rows;

pub use command::{Command, read_command};
pub use laws::{fault_lines, worked_lines};
use mst_pin::Core;
pub use reply::Reply;

/// The core that the lines so far have led to: none before the first `passes` line.
#[derive(Clone, Copy)]
pub struct Replay {
    core: Option<Core>,
}

impl Replay {
    ghost use Rattle.mst_replay.specs.Replay.{core_state, Replays};

    /// No core yet.
    pub fn new() -> Replay
        ensures { core_state result ≡ None }
    {
        Replay { core: None }
    }

    /// Takes one line, without its newline, and answers it. A line that is not the text of a
    /// command, and an event before the first `passes`, change nothing.
    pub fn line(&mut self, line: &[u8]) -> Reply
        ensures { Replays (core_state self.old) line.now result (core_state self.new) }
    {
        let Some(command) = read_command(line) else {
            return Reply::FaultLine;
        };
        match command {
            Command::Open(passes) => {
                self.core = Core::new(passes);
                Reply::Records(passes + 2)
            }
            Command::Take(event) => match &mut self.core {
                Some(core) => Reply::from(core.step(event)),
                None => Reply::FaultLine,
            },
        }
    }
}
