//! The words of the program's command line: which task they name, and how the program ends.
//!
//! ```
//! let Some(task) = plain_task(&["mst", "run", "--format", "2"]) else { .. };
//! let task = task_of(alloc, &["mst", "--help"])?;   // to write the help, which clap makes
//! complain(&Refusal::Splits, &mut err)              // 2, and err has "splits\n"
//! ```
//!
//! [`plain_task`] reads the words that name a task, with options in any spelling and order, and
//! [`task_of`] all words. [`Refusal`] is why a program ends early, which [`complain`] tells.
//! `specs/Commanding.antt` says what words ask for and how a program ends early,
//! `specs/Options.antt` what they say by options, `specs/Loads.antt` what they ask of a load.
//!
//! Words that name a task are read without `clap`, and contracts say everything of those. `clap`
//! writes the help texts and what is said of wrong words, of which no contract speaks; `--version`
//! or `-V` alone is answered without it too.
#![tactic(auto)]

mod ending;
mod numbers;
mod options;
mod plain;
mod task;
mod usage;
mod words;

pub use ending::{DONE, PROOF_REFUSED, complain};
pub use plain::plain_task;
pub use task::{Ending, Load, Refusal, Size, Task};
pub use usage::task_of;
