//! The table that the passes of a store share without locks: its words, its rule, and one call for
//! each atomic step.
//!
//! ```
//! let desk = Desk::new(alloc, 16, 4, 0)?;
//! let shape = Shape { rows: 16, passes: 2, format: Format::One };
//! let (board, mut dealer) = Board::open(alloc, shape, desk)?;
//! let mut reader = board.deal(&mut dealer);     // pass 1
//! let mut writer = board.deal(&mut dealer);     // pass 2
//! let record = reader.pin(1);                   // one xor, which names the current record
//! reader.load(record_word(record, 0))           // 0, the number of its version
//! if writer.take_turn(2) {                      // one compare-exchange
//!     let desk = writer.take_desk();            // one exchange
//!     writer.return_desk(desk);
//!     writer.give_turn();
//! }
//! reader.unpin(1, record);
//! ```
//!
//! A seat carries what its pass knows, in contracts alone: of each step they say what the pass may
//! know before it and what it then knows. The rule that all steps keep is in `specs/Rule.antt`, the
//! words in `specs/Layout.antt`.
//!
//! The steps are put together in `mst_versions`: nothing here decides which comes next, loops,
//! waits, or takes memory once the table is open.
#![tactic(auto)]

mod board;
mod copying;
mod couriers;
mod doing;
mod laws;
pub mod layout;
mod notes;
mod pins;
mod plays;
mod publishing;
mod row_words;
mod rows;
mod rule;
mod searching;
mod seat;
mod spelling;
mod view;
mod words;

pub use board::{Board, Token};
pub use couriers::{Courier, Note};
pub use laws::{count_laws, path_laws, rule_laws};
pub use notes::Telling;
pub use plays::Naming;
pub use seat::PassSeat;
pub use view::{DeskState, Shape, View};
pub use words::{format_number, format_of};
