//! The theorem of a store in one statement: laws, each proved as the contract of a function that
//! does nothing. `specs/Headline.antt` has its definitions, to be read aloud.
#![tactic(auto)]

mod blocks;
mod laws;
mod shown;

pub use blocks::sharded_headline;
pub use laws::{call_laws, headline, note_laws, time_laws};
pub use shown::{put_and_get, put_beside_get, put_tell_get};
