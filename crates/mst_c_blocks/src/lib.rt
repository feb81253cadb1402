//! The calls of sharded maps for C, and for every language that calls C.
//!
//! `mst_exports` exports each of them, with the same contract, and `include/mst_store.h` declares
//! it. Their numbers, and the order of their tests, are those of [`mst_c`](mst_c); two more are
//! in [`codes`].
#![tactic(auto)]

mod asking;
mod begun;
pub mod codes;
pub mod counting;
pub mod hand;
pub mod making;
pub mod opening;
pub mod parts;
pub mod proving;
pub mod reading;
mod role_box;
mod splits;
pub mod telling;
