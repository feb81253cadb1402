//! Tests of the table, its seats, the store and sharded maps, of what callers in other languages do
//! not see: words of the table, seats that are refused and dealt again, passes that meet, pinned
//! passes that are dropped, batches that are revealed, and blocks in threads. What a caller in C
//! sees is tested there (`tests/store`), what a script of the program says is a transcript
//! (`tests/transcripts`).
#![tactic(auto)]

#[cfg(test)]
mod answers;
#[cfg(test)]
mod confirming;
#[cfg(test)]
mod opening;
#[cfg(test)]
mod pinned;
#[cfg(test)]
mod refusals;
#[cfg(test)]
mod revealing;
#[cfg(test)]
mod seats;
#[cfg(test)]
mod settling;
#[cfg(test)]
mod sharded;
#[cfg(test)]
mod stores;
#[cfg(test)]
mod table;
