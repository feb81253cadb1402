//! What transcripts (`tests/transcripts`), and devices and memory that fail (`tests/devices`), do
//! not show of what the program stands on: sinks over memory that are full or refused, threads at
//! one store, all orders of events in the core of pins, scripts over one shard, and what a run
//! leaves to the next one.
#![tactic(auto)]

#[cfg(test)]
mod confirming;
#[cfg(test)]
mod failing;
#[cfg(test)]
mod heaps;
#[cfg(test)]
mod pins;
#[cfg(test)]
mod script;
#[cfg(test)]
mod sinks;
#[cfg(test)]
mod threads;
