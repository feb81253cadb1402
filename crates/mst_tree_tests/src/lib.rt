//! Tests of keys and values, of lists with their digests, of collisions in proofs, of the audit of
//! a directory, of rows and of reads of trees in rows, and of a map after a batch.
#![tactic(auto)]

#[cfg(test)]
mod batches;
#[cfg(test)]
mod cases;
#[cfg(test)]
mod confirming;
#[cfg(test)]
mod heaps;
#[cfg(test)]
mod keys;
#[cfg(test)]
mod nodes;
#[cfg(test)]
mod pairs;
#[cfg(test)]
mod printing;
#[cfg(test)]
mod proving;
#[cfg(test)]
mod rows;
#[cfg(test)]
mod sharding;
