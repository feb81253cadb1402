//! The audit of a directory: whether it lists shards that meet.
ghost use Rattle.std.specs.Prelude.{◌≡◌, ◌↔◌, List, ℕ, IsOk};
ghost use Rattle.std.specs.Option.{option_copied};
ghost use Rattle.std.specs.declared.result.Result.TheVariants.{Err};
ghost use Rattle.std.specs.List.{AllByRecursion};
ghost use Rattle.mst_key.specs.Bytes.{IsKey};
ghost use Rattle.mst_sharded_proof.specs.declared.audit.AuditFault.{AuditFault};
ghost use Rattle.mst_sharded_proof.specs.Audit.{IsDirectory, AuditFails};
ghost use Rattle.mst_sharded_proof.specs.Auditing.{unmet as unmet_by, rises as rises_by, listing_fault as fault_by, opening as opening_by, listings_from, audit_verdict};

use mst_key::{Format, Key, Value};
use mst_node::root_of_in;
use std::cmp::Ordering;
use thiserror::Error;

/// The most pairs of a directory: the text of its node gives their count in two bytes.
const MOST_PAIRS: usize = 65_535;

/// What is wrong with the listing of a shard. The tests stand in the order of the variants, but for
/// the last three, of which each listing can fail only one.
#[derive(Clone, Copy, Debug, PartialEq, Eq, Error)]
pub enum ListingFault {
    /// It has fewer bytes than a digest.
    #[error("L1")]
    NoDigest,
    /// The next shard does not begin above this one's lower bound.
    #[error("L2")]
    NotRising,
    /// The shard ends below where the next one begins: the keys between have no shard.
    #[error("L3")]
    Gap,
    /// The shard ends above where the next one begins, or does not end: keys have two shards.
    #[error("L4")]
    Overlap,
    /// The last shard has an upper bound: the keys from there on have no shard.
    #[error("L5")]
    Bounded,
}

/// The first test that a directory fails. The tests stand in the order of the variants.
#[derive(Clone, Copy, Debug, PartialEq, Eq, Error)]
pub enum AuditFault {
    /// There are more than 65,535 pairs.
    #[error("A1")]
    TooMany,
    /// There is no pair.
    #[error("A2")]
    NoShard,
    /// The first lower bound is not the least key, the byte 00.
    #[error("A3")]
    NotLeast,
    /// The listing of the shard at this place fails this test. The first shard has the place 0.
    #[error("A4 {0} {1}")]
    Listing(usize, ListingFault),
    /// The pairs have another root digest.
    #[error("A5")]
    OtherRoot,
}

/// The fault of an upper bound compared with the next pair, if it has one.
fn unmet(high: &[u8], next: Option<&(Key, Value)>) -> Option<ListingFault>
    ensures unmet { result ≡ unmet_by high.now (option_copied next.entry) }
{
    match high {
        [] => match next {
            None => None,
            Some(_) => Some(ListingFault::Overlap),
        },
        [_, ..] => match next {
            None => Some(ListingFault::Bounded),
            Some(pair) => match high.cmp(pair.0.bytes()) {
                Ordering::Less => Some(ListingFault::Gap),
                Ordering::Equal => None,
                Ordering::Greater => Some(ListingFault::Overlap),
            },
        },
    }
}

/// Whether the next pair, if there is one, has a greater key.
fn rises(key: &Key, next: Option<&(Key, Value)>) -> bool
    ensures rises { result ≡ rises_by key.now (option_copied next.entry) }
{
    match next {
        None => true,
        Some(pair) => *key < pair.0,
    }
}

/// The fault of a pair as the listing of a shard, compared with the next pair, if it has one.
fn listing_fault(pair: &(Key, Value), next: Option<&(Key, Value)>) -> Option<ListingFault>
    ensures fault { result ≡ fault_by pair.now (option_copied next.entry) }
{
    let Some((_, high)) = pair.1.bytes().split_first_chunk::<32>() else {
        return Some(ListingFault::NoDigest);
    };
    if rises(&pair.0, next) {
        unmet(high, next)
    } else {
        Some(ListingFault::NotRising)
    }
}

/// Whether each pair is the listing of a shard that meets the next one.
fn listings(pairs: &[(Key, Value)]) -> Result<(), AuditFault>
    ensures verdict { result ≡ listings_from 0 pairs.now }
{
    for (place, pair) in pairs.iter().enumerate() {
        if let Some(fault) = listing_fault(pair, pairs.get(place + 1)) {
            return Err(AuditFault::Listing(place, fault));
        }
    }
    Ok(())
}

/// Whether the first pair has the least key.
fn opening(pairs: &[(Key, Value)]) -> Result<(), AuditFault>
    ensures verdict { result ≡ opening_by pairs.now }
{
    match pairs {
        [] => Err(AuditFault::NoShard),
        [first, ..] => {
            if first.0.bytes() == [0].as_slice() {
                Ok(())
            } else {
                Err(AuditFault::NotLeast)
            }
        }
    }
}

/// The verdict on a directory.
fn judge(format: Format, root: &[u8; 32], pairs: &[(Key, Value)]) -> Result<(), AuditFault>
    ensures verdict { result ≡ audit_verdict format root.now pairs.now }
{
    if pairs.len() > MOST_PAIRS {
        return Err(AuditFault::TooMany);
    }
    opening(pairs)?;
    listings(pairs)?;
    if *root == root_of_in(format, pairs) {
        Ok(())
    } else {
        Err(AuditFault::OtherRoot)
    }
}

/// Says that the keys are within their limits, as all are by their types.
fn keys_within_limits(pairs: &[(Key, Value)])
    ensures keys { AllByRecursion (λ p. IsKey p.0) pairs.now }
{
    for pair in pairs {
        pair.0.key_limits();
    }
}

/// Whether these pairs are the directory of a sharded map with this root digest, whose shards meet:
/// the first one begins at the least key, each begins where the one before ends, and the last one
/// has no end. If they fail a test, returns the first one, with the place of the shard.
///
/// So whoever has audited a directory knows that each key has exactly one shard. Of the shards
/// themselves nothing is known but what is listed. The call takes no memory.
pub fn audit_directory(
    format: Format,
    root: &[u8; 32],
    pairs: &[(Key, Value)],
) -> Result<(), AuditFault>
    // The audit is passed exactly by the directory of some splits.
    ensures passed { IsOk result
        ↔ ((splits : List (List ℕ)) × IsDirectory format root.now pairs.now splits) }
    // A fault is returned exactly if the directory fails its test, and none before it.
    ensures fails { (fault : AuditFault) → (result ≡ Err fault)
        ↔ AuditFails format root.now pairs.now fault }
{
    keys_within_limits(pairs);
    judge(format, root, pairs)
}
