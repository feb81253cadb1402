//! Which shard has a key.
ghost use Rattle.std.specs.Prelude.{◌≡◌, ◌≤◌, length};
ghost use Rattle.std.specs.Ordering.{is_lt};
ghost use Rattle.mst_key.specs.Map.{key_cmp};
ghost use Rattle.mst_sharded_proof.specs.Shards.{least, AreSplits};
ghost use Rattle.mst_shards.specs.Sharding.{place};

use mst_key::Key;

// Whether a key is below a split. The first bytes, which each key has, mostly decide: to compare
// them costs a third of what it costs to compare the keys.
fn is_less(key: &Key, split: &Key) -> bool
    ensures less { result ≡ is_lt (key_cmp key.now split.now) }
{
    let first = key.bytes()[0];
    let other = split.bytes()[0];
    if first == other {
        key < split
    } else {
        first < other
    }
}

/// The place of the shard of a key: how many of the splits are at most the key.
#[tactic(auto, using(crate::proofs::Places::by_halves))]
pub fn place_of(splits: &[Key], key: &Key) -> usize
    requires rising { AreSplits least splits.now }
    ensures place { result ≡ place splits.now key.now }
    ensures within { result ≤ length splits.now }
{
    let mut low = 0;
    let mut high = splits.len();
    while low < high {
        let middle = low + (high - low) / 2;
        if is_less(key, &splits[middle]) {
            high = middle;
        } else {
            low = middle + 1;
        }
    }
    low
}
