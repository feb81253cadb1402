//! What the directory lists of the shard at a place.
ghost use Rattle.std.specs.Prelude.{◌≡◌, ◌≤◌, ◌++◌, length, slice_get};
ghost use Rattle.std.specs.Option.{option_copied};
ghost use Rattle.mst_sharded_proof.specs.Shards.{bound_text};
ghost use Rattle.mst_shards.specs.Entries.{low_at};

use arrayvec::ArrayVec;
use mst_key::{Key, Value};

/// The lower bound of the shard at a place.
pub fn low_key(splits: &[Key], place: usize) -> Key
    requires within { place ≤ length splits.now }
    ensures low { result ≡ low_at splits.now place }
{
    if place == 0 {
        let Ok(least) = Key::new(&[0]) else {
            unreachable!()
        };
        return least;
    }
    splits[place - 1].copy()
}

/// The upper bound of the shard at a place, if it has one.
pub fn high_key(splits: &[Key], place: usize) -> Option<&Key>
    ensures high { option_copied result ≡ slice_get splits.now place }
{
    splits.get(place)
}

/// What the directory holds of a shard.
pub fn listing(digest: &[u8; 32], high: Option<&Key>) -> Value
    ensures listing { result ≡ digest.now ++ bound_text (option_copied high.entry) }
{
    let mut bytes = ArrayVec::<u8, 64>::new();
    // there is room for a digest and a key
    let _ = bytes.try_extend_from_slice(digest);
    if let Some(key) = high {
        let _ = bytes.try_extend_from_slice(key.bytes());
    }
    let Ok(value) = Value::new(bytes.as_slice()) else {
        unreachable!()
    };
    value
}
