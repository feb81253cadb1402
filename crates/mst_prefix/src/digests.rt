//! Values with their digests, so that a value that did not change is not hashed again.
ghost use Rattle.std.specs.Prelude.{◌≡◌, vec_capacity, IfSome};
ghost use Rattle.sha2.specs.Sha256.{sha256};

use crate::places::Places;
use arrayvec::ArrayVec;
use mst_node::digest;
use std::alloc::Allocator;
use std::marker::Model;

/// The longest value that a node's entry has, in bytes.
const LONGEST_VALUE: usize = 64;

/// A value and its SHA-256.
#[derive(Drop)]
pub(crate) struct ValueDigest {
    value: ArrayVec<u8, LONGEST_VALUE>,
    digest: [u8; 32],
}

/// Contracts see the value. The digest is that of the value.
impl Model for ValueDigest {
    ghost use Rattle.std.specs.Prelude.{◌≡◌, List, ℕ};
    ghost use Rattle.sha2.specs.Sha256.{sha256};

    ghost Value = { List ℕ };

    ghost view = { λ d. d.value.items };

    ghost invariant = { λ d. d.digest ≡ sha256 d.value.items };
}

impl ValueDigest {
    /// The digest, if it is that of this value.
    fn digest_of(&self, value: &[u8]) -> Option<[u8; 32]>
        ensures digest { IfSome result (λ digest. digest ≡ sha256 value.now) }
    {
        if self.value.as_slice() != value {
            return None;
        }
        Some(self.digest)
    }
}

/// The digest that is kept for a row, if it is that of this value.
pub(crate) fn digest_kept<A: Allocator>(
    kept: &Places<ValueDigest, A>,
    row: u32,
    value: &[u8],
) -> Option<[u8; 32]>
    ensures digest { IfSome result (λ digest. digest ≡ sha256 value.now) }
{
    kept.at(kept.place_of(row)?)?.digest_of(value)
}

/// The SHA-256 of the value of an entry that is written into a row: the digest that is kept for the
/// row, if that is of this value. Otherwise it is computed, and kept for the row.
pub(crate) fn digest_of_value<A: Allocator>(
    kept: &mut Places<ValueDigest, A>,
    row: u32,
    value: &[u8],
) -> [u8; 32]
    ensures digest { result ≡ sha256 value.now }
    ensures room { vec_capacity kept.new.items ≡ vec_capacity kept.old.items }
    ensures rows_room { vec_capacity kept.new.numbers ≡ vec_capacity kept.old.numbers }
{
    if let Some(digest) = digest_kept(kept, row, value) {
        return digest;
    }
    let digest = digest(value);
    if let Ok(value) = ArrayVec::try_from(value) {
        let _place = kept.put(row, ValueDigest { value, digest });
    }
    digest
}
