//! Keys: short byte strings in bytewise order.
ghost use Rattle.std.specs.Prelude.{⊤, ◌≡◌, ◌↔◌, List, ℕ, IsOk, IfOk, IsTrue};
ghost use Rattle.std.specs.declared.cmp.Ordering.TheVariants.{Less};
ghost use Rattle.mst_key.specs.Bytes.{IsKey, IsBytes};
ghost use Rattle.mst_key.specs.Map.{key_cmp};

use arrayvec::ArrayVec;
use std::alloc::AllocError;
use std::cmp::Ordering;
use std::marker::Model;
use thiserror::Error;

/// A key of no bytes, or of more than 32 bytes, was refused.
#[derive(Clone, Copy, Debug, PartialEq, Eq, Error)]
#[error("a key has 1 to 32 bytes")]
pub struct KeySize;

/// A key of the map: 1 to 32 bytes.
#[derive(Debug, Drop, PartialEq, Eq)]
pub struct Key {
    bytes: ArrayVec<u8, 32>,
}

/// Contracts see a key as the list of its bytes.
impl Model for Key {
    ghost use Rattle.std.specs.Prelude.{List, ℕ};
    ghost use Rattle.mst_key.specs.Bytes.{IsKey, IsBytes};

    ghost Value = { List ℕ };

    ghost view = { λ k. k.bytes.items };

    ghost invariant = { λ k. IsKey k.bytes.items × IsBytes k.bytes.items };

    ghost inverse = { λ xs. record { bytes = record { items = xs } } };
}

/// Keys are ordered bytewise; a proper prefix of a key is less than the key.
impl Ord for Key {
    ghost use Rattle.mst_key.specs.Map.{key_cmp};
    ghost use Rattle.std.proofs.Common.{refl};
    ghost use Rattle.std.specs.Cmp.Lexicographic.{nat_list_cmp_total, texts_ties};

    ghost cmp = { key_cmp };

    ghost total = { nat_list_cmp_total };

    ghost matches_partial_cmp = { λ x y. refl };

    ghost matches_eq = { texts_ties };

    fn cmp(&self, other: &Key) -> Ordering {
        self.bytes.cmp(&other.bytes)
    }
}

impl PartialOrd for Key {
    ghost use Rattle.mst_key.specs.Map.{key_cmp};
    ghost use Rattle.std.specs.Cmp.Lexicographic.{texts_po};
    ghost use Rattle.std.specs.Ordering.{as_partial_cmp};

    ghost partial_cmp = { as_partial_cmp key_cmp };

    ghost laws = { texts_po };

    fn partial_cmp(&self, other: &Key) -> Option<Ordering> {
        Some(self.cmp(other))
    }
}

impl Clone for Key {
    ghost is_clone = { λ x y. y ≡ x };

    ghost is_infallible = { λ _. ⊤ };

    fn clone(&self) -> Result<Key, AllocError> {
        Ok(self.copy())
    }
}

impl Key {
    /// The key of these bytes. Returns `KeySize` exactly if there are none or more than 32.
    pub fn new(bytes: &[u8]) -> Result<Key, KeySize>
        ensures ok { IfOk result (λ key. key ≡ bytes.now) }
        ensures when { IsOk result ↔ IsKey bytes.now }
    {
        if bytes.is_empty() {
            return Err(KeySize);
        }
        match ArrayVec::try_from(bytes) {
            Ok(bytes) => Ok(Key { bytes }),
            Err(_) => Err(KeySize),
        }
    }

    /// The bytes of the key: 1 to 32, each below 256.
    pub fn bytes(&self) -> &[u8]
        ensures bytes { result.now ≡ self.now }
        ensures size { IsKey result.now }
        ensures range { IsBytes result.now }
    {
        self.bytes.as_slice()
    }

    /// Says that the key has 1 to 32 bytes, as each has by its type.
    pub fn key_limits(&self)
        ensures limits { IsKey self.now }
    {
        let _bytes = self.bytes();
    }

    /// Whether the key comes before another.
    pub fn precedes(&self, other: &Key) -> bool
        ensures less { IsTrue result ↔ (key_cmp self.now other.now ≡ Less) }
    {
        match self.cmp(other) {
            Ordering::Less => true,
            Ordering::Equal | Ordering::Greater => false,
        }
    }

    /// A copy of the key, as by `clone`, but without an error: it takes no memory.
    pub fn copy(&self) -> Key
        ensures same { result ≡ self.now }
    {
        let mut bytes = ArrayVec::new();
        // there is room for 32 bytes
        let _ = bytes.try_extend_from_slice(self.bytes.as_slice());
        Key { bytes }
    }
}
