//! Values: short byte strings, which may be empty.
ghost use Rattle.std.specs.Prelude.{⊤, ◌≡◌, ◌↔◌, List, ℕ, IsOk, IfOk};
ghost use Rattle.mst_key.specs.Bytes.{IsValue, IsBytes};

use arrayvec::ArrayVec;
use std::alloc::AllocError;
use std::marker::Model;
use thiserror::Error;

/// A value of more than 64 bytes was refused.
#[derive(Clone, Copy, Debug, PartialEq, Eq, Error)]
#[error("a value has at most 64 bytes")]
pub struct ValueSize;

/// A value of the map: 0 to 64 bytes.
#[derive(Debug, Drop, PartialEq, Eq)]
pub struct Value {
    bytes: ArrayVec<u8, 64>,
}

/// Contracts see a value as the list of its bytes.
impl Model for Value {
    ghost use Rattle.std.specs.Prelude.{List, ℕ};
    ghost use Rattle.mst_key.specs.Bytes.{IsValue, IsBytes};

    ghost Value = { List ℕ };

    ghost view = { λ v. v.bytes.items };

    ghost invariant = { λ v. IsValue v.bytes.items × IsBytes v.bytes.items };

    ghost inverse = { λ xs. record { bytes = record { items = xs } } };
}

impl Clone for Value {
    ghost is_clone = { λ x y. y ≡ x };

    ghost is_infallible = { λ _. ⊤ };

    fn clone(&self) -> Result<Value, AllocError> {
        Ok(self.copy())
    }
}

impl Value {
    /// The value of these bytes. Returns `ValueSize` exactly if there are more than 64.
    pub fn new(bytes: &[u8]) -> Result<Value, ValueSize>
        ensures ok { IfOk result (λ value. value ≡ bytes.now) }
        ensures when { IsOk result ↔ IsValue bytes.now }
    {
        match ArrayVec::try_from(bytes) {
            Ok(bytes) => Ok(Value { bytes }),
            Err(_) => Err(ValueSize),
        }
    }

    /// The bytes of the value: 0 to 64, each below 256.
    pub fn bytes(&self) -> &[u8]
        ensures bytes { result.now ≡ self.now }
        ensures size { IsValue result.now }
        ensures range { IsBytes result.now }
    {
        self.bytes.as_slice()
    }

    /// Says that the value has at most 64 bytes, as each has by its type.
    pub fn value_limits(&self)
        ensures limits { IsValue self.now }
    {
        let _bytes = self.bytes();
    }

    /// A copy of the value, as by `clone`, but without an error: it takes no memory.
    pub fn copy(&self) -> Value
        ensures same { result ≡ self.now }
    {
        let mut bytes = ArrayVec::new();
        // there is room for 64 bytes
        let _ = bytes.try_extend_from_slice(self.bytes.as_slice());
        Value { bytes }
    }
}
