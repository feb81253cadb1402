//! What a node holds of a value.
ghost use Rattle.std.specs.Prelude.{◌≡◌};
ghost use Rattle.mst_node.specs.Held.{held_as, HasSize};

use mst_key::{Format, Value};

/// What a node holds of a value.
#[derive(Drop)]
pub enum Held {
    /// In format 1 the value.
    Value(Value),
    /// In format 2 the SHA-256 of the value.
    Hash([u8; 32]),
}

impl Held {
    /// What these bytes of a text are.
    pub(crate) fn of(format: Format, bytes: &[u8]) -> Held
        requires size { HasSize format bytes.now }
        ensures held { result ≡ held_as format bytes.now }
    {
        match format {
            Format::One => match Value::new(bytes) {
                Ok(value) => Held::Value(value),
                Err(_) => unreachable!(),
            },
            Format::Two => match bytes.split_first_chunk::<32>() {
                Some((hash, _)) => Held::Hash(*hash),
                None => unreachable!(),
            },
        }
    }
}
