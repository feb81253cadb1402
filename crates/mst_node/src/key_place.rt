//! Where a key lies in a node.
ghost use Rattle.std.specs.Prelude.{◌≡◌, ◌↔◌, IsTrue, None};
ghost use Rattle.mst_node.specs.Gaps.{IsBetween};

use mst_key::{Key, Value};

/// The keys strictly between two bounds, each of them optional: those of a node, or of a gap
/// between its entries.
#[derive(Drop)]
pub struct Span {
    pub low: Option<Key>,
    pub high: Option<Key>,
}

impl Span {
    /// All keys.
    pub fn all() -> Span
        ensures all { result ≡ record { low = None; high = None } }
    {
        Span {
            low: None,
            high: None,
        }
    }

    /// Whether the key lies between the two.
    pub fn has(&self, key: &Key) -> bool
        ensures between { IsTrue result ↔ IsBetween self.now.low self.now.high key.now }
    {
        let above = match &self.low {
            None => true,
            Some(low) => low.precedes(key),
        };
        let below = match &self.high {
            None => true,
            Some(high) => key.precedes(high),
        };
        above && below
    }
}

/// Where a key lies in a flat node.
#[derive(Drop)]
pub enum KeyPlace {
    /// The node holds the key, with this value.
    Found(Value),
    /// The node does not hold the key. The digest is that of the child in the key's gap, if there
    /// is one, and the span is that of the gap.
    Gap { child: Option<[u8; 32]>, span: Span },
}
