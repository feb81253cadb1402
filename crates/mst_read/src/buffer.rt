//! The texts of nodes in memory, one after another.
ghost use Rattle.std.specs.Prelude.{◌≡◌, [], Some, IfOk, IfSome};

use mst_key::Memory;
use mst_node::TextSink;
use std::alloc::Allocator;
use std::marker::Model;

/// The least room that a text asks for, so that most texts lie in that of the first.
const LEAST_ROOM: usize = 2_048;

/// The text of one node after another, each in the room of those before. A refused growth ends it,
/// and `bytes` then returns `Memory`.
#[derive(Drop)]
pub struct NodeBuffer<A: Allocator> {
    bytes: Vec<u8, A>,
    refused: Option<Memory>,
}

/// Contracts see the bytes of the current text, or `None` once a growth was refused.
impl<A: Allocator> Model for NodeBuffer<A> {
    ghost use Rattle.std.specs.Prelude.{List, ℕ, Option, Some, None, cond, is_some};

    ghost Value = { Option (List ℕ) };

    ghost view = { λ s. cond (is_some s.refused) None (Some s.bytes.items) };
}

impl<A: Allocator> NodeBuffer<A> {
    /// A text of no bytes, and no room.
    pub fn new(alloc: A) -> NodeBuffer<A>
        ensures empty { result ≡ Some [] }
    {
        NodeBuffer {
            bytes: Vec::new(alloc),
            refused: None,
        }
    }

    /// Begins another text, and asks for room for so many bytes, or for more.
    pub fn begin(&mut self, room: usize)
        ensures empty { IfSome self.new (λ bytes. bytes ≡ []) }
    {
        self.bytes.clear();
        match self.bytes.reserve(room.max(LEAST_ROOM)) {
            Ok(()) => {}
            Err(refused) => self.refused = Some(Memory::from(refused)),
        }
    }

    /// The bytes of the current text. Returns `Memory` only if a growth was refused.
    pub fn bytes(&self) -> Result<&[u8], Memory>
        ensures bytes { IfOk result (λ bytes. self.now ≡ Some bytes.now) }
    {
        match self.refused {
            Some(refused) => Err(refused),
            None => Ok(self.bytes.as_slice()),
        }
    }
}

impl<A: Allocator> TextSink for NodeBuffer<A> {
    ghost took = { λ s m. IfSome s (λ bytes. bytes ≡ m) };

    fn take(&mut self, bytes: &[u8]) {
        match self.refused {
            Some(_) => {}
            None => match self.bytes.extend_from_slice(bytes) {
                Ok(()) => {}
                Err(refused) => self.refused = Some(Memory::from(refused)),
            },
        }
    }
}
