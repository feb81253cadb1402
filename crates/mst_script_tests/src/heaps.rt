//! Heaps with little memory.
use linked_list_allocator::LocalHeap;
use std::alloc::Global;
use std::process::Abort;

/// A heap of this many bytes.
pub fn heap_of(rt: &impl Abort, alloc: Global, bytes: usize) -> LocalHeap {
    LocalHeap::new(alloc, bytes).expect(rt, "memory")
}
