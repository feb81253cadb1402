//! Heaps with little memory.
use crate::confirming::confirm;
use linked_list_allocator::LocalHeap;
use std::alloc::Global;
use std::process::Abort;

/// A heap of this many bytes.
pub fn heap_of(rt: &impl Abort, alloc: Global, bytes: usize) -> LocalHeap {
    LocalHeap::new(alloc, bytes).expect(rt, "memory")
}

/// Whether something was made in the heap. What was found is `None` if memory was refused for it.
/// Ends the test if it was made wrongly, or if the heap keeps anything of it.
pub fn is_made(rt: &impl Abort, heap: &LocalHeap, found: Option<bool>) -> bool {
    confirm(rt, found != Some(false), "made wrongly");
    confirm(rt, heap.used() == 0, "nothing is kept");
    found.is_some()
}
