//! Giving the memory of a tree back.
use crate::node::{Entry, Node};
use std::alloc::Allocator;

/// Gives the memory of a tree back. Calls nest no deeper than the layers, as those of `build_in`
/// do. The drop that a value has by itself takes three functions for a node below another, so it
/// nests up to three times as deep; it runs only if `build_in` is refused memory. It has no clause:
/// a tree that is not given back costs memory and changes no answer.
pub fn release<A: Allocator>(tree: Option<Box<Node<A>, A>>) {
    let Some(node) = tree else {
        return;
    };
    let Node {
        layer: _,
        entries,
        tail,
    } = Box::into_inner(node);
    for entry in entries {
        let Entry {
            child,
            key: _,
            value: _,
        } = entry;
        release(child);
    }
    release(tail);
}
