//! Giving the memory of a plan back.
use crate::plan::{Plan, PlanEntry, PlanNode};
use std::alloc::Allocator;

/// Gives the memory of a plan back. Calls nest no deeper than the layers of the nodes to be made.
/// The drop that a plan has by itself takes three functions for a node below another, so it nests
/// up to three times as deep; it runs only if memory is refused. It has no clause: a plan that is
/// not given back costs memory and changes no answer.
pub(crate) fn release<B: Allocator>(plan: Plan<Box<PlanNode<B>, B>>) {
    let Plan::Made(node) = plan else {
        return;
    };
    let PlanNode {
        layer: _,
        entries,
        tail,
    } = Box::into_inner(node);
    for entry in entries {
        let PlanEntry {
            child,
            key: _,
            value: _,
            origin: _,
        } = entry;
        release(child);
    }
    release(tail);
}
