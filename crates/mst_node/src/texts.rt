//! The texts of nodes.
ghost use Rattle.std.specs.Prelude.{◌≡◌, ◌≤◌, length, IfOk};
ghost use Rattle.mst_key.specs.declared.format.Format.TheVariants.{One};
ghost use Rattle.mst_node.specs.Tree.{pairs};
ghost use Rattle.mst_node.specs.Shape.{tree_of, tree_of_child};
ghost use Rattle.mst_node.specs.Text.{child_digest as digest_of_child, highest_count};
ghost use Rattle.mst_node.specs.Text as spec;

use crate::node::Node;
use crate::sinks::{TextBuffer, TextSink};
use mst_key::{Format, Memory};
use sha2::{Digest, Sha256};
use std::alloc::Allocator;

/// The digest of a child, if it is there.
#[cycle(digest)]
fn child_digest<A: Allocator>(format: Format, child: &Option<Box<Node<A>, A>>) -> Option<[u8; 32]>
    requires few { length (pairs (tree_of_child format child.now)) ≤ highest_count }
    ensures digest { result ≡ digest_of_child (tree_of_child format child.now) }
{
    match child {
        None => None,
        Some(node) => Some(node_digest(format, node)),
    }
}

/// The digest of a node's text, which is fed piece by piece and takes no memory.
#[cycle(digest)]
fn node_digest<A: Allocator>(format: Format, node: &Node<A>) -> [u8; 32]
    requires few { length (pairs (tree_of format node.now)) ≤ highest_count }
    ensures digest { result ≡ spec.digest (tree_of format node.now) }
{
    let mut hasher = Sha256::new();
    hasher.heading(format, node.layer, node.entries.len() as u16);
    for entry in &node.entries {
        hasher.entry(
            format,
            child_digest(format, &entry.child),
            entry.key.bytes(),
            entry.value.bytes(),
        );
    }
    hasher.child(child_digest(format, &node.tail));
    hasher.finalize()
}

/// The text of a node in format 1: the byte 1 for the format, the layer, the number of entries in
/// two bytes, the high one first, then each child and each pair from left to right. A child is the
/// byte 00 for none, or the byte 01 and its digest; a key and a value stand after their length in
/// one byte.
///
/// The node is one of a tree of at most 65,535 pairs. Returns `Memory` only if a growth was
/// refused. The work is linear in the pairs below the node.
pub fn text<A: Allocator>(alloc: A, node: &Node<A>) -> Result<Vec<u8, A>, Memory>
    requires few { length (pairs (tree_of One node.now)) ≤ highest_count }
    ensures text { IfOk result (λ t. t.items ≡ spec.text (tree_of One node.now)) }
{
    text_in(alloc, Format::One, node)
}

/// The text of a node in a format, as `text` is in format 1. In format 2 it begins with the byte 2,
/// and the SHA-256 of each value stands in place of the value and its length.
///
/// The node is one of a tree of at most 65,535 pairs. Returns `Memory` only if a growth was
/// refused. The work is linear in the pairs below the node.
pub fn text_in<A: Allocator>(alloc: A, format: Format, node: &Node<A>) -> Result<Vec<u8, A>, Memory>
    requires few { length (pairs (tree_of format node.now)) ≤ highest_count }
    ensures text { IfOk result (λ t. t.items ≡ spec.text (tree_of format node.now)) }
{
    let mut out = TextBuffer::new(alloc);
    out.heading(format, node.layer, node.entries.len() as u16);
    for entry in &node.entries {
        out.entry(
            format,
            child_digest(format, &entry.child),
            entry.key.bytes(),
            entry.value.bytes(),
        );
    }
    out.child(child_digest(format, &node.tail));
    out.finish()
}
