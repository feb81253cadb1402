//! The tree of a list of pairs.
ghost use Rattle.std.specs.Prelude.{◌≡◌, ◌==◌, map, count_by, IfOk};
ghost use Rattle.mst_key.specs.Layer.{layer_in};
ghost use Rattle.mst_key.specs.declared.format.Format.{Format};
ghost use Rattle.mst_key.specs.declared.format.Format.TheVariants.{One};
ghost use Rattle.mst_node.specs.Tree.{layers as layers_in, greatest, tree, node, last, pairs as pairs_of};
ghost use Rattle.mst_node.specs.Shape.{tree_of, tree_of_child, tree_entry, with_entries};

use crate::node::{Entry, Node};
use mst_key::{Format, Key, Memory, Value};
use std::alloc::Allocator;

/// The layers of the keys, in their order.
fn layers_of<A: Allocator>(
    alloc: A,
    format: Format,
    pairs: &[(Key, Value)],
) -> Result<Vec<u8, A>, Memory>
    ensures layers { IfOk result (λ layers. layers.items ≡ layers_in (layer_in format) pairs.now) }
{
    let layers = pairs
        .iter()
        .map(|pair| pair.0.layer_in(format))
        .collect(alloc)?;
    Ok(layers)
}

/// The greatest of the layers, 0 if there is none.
fn greatest_of(layers: &[u8]) -> u8
    ensures greatest { result ≡ greatest layers.now }
{
    let mut top = 0;
    for layer in layers {
        top = top.max(*layer);
    }
    top
}

/// How many of the keys with these layers are of one layer.
fn count_of(layers: &[u8], layer: u8) -> usize
    ensures count { result ≡ count_by (λ other. other == layer) layers.now }
{
    layers.iter().filter(|other| **other == layer).count()
}

/// The entry of a pair, after the tree of the gap before it.
fn entry_of<A: Allocator>(child: Option<Box<Node<A>, A>>, pair: &(Key, Value)) -> Entry<A>
    ensures entry { (format : Format) → tree_entry format result
        ≡ record { child = tree_of_child format child; key = pair.now.0; value = pair.now.1 } }
{
    let (key, value) = pair;
    Entry {
        child,
        key: key.copy(),
        value: value.copy(),
    }
}

/// The node of these parts.
fn node_of<A: Allocator>(
    alloc: A,
    layer: u8,
    entries: Vec<Entry<A>, A>,
    tail: Option<Box<Node<A>, A>>,
) -> Result<Box<Node<A>, A>, Memory>
    ensures tree { IfOk result (λ n. (format : Format) → tree_of format n.value ≡ node format layer
        (with_entries (map (tree_entry format) entries.items) (last (tree_of_child format tail)))) }
{
    let node = Node {
        layer,
        entries,
        tail,
    };
    Ok(Box::new(alloc, node)?)
}

/// The tree of pairs whose keys have these layers.
fn subtree<A: Allocator + Copy>(
    alloc: A,
    format: Format,
    pairs: &[(Key, Value)],
    layers: &[u8],
) -> Result<Option<Box<Node<A>, A>>, Memory>
    requires layers { layers.now ≡ layers_in (layer_in format) pairs.now }
    ensures tree { IfOk result (λ t. tree_of_child format t ≡ tree format pairs.now) }
{
    if pairs.is_empty() {
        return Ok(None);
    }
    let top = greatest_of(layers);
    // the entries have room from the start: a list that grew would have room for more than they are
    let mut entries = Vec::with_capacity(alloc, count_of(layers, top))?;
    let mut start = 0;
    for (i, pair) in pairs.iter().enumerate() {
        if layers[i] == top {
            let child = subtree(alloc, format, &pairs[start..i], &layers[start..i])?;
            entries.push(entry_of(child, pair))?;
            start = i + 1;
        }
    }
    let tail = subtree(alloc, format, &pairs[start..], &layers[start..])?;
    Ok(Some(node_of(alloc, top, entries, tail)?))
}

/// The tree of the pairs of a map: `None` for the empty map, otherwise the top node. Returns
/// `Memory` only if a growth was refused, and then nothing is kept.
///
/// Each key is hashed once, and a pair is looked at once for each node in whose span it lies. Calls
/// nest no deeper than the layers, at most 65.
pub fn build<A: Allocator + Copy>(
    alloc: A,
    pairs: &[(Key, Value)],
) -> Result<Option<Box<Node<A>, A>>, Memory>
    ensures tree { IfOk result (λ t. tree_of_child One t ≡ tree One pairs.now) }
    ensures pairs { IfOk result (λ t. pairs_of (tree_of_child One t) ≡ pairs.now) }
{
    build_in(alloc, Format::One, pairs)
}

/// The tree of the pairs of a map in a format, as `build` is in format 1. Calls nest no deeper than
/// the layers, at most 129 in format 2.
pub fn build_in<A: Allocator + Copy>(
    alloc: A,
    format: Format,
    pairs: &[(Key, Value)],
) -> Result<Option<Box<Node<A>, A>>, Memory>
    ensures tree { IfOk result (λ t. tree_of_child format t ≡ tree format pairs.now) }
    ensures pairs { IfOk result (λ t. pairs_of (tree_of_child format t) ≡ pairs.now) }
{
    let layers = layers_of(alloc, format, pairs)?;
    subtree(alloc, format, pairs, layers.as_slice())
}
