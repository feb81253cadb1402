//! The root digest of a list of pairs, without its tree.
ghost use Rattle.std.specs.Prelude.{◌≡◌, ◌<◌, ◌≤◌, List, [], ◌∷◌, ◌++◌, length};
ghost use Rattle.mst_key.specs.declared.format.Format.{Format};
ghost use Rattle.mst_key.specs.declared.format.Format.TheVariants.{One};
ghost use Rattle.mst_key.specs.Layer.{layer_in};
ghost use Rattle.mst_key.specs.Map.{Pair};
ghost use Rattle.mst_node.specs.Tree.{tree};
ghost use Rattle.mst_node.specs.Text.{digest, child_digest as digest_of_child, root as root_digest, highest_count};
ghost use Rattle.mst_node.specs.Top.{IsTop};

use crate::hashing::empty_digest;
use crate::sinks::TextSink;
use mst_key::{Format, Key, Value};
use sha2::{Digest, Sha256};

/// The top node of the tree of some pairs: its layer, and how many entries it has.
#[derive(Clone, Copy)]
struct Top {
    layer: u8,
    count: usize,
}

impl Top {
    /// Of no pairs.
    fn none() -> Top
        ensures top { (format : Format) → IsTop format [] result }
    {
        Top { layer: 0, count: 0 }
    }

    /// Of the same pairs and one more, whose key has this layer.
    fn with(self, layer: u8) -> Top
        requires few { self.count < highest_count }
        ensures top { (format : Format) (m : List Pair) (p : Pair) → IsTop format m self
            → layer_in format p.0 ≡ layer
            → IsTop format (m ++ p ∷ []) result }
    {
        if layer > self.layer {
            Top { layer, count: 1 }
        } else if layer == self.layer {
            Top {
                layer,
                count: self.count + 1,
            }
        } else {
            self
        }
    }

    /// Of these pairs.
    fn of(format: Format, pairs: &[(Key, Value)]) -> Top
        requires few { length pairs.now ≤ highest_count }
        ensures top { IsTop format pairs.now result }
    {
        let mut top = Top::none();
        for pair in pairs {
            top = top.with(pair.0.layer_in(format));
        }
        top
    }
}

/// The digest of the tree of a gap's pairs, whose top is known, if there are any.
#[cycle(root)]
fn gap_digest(format: Format, pairs: &[(Key, Value)], top: Top) -> Option<[u8; 32]>
    requires few { length pairs.now ≤ highest_count }
    requires top { IsTop format pairs.now top }
    ensures digest { result ≡ digest_of_child (tree format pairs.now) }
{
    if pairs.is_empty() {
        None
    } else {
        Some(digest_of(format, pairs, top))
    }
}

/// The digest of the tree of some pairs, whose top is known. One pass feeds the top node's text and
/// finds the tops of the gaps.
#[cycle(root)]
fn digest_of(format: Format, pairs: &[(Key, Value)], top: Top) -> [u8; 32]
    requires some { 0 < length pairs.now }
    requires few { length pairs.now ≤ highest_count }
    requires top { IsTop format pairs.now top }
    ensures digest { result ≡ digest (tree format pairs.now) }
{
    let mut hasher = Sha256::new();
    hasher.heading(format, top.layer, top.count as u16);
    let mut start = 0;
    let mut gap = Top::none();
    for (i, pair) in pairs.iter().enumerate() {
        let layer = pair.0.layer_in(format);
        if layer == top.layer {
            let child = gap_digest(format, &pairs[start..i], gap);
            hasher.entry(format, child, pair.0.bytes(), pair.1.bytes());
            start = i + 1;
            gap = Top::none();
        } else {
            gap = gap.with(layer);
        }
    }
    hasher.child(gap_digest(format, &pairs[start..], gap));
    hasher.finalize()
}

/// The root digest of the map of these pairs: the digest of its tree, or of the empty string for
/// the empty map. The keys rise strictly, and there are at most 65,535 pairs.
///
/// The texts are fed to the hash piece by piece, and no tree is built: the call takes no memory. A
/// key is hashed once to find the top node, and once for each node in whose span it lies; nothing
/// is fed twice. Calls nest no deeper than the layers, at most 65.
pub fn root_of(pairs: &[(Key, Value)]) -> [u8; 32]
    requires few { length pairs.now ≤ highest_count }
    ensures root { result ≡ root_digest One pairs.now }
{
    root_of_in(Format::One, pairs)
}

/// The root digest of the map of these pairs in a format, as `root_of` is in format 1. Calls nest
/// no deeper than the layers, at most 129 in format 2.
pub fn root_of_in(format: Format, pairs: &[(Key, Value)]) -> [u8; 32]
    requires few { length pairs.now ≤ highest_count }
    ensures root { result ≡ root_digest format pairs.now }
{
    match gap_digest(format, pairs, Top::of(format, pairs)) {
        Some(digest) => digest,
        None => empty_digest(),
    }
}
