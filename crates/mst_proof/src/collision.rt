//! The collision behind a false answer.
ghost use Rattle.std.specs.Prelude.{◌≡◌, ◌↔◌, ◌≤◌, List, ℕ, [], None, Contains, length, IsTrue, IfOk, IfSome, IfNone, IsOk, OnErr};
ghost use Rattle.std.specs.Option.{option_copied};
ghost use Rattle.mst_key.specs.declared.format.Format.{Format};
ghost use Rattle.mst_key.specs.declared.format.Format.TheVariants.{One};
ghost use Rattle.mst_key.specs.Map.{Pair as KeyValue, IsMap};
ghost use Rattle.mst_node.specs.Collision.{Collision};
ghost use Rattle.mst_node.specs.Shape.{tree_of, tree_of_child};
ghost use Rattle.mst_node.specs.Text.{highest_count};
ghost use Rattle.mst_node.specs.Tree.{tree as tree_of_map};
ghost use Rattle.mst_proof.specs.Beside.{top_of, gap_tree, held_value, IsSmall, NoOther, ShowsNoOther, CollidesBeside};
ghost use Rattle.mst_proof.specs.Frame.{frame_at};
ghost use Rattle.mst_proof.specs.Theorem.{texts_of, ValuesCollide, CollidesWith};

use crate::claim::Claim;
use crate::texts::Texts;
use mst_key::{Format, Key, Memory, Value};
use mst_node::{Node, digest, text_in};
use std::alloc::{Allocator, Global};
use std::cmp::Ordering;

/// Two different texts with one SHA-256.
#[derive(Debug, Drop)]
pub struct Pair<A: Allocator = Global> {
    pub one: Vec<u8, A>,
    pub other: Vec<u8, A>,
}

/// Whether two texts are different and have one digest.
fn is_collision(one: &[u8], other: &[u8]) -> bool
    ensures collision { IsTrue result ↔ Collision one.now other.now }
{
    one != other && digest(one) == digest(other)
}

/// The two texts, if they are different and have one digest.
fn pair_of<A: Allocator + Copy>(
    alloc: A,
    one: &[u8],
    other: Vec<u8, A>,
) -> Result<Option<Pair<A>>, Memory>
    ensures none { IfOk result (λ pair. IfNone pair (Collision one.now other.items → ⊥)) }
    ensures some { IfOk result (λ pair. IfSome pair (λ p. (p.one.items ≡ one.now)
        × (p.other.items ≡ other.items) × Collision one.now other.items)) }
    ensures memory { OnErr result (Collision one.now other.items) }
{
    if !is_collision(one, other.as_slice()) {
        return Ok(None);
    }
    let one = Vec::from_slice(alloc, one)?;
    Ok(Some(Pair { one, other }))
}

/// The claimed value and this one, if they are different and have one digest.
fn value_pair<A: Allocator + Copy>(
    alloc: A,
    claim: &Claim,
    value: Option<&Value>,
) -> Result<Option<Pair<A>>, Memory>
    ensures none { IfOk result (λ pair. IfNone pair ((one other : List ℕ)
        → ValuesCollide claim.now (option_copied value.entry) one other → ⊥)) }
    ensures some { IfOk result (λ pair. IfSome pair
        (λ p. ValuesCollide claim.now (option_copied value.entry) p.one.items p.other.items)) }
{
    let Claim::Given(claimed) = claim else {
        return Ok(None);
    };
    let Some(value) = value else {
        return Ok(None);
    };
    if !is_collision(claimed.bytes(), value.bytes()) {
        return Ok(None);
    }
    let value = Vec::from_slice(alloc, value.bytes())?;
    pair_of(alloc, claimed.bytes(), value)
}

/// A child, borrowed from its box.
fn node_in<B: Allocator>(child: &Option<Box<Node<B>, B>>) -> Option<&Node<B>>
    ensures child { (format : Format) → top_of format (option_copied result)
        ≡ tree_of_child format child.now }
{
    match child {
        None => None,
        Some(node) => Some(&**node),
    }
}

/// The child in the key's gap, if the node does not hold the key and there is one.
fn child_for<'a, B: Allocator>(node: &'a Node<B>, key: &Key) -> Option<&'a Node<B>>
    ensures child { (format : Format) → top_of format (option_copied result)
        ≡ gap_tree key.now (tree_of format node.now) }
{
    for entry in &node.entries {
        match key.cmp(&entry.key) {
            Ordering::Less => return node_in(&entry.child),
            Ordering::Equal => return None,
            Ordering::Greater => {}
        }
    }
    node_in(&node.tail)
}

/// The value of the entry that holds the key, if there is one.
fn value_for<'a, B: Allocator>(node: &'a Node<B>, key: &Key) -> Option<&'a Value>
    ensures value { (format : Format) → option_copied result
        ≡ held_value key.now (tree_of format node.now) }
{
    for entry in &node.entries {
        match key.cmp(&entry.key) {
            Ordering::Less => return None,
            Ordering::Equal => return Some(&entry.value),
            Ordering::Greater => {}
        }
    }
    None
}

/// Follows the texts and the nodes from a node down, up to the first text that is not its node's.
/// If each text is its node's, the claimed value is compared with that of the node's entry. Each
/// call takes one text of the proof and goes to a child, so calls nest no deeper than the proof's
/// texts, at most 255, and no deeper than the tree's layers.
fn walk<A: Allocator + Copy>(
    alloc: A,
    format: Format,
    key: &Key,
    claim: &Claim,
    texts: Texts<'_>,
    node: &Node<A>,
) -> Result<Option<Pair<A>>, Memory>
    requires small { IsSmall format (tree_of format node.now) }
    ensures none { IfOk result (λ pair. IfNone pair
        (NoOther format claim.now (tree_of format node.now) key.now texts.entry)) }
    ensures some { IfOk result (λ pair. IfSome pair (λ p. CollidesBeside claim.now key.now
        texts.entry (tree_of format node.now) p.one.items p.other.items)) }
{
    let mut texts = texts;
    let Some(found) = texts.next() else {
        return Ok(None);
    };
    let expected = text_in(alloc, format, node)?;
    if found != expected.as_slice() {
        return pair_of(alloc, found, expected);
    }
    match child_for(node, key) {
        None => value_pair(alloc, claim, value_for(node, key)),
        Some(child) => walk(alloc, format, key, claim, texts, child),
    }
}

/// The collision behind a false answer: two different texts with one SHA-256 (FIPS 180-4). `one` is
/// a text of the proof, and `other` the text of the tree's node at the same place on the way to the
/// key; up to there both have the same texts. For a proof without texts `one` is empty, without a
/// tree `other` is. The tree is that of a map of at most 65,535 pairs.
///
/// If `verify` returns another answer than the map's for the key and the map's root digest, there
/// is such a pair, and it is found: `collide` returns `None` only if the proof shows no other
/// answer. Returns `Memory` only if a growth was refused: never if the proof's frame is broken, and
/// without a tree only if there is such a pair. The texts of the nodes that a search for the key
/// meets are made one after another, up to the first that is not the proof's.
pub fn collide<A: Allocator + Copy>(
    alloc: A,
    key: &Key,
    proof: &[u8],
    tree: Option<&Node<A>>,
) -> Result<Option<Pair<A>>, Memory>
    requires map { (m : List KeyValue) × IsMap m × (length m ≤ highest_count)
        × (top_of One (option_copied tree) ≡ tree_of_map One m) }
    ensures none { IfOk result
        (λ pair. IfNone pair
        (ShowsNoOther One (top_of One (option_copied tree.entry)) key.now proof.now)) }
    ensures some { (m : List KeyValue)
        → top_of One (option_copied tree.entry) ≡ tree_of_map One m
        → IfOk result (λ pair. IfSome pair
        (λ p. CollidesWith One m key.now proof.now p.one.items p.other.items)) }
    ensures memory { OnErr result (IsOk (frame_at One proof.now)) }
    // without a tree only the pair itself takes memory
    ensures memory_of_pair { OnErr result (tree.entry ≡ None → (text : List ℕ)
        × Contains (texts_of One proof.now) text × Collision text []) }
{
    collide_in(alloc, Format::One, key, proof, tree)
}

/// The collision behind a false answer in a format, as `collide` finds it in format 1. The tree is
/// that of the map in this format.
///
/// In format 2 a node's text holds the SHA-256 of a value. So if each text of the proof is its
/// node's text, the value that the proof claims may be another one with the same SHA-256: it is
/// compared with the map's value of the key, and the pair may be these two values, the claimed one
/// first.
pub fn collide_in<A: Allocator + Copy>(
    alloc: A,
    format: Format,
    key: &Key,
    proof: &[u8],
    tree: Option<&Node<A>>,
) -> Result<Option<Pair<A>>, Memory>
    requires map { (m : List KeyValue) × IsMap m × (length m ≤ highest_count)
        × (top_of format (option_copied tree) ≡ tree_of_map format m) }
    ensures none { IfOk result (λ pair. IfNone pair
        (ShowsNoOther format (top_of format (option_copied tree.entry)) key.now proof.now)) }
    ensures some { (m : List KeyValue)
        → top_of format (option_copied tree.entry) ≡ tree_of_map format m
        → IfOk result (λ pair. IfSome pair
        (λ p. CollidesWith format m key.now proof.now p.one.items p.other.items)) }
    ensures memory { OnErr result (IsOk (frame_at format proof.now)) }
    // without a tree only the pair itself takes memory
    ensures memory_of_pair { OnErr result (tree.entry ≡ None → (text : List ℕ)
        × Contains (texts_of format proof.now) text × Collision text []) }
{
    let Ok((mut texts, claim)) = Texts::of(format, proof) else {
        return Ok(None);
    };
    let Some(node) = tree else {
        return match texts.next() {
            None => Ok(None),
            Some(found) => pair_of(alloc, found, Vec::new(alloc)),
        };
    };
    if texts.is_empty() {
        let nothing: [u8; 0] = [];
        return pair_of(alloc, nothing.as_slice(), text_in(alloc, format, node)?);
    }
    walk(alloc, format, key, &claim, texts, node)
}
