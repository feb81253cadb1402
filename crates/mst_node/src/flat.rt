//! Flat nodes, read off their texts.
ghost use Rattle.std.specs.Prelude.{◌≡◌, ◌<◌, ◌≤◌, ◌↔◌, length, map, Some, IsTrue, slice_get, is_some, IfSome, option_copied};
ghost use Rattle.std.specs.declared.cmp.Ordering.TheVariants.{Less};
ghost use Rattle.mst_key.specs.Bytes.{IsKey, IsValue};
ghost use Rattle.mst_key.specs.declared.format.Format.TheVariants.{One};
ghost use Rattle.mst_key.specs.Layer.{layer_in};
ghost use Rattle.mst_key.specs.Map.{key_cmp};
ghost use Rattle.mst_node.specs.Text.{child_before};
ghost use Rattle.mst_node.specs.Grammar.{KeysFit};
ghost use Rattle.mst_node.specs.Reading.{Gives, node_at, body_at};
ghost use Rattle.mst_node.specs.Seen.{seen};
ghost use Rattle.mst_node.specs.Held.{held_as, HasSize};

use crate::held::Held;
use crate::order::comes_before;
use crate::reading::{EntryBytes, behind, child_of, entry_of};
use crate::sinks::format_byte;
use mst_key::{Format, Key, Value, layer_of};
use std::marker::Model;

/// A flat node: a node with the digests of its children in their place. It is borrowed from the
/// bytes of its text.
#[derive(Drop)]
pub struct Flat<'a> {
    format: Format,
    layer: u8,
    count: u16,
    body: &'a [u8],
}

/// Contracts see the flat node that the text spells.
impl<'a> Model for Flat<'a> {
    ghost use Rattle.std.specs.Prelude.{IsSome};
    ghost use Rattle.mst_node.specs.Text.{FlatNode};
    ghost use Rattle.mst_node.specs.Reading.{node_of, body_at, body_or_empty};

    ghost Value = { FlatNode };

    ghost view = { λ f. node_of f.format f.layer (body_or_empty f.format f.count f.body.now) };

    ghost invariant = { λ f. IsSome (body_at f.format f.count f.body.now) };
}

/// Whether the bytes are `count` entries and a last child, with nothing after them.
fn has_body(format: Format, bytes: &[u8], count: usize) -> bool
    ensures reading { result ≡ is_some (body_at format count bytes.now) }
{
    match behind(format, bytes, count) {
        None => false,
        Some(rest) => match child_of(rest) {
            None => false,
            Some((_, left)) => left.is_empty(),
        },
    }
}

/// The flat node of a text, whatever its keys.
#[tactic(auto, unfolding(crate::specs::Reading::node_at))]
pub(crate) fn flat_of(format: Format, text: &[u8]) -> Option<Flat<'_>>
    ensures reading { Gives (λ f. f) result (node_at format text.now) }
{
    match text {
        [first_byte, layer, high, low, body @ ..] => {
            let count = u16::from_be_bytes([*high, *low]);
            if *first_byte == format_byte(format)
                && count != 0
                && has_body(format, body, count as usize)
            {
                Some(Flat {
                    format,
                    layer: *layer,
                    count,
                    body,
                })
            } else {
                None
            }
        }
        _ => None,
    }
}

/// Whether the key of an entry has the layer of its node, and is greater than the key of the entry
/// before.
pub(crate) fn fits(format: Format, layer: u8, last: Option<&[u8]>, key: &[u8]) -> bool
    ensures fits { IsTrue result ↔ ((layer_in format key.now ≡ layer)
        × IfSome (option_copied last.entry) (λ low. key_cmp low key.now ≡ Less)) }
{
    if layer_of(format, key) != layer {
        return false;
    }
    match last {
        None => true,
        Some(low) => comes_before(low, key),
    }
}

impl<'a> Flat<'a> {
    /// Whether the keys have the layer of the node, and rise strictly.
    pub(crate) fn keys_fit(&self) -> bool
        ensures fit { IsTrue result ↔ KeysFit self.now }
    {
        let mut rest = self.body;
        let mut last: Option<&[u8]> = None;
        for _ in 0..self.count {
            let Some((entry, after)) = entry_of(self.format, rest) else {
                unreachable!()
            };
            if !fits(self.format, self.layer, last, entry.key) {
                return false;
            }
            last = Some(entry.key);
            rest = after;
        }
        true
    }

    /// The layer of each key: 0 to 64 in format 1, 0 to 128 in format 2.
    pub fn layer(&self) -> u8
        ensures layer { result ≡ self.now.layer }
    {
        self.layer
    }

    /// The number of entries, 1 to 65,535.
    pub fn len(&self) -> usize
        ensures len { result ≡ length self.now.entries }
    {
        self.count as usize
    }

    /// Entry i, borrowed from the text. It is found by going over the entries before it.
    fn entry(&self, i: usize) -> EntryBytes<'a>
        requires inside { i < length self.now.entries }
        ensures entry { slice_get self.now.entries i ≡ Some (seen result) }
        ensures key { IsKey result.key.now }
        ensures value { IsValue result.value.now }
        ensures held { HasSize self.now.format result.value.now }
    {
        match behind(self.format, self.body, i) {
            Some(rest) => match entry_of(self.format, rest) {
                Some((entry, _)) => entry,
                None => unreachable!(),
            },
            None => unreachable!(),
        }
    }

    /// The digest of the last child, borrowed from the text.
    fn tail(&self) -> Option<&'a [u8; 32]>
        ensures tail { option_copied result ≡ self.now.tail }
    {
        match behind(self.format, self.body, self.count as usize) {
            Some(rest) => match child_of(rest) {
                Some((child, _)) => child,
                None => unreachable!(),
            },
            None => unreachable!(),
        }
    }

    /// The key of entry i, counted from 0. It is found by going over the entries before it.
    pub fn key(&self, i: usize) -> Key
        requires inside { i < length self.now.entries }
        ensures key { slice_get (map (λ e. e.key) self.now.entries) i ≡ Some result }
    {
        match Key::new(self.entry(i).key) {
            Ok(key) => key,
            Err(_) => unreachable!(),
        }
    }

    /// What the node holds of the value of entry i, counted from 0. It is found by going over the
    /// entries before it.
    pub fn held(&self, i: usize) -> Held
        requires inside { i < length self.now.entries }
        ensures held { slice_get (map (λ e. held_as self.now.format e.held) self.now.entries) i
            ≡ Some result }
    {
        let entry = self.entry(i);
        Held::of(self.format, entry.value)
    }

    /// The value of entry i of a text in format 1, counted from 0. It is found by going over the
    /// entries before it.
    pub fn value(&self, i: usize) -> Value
        requires inside { i < length self.now.entries }
        requires whole { self.now.format ≡ One }
        ensures value { slice_get (map (λ e. e.held) self.now.entries) i ≡ Some result }
    {
        match Value::new(self.entry(i).value) {
            Ok(value) => value,
            Err(_) => unreachable!(),
        }
    }

    /// The digest of child i, if it is there: child i stands before entry i, and the last one after
    /// all entries. It is found by going over the entries before it.
    pub fn child(&self, i: usize) -> Option<[u8; 32]>
        requires inside { i ≤ length self.now.entries }
        ensures child { result ≡ child_before self.now.entries self.now.tail i }
    {
        let child = if i < self.len() {
            self.entry(i).child
        } else {
            self.tail()
        };
        child.copied()
    }
}
