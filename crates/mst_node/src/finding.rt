//! One reading of a text: whether it is a node's, and where a key lies in the node.
ghost use Rattle.std.specs.Prelude.{◌≡◌, ◌≤◌, ◌<◌, ◌↔◌, ℕ, None, IsTrue, IfSome, IfNone, IsSome, length, option_copied, option_map};
ghost use Rattle.std.specs.Option.{option_or};
ghost use Rattle.std.specs.declared.cmp.Ordering.TheVariants.{Less};
ghost use Rattle.mst_key.specs.Bytes.{IsKey};
ghost use Rattle.mst_key.specs.Layer.{layer_in};
ghost use Rattle.mst_key.specs.Map.{key_cmp};
ghost use Rattle.mst_node.specs.Text.{FlatNode, spelling};
ghost use Rattle.mst_node.specs.Grammar.{IsFlatNode, InGrammar};
ghost use Rattle.mst_node.specs.Found.{IsFound};
ghost use Rattle.mst_node.specs.Reading.{Gives};
ghost use Rattle.mst_node.specs.Scan.{seen_passed, seen_stop, start, key_before, first_at, scan_at, scan_from, body_scan_at, text_scan_at, EndsLieIn, Halts, stop_place, place_by, PassedFits, StopFits};

use crate::key_place::{KeyPlace, Span};
use crate::order::comes_before;
use crate::reading::{EntryBytes, child_of, entry_of};
use crate::sinks::format_byte;
use mst_key::{Format, Key, Value, layer_of};

/// What one reading of a node's text says of a key.
#[derive(Drop)]
pub struct Finding {
    /// The layer of the node.
    pub layer: u8,
    /// Whether all keys of the node lie in the span that was given.
    pub within: bool,
    /// Where the key lies.
    pub place: KeyPlace,
}

/// The entry at which a search stops, the key before it, and whether the entry has the sought key.
#[derive(Clone, Copy)]
pub(crate) struct Stop<'a> {
    pub low: Option<&'a [u8]>,
    pub entry: EntryBytes<'a>,
    pub here: bool,
}

/// What was passed: the last key, and the entry at which the search stopped.
#[derive(Clone, Copy)]
pub(crate) struct Passed<'a> {
    pub last: Option<&'a [u8]>,
    pub stop: Option<Stop<'a>>,
}

/// The entries to come: the key before them, empty if there is none, their number, and the bytes
/// from the first of them on. A search that goes over entries carries no more than this.
#[derive(Clone, Copy)]
pub(crate) struct Coming<'a> {
    pub last: &'a [u8],
    pub left: u16,
    pub rest: &'a [u8],
}

/// The key of these bytes, or another if there are none.
fn bound_of(bytes: Option<&[u8]>, other: Option<Key>) -> Option<Key>
    requires key { IfSome (option_copied bytes) IsKey }
    ensures bound { result ≡ option_or (option_copied bytes.entry) other }
{
    match bytes {
        None => other,
        Some(bytes) => match Key::new(bytes) {
            Ok(key) => Some(key),
            Err(_) => unreachable!(),
        },
    }
}

/// Whether a key lies above a bound, if both are there.
fn is_above(key: Option<&[u8]>, low: &Option<Key>) -> bool
    ensures above { IsTrue result ↔ IfSome (option_copied key.entry)
        (λ k. IfSome low.now (λ b. key_cmp b k ≡ Less)) }
{
    match key {
        None => true,
        Some(key) => match low {
            None => true,
            Some(low) => comes_before(low.bytes(), key),
        },
    }
}

/// Whether a key lies below a bound, if both are there.
fn is_below(key: Option<&[u8]>, high: &Option<Key>) -> bool
    ensures below { IsTrue result ↔ IfSome (option_copied key.entry)
        (λ k. IfSome high.now (λ b. key_cmp k b ≡ Less)) }
{
    match key {
        None => true,
        Some(key) => match high {
            None => true,
            Some(high) => comes_before(key, high.bytes()),
        },
    }
}

impl<'a> Stop<'a> {
    /// Where the search stopped, above this bound.
    fn place(self, low: Option<Key>) -> KeyPlace
        requires limits { StopFits (seen_stop self) }
        ensures place { result ≡ stop_place (seen_stop self.entry) low }
    {
        if self.here {
            match Value::new(self.entry.value) {
                Ok(value) => KeyPlace::Found(value),
                Err(_) => unreachable!(),
            }
        } else {
            let low = bound_of(self.low, low);
            let high = bound_of(Some(self.entry.key), None);
            let child = self.entry.child.copied();
            let span = Span { low, high };
            KeyPlace::Gap { child, span }
        }
    }
}

impl<'a> Passed<'a> {
    /// Whether the first key lies above the low bound of the span, and the last one below the high
    /// one.
    fn ends_lie_in(&self, first: Option<&[u8]>, span: &Span) -> bool
        ensures within { IsTrue result
            ↔ EndsLieIn span.now (option_copied first.entry) (seen_passed self.now) }
    {
        is_above(first, &span.low) && is_below(self.last, &span.high)
    }

    /// Where the search ended, in a span and before this last child.
    fn place(self, span: Span, tail: Option<&[u8; 32]>) -> KeyPlace
        requires limits { PassedFits (seen_passed self) }
        ensures place { result ≡ place_by (seen_passed self.entry).stop
            (seen_passed self.entry).last span (option_copied tail.entry) }
    {
        match self.stop {
            Some(stop) => stop.place(span.low),
            None => {
                let low = bound_of(self.last, span.low);
                let high = span.high;
                let child = tail.copied();
                let span = Span { low, high };
                KeyPlace::Gap { child, span }
            }
        }
    }
}

/// The key before, if there is one.
fn before(last: &[u8]) -> Option<&[u8]>
    requires limit { length last.now ≤ 32 }
    ensures key { option_copied result ≡ key_before last.now }
    ensures limits { IfSome (option_copied result) IsKey }
{
    if last.is_empty() { None } else { Some(last) }
}

/// Whether a key has the layer of its node, and is greater than the key before.
fn follows(format: Format, layer: u8, last: &[u8], key: &[u8]) -> bool
    requires key { IsKey key.now }
    ensures fits { IsTrue result ↔ ((layer_in format key.now ≡ layer)
        × IfSome (key_before last.now) (λ low. key_cmp low key.now ≡ Less)) }
{
    layer_of(format, key) == layer && comes_before(last, key)
}

/// Whether a search goes on over a key: it has stopped before, or the key is below the sought one.
fn goes_on(stop: &Option<Stop<'_>>, passed: &[u8], key: &[u8]) -> bool
    ensures on { IsTrue result ↔ IfNone stop.now (key_cmp passed.now key.now ≡ Less) }
{
    match stop {
        Some(_) => true,
        None => comes_before(passed, key),
    }
}

/// Goes over entries whose keys fit: up to where the search stops or, if it has, to their end.
fn pass<'a>(
    format: Format,
    layer: u8,
    key: &[u8],
    stop: &Option<Stop<'_>>,
    coming: Coming<'a>,
) -> Option<Coming<'a>>
    requires limit { length coming.last.now ≤ 32 }
    ensures scanned { IfSome result (λ r. scan_from format layer key.now stop.now r
        ≡ scan_from format layer key.now stop.now coming.entry) }
    ensures unfit { IfNone result (scan_from format layer key.now stop.now coming.entry ≡ None) }
    ensures limit { IfSome result (λ r. length r.last.now ≤ 32) }
    ensures fewer { IfSome result (λ r. r.left ≤ coming.entry.left) }
    ensures halts { IfSome result (λ r. 0 < r.left → Halts format key.now stop.now r.rest.now) }
{
    let mut last = coming.last;
    let mut rest = coming.rest;
    for passed in 0..coming.left {
        let Some((entry, after)) = entry_of(format, rest) else {
            return None;
        };
        if !goes_on(stop, entry.key, key) {
            let left = coming.left - passed;
            return Some(Coming { last, left, rest });
        }
        if !follows(format, layer, last, entry.key) {
            return None;
        }
        last = entry.key;
        rest = after;
    }
    let left = 0;
    Some(Coming { last, left, rest })
}

/// The stop of a search that has gone over all keys below the sought one.
fn stop_of<'a>(format: Format, key: &[u8], coming: Coming<'a>) -> Option<Stop<'a>>
    requires limit { length coming.last.now ≤ 32 }
    requires halts { 0 < coming.left → Halts format key.now None coming.rest.now }
    ensures scanned { (layer : ℕ) → scan_from format layer key.now result coming.entry
        ≡ scan_from format layer key.now None coming.entry }
    ensures limits { IfSome (option_map seen_stop result) StopFits }
    ensures stops { 0 < coming.entry.left → IsSome result }
{
    if coming.left == 0 {
        return None;
    }
    let Some((entry, _)) = entry_of(format, coming.rest) else {
        unreachable!()
    };
    let low = before(coming.last);
    let here = !comes_before(key, entry.key);
    Some(Stop { low, entry, here })
}

/// This many entries whose keys fit, with the bytes after them.
fn scan<'a>(
    format: Format,
    layer: u8,
    key: &[u8],
    count: u16,
    bytes: &'a [u8],
) -> Option<(Passed<'a>, &'a [u8])>
    ensures reading { Gives (λ x. (seen_passed x.0, x.1.now)) result
        (scan_at format layer key.now start count bytes.now) }
    ensures limits { IfSome result (λ x. PassedFits (seen_passed x.0)) }
{
    let none: &[u8] = &[];
    let all = Coming {
        last: none,
        left: count,
        rest: bytes,
    };
    let below = pass(format, layer, key, &None, all)?;
    let stop = stop_of(format, key, below);
    let end = pass(format, layer, key, &stop, below)?;
    let last = before(end.last);
    Some((Passed { last, stop }, end.rest))
}

/// The key of the first entry, if there is one.
fn first_key(format: Format, bytes: &[u8]) -> Option<&[u8]>
    ensures first { option_copied result ≡ first_at format bytes.now }
{
    match entry_of(format, bytes) {
        None => None,
        Some((entry, _)) => Some(entry.key),
    }
}

/// This many entries and the last child, with nothing after them.
#[tactic(auto, unfolding(crate::specs::Scan::body_scan_at))]
fn body_scan<'a>(
    format: Format,
    layer: u8,
    key: &[u8],
    count: u16,
    body: &'a [u8],
) -> Option<(Passed<'a>, Option<&'a [u8; 32]>)>
    ensures reading { Gives (λ x. (seen_passed x.0, option_copied x.1)) result
        (body_scan_at format layer key.now count body.now) }
    ensures limits { IfSome result (λ x. PassedFits (seen_passed x.0)) }
{
    let (passed, rest) = scan(format, layer, key, count, body)?;
    let (tail, left) = child_of(rest)?;
    match left {
        [] => Some((passed, tail)),
        [_, ..] => None,
    }
}

/// The layer of a whole text, the first key, what was passed, and the last child.
#[tactic(auto, unfolding(crate::specs::Scan::text_scan_at))]
fn text_scan<'a>(
    format: Format,
    key: &[u8],
    text: &'a [u8],
) -> Option<(u8, Option<&'a [u8]>, Passed<'a>, Option<&'a [u8; 32]>)>
    ensures reading { Gives (λ x. (x.0, option_copied x.1, seen_passed x.2, option_copied x.3))
        result (text_scan_at format key.now text.now) }
    ensures limits { IfSome result (λ x. PassedFits (seen_passed x.2)) }
{
    match text {
        [first_byte, layer, high, low, body @ ..] => {
            let count = u16::from_be_bytes([*high, *low]);
            if *first_byte == format_byte(format) && count != 0 {
                let (passed, tail) = body_scan(format, *layer, key, count, body)?;
                let first = first_key(format, body);
                Some((*layer, first, passed, tail))
            } else {
                None
            }
        }
        _ => None,
    }
}

/// What a text says of a key, if it is a node's: its layer, whether its keys lie in the span, and
/// where the key lies in it, from one reading in which each key is hashed once. Returns `None`
/// exactly if the bytes are not in the grammar of node texts.
pub fn find_in_text(format: Format, text: &[u8], key: &Key, span: Span) -> Option<Finding>
    ensures found { IfSome result (λ f. (n : FlatNode) × (n.format ≡ format) × IsFlatNode n
        × (text.now ≡ spelling n) × IsFound key.now span n f) }
    ensures grammar { IsSome result ↔ InGrammar format text.now }
{
    let Some((layer, first, passed, tail)) = text_scan(format, key.bytes(), text) else {
        return None;
    };
    let within = passed.ends_lie_in(first, &span);
    let place = passed.place(span, tail);
    Some(Finding {
        layer,
        within,
        place,
    })
}
