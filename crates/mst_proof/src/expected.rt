//! What the verifier expects of the next text, and what the text says of the key.
ghost use Rattle.std.specs.Prelude.{◌≡◌};
ghost use Rattle.std.specs.Str.{bytes_eq};
ghost use Rattle.mst_node.specs.Text.{digest_of};
ghost use Rattle.mst_proof.specs.Verdict.{is_under as under, first_expected, step_of as step_from, step_at};

use crate::fault::ProofFault;
use mst_key::{Format, Key, Value};
use mst_node::{KeyPlace, Span, digest, find_in_text};

/// What is expected of the next text.
#[derive(Drop)]
pub(crate) struct Expected {
    /// The digest of the text.
    pub digest: [u8; 32],
    /// The layer of the node above, below which the node lies, if there is one.
    pub upper: Option<u8>,
    /// The gap in which the node stands, where its keys lie.
    pub span: Span,
}

/// What a text says of the key.
#[derive(Drop)]
pub(crate) enum Step {
    /// The node holds this of the key's value, or the key is absent.
    Decided(Option<Value>),
    /// The key lies in a gap that has a child.
    Onward(Expected),
}

impl Step {
    /// Of a key's place in a node of this layer.
    fn of(layer: u8, place: KeyPlace) -> Step
        ensures step { result ≡ step_from layer place }
    {
        match place {
            KeyPlace::Found(value) => Step::Decided(Some(value)),
            KeyPlace::Gap { child: None, .. } => Step::Decided(None),
            KeyPlace::Gap {
                child: Some(digest),
                span,
            } => Step::Onward(Expected {
                digest,
                upper: Some(layer),
                span,
            }),
        }
    }
}

/// Whether a layer lies below another one, if that is there.
fn is_under(upper: Option<u8>, layer: u8) -> bool
    ensures under { result ≡ under upper layer }
{
    match upper {
        None => true,
        Some(upper) => layer < upper,
    }
}

/// Whether a text has a digest. The two are compared as slices, in place: as arrays they would
/// first be copied byte by byte.
fn has_digest(text: &[u8], expected: &[u8; 32]) -> bool
    ensures same { result ≡ bytes_eq (digest_of text.now) expected.now }
{
    digest(text).as_slice() == expected.as_slice()
}

impl Expected {
    /// Of the first text.
    pub(crate) fn first(root: &[u8; 32]) -> Expected
        ensures first { result ≡ first_expected root.now }
    {
        Expected {
            digest: *root,
            upper: None,
            span: Span::all(),
        }
    }

    /// What the text says of the key, or the first test that it fails.
    pub(crate) fn step(self, format: Format, key: &Key, text: &[u8]) -> Result<Step, ProofFault>
        ensures step { result ≡ step_at format key.now self text.now }
    {
        let Some(found) = find_in_text(format, text, key, self.span) else {
            return Err(ProofFault::NoNode);
        };
        if !has_digest(text, &self.digest) {
            return Err(ProofFault::OtherDigest);
        }
        if !is_under(self.upper, found.layer) {
            return Err(ProofFault::LayerNotBelow);
        }
        if !found.within {
            return Err(ProofFault::KeyOutside);
        }
        Ok(Step::of(found.layer, found.place))
    }
}
