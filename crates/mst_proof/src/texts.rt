//! The texts that a proof frames, each borrowed from its bytes.
ghost use Rattle.std.specs.Prelude.{◌≡◌, ◌==◌, ◌∷◌, [], length, MatchOption, IfOk, IfErr, IfSome};
ghost use Rattle.mst_key.specs.Bytes.{IsBytes};
ghost use Rattle.std.specs.declared.result.Result.TheVariants.{Ok, Err};
ghost use Rattle.mst_node.specs.Reading.{Gives};
ghost use Rattle.mst_proof.specs.Frame.{text_at, rest_at, heading_at, frame_at};

use crate::claim::{Claim, claim_of};
use crate::fault::ProofFault;
use mst_key::Format;
use mst_node::format_byte;
use std::marker::Model;

/// Texts, one after another, each after its length in four bytes.
#[derive(Drop)]
pub(crate) struct Texts<'a> {
    count: u8,
    bytes: &'a [u8],
}

/// Contracts see the list of the texts.
impl<'a> Model for Texts<'a> {
    ghost use Rattle.std.specs.Prelude.{◌≡◌, List, ℕ, Some, []};
    ghost use Rattle.mst_proof.specs.Frame.{texts_at, texts_or_none};

    ghost Value = { List (List ℕ) };

    ghost view = { λ t. texts_or_none t.count t.bytes.now };

    ghost invariant = { λ t. (rest : List ℕ)
        × (texts_at t.count t.bytes.now ≡ Some (texts_or_none t.count t.bytes.now, rest)) };
}

/// The first text, and the bytes after it.
#[tactic(auto, unfolding(crate::specs::Frame::text_at, mst_node::specs::Reading::part_at))]
fn text_of(bytes: &[u8]) -> Option<(&[u8], &[u8])>
    ensures reading { Gives (λ x. (x.0.now, x.1.now)) result (text_at bytes.now) }
    ensures bytes { IfSome result (λ x. IsBytes x.0.now) }
{
    match bytes {
        [a, b, c, d, rest @ ..] => {
            let size = u32::from_be_bytes([*a, *b, *c, *d]) as usize;
            if rest.len() < size {
                None
            } else {
                Some(rest.split_at(size))
            }
        }
        _ => None,
    }
}

/// The bytes after this many texts.
#[tactic(auto, unfolding(crate::specs::Frame::rest_at))]
fn behind(bytes: &[u8], count: u8) -> Option<&[u8]>
    ensures reading { Gives (λ x. x.now) result (rest_at count bytes.now) }
{
    let mut rest = bytes;
    for _ in 0..count {
        let (_, after) = text_of(rest)?;
        rest = after;
    }
    Some(rest)
}

/// After the format's byte: the number of texts, and the bytes that frame them.
fn heading(format: Format, proof: &[u8]) -> Result<(u8, &[u8]), ProofFault>
    ensures ok { IfOk result (λ x. heading_at format proof.now ≡ Ok (x.0, x.1.now)) }
    ensures fault { IfErr result (λ fault. heading_at format proof.now ≡ Err fault) }
{
    match proof {
        [] => Err(ProofFault::CutShort),
        [first_byte, rest @ ..] => {
            if *first_byte != format_byte(format) {
                return Err(ProofFault::FormatByte);
            }
            match rest {
                [] => Err(ProofFault::CutShort),
                [count, bytes @ ..] => Ok((*count, bytes)),
            }
        }
    }
}

impl<'a> Texts<'a> {
    /// The texts of a proof with its claim, or the fault of its frame. No text is looked into.
    pub(crate) fn of(format: Format, proof: &[u8]) -> Result<(Texts<'_>, Claim), ProofFault>
        ensures frame { result ≡ frame_at format proof.now }
    {
        let (count, bytes) = heading(format, proof)?;
        let Some(rest) = behind(bytes, count) else {
            return Err(ProofFault::CutShort);
        };
        match claim_of(format, rest) {
            Ok(claim) => Ok((Texts { count, bytes }, claim)),
            Err(fault) => Err(fault),
        }
    }

    pub(crate) fn is_empty(&self) -> bool
        ensures empty { result ≡ (length self.now == 0) }
    {
        self.count == 0
    }

    /// Takes the first text off.
    pub(crate) fn next(&mut self) -> Option<&'a [u8]>
        ensures next { MatchOption result ((self.old ≡ [])
            × (self.new ≡ [])) (λ text. self.old ≡ text.now ∷ self.new) }
        ensures bytes { IfSome result (λ text. IsBytes text.now) }
    {
        if self.count == 0 {
            return None;
        }
        let Some((text, rest)) = text_of(self.bytes) else {
            unreachable!()
        };
        self.count -= 1;
        self.bytes = rest;
        Some(text)
    }
}
