//! The texts that are in the grammar.
ghost use Rattle.std.specs.Prelude.{◌≡◌, ◌↔◌, IsOk, IfOk};
ghost use Rattle.mst_key.specs.declared.format.Format.TheVariants.{One};
ghost use Rattle.mst_node.specs.Text.{spelling};
ghost use Rattle.mst_node.specs.Grammar.{IsFlatNode, InGrammar};

use crate::flat::{Flat, flat_of};
use mst_key::Format;
use thiserror::Error;

/// The bytes are not the text of a flat node.
#[derive(Clone, Copy, Debug, PartialEq, Eq, Error)]
#[error("not a node text")]
pub struct NodeFault;

/// The flat node that the bytes spell in format 1, borrowed from them. Returns `NodeFault` exactly
/// if the bytes are not in the grammar of node texts: the byte 1 for the format; the layer; the
/// number of entries, 1 to 65,535, in two bytes, the high one first; the first child; then for each
/// entry the length of its key, 1 to 32, the key, the length of its value, 0 to 64, the value, and
/// the child after it, with no byte left over. A child is the byte 00, or the byte 01 and 32 bytes.
/// The keys rise strictly, and the layer of each is that of the node.
pub fn read_text(bytes: &[u8]) -> Result<Flat<'_>, NodeFault>
    // Every byte is part of the flat node's text.
    ensures spelling { IfOk result (λ n. (n.format ≡ One) × IsFlatNode n
        × (bytes.now ≡ spelling n)) }
    ensures grammar { IsOk result ↔ InGrammar One bytes.now }
{
    read_text_in(Format::One, bytes)
}

/// The flat node that the bytes spell in a format, borrowed from them, as `read_text` does in
/// format 1. In format 2 a text begins with the byte 2, and 32 bytes, the SHA-256 of the value,
/// stand for each value and its length.
pub fn read_text_in(format: Format, bytes: &[u8]) -> Result<Flat<'_>, NodeFault>
    ensures spelling { IfOk result (λ n. (n.format ≡ format) × IsFlatNode n
        × (bytes.now ≡ spelling n)) }
    ensures grammar { IsOk result ↔ InGrammar format bytes.now }
{
    match flat_of(format, bytes) {
        Some(flat) if flat.keys_fit() => Ok(flat),
        _ => Err(NodeFault),
    }
}
