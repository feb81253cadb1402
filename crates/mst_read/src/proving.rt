//! The proof of the answer for a key.
ghost use Rattle.std.specs.Prelude.{◌≡◌, ◌≤◌, ◌<◌, ◌+◌, ◌^◌, ◌++◌, ◌∷◌, ℕ, List, length, OnOk, IfOk, IfSome};
ghost use Rattle.mst_key.specs.declared.format.Format.TheVariants.{Two};
ghost use Rattle.mst_key.specs.Map.{Pair, map_get};
ghost use Rattle.mst_node.specs.Tree.{node};
ghost use Rattle.mst_node.specs.Text.{child_digest, child_text, text};
ghost use Rattle.mst_node.specs.Trail.{answer_text, proof_text};
ghost use Rattle.mst_arena.specs.Row.{IsHead};
ghost use Rattle.mst_arena.specs.Standing.{Placed, Chain, Stands, tree_of, entries_of};
ghost use Rattle.std.specs.Int.{w32, to_be_bytes};
ghost use Rattle.mst_key.specs.declared.format.Format.{Format};
ghost use Rattle.mst_read.specs.Search.{ChainLies, Lies, LiesBehind, StandsBelow, gap_placed, head_of};

use crate::buffer::NodeBuffer;
use crate::descent::head_at;
use crate::lookup::{RowPlace, get_below, seek};
use mst_arena::{HeadLinks, Root, Rows, Sought};
use mst_key::{Format, Key, Memory, Value};
use mst_node::{TextSink, format_byte};
use std::alloc::Allocator;

/// How many bytes a proof asks room for at first. Those of a map of some thousand pairs have fewer.
const FIRST_ROOM: usize = 8_192;

/// The digest of the tree at the link, as it stands in the text of the node above; `None` for the
/// empty tree.
fn digest_at<R: Rows>(rows: &mut R, link: u32) -> Option<[u8; 32]>
    requires lies { (f : Format) × (p : Placed) × Lies f (R.content rows.old) link p }
    ensures digest { (f : Format) (p : Placed) → Lies f (R.content rows.old) link p
        → result ≡ child_digest (tree_of f p) }
    ensures short { length (child_text result) ≤ 33 }
    ensures same { rows.new ≡ rows.old }
{
    if link == 0 {
        None
    } else {
        Some(rows.digest(link - 1))
    }
}

/// Writes the text of the node of the head: at most 37 bytes, and at most 131 for each entry. It
/// asks at once for 64 bytes an entry, which most texts do not exceed.
fn write_node<R: Rows, A: Allocator>(
    rows: &mut R,
    head: &HeadLinks,
    format: Format,
    out: &mut NodeBuffer<A>,
)
    requires lies { (c : Chain) × LiesBehind format (R.content rows.old) head.now c }
    requires limits { IsHead head.now }
    ensures ok { (c : Chain) → LiesBehind format (R.content rows.old) head.now c
        → IfSome out.new (λ t. t ≡ text (node format head.now.layer (entries_of format c))) }
    ensures short { IfSome out.new (λ t. length t ≤ 8584991) }
    ensures same { rows.new ≡ rows.old }
{
    out.begin(64 * head.count as usize);
    out.heading(format, head.layer, head.count as u16);
    let mut link = head.first;
    for _ in 0..head.count {
        let row = link - 1;
        let links = rows.links(row);
        let child = digest_at(rows, links.child);
        rows.spell(row, format, child, out);
        link = links.next;
    }
    out.child(digest_at(rows, head.tail));
}

/// Appends a text, of fewer than 2^32 bytes, after its length in four bytes, the high one first.
fn push_framed<A: Allocator>(out: &mut Vec<u8, A>, text: &[u8]) -> Result<(), Memory>
    requires short { length text.now < 2 ^ 32 }
    ensures ok { OnOk result
        (out.new.items ≡ out.old.items ++ (to_be_bytes w32 (length text.now) ++ text.now)) }
{
    out.extend_from_slice((text.len() as u32).to_be_bytes().as_slice())?;
    out.extend_from_slice(text)?;
    Ok(())
}

/// Writes the number of texts after the format, into the byte that is kept for it.
fn write_count<A: Allocator>(out: &mut Vec<u8, A>, count: u8)
    requires room { 2 ≤ length out.old.items }
    ensures count { (format room : ℕ) (texts : List ℕ) → out.old.items ≡ format ∷ room ∷ texts
        → out.new.items ≡ format ∷ count ∷ texts }
{
    out[1] = count;
}

/// The head of the tree in the gap in which the key would lie; `None` if the node has the key, or
/// the gap no tree.
fn gap_met<R: Rows>(rows: &mut R, head: &HeadLinks, key: &Sought) -> Option<HeadLinks>
    requires lies { ChainLies (R.content rows.old) head.now }
    ensures head { (f : Format) (c : Chain) → LiesBehind f (R.content rows.old) head.now c
        → result ≡ head_of (gap_placed key.now c) }
    ensures limits { IfSome result IsHead }
    ensures same { rows.new ≡ rows.old }
{
    match seek(rows, head, key) {
        RowPlace::Found(_row) => None,
        RowPlace::Gap(link) => head_at(rows, link),
    }
}

/// Appends what a proof of format 2 claims: a byte 0 if the key has no value, otherwise a byte 1
/// and the value after its length in one byte.
fn push_claim<A: Allocator>(out: &mut Vec<u8, A>, answer: &Option<Value>) -> Result<(), Memory>
    ensures ok { OnOk result (out.new.items ≡ out.old.items ++ answer_text Two answer.now) }
    ensures short { OnOk result (length out.new.items ≤ length out.old.items + 66) }
{
    let Some(value) = answer else {
        out.push(0)?;
        return Ok(());
    };
    let bytes = value.bytes();
    out.push(1)?;
    out.push(bytes.len() as u8)?;
    out.extend_from_slice(bytes)?;
    Ok(())
}

/// Appends what follows the texts of a proof: nothing in format 1, and in format 2 the answer for
/// the key.
fn push_answer<R: Rows, A: Allocator>(
    out: &mut Vec<u8, A>,
    rows: &mut R,
    link: u32,
    key: &Key,
    format: Format,
) -> Result<(), Memory>
    requires stands { (m : List Pair) × StandsBelow format (R.content rows.old) link m }
    ensures ok { (m : List Pair) → StandsBelow format (R.content rows.old) link m
        → OnOk result (out.new.items ≡ out.old.items ++ answer_text format (map_get m key.now)) }
    ensures short { OnOk result (length out.new.items ≤ length out.old.items + 66) }
    ensures same { rows.new ≡ rows.old }
{
    match format {
        Format::One => Ok(()),
        Format::Two => push_claim(out, &get_below(rows, link, key)),
    }
}

/// The proof of the answer for the key of the map that stands at the link in a format: the number
/// of the format, the number of texts, and the texts of the nodes that the search for the key
/// meets, from the top down, each after its length in four bytes. In format 2 the answer follows: a
/// byte 0 if the key has no value, otherwise a byte 1 and the value after its length in one byte.
///
/// The proof has fewer than 2^32 bytes. Returns `Memory` only if a growth was refused, and then
/// changes nothing.
///
/// It reads the nodes on the way to the key, at most 65 in format 1 and 129 in format 2: of each
/// all entries with their values, and the digests of its children. In format 2 it then looks up the
/// key's value.
pub fn prove_below<R: Rows, A: Allocator + Copy>(
    alloc: A,
    rows: &mut R,
    link: u32,
    key: &Key,
    format: Format,
) -> Result<Vec<u8, A>, Memory>
    requires stands { (m : List Pair) × StandsBelow format (R.content rows.old) link m }
    ensures proof { (m : List Pair) → StandsBelow format (R.content rows.old) link m
        → IfOk result (λ proof. proof.items ≡ proof_text format m key.now) }
    ensures short { IfOk result (λ proof. length proof.items < 2 ^ 32) }
    ensures same { rows.new ≡ rows.old }
{
    let sought = Sought::new(key);
    let mut text = NodeBuffer::new(alloc);
    let mut proof = Vec::new(alloc);
    proof.reserve(FIRST_ROOM)?;
    proof.push(format_byte(format))?;
    // the number of texts stands here once it is known
    proof.push(0)?;
    let mut count = 0u8;
    let mut top = head_at(rows, link);
    while let Some(head) = top {
        write_node(rows, &head, format, &mut text);
        push_framed(&mut proof, text.bytes()?)?;
        count += 1;
        top = gap_met(rows, &head, &sought);
    }
    write_count(&mut proof, count);
    push_answer(&mut proof, rows, link, key, format)?;
    Ok(proof)
}

/// The proof of the answer for the key of the map that stands at the root, as [`prove_below`] has
/// it at a link.
pub fn prove<R: Rows, A: Allocator + Copy>(
    alloc: A,
    rows: &mut R,
    root: &Root,
    key: &Key,
    format: Format,
) -> Result<Vec<u8, A>, Memory>
    requires stands { (m : List Pair) × Stands format (R.content rows.old) root.now m }
    ensures proof { (m : List Pair) → Stands format (R.content rows.old) root.now m
        → IfOk result (λ proof. proof.items ≡ proof_text format m key.now) }
    ensures short { IfOk result (λ proof. length proof.items < 2 ^ 32) }
    ensures same { rows.new ≡ rows.old }
{
    prove_below(alloc, rows, root.link, key, format)
}
